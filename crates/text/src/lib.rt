// Texts and numbers, written into a lent buffer. Past its end nothing is stored. The length goes on counting, up to the largest usize: so nobody has to
// see that there is room, and who wants to know compares the length with the buffer's.
// Not `write!`: what is written here is promised byte by byte on every call, with no error and no allocation.
#![tactic(auto)]

ghost use Rattle.std.specs.Prelude.{◌≡◌, ◌+◌, ◌-◌, ◌%◌, length, replicate, [], ◌∷◌};
ghost use Rattle.digits.specs.Digits.{octal, decimal_by, decimal, signed, left_in, right_in};
ghost use Rattle.text.specs.Adds.{added, Adds, TextLaws};

// The first number of two digits.
const TWO_DIGITS: usize = 10;

// The first word that is negative as a signed number.
const SIGN: u16 = 32768;

// A lent buffer, and the length of the text that stands at its start.
#[derive(Drop)]
pub struct Text<'a> {
    pub out: &'a mut [u8],
    pub len: usize,
}

impl<'a> Text<'a> {
    pub fn new(out: &'a mut [u8]) -> Text<'a>
        ensures same_buffer { result.out.ghost_name ≡ out.entry.ghost_name }
        ensures kept { result.out.now ≡ out.old }
        ensures empty { result.len ≡ 0 }
    {
        Text { out, len: 0 }
    }

    pub fn byte(&mut self, byte: u8)
        ensures { Adds self.old self.new (byte ∷ []) }
    {
        self.len = stored(self.out, self.len, byte);
    }

    #[tactic(auto, using(crate::proofs::Laws::for_start))]
    pub fn put(&mut self, bytes: &[u8])
        ensures { Adds self.old self.new bytes.now }
    {
        let out = &mut *self.out;
        let mut len = self.len;
        for &byte in bytes {
            len = stored(out, len, byte);
        }
        self.len = len;
    }

    #[tactic(auto, using(crate::proofs::Laws::for_start))]
    pub fn spaces(&mut self, count: usize)
        ensures { Adds self.old self.new (replicate count 32) }
    {
        let out = &mut *self.out;
        let mut len = self.len;
        for _ in 0..count {
            len = stored(out, len, b' ');
        }
        self.len = len;
    }

    // The six lowest octal digits (P3).
    pub fn octal(&mut self, n: usize)
        ensures { Adds self.old self.new (octal n) }
    {
        let second = n / 8;
        let third = second / 8;
        let fourth = third / 8;
        let fifth = fourth / 8;
        let out = &mut *self.out;
        let mut len = octal_digit(out, self.len, fifth / 8);
        len = octal_digit(out, len, fifth);
        len = octal_digit(out, len, fourth);
        len = octal_digit(out, len, third);
        len = octal_digit(out, len, second);
        self.len = octal_digit(out, len, n);
    }

    // A number in decimal, without zeros in front (P3).
    pub fn decimal(&mut self, n: usize)
        ensures { Adds self.old self.new (decimal n) }
    {
        self.len = decimal_digits(self.out, self.len, n);
    }

    // A word as a signed number.
    #[tactic(auto, using(crate::proofs::Laws::for_signed))]
    pub fn signed(&mut self, word: u16)
        ensures { Adds self.old self.new (signed word) }
    {
        if word < SIGN {
            self.decimal(word as usize);
            return;
        }
        self.byte(b'-');
        self.decimal((65536 - word as u32) as usize);
    }

    // A text left in so many columns (B2).
    pub fn left(&mut self, width: usize, bytes: &[u8])
        ensures { Adds self.old self.new (left_in width bytes.now) }
    {
        self.put(bytes);
        self.spaces(free(width, bytes.len()));
    }

    // A number right in so many columns (B2).
    pub fn right(&mut self, width: usize, n: usize)
        ensures { Adds self.old self.new (right_in width n) }
    {
        self.spaces(free(width, decimal_length(n)));
        self.decimal(n);
    }
}

// Stores a byte behind the first `len`, as far as the buffer goes, and answers the length with it. The writers above go by a buffer and a length of their own, and set the `Text`'s length once: a
// `Text` lies in memory, where it would be read again after each byte. Where the byte is stored no sum is too large, and a plain one costs less.
#[tactic(auto, unfolding(crate::specs::Adds::added))]
fn stored(out: &mut [u8], len: usize, byte: u8) -> usize
    ensures { (out.new, result) ≡ added (out.old, len) (byte ∷ []) }
{
    if len < out.len() {
        out[len] = byte;
        return len + 1;
    }
    len.saturating_add(1)
}

// The lowest octal digit.
fn octal_digit(out: &mut [u8], len: usize, n: usize) -> usize
    ensures { (out.new, result) ≡ added (out.old, len) ((48 + n % 8) ∷ []) }
{
    stored(out, len, (48 + n % 8) as u8)
}

// A number's digits.
fn decimal_digits(out: &mut [u8], len: usize, n: usize) -> usize
    ensures { (out.new, result) ≡ added (out.old, len) (decimal n) }
{
    if n < TWO_DIGITS {
        return stored(out, len, decimal_digit(n));
    }
    let end = decimal_digits(out, len, n / 10);
    stored(out, end, decimal_digit(n))
}

// The lowest decimal digit.
fn decimal_digit(n: usize) -> u8
    ensures { result ≡ 48 + n % 10 }
{
    (48 + n % 10) as u8
}

// How many columns are free; none, where more are taken.
fn free(width: usize, taken: usize) -> usize
    ensures { result ≡ width - taken }
{
    width.saturating_sub(taken)
}

// How many decimal digits a number has. By a `while`: no index is counted, and `ilog10` asks for a number above 0.
#[tactic(auto, using(digits::proofs::Widths::for_decimal_length))]
fn decimal_length(n: usize) -> usize
    ensures { result ≡ length (decimal n) }
{
    let mut rest = n;
    let mut count = 1;
    while 10 <= rest {
        rest /= 10;
        count += 1;
    }
    count
}

// A text that is added stands where the length was, as far as the buffer goes: this function carries the theorem as its contract.
#[tactic(auto, using(crate::proofs::Laws::for_text_laws))]
pub fn text_laws()
    ensures { TextLaws }
{}
