// Reading stored cases: decimal numbers, each followed by one blank or newline, what a run starts with, and parts of the text.
#![tactic(auto)]

ghost use Rattle.std.specs.Prelude.{◌≡◌, ◌≤◌, length, drop};
ghost use Rattle.case_input.specs.Cases.{is_digit, grown, number_from, word_of, flag_of, number_at, value_from, word_from, flag_from, registers_from, switches_from, words_from, part_end};

use effect::{Registers, Switches};

// A number, and where the next one starts: `parse_number` promises both, also for a number that is missing.
#[derive(Debug, Clone, Copy, PartialEq, Eq)]
pub struct Number {
    pub value: u32,
    pub next: usize,
}

fn is_digit(b: u8) -> bool
    ensures { result ≡ is_digit b }
{
    b.is_ascii_digit()
}

// A digit of ASCII modulo 16 is its value.
fn appended(value: u32, digit: u8) -> u32
    ensures { result ≡ grown value digit }
{
    value.wrapping_mul(10).wrapping_add(u32::from(digit % 16))
}

// A number that is missing is 0.
#[tactic(auto, using(crate::proofs::Digits::for_parse_number))]
pub fn parse_number(text: &[u8], at: usize) -> Number
    ensures { result ≡ number_from (drop at text.now) 0 at }
{
    // Ahead of the loop, for speed: many numbers may be asked for behind the text's end.
    if text.len() <= at {
        return Number { value: 0, next: at };
    }
    let mut value: u32 = 0;
    for i in at..text.len() {
        let b = text[i];
        if !is_digit(b) {
            return Number { value, next: i + 1 };
        }
        value = appended(value, b);
    }
    Number {
        value,
        next: text.len(),
    }
}

// The number in 16 bits.
pub fn word(n: Number) -> u16
    ensures { result ≡ word_of n }
{
    (n.value % 65536) as u16
}

pub fn flag(n: Number) -> bool
    ensures { result ≡ flag_of n }
{
    n.value % 2 == 1
}

// The numbers of a text one after the other, from the place where the next one starts.
#[derive(Debug, Clone, Copy)]
pub struct Numbers<'a> {
    pub text: &'a [u8],
    pub at: usize,
}

impl Numbers<'_> {
    fn next(&mut self) -> Number
        ensures number { result ≡ number_at self.old.text.now self.old.at }
        ensures on { (self.new.at ≡ result.next) × (self.new.text.now ≡ self.old.text.now) }
    {
        let number = parse_number(self.text, self.at);
        self.at = number.next;
        number
    }

    pub fn number(&mut self) -> u32
        ensures read { (result, self.new.at) ≡ value_from self.old.text.now self.old.at }
        ensures same { self.new.text.now ≡ self.old.text.now }
    {
        self.next().value
    }

    pub fn word(&mut self) -> u16
        ensures read { (result, self.new.at) ≡ word_from self.old.text.now self.old.at }
        ensures same { self.new.text.now ≡ self.old.text.now }
    {
        word(self.next())
    }

    pub fn flag(&mut self) -> bool
        ensures read { (result, self.new.at) ≡ flag_from self.old.text.now self.old.at }
        ensures same { self.new.text.now ≡ self.old.text.now }
    {
        flag(self.next())
    }

    // A, B and C.
    pub fn registers(&mut self) -> Registers
        ensures read { (result, self.new.at) ≡ registers_from self.old.text.now self.old.at }
        ensures same { self.new.text.now ≡ self.old.text.now }
    {
        Registers {
            a: self.word(),
            b: self.word(),
            c: self.flag(),
        }
    }

    // The sense switches.
    pub fn switches(&mut self) -> Switches
        ensures read { (result, self.new.at) ≡ switches_from self.old.text.now self.old.at }
        ensures same { self.new.text.now ≡ self.old.text.now }
    {
        Switches {
            one: self.flag(),
            two: self.flag(),
            three: self.flag(),
            four: self.flag(),
        }
    }

    // Sets words of an image: their count, then the address and the value of each.
    #[tactic(auto, using(crate::proofs::Digits::for_set_words))]
    pub fn set_words(&mut self, image: &mut [u16; 16384])
        ensures set { (image.new, self.new.at) ≡ words_from self.old.text.now self.old.at image.old }
        ensures same { self.new.text.now ≡ self.old.text.now }
    {
        for _ in 0..self.number() {
            let address = self.number();
            image[(address % 16384) as usize] = self.word();
        }
    }
}

// Where a part of so many bytes ends, no further than the text.
#[tactic(auto, unfolding(crate::specs::Cases::part_end))]
pub fn part_end(text: &[u8], at: usize, size: u32) -> usize
    ensures { (result ≡ part_end (length text.now) at size) × (result ≤ length text.now) }
{
    at.saturating_add(size as usize).min(text.len())
}
