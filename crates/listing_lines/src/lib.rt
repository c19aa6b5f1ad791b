// The listing (P1 to P4), written into a lent buffer from its start. Past its end nothing is stored, and the answer is the whole length.
#![tactic(auto)]

ghost use Rattle.std.specs.Prelude.{◌≡◌, take, drop};
ghost use Rattle.digits.specs.Digits.{octal, decimal};
ghost use Rattle.text.specs.Adds.{Adds};
ghost use Rattle.compilation.specs.Listing.{line, word_lines};
ghost use Rattle.listing_lines.specs.Texts.{word_line, result_lines, count_lines, AddsListing, Listed, longest, ListingLaws};

use compiler::Program;
use layout::addresses;
use parser::Failure;
use text::Text;

// The listing of every call of `compile` fits in a buffer of so many bytes (P1).
pub const LONGEST: usize = 260131;

const FIRST_GLOBAL: usize = addresses::FIRST_GLOBAL as usize;

const FIRST_CODE: usize = addresses::FIRST_CODE as usize;

// A name and a number in octal. Apart from the next: one function of both would take a flag, and each caller say which.
fn put_line(text: &mut Text<'_>, name: &[u8], n: usize)
    ensures { Adds text.old text.new (line name.now (octal n)) }
{
    text.put(name);
    text.octal(n);
    text.put(b"\n");
}

// A name and a number in decimal.
fn put_number(text: &mut Text<'_>, name: &[u8], n: usize)
    ensures { Adds text.old text.new (line name.now (decimal n)) }
{
    text.put(name);
    text.decimal(n);
    text.byte(b'\n');
}

// The line of a word (P2).
fn put_word(text: &mut Text<'_>, name: &[u8], address: usize, word: u16)
    ensures { Adds text.old text.new (word_line name.now address word) }
{
    text.put(name);
    text.octal(address);
    put_line(text, b":", word as usize);
}

// The lines of so many words of the image, those that it has.
#[tactic(auto, using(text::proofs::Laws::for_lines, crate::proofs::Laws::for_put_words))]
fn put_words(text: &mut Text<'_>, image: &[u16], name: &[u8], first: usize, count: u16)
    ensures { Adds text.old text.new
        (word_lines name.now first (take count (drop first image.now))) }
{
    let end = image.len().min(first.saturating_add(count as usize));
    for at in first..end {
        put_word(text, name, at, image[at]);
    }
}

// The first two lines, which are all of a failure (P1, P4).
fn put_result(text: &mut Text<'_>, number: u16, at: usize)
    ensures { Adds text.old text.new (result_lines number at) }
{
    put_number(text, b"result=", number as usize);
    put_number(text, b"at=", at);
}

// The next three (P1).
fn put_counts(text: &mut Text<'_>, entry: u16, words: u16, globals: u16)
    ensures { Adds text.old text.new (count_lines entry words globals) }
{
    put_line(text, b"entry=", entry as usize);
    put_number(text, b"words=", words as usize);
    put_number(text, b"globals=", globals as usize);
}

fn put_listing(text: &mut Text<'_>, answer: Result<Program, Failure>, image: &[u16])
    ensures same_buffer { text.new.out.ghost_name ≡ text.old.out.ghost_name }
    ensures listing { AddsListing answer image.now text.old text.new }
{
    match answer {
        Ok(
            Program {
                entry,
                words,
                globals,
            },
        ) => {
            put_result(text, 0, 0);
            put_counts(text, entry, words, globals);
            put_words(text, image, b"g=", FIRST_GLOBAL, globals);
            put_words(text, image, b"w=", FIRST_CODE, words);
        }
        Err(failure) => put_result(text, failure.cause.number(), failure.at),
    }
}

// The listing's bytes, and how many they are.
pub fn lines(answer: Result<Program, Failure>, image: &[u16], out: &mut [u8]) -> usize
    ensures { Listed answer image.now out.old out.new result }
{
    let mut text = Text::new(out);
    put_listing(&mut text, answer, image);
    text.len
}

// The lines of what `compile` answers and leaves are its result's, and fit in LONGEST bytes: this function carries the theorems as its contract.
#[tactic(auto, using(crate::proofs::Longest::for_listing_laws))]
pub fn listing_laws() -> usize
    ensures { ListingLaws × (result ≡ longest) }
{
    LONGEST
}
