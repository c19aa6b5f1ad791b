// Words of 16 bits: what the instructions do to them. Each function equals a definition of specs/, which the semantics of the
// language uses too.
#![tactic(auto)]

ghost use Rattle.std.specs.Prelude.{◌≡◌, ◌<◌};
ghost use Rattle.word.specs.Arithmetic.{bit, biased, overflows, sum_of, difference_of, compare_of};

use std::cmp::Ordering;

pub mod bytes;
pub mod shift;

// The bit of the sign, and so the least word whose sign is -.
pub const SIGN: u16 = 0o100000;

// A word, and the bit that goes to C.
#[derive(Debug, Clone, Copy, PartialEq, Eq)]
pub struct Flagged {
    pub word: u16,
    pub flag: bool,
}

pub fn bit(b: bool) -> u16
    ensures { (result ≡ bit b) × (result < 2) }
{
    u16::from(b)
}

// The signed value plus 32768.
pub fn bias(w: u16) -> u32
    ensures { (result ≡ biased w) × (result < 65536) }
{
    u32::from(w.wrapping_add(SIGN))
}

// Whether a signed value, given plus 65536, is outside of what a word holds.
fn overflow(raised: u32) -> bool
    ensures { result ≡ overflows raised }
{
    raised < 32768 || 98304 <= raised
}

#[tactic(auto, unfolding(crate::specs::Arithmetic::sum_of))]
pub fn sum(a: u16, v: u16) -> Flagged
    ensures { result ≡ sum_of a v }
{
    let raised = bias(a) + bias(v);
    Flagged {
        word: a.wrapping_add(v),
        flag: overflow(raised),
    }
}

#[tactic(auto, unfolding(crate::specs::Arithmetic::difference_of))]
pub fn difference(a: u16, v: u16) -> Flagged
    ensures { result ≡ difference_of a v }
{
    let raised = bias(a) + 65536 - bias(v);
    Flagged {
        word: a.wrapping_sub(v),
        flag: overflow(raised),
    }
}

// How many words CAS skips.
#[tactic(auto, unfolding(crate::specs::Arithmetic::compare_of))]
pub fn compare(a: u16, v: u16) -> u16
    ensures { result ≡ compare_of a v }
{
    match bias(a).cmp(&bias(v)) {
        Ordering::Greater => 0,
        Ordering::Equal => 1,
        Ordering::Less => 2,
    }
}
