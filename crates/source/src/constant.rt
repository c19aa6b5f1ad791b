// Constants in figures.
ghost use Rattle.std.specs.Prelude.{◌≡◌, ◌+◌, ◌^◌, ◌≤◌, ◌<◌, length};
ghost use Rattle.source.specs.Signed.{bits_of, signed_token};
ghost use Rattle.source.specs.Tokens.{constant_token, decimal_token};

use crate::kind::Kind;
use crate::span::{self, Class};
use crate::{Token, number};

/// A sign ahead of digits: its kind where it stands alone; the digits and their base; the largest number; whether the constant is that number below 0.
#[derive(Clone, Copy, Debug, PartialEq, Eq)]
pub struct Sign {
    pub kind: Kind,
    pub digits: Class,
    pub base: u32,
    pub limit: u32,
    pub negates: bool,
}

impl Sign {
    // The 16 bits of a number behind the sign.
    fn word_of(self, n: u32) -> u32
        requires { n ≤ 65536 }
        ensures { result ≡ bits_of self.negates n }
    {
        if self.negates { (65536 - n) % 65536 } else { n }
    }
}

pub const MINUS: Sign = Sign {
    kind: Kind::MinusSign,
    digits: Class::Digit,
    base: 10,
    limit: 32768,
    negates: true,
};

pub const QUOTE: Sign = Sign {
    kind: Kind::Quote,
    digits: Class::OctalDigit,
    base: 8,
    limit: 65535,
    negates: false,
};

// The word counts only where the number is up to the limit.
#[tactic(auto, unfolding(crate::specs::Tokens::constant_token))]
fn constant(n: u32, limit: u32, word: u32, at: usize, width: usize) -> Token
    requires { (n ≤ limit → word < 65536) × (at + width < 2 ^ 64) }
    ensures { result ≡ constant_token n limit word at width }
{
    if n <= limit {
        Token {
            kind: Kind::Numeral,
            value: word as u16,
            at,
            next: at + width,
        }
    } else {
        Token::plain(Kind::OutOfRange, at, width)
    }
}

/// From its first digit on, which stands at an offset.
#[tactic(auto, using(crate::proofs::Constants::for_decimal))]
pub fn decimal(bytes: &[u8], at: usize) -> Token
    requires { at + length bytes.now < 2 ^ 64 }
    ensures { result ≡ decimal_token bytes.now at }
{
    let width = span::width(bytes, Class::Digit);
    let n = number::number_of(&bytes[..width], 10);
    constant(n, 32767, n, at, width)
}

/// Behind a sign, which stands at an offset.
// Inlined at both signs, for speed: else every token of `token_of` goes through memory.
#[inline(always)]
#[tactic(auto, using(crate::proofs::Constants::for_signed))]
pub fn signed(sign: Sign, bytes: &[u8], at: usize) -> Token
    requires { (0 < sign.base) × (sign.base ≤ 10) × (sign.limit < 65536) × (at + 1 + length bytes.now < 2 ^ 64) }
    ensures { result ≡ signed_token sign bytes.now at }
{
    let width = span::width(bytes, sign.digits);
    if width == 0 {
        return Token::plain(sign.kind, at, 1);
    }
    let n = number::number_of(&bytes[..width], sign.base);
    constant(n, sign.limit, sign.word_of(n), at, width + 1)
}
