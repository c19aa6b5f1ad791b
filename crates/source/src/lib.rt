// Bytes and tokens of the source: the token at an offset, as specs/ defines it.
#![tactic(auto)]

ghost use Rattle.std.specs.Prelude.{◌≡◌, ◌+◌, ◌^◌, ◌<◌, length, drop};
ghost use Rattle.source.specs.Tokens.{token, token_of, operator_of, token_at, operator_at};
ghost use Rattle.source.specs.Bytes.{span, is_blank};

use kind::Kind;
use span::Class;

pub mod byte;
mod constant;
mod keyword;
pub mod kind;
mod number;
mod sign;
mod span;

/// Its kind; the 16 bits of a constant in figures; the offsets of its first byte and after its last.
#[derive(Clone, Copy, Debug, PartialEq, Eq)]
pub struct Token {
    pub kind: Kind,
    pub value: u16,
    pub at: usize,
    pub next: usize,
}

impl Token {
    // One that is no constant.
    pub(crate) fn plain(kind: Kind, at: usize, width: usize) -> Token
        requires { at + width < 2 ^ 64 }
        ensures { result ≡ token kind 0 at width }
    {
        Token {
            kind,
            value: 0,
            at,
            next: at + width,
        }
    }
}

// The token of these bytes, whose first stands at an offset.
#[tactic(auto, unfolding(crate::specs::Tokens::token_of, crate::specs::Tokens::negative_token, crate::specs::Tokens::octal_token))]
fn token_of(bytes: &[u8], at: usize) -> Token
    requires { at + length bytes.now < 2 ^ 64 }
    ensures { result ≡ token_of bytes.now at }
{
    match bytes {
        [] => Token::plain(Kind::EndOfSource, at, 0),
        [b'A'..=b'Z', rest @ ..] => Token::plain(
            Kind::Name,
            at,
            1 + span::width(rest, Class::LetterOrDigit),
        ),
        [b'0'..=b'9', ..] => constant::decimal(bytes, at),
        [b'-', rest @ ..] => constant::signed(constant::MINUS, rest, at),
        [b'\'', rest @ ..] => constant::signed(constant::QUOTE, rest, at),
        [b'.', rest @ ..] => keyword::keyword(rest, at),
        _ => sign::sign(bytes, at),
    }
}

// The same where a minus is the operator.
#[tactic(auto, unfolding(crate::specs::Tokens::operator_of))]
fn operator_of(bytes: &[u8], at: usize) -> Token
    requires { at + length bytes.now < 2 ^ 64 }
    ensures { result ≡ operator_of bytes.now at }
{
    match bytes {
        [b'-', ..] => Token::plain(Kind::MinusSign, at, 1),
        _ => token_of(bytes, at),
    }
}

// The source from an offset on; past its end there is nothing.
fn rest(source: &[u8], at: usize) -> &[u8]
    ensures { result.now ≡ drop at source.now }
{
    source.get(at..).unwrap_or(&[])
}

// The offset after any blanks.
fn after_blanks(source: &[u8], at: usize) -> usize
    ensures { result ≡ at + span is_blank (drop at source.now) }
{
    at + span::width(rest(source, at), Class::Blank)
}

/// The token at an offset, after any blanks, where a minus begins a numeral (T11).
#[tactic(auto, using(crate::proofs::Choices::for_token_at))]
pub fn token_at(source: &[u8], at: usize) -> Token
    ensures { result ≡ token_at source.now at }
{
    let at = after_blanks(source, at);
    token_of(rest(source, at), at)
}

/// The token at an offset where an operation may stand: a minus is the operator (T11).
#[tactic(auto, using(crate::proofs::Choices::for_operator_at))]
pub fn operator_at(source: &[u8], at: usize) -> Token
    ensures { result ≡ operator_at source.now at }
{
    let at = after_blanks(source, at);
    operator_of(rest(source, at), at)
}
