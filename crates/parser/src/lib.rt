// What every function that reads a part of the source is made of: the part, the token that must stand there, and failures.
#![tactic(auto)]

ghost use Rattle.source.specs.Kinds.{kind_number};
ghost use Rattle.std.specs.Prelude.{◌≡◌, ℕ, min};
ghost use Rattle.source.specs.Tokens.{token_at, failure_at};
ghost use Rattle.grammar.specs.Parse.{expect as expect_def};
ghost use Rattle.grammar.specs.Cells.{refuse};
ghost use Rattle.parser.specs.Failures.{number_of, cause_of, Fails};
ghost use Rattle.parser.specs.Reads.{Gives};

use source::kind::Kind;
use source::{Token, token_at};

/// What a source fails by, each with its number (F1 to F14): `number` and `specs/Failures` say which.
#[derive(Clone, Copy, Debug, PartialEq, Eq)]
pub enum Cause {
    WrongImage,
    ShortScratch,
    LongSource,
    UnknownByte,
    OutOfRange,
    NotAllowed,
    WrongName,
    NameTaken,
    TooDeep,
    TooManyNames,
    NoGlobalLeft,
    SectorFull,
    MemoryFull,
    TooManyValues,
    // No rule sets such a number down, and no source fails by it. It is here since `fail_at` takes any number's cause.
    Other(u16),
}

impl Cause {
    /// The failure's number (F1 to F14).
    pub fn number(self) -> u16
        ensures { result ≡ number_of self }
    {
        match self {
            Cause::WrongImage => 1,
            Cause::ShortScratch => 2,
            Cause::LongSource => 3,
            Cause::UnknownByte => 4,
            Cause::OutOfRange => 5,
            Cause::NotAllowed => 6,
            Cause::WrongName => 7,
            Cause::NameTaken => 8,
            Cause::TooDeep => 9,
            Cause::TooManyNames => 10,
            Cause::NoGlobalLeft => 11,
            Cause::SectorFull => 12,
            Cause::MemoryFull => 13,
            Cause::TooManyValues => 14,
            Cause::Other(number) => number,
        }
    }
}

impl From<u16> for Cause {
    /// The cause that has a number.
    #[tactic(auto, unfolding(crate::specs::Failures::cause_of))]
    fn from(number: u16) -> Cause
        ensures { result ≡ cause_of number }
    {
        match number {
            1 => Cause::WrongImage,
            2 => Cause::ShortScratch,
            3 => Cause::LongSource,
            4 => Cause::UnknownByte,
            5 => Cause::OutOfRange,
            6 => Cause::NotAllowed,
            7 => Cause::WrongName,
            8 => Cause::NameTaken,
            9 => Cause::TooDeep,
            10 => Cause::TooManyNames,
            11 => Cause::NoGlobalLeft,
            12 => Cause::SectorFull,
            13 => Cause::MemoryFull,
            14 => Cause::TooManyValues,
            _ => Cause::Other(number),
        }
    }
}

/// Why a source failed, and where: the offset of the first byte of what is wrong (J4).
#[derive(Clone, Copy, Debug, PartialEq, Eq)]
pub struct Failure {
    pub cause: Cause,
    pub at: usize,
}

/// What was read, and the offset where reading goes on.
#[derive(Clone, Copy, Debug, PartialEq, Eq)]
pub struct Part<T> {
    pub value: T,
    pub next: usize,
}

/// What a function that reads a part of the source answers.
pub type Read<T> = Result<Part<T>, Failure>;

// The one of two causes that has the lower number.
fn lower(own: Cause, other: Cause) -> Cause
    ensures { number_of result ≡ min (number_of own) (number_of other) }
{
    if own.number() < other.number() {
        own
    } else {
        other
    }
}

// The cause of a failure at a token, which may carry one of its own.
#[tactic(auto, unfolding(source::specs::Tokens::failure_at))]
fn cause_at(t: Token, cause: Cause) -> Cause
    ensures { number_of result ≡ failure_at t (number_of cause) }
{
    match t.kind {
        Kind::Unknown => lower(Cause::UnknownByte, cause),
        Kind::OutOfRange => lower(Cause::OutOfRange, cause),
        _ => cause,
    }
}

/// A failure at a token: by the lowest number (J3), at its first byte (J4). Its cause is the number's own: 6 is `NotAllowed`, and never `Other(6)`.
#[tactic(auto, using(crate::proofs::Answers::numbered))]
pub fn fail_at(t: Token, cause: Cause) -> Failure
    ensures number { number_of result.cause ≡ failure_at t (number_of cause) }
    ensures cause { result.cause ≡ cause_of (failure_at t (number_of cause)) }
    ensures at { result.at ≡ t.at }
{
    let lowest = cause_at(t, cause);
    Failure {
        cause: Cause::from(lowest.number()),
        at: t.at,
    }
}

/// The token of a kind, or failure 6 (J6).
#[tactic(auto, unfolding(grammar::specs::Parse::expect, grammar::specs::Parse::fail_at))]
pub fn expect(source: &[u8], kind: Kind, at: usize) -> Read<Token>
    ensures { Gives (λ t. t) result (expect_def (kind_number kind) source.now at) }
{
    let t = token_at(source, at);
    if t.kind == kind {
        return Ok(Part {
            value: t,
            next: t.next,
        });
    }
    Err(fail_at(t, Cause::NotAllowed))
}

/// A token that nothing allowed there begins with (J5).
#[tactic(auto, unfolding(grammar::specs::Cells::refuse, grammar::specs::Parse::fail_at))]
pub fn refused(t: Token) -> Failure
    ensures { Fails {A = ℕ} result (refuse t) }
{
    if t.kind == Kind::Name {
        return fail_at(t, Cause::WrongName);
    }
    fail_at(t, Cause::NotAllowed)
}

/// The same of the token at an offset.
pub fn refuse_at(source: &[u8], at: usize) -> Failure
    ensures { Fails {A = ℕ} result (refuse (token_at source.now at)) }
{
    refused(token_at(source, at))
}
