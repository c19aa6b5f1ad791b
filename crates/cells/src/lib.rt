// Parsing of constants, cells and the first token of a term or statement: each as its definition in grammar, from an offset.
// Here: the types, and constants.
#![tactic(auto)]

ghost use Rattle.std.specs.Prelude.{◌≡◌, ◌<◌, ℕ, Bool, leb};
ghost use Rattle.prelude.specs.Choice.{between};
ghost use Rattle.grammar.specs.Cells.{parse_constant, parse_in_range};
ghost use Rattle.grammar.specs.Declarations.{size_of};
ghost use Rattle.parser.specs.Reads.{Gives};
ghost use Rattle.cells.specs.Answers.{live, Tells};

use parser::{Cause, Part, Read, fail_at, refused};
use source::token_at;
use symbols::{Array, Id, Names, Operand, Symbol};

pub mod cell;
pub mod starts;

/// What each function that reads a part is given: the source, and the names that are live in it.
#[derive(Clone, Copy, Debug)]
pub struct Reader<'a> {
    pub source: &'a [u8],
    pub names: Names<'a>,
}

/// How a cell begins: with an operand, which is all of it, or with an array's name.
#[derive(Clone, Copy, Debug, PartialEq, Eq)]
pub enum CellStart {
    Whole { operand: Operand },
    Element { array: Array },
}

/// How a term begins.
#[derive(Clone, Copy, Debug, PartialEq, Eq)]
pub enum TermStart {
    Cell { start: CellStart },
    Accumulator,
    Zero,
    Bracket,
    Call { number: u16 },
}

/// How a statement begins.
#[derive(Clone, Copy, Debug, PartialEq, Eq)]
pub enum StatementStart {
    Integer { id: Id },
    Element { array: Array },
    Accumulator,
    Hash,
    If,
    When,
    While,
    For,
    Compound,
    Call { number: u16 },
}

/// The size that a constant gives: how far it is from 0, taken as signed (D6).
#[tactic(auto, unfolding(grammar::specs::Declarations::size_of))]
pub fn size_of(value: u16) -> u16
    ensures { result ≡ size_of value }
{
    if value <= 32767 {
        return value;
    }
    65535 - value + 1
}

impl Reader<'_> {
    /// A numeral, or a name that has a value (D12).
    #[tactic(auto, using(parser::proofs::Answers::refused_any, crate::proofs::StartNames::constant_is, crate::proofs::StartNames::no_constant), unfolding(grammar::specs::Cells::parse_constant, tree::specs::Symbols::as_constant, symbols::specs::Trees::tree_symbol))]
    pub fn constant_at(&self, at: usize) -> Read<u16>
        ensures { Gives (λ v. v) result (parse_constant self.now.source.now (live self.now) at) }
    {
        let t = token_at(self.source, at);
        match self.names.lookup(self.source, t) {
            Symbol::Constant { id: _, value } => Ok(Part {
                value,
                next: t.next,
            }),
            Symbol::Compconstant { value } => Ok(Part {
                value,
                next: t.next,
            }),
            _ => Err(refused(t)),
        }
    }

    // A constant that passes, else failure 5 at its token (F5).
    #[tactic(auto, unfolding(grammar::specs::Cells::parse_in_range, grammar::specs::Parse::and_then, grammar::specs::Parse::fail_at))]
    fn constant_that<F: Fn(u16) -> bool>(&self, at: usize, passes: F) -> Read<u16>
        requires { F.IsAlwaysCallable passes }
        ensures { (in_range : ℕ → Bool) → Tells (F.post passes) in_range → Gives (λ v. v) result (parse_in_range self.now.source.now (live self.now) in_range at) }
    {
        let read = self.constant_at(at);
        let Ok(Part { value, next: _ }) = read else {
            return read;
        };
        if passes(value) {
            return read;
        }
        Err(fail_at(token_at(self.source, at), Cause::OutOfRange))
    }

    /// A shift's amount (E7).
    pub fn amount_at(&self, at: usize) -> Read<u16>
        ensures { Gives (λ v. v) result (parse_in_range self.now.source.now (live self.now) (between 1 15) at) }
    {
        self.constant_that(at, |value| (1..=15).contains(&value))
    }

    /// The constant that gives an array's size (D6).
    pub fn size_at(&self, at: usize) -> Read<u16>
        ensures { Gives (λ v. v) result (parse_in_range self.now.source.now (live self.now) (λ v. leb (size_of v) 8192) at) }
    {
        self.constant_that(at, |value| size_of(value) <= 8192)
    }
}
