// Operands, subscripts and cells.
ghost use Rattle.std.specs.Prelude.{◌≡◌};
ghost use Rattle.source.specs.Tokens.{token_at};
ghost use Rattle.grammar.specs.Cells.{subscript_of, parse_subscript, cell_from, parse_cell, parse_lone_cell};
ghost use Rattle.symbols.specs.Trees.{tree_operand, tree_subscript, tree_cell, tree_symbol};
ghost use Rattle.cells.specs.Starts.{operand_by, cell_by};
ghost use Rattle.parser.specs.Reads.{Gives};
ghost use Rattle.cells.specs.Answers.{live, tree_cell_start};

use crate::{CellStart, Reader};
use parser::{Cause, Part, Read, expect, fail_at, refused};
use source::kind::Kind;
use source::{Token, operator_at, token_at};
use symbols::{Cell, Operand, Subscript, Symbol};

// A token as an operand, by what it stands for (E1).
#[tactic(auto, using(parser::proofs::Answers::refused_any, crate::proofs::StartNames::no_operand), unfolding(crate::specs::Starts::operand_by, tree::specs::Symbols::as_operand, symbols::specs::Trees::tree_operand, symbols::specs::Trees::tree_symbol))]
fn operand_of(t: Token, symbol: Symbol) -> Read<Operand>
    ensures { Gives tree_operand result (operand_by (tree_symbol symbol) t) }
{
    let value = match symbol {
        Symbol::Integer { id } => Operand::Named { id },
        Symbol::Constant { id, value: _ } => Operand::Named { id },
        Symbol::Compconstant { value } => Operand::Literal { value },
        _ => return Err(refused(t)),
    };
    Ok(Part {
        value,
        next: t.next,
    })
}

// A cell's first token, by what it stands for.
#[tactic(auto, using(crate::proofs::StartNames::no_array), unfolding(crate::specs::Starts::cell_by, crate::specs::Answers::tree_cell_start, tree::specs::Symbols::as_array, symbols::specs::Trees::tree_symbol, grammar::specs::Parse::and_then))]
pub(crate) fn cell_start_of(t: Token, symbol: Symbol) -> Read<CellStart>
    ensures { Gives tree_cell_start result (cell_by (tree_symbol symbol) t) }
{
    let Symbol::Array { array } = symbol else {
        let Part {
            value: operand,
            next,
        } = operand_of(t, symbol)?;
        return Ok(Part {
            value: CellStart::Whole { operand },
            next,
        });
    };
    Ok(Part {
        value: CellStart::Element { array },
        next: t.next,
    })
}

impl Reader<'_> {
    // A subscript between its brackets (E3).
    #[tactic(auto, using(crate::proofs::StartNames::operand_is), unfolding(grammar::specs::Cells::subscript_of, symbols::specs::Trees::tree_subscript, grammar::specs::Parse::and_then))]
    fn inner_subscript_at(&self, at: usize) -> Read<Subscript>
        ensures { Gives tree_subscript result (subscript_of self.now.source.now (live self.now) (token_at self.now.source.now at)) }
    {
        let t = token_at(self.source, at);
        if t.kind == Kind::Hash {
            return Ok(Part {
                value: Subscript::Hash,
                next: t.next,
            });
        }
        let Part {
            value: operand,
            next,
        } = operand_of(t, self.names.lookup(self.source, t))?;
        Ok(Part {
            value: Subscript::By { operand },
            next,
        })
    }

    /// A subscript with its brackets (E2).
    #[tactic(auto, unfolding(grammar::specs::Cells::parse_subscript, grammar::specs::Parse::and_then))]
    pub fn subscript_at(&self, at: usize) -> Read<Subscript>
        ensures { Gives tree_subscript result (parse_subscript self.now.source.now (live self.now) at) }
    {
        let open = expect(self.source, Kind::LeftBracket, at);
        let Ok(Part { value: _, next }) = open else {
            return Err(open.unwrap_err());
        };
        let read = self.inner_subscript_at(next);
        let Ok(Part { value, next }) = read else {
            return read;
        };
        let close = expect(self.source, Kind::RightBracket, next);
        let Ok(Part { value: _, next }) = close else {
            return Err(close.unwrap_err());
        };
        Ok(Part { value, next })
    }

    /// A cell from after its first token (E2).
    #[tactic(auto, unfolding(grammar::specs::Cells::cell_from, symbols::specs::Trees::tree_cell, crate::specs::Answers::tree_cell_start, grammar::specs::Parse::and_then))]
    pub fn cell_from(&self, start: CellStart, at: usize) -> Read<Cell>
        ensures { Gives tree_cell result (cell_from self.now.source.now (live self.now) (tree_cell_start start) at) }
    {
        let array = match start {
            CellStart::Whole { operand } => {
                return Ok(Part {
                    value: Cell::Plain { operand },
                    next: at,
                });
            }
            CellStart::Element { array } => array,
        };
        let read = self.subscript_at(at);
        let Ok(
            Part {
                value: subscript,
                next,
            },
        ) = read
        else {
            return Err(read.unwrap_err());
        };
        Ok(Part {
            value: Cell::Item { array, subscript },
            next,
        })
    }

    /// A cell (E2).
    #[tactic(auto, using(crate::proofs::StartNames::cell_is), unfolding(grammar::specs::Cells::parse_cell, grammar::specs::Parse::and_then))]
    pub fn cell_at(&self, at: usize) -> Read<Cell>
        ensures { Gives tree_cell result (parse_cell self.now.source.now (live self.now) at) }
    {
        let t = token_at(self.source, at);
        let read = cell_start_of(t, self.names.lookup(self.source, t));
        let Ok(Part { value: start, next }) = read else {
            return Err(read.unwrap_err());
        };
        self.cell_from(start, next)
    }

    /// A cell after which no operation may stand; a minus there is an operator all the same (T11).
    #[tactic(auto, unfolding(grammar::specs::Cells::parse_lone_cell, grammar::specs::Parse::and_then, grammar::specs::Parse::fail_at))]
    pub fn lone_cell_at(&self, at: usize) -> Read<Cell>
        ensures { Gives tree_cell result (parse_lone_cell self.now.source.now (live self.now) at) }
    {
        let read = self.cell_at(at);
        let Ok(Part { value: _, next }) = read else {
            return read;
        };
        let t = operator_at(self.source, next);
        if t.kind == Kind::MinusSign {
            return Err(fail_at(t, Cause::NotAllowed));
        }
        read
    }
}
