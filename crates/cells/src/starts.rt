// The first token of a term or of a statement.
ghost use Rattle.std.specs.Prelude.{◌≡◌};
ghost use Rattle.source.specs.Tokens.{token_at};
ghost use Rattle.grammar.specs.Expressions.{term_start, too_deep_expr};
ghost use Rattle.grammar.specs.Statements.{stmt_start};
ghost use Rattle.cells.specs.Starts.{term_by, opening};
ghost use Rattle.symbols.specs.Trees.{tree_symbol};
ghost use Rattle.parser.specs.Failures.{Fails};
ghost use Rattle.parser.specs.Reads.{Gives};
ghost use Rattle.cells.specs.Answers.{live, tree_term_start, tree_statement_start};

use crate::cell::cell_start_of;
use crate::{Reader, StatementStart, TermStart};
use parser::{Cause, Failure, Part, Read, fail_at, refused};
use source::kind::Kind;
use source::{Token, token_at};
use symbols::Symbol;

// A term that is a call or begins like a cell, by what its first token stands for.
#[tactic(auto, using(crate::proofs::StartNames::no_function), unfolding(crate::specs::Starts::term_by, tree::specs::Symbols::as_function, symbols::specs::Trees::tree_symbol, crate::specs::Answers::tree_term_start, grammar::specs::Parse::and_then))]
fn named_term_of(t: Token, symbol: Symbol) -> Read<TermStart>
    ensures { Gives tree_term_start result (term_by (tree_symbol symbol) t) }
{
    if let Symbol::Procedure {
        number,
        accumulator: true,
    } = symbol
    {
        return Ok(Part {
            value: TermStart::Call { number },
            next: t.next,
        });
    }
    let Part { value: start, next } = cell_start_of(t, symbol)?;
    Ok(Part {
        value: TermStart::Cell { start },
        next,
    })
}

// A statement that does not begin with a name.
#[tactic(auto, using(crate::proofs::StartLaws::refused_opening), unfolding(crate::specs::Answers::tree_statement_start, crate::specs::Starts::opening, prelude::specs::Choice::find))]
fn opening_of(t: Token) -> Read<StatementStart>
    ensures { Gives tree_statement_start result (opening t) }
{
    let value = match t.kind {
        Kind::At => StatementStart::Accumulator,
        Kind::Hash => StatementStart::Hash,
        Kind::If => StatementStart::If,
        Kind::When => StatementStart::When,
        Kind::While => StatementStart::While,
        Kind::For => StatementStart::For,
        Kind::Begin => StatementStart::Compound,
        _ => return Err(refused(t)),
    };
    Ok(Part {
        value,
        next: t.next,
    })
}

impl Reader<'_> {
    /// The first token of a term (E4).
    #[tactic(auto, using(crate::proofs::StartNames::term_is), unfolding(grammar::specs::Expressions::term_start, crate::specs::Answers::tree_term_start))]
    pub fn term_start_at(&self, at: usize) -> Read<TermStart>
        ensures { Gives tree_term_start result (term_start self.now.source.now (live self.now) (token_at self.now.source.now at)) }
    {
        let t = token_at(self.source, at);
        let value = match t.kind {
            Kind::At => TermStart::Accumulator,
            Kind::Zero => TermStart::Zero,
            Kind::LeftParenthesis => TermStart::Bracket,
            _ => return named_term_of(t, self.names.lookup(self.source, t)),
        };
        Ok(Part {
            value,
            next: t.next,
        })
    }

    /// How an expression at a level too many fails (J10).
    #[tactic(auto, using(crate::proofs::StartLaws::deep_if, crate::proofs::StartLaws::deep_unary, crate::proofs::StartLaws::deep_term), unfolding(grammar::specs::Parse::fail_at, grammar::specs::Parse::and_then))]
    pub fn too_deep_at(&self, at: usize) -> Failure
        ensures { Fails result (too_deep_expr self.now.source.now (live self.now) (token_at self.now.source.now at)) }
    {
        let t = token_at(self.source, at);
        match t.kind {
            Kind::If => fail_at(t, Cause::TooDeep),
            kind if kind.is_between(Kind::Addc, Kind::Abs) => fail_at(t, Cause::TooDeep),
            _ => {
                let read = self.term_start_at(at);
                let Ok(Part { value: _, next: _ }) = read else {
                    return read.unwrap_err();
                };
                fail_at(t, Cause::TooDeep)
            }
        }
    }

    /// The first token of a statement (S1).
    #[tactic(auto, using(crate::proofs::StartNames::statement_is, crate::proofs::StartNames::no_start), unfolding(tree::specs::Symbols::as_integer, tree::specs::Symbols::as_array, tree::specs::Symbols::as_procedure, symbols::specs::Trees::tree_symbol, crate::specs::Answers::tree_statement_start))]
    pub fn statement_start_at(&self, at: usize) -> Read<StatementStart>
        ensures { Gives tree_statement_start result (stmt_start self.now.source.now (live self.now) (token_at self.now.source.now at)) }
    {
        let t = token_at(self.source, at);
        let value = match self.names.lookup(self.source, t) {
            Symbol::Integer { id } => StatementStart::Integer { id },
            Symbol::Array { array } => StatementStart::Element { array },
            Symbol::Procedure {
                number,
                accumulator: _,
            } => StatementStart::Call { number },
            _ => return opening_of(t),
        };
        Ok(Part {
            value,
            next: t.next,
        })
    }
}
