// Expressions and conditions: parsed and emitted in one go. Past the end of the image nothing is stored, so a first pass runs on an empty one.
#![tactic(auto)]

ghost use Rattle.layout.specs.Words.{cell_words, expr_words, term_words, cond_words};
ghost use Rattle.tree.specs.Tree.{Cell as CellDef};
ghost use Rattle.grammar.specs.Parse.{Got};
ghost use Rattle.symbols.specs.Trees.{tree_cell};
ghost use Rattle.parser.specs.Reads.{Gives};
ghost use Rattle.cells.specs.Answers.{tree_term_start};
ghost use Rattle.expressions.specs.Compiles.{Does, Decides, DoesThenFills, expr_at, bracketed_at, call_at, term_at, chain_at, cond_at, choice_at, else_at};

use cells::{Reader, TermStart};
use emitter::{Context, Output, emit_cell, emit_generic, emit_through, fill_jump};
use instruction::{opcode, slot};
use parser::{Part, Read, expect};
use source::kind::Kind;
use source::token_at;
use symbols::Cell;

mod comparing;
mod operators;
pub mod relation;
mod unaries;
mod vocabulary;

/// What each form of a body is compiled by: what it is read with, and what its addresses stand on.
#[derive(Clone, Copy, Debug)]
pub struct Body<'a> {
    pub reader: Reader<'a>,
    pub context: Context,
}

/// What is emitted with a jump whose target is filled in later, and that jump's address: of a condition the jump that is taken where it fails.
#[derive(Clone, Copy, Debug, PartialEq, Eq)]
pub struct Guarded {
    pub output: Output,
    pub hole: u16,
}

impl Body<'_> {
    // A cell that was read, under an instruction.
    fn emit_read(
        &self,
        image: &mut [u16],
        output: Output,
        opcode: u16,
        read: Read<Cell>,
    ) -> Read<Output>
        ensures { (g : Got CellDef) → Gives tree_cell read g → Does (λ c _. cell_words opcode c) self.now output image.old image.new result g }
    {
        let Ok(Part { value: cell, next }) = read else {
            return Err(read.unwrap_err());
        };
        Ok(Part {
            value: emit_cell(image, self.context, output, opcode, cell),
            next,
        })
    }

    // An expression and `)`, after the `(`.
    #[cycle(parts)]
    fn bracketed(&self, image: &mut [u16], output: Output, at: usize, left: usize) -> Read<Output>
        ensures { Does expr_words self.now output image.old image.new result (bracketed_at self.now left at) }
    {
        let inner = self.expression(image, output, at, left);
        let Ok(Part { value, next }) = inner else {
            return inner;
        };
        let close = expect(self.reader.source, Kind::RightParenthesis, next);
        let Ok(Part { value: _, next }) = close else {
            return Err(close.unwrap_err());
        };
        Ok(Part { value, next })
    }

    /// A call, after the procedure's name: its argument, if it has one, then the jump through the procedure word (W14).
    #[cycle(parts)]
    pub fn call(
        &self,
        image: &mut [u16],
        output: Output,
        number: u16,
        at: usize,
        left: usize,
    ) -> Read<Output>
        ensures { Does term_words self.now output image.old image.new result (call_at self.now left number at) }
    {
        let t = token_at(self.reader.source, at);
        if t.kind != Kind::LeftParenthesis {
            return Ok(Part {
                value: emit_through(image, output, opcode::JST, number),
                next: at,
            });
        }
        let argument = self.bracketed(image, output, t.next, left);
        let Ok(Part { value, next }) = argument else {
            return argument;
        };
        Ok(Part {
            value: emit_through(image, value, opcode::JST, number),
            next,
        })
    }

    // A term from after its first token, with the levels left for an expression in it.
    #[cycle(parts)]
    fn term(
        &self,
        image: &mut [u16],
        output: Output,
        start: TermStart,
        at: usize,
        left: usize,
    ) -> Read<Output>
        ensures { Does term_words self.now output image.old image.new result (term_at self.now left (tree_term_start start) at) }
    {
        match start {
            TermStart::Cell { start: cell } => {
                let read = self.reader.cell_from(cell, at);
                self.emit_read(image, output, opcode::LDA, read)
            }
            TermStart::Accumulator => Ok(Part {
                value: output,
                next: at,
            }),
            TermStart::Zero => Ok(Part {
                value: emit_generic(image, output, slot::CRA),
                next: at,
            }),
            TermStart::Bracket => self.bracketed(image, output, at, left),
            TermStart::Call { number } => self.call(image, output, number, at, left),
        }
    }

    // Unary words, a term, then any operations; the unary words' instructions follow the term's (W4).
    #[cycle(parts)]
    fn chain(&self, image: &mut [u16], output: Output, at: usize, left: usize) -> Read<Output>
        ensures { Does expr_words self.now output image.old image.new result (chain_at self.now left at) }
    {
        let from = unaries::unaries_next(self.reader.source, at);
        let first = self.reader.term_start_at(from);
        let Ok(Part { value: start, next }) = first else {
            return Err(first.unwrap_err());
        };
        let one = self.term(image, output, start, next, left);
        let Ok(
            Part {
                value: after_term,
                next,
            },
        ) = one
        else {
            return one;
        };
        let after_unaries = unaries::emit_unaries(self.reader.source, image, at, after_term);
        self.operations(image, after_unaries, next)
    }

    /// A condition.
    #[cycle(parts)]
    pub fn condition(
        &self,
        image: &mut [u16],
        output: Output,
        at: usize,
        left: usize,
    ) -> Read<Guarded>
        ensures { Decides cond_words self.now output image.old image.new result (cond_at self.now left at) }
    {
        let t = token_at(self.reader.source, at);
        if let Some(bare) = vocabulary::bare(t.kind) {
            return Ok(Part {
                value: relation::emit_test(image, output, bare),
                next: t.next,
            });
        }
        let value = self.expression(image, output, at, left);
        let Ok(
            Part {
                value: after_value,
                next,
            },
        ) = value
        else {
            return Err(value.unwrap_err());
        };
        self.comparison(image, after_value, next)
    }

    // A conditional expression, after its `.IF` (E5, W10).
    #[cycle(parts)]
    fn choice(&self, image: &mut [u16], output: Output, at: usize, left: usize) -> Read<Output>
        ensures { Does expr_words self.now output image.old image.new result (choice_at self.now left at) }
    {
        let test = self.condition(image, output, at, left);
        let Ok(
            Part {
                value: guarded,
                next,
            },
        ) = test
        else {
            return Err(test.unwrap_err());
        };
        let then = expect(self.reader.source, Kind::Then, next);
        let Ok(Part { value: _, next }) = then else {
            return Err(then.unwrap_err());
        };
        let one = self.expression(image, guarded.output, next, left);
        let Ok(
            Part {
                value: after_first,
                next,
            },
        ) = one
        else {
            return one;
        };
        let jump = relation::emit_hole(image, after_first);
        fill_jump(image, guarded.hole, jump.output.next);
        self.alternative(image, jump, next, left)
    }

    // Its `.ELSE` and second part, and the jump past it filled in.
    #[cycle(parts)]
    fn alternative(&self, image: &mut [u16], jump: Guarded, at: usize, left: usize) -> Read<Output>
        ensures { DoesThenFills jump.hole expr_words self.now jump.output image.old image.new result (else_at self.now left at) }
    {
        let otherwise = expect(self.reader.source, Kind::Else, at);
        let Ok(Part { value: _, next }) = otherwise else {
            return Err(otherwise.unwrap_err());
        };
        let two = self.expression(image, jump.output, next, left);
        let Ok(Part { value, next }) = two else {
            return two;
        };
        fill_jump(image, jump.hole, value.next);
        Ok(Part { value, next })
    }

    /// An expression, with `left` levels of nesting left, its own among them.
    #[cycle(parts)]
    pub fn expression(
        &self,
        image: &mut [u16],
        output: Output,
        at: usize,
        left: usize,
    ) -> Read<Output>
        ensures { Does expr_words self.now output image.old image.new result (expr_at self.now left at) }
    {
        if left == 0 {
            return Err(self.reader.too_deep_at(at));
        }
        let t = token_at(self.reader.source, at);
        if t.kind == Kind::If {
            return self.choice(image, output, t.next, left - 1);
        }
        self.chain(image, output, at, left - 1)
    }
}
