// Operations: an operator and its cell, or a shift and its amount, one after another.
ghost use Rattle.source.specs.Kinds.{kind_number};
ghost use Rattle.std.specs.Prelude.{[], ◌∷◌};
ghost use Rattle.layout.specs.Words.{Sym, plain_words, operations_words};
ghost use Rattle.tree.specs.Tree.{Cell as CellDef};
ghost use Rattle.grammar.specs.Parse.{Got};
ghost use Rattle.symbols.specs.Trees.{tree_cell};
ghost use Rattle.parser.specs.Reads.{Gives};
ghost use Rattle.expressions.specs.Vocabulary.{before_by, after_by};
ghost use Rattle.expressions.specs.Chains.{operator_words};
ghost use Rattle.expressions.specs.Compiles.{Does, DoesTurn, AlwaysEmits, amount_at, operation_by, operations_at};

use crate::{Body, vocabulary};
use emitter::{Output, emit_generic, emit_instruction, emit_reach, emit_shift};
use instruction::slot;
use parser::{Part, Read};
use source::kind::Kind;
use source::{Token, operator_at};
use symbols::Cell;
use word::shift;

// Before a division, that is for `/` and `.MOD`, LRS makes a double value of A; by the kind of the operator's token (W18).
fn emit_before(image: &mut [u16], output: Output, kind: Kind) -> Output
    ensures { AlwaysEmits (plain_words (before_by (kind_number kind))) output image.old result image.new }
{
    match kind {
        Kind::Slash | Kind::Mod => emit_shift(image, output, shift::LRS, 15),
        _ => output,
    }
}

// After a product LLS brings it into A, after a division IAB the remainder for `.MOD` (W18).
fn emit_after(image: &mut [u16], output: Output, kind: Kind) -> Output
    ensures { AlwaysEmits (plain_words (after_by (kind_number kind))) output image.old result image.new }
{
    match kind {
        Kind::Star => emit_shift(image, output, shift::LLS, 15),
        Kind::Mod => emit_generic(image, output, slot::IAB),
        _ => output,
    }
}

impl Body<'_> {
    // A cell that was read, under an operator: what reaches the cell stands ahead of all.
    fn operated(
        &self,
        image: &mut [u16],
        output: Output,
        kind: Kind,
        opcode: u16,
        read: Read<Cell>,
    ) -> Read<Output>
        ensures { (g : Got CellDef) → Gives tree_cell read g → Does (λ c _. operator_words (kind_number kind) opcode c) self.now output image.old image.new result g }
    {
        let Ok(Part { value: cell, next }) = read else {
            return Err(read.unwrap_err());
        };
        let reached = emit_reach(image, self.context, output, cell);
        let ready = emit_before(image, reached, kind);
        let done = emit_instruction(image, self.context, ready, opcode, cell);
        let value = emit_after(image, done, kind);
        Ok(Part { value, next })
    }

    // A shift's amount, after the shift word.
    fn shifted(&self, image: &mut [u16], output: Output, kind: u16, at: usize) -> Read<Output>
        ensures { Does (λ n _. Sym.shift kind n ∷ []) self.now output image.old image.new result (amount_at self.now at) }
    {
        let read = self.reader.amount_at(at);
        let Ok(
            Part {
                value: amount,
                next,
            },
        ) = read
        else {
            return Err(read.unwrap_err());
        };
        Ok(Part {
            value: emit_shift(image, output, kind, amount),
            next,
        })
    }

    // The operation that a token begins, if it begins one.
    fn operation(&self, image: &mut [u16], output: Output, t: Token) -> Option<Read<Output>>
        ensures { DoesTurn self.now output image.old image.new result (operation_by self.now t) }
    {
        if let Some(opcode) = vocabulary::operator(t.kind) {
            let read = self.reader.cell_at(t.next);
            return Some(self.operated(image, output, t.kind, opcode, read));
        }
        let kind = vocabulary::shift_word(t.kind)?;
        Some(self.shifted(image, output, kind, t.next))
    }

    // Any operations. The turns are counted, as in the definition: each part takes a byte or more.
    // A loop of its own, as every list is: a closure for all would have to carry the image's loan.
    pub(crate) fn operations(&self, image: &mut [u16], output: Output, at: usize) -> Read<Output>
        ensures { Does (λ os _. operations_words os) self.now output image.old image.new result (operations_at self.now at) }
    {
        let mut so_far = Part {
            value: output,
            next: at,
        };
        for _left in (0..self.reader.source.len()).rev() {
            let t = operator_at(self.reader.source, so_far.next);
            let Some(read) = self.operation(image, so_far.value, t) else {
                return Ok(so_far);
            };
            let Ok(more) = read else {
                return read;
            };
            so_far = more;
        }
        Ok(so_far)
    }
}
