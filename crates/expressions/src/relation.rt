// The words that end a condition: a test or what follows a relation's CAS, with the jump that is taken where it fails.
ghost use Rattle.source.specs.Kinds.{kind_number};
ghost use Rattle.std.specs.Prelude.{[], ◌∷◌};
ghost use Rattle.source.specs.Kinds;
ghost use Rattle.layout.specs.Words.{Sym};
ghost use Rattle.expressions.specs.Compiles.{AlwaysDecides, PutsHole, DecidesRelation};

use crate::Guarded;
use emitter::{Output, emit_generic, emit_jump, fill_jump};
use instruction::slot;
use source::kind::Kind;

// A jump whose target is filled in later. Not inlined: its copies of the output would lie on the stack below a statement after `.ELSE`.
#[inline(never)]
pub fn emit_hole(image: &mut [u16], output: Output) -> Guarded
    ensures { PutsHole output image.old result image.new }
{
    Guarded {
        output: emit_jump(image, output, 0),
        hole: output.next,
    }
}

// A single test, by its slot (W8, W9).
pub(crate) fn emit_test(image: &mut [u16], output: Output, slot: usize) -> Guarded
    ensures { AlwaysDecides (λ at z. Sym.generic slot ∷ Sym.jump z ∷ []) output image.old image.new result }
{
    let after_skip = emit_generic(image, output, slot);
    emit_hole(image, after_skip)
}

// `>`: greater goes on past the condition.
fn emit_greater(image: &mut [u16], output: Output) -> Guarded
    ensures { DecidesRelation Kinds.greater output image.old image.new result }
{
    let past = emit_hole(image, output);
    let after_nop = emit_generic(image, past.output, slot::NOP);
    let last = emit_hole(image, after_nop);
    fill_jump(image, past.hole, last.output.next);
    last
}

// `<=`: greater fails, and the others go on over a NOP.
fn emit_at_most(image: &mut [u16], output: Output) -> Guarded
    ensures { DecidesRelation Kinds.at_most output image.old image.new result }
{
    let first = emit_hole(image, output);
    Guarded {
        output: emit_generic(image, first.output, slot::NOP),
        hole: first.hole,
    }
}

// The words of a relation after its CAS, by its token's kind (W7).
#[tactic(auto, using(crate::proofs::RelationLaws::for_emit_relation))]
pub(crate) fn emit_relation(image: &mut [u16], output: Output, kind: Kind) -> Guarded
    ensures { DecidesRelation (kind_number kind) output image.old image.new result }
{
    match kind {
        Kind::Greater => emit_greater(image, output),
        Kind::AtMost => emit_at_most(image, output),
        Kind::NotEqual => emit_test(image, output, slot::SKP),
        Kind::Less => emit_test(image, output, slot::NOP),
        Kind::Equal => {
            let after_skip = emit_generic(image, output, slot::SKP);
            emit_test(image, after_skip, slot::SKP)
        }
        _ => {
            let after_nop = emit_generic(image, output, slot::NOP);
            emit_test(image, after_nop, slot::SKP)
        }
    }
}
