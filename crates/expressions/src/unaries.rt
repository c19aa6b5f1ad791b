// Unary words. They stand before the term and their instructions after it, the last word's first (W4), so they are read twice:
// to go past them, and to emit them from the end. Each is a loop of its own, since a closure for all would have to carry the image's loan.
ghost use Rattle.source.specs.Kinds.{kind_number};
ghost use Rattle.std.specs.Prelude.{◌≡◌, ◌+◌, ◌≤◌, min, length};
ghost use Rattle.std.proofs.lemmas.List.Edits.{sets};
ghost use Rattle.layout.specs.Emission.{last_address};
ghost use Rattle.expressions.specs.Chains.{unaries_next};
ghost use Rattle.expressions.specs.Compiles.{AlwaysDoes};
ghost use Rattle.expressions.specs.Unaries.{width_of, unary_values, unary_words_at, placed_before};

use crate::vocabulary::unary;
use emitter::{LAST_ADDRESS, Output, generic_word, store};
use instruction::slot;
use source::kind::Kind;
use source::token_at;

// The offset after them. The turns are counted, as in the definition: each word takes a byte or more.
#[tactic(auto, using(crate::proofs::UnaryLaws::for_unaries_next), unfolding(crate::specs::Chains::unaries_next))]
pub fn unaries_next(source: &[u8], at: usize) -> usize
    ensures { result ≡ unaries_next source.now at }
{
    let mut i = at;
    for _left in (0..source.len()).rev() {
        let t = token_at(source, i);
        let Some(_) = unary(t.kind) else { return i };
        i = t.next;
    }
    i
}

// How many instructions a unary word has.
#[tactic(auto, unfolding(crate::specs::Unaries::width_of))]
fn width(kind: Kind) -> u16
    ensures { result ≡ width_of (kind_number kind) }
{
    if kind == Kind::Abs { 2 } else { 1 }
}

// An address so many words on, up to the last.
fn advance(at: u16, words: u16) -> u16
    ensures { result ≡ min last_address (at + words) }
{
    at.saturating_add(words)
}

// The address after their instructions, up to the last.
#[tactic(auto, using(crate::proofs::UnaryLaws::for_unaries_end), unfolding(crate::specs::Chains::unaries_of))]
fn unaries_end(source: &[u8], at: usize, start: u16) -> u16
    ensures { result ≡ min last_address (start + length (unary_words_at source.now at)) }
{
    let mut i = at;
    let mut end = start;
    for _left in (0..source.len()).rev() {
        let t = token_at(source, i);
        let Some(_) = unary(t.kind) else { return end };
        end = advance(end, width(t.kind));
        i = t.next;
    }
    end
}

// The instructions of one word from an address on, by its kind and its last slot.
#[tactic(auto, unfolding(crate::specs::Unaries::unary_values))]
fn place_unary(image: &mut [u16], at: usize, kind: Kind, last: usize)
    requires { at ≤ last_address }
    ensures { image.new ≡ sets image.old at (unary_values (kind_number kind) last) }
{
    let word = generic_word(last);
    if kind == Kind::Abs {
        store(image, at, generic_word(slot::SPL));
        store(image, at + 1, word);
        return;
    }
    store(image, at, word);
}

// Their instructions up to an address, from the end.
#[tactic(auto, using(crate::proofs::UnaryLaws::for_place_unaries), unfolding(crate::specs::Chains::unaries_of))]
fn place_unaries(source: &[u8], image: &mut [u16], at: usize, end: u16)
    requires { length (unary_words_at source.now at) ≤ end }
    ensures { image.new ≡ placed_before end (unary_words_at source.now at) image.old }
{
    let mut i = at;
    let mut place = end;
    for _left in (0..source.len()).rev() {
        let t = token_at(source, i);
        let Some(last) = unary(t.kind) else { return };
        place -= width(t.kind);
        place_unary(image, place as usize, t.kind, last);
        i = t.next;
    }
}

// Their instructions. At the last address nothing is promised of the image.
pub fn emit_unaries(source: &[u8], image: &mut [u16], at: usize, output: Output) -> Output
    ensures { AlwaysDoes (λ _. unary_words_at source.now at) output image.old image.new result }
{
    let next = unaries_end(source, at, output.next);
    if next == LAST_ADDRESS {
        return Output { next, ..output };
    }
    place_unaries(source, image, at, next);
    Output { next, ..output }
}
