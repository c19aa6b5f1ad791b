// Statements: parsed and emitted in one go. Where a part fails, its failure is answered at once; of what is emitted then, `KeptImage` holds.
// What `statement` calls for a form is not inlined: each form's locals hold several pools, and every level of nesting would take the stack of all.
#![tactic(auto)]

ghost use Rattle.source.specs.Kinds.{kind_number};
ghost use Rattle.std.specs.Prelude.{◌≡◌};
ghost use Rattle.layout.specs.Words.{stmts_words};
ghost use Rattle.grammar.specs.Statements.{ends_statement};
ghost use Rattle.cells.specs.Answers.{tree_statement_start};
ghost use Rattle.expressions.specs.Compiles.{Does};
ghost use Rattle.statements.specs.Forms.{Follows, Stated, Guards};
ghost use Rattle.statements.specs.Forms.{stmt_at, guarded_at, if_at, when_at, while_at, for_at, stmts_at, outermost_at, compound_at, form_at};

use crate::assignment::{assigned, element, plain, set_x, store};
use crate::counting::for_head;
use cells::StatementStart as Start;
use emitter::{Output, emit_jump, emit_memory, fill_jump};
use expressions::relation::emit_hole;
use expressions::{Body, Guarded};
use instruction::opcode;
use parser::{Cause, Part, Read, expect, fail_at};
use source::kind::Kind;
use source::{Token, token_at};
use symbols::Operand;

mod assignment;
mod counting;

// The levels of nesting: 0 to 32 (S11).
const LEVELS: usize = 33;

// A part with the token of a kind after it. Not inlined: its copies of the part would lie on the stack below what is nested.
#[inline(never)]
fn followed_by<T: Copy>(source: &[u8], read: Read<T>, kind: Kind) -> Read<T>
    ensures { Follows source.now (kind_number kind) read result }
{
    let Part { value, next } = read?;
    let Part { value: _, next } = expect(source, kind, next)?;
    Ok(Part { value, next })
}

// Whether a token may follow a statement: one before it is empty.
fn ends_statement(t: Token) -> bool
    ensures { result ≡ ends_statement t }
{
    matches!(t.kind, Kind::Semicolon | Kind::End | Kind::Else)
}

// A condition, the word after it, and the statement that it guards; the jump where it fails is not filled in yet.
// `left` is how many levels are left for this statement, its own among them; `inner` for those in it.
#[cycle(parts)]
fn guarded(
    body: &Body<'_>,
    image: &mut [u16],
    output: Output,
    word: Kind,
    at: usize,
    left: usize,
    inner: usize,
) -> Read<Guarded>
    ensures { Guards body.now output image.old image.new result (guarded_at body.now (kind_number word) left inner at) }
{
    let condition = body.condition(image, output, at, left);
    let test = followed_by(body.reader.source, condition, word);
    let Ok(
        Part {
            value: tested,
            next,
        },
    ) = test
    else {
        return test;
    };
    let read = statement(body, image, tested.output, next, inner);
    let Ok(Part { value, next }) = read else {
        return Err(read.unwrap_err());
    };
    Ok(Part {
        value: Guarded {
            output: value,
            hole: tested.hole,
        },
        next,
    })
}

// An `.IF` that is a statement (S4, W10).
#[inline(never)]
#[cycle(parts)]
fn if_statement(
    body: &Body<'_>,
    image: &mut [u16],
    output: Output,
    at: usize,
    left: usize,
    inner: usize,
) -> Read<Output>
    ensures { Stated body.now output image.old image.new result (if_at body.now left inner at) }
{
    let guarded = guarded(body, image, output, Kind::Then, at, left, inner);
    let first = followed_by(body.reader.source, guarded, Kind::Else);
    let Ok(Part { value: one, next }) = first else {
        return Err(first.unwrap_err());
    };
    let end = emit_hole(image, one.output);
    fill_jump(image, one.hole, end.output.next);
    let second = statement(body, image, end.output, next, inner);
    let Ok(Part { value, next }) = second else {
        return second;
    };
    fill_jump(image, end.hole, value.next);
    Ok(Part { value, next })
}

// `.WHEN` condition `.THEN` statement (W11).
#[inline(never)]
#[cycle(parts)]
fn when_statement(
    body: &Body<'_>,
    image: &mut [u16],
    output: Output,
    at: usize,
    left: usize,
    inner: usize,
) -> Read<Output>
    ensures { Stated body.now output image.old image.new result (when_at body.now left inner at) }
{
    let all = guarded(body, image, output, Kind::Then, at, left, inner);
    let Ok(Part { value, next }) = all else {
        return Err(all.unwrap_err());
    };
    fill_jump(image, value.hole, value.output.next);
    Ok(Part {
        value: value.output,
        next,
    })
}

// `.WHILE` condition `.DO` statement (W11).
#[inline(never)]
#[cycle(parts)]
fn while_statement(
    body: &Body<'_>,
    image: &mut [u16],
    output: Output,
    at: usize,
    left: usize,
    inner: usize,
) -> Read<Output>
    ensures { Stated body.now output image.old image.new result (while_at body.now left inner at) }
{
    let all = guarded(body, image, output, Kind::Do, at, left, inner);
    let Ok(Part { value, next }) = all else {
        return Err(all.unwrap_err());
    };
    let after_jump = emit_jump(image, value.output, output.next);
    fill_jump(image, value.hole, after_jump.next);
    Ok(Part {
        value: after_jump,
        next,
    })
}

// `.FOR` integer or `#` = its first value, `.DO` statement (W13).
#[inline(never)]
#[cycle(parts)]
fn for_statement(
    body: &Body<'_>,
    image: &mut [u16],
    output: Output,
    at: usize,
    left: usize,
    inner: usize,
) -> Read<Output>
    ensures { Stated body.now output image.old image.new result (for_at body.now left inner at) }
{
    let counted = for_head(body, image, output, at, left);
    let head = followed_by(body.reader.source, counted, Kind::Do);
    let Ok(Part { value: start, next }) = head else {
        return Err(head.unwrap_err());
    };
    let read = statement(body, image, start.output, next, inner);
    let Ok(Part { value, next }) = read else {
        return read;
    };
    let after_count = emit_memory(
        image,
        body.context,
        value,
        opcode::IRS,
        Operand::Named { id: start.id },
    );
    Ok(Part {
        value: emit_jump(image, after_count, start.output.next),
        next,
    })
}

// Statements of a level, separated by `;`. Each `;` takes a byte, so the source has as many bytes as there are turns.
// No function shared with the other lists: its closure would hold the loan of the image.
// Every answer goes to the one variable: a call of `statement` behind the loop would take a second on the stack of each level.
#[cycle(parts)]
fn listed(
    body: &Body<'_>,
    image: &mut [u16],
    output: Output,
    at: usize,
    left: usize,
) -> Read<Output>
    ensures { Does stmts_words body.now output image.old image.new result (stmts_at body.now left at) }
{
    let mut so_far = output;
    let mut one = statement(body, image, so_far, at, left);
    for _ in 0..body.reader.source.len() {
        let Ok(Part { value, next }) = one else {
            return one;
        };
        let t = token_at(body.reader.source, next);
        if t.kind != Kind::Semicolon {
            return one;
        }
        so_far = value;
        one = statement(body, image, so_far, t.next, left);
    }
    one
}

// `.BEGIN` statements `.END`.
#[inline(never)]
#[cycle(parts)]
fn compound(
    body: &Body<'_>,
    image: &mut [u16],
    output: Output,
    at: usize,
    inner: usize,
) -> Read<Output>
    ensures { Stated body.now output image.old image.new result (compound_at body.now inner at) }
{
    let all = listed(body, image, output, at, inner);
    followed_by(body.reader.source, all, Kind::End)
}

// A statement from after its first token.
#[cycle(parts)]
fn form(
    body: &Body<'_>,
    image: &mut [u16],
    output: Output,
    start: Start,
    at: usize,
    left: usize,
    inner: usize,
) -> Read<Output>
    ensures { Stated body.now output image.old image.new result (form_at body.now left inner (tree_statement_start start) at) }
{
    match start {
        Start::Integer { id } => store(body, image, output, plain(id), at, left),
        Start::Element { array } => element(body, image, output, array, at, left),
        Start::Accumulator => assigned(body, image, output, at, left),
        Start::Hash => set_x(body, image, output, at),
        Start::If => if_statement(body, image, output, at, left, inner),
        Start::When => when_statement(body, image, output, at, left, inner),
        Start::While => while_statement(body, image, output, at, left, inner),
        Start::For => for_statement(body, image, output, at, left, inner),
        Start::Compound => compound(body, image, output, at, inner),
        Start::Call { number } => body.call(image, output, number, at, left),
    }
}

// A statement, with `left` levels of nesting left, its own among them; an empty one has none of its own.
#[cycle(parts)]
fn statement(
    body: &Body<'_>,
    image: &mut [u16],
    output: Output,
    at: usize,
    left: usize,
) -> Read<Output>
    ensures { Stated body.now output image.old image.new result (stmt_at body.now left at) }
{
    let t = token_at(body.reader.source, at);
    if ends_statement(t) {
        return Ok(Part {
            value: output,
            next: at,
        });
    }
    let found = body.reader.statement_start_at(at);
    let Ok(Part { value: start, next }) = found else {
        return Err(found.unwrap_err());
    };
    if left == 0 {
        return Err(fail_at(t, Cause::TooDeep));
    }
    form(body, image, output, start, next, left, left - 1)
}

/// The outermost statements (S1), parsed and emitted; 33 levels of nesting (S11).
#[tactic(auto, unfolding(grammar::specs::Statements::parse_outermost))]
pub fn statements(body: &Body<'_>, image: &mut [u16], output: Output, at: usize) -> Read<Output>
    ensures { Does stmts_words body.now output image.old image.new result (outermost_at body.now at) }
{
    listed(body, image, output, at, LEVELS)
}
