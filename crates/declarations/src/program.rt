// Declarations and the main body: a program.
ghost use Rattle.source.specs.Kinds.{kind_number};
ghost use Rattle.std.specs.Prelude.{◌≡◌, ◌≤◌, length};
ghost use Rattle.source.specs.Kinds as kinds;
ghost use Rattle.grammar.specs.Declarations.{parse_checked, parse_declarations};
ghost use Rattle.parser.specs.Reads.{Gives};
ghost use Rattle.declarations.specs.Allocations.{allocation_of};
ghost use Rattle.declarations.specs.Clauses.{Ready, Allocates, after_token};
ghost use Rattle.declarations.specs.Scopes.{table_words};
ghost use Rattle.declarations.specs.Forms as forms;
ghost use Rattle.declarations.specs.Procedures.{main_in, AtStart, program_in, Programs};
ghost use Rattle.declarations.specs.Clauses.{EmitsMain, CompilesProgram};

use crate::bodies::statements_under;
use crate::limits::end_then_expect;
use crate::procedures::{accumulator, procedure};
use crate::sectors::store_pool;
use crate::{Allocation, ItemKeyword, Reading, SectorEnds};
use emitter::{Context, Output, Pool, emit_generic};
use instruction::slot::HLT;
use layout::addresses::{FIRST_ARRAY, FIRST_CODE};
use parser::{Cause, Failure, Part, Read, expect};
use source::kind::Kind;
use source::{Token, token_at};

/// The words of a table of 512 names.
pub const TABLE_WORDS: usize = 3584;

// Whether a declaration begins with a token of a kind.
fn begins(kind: Kind) -> bool
    ensures { result ≡ forms.begins (kind_number kind) }
{
    kind.is_between(Kind::Integer, Kind::Accumulator)
}

// The declaration that a token begins.
fn declaration(
    source: &[u8],
    table: &mut [u16],
    image: &mut [u16],
    plan: SectorEnds,
    allocation: Allocation,
    checked: bool,
    t: Token,
) -> Read<Allocation>
    requires { Ready allocation table.old }
    ensures { Allocates allocation table.old image.old plan result table.new image.new
        (forms.declaration_in source.now checked (allocation_of allocation table.old) t) }
{
    if let Some(keyword) = ItemKeyword::of_kind(t.kind) {
        return allocation.global_items(source, table, image, keyword, t.next);
    }
    match t.kind {
        Kind::Array => allocation.arrays(source, table, image, checked, t.next),
        Kind::Nextsector => allocation.next_sector(source, image, t),
        Kind::Procedure => procedure(source, table, image, plan, allocation, false, t.next),
        _ => accumulator(source, table, image, plan, allocation, t.next),
    }
}

// Any declarations, from the start. The loop is written out: a closure for its step would have to carry the loans of table and image.
fn declarations(
    source: &[u8],
    table: &mut [u16],
    image: &mut [u16],
    plan: SectorEnds,
    allocation: Allocation,
    checked: bool,
    at: usize,
) -> Read<Allocation>
    requires { AtStart allocation × (table_words ≤ length table.old) }
    ensures { Allocates allocation table.old image.old plan result table.new image.new
        (parse_declarations source.now checked at) }
{
    let mut current = allocation;
    let mut from = at;
    for _ in 0..source.len() {
        let t = token_at(source, from);
        if !begins(t.kind) {
            break;
        }
        let one = declaration(source, table, image, plan, current, checked, t);
        let Ok(Part { value: after, next }) = one else {
            return one;
        };
        current = after;
        from = next;
    }
    Ok(Part {
        value: current,
        next: from,
    })
}

// The main body, and the last pool after it (W17, A8).
fn main_body(
    source: &[u8],
    table: &[u16],
    image: &mut [u16],
    plan: SectorEnds,
    allocation: Allocation,
    at: usize,
) -> Read<Output>
    requires { Ready allocation table.now }
    ensures { EmitsMain allocation table.now image.old plan result image.new
        (main_in source.now (allocation_of allocation table.now) at) }
{
    let output = allocation.output;
    let sectors = allocation.sectors;
    let context = Context {
        pool: plan.end_of(sectors),
        locals: output.next,
    };
    let inside = statements_under(source, table, image, allocation.names, context, output, at);
    let Ok(Part { value: after, next }) = inside else {
        return inside;
    };
    let last = emit_generic(image, after, HLT);
    let array = allocation.array;
    let ended = end_then_expect(source, last, sectors.count, array, Kind::EndOfSource, next);
    let Ok(Part { value: _, next }) = ended else {
        return Err(ended.unwrap_err());
    };
    store_pool(image, last.next, last.pool);
    Ok(Part { value: last, next })
}

fn start_allocation() -> Allocation
    ensures { AtStart result }
{
    let output = Output {
        next: FIRST_CODE,
        pool: Pool::empty(),
    };
    let sectors = SectorEnds {
        ends: [0u16; 32],
        count: 0,
    };
    Allocation {
        names: 0,
        taken: 0,
        output,
        sectors,
        array: FIRST_ARRAY,
    }
}

// `.CHECKED` and its `;`, or nothing (D17).
#[tactic(auto, unfolding(grammar::specs::Declarations::parse_checked, grammar::specs::Parse::and_then))]
fn checked_at(source: &[u8], at: usize) -> Read<bool>
    ensures { Gives (λ b. b) result (parse_checked source.now at) }
{
    let t = token_at(source, at);
    if t.kind != Kind::Checked {
        return Ok(Part {
            value: false,
            next: at,
        });
    }
    let end = expect(source, Kind::Semicolon, t.next);
    let Ok(Part { value: _, next }) = end else {
        return Err(end.unwrap_err());
    };
    Ok(Part { value: true, next })
}

// `.BEGIN`, and whether subscripts are tested.
#[tactic(auto, unfolding(grammar::specs::Parse::and_then))]
fn opening(source: &[u8]) -> Read<bool>
    ensures { Gives (λ b. b) result (after_token source.now kinds.BEGIN (parse_checked source.now) 0) }
{
    let begin = expect(source, Kind::Begin, 0);
    let Ok(Part { value: _, next }) = begin else {
        return Err(begin.unwrap_err());
    };
    checked_at(source, next)
}

// The opening, declarations, the main body.
fn whole(source: &[u8], table: &mut [u16], image: &mut [u16], plan: SectorEnds) -> Read<Reading>
    requires { table_words ≤ length table.old }
    ensures { CompilesProgram plan image.old result table.new image.new (program_in source.now) }
{
    let start = start_allocation();
    let opened = opening(source);
    let Ok(
        Part {
            value: checked,
            next,
        },
    ) = opened
    else {
        return Err(opened.unwrap_err());
    };
    let all = declarations(source, table, image, plan, start, checked, next);
    let Ok(
        Part {
            value: allocation,
            next,
        },
    ) = all
    else {
        return Err(all.unwrap_err());
    };
    let main = main_body(source, table, image, plan, allocation, next);
    let Ok(Part { value: end, next }) = main else {
        return Err(main.unwrap_err());
    };
    Ok(Part {
        value: Reading {
            checked,
            allocation,
            end,
        },
        next,
    })
}

/// A program whose length was tested. The pools' addresses are the plan's. A table without room for 512 names is refused, as short scratch is (F2).
pub fn program(
    source: &[u8],
    table: &mut [u16],
    image: &mut [u16],
    plan: SectorEnds,
) -> Read<Reading>
    ensures { Programs plan source.now table.old image.old result table.new image.new }
{
    if table.len() < TABLE_WORDS {
        return Err(Failure {
            cause: Cause::ShortScratch,
            at: 0,
        });
    }
    whole(source, table, image, plan)
}
