// Procedures.
ghost use Rattle.symbols.specs.Packing.{unpack};
ghost use Rattle.parser.specs.Reads.{Gives};
ghost use Rattle.declarations.specs.Allocations.{allocation_of};
ghost use Rattle.declarations.specs.Clauses.{Ready, ReadyForName, Allocates};
ghost use Rattle.declarations.specs.Forms.{heading_in, body_in, procedure_in, accumulator_in};
ghost use Rattle.declarations.specs.Clauses.{EmitsBody};

use crate::bodies::statements_under;
use crate::limits::end_then_expect;
use crate::{Allocation, SectorEnds};
use emitter::{Context, Output, emit_return};
use parser::{Part, Read, expect};
use source::kind::Kind;
use symbols::{Packed, Symbol};

// A procedure up to its `.BEGIN`.
#[tactic(auto, unfolding(crate::specs::Forms::heading_in, grammar::specs::Parse::and_then))]
fn heading(source: &[u8], table: &[u16], allocation: Allocation, at: usize) -> Read<Packed>
    requires { Ready allocation table.now }
    ensures { Gives unpack result (heading_in source.now (allocation_of allocation table.now).scope at) }
{
    let named = allocation.global_name(source, table, at);
    let Ok(Part { value: name, next }) = named else {
        return named;
    };
    let semicolon = expect(source, Kind::Semicolon, next);
    let Ok(Part { value: _, next }) = semicolon else {
        return Err(semicolon.unwrap_err());
    };
    let begin = expect(source, Kind::Begin, next);
    let Ok(Part { value: _, next }) = begin else {
        return Err(begin.unwrap_err());
    };
    Ok(Part { value: name, next })
}

// A procedure's locals, statements and return.
fn body(
    source: &[u8],
    table: &mut [u16],
    image: &mut [u16],
    pool: u16,
    allocation: Allocation,
    name: Packed,
    at: usize,
) -> Read<Output>
    requires { ReadyForName allocation table.old }
    ensures { EmitsBody allocation table.old image.old pool name result table.new image.new
        (body_in source.now (allocation_of allocation table.old).scope (unpack name) at) }
{
    let before = allocation.frame(source, table, image, name, at);
    let Ok(Part { value: frame, next }) = before else {
        return Err(before.unwrap_err());
    };
    let context = Context {
        pool,
        locals: allocation.output.next,
    };
    let inside = statements_under(
        source,
        table,
        image,
        frame.names,
        context,
        frame.output,
        next,
    );
    let Ok(Part { value: after, next }) = inside else {
        return inside;
    };
    Ok(Part {
        value: emit_return(image, after, frame.link),
        next,
    })
}

// A procedure, after `.PROCEDURE`. Its name is declared again, over its entry of before, which drops the locals, and is known from then on.
pub(crate) fn procedure(
    source: &[u8],
    table: &mut [u16],
    image: &mut [u16],
    plan: SectorEnds,
    allocation: Allocation,
    accumulator: bool,
    at: usize,
) -> Read<Allocation>
    requires { Ready allocation table.old }
    ensures { Allocates allocation table.old image.old plan result table.new image.new
        (procedure_in source.now (allocation_of allocation table.old) accumulator at) }
{
    let named = heading(source, table, allocation, at);
    let Ok(Part { value: name, next }) = named else {
        return Err(named.unwrap_err());
    };
    let pool = plan.end_of(allocation.sectors);
    let inside = body(source, table, image, pool, allocation, name, next);
    let Ok(
        Part {
            value: output,
            next,
        },
    ) = inside
    else {
        return Err(inside.unwrap_err());
    };
    let closed = allocation.sectors.count;
    let array = allocation.array;
    let ended = end_then_expect(source, output, closed, array, Kind::Semicolon, next);
    let Ok(Part { value: _, next }) = ended else {
        return Err(ended.unwrap_err());
    };
    let symbol = Symbol::Procedure {
        number: allocation.taken,
        accumulator,
    };
    Ok(Part {
        value: allocation.with_global(table, output, array, name, symbol),
        next,
    })
}

// The same after `.ACCUMULATOR`. A form of the grammar of its own, and so a function of its own.
pub(crate) fn accumulator(
    source: &[u8],
    table: &mut [u16],
    image: &mut [u16],
    plan: SectorEnds,
    allocation: Allocation,
    at: usize,
) -> Read<Allocation>
    requires { Ready allocation table.old }
    ensures { Allocates allocation table.old image.old plan result table.new image.new
        (accumulator_in source.now (allocation_of allocation table.old) at) }
{
    let word = expect(source, Kind::Procedure, at);
    let Ok(Part { value: _, next }) = word else {
        return Err(word.unwrap_err());
    };
    procedure(source, table, image, plan, allocation, true, next)
}
