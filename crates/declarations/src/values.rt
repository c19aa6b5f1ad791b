// An array's initial values.
ghost use Rattle.std.specs.Prelude.{◌≡◌, ◌+◌, ◌≤◌, replicate};
ghost use Rattle.grammar.specs.Declarations.{parse_initials};
ghost use Rattle.cells.specs.Answers.{live};
ghost use Rattle.layout.specs.Emission.{stored, padded};
ghost use Rattle.parser.specs.Reads.{Gives};
ghost use Rattle.declarations.specs.Declares.{Declares};
ghost use Rattle.declarations.specs.Values.{initial_value, StoresValue, Filled};
ghost use Rattle.declarations.specs.Clauses.{value_list_at};

use cells::Reader;
use emitter::store;
use parser::{Cause, Part, Read, expect, fail_at};
use source::kind::Kind;
use source::token_at;

// Zeros from an address on.
#[tactic(auto, using(crate::proofs::AllocationLaws::for_fill), unfolding(layout::specs::Emission::stored))]
fn fill(image: &mut [u16], at: usize, count: usize)
    requires { at + count ≤ 65536 }
    ensures { image.new ≡ stored image.old at (replicate count 0) }
{
    for i in 0..count {
        store(image, at + i, 0);
    }
}

// An initial value after so many of them (F14).
#[tactic(auto, unfolding(crate::specs::Values::initial_value, grammar::specs::Parse::and_then, grammar::specs::Parse::fail_at))]
fn initial_value(reader: &Reader<'_>, size: u16, count: u16, at: usize) -> Read<u16>
    ensures { Gives (λ v. v) result (initial_value reader.now.source.now (live reader.now) size count at) }
{
    let read = reader.constant_at(at);
    let Ok(Part { value: _, next: _ }) = read else {
        return read;
    };
    if size <= count {
        return Err(fail_at(token_at(reader.source, at), Cause::TooManyValues));
    }
    read
}

// The same, stored behind those; and how many there are then.
fn stored_value(
    reader: &Reader<'_>,
    image: &mut [u16],
    first: usize,
    size: u16,
    count: u16,
    at: usize,
) -> Read<u16>
    requires { first + size ≤ 65536 }
    ensures { Declares (StoresValue first size count image.old image.new) result
        (initial_value reader.now.source.now (live reader.now) size count at) }
{
    let read = initial_value(reader, size, count, at);
    let Ok(Part { value, next }) = read else {
        return read;
    };
    store(image, first + count as usize, value);
    Ok(Part {
        value: count + 1,
        next,
    })
}

// Initial values separated by commas, stored from an address on; and how many there are. The loop is written out, as in `lists`.
fn values(reader: &Reader<'_>, image: &mut [u16], first: usize, size: u16, at: usize) -> Read<u16>
    requires { first + size ≤ 65536 }
    ensures { Declares (λ values count. Filled first size image.old count image.new values) result
        (value_list_at reader.now.source.now (live reader.now) size at) }
{
    let mut count = 0;
    let mut from = at;
    for _ in 0..reader.source.len() {
        let one = stored_value(reader, image, first, size, count, from);
        let Ok(Part { value: after, next }) = one else {
            return one;
        };
        let t = token_at(reader.source, next);
        if t.kind != Kind::Comma {
            return one;
        }
        count = after;
        from = t.next;
    }
    stored_value(reader, image, first, size, count, from)
}

// The words of an array, with the initial values if they are given.
pub(crate) fn initials(
    reader: &Reader<'_>,
    image: &mut [u16],
    first: usize,
    size: u16,
    at: usize,
) -> Read<()>
    requires { first + size ≤ 65536 }
    ensures { Declares (λ values _. image.new ≡ stored image.old first (padded size values)) result
        (parse_initials reader.now.source.now (live reader.now) size at) }
{
    let t = token_at(reader.source, at);
    if t.kind != Kind::LeftParenthesis {
        fill(image, first, size as usize);
        return Ok(Part {
            value: (),
            next: at,
        });
    }
    let list = values(reader, image, first, size, t.next);
    let Ok(Part { value: count, next }) = list else {
        return Err(list.unwrap_err());
    };
    fill(image, first + count as usize, (size - count) as usize);
    let end = expect(reader.source, Kind::RightParenthesis, next);
    let Ok(Part { value: _, next }) = end else {
        return Err(end.unwrap_err());
    };
    Ok(Part { value: (), next })
}
