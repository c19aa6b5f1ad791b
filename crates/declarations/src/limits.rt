// Failures 12 and 13, and where they are judged (J8).
ghost use Rattle.source.specs.Kinds.{kind_number};
ghost use Rattle.std.specs.Prelude.{◌≡◌, ◌+◌, ◌≤◌, ℕ};
ghost use Rattle.parser.specs.Reads.{Gives};
ghost use Rattle.declarations.specs.Scopes.{Limits};
ghost use Rattle.declarations.specs.Allocations.{space_number, sector_number, pool_end};
ghost use Rattle.declarations.specs.Clauses.{limit_then_expect, end_then_expect};

use crate::names::pass_at;
use emitter::Output;
use layout::addresses;
use parser::{Cause, Part, Read, expect};
use source::Token;
use source::kind::Kind;

const SECTOR_WORDS: usize = addresses::SECTOR_WORDS as usize;

// 13 where code and pending pool, with an array of a size, reach above element 0 of the next array (F13).
#[tactic(auto, unfolding(crate::specs::Allocations::space_number))]
pub(crate) fn space_limit(output: Output, size: u16, array: u16) -> Result<(), Cause>
    ensures { Limits result (space_number (pool_end output + size) array) }
{
    let end = output.next as usize + output.pool.held_count();
    if end + size as usize <= array as usize {
        return Ok(());
    }
    Err(Cause::MemoryFull)
}

// 12 where code and pending pool reach above their sector, the one after so many closed ones (F12); then 13.
#[tactic(auto, using(crate::proofs::LimitLaws::for_sector_limit), unfolding(crate::specs::Allocations::sector_number))]
pub(crate) fn sector_limit(output: Output, closed: usize, array: u16) -> Result<(), Cause>
    requires { closed ≤ 30 }
    ensures { Limits result (sector_number (pool_end output) closed array) }
{
    let end = output.next as usize + output.pool.held_count();
    if end <= SECTOR_WORDS * (closed + 2) {
        return space_limit(output, 0, array);
    }
    Err(Cause::SectorFull)
}

// A limit at the last token of a part, and the token that must follow.
#[tactic(auto)]
pub(crate) fn limit_then_expect(
    source: &[u8],
    last: Token,
    limit: Result<(), Cause>,
    kind: Kind,
) -> Read<Token>
    ensures { (number : ℕ) → Limits limit number → Gives (λ t. t) result (limit_then_expect source.now number last (kind_number kind)) }
{
    let passed = pass_at(last, limit);
    let Ok(Part { value: _, next }) = passed else {
        return passed;
    };
    expect(source, kind, next)
}

/// `.END`, where the limit of the sector is, and the token that must follow.
#[tactic(auto, unfolding(grammar::specs::Parse::and_then))]
pub(crate) fn end_then_expect(
    source: &[u8],
    output: Output,
    closed: usize,
    array: u16,
    kind: Kind,
    at: usize,
) -> Read<Token>
    requires { closed ≤ 30 }
    ensures { Gives (λ t. t) result (end_then_expect source.now (sector_number (pool_end output) closed array) (kind_number kind) at) }
{
    let end = expect(source, Kind::End, at);
    let Ok(
        Part {
            value: last,
            next: _,
        },
    ) = end
    else {
        return end;
    };
    limit_then_expect(source, last, sector_limit(output, closed, array), kind)
}
