// The sectors: where their code ends, their pools, and `.NEXTSECTOR`.
ghost use Rattle.std.specs.Prelude.{◌≡◌, [], ◌∷◌, ◌+◌, ◌≤◌};
ghost use Rattle.tree.specs.Tree.{Declaration};
ghost use Rattle.layout.specs.Limits.{sector_limit, follow_limit};
ghost use Rattle.emitter.specs.Emitted.{literals_in};
ghost use Rattle.layout.specs.Emission.{stored};
ghost use Rattle.declarations.specs.Scopes.{Limits};
ghost use Rattle.declarations.specs.Allocations.{end_of, allocation_of, SoundAllocation, SectorClosed};
ghost use Rattle.declarations.specs.Forms.{limited_in};
ghost use Rattle.declarations.specs.Clauses.{ClosesSector};

use crate::limits::{limit_then_expect, sector_limit};
use crate::{Allocation, SectorEnds, with_end};
use emitter::{Output, Pool, store};
use layout::addresses::{CLOSED_SECTORS, SECTOR_WORDS};
use parser::{Cause, Part, Read};
use source::Token;
use source::kind::Kind;

/// A pool's words from an address on.
#[tactic(auto, using(crate::proofs::AllocationLaws::for_store_pool, emitter::proofs::EmittedPools::counted), unfolding(layout::specs::Emission::stored))]
pub(crate) fn store_pool(image: &mut [u16], at: u16, pool: Pool)
    ensures { image.new ≡ stored image.old at (literals_in pool) }
{
    for i in 0..pool.held_count() {
        store(image, at as usize + i, pool.words[i]);
    }
}

impl SectorEnds {
    /// Where the open sector's code ends by a plan, which these are.
    pub(crate) fn end_of(self, sectors: SectorEnds) -> u16
        requires { sectors.count ≤ 30 }
        ensures { result ≡ end_of self sectors.count }
    {
        self.ends[sectors.count]
    }
}

impl Allocation {
    // 12 or 13, or 13 where no sector follows (F12, F13).
    fn next_limit(self) -> Result<(), Cause>
        requires { SoundAllocation self }
        ensures { Limits result (follow_limit (allocation_of self []) (sector_limit (allocation_of self []))) }
    {
        let closed = self.sectors.count;
        let limit = sector_limit(self.output, closed, self.array);
        let Ok(()) = limit else {
            return limit;
        };
        if closed < CLOSED_SECTORS {
            return Ok(());
        }
        Err(Cause::MemoryFull)
    }

    // The open sector closed, its pool after its code (A8, A9).
    fn close(self, image: &mut [u16]) -> Allocation
        requires { SoundAllocation self × (self.sectors.count + 1 ≤ 30) }
        ensures { SectorClosed self image.old result image.new (Declaration.next_sector ∷ []) }
    {
        let Output { next: end, pool } = self.output;
        store_pool(image, end, pool);
        Allocation {
            output: Output {
                next: SECTOR_WORDS * (self.sectors.count as u16 + 2),
                pool: Pool::empty(),
            },
            sectors: with_end(self.sectors, end),
            ..self
        }
    }

    /// `.NEXTSECTOR`, where the limit of the sector is, and `;`.
    pub(crate) fn next_sector(self, source: &[u8], image: &mut [u16], t: Token) -> Read<Allocation>
        requires { SoundAllocation self }
        ensures { ClosesSector self image.old result image.new
            (limited_in source.now (allocation_of self []) Declaration.next_sector t) }
    {
        let ended = limit_then_expect(source, t, self.next_limit(), Kind::Semicolon);
        let Ok(Part { value: _, next }) = ended else {
            return Err(ended.unwrap_err());
        };
        Ok(Part {
            value: self.close(image),
            next,
        })
    }
}
