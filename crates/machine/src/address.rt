// The effective address.
ghost use Rattle.std.specs.Prelude.{◌≡◌, ◌<◌, slice_index};
ghost use Rattle.machine.specs.Address.{base_of, indexed_of, follow_of};

use crate::{Failure, Image, MEMORY};
use instruction::field;

// An address with the number of indirect words passed, which is there for what they will cost.
#[derive(Debug, Clone, Copy, PartialEq, Eq)]
pub struct Reached {
    pub address: u16,
    pub passed: u16,
}

// How many indirect words an address may pass.
const LONGEST_CHAIN: u16 = 16;

pub fn base(p: u16, sector: bool, address: u16) -> u16
    requires { (p < 16384) × (address < 512) }
    ensures { (result ≡ base_of p sector address) × (result < 16384) }
{
    if sector {
        p / 512 * 512 + address
    } else {
        address
    }
}

// X is read only under the tag: most instructions have none.
pub fn indexed(image: &Image, at: u16, tag: bool) -> u16
    requires { at < 16384 }
    ensures { (result ≡ indexed_of at tag (slice_index image.now 0)) × (result < 16384) }
{
    if tag {
        let x = image[0];
        (at + x % MEMORY) % MEMORY
    } else {
        at
    }
}

// The effective address, after at most 16 indirect words.
#[tactic(auto, using(crate::proofs::Chains::for_follow))]
pub fn follow(image: &Image, indirect: bool, at: u16) -> Result<Reached, Failure>
    requires { at < 16384 }
    ensures { result ≡ follow_of image.now 16 indirect at }
{
    let mut at = at;
    let mut indirect = indirect;
    for passed in 0..LONGEST_CHAIN {
        if !indirect {
            return Ok(Reached {
                address: at,
                passed,
            });
        }
        let w = image[at as usize];
        at = indexed(image, w % MEMORY, field::is_tagged(w));
        indirect = field::is_indirect(w);
    }
    if indirect {
        return Err(Failure::LongChain);
    }
    Ok(Reached {
        address: at,
        passed: LONGEST_CHAIN,
    })
}
