// Bytes: a range of them, those of the source and of names.
ghost use Rattle.std.specs.Prelude.{◌≡◌, get_or};
ghost use Rattle.prelude.specs.Choice.{between};
ghost use Rattle.source.specs.Tokens.{name_of};

use crate::Token;

pub fn is_between(low: u8, high: u8, b: u8) -> bool
    ensures { result ≡ between low high b }
{
    (low..=high).contains(&b)
}

/// The byte at an offset, or 0 past the end.
pub fn byte_at(source: &[u8], at: usize) -> u8
    ensures { result ≡ get_or source.now at 0 }
{
    source.get(at).copied().unwrap_or(0)
}

/// A byte of a name, of which the first six count (T7); 0 past its end.
#[tactic(auto, using(crate::proofs::Names::for_name_byte))]
pub fn name_byte(source: &[u8], name: Token, i: usize) -> u8
    ensures { result ≡ get_or (name_of source.now name) i 0 }
{
    let width = name.next.saturating_sub(name.at);
    if i < width.min(6) {
        byte_at(source, name.at + i)
    } else {
        0
    }
}
