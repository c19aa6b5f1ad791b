// Bytes as they are shown.
ghost use Rattle.std.specs.Prelude.{◌≡◌, map};
ghost use Rattle.text.specs.Adds.{Adds};
ghost use Rattle.failure_report.specs.Place as place;

use text::Text;

// A byte that has no shape of its own is shown as `?`, so that each byte takes one column (O2).
#[tactic(auto, unfolding(crate::specs::Place::visible))]
fn visible(byte: u8) -> u8
    ensures { result ≡ place.visible byte }
{
    match byte {
        32..=126 => byte,
        _ => b'?',
    }
}

#[tactic(auto, using(text::proofs::Laws::for_start))]
pub fn put_visible(text: &mut Text<'_>, bytes: &[u8])
    ensures { Adds text.old text.new (map place.visible bytes.now) }
{
    for &byte in bytes {
        text.byte(visible(byte));
    }
}
