// What is typed behind a program's name: a count of turns, and the sense switches.
#![tactic(auto)]

ghost use Rattle.std.specs.Prelude.{◌≡◌};
ghost use Rattle.std.specs.List.{list_all};
ghost use Rattle.arguments.specs.Arguments.{turns_of, is_switch, switches_of};

use effect::Switches;
use source::byte::is_between;

// The largest count of turns.
const MOST_TURNS: u32 = 1000000;

// More digits make no number smaller, so that one past the limit decides: any number of digits may be handed in.
// Not `str::parse`, which allows a sign.
#[tactic(auto, using(crate::proofs::Bytes::for_turns), unfolding(crate::specs::Arguments::turns_of))]
pub fn turns(text: &[u8]) -> Option<u32>
    ensures { result ≡ turns_of text.now }
{
    let mut n: u32 = 0;
    for &b in text {
        if !is_between(b'0', b'9', b) {
            return None;
        }
        n = 10 * n + (b - b'0') as u32;
        if MOST_TURNS < n {
            return None;
        }
    }
    if n == 0 {
        return None;
    }
    Some(n)
}

fn all_switches(text: &[u8]) -> bool
    ensures { result ≡ list_all is_switch text.now }
{
    text.iter().all(|b| is_between(b'0', b'1', *b))
}

#[tactic(auto, using(crate::proofs::Bytes::for_switches), unfolding(crate::specs::Arguments::switches_of))]
pub fn switches(text: &[u8]) -> Option<Switches>
    ensures { result ≡ switches_of text.now }
{
    if text.len() != 4 {
        return None;
    }
    if !all_switches(text) {
        return None;
    }
    Some(Switches {
        one: text[0] == b'1',
        two: text[1] == b'1',
        three: text[2] == b'1',
        four: text[3] == b'1',
    })
}
