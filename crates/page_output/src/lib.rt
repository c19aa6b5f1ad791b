// What the programs with stored pages share: an output that is marked before the call, and whether what may not be written is still marked.
#![tactic(auto)]

use output::print;

// No page has this byte.
pub const MARK: u8 = 1;

fn kept(out: &[u8], from: usize) -> bool {
    out.iter().skip(from).all(|byte| *byte == MARK)
}

// Whether the bytes from an offset on are marked, at the end of a line.
pub fn print_kept(rt: &impl Print, out: &[u8], from: usize) {
    if kept(out, from) {
        print(rt, b"kept\n");
    } else {
        print(rt, b"changed\n");
    }
}
