// Printing on standard output, and reading an input into a slice. A write that fails is not reported: the rest of its text is lost.
#![tactic(auto)]

ghost use Rattle.std.specs.Prelude.{◌≤◌, length};

use std::io::Read;

pub fn print(rt: &impl Print, text: &[u8]) {
    let _ = rt.write_all(text);
}

pub fn print_decimal(rt: &impl Print, n: u64) {
    let _ = print!(rt; "{n}");
}

// The first bytes of a text, as many as it has.
pub fn print_start(rt: &impl Print, text: &[u8], size: usize) {
    if size <= text.len() {
        print(rt, &text[0..size]);
        return;
    }
    print(rt, text);
}

// Reads until the text is full, the input ends or a read fails, and answers how many bytes it has put at the start of the text.
// `read_exact` would not say how many, and `read_to_end` allocates.
pub fn read_full(from: &mut impl Read, text: &mut [u8]) -> usize
    ensures { result ≤ length text.new }
{
    let mut n = 0;
    while n < text.len() {
        let Ok(more) = from.read(&mut text[n..]) else {
            break;
        };
        if more == 0 {
            break;
        }
        n += more;
    }
    n
}
