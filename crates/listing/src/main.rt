// The listing program: reads a source, compiles it onto zeros, and prints the listing (P1). Its stored output is that of the first program (K1).
#![tactic(auto)]

use listing_lines::LONGEST;

fn main(rt: HostRuntime) {
    let mut image = [0u16; 16384];
    let mut scratch = [0u16; 12288];
    // One byte more than the longest source: a longer one fails by that byte (F3).
    let mut text = [0u8; 8193];
    let n = output::read_full(&mut rt.reader(), &mut text);
    let answer = compiler::compile(&text[..n], &mut image, &mut scratch);
    let mut out = [0u8; LONGEST];
    let size = listing_lines::lines(answer, &image, &mut out);
    output::print_start(&rt, &out, size);
}
