// Printing what came of a case, in words.
use output::print;
use page::Failure;
use page_output::print_kept;

// The bytes of a page's line.
const LINE: usize = 31;

// The page's length, whether the bytes behind it are kept, and its last line.
pub fn made(rt: &impl Print, out: &[u8], length: usize) {
    let _ = print!(rt; ": made, {length} bytes, rest ");
    print_kept(rt, out, length);
    if LINE <= length && length <= out.len() {
        let from = length - LINE;
        print(rt, &out[from..length]);
    }
}

pub fn failed(rt: &impl Print, out: &[u8], failure: Failure) {
    let number = failure.number();
    let _ = print!(rt; ": failed with {number}, output ");
    print_kept(rt, out, 0);
}
