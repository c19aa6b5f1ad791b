// Reading a source to its end.
ghost use Rattle.std.specs.Prelude.{◌≤◌, length, IfOk};

use std::io::{self, Read};

// Reads until the text is full or the input ends, and answers how many bytes stand at the start of the text. A read that fails, be it the first or a
// later one, makes the whole input unreadable: a part of a source would be another source. A read answers how many bytes it took: no iterator gives that.
pub fn read_source(from: &mut impl Read, text: &mut [u8]) -> io::Result<usize>
    ensures { IfOk result (λ n. n ≤ length text.new) }
{
    let mut n = 0;
    while n < text.len() {
        let more = from.read(&mut text[n..])?;
        if more == 0 {
            break;
        }
        n += more;
    }
    Ok(n)
}
