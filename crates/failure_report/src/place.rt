// Lines and columns, both counted from 1; a newline, and nothing else, ends a line (O1).
ghost use Rattle.std.specs.Prelude.{◌≡◌, ◌+◌, ◌≤◌, length, drop, count_by, reverse};
ghost use Rattle.std.specs.List.{position};
ghost use Rattle.failure_report.specs.Place.{is_newline, line_start, line_of, column_of, line_length};

const NEWLINE: u8 = b'\n';

fn newlines(text: &[u8]) -> usize
    ensures { result ≡ count_by is_newline text.now }
{
    text.iter().filter(|b| **b == NEWLINE).count()
}

// The first newline.
fn first_newline(text: &[u8]) -> Option<usize>
    ensures { result ≡ position is_newline text.now }
{
    text.iter().position(|b| *b == NEWLINE)
}

// The last newline, from the end.
fn last_newline(text: &[u8]) -> Option<usize>
    ensures { result ≡ position is_newline (reverse text.now) }
{
    text.iter().rev().position(|b| *b == NEWLINE)
}

// Where the line of an offset begins: behind the newline before it, or at 0.
pub fn line_start(source: &[u8], at: usize) -> usize
    ensures { (result ≡ line_start source.now at) × (result ≤ at) × (result ≤ length source.now) }
{
    let before = &source[..at.min(source.len())];
    before.len() - last_newline(before).unwrap_or(before.len())
}

pub fn line(source: &[u8], at: usize) -> usize
    ensures { result ≡ line_of source.now at }
{
    newlines(&source[..at.min(source.len())]).saturating_add(1)
}

pub fn column(source: &[u8], at: usize) -> usize
    ensures { result ≡ column_of source.now at }
{
    (at - line_start(source, at)).saturating_add(1)
}

// Where the line that begins at an offset ends: at its newline, or with the source.
pub fn line_end(source: &[u8], from: usize) -> usize
    requires { from ≤ length source.now }
    ensures { (result ≡ from + line_length (drop from source.now)) × (from ≤ result) × (result ≤ length source.now) }
{
    let rest = &source[from..];
    from + first_newline(rest).unwrap_or(rest.len())
}
