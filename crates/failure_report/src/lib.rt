// A failure as it is shown: its place, number and words; the line that it stands in; and a caret below its place (O1 to O3).
#![tactic(auto)]

ghost use Rattle.std.specs.Prelude.{◌++◌, map, ◌≤◌, length};
ghost use Rattle.digits.specs.Digits.{newline};
ghost use Rattle.text.specs.Adds.{Adds};
ghost use Rattle.failure_report.specs.Place.{line_from, visible};
ghost use Rattle.failure_report.specs.Failure.{place_text, failure_text};

use place::{line_end, line_start};
use text::Text;

mod place;
mod visible;
mod words;

pub use place::{column, line};
pub use visible::put_visible;
pub use words::put_words;

fn put_place(text: &mut Text<'_>, source: &[u8], number: u16, at: usize)
    ensures { Adds text.old text.new (place_text source.now number at) }
{
    text.put(b"line ");
    text.decimal(line(source, at));
    text.put(b", column ");
    text.decimal(column(source, at));
    text.put(b": ");
    text.decimal(number as usize);
    text.put(b", ");
    put_words(text, number);
    text.put(b"\n");
}

fn put_line(text: &mut Text<'_>, source: &[u8], from: usize)
    requires { from ≤ length source.now }
    ensures { Adds text.old text.new (map visible (line_from source.now from) ++ newline) }
{
    let end = line_end(source, from);
    put_visible(text, &source[from..end]);
    text.put(b"\n");
}

pub fn put_failure(text: &mut Text<'_>, source: &[u8], number: u16, at: usize)
    ensures { Adds text.old text.new (failure_text source.now number at) }
{
    let start = line_start(source, at);
    put_place(text, source, number, at);
    put_line(text, source, start);
    text.spaces(at - start);
    text.put(b"^\n");
}
