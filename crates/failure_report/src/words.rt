// The failures in words, by their numbers (O3).
ghost use Rattle.std.specs.Prelude.{◌≡◌};
ghost use Rattle.text.specs.Adds.{Adds};
ghost use Rattle.failure_report.specs.Failure.{words_of};

use text::Text;

#[tactic(auto, unfolding(crate::specs::Failure::words_of, prelude::specs::Choice::find))]
fn words(number: u16) -> &'static [u8]
    ensures { result.now ≡ words_of number }
{
    match number {
        1 => b"the image has not 16,384 words",
        2 => b"scratch has fewer than 6,144 words",
        3 => b"source of more than 8,192 bytes",
        4 =>
            b"unknown byte or keyword (lower-case letters, tabs and carriage returns are unknown bytes)",
        5 =>
            b"number out of its range: constants to 32767, -32768 or '177777, sizes to 8192, shifts 1 to 15",
        6 =>
            b"unexpected here, or the source ends too soon; a missing ;, .ELSE or .END shows at what follows it",
        7 => b"name undeclared or of the wrong kind",
        8 => b"name declared already (six characters count), or X",
        9 => b"nesting deeper than 32",
        10 => b"more than 512 live names",
        11 => b"no word left for a global",
        12 => b"more than 512 words in this sector; .NEXTSECTOR begins another",
        13 => b"no room left between the code and the arrays, or no sector left",
        14 => b"more initial values than elements",
        20 => b"the word at P is no instruction; often a subscript left its array",
        21 => b"more than 16 indirect words in a row; often a subscript left its array",
        22 => b"budget above 1,000,000 steps",
        23 => b"P is outside the 16,384 words",
        24 => b"more than 32,767 litres",
        25 =>
            b"a farm's name is empty, without a newline, over 14 bytes, or has bytes outside 32 to 126",
        26 => b"output too short, more than 1,000 farms, or not as many names as litres",
        27 => b"cooperative above 15",
        _ => b"no failure has this number",
    }
}

pub fn put_words(text: &mut Text<'_>, number: u16)
    ensures { Adds text.old text.new (words_of number) }
{
    text.put(words(number));
}
