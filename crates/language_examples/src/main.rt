// The examples of docs/LANGUAGE.md, and README's first: a heading for each source, and below it what `run` prints of it.
#![tactic(auto)]

use compiler::SCRATCH_WORDS;
use effect::Switches;
use output::{print, print_start};
use std::fs::{File, Files};

fn any_set(switches: Switches) -> bool {
    switches.one || switches.two || switches.three || switches.four
}

// The file's name, with the turns and the switches behind it where they are not 1 and 0000.
fn heading(rt: &impl Print, name: &[u8], turns: u32, digits: &[u8], switches: Switches) {
    print(rt, name);
    if turns != 1 || any_set(switches) {
        let _ = print!(rt; " {turns} ");
        print(rt, digits);
    }
    print(rt, b"\n");
}

// Compiles a source, runs it and prints what came of it, as `run` does: a crate shared by these two programs would be longer than the seven lines.
fn show(rt: &impl Print, source: &[u8], turns: u32, switches: Switches) {
    let mut image = [0u16; 16384];
    let mut scratch = [0u16; SCRATCH_WORDS];
    let mut out = [0u8; 262144];
    let size = report::show(source, turns, switches, &mut image, &mut scratch, &mut out);
    print_start(rt, &out, size);
}

fn show_file(rt: &(impl Files + Print), name: &str, turns: u32, switches: Switches) {
    let Ok(mut file) = File::open(rt, name) else {
        print(rt, b"cannot be opened\n");
        return;
    };
    // One byte more than the longest source: a longer one fails by that byte (F3).
    let mut text = [0u8; 8193];
    let n = output::read_full(&mut file, &mut text);
    show(rt, &text[..n], turns, switches);
}

// One file, with so many turns and the switches as four digits.
fn example(rt: &(impl Files + Print), name: &str, turns: u32, digits: &[u8]) {
    let Some(switches) = arguments::switches(digits) else {
        print(rt, b"switches are four digits 0 or 1\n");
        return;
    };
    heading(rt, name.as_bytes(), turns, digits, switches);
    show_file(rt, name, turns, switches);
}

fn first_programs(rt: &(impl Files + Print)) {
    example(rt, "litres.pl516", 1, b"0000");
    example(rt, "first.pl516", 1, b"0000");
    example(rt, "endless.pl516", 2, b"0000");
    example(rt, "lower.pl516", 1, b"0000");
}

fn expressions(rt: &(impl Files + Print)) {
    example(rt, "numbers.pl516", 1, b"0000");
    example(rt, "order.pl516", 1, b"0000");
    example(rt, "bits.pl516", 1, b"0000");
    example(rt, "words.pl516", 1, b"0000");
    example(rt, "fat.pl516", 1, b"0000");
    example(rt, "parts.pl516", 1, b"0000");
}

fn statements(rt: &(impl Files + Print)) {
    example(rt, "cans.pl516", 1, b"0000");
    example(rt, "week.pl516", 1, b"0000");
    example(rt, "forzero.pl516", 1, b"0000");
}

fn arrays(rt: &(impl Files + Print)) {
    example(rt, "milk.pl516", 1, b"0000");
    example(rt, "months.pl516", 1, b"0000");
    example(rt, "outside.pl516", 1, b"0000");
    example(rt, "checked.pl516", 1, b"0000");
    example(rt, "tested.pl516", 1, b"0000");
    example(rt, "letters.pl516", 1, b"0000");
}

fn whole_programs(rt: &(impl Files + Print)) {
    example(rt, "pay.pl516", 1, b"0000");
    example(rt, "tariff.pl516", 1, b"1000");
    example(rt, "tests.pl516", 1, b"0101");
    example(rt, "sectors.pl516", 1, b"0000");
}

// Failures 3 to 8; `lower` has failed with 4.
fn failures_of_words(rt: &(impl Files + Print)) {
    example(rt, "long.pl516", 1, b"0000");
    example(rt, "range.pl516", 1, b"0000");
    example(rt, "semicolon.pl516", 1, b"0000");
    example(rt, "late.pl516", 1, b"0000");
    example(rt, "unended.pl516", 1, b"0000");
    example(rt, "kind.pl516", 1, b"0000");
    example(rt, "twice.pl516", 1, b"0000");
}

// Failures 9 to 14.
fn failures_of_size(rt: &(impl Files + Print)) {
    example(rt, "deep.pl516", 1, b"0000");
    example(rt, "names.pl516", 1, b"0000");
    example(rt, "globals.pl516", 1, b"0000");
    example(rt, "sector.pl516", 1, b"0000");
    example(rt, "room.pl516", 1, b"0000");
    example(rt, "values.pl516", 1, b"0000");
}

// Failures 20 and 21.
fn failures_of_runs(rt: &(impl Files + Print)) {
    example(rt, "overwrite.pl516", 1, b"0000");
    example(rt, "itself.pl516", 1, b"0000");
}

fn main(rt: HostRuntime) {
    first_programs(&rt);
    expressions(&rt);
    statements(&rt);
    arrays(&rt);
    whole_programs(&rt);
    failures_of_words(&rt);
    failures_of_size(&rt);
    failures_of_runs(&rt);
}
