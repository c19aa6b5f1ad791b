// The first page and the collection page: a recipe (a source of the report writer's) sums an array of litres.
// The litres, and the total of the first page, are taken from the machine's memory; the collection page adds up its own totals.
#![tactic(auto)]

ghost use Rattle.std.specs.Prelude.{◌≡◌, Some};
ghost use Rattle.failure_report.specs.Failure.{words_of};
ghost use Rattle.farm.specs.Words.{FailuresInWords};

use compiler::SCRATCH_WORDS;
use effect::Switches;
use machine::Outcome;
use std::fmt;
use turns::{run_turns, start};

// LITRES[-3], the lowest word of the first array (A5); TOTAL, the second global (A3).
const LITRES: usize = 16380;

const TOTAL: usize = 0o201;

// Runs the image from its entry, and answers whether it came to its end.
fn run(image: &mut [u16], entry: u16) -> bool {
    let down = Switches {
        one: false,
        two: false,
        three: false,
        four: false,
    };
    let ran = run_turns(image, start(entry, down), 1);
    matches!(ran.outcome, Outcome::Halted)
}

// Compiles the recipe and runs it; false if one of the two failed.
fn compile_and_run(image: &mut [u16; 16384]) -> bool {
    let mut scratch = [0u16; SCRATCH_WORDS];
    let answer = compiler::compile(
        b".BEGIN .ARRAY LITRES[3] (2140, 1875, 960); .INTEGER TOTAL; .FOR # = -3 .DO TOTAL = TOTAL + LITRES[#] .END",
        &mut *image,
        &mut scratch,
    );
    match answer {
        Ok(program) => run(&mut *image, program.entry),
        Err(_) => false,
    }
}

fn print_line(rt: &impl Print, image: &[u16; 16384]) {
    let upper = image[LITRES];
    let mill = image[LITRES + 1];
    let long = image[LITRES + 2];
    let total = image[TOTAL];
    let _ = println!(rt;
        "Farm, litres: Upper Field, {upper}; Mill Lane, {mill}; Long Acre, {long}. Total, {total}."
    );
}

// The words are those that the table of all failures has for the number (O3).
fn print_in_words<D: fmt::Display>(rt: &impl Print, number: u16, words: &D)
    requires { D.output words.now ≡ Some (words_of number) }
{
    let _ = println!(rt; "The page failed with {number}: {words}");
}

// This function carries the theorem on a page's failures as its contract.
fn print_failure(rt: &impl Print, failure: page::Failure)
    ensures { FailuresInWords }
{
    print_in_words(rt, failure.number(), &failure);
}

// The collection page of the same farms.
fn print_page(rt: &impl Print, image: &[u16; 16384]) {
    let litres = [image[LITRES], image[LITRES + 1], image[LITRES + 2]];
    let mut out = [0u8; 93];
    let answer = page::page(b"Upper Field\nMill Lane\nLong Acre\n", &litres, &mut out);
    match answer {
        Ok(length) => output::print_start(rt, &out, length),
        Err(failure) => print_failure(rt, failure),
    }
}

fn main(rt: HostRuntime) {
    let mut image = [0u16; 16384];
    if compile_and_run(&mut image) {
        print_line(&rt, &image);
        print_page(&rt, &image);
    } else {
        output::print(&rt, b"The recipe did not come to its end.\n");
    }
}
