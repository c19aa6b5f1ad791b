// Compiles the stored sources and prints the listing of each.
#![tactic(auto)]

ghost use Rattle.std.specs.Prelude.{◌<◌, ◌^◌};

use case_input::{parse_number, part_end};
use compiler::{Program, SCRATCH_WORDS};
use listing_lines::LONGEST;
use parser::Failure;

// The buffer stands at the head of a function of its own: as a later local of `listing` it would be set to zeros twice.
fn print_lines(rt: &impl Print, answer: Result<Program, Failure>, image: &[u16]) {
    let mut out = [0u8; LONGEST];
    let size = listing_lines::lines(answer, image, &mut out);
    output::print_start(rt, &out, size);
}

fn listing(rt: &impl Print, source: &[u8]) {
    let mut image = [0u16; 16384];
    let mut scratch = [0u16; SCRATCH_WORDS];
    let answer = compiler::compile(source, &mut image, &mut scratch);
    print_lines(rt, answer, &image);
}

// The case at `at`: its length and its bytes. Answers where the next one starts.
fn case(rt: &impl Print, text: &[u8], at: usize, number: u32) -> usize {
    let size = parse_number(text, at);
    let from = size.next;
    let end = part_end(text, from, size.value);
    let _ = println!(rt; "case {number}");
    if from <= end {
        listing(rt, &text[from..end]);
    }
    part_end(text, end, 1)
}

// Five programs have one like it: a function of them all would be handed a closure for the case, and each call would be no shorter.
fn cases(rt: &impl Print, text: &[u8]) {
    let count = parse_number(text, 0);
    let last = count.value;
    let mut at = count.next;
    for i in 0..last {
        at = case(rt, text, at, i);
    }
}

// The cases of an input of at most N bytes. N is a parameter, since the check of a literal array of 524,288 bytes runs out of stack.
fn answer<const N: usize>(rt: &(impl Input + Print))
    requires { N < 2 ^ 63 }
{
    let mut text = [0u8; N];
    let n = output::read_full(&mut rt.reader(), &mut text);
    cases(rt, &text[..n]);
}

fn main(rt: HostRuntime) {
    answer::<524288>(&rt);
}
