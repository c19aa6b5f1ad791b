// Cases of the compiler by name, those that proved_cases does not have (K5 to K8, F1 to F3, F10, J15, T14 and D7): the listing of each, what is left in the
// image and in scratch, and how the image of an accepted one runs.
#![tactic(auto)]

use case_input::{parse_number, part_end};
use compiler::SCRATCH_WORDS;
use effect::{Registers, Switches};
use listing_lines::LONGEST;
use machine::{Machine, Outcome, Request};
use output::{print, print_start};

// What every word of the lent slices holds before a case.
const MARK: u16 = 7;

fn all_are(words: &[u16], value: u16) -> bool {
    words.iter().all(|word| *word == value)
}

// The image as it was emitted, from its entry, all registers 0.
fn run(rt: &impl Print, image: &mut [u16], entry: u16) {
    let registers = Registers {
        a: 0,
        b: 0,
        c: false,
    };
    let switches = Switches {
        one: false,
        two: false,
        three: false,
        four: false,
    };
    let start = Machine {
        registers,
        p: entry,
        switches,
        halted: false,
    };
    let report = machine::run(
        image,
        start,
        machine::start_clock(),
        Request {
            budget: 1000000,
            cooperative: 0,
        },
    );
    let outcome = report.outcome;
    if let Outcome::Halted = outcome {
        print(rt, b"run=halted\n");
    } else {
        print(rt, b"run=other\n");
    }
    let steps = report.steps;
    let Registers { a, b, c } = report.machine.registers;
    let carry = c as u16;
    let _ = println!(rt; "steps={steps}\na={a}\nb={b}\nc={carry}");
}

// Answers whether an image was emitted.
fn listing(rt: &impl Print, source: &[u8], image: &mut [u16], scratch: &mut [u16]) -> bool {
    let answer = compiler::compile(source, image, scratch);
    let mut out = [0u8; LONGEST];
    let size = listing_lines::lines(answer, image, &mut out);
    print_start(rt, &out, size);
    let kept = all_are(image, MARK);
    if kept {
        print(rt, b"image=kept\n");
    } else {
        print(rt, b"image=laid\n");
    }
    if all_are(scratch, 0) {
        print(rt, b"scratch=zeros\n");
    } else {
        print(rt, b"scratch=left\n");
    }
    !kept
}

// A case with so many words of image and of scratch.
fn lend(rt: &impl Print, source: &[u8], image_size: u32, scratch_size: u32) -> bool {
    let mut image = [MARK; 16385];
    let mut scratch = [MARK; 12288];
    let words = image_size as usize;
    let spare = scratch_size as usize;
    if words <= 16385 {
        if spare <= 12288 {
            return listing(rt, source, &mut image[0..words], &mut scratch[0..spare]);
        }
    }
    false
}

// Compiled once more, onto zeros, and run.
fn run_source(rt: &impl Print, source: &[u8]) {
    let mut image = [0u16; 16384];
    let mut scratch = [0u16; SCRATCH_WORDS];
    let answer = compiler::compile(source, &mut image, &mut scratch);
    if let Ok(program) = answer {
        run(rt, &mut image, program.entry);
    }
}

// The case at `at`: the length of its name, the words of image and scratch, the length of its source, then the name and the source, a line each.
// Answers where the next one starts.
fn case(rt: &impl Print, text: &[u8], at: usize) -> usize {
    let name = parse_number(text, at);
    let image = parse_number(text, name.next);
    let scratch = parse_number(text, image.next);
    let size = parse_number(text, scratch.next);
    let from = size.next;
    let name_end = part_end(text, from, name.value);
    if from <= name_end {
        print(rt, &text[from..name_end]);
        print(rt, b"\n");
    }
    let source = part_end(text, name_end, 1);
    let end = part_end(text, source, size.value);
    if source <= end {
        if lend(rt, &text[source..end], image.value, scratch.value) {
            run_source(rt, &text[source..end]);
        }
    }
    part_end(text, end, 1)
}

// Five programs have one like it: a function of them all would be handed a closure for the case, and each call would be no shorter.
fn cases(rt: &impl Print, text: &[u8]) {
    let count = parse_number(text, 0);
    let last = count.value;
    let mut at = count.next;
    for _ in 0..last {
        at = case(rt, text, at);
    }
}

fn main(rt: HostRuntime) {
    let mut text = [0u8; 65536];
    let n = output::read_full(&mut rt.reader(), &mut text);
    cases(&rt, &text[..n]);
}
