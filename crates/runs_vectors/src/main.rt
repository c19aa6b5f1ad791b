// Compiles the stored sources and runs them from their entries, in pieces that end at the observations of their meanings (`moments`): all comes out as
// in one run. A moment is a number that is read: that it is printed says only that the run had not ended by then.
#![tactic(auto)]

use case_input::{Numbers, part_end};
use compiler::SCRATCH_WORDS;
use machine::{Clock, Machine, Outcome, Report, Request};

mod input;

// The entry; 0, where no code stands, for a source that is refused.
fn compile(source: &[u8], image: &mut [u16]) -> u16 {
    let mut scratch = [0u16; SCRATCH_WORDS];
    compiler::compile(source, image, &mut scratch).map_or(0, |program| program.entry)
}

// Compiles the source that comes next: its length and its bytes.
fn compile_case(numbers: &mut Numbers, image: &mut [u16]) -> u16 {
    let size = numbers.number();
    let Numbers { text, at } = *numbers;
    let end = part_end(text, at, size);
    let Some(source) = text.get(at..end) else {
        numbers.at = end;
        return 0;
    };
    numbers.at = part_end(text, end, 1);
    compile(source, image)
}

// Runs on until `total` steps are made; the clock has counted those made so far.
fn run_until(image: &mut [u16], m: Machine, clock: Clock, total: u32) -> Report {
    let request = Request {
        budget: total.saturating_sub(clock.common),
        cooperative: 15,
    };
    machine::run(image, m, clock, request)
}

// Where a run has stopped.
#[derive(Debug, Clone, Copy)]
struct Stop {
    machine: Machine,
    clock: Clock,
}

// Runs from moment to moment: their count, then the steps up to each. Prints the steps made at each one that the run comes to.
fn run_moments(
    rt: &impl Print,
    numbers: &mut Numbers,
    image: &mut [u16],
    machine: Machine,
) -> Stop {
    let mut stop = Stop {
        machine,
        clock: machine::start_clock(),
    };
    for _ in 0..numbers.number() {
        let report = run_until(image, stop.machine, stop.clock, numbers.number());
        stop = Stop {
            machine: report.machine,
            clock: report.clock,
        };
        if report.outcome == Outcome::Spent {
            let steps = stop.clock.common;
            let _ = print!(rt; " {steps}");
        }
    }
    stop
}

fn print_run(rt: &impl Print, budget: u32, report: Report) {
    let p = report.machine.p;
    let _ = print!(rt; "run {budget} ");
    case_output::ending(
        rt,
        report.outcome,
        report.clock.common,
        report.machine.registers,
    );
    let _ = println!(rt; "{p:o}");
}

// The case that comes next: its source, the start, the words to set and the moments.
fn case(rt: &impl Print, numbers: &mut Numbers, number: u32) {
    let mut image = [0u16; 16384];
    let entry = compile_case(numbers, &mut image);
    let start = input::read_start(numbers, entry);
    numbers.set_words(&mut image);
    let before = image;
    case_output::case(rt, number);
    let _ = print!(rt; "moments");
    let stop = run_moments(rt, numbers, &mut image, start.machine);
    let report = run_until(&mut image, stop.machine, stop.clock, start.budget);
    let _ = println!(rt; "");
    print_run(rt, start.budget, report);
    case_output::changes(rt, &before, &image);
    let _ = println!(rt; "end");
}

// Five programs have one like it: a function of them all would be handed a closure for the case, and each call would be no shorter.
fn cases(rt: &impl Print, text: &[u8]) {
    let mut numbers = Numbers { text, at: 0 };
    for number in 0..numbers.number() {
        case(rt, &mut numbers, number);
    }
}

fn main(rt: HostRuntime) {
    let mut text = [0u8; 262144];
    let n = output::read_full(&mut rt.reader(), &mut text);
    cases(&rt, &text[..n]);
}
