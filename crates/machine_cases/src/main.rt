// The limits of the machine (R3 to R9, R12, R13, F1, F20 to F23, F27, J12), by name: each case prints what came out.
#![tactic(auto)]

ghost use Rattle.std.specs.Prelude.{◌≤◌};

use effect::{Registers, Switches};
use image::{CHAIN, LONG, LOOP, NOPS, UNKNOWN};
use machine::{Clock, Machine, Report, Request};

mod clock;
mod image;

fn machine_at(p: u16, halted: bool) -> Machine {
    Machine {
        registers: Registers {
            a: 0o12345,
            b: 0o54321,
            c: true,
        },
        p,
        switches: Switches {
            one: true,
            two: false,
            three: true,
            four: false,
        },
        halted,
    }
}

fn print_report(rt: &impl Print, name: &str, r: Report, kept: bool) {
    let Report {
        steps,
        outcome,
        machine,
        clock: _,
    } = r;
    let state = if kept { "kept" } else { "changed" };
    let p = machine.p;
    let _ = print!(rt; "{name}: {outcome}, {steps} steps, state {state}, P {p}");
}

// A run on an image of so many words.
fn attempt_for(
    rt: &impl Print,
    cooperative: u32,
    name: &str,
    words: usize,
    p: u16,
    halted: bool,
    budget: u32,
)
    requires { words ≤ 16385 }
{
    let mut image = [0u16; 16385];
    image::lay(&mut image);
    let before = image;
    let m = machine_at(p, halted);
    let clock = clock::start();
    let request = Request {
        budget,
        cooperative,
    };
    let r = machine::run(&mut image[..words], m, clock, request);
    // P is left out: it is printed.
    let p = r.machine.p;
    let kept = r.machine == Machine { p, ..m } && image == before;
    print_report(rt, name, r, kept);
    clock::print(rt, cooperative, clock, r.clock);
}

fn attempt(rt: &impl Print, name: &str, words: usize, p: u16, halted: bool, budget: u32)
    requires { words ≤ 16385 }
{
    attempt_for(rt, 3, name, words, p, halted, budget);
}

fn images(rt: &impl Print) {
    attempt(rt, "image of 0 words", 0, LOOP, false, 10);
    attempt(rt, "image of 16383 words", 16383, LOOP, false, 10);
    attempt(rt, "image of 16384 words", 16384, LOOP, false, 10);
    attempt(rt, "image of 16385 words", 16385, LOOP, false, 10);
}

fn budgets(rt: &impl Print) {
    attempt(rt, "budget 0", 16384, LOOP, false, 0);
    attempt(rt, "budget 1000000", 16384, LOOP, false, 1000000);
    attempt(rt, "budget 1000001", 16384, LOOP, false, 1000001);
}

fn counters(rt: &impl Print) {
    attempt(rt, "P 16383", 16384, 16383, false, 10);
    attempt(rt, "P 16384", 16384, 16384, false, 10);
    attempt(rt, "P 65535", 16384, 65535, false, 10);
}

fn halts(rt: &impl Print) {
    attempt(rt, "halted, budget 0", 16384, LOOP, true, 0);
    attempt(rt, "halted, budget 1000000", 16384, LOOP, true, 1000000);
    attempt(rt, "halted, budget 1000001", 16384, LOOP, true, 1000001);
    attempt(rt, "halted, P 16384", 16384, 16384, true, 10);
    attempt(rt, "halted, image of 16383 words", 16383, LOOP, true, 10);
}

fn order(rt: &impl Print) {
    attempt(
        rt,
        "wrong image, P and budget",
        16383,
        16384,
        false,
        1000001,
    );
    attempt(rt, "wrong image and P", 16383, 16384, false, 10);
    attempt(rt, "wrong image and budget", 16383, LOOP, false, 1000001);
    attempt(rt, "wrong P and budget", 16384, 16384, false, 1000001);
}

fn failures(rt: &impl Print) {
    attempt(rt, "16 indirect words", 16384, CHAIN, false, 10);
    attempt(rt, "17 indirect words", 16384, LONG + 1, false, 10);
    attempt(rt, "17 indirect words after a step", 16384, LONG, false, 10);
    attempt(rt, "17 indirect words not reached", 16384, LONG, false, 1);
    attempt(rt, "no instruction", 16384, UNKNOWN + 1, false, 10);
    attempt(rt, "no instruction after a step", 16384, UNKNOWN, false, 10);
    attempt(rt, "no instruction not reached", 16384, UNKNOWN, false, 1);
}

fn clocks(rt: &impl Print) {
    attempt(rt, "clock up to the last", 16384, NOPS, false, 1);
    attempt(rt, "clock at zero", 16384, NOPS, false, 2);
    attempt(rt, "clock through zero", 16384, NOPS, false, 10);
}

fn cooperatives(rt: &impl Print) {
    attempt_for(rt, 0, "cooperative 0", 16384, NOPS, false, 10);
    attempt_for(rt, 15, "cooperative 15", 16384, NOPS, false, 10);
    attempt_for(rt, 16, "cooperative 16", 16384, NOPS, false, 10);
    attempt_for(rt, 256, "cooperative 256", 16384, NOPS, false, 10);
    attempt_for(rt, 65536, "cooperative 65536", 16384, NOPS, false, 10);
    attempt_for(
        rt,
        4294967295,
        "cooperative 4294967295",
        16384,
        NOPS,
        false,
        10,
    );
    attempt_for(rt, 7, "count at zero", 16384, NOPS, false, 1);
    attempt_for(rt, 7, "count through zero", 16384, NOPS, false, 10);
}

fn wrong_cooperatives(rt: &impl Print) {
    attempt_for(
        rt,
        16,
        "cooperative 16, wrong image",
        16383,
        NOPS,
        false,
        10,
    );
    attempt_for(rt, 16, "cooperative 16, wrong P", 16384, 16384, false, 10);
    attempt_for(
        rt,
        16,
        "cooperative 16, wrong budget",
        16384,
        NOPS,
        false,
        1000001,
    );
    attempt_for(rt, 16, "cooperative 16, halted", 16384, NOPS, true, 10);
    attempt_for(
        rt,
        16,
        "cooperative 16 and all else wrong",
        0,
        65535,
        true,
        1000001,
    );
}

// A run that goes on with a clock record.
fn go_on(cooperative: u32, image: &mut [u16], m: Machine, clock: Clock, budget: u32) -> Report {
    let request = Request {
        budget,
        cooperative,
    };
    machine::run(image, m, clock, request)
}

// 1 makes two steps, 16 is refused, and 2 goes on to the halt.
fn on_one_machine(rt: &impl Print) {
    let mut image = [0u16; 16384];
    image::lay(&mut image);
    let first = go_on(1, &mut image, machine_at(NOPS, false), clock::start(), 2);
    let refused = go_on(16, &mut image, first.machine, first.clock, 2);
    let second = go_on(2, &mut image, refused.machine, refused.clock, 10);
    clock::print_all(rt, "two cooperatives on one machine", second.clock);
}

// 1 makes two steps and 2 ten, each on a machine of its own; then 1 goes on to the halt.
fn on_two_machines(rt: &impl Print) {
    let mut image = [0u16; 16384];
    image::lay(&mut image);
    let mut other = image;
    let first = go_on(1, &mut image, machine_at(NOPS, false), clock::start(), 2);
    let second = go_on(2, &mut other, machine_at(LOOP, false), first.clock, 10);
    let third = go_on(1, &mut image, first.machine, second.clock, 10);
    clock::print_all(rt, "two cooperatives on two machines", third.clock);
}

// With the counts as at the start: they are no part of it.
fn deadline(rt: &impl Print, name: &str, now: u32, deadline: u32) {
    let clock = Clock {
        common: now,
        ..clock::start()
    };
    let due = if machine::due(clock, deadline) {
        "due"
    } else {
        "not due"
    };
    let _ = println!(rt; "{name}: {due}");
}

fn deadlines(rt: &impl Print) {
    deadline(rt, "clock at the deadline", 1000, 1000);
    deadline(rt, "clock 2^31 - 1 after it", 2147484647, 1000);
    deadline(rt, "clock 2^31 after it", 2147484648, 1000);
    deadline(rt, "deadline one ahead", 999, 1000);
    deadline(rt, "deadline 4294967290, clock 5", 5, 4294967290);
    deadline(rt, "deadline 5, clock 4294967290", 4294967290, 5);
}

fn main(rt: HostRuntime) {
    images(&rt);
    budgets(&rt);
    counters(&rt);
    halts(&rt);
    order(&rt);
    failures(&rt);
    clocks(&rt);
    cooperatives(&rt);
    wrong_cooperatives(&rt);
    on_one_machine(&rt);
    on_two_machines(&rt);
    deadlines(&rt);
}
