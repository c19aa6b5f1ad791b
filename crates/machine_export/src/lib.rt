// The machine for other languages, on slices of numbers (R11). specs/Places.antt says which number is what.
#![tactic(auto)]

ghost use Rattle.std.specs.Prelude.{◌≡◌, ◌<◌, length, true};
ghost use Rattle.word.specs.Arithmetic.{bit};
ghost use Rattle.machine.specs.Clock.{due_of};
ghost use Rattle.machine_export.specs.Places.{MACHINE, CLOCK, REPORT};
ghost use Rattle.machine_export.specs.Export.{numbers, sized, words_fit, flags_fit, WordsFit, Fitting, fits_of, flag_of, machine_of, clock_of};
ghost use Rattle.machine_export.specs.Export.{outcome_of, with_machine, clock_numbers, with_report, Called};

use effect::{Registers, Switches};
use machine::{Clock, Machine, Outcome, Report, Request};

// The places of the C interface: numbers, as its callers have them.
const A: usize = 0;

const B: usize = 1;

const C: usize = 2;

const P: usize = 3;

const SWITCH_1: usize = 4;

const SWITCH_2: usize = 5;

const SWITCH_3: usize = 6;

const SWITCH_4: usize = 7;

const HALTED: usize = 8;

const MACHINE: usize = 9;

const COMMON: usize = 0;

const COUNTS: usize = 1;

const CLOCK: usize = 17;

const BUDGET: usize = 0;

const COOPERATIVE: usize = 1;

const REQUEST: usize = 2;

const OUTCOME: usize = 0;

const FAILURE: usize = 1;

const STEPS: usize = 2;

const REPORT: usize = 3;

const COOPERATIVES: usize = 16;

fn sizes_fit(machine: &[u32], clock: &[u32], request: &[u32], report: &[u32]) -> bool
    ensures { result ≡ sized (numbers machine.now clock.now request.now report.now) }
{
    machine.len() == MACHINE
        && clock.len() == CLOCK
        && request.len() == REQUEST
        && report.len() == REPORT
}

fn words_fit(machine: &[u32]) -> bool
    requires { length machine.now ≡ MACHINE }
    ensures { result ≡ words_fit machine.now }
{
    machine[A] <= 65535 && machine[B] <= 65535 && machine[P] <= 65535
}

fn flags_fit(machine: &[u32]) -> bool
    requires { length machine.now ≡ MACHINE }
    ensures { result ≡ flags_fit machine.now }
{
    machine[C] <= 1
        && machine[SWITCH_1] <= 1
        && machine[SWITCH_2] <= 1
        && machine[SWITCH_3] <= 1
        && machine[SWITCH_4] <= 1
        && machine[HALTED] <= 1
}

// Whether the numbers are a call's: all there, words where words are due, and flags of 0 or 1.
#[tactic(auto, using(crate::proofs::Facts::fitting), unfolding(crate::specs::Export::fits_of))]
fn fits(machine: &[u32], clock: &[u32], request: &[u32], report: &[u32]) -> bool
    ensures said { result ≡ fits_of (numbers machine.now clock.now request.now report.now) }
    ensures fitting { result ≡ true → Fitting (numbers machine.now clock.now request.now report.now) }
{
    sizes_fit(machine, clock, request, report) && words_fit(machine) && flags_fit(machine)
}

fn flag(machine: &[u32], place: usize) -> bool
    requires { place < length machine.now }
    ensures { result ≡ flag_of machine.now place }
{
    machine[place] == 1
}

#[tactic(auto, unfolding(crate::specs::Export::machine_of))]
fn machine_of(machine: &[u32]) -> Machine
    requires { (length machine.now ≡ MACHINE) × WordsFit machine.now }
    ensures { result ≡ machine_of machine.now }
{
    let registers = Registers {
        a: machine[A] as u16,
        b: machine[B] as u16,
        c: flag(machine, C),
    };
    let switches = Switches {
        one: flag(machine, SWITCH_1),
        two: flag(machine, SWITCH_2),
        three: flag(machine, SWITCH_3),
        four: flag(machine, SWITCH_4),
    };
    Machine {
        registers,
        p: machine[P] as u16,
        switches,
        halted: flag(machine, HALTED),
    }
}

fn clock_of(clock: &[u32]) -> Clock
    requires { length clock.now ≡ CLOCK }
    ensures { result ≡ clock_of clock.now }
{
    Clock {
        common: clock[COMMON],
        counts: <[u32; COOPERATIVES]>::try_from(&clock[COUNTS..]).unwrap(),
    }
}

// Says once, for the nine stores, that the number is the bit of the definitions.
fn number(flag: bool) -> u32
    ensures { result ≡ bit flag }
{
    u32::from(flag)
}

fn outcome(ended: Outcome) -> u32
    ensures { result ≡ outcome_of ended }
{
    match ended {
        Outcome::Halted => 0,
        Outcome::Spent => 1,
        Outcome::Failed(_) => 2,
    }
}

#[tactic(auto, unfolding(crate::specs::Export::with_machine, crate::specs::Export::stored))]
fn put_machine(numbers: &mut [u32], machine: Machine)
    requires { length numbers.old ≡ MACHINE }
    ensures { numbers.new ≡ with_machine numbers.old machine }
{
    let registers = machine.registers;
    let switches = machine.switches;
    numbers[A] = registers.a as u32;
    numbers[B] = registers.b as u32;
    numbers[C] = number(registers.c);
    numbers[P] = machine.p as u32;
    numbers[SWITCH_1] = number(switches.one);
    numbers[SWITCH_2] = number(switches.two);
    numbers[SWITCH_3] = number(switches.three);
    numbers[SWITCH_4] = number(switches.four);
    numbers[HALTED] = number(machine.halted);
}

#[tactic(auto, using(crate::proofs::Copies::behind_first))]
fn put_clock(numbers: &mut [u32], clock: Clock)
    requires { length numbers.old ≡ CLOCK }
    ensures { numbers.new ≡ clock_numbers clock }
{
    numbers[COMMON] = clock.common;
    numbers[COUNTS..].copy_from_slice(&clock.counts);
}

#[tactic(auto, unfolding(crate::specs::Export::with_report, crate::specs::Export::stored))]
fn put_report(numbers: &mut [u32], report: Report)
    requires { length numbers.old ≡ REPORT }
    ensures { numbers.new ≡ with_report numbers.old report }
{
    let ended = report.outcome;
    numbers[OUTCOME] = outcome(ended);
    numbers[FAILURE] = u32::from(ended.number());
    numbers[STEPS] = report.steps;
}

// A run, and true; or false for numbers that are no call's, and nothing changes.
pub fn machine_run(
    image: &mut [u16],
    machine: &mut [u32],
    clock: &mut [u32],
    request: &[u32],
    report: &mut [u32],
) -> bool
    ensures { Called
        (numbers machine.old clock.old request.now report.old) image.old result
        (numbers machine.new clock.new request.now report.new) image.new }
{
    if !fits(&*machine, &*clock, request, &*report) {
        return false;
    }
    let asked = Request {
        budget: request[BUDGET],
        cooperative: request[COOPERATIVE],
    };
    let ran = machine::run(&mut *image, machine_of(&*machine), clock_of(&*clock), asked);
    put_machine(&mut *machine, ran.machine);
    put_clock(&mut *clock, ran.clock);
    put_report(&mut *report, ran);
    true
}

// Whether the deadline has come at this clock, the first number of the record.
pub fn machine_due(clock: u32, deadline: u32) -> bool
    ensures { result ≡ due_of clock deadline }
{
    let record = Clock {
        common: clock,
        ..machine::start_clock()
    };
    machine::due(record, deadline)
}
