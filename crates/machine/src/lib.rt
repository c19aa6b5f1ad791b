// The DDP-516 as a word machine: registers by value, the image lent, its word 0 being X. A run makes up to a budget of steps.
#![tactic(auto)]

ghost use Rattle.std.specs.Prelude.{◌≡◌, ◌<◌, Some};
ghost use Rattle.machine.specs.Failure.{failure_of, outcome_text};
ghost use Rattle.machine.specs.State.{state};
ghost use Rattle.machine.specs.Clock.{cooperatives, start_clock, spend_many, due_of};
ghost use Rattle.machine.specs.Run.{work, ended_of, refusal_of, run_from, run_def, Reports};

use effect::{Registers, Switches};
use failure::Failure;
use std::fmt;

mod address;
pub mod failure;
mod step;

// How many words an image has: addresses wrap here.
const MEMORY: u16 = 16384;

const IMAGE_LENGTH: usize = MEMORY as usize;

type Image = [u16; IMAGE_LENGTH];

const LARGEST_BUDGET: u32 = 1000000;

// How many cooperatives share a clock record.
const COOPERATIVES: u32 = 16;

// Half of the clock's range: a deadline that is this far behind, or further, counts as one ahead (R9).
const HALF_RANGE: u32 = 2147483648;

#[derive(Debug, Clone, Copy, PartialEq, Eq)]
pub struct Machine {
    pub registers: Registers,
    pub p: u16,
    pub switches: Switches,
    pub halted: bool,
}

// The clock record: the steps of all runs, and beside them those of each cooperative, in 32 bits each, which wrap (R8, R12).
#[derive(Debug, Clone, Copy, PartialEq, Eq, Default)]
pub struct Clock {
    pub common: u32,
    pub counts: [u32; 16],
}

// What a run is asked for.
#[derive(Debug, Clone, Copy, PartialEq, Eq)]
pub struct Request {
    pub budget: u32,
    // Which count its steps go to, 0 to 15.
    pub cooperative: u32,
}

#[derive(Debug, Clone, Copy, PartialEq, Eq)]
pub enum Outcome {
    Halted,
    Spent,
    Failed(Failure),
}

impl Outcome {
    // The failure's number, or 0.
    pub fn number(self) -> u16
        ensures { result ≡ failure_of self }
    {
        match self {
            Outcome::Halted | Outcome::Spent => 0,
            Outcome::Failed(failure) => failure.number(),
        }
    }
}

impl fmt::Display for Outcome {
    ghost output = { λ o. Some (outcome_text o) };

    fn fmt<W: fmt::Write>(&self, f: &mut fmt::Formatter<W>) -> fmt::Result {
        match *self {
            Outcome::Halted => write!(f, "halted"),
            Outcome::Spent => write!(f, "spent"),
            Outcome::Failed(failure) => {
                let number = failure.number();
                write!(f, "failed {number}")
            }
        }
    }
}

#[derive(Debug, Clone, Copy, PartialEq, Eq)]
pub struct Report {
    pub steps: u32,
    pub outcome: Outcome,
    pub machine: Machine,
    pub clock: Clock,
}

// The clock record that a service starts with.
pub fn start_clock() -> Clock
    ensures { result ≡ start_clock }
{
    Clock::default()
}

// The clock record after so many steps of a run.
#[tactic(auto, using(crate::proofs::Ticks::for_clock_after))]
fn clock_after(request: Request, steps: u32, clock: Clock) -> Clock
    requires { request.cooperative < cooperatives }
    ensures { result ≡ spend_many request steps clock }
{
    let i = request.cooperative as usize;
    let mut counts = clock.counts;
    counts[i] = counts[i].wrapping_add(steps);
    Clock {
        common: clock.common.wrapping_add(steps),
        counts,
    }
}

fn ended(request: Request, steps: u32, outcome: Outcome, m: Machine, clock: Clock) -> Report
    requires { request.cooperative < cooperatives }
    ensures { result ≡ ended_of request clock (work steps) outcome m }
{
    Report {
        steps,
        outcome,
        machine: m,
        clock: clock_after(request, steps, clock),
    }
}

fn refused(failure: Failure, m: Machine, clock: Clock) -> Report
    ensures { result ≡ refusal_of failure m clock }
{
    Report {
        steps: 0,
        outcome: Outcome::Failed(failure),
        machine: m,
        clock,
    }
}

// Up to the budget's steps, from a P within the image, for a cooperative that has a count.
#[tactic(auto, using(crate::proofs::Good::for_make_steps, crate::proofs::RunSteps::for_make_steps))]
fn make_steps(image: &mut Image, m: Machine, clock: Clock, request: Request) -> Report
    requires { (m.p < 16384) × (request.cooperative < cooperatives) }
    ensures { Reports request clock (run_from request.budget (state m image.old)) result image.new }
{
    let table = instruction::table();
    let budget = request.budget;
    let mut m = m;
    let mut steps: u32 = 0;
    // A `for` over the budget takes an eighth longer, or more.
    loop {
        if m.halted {
            return ended(request, steps, Outcome::Halted, m, clock);
        }
        if steps == budget {
            return ended(request, steps, Outcome::Spent, m, clock);
        }
        let stepped = step::step(&table, &mut *image, m);
        match stepped {
            Ok(next) => {
                m = next;
            }
            Err(failure) => {
                return ended(request, steps, Outcome::Failed(failure), m, clock);
            }
        }
        steps += 1;
    }
}

#[tactic(auto, unfolding(crate::specs::Run::run_def, crate::specs::Clock::spend_many))]
pub fn run(image: &mut [u16], machine: Machine, clock: Clock, request: Request) -> Report
    ensures { Reports request clock (run_def request (state machine image.old)) result image.new }
{
    if COOPERATIVES <= request.cooperative {
        return refused(Failure::WrongCooperative, machine, clock);
    }
    if image.len() != IMAGE_LENGTH {
        return refused(Failure::WrongImage, machine, clock);
    }
    if MEMORY <= machine.p {
        return refused(Failure::WrongP, machine, clock);
    }
    if LARGEST_BUDGET < request.budget {
        return refused(Failure::OverBudget, machine, clock);
    }
    make_steps(image.as_mut_array().unwrap(), machine, clock, request)
}

// Whether a deadline has come, up to 2^31 - 1 steps ago; the clock may have wrapped since it was set.
pub fn due(clock: Clock, deadline: u32) -> bool
    ensures { result ≡ due_of clock.common deadline }
{
    clock.common.wrapping_sub(deadline) < HALF_RANGE
}
