// A program run in turns: runs of the largest budget, one after the other while they are spent.
#![tactic(auto)]

ghost use Rattle.std.specs.Prelude.{◌≡◌};
ghost use Rattle.machine.specs.State.{state};
ghost use Rattle.turns.specs.Turns.{start_machine, turns_def, Answers};
ghost use Rattle.turns.specs.TurnLaws.{TurnLaws};

use effect::{Registers, Switches};
use machine::{Machine, Outcome, Request};

// The steps of a turn: as many as a run may be asked for.
const TURN: u32 = 1000000;

// What the turns come to, their steps added up.
#[derive(Debug, Clone, Copy, PartialEq, Eq)]
pub struct Turned {
    pub steps: u64,
    pub outcome: Outcome,
    pub machine: Machine,
}

// Where every program starts: at its entry, with A, B and C zero.
pub fn start(entry: u16, switches: Switches) -> Machine
    ensures { result ≡ start_machine entry switches }
{
    Machine {
        registers: Registers::default(),
        p: entry,
        switches,
        halted: false,
    }
}

// The clock record is no part of the answer, so each turn begins with one of zeros. A turn makes less than 2^32 steps, so that those of all turns fit.
pub fn run_turns(image: &mut [u16], machine: Machine, turns: u32) -> Turned
    ensures { Answers (turns_def turns (state machine image.old)) result image.new }
{
    let mut m = machine;
    let mut steps: u64 = 0;
    for _ in 0..turns {
        let report = machine::run(
            &mut *image,
            m,
            machine::start_clock(),
            Request {
                budget: TURN,
                cooperative: 0,
            },
        );
        let outcome = report.outcome;
        m = report.machine;
        steps += u64::from(report.steps);
        let Outcome::Spent = outcome else {
            return Turned {
                steps,
                outcome,
                machine: m,
            };
        };
    }
    Turned {
        steps,
        outcome: Outcome::Spent,
        machine: m,
    }
}

// Turns come to what runs come to: this function carries the theorem as its contract.
#[tactic(auto, using(crate::proofs::TurnLaws::for_turns_are_runs))]
pub fn turns_are_runs()
    ensures { TurnLaws }
{}
