// The laws of runs. The crate is about specs/ and proofs/: these functions carry their theorems as their contracts.
#![tactic(auto)]

ghost use Rattle.machine.specs.State.{state};
ghost use Rattle.runs.specs.Calls.{run_call, RunCalled};
ghost use Rattle.runs.specs.ClockLaws.{ClockLaws};
ghost use Rattle.runs.specs.RunLaws.{RunLaws};

use machine::{Clock, Machine, Report, Request, run};

#[tactic(auto, using(crate::proofs::RunLaws::for_run_laws))]
pub fn run_laws()
    ensures { RunLaws }
{}

// What calls on a clock record add to it, and that clock and counts stay in balance (demand 2f, 2g). The record is handed over, so that this is said
// of every one that a program can hold.
pub fn clock_laws(clock: Clock)
    ensures { ClockLaws clock }
{}

// Every call of `run` is one that the theorems on calls speak of.
fn run_called(image: &mut [u16], m: Machine, clock: Clock, request: Request) -> Report
    ensures { RunCalled (run_call request clock (state m image.old) result image.new) }
{
    run(&mut *image, m, clock, request)
}
