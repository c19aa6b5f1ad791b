// Printing how a run of a stored case ends: words in octal, all else in decimal. A write that fails is not reported.
#![tactic(auto)]

ghost use Rattle.std.specs.Prelude.{◌≡◌};
ghost use Rattle.case_output.specs.Ended.{ended_of};

use effect::Registers;
use machine::Outcome;

// How a run ends, as it is printed: a failure is a number, and need not be one of the machine's.
#[derive(Debug, Clone, Copy, PartialEq, Eq)]
pub enum Ended {
    Halted,
    Spent,
    Failed(u16),
}

impl From<Outcome> for Ended {
    fn from(outcome: Outcome) -> Ended
        ensures { result ≡ ended_of outcome }
    {
        match outcome {
            Outcome::Halted => Ended::Halted,
            Outcome::Spent => Ended::Spent,
            Outcome::Failed(failure) => Ended::Failed(failure.number()),
        }
    }
}

// The first line of a case.
pub fn case(rt: &impl Print, number: u32) {
    let _ = println!(rt; "case {number}");
}

// A blank and a number for each count of a clock record.
pub fn counts(rt: &impl Print, counts: [u32; 16]) {
    for count in counts {
        let _ = print!(rt; " {count}");
    }
}

// How it ended, the steps and the registers, on a line that has begun. An end that is no failure has the number 0.
pub fn ending(rt: &impl Print, ended: impl Into<Ended>, steps: u32, registers: Registers) {
    let Registers { a, b, c } = registers;
    let _ = match ended.into() {
        Ended::Halted => print!(rt; "halted 0"),
        Ended::Spent => print!(rt; "spent 0"),
        Ended::Failed(number) => print!(rt; "failed {number}"),
    };
    let flag = u8::from(c);
    let _ = print!(rt; " {steps} {a:o} {b:o} {flag} ");
}

// A line for each word that changed.
pub fn changes(rt: &impl Print, before: &[u16; 16384], after: &[u16; 16384]) {
    for (address, (old, new)) in before.iter().zip(after).enumerate() {
        if old != new {
            let _ = println!(rt; "word {address:o} {new:o}");
        }
    }
}
