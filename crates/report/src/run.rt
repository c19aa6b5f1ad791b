// The end of a run: the outcome, the steps, the registers and the globals (O4 to O6).
ghost use Rattle.std.specs.Prelude.{◌≤◌, length, ◌≡◌};
ghost use Rattle.declarations.specs.Scopes.{table_words};
ghost use Rattle.text.specs.Adds.{Adds};
ghost use Rattle.report.specs.Shown.{outcome_text, stops_by, end_text, steps_text, bit_text, registers_text, ProgramRead, AddsRun};

use crate::globals::{put_globals, word_at};
use declarations::SectorEnds;
use declarations::program::program;
use effect::Registers;
use failure_report::put_words;
use machine::Outcome;
use parser::Part;
use text::Text;
use turns::Turned;

#[tactic(auto, unfolding(crate::specs::Shown::outcome_text))]
fn put_outcome(text: &mut Text<'_>, outcome: Outcome)
    ensures { Adds text.old text.new (outcome_text outcome) }
{
    match outcome {
        Outcome::Halted => text.put(b"halted after "),
        Outcome::Spent => text.put(b"spent: not halted after "),
        Outcome::Failed(failure) => {
            let number = failure.number();
            text.put(b"failed with ");
            text.decimal(number as usize);
            text.put(b", ");
            put_words(text, number);
            text.put(b", after ");
        }
    }
}

fn put_steps(text: &mut Text<'_>, steps: u64)
    ensures { Adds text.old text.new (steps_text steps) }
{
    text.decimal(steps as usize);
    if steps == 1 {
        text.put(b" step\n");
        return;
    }
    text.put(b" steps\n");
}

#[tactic(auto, unfolding(crate::specs::Shown::bit_text))]
fn put_bit(text: &mut Text<'_>, bit: bool)
    ensures { Adds text.old text.new (bit_text bit) }
{
    if bit {
        text.put(b"1");
    } else {
        text.put(b"0");
    }
}

fn put_registers(text: &mut Text<'_>, registers: Registers, x: u16)
    ensures { Adds text.old text.new (registers_text registers x) }
{
    text.put(b"registers: A = ");
    text.signed(registers.a);
    text.put(b", B = ");
    text.signed(registers.b);
    text.put(b", C = ");
    put_bit(text, registers.c);
    text.put(b", X = ");
    text.signed(x);
    text.put(b"\n");
}

// What is read of a program: how many names the table holds, whether its subscripts are tested, and the address behind its last HLT.
#[derive(Clone, Copy, Debug, PartialEq, Eq)]
pub struct ProgramFacts {
    pub names: usize,
    pub checked: bool,
    pub end: u16,
}

// The source read once more, on no image; of one that fails, nothing.
fn read_program(source: &[u8], table: &mut [u16]) -> ProgramFacts
    requires { table_words ≤ length table.old }
    ensures { ProgramRead source.now result table.new }
{
    let unplanned = SectorEnds {
        ends: [0u16; 32],
        count: 0,
    };
    let read = program(source, table, &mut [], unplanned);
    let Ok(Part { value, next: _ }) = read else {
        return ProgramFacts {
            names: 0,
            checked: false,
            end: 0,
        };
    };
    ProgramFacts {
        names: value.allocation.names,
        checked: value.checked,
        end: value.end.next,
    }
}

// Whether a run stopped at a subscript: it halted, and P is not behind the last HLT, where a program ends (O11).
#[tactic(auto, unfolding(crate::specs::Shown::stops_by))]
fn stops(read: ProgramFacts, outcome: Outcome, p: u16) -> bool
    ensures { result ≡ stops_by read.checked read.end outcome p }
{
    let Outcome::Halted = outcome else {
        return false;
    };
    read.checked && p != read.end
}

// How a run ended, with X where it stopped at a subscript.
#[tactic(auto, unfolding(crate::specs::Shown::end_text))]
fn put_ending(text: &mut Text<'_>, stopped: bool, outcome: Outcome, x: u16)
    ensures { Adds text.old text.new (end_text stopped outcome x) }
{
    if !stopped {
        put_outcome(text, outcome);
        return;
    }
    text.put(b"stopped: a subscript left its array, X = ");
    text.signed(x);
    text.put(b", after ");
}

// What is shown of a program that was run; the table is filled.
pub fn put_run(text: &mut Text<'_>, source: &[u8], ran: Turned, image: &[u16], table: &mut [u16])
    requires { table_words ≤ length table.old }
    ensures same_buffer { text.new.out.ghost_name ≡ text.old.out.ghost_name }
    ensures run { AddsRun source.now ran image.now text.old text.new }
{
    let machine = ran.machine;
    let registers = machine.registers;
    let outcome = ran.outcome;
    let x = word_at(image, 0);
    let read = read_program(source, table);
    put_ending(text, stops(read, outcome, machine.p), outcome, x);
    put_steps(text, ran.steps);
    put_registers(text, registers, x);
    put_globals(text, table, read.names, image);
}
