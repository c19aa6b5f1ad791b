// Runs the stored vectors of the machine: reads the cases, and writes what each run answers and which words it changes.
#![tactic(auto)]

ghost use Rattle.std.specs.Prelude.{◌<◌, ◌^◌};

use case_input::Numbers;

mod input;
mod lines;

fn case(rt: &impl Print, numbers: &mut Numbers, number: u32) {
    let mut image = [0u16; 16384];
    let start = input::read_start(numbers);
    numbers.set_words(&mut image);
    let before = image;
    let report = machine::run(&mut image, start.machine, start.clock, start.request);
    case_output::case(rt, number);
    lines::report(rt, report);
    case_output::changes(rt, &before, &image);
}

// Five programs have one like it: a function of them all would be handed a closure for the case, and each call would be no shorter.
fn cases(rt: &impl Print, text: &[u8]) {
    let mut numbers = Numbers { text, at: 0 };
    for number in 0..numbers.number() {
        case(rt, &mut numbers, number);
    }
}

// The cases of an input of at most N bytes. N is a parameter, since the check of a literal array of 524,288 bytes runs out of stack.
fn answer<const N: usize>(rt: &(impl Input + Print))
    requires { N < 2 ^ 63 }
{
    let mut text = [0u8; N];
    let n = output::read_full(&mut rt.reader(), &mut text);
    cases(rt, &text[..n]);
}

fn main(rt: HostRuntime) {
    answer::<524288>(&rt);
}
