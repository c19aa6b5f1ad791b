// Writing a case as the vectors have it.
use machine::{Clock, Machine, Report};

// The outcome, the steps, and the state and the clock record that the run left.
pub fn report(rt: &impl Print, report: Report) {
    let Machine {
        registers,
        p,
        switches: _,
        halted,
    } = report.machine;
    let Clock { common, counts } = report.clock;
    let halted = u8::from(halted);
    let _ = print!(rt; "out ");
    case_output::ending(rt, report.outcome, report.steps, registers);
    let _ = print!(rt; "{p} {halted} {common}\ncounts");
    case_output::counts(rt, counts);
    let _ = println!(rt; "");
}
