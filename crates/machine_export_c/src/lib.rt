// The functions of machine_export under the names that C links with (R11).
#![tactic(auto)]

ghost use Rattle.std.specs.Prelude.{◌≡◌};
ghost use Rattle.machine.specs.Clock.{due_of};
ghost use Rattle.machine_export.specs.Export.{numbers, Called};

// A run, and true; or false for numbers that are no call's, and nothing changes.
#[unsafe(no_mangle)]
pub extern "C" fn machine_run(
    image: &mut [u16],
    machine: &mut [u32],
    clock: &mut [u32],
    request: &[u32],
    report: &mut [u32],
) -> bool
    ensures { Called
        (numbers machine.old clock.old request.now report.old) image.old result
        (numbers machine.new clock.new request.now report.new) image.new }
{
    machine_export::machine_run(image, machine, clock, request, report)
}

// Whether the deadline has come at this clock, the first number of the record.
#[unsafe(no_mangle)]
pub extern "C" fn machine_due(clock: u32, deadline: u32) -> bool
    ensures { result ≡ due_of clock deadline }
{
    machine_export::machine_due(clock, deadline)
}
