// What a person is shown of a source: its failure, or the end of its run with the registers and the globals.
#![tactic(auto)]

ghost use Rattle.report.specs.Shown.{Shows};

use effect::Switches;
use failure_report::put_failure;
use run::put_run;
use text::Text;
use turns::{run_turns, start};

mod globals;
mod run;

// Compiles the source, runs its image for so many turns of 1,000,000 steps and writes what is to be shown (O8). Answers how many bytes that is.
#[tactic(auto, using(crate::proofs::Results::for_show))]
pub fn show(
    source: &[u8],
    turns: u32,
    switches: Switches,
    image: &mut [u16],
    scratch: &mut [u16],
    out: &mut [u8],
) -> usize
    ensures { Shows source.now turns switches image.old scratch.old out.old
        result image.new scratch.new out.new }
{
    let mut text = Text::new(out);
    let answer = compiler::compile(source, &mut *image, &mut *scratch);
    match answer {
        Ok(program) => {
            let first = start(program.entry, switches);
            let ran = run_turns(&mut *image, first, turns);
            put_run(&mut text, source, ran, image, &mut *scratch);
            compiler::clear(&mut *scratch);
            text.len
        }
        Err(failure) => {
            put_failure(&mut text, source, failure.cause.number(), failure.at);
            text.len
        }
    }
}
