// The compiler. A source is read twice by the same function: first on no image at all, so that one that fails has touched nothing, then on the image, with
// the pools' addresses that the first reading found.
#![tactic(auto)]

ghost use Rattle.std.specs.Prelude.{◌≡◌, ◌≤◌, length, replicate};
ghost use Rattle.layout.specs.Addresses.{memory_words};
ghost use Rattle.compilation.specs.Compile.{compile_def};
ghost use Rattle.parser.specs.Failures.{number_of};
ghost use Rattle.declarations.specs.Scopes.{table_words};
ghost use Rattle.compiler.specs.Compile.{result_on, failure_with, Answers, CompileCalled};
ghost use Rattle.compiler.specs.Readings.{counted_of};

use declarations::program::{TABLE_WORDS, program};
use declarations::{Reading, SectorEnds, with_end};
use layout::addresses;
use layout::addresses::MEMORY_WORDS;
use parser::{Cause, Failure, Part};

pub mod demand;

/// How much scratch `compile` asks for (F2).
pub const SCRATCH_WORDS: usize = 6144;

const SOURCE_BYTES: usize = 8192;

// The first address of code.
const FIRST_CODE: u32 = addresses::FIRST_CODE as u32;

/// What a source compiles to: the entry, and how many words of code and of globals it has (A11).
#[derive(Clone, Copy, Debug, PartialEq, Eq)]
pub struct Program {
    pub entry: u16,
    pub words: u16,
    pub globals: u16,
}

/// Sets every word to 0.
pub fn clear(words: &mut [u16])
    ensures { words.new ≡ replicate (length words.old) 0 }
{
    words.fill(0);
}

// What is answered of a program that was read.
fn counted(read: Reading) -> Program
    ensures { result ≡ counted_of read }
{
    let end = read.end;
    let after = end.next as u32 + end.pool.held_count() as u32;
    Program {
        entry: read.allocation.output.next,
        words: after.saturating_sub(FIRST_CODE) as u16,
        globals: read.allocation.taken,
    }
}

// A failure by its number: so what is promised of it is an equation, and a caller who matches on the cause has it.
fn by_number(failure: Failure) -> Failure
    ensures { result ≡ failure_with (number_of failure.cause) failure.at }
{
    Failure {
        cause: Cause::from(failure.cause.number()),
        at: failure.at,
    }
}

// The two readings. They have the first TABLE_WORDS words of scratch, for the symbol table; the rest is only cleared.
fn read_twice(source: &[u8], image: &mut [u16], scratch: &mut [u16]) -> Result<Program, Failure>
    requires { (length source.now ≤ 8192) × (length image.old ≡ memory_words) × (table_words ≤ length scratch.old) }
    ensures { Answers (compile_def source.now) image.old result image.new }
{
    let unplanned = SectorEnds {
        ends: [0u16; 32],
        count: 0,
    };
    let read = program(
        source,
        &mut scratch[0..TABLE_WORDS],
        &mut image[0..0],
        unplanned,
    );
    let Ok(Part { value, next: _ }) = read else {
        return Err(by_number(read.unwrap_err()));
    };
    let plan = with_end(value.allocation.sectors, value.end.next);
    clear(&mut *image);
    // It reads what it read before, now with the pools' addresses.
    let _again = program(source, &mut scratch[0..TABLE_WORDS], &mut *image, plan);
    Ok(counted(value))
}

// The lengths are checked before anything is read.
fn check_and_compile(
    source: &[u8],
    image: &mut [u16],
    scratch: &mut [u16],
) -> Result<Program, Failure>
    ensures { Answers (result_on source.now image.old scratch.old) image.old result image.new }
{
    if image.len() != MEMORY_WORDS {
        return Err(Failure {
            cause: Cause::WrongImage,
            at: 0,
        });
    }
    if scratch.len() < SCRATCH_WORDS {
        return Err(Failure {
            cause: Cause::ShortScratch,
            at: 0,
        });
    }
    if SOURCE_BYTES < source.len() {
        return Err(Failure {
            cause: Cause::LongSource,
            at: 0,
        });
    }
    read_twice(source, &mut *image, &mut *scratch)
}

/// Compiles a source of up to 8,192 bytes into an image of 16,384 words, with SCRATCH_WORDS words of scratch or more (F1 to F3).
/// A failed source leaves the image as it was (J13). Whatever the answer, scratch ends as zeros.
pub fn compile(source: &[u8], image: &mut [u16], scratch: &mut [u16]) -> Result<Program, Failure>
    ensures { CompileCalled source.now image.old scratch.old result image.new scratch.new }
{
    let answer = check_and_compile(source, &mut *image, &mut *scratch);
    clear(&mut *scratch);
    answer
}
