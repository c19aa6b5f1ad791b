// run [FILE or -] [TURNS] [SWITCHES]: compiles a source from a file or from standard input, runs it and prints what came of it (O10).
#![tactic(auto)]

use compiler::SCRATCH_WORDS;
use effect::Switches;
use output::{print, print_start};
use std::env::{Env, FillError};
use std::fs::{File, Files};
use std::io::Read;
use text::Text;

mod input;

// The most bytes of an argument that is read.
const LONGEST_ARGUMENT: usize = 4096;

// What is asked for behind the file's name.
#[derive(Drop)]
struct Asked {
    turns: u32,
    switches: Switches,
}

fn usage(rt: &impl Print) {
    print(rt, b"Usage: run [FILE or -] [TURNS] [SWITCHES]\n");
}

// The second argument, or one turn where there is none. An argument that does not fit the buffer makes no sense.
// No one function with a closure for it and the third: what two arms of each would share is two lines.
fn turns_argument(rt: &impl Env) -> Option<u32> {
    let mut text = [0u8; LONGEST_ARGUMENT];
    match rt.arg(2, &mut text) {
        Ok(n) => arguments::turns(&text[..n]),
        Err(FillError::NotPresent) => Some(1),
        Err(FillError::TooLong) => None,
    }
}

// The third, or all switches down.
fn switches_argument(rt: &impl Env) -> Option<Switches> {
    let mut text = [0u8; LONGEST_ARGUMENT];
    match rt.arg(3, &mut text) {
        Ok(n) => arguments::switches(&text[..n]),
        Err(FillError::NotPresent) => arguments::switches(b"0000"),
        Err(FillError::TooLong) => None,
    }
}

fn has_more_arguments(rt: &impl Env) -> bool {
    let mut text = [0u8; LONGEST_ARGUMENT];
    !matches!(rt.arg(4, &mut text), Err(FillError::NotPresent))
}

fn show(rt: &impl Print, source: &[u8], asked: Asked) {
    let mut image = [0u16; 16384];
    let mut scratch = [0u16; SCRATCH_WORDS];
    let mut out = [0u8; 262144];
    let size = report::show(
        source,
        asked.turns,
        asked.switches,
        &mut image,
        &mut scratch,
        &mut out,
    );
    print_start(rt, &out, size);
}

fn run_input(rt: &impl Print, from: &mut impl Read, asked: Asked) {
    // One byte more than the longest source: a longer one fails by that byte (F3).
    let mut text = [0u8; 8193];
    match input::read_source(from, &mut text) {
        Ok(count) => show(rt, &text[..count], asked),
        Err(_) => print(rt, b"The input cannot be read.\n"),
    }
}

fn cannot_open(rt: &impl Print, path: &[u8]) {
    let mut out = [0u8; 8192];
    let mut text = Text::new(&mut out);
    text.put(b"The file \"");
    failure_report::put_visible(&mut text, path);
    text.put(b"\" cannot be opened.\n");
    let size = text.len;
    print_start(rt, &out, size);
}

// A file is opened by a text: one whose name is not UTF-8 cannot be opened.
fn run_file(rt: &(impl Files + Print), path: &[u8], asked: Asked) {
    let Ok(name) = str::from_utf8(path) else {
        cannot_open(rt, path);
        return;
    };
    let Ok(mut file) = File::open(rt, name) else {
        cannot_open(rt, path);
        return;
    };
    run_input(rt, &mut file, asked);
}

// A name of `-`, or no name, is standard input. A longer name that begins so is taken for an option, which there is none of.
fn run_argument(rt: &(impl Env + Files + std::io::Input + Print), asked: Asked) {
    let mut path = [0u8; LONGEST_ARGUMENT];
    match rt.arg(1, &mut path) {
        Ok(n) => match &path[..n] {
            b"-" => run_input(rt, &mut rt.reader(), asked),
            [b'-', ..] => usage(rt),
            name => run_file(rt, name, asked),
        },
        Err(FillError::NotPresent) => run_input(rt, &mut rt.reader(), asked),
        Err(FillError::TooLong) => {
            print(rt, b"The file cannot be opened: its name is too long.\n");
        }
    }
}

fn main(rt: HostRuntime) {
    let turns = turns_argument(&rt);
    let switches = switches_argument(&rt);
    if has_more_arguments(&rt) {
        usage(&rt);
        return;
    }
    let Some(turns) = turns else {
        print(&rt, b"TURNS must be a number from 1 to 1000000.\n");
        return;
    };
    let Some(switches) = switches else {
        print(&rt, b"SWITCHES must be four digits, each 0 or 1.\n");
        return;
    };
    run_argument(&rt, Asked { turns, switches });
}
