// Makes the stored pages, and prints each answer, the page, and whether the bytes that may not be written are as they were.
#![tactic(auto)]

use case_input::{parse_number, part_end, word};
use page_output::{MARK, print_kept};

// The most farms of a case, and the longest output.
const FARMS: usize = 1024;

const ROOM: usize = 32768;

// The page, of so many bytes, and whether those behind it are kept.
fn print_output(rt: &impl Print, out: &[u8], length: usize) {
    output::print_start(rt, out, length);
    print_kept(rt, out, length);
}

fn print_page(rt: &impl Print, names: &[u8], litres: &[u16], out: &mut [u8]) {
    let answer = page::page(names, litres, &mut *out);
    match answer {
        Ok(length) => {
            let _ = println!(rt; "made {length}");
            print_output(rt, out, length);
        }
        Err(failure) => {
            let number = failure.number();
            let _ = println!(rt; "failed {number}");
            print_output(rt, out, 0);
        }
    }
}

// The page on an output of so many bytes.
fn lend(rt: &impl Print, names: &[u8], litres: &[u16], size: u32) {
    let mut out = [MARK; ROOM];
    let room = size as usize;
    if room <= ROOM {
        print_page(rt, names, litres, &mut out[0..room]);
    }
}

// Answers where the next number starts.
fn parse_litres(text: &[u8], at: usize, litres: &mut [u16]) -> usize {
    let mut next = at;
    for litre in litres.iter_mut() {
        let number = parse_number(text, next);
        *litre = word(number);
        next = number.next;
    }
    next
}

// The litres at `at`, the length of the names and their bytes. Answers where the next case starts.
fn farms(rt: &impl Print, text: &[u8], at: usize, litres: &mut [u16], room: u32) -> usize {
    let size = parse_number(text, parse_litres(text, at, &mut *litres));
    let from = size.next;
    let end = part_end(text, from, size.value);
    if from <= end {
        lend(rt, &text[from..end], litres, room);
    }
    part_end(text, end, 1)
}

// The case at `at`: the length of its output, the count of its litres and its farms. Answers where the next one starts.
fn case(rt: &impl Print, text: &[u8], at: usize, number: u32) -> usize {
    let room = parse_number(text, at);
    let count = parse_number(text, room.next);
    let size = count.value as usize;
    let mut litres = [0u16; FARMS];
    let _ = println!(rt; "case {number}");
    if size <= FARMS {
        return farms(rt, text, count.next, &mut litres[0..size], room.value);
    }
    count.next
}

// Five programs have one like it: a function of them all would be handed a closure for the case, and each call would be no shorter.
fn cases(rt: &impl Print, text: &[u8]) {
    let count = parse_number(text, 0);
    let last = count.value;
    let mut at = count.next;
    for i in 0..last {
        at = case(rt, text, at, i);
    }
}

fn main(rt: HostRuntime) {
    let mut text = [0u8; 262144];
    let n = output::read_full(&mut rt.reader(), &mut text);
    cases(&rt, &text[..n]);
}
