// The page of three farms, then the limits of pages (B1 to B5, F24 to F26, J14), by name: each case prints what came out.
#![tactic(auto)]

ghost use Rattle.std.specs.Prelude.{◌≤◌};

use page_output::MARK;

mod print;

// The longest output: for any page, with bytes to spare.
const LONGEST: usize = 32768;

// The same for a few farms.
const ROOM: usize = 128;

fn three_farms(rt: &impl Print) {
    let litres = [2140u16, 1875, 960];
    let mut out = [MARK; 93];
    let _ = page::page(b"Upper Field\nMill Lane\nLong Acre\n", &litres, &mut out);
    output::print(rt, &out);
}

fn attempt(rt: &impl Print, case: &[u8], names: &[u8], litres: &[u16], out: &mut [u8]) {
    let answer = page::page(names, litres, &mut *out);
    output::print(rt, case);
    match answer {
        Ok(length) => print::made(rt, out, length),
        Err(failure) => print::failed(rt, out, failure),
    }
}

// A page on an output of so many bytes.
fn lend(rt: &impl Print, case: &[u8], names: &[u8], litres: &[u16], room: usize)
    requires { room ≤ 32768 }
{
    let mut out = [MARK; LONGEST];
    attempt(rt, case, names, litres, &mut out[0..room]);
}

fn none(rt: &impl Print, case: &[u8], names: &[u8], room: usize)
    requires { room ≤ 32768 }
{
    let litres = [0u16; 0];
    lend(rt, case, names, &litres, room);
}

fn one(rt: &impl Print, case: &[u8], names: &[u8], litres: u16, room: usize)
    requires { room ≤ 32768 }
{
    let all = [litres];
    lend(rt, case, names, &all, room);
}

fn two(rt: &impl Print, case: &[u8], names: &[u8], first: u16, second: u16) {
    let all = [first, second];
    lend(rt, case, names, &all, ROOM);
}

// The same three farms.
fn three(rt: &impl Print, case: &[u8], room: usize)
    requires { room ≤ 32768 }
{
    let litres = [2140u16, 1875, 960];
    lend(
        rt,
        case,
        b"Upper Field\nMill Lane\nLong Acre\n",
        &litres,
        room,
    );
}

// Ends each name, of one byte.
fn end_names(names: &mut [u8]) {
    for i in 0..names.len() / 2 {
        names[2 * i + 1] = b'\n';
    }
}

// Farms with names of one byte, which are not ended yet.
fn many(rt: &impl Print, case: &[u8], names: &mut [u8], litres: &[u16]) {
    end_names(&mut *names);
    lend(rt, case, names, litres, LONGEST);
}

fn most(rt: &impl Print) {
    let mut names = [b'A'; 2000];
    let litres = [32767u16; 1000];
    many(rt, b"1000 farms", &mut names, &litres);
}

// One farm too many, which may have another name and other litres.
fn one_more(rt: &impl Print, case: &[u8], last_name: u8, last_litres: u16) {
    let mut names = [b'A'; 2002];
    let mut litres = [32767u16; 1001];
    names[2000] = last_name;
    litres[1000] = last_litres;
    many(rt, case, &mut names, &litres);
}

fn counts_of_farms(rt: &impl Print) {
    none(rt, b"no farm", b"", ROOM);
    most(rt);
    one_more(rt, b"1001 farms", b'A', 32767);
    one_more(rt, b"1001 farms, the last name bad", 31, 32767);
    one_more(rt, b"1001 farms, the last litres bad", b'A', 32768);
}

fn lengths_of_names(rt: &impl Print) {
    one(rt, b"name of 14 bytes", b"ABCDEFGHIJKLMN\n", 960, ROOM);
    one(rt, b"name of 15 bytes", b"ABCDEFGHIJKLMNO\n", 960, ROOM);
    one(rt, b"empty name", b"\n", 960, ROOM);
    one(rt, b"unended name", b"Long Acre", 960, ROOM);
    two(
        rt,
        b"unended name behind another",
        b"Mill Lane\nLong Acre",
        1875,
        960,
    );
}

fn bytes_of_names(rt: &impl Print) {
    one(rt, b"name of spaces only", b"   \n", 960, ROOM);
    one(rt, b"name with byte 31", b"Long\x1fAcre\n", 960, ROOM);
    one(rt, b"name with byte 126", b"Long~Acre\n", 960, ROOM);
    one(rt, b"name with byte 127", b"Long\x7fAcre\n", 960, ROOM);
    one(rt, b"name with byte 255", b"Long\xffAcre\n", 960, ROOM);
    one(rt, b"name with a tab", b"Long\tAcre\n", 960, ROOM);
    one(
        rt,
        b"name with a carriage return",
        b"Long Acre\r\n",
        960,
        ROOM,
    );
}

fn litres(rt: &impl Print) {
    one(rt, b"litres 0", b"Long Acre\n", 0, ROOM);
    one(rt, b"litres 32767", b"Long Acre\n", 32767, ROOM);
    one(rt, b"litres 32768", b"Long Acre\n", 32768, ROOM);
    one(rt, b"litres 65535", b"Long Acre\n", 65535, ROOM);
}

fn outputs(rt: &impl Print) {
    three(rt, b"output just long enough", 93);
    three(rt, b"output one byte longer", 94);
    three(rt, b"output one byte short", 92);
    three(rt, b"empty output", 0);
    none(rt, b"empty output, no farm", b"", 0);
}

// What has no partner is not judged.
fn lists(rt: &impl Print) {
    one(
        rt,
        b"a name too many",
        b"Mill Lane\nLong Acre\n",
        1875,
        ROOM,
    );
    one(rt, b"a name too many, empty", b"Mill Lane\n\n", 1875, ROOM);
    one(
        rt,
        b"a name too many, unended",
        b"Mill Lane\nLong Acre",
        1875,
        ROOM,
    );
    none(rt, b"names without litres", b"Mill Lane\nLong Acre\n", ROOM);
    none(
        rt,
        b"names without litres, the last unended",
        b"Mill Lane\nLong Acre",
        ROOM,
    );
    two(rt, b"litres too many", b"Mill Lane\n", 1875, 960);
    two(rt, b"litres too many, 32768", b"Mill Lane\n", 1875, 32768);
    one(rt, b"litres without a name", b"", 960, ROOM);
    one(rt, b"litres without a name, 32768", b"", 32768, ROOM);
}

fn order_of_farms(rt: &impl Print) {
    one(rt, b"bad name and bad litres", b"\n", 32768, ROOM);
    two(
        rt,
        b"bad name, then bad litres",
        b"\nLong Acre\n",
        1875,
        32768,
    );
    two(
        rt,
        b"bad litres, then bad name",
        b"Mill Lane\n\n",
        32768,
        960,
    );
}

fn order_of_lists(rt: &impl Print) {
    one(
        rt,
        b"bad name, and a name too many",
        b"\nLong Acre\n",
        1875,
        ROOM,
    );
    one(
        rt,
        b"bad litres, and a name too many",
        b"Mill Lane\nLong Acre\n",
        32768,
        ROOM,
    );
    two(rt, b"bad name, and litres too many", b"\n", 1875, 960);
    two(
        rt,
        b"bad litres, and litres too many",
        b"Mill Lane\n",
        32768,
        960,
    );
    one(rt, b"bad name, and empty output", b"\n", 1875, 0);
    one(
        rt,
        b"bad litres, and empty output",
        b"Mill Lane\n",
        32768,
        0,
    );
}

fn main(rt: HostRuntime) {
    three_farms(&rt);
    counts_of_farms(&rt);
    lengths_of_names(&rt);
    bytes_of_names(&rt);
    litres(&rt);
    outputs(&rt);
    lists(&rt);
    order_of_farms(&rt);
    order_of_lists(&rt);
}
