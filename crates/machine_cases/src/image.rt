// The image that all cases run on.
ghost use Rattle.std.specs.Prelude.{◌≤◌, length};

// An endless loop.
pub const LOOP: u16 = 0o1000;

// A NOP, then a word that is no instruction.
pub const UNKNOWN: u16 = 0o1100;

// A NOP, then a store through 17 indirect words.
pub const LONG: u16 = 0o1200;

// A load through 16 indirect words, then HLT.
pub const CHAIN: u16 = 0o1300;

// Three NOPs, then HLT.
pub const NOPS: u16 = 0o1400;

// 17 words that lead on to the next; the last one is not indirect.
fn lay_chain(image: &mut [u16])
    requires { 16384 ≤ length image.old }
{
    for i in 0o200..0o220u16 {
        image[i as usize] = 0o100000 + i + 1;
    }
    image[0o220] = 0o300;
}

pub fn lay(image: &mut [u16])
    requires { 16384 ≤ length image.old }
{
    lay_chain(&mut *image);
    image[0] = 0o4321; // X
    image[0o300] = 0o52525; // where the chain ends
    image[0o1000] = 0o3000; // JMP '1000
    image[0o1100] = 0o101000; // NOP
    image[0o1101] = 0o26000; // an opcode that no instruction has
    image[0o1200] = 0o101000; // NOP
    image[0o1201] = 0o110200; // STA* '200
    image[0o1300] = 0o104201; // LDA* '201
    image[0o1400] = 0o101000; // NOP
    image[0o1401] = 0o101000; // NOP
    image[0o1402] = 0o101000; // NOP
}
