// The opcodes of the memory-reference instructions (I2, I16, I17). Numbers, since `encode_memory` and `effect::operate` answer for any opcode.
pub const JMP: u16 = 0o1;

pub const LDA: u16 = 0o2;

pub const ANA: u16 = 0o3;

pub const STA: u16 = 0o4;

pub const ERA: u16 = 0o5;

pub const ADD: u16 = 0o6;

pub const SUB: u16 = 0o7;

pub const JST: u16 = 0o10;

pub const CAS: u16 = 0o11;

pub const IRS: u16 = 0o12;

pub const LDX: u16 = 0o15;

pub const MPY: u16 = 0o16;

pub const DIV: u16 = 0o17;
