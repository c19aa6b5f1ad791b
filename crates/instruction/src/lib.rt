// The instructions of the DDP-516: the table of the generic ones, the decoder and the encoder.
#![tactic(auto)]

ghost use Rattle.std.specs.Prelude.{◌≡◌, ◌<◌};
ghost use Rattle.instruction.specs.Field.{opcode_of};
ghost use Rattle.instruction.specs.Table.{short_kinds, table_of};
ghost use Rattle.instruction.specs.Decode.{is_in, is_shift, generic_in, shift_of, memory_of, decode_in};
ghost use Rattle.instruction.specs.Agreement.{Agreement};
ghost use Rattle.instruction.specs.Encode.{memory_word, shift_word};

use field::{INDIRECT, OPCODE, SECTOR, TAG};
use word::shift::{ALR, ARR, LGL, LGR, LLS, LRS};

pub mod field;
pub mod opcode;
pub mod slot;

// The generic instructions (I10, I19), each at its slot. A slot that none has holds 0, the word of HLT, which is looked for at its own slot.
// The decoder reads one word of it: an array of words, and no list of enums.
const TABLE: [u16; slot::COUNT] = [
    0o000000, // HLT
    0, 0o141240, // ICR
    0o140040, // CRA
    0, 0, 0o100100, // SLZ
    0, 0o141044, // CAR
    0o100036, // SSR
    0, 0o140024, // CHS
    0, 0, 0, 0o141216, // ACA
    0, 0, 0o101000, // NOP
    0, 0, 0, 0o140100, // SSP
    0, 0, 0o140407, // TCA
    0o141050, // CAL
    0o141140, // ICL
    0o101020, // SS1
    0o140401, // CMA
    0, 0, 0o100000, // SKP
    0o000201, // IAB
    0, 0, 0o101004, // SS3
    0o101040, // SNZ
    0, 0o101001, // SSC
    0o141340, // ICA
    0, 0o141206, // AOA
    0o101400, // SMI
    0o140320, // CSA
    0, 0, 0o140500, // SSM
    0, 0, 0, 0o100040, // SZE
    0o100001, // SRC
    0, 0, 0o101010, // SS2
    0o101100, // SLN
    0o100400, // SPL
    0, 0o101002, // SS4
    0o101036, // SSS
    0, 0, 0,
];

#[derive(Debug, Clone, Copy, PartialEq, Eq)]
pub enum Instruction {
    // The address is the nine bits. The tag says that X is added, so it is clear for LDX.
    Memory {
        opcode: u16,
        indirect: bool,
        tag: bool,
        sector: bool,
        address: u16,
    },
    Shift {
        kind: u16,
        amount: u16,
    },
    // By its slot in the table.
    Generic(usize),
    Unknown,
}

// The table, for a caller to keep over many calls.
#[tactic(auto, unfolding(crate::specs::Table::table_of))]
pub fn table() -> [u16; slot::COUNT]
    ensures { result ≡ table_of }
{
    TABLE
}

#[tactic(auto, unfolding(crate::specs::Decode::generic_in))]
fn generic(table: &[u16; slot::COUNT], w: u16) -> Instruction
    ensures { result ≡ generic_in table.now w }
{
    let slot = slot::of(w);
    if table[slot] == w {
        Instruction::Generic(slot)
    } else {
        Instruction::Unknown
    }
}

fn is_short(kind: u16) -> bool
    ensures { result ≡ is_in kind short_kinds }
{
    (LGR..=ARR).contains(&kind) || (LGL..=ALR).contains(&kind)
}

// Whether there is a shift of a kind with such a field, which holds 64 less the amount: of A by up to 15, of A and B by 15.
fn is_shift(kind: u16, field: u16) -> bool
    ensures { result ≡ is_shift kind field }
{
    (49 <= field && is_short(kind)) || (field == 49 && matches!(kind, LRS | LLS))
}

#[tactic(auto, unfolding(crate::specs::Decode::shift_of))]
fn shift(w: u16) -> Instruction
    ensures { result ≡ shift_of w }
{
    let kind = w / 64;
    let field = w % 64;
    if is_shift(kind, field) {
        Instruction::Shift {
            kind,
            amount: 64 - field,
        }
    } else {
        Instruction::Unknown
    }
}

// The opcode is not 0. Between IRS and MPY there is LDX alone, whose tag is its own and does not add X. It is asked for first: with one test of
// that range every other opcode would take longer.
#[tactic(auto, unfolding(crate::specs::Decode::memory_of))]
fn memory(w: u16) -> Instruction
    requires { 0 < opcode_of w }
    ensures { result ≡ memory_of w }
{
    let opcode = field::opcode(w);
    let mut tag = field::is_tagged(w);
    if opcode::IRS < opcode {
        if opcode == opcode::LDX {
            if !tag {
                return Instruction::Unknown;
            }
            tag = false;
        } else if opcode < opcode::MPY {
            return Instruction::Unknown;
        }
    }
    Instruction::Memory {
        opcode,
        indirect: field::is_indirect(w),
        tag,
        sector: field::is_in_own_sector(w),
        address: w % 512,
    }
}

// The instruction that a word is, by a table as `table` gives it.
#[tactic(auto, unfolding(crate::specs::Decode::decode_in))]
pub fn decode(table: &[u16; slot::COUNT], w: u16) -> Instruction
    ensures { result ≡ decode_in table.now w }
{
    if field::opcode(w) != 0 {
        return memory(w);
    }
    if w / TAG == 1 {
        return shift(w);
    }
    generic(table, w)
}

// The word of a memory-reference instruction (I1). For LDX it is asked for with its tag set.
#[tactic(auto, unfolding(crate::specs::Encode::memory_word))]
pub fn encode_memory(opcode: u16, indirect: bool, tag: bool, sector: bool, address: u16) -> u16
    ensures { result ≡ memory_word opcode indirect tag sector address }
{
    word::bit(indirect) * INDIRECT
        + word::bit(tag) * TAG
        + opcode % 16 * OPCODE
        + word::bit(sector) * SECTOR
        + address % 512
}

// The word of a shift (I11, I18).
#[tactic(auto, unfolding(crate::specs::Encode::shift_word))]
pub fn encode_shift(kind: u16, amount: u16) -> u16
    ensures { result ≡ shift_word kind amount }
{
    ((kind as u32 * 64 + 64 - amount as u32 % 64) % 65536) as u16
}

// The decoder and the instruction set agree: this function carries the theorem as its contract.
#[tactic(auto, using(crate::proofs::Encoding::for_table_laws))]
pub fn table_laws()
    ensures { Agreement }
{}
