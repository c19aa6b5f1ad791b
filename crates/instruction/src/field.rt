// The fields of a memory-reference word (I1). The flags of an indirect word stand at the same places (I3).
ghost use Rattle.std.specs.Prelude.{◌≡◌};
ghost use Rattle.instruction.specs.Field.{indirect_of, tag_of, sector_of, opcode_of};

pub const INDIRECT: u16 = 0o100000;

pub const TAG: u16 = 0o40000;

// The lowest of the opcode's four bits.
pub const OPCODE: u16 = 0o2000;

pub const SECTOR: u16 = 0o1000;

pub fn is_indirect(w: u16) -> bool
    ensures { result ≡ indirect_of w }
{
    INDIRECT <= w
}

pub fn is_tagged(w: u16) -> bool
    ensures { result ≡ tag_of w }
{
    w / TAG % 2 == 1
}

// Whether the address is in the instruction's own sector, and not in sector 0.
pub fn is_in_own_sector(w: u16) -> bool
    ensures { result ≡ sector_of w }
{
    w / SECTOR % 2 == 1
}

pub fn opcode(w: u16) -> u16
    ensures { result ≡ opcode_of w }
{
    w / OPCODE % 16
}
