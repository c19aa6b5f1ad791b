// Where each generic instruction stands in the table: its word decides, so that the decoder looks at one slot.
// Slots stay numbers, since `effect::unary` and `effect::skips` answer for any slot.
ghost use Rattle.std.specs.Prelude.{◌≡◌, ◌<◌};
ghost use Rattle.instruction.specs.Slot.{slot_of};

// Under this factor no two of the instructions share a slot.
const FACTOR: usize = 21093;

const DIVISOR: usize = 1024;

pub const COUNT: usize = 64;

pub fn of(w: u16) -> usize
    ensures { (result ≡ slot_of w) × (result < 64) }
{
    w as usize * FACTOR / DIVISOR % COUNT
}

pub const HLT: usize = 0o000000 * FACTOR / DIVISOR % COUNT;

pub const SKP: usize = 0o100000 * FACTOR / DIVISOR % COUNT;

pub const NOP: usize = 0o101000 * FACTOR / DIVISOR % COUNT;

pub const SRC: usize = 0o100001 * FACTOR / DIVISOR % COUNT;

pub const SSC: usize = 0o101001 * FACTOR / DIVISOR % COUNT;

pub const SS1: usize = 0o101020 * FACTOR / DIVISOR % COUNT;

pub const SS2: usize = 0o101010 * FACTOR / DIVISOR % COUNT;

pub const SS3: usize = 0o101004 * FACTOR / DIVISOR % COUNT;

pub const SS4: usize = 0o101002 * FACTOR / DIVISOR % COUNT;

pub const SSS: usize = 0o101036 * FACTOR / DIVISOR % COUNT;

pub const SSR: usize = 0o100036 * FACTOR / DIVISOR % COUNT;

pub const SZE: usize = 0o100040 * FACTOR / DIVISOR % COUNT;

pub const SNZ: usize = 0o101040 * FACTOR / DIVISOR % COUNT;

pub const SPL: usize = 0o100400 * FACTOR / DIVISOR % COUNT;

pub const SMI: usize = 0o101400 * FACTOR / DIVISOR % COUNT;

pub const SLZ: usize = 0o100100 * FACTOR / DIVISOR % COUNT;

pub const SLN: usize = 0o101100 * FACTOR / DIVISOR % COUNT;

pub const CRA: usize = 0o140040 * FACTOR / DIVISOR % COUNT;

pub const CMA: usize = 0o140401 * FACTOR / DIVISOR % COUNT;

pub const TCA: usize = 0o140407 * FACTOR / DIVISOR % COUNT;

pub const CHS: usize = 0o140024 * FACTOR / DIVISOR % COUNT;

pub const SSP: usize = 0o140100 * FACTOR / DIVISOR % COUNT;

pub const SSM: usize = 0o140500 * FACTOR / DIVISOR % COUNT;

pub const CSA: usize = 0o140320 * FACTOR / DIVISOR % COUNT;

pub const CAR: usize = 0o141044 * FACTOR / DIVISOR % COUNT;

pub const CAL: usize = 0o141050 * FACTOR / DIVISOR % COUNT;

pub const ICL: usize = 0o141140 * FACTOR / DIVISOR % COUNT;

pub const AOA: usize = 0o141206 * FACTOR / DIVISOR % COUNT;

pub const ACA: usize = 0o141216 * FACTOR / DIVISOR % COUNT;

pub const ICR: usize = 0o141240 * FACTOR / DIVISOR % COUNT;

pub const ICA: usize = 0o141340 * FACTOR / DIVISOR % COUNT;

pub const IAB: usize = 0o000201 * FACTOR / DIVISOR % COUNT;
