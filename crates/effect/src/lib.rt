// What the instructions do to the registers A, B and C. Each function equals a definition of specs/, which the semantics of the language
// uses too.
#![tactic(auto)]

ghost use Rattle.std.specs.Prelude.{◌≡◌};
ghost use Rattle.effect.specs.Registers.{with_a, with_flagged, swapped};
ghost use Rattle.effect.specs.Effects.{operate_of, unary_of, shifted_of};
ghost use Rattle.effect.specs.Skips.{any_switch, skips_of};

use instruction::{opcode, slot};
use word::shift::{LLS, LRS};
use word::{Flagged, SIGN};

mod double;

#[derive(Debug, Clone, Copy, PartialEq, Eq, Default)]
pub struct Registers {
    pub a: u16,
    pub b: u16,
    pub c: bool,
}

// The sense switches.
#[derive(Debug, Clone, Copy, PartialEq, Eq, Default)]
pub struct Switches {
    pub one: bool,
    pub two: bool,
    pub three: bool,
    pub four: bool,
}

impl Registers {
    fn with_a(self, a: u16) -> Registers
        ensures { result ≡ with_a self a }
    {
        Registers { a, ..self }
    }

    fn with_flagged(self, f: Flagged) -> Registers
        ensures { result ≡ with_flagged self f }
    {
        Registers {
            a: f.word,
            c: f.flag,
            ..self
        }
    }

    // A and B exchanged.
    fn swapped(self) -> Registers
        ensures { result ≡ swapped self }
    {
        Registers {
            a: self.b,
            b: self.a,
            ..self
        }
    }
}

impl Switches {
    fn any(self) -> bool
        ensures { result ≡ any_switch self }
    {
        self.one || self.two || self.three || self.four
    }
}

// LDA, ANA, ERA, ADD, SUB, MPY and DIV with the operand v; any other opcode changes nothing.
#[tactic(auto, unfolding(crate::specs::Effects::operate_of))]
pub fn operate(opcode: u16, v: u16, r: Registers) -> Registers
    ensures { result ≡ operate_of opcode v r }
{
    let a = r.a;
    match opcode {
        opcode::LDA => r.with_a(v),
        opcode::ANA => r.with_a(a & v),
        opcode::ERA => r.with_a(a ^ v),
        opcode::ADD => r.with_flagged(word::sum(a, v)),
        opcode::SUB => r.with_flagged(word::difference(a, v)),
        opcode::MPY => double::multiply(v, r),
        opcode::DIV => double::divide(v, r),
        _ => r,
    }
}

// The generic instructions that work on A, B and C; any other slot changes nothing.
#[tactic(auto, unfolding(crate::specs::Effects::unary_of))]
pub fn unary(slot: usize, r: Registers) -> Registers
    ensures { result ≡ unary_of slot r }
{
    let a = r.a;
    match slot {
        slot::CRA => r.with_a(0),
        slot::CMA => r.with_a(65535 - a),
        slot::TCA => r.with_a(a.wrapping_neg()),
        slot::CHS => r.with_a(a.wrapping_add(SIGN)),
        slot::SSP => r.with_a(a % SIGN),
        slot::SSM => r.with_a(a % SIGN + SIGN),
        slot::CSA => r.with_flagged(Flagged {
            word: a % SIGN,
            flag: SIGN <= a,
        }),
        slot::CAR => r.with_a(word::bytes::car(a)),
        slot::CAL => r.with_a(word::bytes::cal(a)),
        slot::ICL => r.with_a(word::bytes::icl(a)),
        slot::AOA => r.with_flagged(word::sum(a, 1)),
        slot::ACA => r.with_flagged(word::sum(a, word::bit(r.c))),
        slot::ICR => r.with_a(word::bytes::icr(a)),
        slot::ICA => r.with_a(word::bytes::ica(a)),
        slot::IAB => r.swapped(),
        _ => r,
    }
}

// A shift of A, with C, or of A and B.
pub fn shifted(kind: u16, amount: u16, r: Registers) -> Registers
    ensures { result ≡ shifted_of kind amount r }
{
    if kind == LLS && amount == 15 {
        return double::long_left(r);
    }
    if kind == LRS && amount == 15 {
        return double::long_right(r);
    }
    r.with_flagged(word::shift::shift(kind, amount, r.a, r.c))
}

// Whether an instruction that may skip does; any other slot does not.
#[tactic(auto, unfolding(crate::specs::Skips::skips_of))]
pub fn skips(slot: usize, r: Registers, s: Switches) -> bool
    ensures { result ≡ skips_of slot r s }
{
    let a = r.a;
    let c = r.c;
    match slot {
        slot::SKP => true,
        slot::SRC => !c,
        slot::SSC => c,
        slot::SS1 => s.one,
        slot::SS2 => s.two,
        slot::SS3 => s.three,
        slot::SS4 => s.four,
        slot::SSS => s.any(),
        slot::SSR => !s.any(),
        slot::SZE => a == 0,
        slot::SNZ => 0 < a,
        slot::SPL => a < SIGN,
        slot::SMI => SIGN <= a,
        slot::SLZ => a % 2 == 0,
        slot::SLN => a % 2 == 1,
        _ => false,
    }
}
