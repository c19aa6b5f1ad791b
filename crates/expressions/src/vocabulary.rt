// The words that stand for an instruction: unary words, shift words, tests, operators and relations (W5 to W9).
ghost use Rattle.source.specs.Kinds.{kind_number};
ghost use Rattle.std.specs.Prelude.{◌≡◌};
ghost use Rattle.grammar.specs.Vocabulary.{unaries, operators, shifts, relations, tests, bares};
ghost use Rattle.layout.specs.Words.{operator_opcode, shift_kind, test_slot, bare_slot};
ghost use Rattle.expressions.specs.Vocabulary.{last_slot, looked_up, stands_in};

use instruction::{opcode, slot};
use source::kind::Kind;
use word::shift;

// The slot of a unary word's last instruction.
#[tactic(auto, using(crate::proofs::VocabularyLaws::for_unary), unfolding(crate::specs::Vocabulary::looked_up, prelude::specs::Choice::find, crate::specs::Vocabulary::last_slot))]
pub fn unary(kind: Kind) -> Option<usize>
    ensures { result ≡ looked_up unaries last_slot (kind_number kind) }
{
    match kind {
        Kind::Addc => Some(slot::ACA),
        Kind::Inc => Some(slot::AOA),
        Kind::Neg => Some(slot::TCA),
        Kind::Ssp => Some(slot::SSP),
        Kind::Ssm => Some(slot::SSM),
        Kind::Chs => Some(slot::CHS),
        Kind::Csa => Some(slot::CSA),
        Kind::Not => Some(slot::CMA),
        Kind::Icleft => Some(slot::ICL),
        Kind::Cleft => Some(slot::CAL),
        Kind::Swop => Some(slot::ICA),
        Kind::Icright => Some(slot::ICR),
        Kind::Cright => Some(slot::CAR),
        Kind::Abs => Some(slot::TCA),
        _ => None,
    }
}

// A shift word's kind.
#[tactic(auto, using(crate::proofs::VocabularyLaws::for_shift_word), unfolding(crate::specs::Vocabulary::looked_up, prelude::specs::Choice::find, layout::specs::Words::shift_kind))]
pub fn shift_word(kind: Kind) -> Option<u16>
    ensures { result ≡ looked_up shifts shift_kind (kind_number kind) }
{
    match kind {
        Kind::Lgr => Some(shift::LGR),
        Kind::Ars => Some(shift::ARS),
        Kind::Arr => Some(shift::ARR),
        Kind::Lgl => Some(shift::LGL),
        Kind::Als => Some(shift::ALS),
        Kind::Alr => Some(shift::ALR),
        _ => None,
    }
}

// The slot of a test that stands alone.
#[tactic(auto, using(crate::proofs::VocabularyLaws::for_bare), unfolding(crate::specs::Vocabulary::looked_up, prelude::specs::Choice::find, layout::specs::Words::bare_slot))]
pub fn bare(kind: Kind) -> Option<usize>
    ensures { result ≡ looked_up bares bare_slot (kind_number kind) }
{
    match kind {
        Kind::Cset => Some(slot::SSC),
        Kind::Notc => Some(slot::SRC),
        Kind::Sense1 => Some(slot::SS1),
        Kind::Sense2 => Some(slot::SS2),
        Kind::Sense3 => Some(slot::SS3),
        Kind::Sense4 => Some(slot::SS4),
        Kind::Anykey => Some(slot::SSS),
        Kind::Nokey => Some(slot::SSR),
        _ => None,
    }
}

// The slot of a single test.
#[tactic(auto, using(crate::proofs::VocabularyLaws::for_test), unfolding(crate::specs::Vocabulary::looked_up, prelude::specs::Choice::find, layout::specs::Words::test_slot))]
pub fn test(kind: Kind) -> Option<usize>
    ensures { result ≡ looked_up tests test_slot (kind_number kind) }
{
    match kind {
        Kind::Zero => Some(slot::SZE),
        Kind::Nonzero => Some(slot::SNZ),
        Kind::Plus => Some(slot::SPL),
        Kind::Minus => Some(slot::SMI),
        Kind::Odd => Some(slot::SLN),
        Kind::Even => Some(slot::SLZ),
        _ => None,
    }
}

// An operator's opcode.
#[tactic(auto, using(crate::proofs::VocabularyLaws::for_operator), unfolding(crate::specs::Vocabulary::looked_up, prelude::specs::Choice::find, layout::specs::Words::operator_form))]
pub fn operator(kind: Kind) -> Option<u16>
    ensures { result ≡ looked_up operators operator_opcode (kind_number kind) }
{
    match kind {
        Kind::PlusSign => Some(opcode::ADD),
        Kind::MinusSign => Some(opcode::SUB),
        Kind::And => Some(opcode::ANA),
        Kind::Nev => Some(opcode::ERA),
        Kind::Star => Some(opcode::MPY),
        Kind::Slash => Some(opcode::DIV),
        Kind::Mod => Some(opcode::DIV),
        _ => None,
    }
}

// Whether a kind is a relation's.
#[tactic(auto, using(crate::proofs::VocabularyLaws::for_is_relation), unfolding(crate::specs::Vocabulary::stands_in, prelude::specs::Choice::find))]
pub fn is_relation(kind: Kind) -> bool
    ensures { result ≡ stands_in relations (kind_number kind) }
{
    kind.is_between(Kind::Equal, Kind::AtLeast)
}
