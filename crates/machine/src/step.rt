// One step.
ghost use Rattle.std.specs.Prelude.{◌≡◌, ◌<◌};
ghost use Rattle.instruction.specs.Table.{table_of};
ghost use Rattle.machine.specs.State.{state, at_p, with_registers, stopped, Leaves};
ghost use Rattle.machine.specs.Step.{past_of, onward, increment_def, memory_def, generic_def, step_def, Makes};

use crate::{Failure, Image, MEMORY, Machine, address};
use effect::Registers;
use instruction::{Instruction, opcode, slot};

// P after an instruction that skips so many words.
fn past(p: u16, skipped: u16) -> u16
    requires { (p < 16384) × (skipped < 3) }
    ensures { (result ≡ past_of p skipped) × (result < 16384) }
{
    (p + 1 + skipped) % MEMORY
}

// Each changes the copy that it is handed: with `..self` a step takes a fifth longer.
impl Machine {
    fn jump(mut self, p: u16) -> Machine
        ensures { result ≡ at_p self p }
    {
        self.p = p;
        self
    }

    // With these registers, and P past the words skipped.
    fn advance(mut self, registers: Registers, skipped: u16) -> Machine
        requires { (self.p < 16384) × (skipped < 3) }
        ensures { result ≡ onward (with_registers self registers) skipped }
    {
        self.registers = registers;
        self.p = past(self.p, skipped);
        self
    }

    fn halt(mut self) -> Machine
        ensures { result ≡ stopped self }
    {
        self.halted = true;
        self
    }
}

// IRS at its effective address e.
fn increment(image: &mut Image, m: Machine, e: u16) -> Machine
    requires { (m.p < 16384) × (e < 16384) }
    ensures { Leaves (increment_def e m image.old) result image.new }
{
    let w = image[e as usize].wrapping_add(1);
    image[e as usize] = w;
    m.advance(m.registers, word::bit(w == 0))
}

// A memory-reference instruction at its effective address e.
#[tactic(auto, using(word::proofs::Bounds::compare_below), unfolding(crate::specs::Step::memory_def))]
fn memory(image: &mut Image, m: Machine, opcode: u16, e: u16) -> Machine
    requires { (m.p < 16384) × (e < 16384) }
    ensures { Leaves (memory_def opcode e m image.old) result image.new }
{
    let r = m.registers;
    let v = image[e as usize];
    match opcode {
        opcode::JMP => m.jump(e),
        opcode::STA => {
            image[e as usize] = r.a;
            m.advance(r, 0)
        }
        opcode::JST => {
            image[e as usize] = v / MEMORY * MEMORY + past(m.p, 0);
            m.jump(past(e, 0))
        }
        opcode::CAS => m.advance(r, word::compare(r.a, v)),
        opcode::IRS => increment(&mut *image, m, e),
        opcode::LDX => {
            image[0] = v;
            m.advance(r, 0)
        }
        _ => m.advance(effect::operate(opcode, v, r), 0),
    }
}

#[tactic(auto, unfolding(crate::specs::Step::generic_def))]
fn generic(m: Machine, slot: usize) -> Machine
    requires { m.p < 16384 }
    ensures { result ≡ generic_def slot m }
{
    let r = m.registers;
    if slot == slot::HLT {
        return m.advance(r, 0).halt();
    }
    let skipped = word::bit(effect::skips(slot, r, m.switches));
    m.advance(effect::unary(slot, r), skipped)
}

#[tactic(auto, using(instruction::proofs::Proper::decode_proper, instruction::proofs::Rows::decode_same, crate::proofs::Chains::for_step), unfolding(crate::specs::Step::step_def))]
pub fn step(table: &[u16; slot::COUNT], image: &mut Image, m: Machine) -> Result<Machine, Failure>
    requires { (table.now ≡ table_of) × (m.p < 16384) }
    ensures { Makes image.old (step_def (state m image.old)) result image.new }
{
    let p = m.p;
    let i = instruction::decode(table, image[p as usize]);
    match i {
        Instruction::Memory {
            opcode,
            indirect,
            tag,
            sector,
            address,
        } => {
            let first = address::indexed(&*image, address::base(p, sector, address), tag);
            let reached = address::follow(&*image, indirect, first)?;
            Ok(memory(&mut *image, m, opcode, reached.address))
        }
        Instruction::Shift { kind, amount } => {
            let r = m.registers;
            Ok(m.advance(effect::shifted(kind, amount, r), 0))
        }
        Instruction::Generic(slot) => Ok(generic(m, slot)),
        Instruction::Unknown => Err(Failure::UnknownWord),
    }
}
