// Reading what a run starts with: decimal numbers.
use case_input::Numbers;
use machine::Machine;

// What a run starts with besides the image.
#[derive(Debug, Clone, Copy)]
pub struct Start {
    pub machine: Machine,
    pub budget: u32,
}

pub fn read_start(numbers: &mut Numbers, entry: u16) -> Start {
    Start {
        machine: Machine {
            registers: numbers.registers(),
            p: entry,
            switches: numbers.switches(),
            halted: false,
        },
        budget: numbers.number(),
    }
}
