// Reading the cases: decimal numbers.
use case_input::Numbers;
use machine::{Clock, Machine, Request};

// What a run starts with besides the image.
#[derive(Debug, Clone, Copy)]
pub struct Start {
    pub machine: Machine,
    pub clock: Clock,
    pub request: Request,
}

pub fn read_start(numbers: &mut Numbers) -> Start {
    let machine = Machine {
        registers: numbers.registers(),
        p: numbers.word(),
        switches: numbers.switches(),
        halted: numbers.flag(),
    };
    let common = numbers.number();
    let request = Request {
        budget: numbers.number(),
        cooperative: numbers.number(),
    };
    let counts = std::array::from_fn(|_| numbers.number());
    Start {
        machine,
        clock: Clock { common, counts },
        request,
    }
}
