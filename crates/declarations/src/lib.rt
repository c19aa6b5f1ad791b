// Declarations and the main body: a program, parsed, declared and emitted in one go.
// The table and the image are lent to each call beside the allocation: a struct of the two loans would have to be taken apart for every read of a name.
#![tactic(auto)]

ghost use Rattle.std.specs.Prelude.{◌≡◌};
ghost use Rattle.declarations.specs.Allocations.{with_end};

mod arrays;
mod bodies;
mod frames;
mod globals;
mod items;
mod limits;
mod lists;
mod names;
mod procedures;
pub mod program;
mod sectors;
mod values;

use emitter::Output;

/// The code ends of the closed sectors, in order; the first `count` count.
#[derive(Clone, Copy, Debug, PartialEq, Eq)]
pub struct SectorEnds {
    pub ends: [u16; 32],
    pub count: usize,
}

/// Storage allocated between declarations, but for the symbol table: the counts of live names and of globals that take a word, what is emitted, the closed
/// sectors, and element 0 of the next array.
#[derive(Clone, Copy, Debug, PartialEq, Eq)]
pub struct Allocation {
    pub names: usize,
    pub taken: u16,
    pub output: Output,
    pub sectors: SectorEnds,
    pub array: u16,
}

/// What an item is declared under: the count of live names, its level as the symbol table has it, how many words its names have taken, and the address of
/// the first.
#[derive(Clone, Copy, Debug, PartialEq, Eq)]
pub struct Scope {
    pub names: usize,
    pub level: u16,
    pub taken: u16,
    pub base: u16,
}

/// How an item's declaration begins.
#[derive(Clone, Copy, Debug, PartialEq, Eq)]
pub enum ItemKeyword {
    Integer,
    Constant,
    Compconstant,
}

#[derive(Clone, Copy, Debug, PartialEq, Eq)]
pub enum Item {
    Integer,
    Constant { value: u16 },
    Compconstant { value: u16 },
}

/// A procedure up to its statements: the count of live names, the address of its link, and what is emitted.
#[derive(Clone, Copy, Debug, PartialEq, Eq)]
pub struct Frame {
    pub names: usize,
    pub link: u16,
    pub output: Output,
}

/// What a program comes to: whether its subscripts are tested, the allocation after its declarations, and what is emitted at its end.
#[derive(Clone, Copy, Debug, PartialEq, Eq)]
pub struct Reading {
    pub checked: bool,
    pub allocation: Allocation,
    pub end: Output,
}

// It is not one bounded push with the pool's `with`, which finds a value first, and which holds 512 words where this holds 32.
/// One code end more, while there is room.
#[tactic(auto, unfolding(crate::specs::Allocations::with_end))]
pub fn with_end(sectors: SectorEnds, end: u16) -> SectorEnds
    ensures { result ≡ with_end sectors end }
{
    let count = sectors.count;
    if 32 <= count {
        return sectors;
    }
    let mut next = sectors;
    next.ends[count] = end;
    next.count = count + 1;
    next
}
