// Emission: words into the lent image, the literal pool by value.
#![tactic(auto)]

ghost use Rattle.std.specs.Prelude.{◌≡◌, true, false, [], ◌∷◌, ◌+◌, ◌≤◌, length, get_or, set};
ghost use Rattle.instruction.specs.Opcode as opcodes;
ghost use Rattle.instruction.specs.Table.{table_of};
ghost use Rattle.instruction.specs.Encode.{shift_word};
ghost use Rattle.tree.specs.Tree.{lowest};
ghost use Rattle.symbols.specs.Trees.{tree_array, tree_operand, tree_subscript, tree_cell};
ghost use Rattle.layout.specs.Addresses.{sector_words, saved_word, first_global};
ghost use Rattle.layout.specs.Words.{Sym, load_words, above_words, below_words, test_words, reach_words, instruction_word, cell_words};
ghost use Rattle.layout.specs.Pool.{index_of, literal_of};
ghost use Rattle.layout.specs.Map as map;
ghost use Rattle.layout.specs.Emission.{frame_of};
ghost use Rattle.emitter.specs.Emitted.{literals_in, bases_of, no_pool, Takes, Puts, Emits};
ghost use Rattle.emitter.specs.Lays.{filled};

use instruction::opcode::{CAS, JMP, LDA, LDX, STA};
use instruction::slot;
use layout::addresses;
use symbols::{Array, Cell, Id, Operand, Subscript};

// The last address that 16 bits hold, far above the memory.
pub const LAST_ADDRESS: u16 = 65535;

// An address is reckoned in 32 bits, since a local's may be above 65,535.
const FIRST_GLOBAL: u32 = addresses::FIRST_GLOBAL as u32;

const SECTOR_WORDS: u32 = addresses::SECTOR_WORDS as u32;

const SAVED_WORD: u32 = addresses::SAVED_WORD as u32;

// The highest subscript, -1 (D7).
const HIGHEST: u16 = 65535;

// As many words as a sector has: no sector holds a longer pool.
const POOL_WORDS: usize = addresses::SECTOR_WORDS as usize;

// The literal pool of the open sector, in order of first use (A7); the first `count` words count.
#[derive(Debug, Clone, Copy, PartialEq, Eq)]
pub struct Pool {
    pub words: [u16; POOL_WORDS],
    pub count: usize,
}

impl Pool {
    #[tactic(auto, unfolding(crate::specs::Emitted::no_pool))]
    pub fn empty() -> Pool
        ensures { result ≡ no_pool }
    {
        Pool {
            words: [0u16; POOL_WORDS],
            count: 0,
        }
    }

    // How many words it holds: all, where its count is above them.
    pub fn held_count(self) -> usize
        ensures { (result ≡ length (literals_in self)) × (result ≤ sector_words) }
    {
        self.count.min(POOL_WORDS)
    }

    // The place of a value, or how many words it holds.
    fn index_of(self, value: u16) -> usize
        ensures { (result ≡ index_of (literals_in self) value) × (result ≤ sector_words) }
    {
        let held = &self.words[..self.held_count()];
        held.iter()
            .position(|word| *word == value)
            .unwrap_or(held.len())
    }

    // With a value, once. A full pool stays as it is.
    fn with(self, value: u16) -> Pool
        ensures { Takes self (value ∷ []) result }
    {
        let count = self.held_count();
        if self.index_of(value) < count {
            return self;
        }
        if count < POOL_WORDS {
            let mut next = self;
            next.words[count] = value;
            next.count = count + 1;
            return next;
        }
        self
    }

    // With an operand's literal, if it is one.
    #[tactic(auto, unfolding(layout::specs::Emission::with_literals, crate::specs::Emitted::pooled_all, layout::specs::Pool::literal_of, symbols::specs::Trees::tree_operand))]
    fn with_operand(self, operand: Operand) -> Pool
        ensures { Takes self (literal_of (Sym.memory 0 (tree_operand operand)) []) result }
    {
        match operand {
            Operand::Named { id: _ } => self,
            Operand::Literal { value } => self.with(value),
        }
    }
}

// What is emitted so far, but for the image: the address of the next word, and the pool. The image is lent beside it:
// the pool is handed on by value from form to form, and a form that fails could not hand the image back.
#[derive(Debug, Clone, Copy, PartialEq, Eq)]
pub struct Output {
    pub next: u16,
    pub pool: Pool,
}

// What a body is compiled under: the address of its sector's pool, and of its procedure's first local.
#[derive(Debug, Clone, Copy, PartialEq, Eq)]
pub struct Context {
    pub pool: u16,
    pub locals: u16,
}

// Outside of the image nothing is stored.
pub fn store(image: &mut [u16], at: usize, word: u16)
    ensures { image.new ≡ set image.old at word }
{
    if at < image.len() {
        image[at] = word;
    }
}

// A word at the next address.
#[tactic(auto, unfolding(layout::specs::Emission::with_word, layout::specs::Emission::next_address))]
fn emit_word(image: &mut [u16], output: Output, word: u16) -> Output
    ensures { Puts output image.old result image.new word }
{
    store(image, output.next as usize, word);
    Output {
        next: output.next.saturating_add(1),
        pool: output.pool,
    }
}

// Opcodes, slots and kinds of shift are numbers: each form is promised for any number.
// The word of an instruction on an address: LDX has its tag set, and an address outside of sector 0 its sector bit (I2, A10).
#[tactic(auto, unfolding(layout::specs::Map::reference))]
fn reference(opcode: u16, indirect: bool, address: u32) -> u16
    ensures { result ≡ map.reference opcode indirect address }
{
    instruction::encode_memory(
        opcode,
        indirect,
        opcode == LDX,
        SECTOR_WORDS <= address,
        (address % SECTOR_WORDS) as u16,
    )
}

// The word of a generic instruction; 0 for a slot outside of the table.
pub fn generic_word(slot: usize) -> u16
    ensures { result ≡ get_or table_of slot 0 }
{
    let table = instruction::table();
    if slot < 64 { table[slot] } else { 0 }
}

pub fn emit_generic(image: &mut [u16], output: Output, slot: usize) -> Output
    ensures { Puts output image.old result image.new (get_or table_of slot 0) }
{
    emit_word(image, output, generic_word(slot))
}

pub fn emit_shift(image: &mut [u16], output: Output, kind: u16, amount: u16) -> Output
    ensures { Puts output image.old result image.new (shift_word kind amount) }
{
    emit_word(image, output, instruction::encode_shift(kind, amount))
}

// Four forms of reference that the words name apart: through a global, a jump, a return, and on the kept word.
// An instruction that goes indirectly through a global word.
pub fn emit_through(image: &mut [u16], output: Output, opcode: u16, number: u16) -> Output
    ensures { Puts output image.old result image.new (map.reference opcode true (first_global + number)) }
{
    emit_word(
        image,
        output,
        reference(opcode, true, FIRST_GLOBAL + number as u32),
    )
}

// A jump to a code address.
pub fn emit_jump(image: &mut [u16], output: Output, target: u16) -> Output
    ensures { Puts output image.old result image.new (map.reference opcodes.JMP false target) }
{
    emit_word(image, output, reference(JMP, false, target as u32))
}

// A return through a link (W16).
pub fn emit_return(image: &mut [u16], output: Output, link: u16) -> Output
    ensures { Puts output image.old result image.new (map.reference opcodes.JMP true link) }
{
    emit_word(image, output, reference(JMP, true, link as u32))
}

// An instruction on the word that keeps A while a subscript is tested (A12).
fn emit_saved(image: &mut [u16], output: Output, opcode: u16) -> Output
    ensures { Puts output image.old result image.new (map.reference opcode false saved_word) }
{
    emit_word(image, output, reference(opcode, false, SAVED_WORD))
}

// A jump that was emitted before its target was known.
pub fn fill_jump(image: &mut [u16], hole: u16, target: u16)
    ensures { image.new ≡ filled image.old hole target }
{
    store(image, hole as usize, reference(JMP, false, target as u32));
}

// The address of an integer or a named constant.
#[tactic(auto, unfolding(layout::specs::Map::address_of, symbols::specs::Trees::tree_operand, symbols::specs::Trees::tree_id))]
fn id_address(context: Context, id: Id) -> u32
    ensures { result ≡ map.address_of (frame_of (bases_of context) []) (tree_operand (Operand.Named id)) }
{
    match id {
        Id::X => 0,
        Id::Global { number } => FIRST_GLOBAL + number as u32,
        Id::Local {
            procedure: _,
            number,
        } => context.locals as u32 + number as u32,
    }
}

// The address of an operand, with its literal in the pool.
#[tactic(auto, unfolding(symbols::specs::Trees::tree_operand, layout::specs::Map::address_of))]
fn address_of(context: Context, pool: Pool, operand: Operand) -> u32
    ensures { result ≡ map.address_of (frame_of (bases_of context) (literals_in pool)) (tree_operand operand) }
{
    match operand {
        Operand::Named { id } => id_address(context, id),
        Operand::Literal { value } => context.pool as u32 + pool.index_of(value) as u32,
    }
}

// An instruction on an integer, a constant or a literal (W1).
pub fn emit_memory(
    image: &mut [u16],
    context: Context,
    output: Output,
    opcode: u16,
    operand: Operand,
) -> Output
    ensures { Emits (bases_of context) output image.old result image.new (Sym.memory opcode (tree_operand operand) ∷ []) }
{
    let pool = output.pool.with_operand(operand);
    let address = address_of(context, pool, operand);
    emit_word(
        image,
        Output { pool, ..output },
        reference(opcode, false, address),
    )
}

// A subscript to X, unless it is there (W2).
#[tactic(auto, unfolding(symbols::specs::Trees::tree_subscript, layout::specs::Words::load_words))]
fn emit_load(image: &mut [u16], context: Context, output: Output, subscript: Subscript) -> Output
    ensures { Emits (bases_of context) output image.old result image.new (load_words (tree_subscript subscript)) }
{
    let Subscript::By { operand } = subscript else {
        return output;
    };
    emit_memory(image, context, output, LDX, operand)
}

// The first half of a subscript's test: A is kept, and X compared with -1, the highest subscript (W19).
fn emit_above(image: &mut [u16], context: Context, output: Output) -> Output
    ensures { Emits (bases_of context) output image.old result image.new above_words }
{
    let kept = emit_saved(image, output, STA);
    let loaded = emit_memory(image, context, kept, LDA, Operand::Named { id: Id::X });
    let compared = emit_memory(
        image,
        context,
        loaded,
        CAS,
        Operand::Literal { value: HIGHEST },
    );
    let stopped = emit_generic(image, compared, slot::HLT);
    emit_generic(image, stopped, slot::NOP)
}

// The second half: X is compared with the lowest subscript, and A is back (W19).
fn emit_below(image: &mut [u16], context: Context, output: Output, lowest: u16) -> Output
    ensures { Emits (bases_of context) output image.old result image.new (below_words lowest) }
{
    let compared = emit_memory(
        image,
        context,
        output,
        CAS,
        Operand::Literal { value: lowest },
    );
    let passed = emit_generic(image, compared, slot::NOP);
    let skipped = emit_generic(image, passed, slot::SKP);
    let stopped = emit_generic(image, skipped, slot::HLT);
    emit_saved(image, stopped, LDA)
}

// -size as a word: the lowest subscript, or 0 of an array that has none (D7, W19).
fn lowest_of(array: Array) -> u16
    ensures { result ≡ lowest (tree_array array) }
{
    0u16.wrapping_sub(array.size)
}

// The test of X as a subscript of an array (W19).
fn emit_subscript_test(image: &mut [u16], context: Context, output: Output, array: Array) -> Output
    ensures { Emits (bases_of context) output image.old result image.new (test_words (tree_array array)) }
{
    let within = emit_above(image, context, output);
    emit_below(image, context, within, lowest_of(array))
}

// What reaches a cell: an array element's subscript in X, and its test if the array's subscripts are tested (W2, W19).
pub fn emit_reach(image: &mut [u16], context: Context, output: Output, cell: Cell) -> Output
    ensures { Emits (bases_of context) output image.old result image.new (reach_words (tree_cell cell)) }
{
    let Cell::Item { array, subscript } = cell else {
        return output;
    };
    let loaded = emit_load(image, context, output, subscript);
    if array.checked {
        return emit_subscript_test(image, context, loaded, array);
    }
    loaded
}

// An instruction on a cell that is reached.
#[tactic(auto, unfolding(symbols::specs::Trees::tree_cell, layout::specs::Words::instruction_word))]
pub fn emit_instruction(
    image: &mut [u16],
    context: Context,
    output: Output,
    opcode: u16,
    cell: Cell,
) -> Output
    ensures { Emits (bases_of context) output image.old result image.new (instruction_word opcode (tree_cell cell) ∷ []) }
{
    match cell {
        Cell::Plain { operand } => emit_memory(image, context, output, opcode, operand),
        Cell::Item {
            array,
            subscript: _,
        } => emit_through(image, output, opcode, array.number),
    }
}

// An instruction on a cell, with what reaches it (W1, W2).
pub fn emit_cell(
    image: &mut [u16],
    context: Context,
    output: Output,
    opcode: u16,
    cell: Cell,
) -> Output
    ensures { Emits (bases_of context) output image.old result image.new (cell_words opcode (tree_cell cell)) }
{
    let reached = emit_reach(image, context, output, cell);
    emit_instruction(image, context, reached, opcode, cell)
}
