// The symbol table: the live names in lent scratch words, ENTRY words each, the newest last. A name is packed once and compared packed (C7).
// Also what a name stands for, and what a cell is made of, as parsing hands it to emission: values only, no addresses.
#![tactic(auto)]

ghost use Rattle.std.specs.Prelude.{◌≡◌, ◌+◌, ◌≤◌, ◌<◌, length};
ghost use Rattle.source.specs.Tokens.{name_of};
ghost use Rattle.tree.specs.Symbols.{is_x, symbol_of, next_id, is_taken};
ghost use Rattle.symbols.specs.Trees.{tree_id, tree_symbol};
ghost use Rattle.symbols.specs.Packing.{same_packed, packed_at, pair, pack_of, unpack, PackingLaws};
ghost use Rattle.symbols.specs.Table.{entry_words, number_of, data_of, level_of, entry_at, row_of, live_names, Newest, Entered};

use source::Token;
use source::byte::name_byte;

pub mod lookup;

// Words of an entry: the packed name, the level, and a tag, a number and a value that give the symbol.
// The level is 0 for a global, and 1 more than its procedure's number for a local.
pub const ENTRY: usize = 7;

// Words of lent scratch, and so numbers: a row is read back from any words.
// The tags of the symbols; UNKNOWN and any other are a name that nothing is known of.
const INTEGER: u16 = 1;

const CONSTANT: u16 = 2;

const COMPCONSTANT: u16 = 3;

const ARRAY: u16 = 4;

const PROCEDURE: u16 = 5;

const FUNCTION: u16 = 6;

const CHECKED_ARRAY: u16 = 7;

const UNKNOWN: u16 = 0;

// X and no second character.
const X: Packed = Packed {
    one: 0o054000,
    two: 0,
    three: 0,
};

// An integer or a named constant: X; the number of a global; its procedure's number, and its own among the locals.
#[derive(Clone, Copy, Debug, PartialEq, Eq)]
pub enum Id {
    X,
    Global { number: u16 },
    Local { procedure: u16, number: u16 },
}

// An array: its number among the globals, its size, and whether its subscripts are tested.
#[derive(Clone, Copy, Debug, PartialEq, Eq)]
pub struct Array {
    pub number: u16,
    pub size: u16,
    pub checked: bool,
}

#[derive(Clone, Copy, Debug, PartialEq, Eq)]
pub enum Operand {
    Named { id: Id },
    Literal { value: u16 },
}

// By a word, or `#`, which is X as it is.
#[derive(Clone, Copy, Debug, PartialEq, Eq)]
pub enum Subscript {
    By { operand: Operand },
    Hash,
}

#[derive(Clone, Copy, Debug, PartialEq, Eq)]
pub enum Cell {
    Plain { operand: Operand },
    Item { array: Array, subscript: Subscript },
}

// What a name stands for. A procedure's number counts with the globals.
#[derive(Clone, Copy, Debug, PartialEq, Eq)]
pub enum Symbol {
    Integer { id: Id },
    Constant { id: Id, value: u16 },
    Compconstant { value: u16 },
    Array { array: Array },
    Procedure { number: u16, accumulator: bool },
    Unknown,
}

// The first six characters of a name, two a word, 0 where there is none (T14).
#[derive(Clone, Copy, Debug, PartialEq, Eq)]
pub struct Packed {
    pub one: u16,
    pub two: u16,
    pub three: u16,
}

// A symbol as words.
#[derive(Clone, Copy, Debug, PartialEq, Eq)]
pub struct Data {
    pub tag: u16,
    pub number: u16,
    pub value: u16,
}

// A row of the table: a name, and what it stands for.
#[derive(Clone, Copy, Debug, PartialEq, Eq)]
pub struct Row {
    pub name: Packed,
    pub symbol: Symbol,
}

/// The live names: the first `count` rows of a table's words, the newest last. A table too short for them holds none.
#[derive(Clone, Copy, Debug)]
pub struct Names<'a> {
    pub words: &'a [u16],
    pub count: usize,
}

// Two characters of a name in a word.
fn pair_of(source: &[u8], name: Token, i: usize) -> u16
    requires { i < 6 }
    ensures { result ≡ pair (name_of source.now name) i }
{
    let first = name_byte(source, name, i);
    let second = name_byte(source, name, i + 1);
    256 * (first as u16) + second as u16
}

// A name's token, packed.
#[tactic(auto, unfolding(crate::specs::Packing::pack_of))]
pub fn pack(source: &[u8], name: Token) -> Packed
    ensures { result ≡ pack_of (name_of source.now name) }
{
    Packed {
        one: pair_of(source, name, 0),
        two: pair_of(source, name, 2),
        three: pair_of(source, name, 4),
    }
}

// Which names pack alike: those whose first six characters are the same, all of them where there are fewer (T14).
#[tactic(auto, using(crate::proofs::PackedTokens::for_packing_laws))]
pub fn packing_laws()
    ensures { PackingLaws }
{}

// Whether the name is X.
#[tactic(auto, using(crate::proofs::Packing::for_is_x))]
fn is_x(name: Packed) -> bool
    ensures { result ≡ is_x (unpack name) }
{
    name == X
}

// The id of a number at a level.
#[tactic(auto, unfolding(tree::specs::Symbols::next_id, crate::specs::Table::level_of, crate::specs::Trees::tree_id))]
pub fn id_of(level: u16, number: u16) -> Id
    ensures { tree_id result ≡ next_id (level_of level) number }
{
    if level == 0 {
        return Id::Global { number };
    }
    let procedure = level - 1;
    Id::Local { procedure, number }
}

// What an id counts at its level.
#[tactic(auto, unfolding(crate::specs::Trees::tree_id, crate::specs::Table::number_of))]
fn number_of(id: Id) -> u16
    ensures { result ≡ number_of (tree_id id) }
{
    match id {
        Id::X => 0,
        Id::Global { number } => number,
        Id::Local {
            procedure: _,
            number,
        } => number,
    }
}

// The words of a symbol.
#[tactic(auto, unfolding(crate::specs::Trees::tree_symbol, crate::specs::Table::data_of))]
fn data_of(symbol: Symbol) -> Data
    ensures { result ≡ data_of (tree_symbol symbol) }
{
    match symbol {
        Symbol::Integer { id } => Data {
            tag: INTEGER,
            number: number_of(id),
            value: 0,
        },
        Symbol::Constant { id, value } => Data {
            tag: CONSTANT,
            number: number_of(id),
            value,
        },
        Symbol::Compconstant { value } => Data {
            tag: COMPCONSTANT,
            number: 0,
            value,
        },
        Symbol::Array { array } => Data {
            tag: if array.checked { CHECKED_ARRAY } else { ARRAY },
            number: array.number,
            value: array.size,
        },
        Symbol::Procedure {
            number,
            accumulator,
        } => Data {
            tag: if accumulator { FUNCTION } else { PROCEDURE },
            number,
            value: 0,
        },
        Symbol::Unknown => Data {
            tag: UNKNOWN,
            number: 0,
            value: 0,
        },
    }
}

// Whether the entry at an offset has the name. Word by word, for speed: the search asks it of row after row, and mostly the first word tells.
#[tactic(auto, unfolding(crate::specs::Packing::same_packed))]
fn is_named(table: &[u16], at: usize, name: Packed) -> bool
    requires { at + entry_words ≤ length table.now }
    ensures { result ≡ same_packed name (packed_at table.now at) }
{
    name.one == table[at] && name.two == table[at + 1] && name.three == table[at + 2]
}

// The name of the entry at an offset.
fn name_at(table: &[u16], at: usize) -> Packed
    requires { at + entry_words ≤ length table.now }
    ensures { result ≡ packed_at table.now at }
{
    Packed {
        one: table[at],
        two: table[at + 1],
        three: table[at + 2],
    }
}

// What the entry at an offset stands for; words that no symbol has give Unknown.
#[tactic(auto, unfolding(crate::specs::Trees::tree_symbol, crate::specs::Table::entry_at, crate::specs::Table::symbol_from))]
fn symbol_at(table: &[u16], at: usize) -> Symbol
    requires { at + entry_words ≤ length table.now }
    ensures { tree_symbol result ≡ (entry_at table.now at).symbol }
{
    let level = table[at + 3];
    let tag = table[at + 4];
    let number = table[at + 5];
    let value = table[at + 6];
    let id = id_of(level, number);
    match tag {
        INTEGER => Symbol::Integer { id },
        CONSTANT => Symbol::Constant { id, value },
        COMPCONSTANT => Symbol::Compconstant { value },
        ARRAY => Symbol::Array {
            array: Array {
                number,
                size: value,
                checked: false,
            },
        },
        PROCEDURE => Symbol::Procedure {
            number,
            accumulator: false,
        },
        FUNCTION => Symbol::Procedure {
            number,
            accumulator: true,
        },
        CHECKED_ARRAY => Symbol::Array {
            array: Array {
                number,
                size: value,
                checked: true,
            },
        },
        _ => Symbol::Unknown,
    }
}

// The row of a number, counted from 0, so that a table can be read in order of declaration; past its end no characters, and nothing known.
#[tactic(auto, unfolding(crate::specs::Table::row_of, crate::specs::Packing::unpack, crate::specs::Packing::trimmed, crate::specs::Packing::before_trimmed, crate::specs::Trees::tree_symbol, crate::specs::Table::row_at))]
pub fn row_at(table: &[u16], i: usize) -> Row
    ensures { (unpack result.name ≡ (row_of table.now i).0) × (tree_symbol result.symbol ≡ (row_of table.now i).1.symbol) }
{
    if table.len() / ENTRY <= i {
        return Row {
            name: Packed {
                one: 0,
                two: 0,
                three: 0,
            },
            symbol: Symbol::Unknown,
        };
    }
    let at = ENTRY * i;
    Row {
        name: name_at(table, at),
        symbol: symbol_at(table, at),
    }
}

impl Names<'_> {
    // The place of the newest row with the name.
    #[tactic(auto, using(crate::proofs::Packing::for_newest, crate::proofs::Table::for_newest), unfolding(crate::specs::Table::entries_of, crate::specs::Table::row_at, prelude::specs::Choice::find, crate::specs::Table::nth_in, crate::specs::Table::live_names))]
    fn newest(&self, name: Packed) -> Option<usize>
        ensures { Newest self.now.count self.now.words.now name result }
    {
        if self.words.len() / ENTRY < self.count {
            return None;
        }
        for i in (0..self.count).rev() {
            if is_named(self.words, ENTRY * i, name) {
                return Some(i);
            }
        }
        None
    }

    /// What a name stands for; `Unknown` where none is live with it (D16).
    #[tactic(auto, unfolding(tree::specs::Symbols::symbol_of, crate::specs::Trees::tree_symbol, crate::specs::Trees::tree_id, crate::specs::Table::nth_in, crate::specs::Table::row_at))]
    pub fn find(&self, name: Packed) -> Symbol
        ensures { tree_symbol result ≡ symbol_of (live_names self.now.count self.now.words.now) (unpack name) }
    {
        if is_x(name) {
            return Symbol::Integer { id: Id::X };
        }
        match self.newest(name) {
            Some(i) => symbol_at(self.words, ENTRY * i),
            None => Symbol::Unknown,
        }
    }

    /// Whether a name is declared at a level, 0 for the globals, or X (D15).
    #[tactic(auto, unfolding(tree::specs::Symbols::same_level, crate::specs::Table::level_of, tree::specs::Symbols::is_taken, crate::specs::Table::nth_in, crate::specs::Table::row_at, crate::specs::Table::entry_at))]
    pub fn is_taken(&self, name: Packed, level: u16) -> bool
        ensures { result ≡ is_taken (record { names = live_names self.now.count self.now.words.now; level = level_of level; taken = 0 }) (unpack name) }
    {
        if is_x(name) {
            return true;
        }
        match self.newest(name) {
            Some(i) => (self.words[ENTRY * i + 3] == 0) == (level == 0),
            None => false,
        }
    }
}

// An entry above the first `count`, which stay; what stood above them is dropped. A table without room stays as it is.
// An id in the entry is of the entry's level, whatever level the symbol's has.
#[tactic(auto, using(crate::proofs::Table::for_declare))]
pub fn declare(table: &mut [u16], count: usize, name: Packed, level: u16, symbol: Symbol)
    ensures { Entered count table.old name level (tree_symbol symbol) table.new }
{
    if count < table.len() / ENTRY {
        let data = data_of(symbol);
        let at = ENTRY * count;
        table[at] = name.one;
        table[at + 1] = name.two;
        table[at + 2] = name.three;
        table[at + 3] = level;
        table[at + 4] = data.tag;
        table[at + 5] = data.number;
        table[at + 6] = data.value;
    }
}
