// The globals as the machine's memory has them: each integer, and each array in rows of ten, in order of declaration.
ghost use Rattle.std.specs.Prelude.{reverse, ◌≡◌, ◌-◌, ◌*◌, ◌≤◌, get_or, length, take};
ghost use Rattle.std.specs.List.{position};
ghost use Rattle.text.specs.Adds.{Adds};
ghost use Rattle.symbols.specs.Packing.{trimmed, unpack};
ghost use Rattle.symbols.specs.Table.{entry_words, entries_of};
ghost use Rattle.symbols.specs.Trees.{tree_id, tree_symbol};
ghost use Rattle.report.specs.Globals.{is_some_byte, element_head, element_end, element_text, elements_text, array_text, id_text, symbol_text, size_of, names_text};

use layout::addresses;
use symbols::{Id, Packed, Row, Symbol};
use text::Text;

const FIRST_GLOBAL: usize = addresses::FIRST_GLOBAL as usize;

const FIRST_ARRAY: usize = addresses::FIRST_ARRAY as usize;

// How many elements stand in a row.
const ROW: usize = 10;

// The word at an address, or 0 past the end.
pub fn word_at(image: &[u16], at: usize) -> u16
    ensures { result ≡ get_or image.now at 0 }
{
    image.get(at).copied().unwrap_or(0)
}

// The last byte but zeros, from the end.
fn last_byte(bytes: &[u8]) -> Option<usize>
    ensures { result ≡ position is_some_byte (reverse bytes.now) }
{
    bytes.iter().rev().position(|b| *b != 0)
}

// How many bytes stand before the zeros at the end.
fn trimmed_length(bytes: &[u8]) -> usize
    ensures { (take result bytes.now ≡ trimmed bytes.now) × (result ≤ length bytes.now) }
{
    bytes.len() - last_byte(bytes).unwrap_or(bytes.len())
}

#[tactic(auto, unfolding(symbols::specs::Packing::unpack))]
fn put_name(text: &mut Text<'_>, name: Packed)
    ensures { Adds text.old text.new (unpack name) }
{
    let bytes = [
        (name.one / 256) as u8,
        (name.one % 256) as u8,
        (name.two / 256) as u8,
        (name.two % 256) as u8,
        (name.three / 256) as u8,
        (name.three % 256) as u8,
    ];
    let n = trimmed_length(&bytes);
    text.put(&bytes[..n]);
}

#[tactic(auto, using(text::proofs::Laws::for_start), unfolding(crate::specs::Globals::id_text, crate::specs::Globals::integer_text, symbols::specs::Trees::tree_id))]
fn put_integer(text: &mut Text<'_>, name: Packed, id: Id, image: &[u16])
    ensures { Adds text.old text.new (id_text image.now (unpack name) (tree_id id)) }
{
    let Id::Global { number } = id else {
        return;
    };
    put_name(text, name);
    text.put(b" = ");
    text.signed(word_at(image, FIRST_GLOBAL + number as usize));
    text.put(b"\n");
}

// What stands before an element: its array and subscript at the start of a row, else a comma.
#[tactic(auto, using(text::proofs::Laws::same_added, crate::proofs::Laws::for_put_head))]
fn put_head(text: &mut Text<'_>, name: Packed, column: usize, left: usize)
    ensures { Adds text.old text.new (element_head (unpack name) column left) }
{
    if column != 0 {
        text.put(b", ");
        return;
    }
    put_name(text, name);
    text.put(b"[-");
    text.decimal(left);
    text.put(b"] = ");
}

// A row ends after ten elements, and with the array.
#[tactic(auto, using(text::proofs::Laws::same_added, text::proofs::Laws::adds_nothing, crate::proofs::Laws::for_put_end))]
fn put_end(text: &mut Text<'_>, column: usize, left: usize)
    ensures { Adds text.old text.new (element_end column left) }
{
    if column == ROW - 1 || left == 1 {
        text.put(b"\n");
    }
}

fn put_element(text: &mut Text<'_>, name: Packed, column: usize, left: usize, word: u16)
    ensures { Adds text.old text.new
        (element_text (unpack name) column left word) }
{
    put_head(text, name, column, left);
    text.signed(word);
    put_end(text, column, left);
}

#[tactic(auto, using(text::proofs::Laws::for_lines, crate::proofs::Laws::for_put_elements))]
fn put_elements(text: &mut Text<'_>, name: Packed, size: usize, array: usize, image: &[u16])
    ensures { Adds text.old text.new (elements_text image.now (unpack name) size array size) }
{
    for place in 0..size {
        let left = size - place;
        let word = word_at(image, array.saturating_sub(left));
        put_element(text, name, place % ROW, left, word);
    }
}

#[tactic(auto, using(text::proofs::Laws::same_added, crate::proofs::Laws::for_put_array))]
fn put_array(text: &mut Text<'_>, name: Packed, size: usize, array: usize, image: &[u16])
    ensures { Adds text.old text.new (array_text image.now (unpack name) size array) }
{
    if size == 0 {
        put_name(text, name);
        text.put(b" has no elements\n");
        return;
    }
    put_elements(text, name, size, array, image);
}

#[tactic(auto, using(text::proofs::Laws::for_start), unfolding(crate::specs::Globals::symbol_text, symbols::specs::Trees::tree_symbol))]
fn put_row(text: &mut Text<'_>, row: Row, array: usize, image: &[u16])
    ensures { Adds text.old text.new
        (symbol_text image.now (unpack row.name) array (tree_symbol row.symbol)) }
{
    let name = row.name;
    let symbol = row.symbol;
    match symbol {
        Symbol::Integer { id } => put_integer(text, name, id, image),
        Symbol::Array { array: own } => put_array(text, name, own.size as usize, array, image),
        _ => {}
    }
}

// How many elements a symbol takes.
#[tactic(auto, unfolding(crate::specs::Globals::size_of, symbols::specs::Trees::tree_symbol))]
fn size_of(symbol: Symbol) -> usize
    ensures { result ≡ size_of (tree_symbol symbol) }
{
    match symbol {
        Symbol::Array { array } => array.size as usize,
        _ => 0,
    }
}

// The first `count` rows of the table.
#[tactic(auto, using(text::proofs::Laws::for_start), unfolding(crate::specs::Globals::names_text, crate::specs::Globals::next_array, symbols::specs::Table::entries_of))]
pub fn put_globals(text: &mut Text<'_>, table: &[u16], count: usize, image: &[u16])
    requires { entry_words * count ≤ length table.now }
    ensures { Adds text.old text.new (names_text image.now (entries_of count table.now)) }
{
    let mut array = FIRST_ARRAY;
    for i in 0..count {
        let row = symbols::row_at(table, i);
        put_row(text, row, array, image);
        let symbol = row.symbol;
        array = array.saturating_sub(size_of(symbol));
    }
}
