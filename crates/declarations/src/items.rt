// An integer, constant or compconstant, at both levels.
ghost use Rattle.std.specs.Prelude.{◌≡◌, [], ◌+◌, ◌*◌, ◌≤◌, length};
ghost use Rattle.source.specs.Kinds as kinds;
ghost use Rattle.tree.specs.Symbols.{item_symbol};
ghost use Rattle.grammar.specs.Cells.{parse_constant};
ghost use Rattle.grammar.specs.Declarations.{item_limit, item_from, parse_item};
ghost use Rattle.symbols.specs.Packing.{unpack};
ghost use Rattle.symbols.specs.Trees.{tree_symbol};
ghost use Rattle.cells.specs.Answers.{live};
ghost use Rattle.layout.specs.Emission.{stored, item_values};
ghost use Rattle.parser.specs.Reads.{Gives};
ghost use Rattle.declarations.specs.Scopes.{scope_of, tree_keyword, tree_item, tree_named, Limits, Room};
ghost use Rattle.declarations.specs.Clauses.{DeclaresItem, after_token};

use crate::{Item, ItemKeyword, Scope};
use cells::Reader;
use emitter::store;
use parser::{Cause, Part, Read, expect};
use source::kind::Kind;
use symbols::{Names, Packed, Symbol, id_of};

// `=` and a constant.
#[tactic(auto, unfolding(grammar::specs::Parse::and_then))]
fn value_at(reader: &Reader<'_>, at: usize) -> Read<u16>
    ensures { Gives (λ v. v) result (after_token reader.now.source.now kinds.equal (parse_constant reader.now.source.now (live reader.now)) at) }
{
    let equal = expect(reader.source, Kind::Equal, at);
    let Ok(Part { value: _, next }) = equal else {
        return Err(equal.unwrap_err());
    };
    reader.constant_at(next)
}

// The item's word, if it takes one; and how many it takes (A3, W16).
#[tactic(auto, unfolding(layout::specs::Emission::stored, layout::specs::Emission::item_values, crate::specs::Scopes::tree_item, tree::specs::Symbols::words_taken, tree::specs::Symbols::item_value))]
fn emit_item(image: &mut [u16], at: usize, item: Item) -> u16
    ensures { (image.new ≡ stored image.old at (item_values (tree_item item)))
        × (result ≡ length (item_values (tree_item item))) × (result ≤ 1) }
{
    let value = match item {
        Item::Integer => 0,
        Item::Constant { value } => value,
        Item::Compconstant { value: _ } => return 0,
    };
    store(image, at, value);
    1
}

impl Scope {
    #[tactic(auto, unfolding(grammar::specs::Declarations::item_limit, crate::specs::Scopes::tree_keyword))]
    fn item_limit(self, keyword: ItemKeyword) -> Result<(), Cause>
        ensures { Limits result (item_limit (tree_keyword keyword) (scope_of self [])) }
    {
        match keyword {
            ItemKeyword::Integer | ItemKeyword::Constant => self.name_limit(),
            ItemKeyword::Compconstant => Ok(()),
        }
    }

    // An item after its name.
    #[tactic(auto, unfolding(grammar::specs::Declarations::item_from, grammar::specs::Declarations::parse_value, crate::specs::Scopes::tree_keyword, crate::specs::Scopes::tree_item, grammar::specs::Parse::and_then))]
    fn item_from(
        self,
        source: &[u8],
        table: &[u16],
        keyword: ItemKeyword,
        name: Packed,
        at: usize,
    ) -> Read<(Packed, Item)>
        ensures { Gives tree_named result (item_from source.now (tree_keyword keyword) (scope_of self table.now) (unpack name) at) }
    {
        if keyword == ItemKeyword::Integer {
            return Ok(Part {
                value: (name, Item::Integer),
                next: at,
            });
        }
        let reader = Reader {
            source,
            names: Names {
                words: table,
                count: self.names,
            },
        };
        let read = value_at(&reader, at);
        let Ok(Part { value, next }) = read else {
            return Err(read.unwrap_err());
        };
        let item = match keyword {
            ItemKeyword::Constant => Item::Constant { value },
            _ => Item::Compconstant { value },
        };
        Ok(Part {
            value: (name, item),
            next,
        })
    }

    // A name and its item.
    #[tactic(auto, unfolding(grammar::specs::Declarations::parse_item, grammar::specs::Parse::and_then))]
    fn item_at(
        self,
        source: &[u8],
        table: &[u16],
        keyword: ItemKeyword,
        at: usize,
    ) -> Read<(Packed, Item)>
        requires { 7 * self.names ≤ length table.now }
        ensures { Gives tree_named result (parse_item source.now (tree_keyword keyword) (scope_of self table.now) at) }
    {
        let named = self.new_name(source, table, self.item_limit(keyword), at);
        let Ok(Part { value: name, next }) = named else {
            return Err(named.unwrap_err());
        };
        self.item_from(source, table, keyword, name, next)
    }

    // What an item's name will stand for.
    #[tactic(auto, unfolding(tree::specs::Symbols::item_symbol, symbols::specs::Trees::tree_symbol, crate::specs::Scopes::tree_item))]
    fn symbol_of(self, item: Item) -> Symbol
        ensures { tree_symbol result ≡ item_symbol (scope_of self []) (tree_item item) }
    {
        let id = id_of(self.level, self.taken);
        match item {
            Item::Integer => Symbol::Integer { id },
            Item::Constant { value } => Symbol::Constant { id, value },
            Item::Compconstant { value } => Symbol::Compconstant { value },
        }
    }

    // A name and its item, declared and emitted.
    pub(crate) fn item(
        self,
        source: &[u8],
        table: &mut [u16],
        image: &mut [u16],
        keyword: ItemKeyword,
        at: usize,
    ) -> Read<Scope>
        requires { Room self table.old }
        ensures { DeclaresItem self table.old image.old result table.new image.new
            (parse_item source.now (tree_keyword keyword) (scope_of self table.old) at) }
    {
        let read = self.item_at(source, table, keyword, at);
        let Ok(
            Part {
                value: (name, item),
                next,
            },
        ) = read
        else {
            return Err(read.unwrap_err());
        };
        let size = emit_item(image, self.base as usize + self.taken as usize, item);
        symbols::declare(table, self.names, name, self.level, self.symbol_of(item));
        Ok(Part {
            value: Scope {
                names: self.names + 1,
                taken: self.taken + size,
                ..self
            },
            next,
        })
    }
}
