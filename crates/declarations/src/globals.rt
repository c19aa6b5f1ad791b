// The globals: their names, and their words in sector 0 (A3).
ghost use Rattle.std.specs.Prelude.{◌≡◌, ◌+◌, ◌*◌, ◌≤◌, length, set};
ghost use Rattle.layout.specs.Addresses.{first_global};
ghost use Rattle.symbols.specs.Packing.{unpack};
ghost use Rattle.symbols.specs.Table as tables;
ghost use Rattle.symbols.specs.Trees.{tree_symbol};
ghost use Rattle.parser.specs.Reads.{Gives};
ghost use Rattle.declarations.specs.Scopes.{tree_keyword};
ghost use Rattle.declarations.specs.Allocations.{global_scope, with_global, allocation_of};
ghost use Rattle.declarations.specs.Forms as forms;
ghost use Rattle.declarations.specs.Clauses.{Ready, AllocatesAnyPlan};

use crate::{Allocation, ItemKeyword, Scope};
use emitter::{Output, store};
use layout::addresses::FIRST_GLOBAL;
use parser::{Part, Read};
use symbols::{Packed, Symbol};

// The word of the global after so many.
pub(crate) fn store_global(image: &mut [u16], taken: u16, value: u16)
    ensures { image.new ≡ set image.old (first_global + taken) value }
{
    store(image, FIRST_GLOBAL as usize + taken as usize, value);
}

// What is asked of an allocation is of the table's words too, which are lent to each call: no struct could hold the fact without the loan.
impl Allocation {
    // What a global is declared under.
    pub(crate) fn global_scope(self) -> Scope
        ensures { result ≡ global_scope self }
    {
        Scope {
            names: self.names,
            level: 0,
            taken: self.taken,
            base: FIRST_GLOBAL,
        }
    }

    /// The new name of a global that takes a word.
    pub(crate) fn global_name(self, source: &[u8], table: &[u16], at: usize) -> Read<Packed>
        requires { 7 * self.names ≤ length table.now }
        ensures { Gives unpack result (forms.global_name source.now (allocation_of self table.now).scope at) }
    {
        let scope = self.global_scope();
        scope.new_name(source, table, scope.name_limit(), at)
    }

    /// With a global's name, known from now on, what is emitted then, and element 0 of the next array.
    pub(crate) fn with_global(
        self,
        table: &mut [u16],
        output: Output,
        array: u16,
        name: Packed,
        symbol: Symbol,
    ) -> Allocation
        requires { (self.names ≤ 512) × (self.taken ≤ self.names) }
        ensures { tables.Entered self.names table.old name 0 (tree_symbol symbol) table.new
            × (result ≡ with_global self output array) }
    {
        symbols::declare(table, self.names, name, 0, symbol);
        Allocation {
            names: self.names + 1,
            taken: self.taken + 1,
            output,
            array,
            ..self
        }
    }

    /// A list of global items.
    pub(crate) fn global_items(
        self,
        source: &[u8],
        table: &mut [u16],
        image: &mut [u16],
        keyword: ItemKeyword,
        at: usize,
    ) -> Read<Allocation>
        requires { Ready self table.old }
        ensures { AllocatesAnyPlan self table.old image.old result table.new image.new
            (forms.items_in source.now (tree_keyword keyword) (allocation_of self table.old) at) }
    {
        let list = self.global_scope().items(source, table, image, keyword, at);
        let Ok(Part { value: scope, next }) = list else {
            return Err(list.unwrap_err());
        };
        Ok(Part {
            value: Allocation {
                names: scope.names,
                taken: scope.taken,
                ..self
            },
            next,
        })
    }
}
