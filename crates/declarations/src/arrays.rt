// Arrays.
ghost use Rattle.std.specs.Prelude.{◌≡◌, ◌≤◌, ◌+◌, ◌-◌};
ghost use Rattle.grammar.specs.Declarations.{parse_initials};
ghost use Rattle.layout.specs.Emission.{stored, padded};
ghost use Rattle.symbols.specs.Table.{live_names};
ghost use Rattle.declarations.specs.Declares.{Declares};
ghost use Rattle.source.specs.Kinds as kinds;
ghost use Rattle.cells.specs.Answers.{live};
ghost use Rattle.parser.specs.Reads.{Gives};
ghost use Rattle.declarations.specs.Allocations.{allocation_of, space_number, pool_end};
ghost use Rattle.declarations.specs.Forms.{array_head, one_array, arrays_in};
ghost use Rattle.declarations.specs.Clauses.{Ready, AllocatesAnyPlan, AllocatesOne, after_token, size_at, tree_head, array_list_at, closing_at};

use crate::Allocation;
use crate::globals::store_global;
use crate::limits::space_limit;
use crate::names::pass_at;
use crate::values::initials;
use cells::{Reader, size_of};
use layout::addresses::ARRAY_TAG;
use parser::{Part, Read, expect};
use source::kind::Kind;
use source::{Token, token_at};
use symbols::{Array, Names, Packed, Symbol};

// An array up to its `]`.
#[derive(Clone, Copy, Debug, PartialEq, Eq)]
pub(crate) struct Head {
    name: Packed,
    size: u16,
}

// `[` and the constant that gives the size.
#[tactic(auto, unfolding(grammar::specs::Parse::and_then))]
fn bracketed(reader: &Reader<'_>, at: usize) -> Read<u16>
    ensures { Gives (λ v. v) result (after_token reader.now.source.now kinds.left_bracket (size_at reader.now.source.now (live reader.now)) at) }
{
    let open = expect(reader.source, Kind::LeftBracket, at);
    let Ok(Part { value: _, next }) = open else {
        return Err(open.unwrap_err());
    };
    reader.size_at(next)
}

impl Allocation {
    // `]`, where the limit of the array's space is.
    #[tactic(auto, unfolding(grammar::specs::Parse::and_then))]
    fn closing(self, source: &[u8], size: u16, at: usize) -> Read<Token>
        ensures { Gives (λ t. t) result (closing_at source.now (space_number (pool_end self.output + size) self.array) at) }
    {
        let close = expect(source, Kind::RightBracket, at);
        let Ok(Part { value: t, next: _ }) = close else {
            return close;
        };
        pass_at(t, space_limit(self.output, size, self.array))
    }

    // An array up to its `]`.
    fn array_head(self, source: &[u8], table: &[u16], at: usize) -> Read<Head>
        requires { Ready self table.now }
        ensures { Gives tree_head result (array_head source.now (allocation_of self table.now) at) }
    {
        let named = self.global_name(source, table, at);
        let Ok(Part { value: name, next }) = named else {
            return Err(named.unwrap_err());
        };
        let reader = Reader {
            source,
            names: Names {
                words: table,
                count: self.names,
            },
        };
        let valued = bracketed(&reader, next);
        let Ok(Part { value, next }) = valued else {
            return Err(valued.unwrap_err());
        };
        let size = size_of(value);
        let closed = self.closing(source, size, next);
        let Ok(Part { value: _, next }) = closed else {
            return Err(closed.unwrap_err());
        };
        Ok(Part {
            value: Head { name, size },
            next,
        })
    }

    // The words of an array of a size, with the initial values if they are given.
    fn array_words(
        self,
        source: &[u8],
        table: &[u16],
        image: &mut [u16],
        size: u16,
        at: usize,
    ) -> Read<()>
        requires { size ≤ self.array }
        ensures { Declares (λ values _. image.new ≡ stored image.old (self.array - size) (padded size values)) result
            (parse_initials source.now (live_names self.names table.now) size at) }
    {
        let reader = Reader {
            source,
            names: Names {
                words: table,
                count: self.names,
            },
        };
        initials(&reader, image, (self.array - size) as usize, size, at)
    }

    // An array, declared and emitted.
    fn array(
        self,
        source: &[u8],
        table: &mut [u16],
        image: &mut [u16],
        checked: bool,
        at: usize,
    ) -> Read<Allocation>
        requires { Ready self table.old }
        ensures { AllocatesOne self table.old image.old result table.new image.new
            (one_array source.now checked (allocation_of self table.old) at) }
    {
        let head = self.array_head(source, table, at);
        let Ok(
            Part {
                value: Head { name, size },
                next,
            },
        ) = head
        else {
            return Err(head.unwrap_err());
        };
        store_global(image, self.taken, ARRAY_TAG + self.array);
        let filled = self.array_words(source, table, image, size, next);
        let Ok(Part { value: (), next }) = filled else {
            return Err(filled.unwrap_err());
        };
        let array = Array {
            number: self.taken,
            size,
            checked,
        };
        let symbol = Symbol::Array { array };
        Ok(Part {
            value: self.with_global(table, self.output, self.array - size, name, symbol),
            next,
        })
    }

    // Arrays separated by commas, each declared before the next. The loop is written out, as in `lists`.
    fn array_list(
        self,
        source: &[u8],
        table: &mut [u16],
        image: &mut [u16],
        checked: bool,
        at: usize,
    ) -> Read<Allocation>
        requires { Ready self table.old }
        ensures { AllocatesAnyPlan self table.old image.old result table.new image.new
            (array_list_at source.now checked (allocation_of self table.old) at) }
    {
        let mut allocation = self;
        let mut from = at;
        for _ in 0..source.len() {
            let one = allocation.array(source, table, image, checked, from);
            let Ok(Part { value: after, next }) = one else {
                return one;
            };
            let t = token_at(source, next);
            if t.kind != Kind::Comma {
                return one;
            }
            allocation = after;
            from = t.next;
        }
        allocation.array(source, table, image, checked, from)
    }

    /// The same, ended by `;`.
    pub(crate) fn arrays(
        self,
        source: &[u8],
        table: &mut [u16],
        image: &mut [u16],
        checked: bool,
        at: usize,
    ) -> Read<Allocation>
        requires { Ready self table.old }
        ensures { AllocatesAnyPlan self table.old image.old result table.new image.new
            (arrays_in source.now checked (allocation_of self table.old) at) }
    {
        let list = self.array_list(source, table, image, checked, at);
        let Ok(
            Part {
                value: allocation,
                next,
            },
        ) = list
        else {
            return list;
        };
        let end = expect(source, Kind::Semicolon, next);
        let Ok(Part { value: _, next }) = end else {
            return Err(end.unwrap_err());
        };
        Ok(Part {
            value: allocation,
            next,
        })
    }
}
