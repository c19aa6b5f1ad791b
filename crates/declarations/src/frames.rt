// What stands before a procedure's statements: its locals and its link (W16).
ghost use Rattle.std.specs.Prelude.{◌≡◌, ◌+◌, set};
ghost use Rattle.layout.specs.Addresses.{first_global};
ghost use Rattle.tree.specs.Symbols.{local_scope};
ghost use Rattle.grammar.specs.Declarations.{parse_locals};
ghost use Rattle.symbols.specs.Packing.{unpack};
ghost use Rattle.declarations.specs.Allocations.{allocation_of};
ghost use Rattle.declarations.specs.Frames.{InnerScope};
ghost use Rattle.declarations.specs.Clauses.{ReadyForName, EmitsFrame};

use crate::globals::store_global;
use crate::{Allocation, Frame, Scope};
use emitter::{Output, store};
use parser::{Part, Read};
use symbols::{Packed, Symbol};

// A procedure's word, and its link.
fn emit_link(image: &mut [u16], taken: u16, link: u16)
    ensures { image.new ≡ set (set image.old (first_global + taken) link) link 0 }
{
    store_global(image, taken, link);
    store(image, link as usize, 0);
}

impl Allocation {
    // What a procedure's locals are declared under: its name is taken, and not yet known.
    fn local_scope(self, table: &mut [u16], name: Packed) -> Scope
        requires { ReadyForName self table.old }
        ensures { InnerScope self table.old (unpack name) result table.new }
    {
        symbols::declare(table, self.names, name, 0, Symbol::Unknown);
        Scope {
            names: self.names + 1,
            level: self.taken + 1,
            taken: 0,
            base: self.output.next,
        }
    }

    /// The name, not yet known; the locals above it; the procedure's word and its link.
    pub(crate) fn frame(
        self,
        source: &[u8],
        table: &mut [u16],
        image: &mut [u16],
        name: Packed,
        at: usize,
    ) -> Read<Frame>
        requires { ReadyForName self table.old }
        ensures { EmitsFrame self table.old image.old name result table.new image.new
            (parse_locals source.now (local_scope (allocation_of self table.old).scope (unpack name)) at) }
    {
        let inner = self.local_scope(table, name);
        let list = inner.locals(source, table, image, at);
        let Ok(Part { value: after, next }) = list else {
            return Err(list.unwrap_err());
        };
        let link = self.output.next + after.taken;
        emit_link(image, self.taken, link);
        Ok(Part {
            value: Frame {
                names: after.names,
                link,
                output: Output {
                    next: link + 1,
                    ..self.output
                },
            },
            next,
        })
    }
}
