// What follows a condition's expression: a relation and its cell, or a test.
ghost use Rattle.source.specs.Kinds.{kind_number};
ghost use Rattle.expressions.specs.Chains.{comparison_words};
ghost use Rattle.expressions.specs.Compiles.{Decides, DecidesComparison, comparison_at, lone_cell_at};

use crate::{Body, Guarded, relation, vocabulary};
use emitter::Output;
use instruction::opcode;
use parser::{Cause, Part, Read, fail_at};
use source::{Token, token_at};

impl Body<'_> {
    // A relation's cell and the relation's words, after the relation.
    fn related(&self, image: &mut [u16], output: Output, t: Token) -> Read<Guarded>
        ensures { DecidesComparison (kind_number t.kind) self.now output image.old image.new result (lone_cell_at self.now t.next) }
    {
        let read = self.reader.lone_cell_at(t.next);
        let compared = self.emit_read(image, output, opcode::CAS, read);
        let Ok(
            Part {
                value: after_cell,
                next,
            },
        ) = compared
        else {
            return Err(compared.unwrap_err());
        };
        Ok(Part {
            value: relation::emit_relation(image, after_cell, t.kind),
            next,
        })
    }

    // After a condition's expression: a relation and its cell, or a test.
    pub(crate) fn comparison(&self, image: &mut [u16], output: Output, at: usize) -> Read<Guarded>
        ensures { Decides comparison_words self.now output image.old image.new result (comparison_at self.now at) }
    {
        let t = token_at(self.reader.source, at);
        if vocabulary::is_relation(t.kind) {
            return self.related(image, output, t);
        }
        if let Some(test) = vocabulary::test(t.kind) {
            return Ok(Part {
                value: relation::emit_test(image, output, test),
                next: t.next,
            });
        }
        Err(fail_at(t, Cause::NotAllowed))
    }
}
