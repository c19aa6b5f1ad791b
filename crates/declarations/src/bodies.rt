// The statements of a procedure and of the main body.
ghost use Rattle.layout.specs.Words.{stmts_words};
ghost use Rattle.grammar.specs.Statements.{parse_outermost};
ghost use Rattle.symbols.specs.Table.{live_names};
ghost use Rattle.emitter.specs.Emitted.{emitted_by, bases_of};
ghost use Rattle.expressions.specs.Compiles.{Compiles};

use cells::Reader;
use emitter::{Context, Output};
use expressions::Body;
use parser::Read;
use statements::statements;
use symbols::Names;

// The statements of a body, under the first so many names of a table.
pub(crate) fn statements_under(
    source: &[u8],
    table: &[u16],
    image: &mut [u16],
    names: usize,
    context: Context,
    output: Output,
    at: usize,
) -> Read<Output>
    ensures { Compiles (bases_of context) stmts_words (emitted_by output image.old) image.new result (parse_outermost source.now (live_names names table.now) at) }
{
    let body = Body {
        reader: Reader {
            source,
            names: Names {
                words: table,
                count: names,
            },
        },
        context,
    };
    statements(&body, image, output, at)
}
