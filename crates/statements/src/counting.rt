// The head of a `.FOR`: an integer or `#`, and its first value.
ghost use Rattle.statements.specs.Forms.{head_at, DoesHead};

use crate::assignment::{plain, set_x, store};
use emitter::Output;
use expressions::Body;
use parser::{Part, Read, refuse_at};
use source::kind::Kind;
use source::token_at;
use symbols::{Id, Symbol};

// What stands before a `.DO`: what it emits, and the integer that is counted.
#[derive(Clone, Copy, Debug)]
pub struct ForHead {
    pub output: Output,
    pub id: Id,
}

// What stands between `.FOR` and `.DO`.
pub fn for_head(
    body: &Body<'_>,
    image: &mut [u16],
    output: Output,
    at: usize,
    left: usize,
) -> Read<ForHead>
    ensures { DoesHead body.now output image.old image.new result (head_at body.now left at) }
{
    let t = token_at(body.reader.source, at);
    if t.kind == Kind::Hash {
        let read = set_x(body, image, output, t.next);
        let Ok(
            Part {
                value: output,
                next,
            },
        ) = read
        else {
            return Err(read.unwrap_err());
        };
        return Ok(Part {
            value: ForHead { output, id: Id::X },
            next,
        });
    }
    let symbol = body.reader.names.lookup_at(body.reader.source, at);
    let Symbol::Integer { id } = symbol else {
        return Err(refuse_at(body.reader.source, at));
    };
    let read = store(body, image, output, plain(id), t.next, left);
    let Ok(
        Part {
            value: output,
            next,
        },
    ) = read
    else {
        return Err(read.unwrap_err());
    };
    Ok(Part {
        value: ForHead { output, id },
        next,
    })
}
