// Assignments: to a cell, to the accumulator, and to X.
ghost use Rattle.std.specs.Prelude.{◌≡◌};
ghost use Rattle.layout.specs.Words.{expr_words};
ghost use Rattle.symbols.specs.Trees.{tree_array, tree_cell};
ghost use Rattle.expressions.specs.Compiles.{Does};
ghost use Rattle.statements.specs.Forms.{stored_words, loaded_words, Stated, value_at, load_at, element_at};

use emitter::{Output, emit_cell};
use expressions::Body;
use instruction::opcode;
use parser::{Part, Read, expect};
use source::kind::Kind;
use symbols::{Array, Cell, Id, Operand};

// `=` expression.
pub fn assigned(
    body: &Body<'_>,
    image: &mut [u16],
    output: Output,
    at: usize,
    left: usize,
) -> Read<Output>
    ensures { Does expr_words body.now output image.old image.new result (value_at body.now left at) }
{
    let equal = expect(body.reader.source, Kind::Equal, at);
    let Ok(Part { value: _, next }) = equal else {
        return Err(equal.unwrap_err());
    };
    body.expression(image, output, next, left)
}

// An integer as a cell.
pub fn plain(id: Id) -> Cell
    ensures { result ≡ Cell.Plain (Operand.Named id) }
{
    Cell::Plain {
        operand: Operand::Named { id },
    }
}

// `=` expression, stored in a cell (W12). Not inlined, nor `element`: see the head of lib.rt.
#[inline(never)]
pub fn store(
    body: &Body<'_>,
    image: &mut [u16],
    output: Output,
    cell: Cell,
    at: usize,
    left: usize,
) -> Read<Output>
    ensures { Does (stored_words (tree_cell cell)) body.now output image.old image.new result (value_at body.now left at) }
{
    let read = assigned(body, image, output, at, left);
    let Ok(Part { value, next }) = read else {
        return read;
    };
    Ok(Part {
        value: emit_cell(image, body.context, value, opcode::STA, cell),
        next,
    })
}

// An array element's subscript, then `=` expression.
#[inline(never)]
pub fn element(
    body: &Body<'_>,
    image: &mut [u16],
    output: Output,
    array: Array,
    at: usize,
    left: usize,
) -> Read<Output>
    ensures { Stated body.now output image.old image.new result (element_at body.now left (tree_array array) at) }
{
    let found = body.reader.subscript_at(at);
    let Ok(
        Part {
            value: subscript,
            next,
        },
    ) = found
    else {
        return Err(found.unwrap_err());
    };
    store(
        body,
        image,
        output,
        Cell::Item { array, subscript },
        next,
        left,
    )
}

// `=` cell, loaded to X (W12).
pub fn set_x(body: &Body<'_>, image: &mut [u16], output: Output, at: usize) -> Read<Output>
    ensures { Does loaded_words body.now output image.old image.new result (load_at body.now at) }
{
    let equal = expect(body.reader.source, Kind::Equal, at);
    let Ok(Part { value: _, next }) = equal else {
        return Err(equal.unwrap_err());
    };
    let found = body.reader.lone_cell_at(next);
    let Ok(Part { value: cell, next }) = found else {
        return Err(found.unwrap_err());
    };
    Ok(Part {
        value: emit_cell(image, body.context, output, opcode::LDX, cell),
        next,
    })
}
