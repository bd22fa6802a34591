// A line `}`: what was noted is written, and the block closed.
ghost use Rattle.std.specs.Prelude.{◌≡◌, true, ◌≤◌, ◌++◌, length, drop, take};
ghost use Rattle.rules.specs.Blocks.{around};
ghost use Rattle.pens.specs.Texts.{Safe};
ghost use Rattle.pens.specs.Closing.{Shuts, ShutsRows, ShutsDrawing, ShutsSymbol, ShutsWire, around_block, in_part, part_closed, CloseDone, WireDone};
ghost use Rattle.pens.specs.Writing.{noted_base};
ghost use Rattle.pens.specs.KeyWriting.{Kept};
ghost use Rattle.account.specs.Numbering.{most_rows};

use crate::Pen;
use crate::groups::put_keys;
use crate::keys::file_table;
use crate::noted::{put_noted, put_rows};
use crate::places::{at_block, by_home};
use account::{
    BLOCK_CHAIN, BLOCK_DEFINES, BLOCK_DRAWING, BLOCK_ELEMENTS, BLOCK_FIGURES, BLOCK_FILE,
    BLOCK_HIDE, BLOCK_LAYER_NAMES, BLOCK_PLACED, BLOCK_SYMBOL, BLOCK_TEXT, BLOCK_TOP, BLOCK_WIRE,
};
use leaves::NoRoom;
use prints::rows::put_plain;
use tables::{TABLE_DRAWING, TABLE_LAYER_TEXT, TABLE_PLACED, TABLE_SYMBOL, TABLE_SYMBOL_TEXT};

// The `}`, with which another block is open.
fn shut(pen: Pen, block: u8, out: &mut [u8]) -> Result<Pen, NoRoom>
    requires { Safe pen out.old }
    ensures { Kept out.old out.new result × Shuts pen block out.old out.new result }
{
    let n = put_plain(b"}", &mut out[pen.at..])?;
    Ok(at_block(pen, n, block, 0))
}

// The noted rows of a block, and its `}`.
fn close_rows(
    base: u8,
    s: &[u8],
    pen: Pen,
    block: u8,
    notes: &[u32],
    out: &mut [u8],
) -> Result<Pen, NoRoom>
    requires { Safe pen out.old × (noted_base base ≡ true) }
    ensures { Kept out.old out.new result × ShutsRows s.now base pen block notes.now out.old out.new result }
{
    let n = put_rows(3, base, base, 0, s, notes, &mut out[pen.at..])?;
    shut(at_block(pen, n, block, 0), block, out)
}

// The part around an inner part: FILE_FORMAT around `range`, `range` around the others.
fn around(part: u8) -> u8
    requires { 1 ≤ part }
    ensures { result ≡ around part }
{
    if part == 1 { 0 } else { 1 }
}

// Two neighbouring parts of the output exchanged in place: what stands from n on comes first. Each part is turned round, then the whole.
// (`rotate_left` is not in place: one part, up to 4,096 bytes of lines, waits in an array on the stack.)
fn exchange(t: &mut [u8], n: usize)
    requires { n ≤ length t.old }
    ensures { t.new ≡ drop n t.old ++ take n t.old }
{
    t[..n].reverse();
    t[n..].reverse();
    t.reverse();
}

// DRAWING_FORMAT's rows come before `layer_name`, which is written already.
fn close_drawing(s: &[u8], pen: Pen, notes: &[u32], out: &mut [u8]) -> Result<Pen, NoRoom>
    requires { Safe pen out.old }
    ensures { Kept out.old out.new result × ShutsDrawing s.now pen notes.now out.old out.new result }
{
    let from = pen.start;
    let middle = pen.at;
    let n = put_rows(
        1,
        TABLE_DRAWING,
        TABLE_DRAWING,
        0,
        s,
        notes,
        &mut out[middle..],
    )?;
    let to = middle + n;
    exchange(&mut out[from..to], middle - from);
    shut(at_block(pen, n, BLOCK_DRAWING, 0), BLOCK_TOP, out)
}

// A symbol's name comes before its `element` and `hide`, which are written already, and `wall` behind them.
fn close_symbol(s: &[u8], pen: Pen, notes: &[u32], out: &mut [u8]) -> Result<Pen, NoRoom>
    requires { Safe pen out.old × (length notes.now ≡ most_rows) }
    ensures { Kept out.old out.new result × ShutsSymbol s.now pen notes.now out.old out.new result }
{
    let from = pen.start;
    let middle = pen.at;
    let n = put_noted(TABLE_SYMBOL, 0, s, notes[0], &mut out[middle..])?;
    let to = middle + n;
    exchange(&mut out[from..to], middle - from);
    let m = put_noted(TABLE_SYMBOL, 3, s, notes[3], &mut out[to..])?;
    shut(at_block(pen, n + m, BLOCK_SYMBOL, 0), BLOCK_DEFINES, out)
}

// A wire's elements are written already, and its other rows come behind them.
fn close_wire(
    s: &[u8],
    body: &[u8],
    start: u32,
    from: u32,
    pen: Pen,
    notes: &[u32],
    out: &mut [u8],
) -> Result<Pen, NoRoom>
    requires { Safe pen out.old }
    ensures { Kept out.old out.new result × ShutsWire s.now body.now start from pen notes.now out.old out.new result }
{
    let n = put_keys(s, body, start, from, notes, &mut out[pen.at..])?;
    shut(at_block(pen, n, BLOCK_WIRE, 0), BLOCK_FIGURES, out)
}

// The block around one whose `}` is all that is written.
fn around_block(pen: Pen) -> u8
    ensures { result ≡ around_block pen }
{
    match pen.block {
        BLOCK_FIGURES => by_home(pen.layered, BLOCK_ELEMENTS, BLOCK_SYMBOL),
        BLOCK_CHAIN => BLOCK_FIGURES,
        BLOCK_LAYER_NAMES => BLOCK_DRAWING,
        BLOCK_HIDE => BLOCK_SYMBOL,
        _ => BLOCK_TOP,
    }
}

// An inner part of FILE_FORMAT, of a placed symbol or of a wire closes: nothing is written.
fn in_part(pen: Pen) -> bool
    ensures { result ≡ in_part pen }
{
    pen.part != 0 && matches!(pen.block, BLOCK_FILE | BLOCK_WIRE | BLOCK_PLACED)
}

fn part_closed(pen: Pen) -> Pen
    requires { in_part pen ≡ true }
    ensures { result ≡ part_closed pen }
{
    match pen.block {
        BLOCK_FILE => at_block(pen, 0, BLOCK_FILE, around(pen.part)),
        block => at_block(pen, 0, block, 0),
    }
}

// A line `}` in the volume that is the part `body` of the spool from `start` on; from: the place of the line behind the opener of the wire
// that is open.
pub fn on_close(
    s: &[u8],
    body: &[u8],
    start: u32,
    from: u32,
    first: bool,
    pen: Pen,
    notes: &[u32],
    out: &mut [u8],
) -> Result<Pen, NoRoom>
    requires { Safe pen out.old × (length notes.now ≡ most_rows) }
    ensures { Kept out.old out.new result × CloseDone s.now first pen notes.now out.old out.new result × WireDone s.now body.now start from pen notes.now out.old out.new result }
{
    if in_part(pen) {
        return Ok(part_closed(pen));
    }
    match pen.block {
        BLOCK_TEXT => close_rows(
            by_home(pen.layered, TABLE_LAYER_TEXT, TABLE_SYMBOL_TEXT),
            s,
            pen,
            BLOCK_FIGURES,
            notes,
            out,
        ),
        BLOCK_PLACED => close_rows(TABLE_PLACED, s, pen, BLOCK_FIGURES, notes, out),
        BLOCK_WIRE => close_wire(s, body, start, from, pen, notes, out),
        BLOCK_FILE => close_rows(file_table(first, 0), s, pen, BLOCK_TOP, notes, out),
        BLOCK_DRAWING => close_drawing(s, pen, notes, out),
        BLOCK_SYMBOL => close_symbol(s, pen, notes, out),
        _ => shut(pen, around_block(pen), out),
    }
}
