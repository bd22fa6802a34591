// Rows whose lines are noted where they stand, and written when their block closes, in the table's order.
ghost use Rattle.std.specs.Prelude.{◌≡◌, ◌≤◌, ◌||◌, eqb, get_or};
ghost use Rattle.entries.specs.Shapes.{rest_in, sort_of, sort_opener, sort_opening};
ghost use Rattle.prints.specs.Printing.{Within};
ghost use Rattle.pens.specs.Noting.{note_of, notes_from, rows_in, part_table};
ghost use Rattle.pens.specs.Writing.{RestIs, RowAt, Opens, PrintsNoted, TellsInner, PrintsPart, PrintsSlot, PrintsRows};

use entries::shapes::shape_for;
use entries::{Rest, Shape};
use keywords::put_key;
use leaves::NoRoom;
use prints::rows::{put_plain, put_row};
use rules::Span;
use tables::lookup::row_of;
use tables::{
    HOLDS_BLOCK, HOLDS_TEXT, Row, TABLE_BASE, TABLE_DRAWING, TABLE_ELEC, TABLE_FILE, TABLE_LATER,
    TABLE_LAYER_TEXT, TABLE_PLACED, TABLE_PLACED_TEXT, TABLE_RANGE, TABLE_SYM, TABLE_SYMBOL_TEXT,
    TABLE_WIRE,
};

// What follows a line's key in one number, never 0: 65,536 is more than any place, and no line's key stands at the spool's first byte.
pub(crate) fn note_of(rest: Rest) -> u32
    ensures { result ≡ note_of rest }
{
    match rest {
        Rest::Equals(p) if p.at < 65536 && p.len < 65536 => p.at + 65536 * p.len,
        _ => 1,
    }
}

fn rest_of(row: Row, note: u32) -> Rest
    ensures { RestIs row note result }
{
    if row.kind == HOLDS_BLOCK {
        Rest::Brace
    } else {
        Rest::Equals(Span {
            at: note % 65536,
            len: note / 65536,
        })
    }
}

fn is_opening(shape: Shape) -> bool
    ensures { result ≡ (eqb (sort_of shape) sort_opener || eqb (sort_of shape) sort_opening) }
{
    match shape {
        Shape::Opener | Shape::Opening(_) => true,
        Shape::NoContent | Shape::Content(_) | Shape::Formless => false,
    }
}

// Does the line open an inner block?
pub(crate) fn opens(s: &[u8], row: Row, rest: Rest) -> bool
    ensures { Opens row (rest_in s.now rest) result }
{
    is_opening(shape_for(s, row.kind == HOLDS_TEXT, rest))
}

// Where the notes of a table's rows begin: FILE_FORMAT's parts one behind the other, a placed symbol's text behind it; a figure's text
// behind the symbol that it may stand in.
pub(crate) fn notes_from(table: u8) -> usize
    ensures { result ≡ notes_from table }
{
    match table {
        TABLE_RANGE => 16,
        TABLE_BASE => 22,
        TABLE_ELEC => 23,
        TABLE_SYM => 26,
        TABLE_LAYER_TEXT | TABLE_SYMBOL_TEXT => 4,
        TABLE_PLACED_TEXT | TABLE_WIRE => 6,
        _ => 0,
    }
}

// How many rows are noted. DRAWING_FORMAT's are those before `layer_name`, whose block is written at once.
fn rows_in(table: u8) -> u8
    ensures { result ≡ rows_in table }
{
    match table {
        TABLE_FILE => 16,
        TABLE_RANGE | TABLE_PLACED => 6,
        TABLE_BASE => 1,
        TABLE_ELEC => 3,
        TABLE_LATER => 5,
        TABLE_DRAWING => 7,
        _ => 2,
    }
}

// The table of an inner part, by the table of the part around all others.
fn part_table(base: u8, part: u8) -> u8
    ensures { result ≡ part_table base part }
{
    match (part, base) {
        (0, _) => base,
        (1, TABLE_FILE) => TABLE_RANGE,
        (2, TABLE_FILE) => TABLE_BASE,
        (3, TABLE_FILE) => TABLE_ELEC,
        (_, TABLE_FILE) => TABLE_SYM,
        _ => TABLE_PLACED_TEXT,
    }
}

// The note at a place, 0 where there is none.
pub(crate) fn note_at(notes: &[u32], i: usize) -> u32
    ensures { result ≡ get_or notes.now i 0 }
{
    notes.get(i).copied().unwrap_or_default()
}

// The row of a number. Its key is written where the row's line will be, and compared there.
fn row_at(table: u8, number: u8, out: &mut [u8]) -> Option<Row>
    ensures { RowAt table number out.old out.new result }
{
    let n = put_key(table, number, out).ok()?;
    row_of(table, &out[..n])
}

// One row, where it was noted.
pub(crate) fn put_noted(
    table: u8,
    number: u8,
    s: &[u8],
    note: u32,
    out: &mut [u8],
) -> Result<usize, NoRoom>
    ensures { Within out.old out.new result × PrintsNoted s.now table number note out.old out.new result }
{
    if note == 0 {
        return Ok(0);
    }
    let row = row_at(table, number, out).ok_or(NoRoom)?;
    put_row(table, row, s, rest_of(row, note), out)
}

// The number of no table: what opens no inner part has none.
const NO_TABLE: u8 = 255;

// The table of the inner part that a noted row opens.
fn inner_table(base: u8, table: u8, number: u8, s: &[u8], note: u32, out: &mut [u8]) -> u8
    ensures { TellsInner s.now base table number note out.old out.new result }
{
    if note == 0 {
        return NO_TABLE;
    }
    match row_at(table, number, out) {
        Some(row) if opens(s, row, rest_of(row, note)) => part_table(base, row.inner),
        _ => NO_TABLE,
    }
}

// The inner part of a table and its `}`; nothing where there is no table.
#[cycle(parts)]
pub(crate) fn put_part(
    depth: u8,
    base: u8,
    inner: u8,
    s: &[u8],
    notes: &[u32],
    out: &mut [u8],
) -> Result<usize, NoRoom>
    requires { depth ≤ 3 }
    ensures { Within out.old out.new result × PrintsPart s.now depth base inner notes.now out.old out.new result }
{
    if inner == NO_TABLE {
        return Ok(0);
    }
    let n = put_rows(depth, base, inner, 0, s, notes, out)?;
    Ok(n + put_plain(b"}", &mut out[n..])?)
}

// The row of number j, and the inner part that it opens.
#[cycle(parts)]
fn put_slot(
    depth: u8,
    base: u8,
    table: u8,
    j: u8,
    s: &[u8],
    notes: &[u32],
    out: &mut [u8],
) -> Result<usize, NoRoom>
    requires { depth ≤ 3 }
    ensures { Within out.old out.new result × PrintsSlot s.now depth base table j notes.now out.old out.new result }
{
    let note = note_at(notes, notes_from(table) + j as usize);
    let inner = inner_table(base, table, j, s, note, out);
    let n = put_noted(table, j, s, note, out)?;
    Ok(n + put_part(depth, base, inner, s, notes, &mut out[n..])?)
}

// The rows of a part from number j on, each inner part and its `}` behind the line that opens it; at most `depth` parts are in each other.
#[cycle(parts)]
pub(crate) fn put_rows(
    depth: u8,
    base: u8,
    table: u8,
    j: u8,
    s: &[u8],
    notes: &[u32],
    out: &mut [u8],
) -> Result<usize, NoRoom>
    requires { (depth ≤ 3) × (j ≤ 16) }
    ensures { Within out.old out.new result × PrintsRows s.now depth base table j notes.now out.old out.new result }
{
    if depth == 0 || rows_in(table) <= j {
        return Ok(0);
    }
    let n = put_slot(depth - 1, base, table, j, s, notes, out)?;
    Ok(n + put_rows(depth, base, table, j + 1, s, notes, &mut out[n..])?)
}
