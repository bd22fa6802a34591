// A line with a key: written at once, or noted till its block closes.
ghost use Rattle.std.specs.Prelude.{◌≡◌, ◌+◌, length, set};
ghost use Rattle.rules.specs.Rows.{inner_of};
ghost use Rattle.tables.specs.Rows.{kind_of};
ghost use Rattle.pens.specs.Texts.{Safe};
ghost use Rattle.pens.specs.Moves.{moved, begun, among_figures, is_element, figure_block, file_table_of, figure_table_of, table_for};
ghost use Rattle.pens.specs.Noting.{note_of, notes_from, figure_notes};
ghost use Rattle.pens.specs.Keys.{is_brace, NamedLine};
ghost use Rattle.pens.specs.KeyWriting.{Kept, DrawsRow, RowDone, KeyOrName};
ghost use Rattle.account.specs.Numbering.{block_top, block_file, block_drawing, block_defines, block_symbol, block_figures, block_placed, block_wire, most_rows};

use crate::Pen;
use crate::groups::ROW_DIREC;
use crate::noted::{note_of, notes_from, opens};
use crate::places::{among_figures, at_block, begun, by_home, forget};
use account::{
    BLOCK_CHAIN, BLOCK_DEFINES, BLOCK_DRAWING, BLOCK_ELEMENTS, BLOCK_FIGURES, BLOCK_FILE,
    BLOCK_HIDE, BLOCK_LAYER_NAMES, BLOCK_PLACED, BLOCK_SYMBOL, BLOCK_TEXT, BLOCK_TOP, BLOCK_WIRE,
    INNER_WIRE,
};
use entries::Rest;
use entries::names::part;
use leaves::NoRoom;
use prints::rows::{put_named, put_row};
use rules::Span;
use tables::lookup::row_of;
use tables::{
    HOLDS_BLOCK, Row, TABLE_BASE, TABLE_DEFINES, TABLE_DRAWING, TABLE_ELEC, TABLE_ELEMENT,
    TABLE_FIGURES, TABLE_FILE, TABLE_LATER, TABLE_LAYER_POINTS, TABLE_LAYER_TEXT, TABLE_PLACED,
    TABLE_PLACED_TEXT, TABLE_RANGE, TABLE_SINGLE_WIRED_LAYER, TABLE_SYM, TABLE_SYMBOL,
    TABLE_SYMBOL_POINTS, TABLE_SYMBOL_TEXT, TABLE_TOP, TABLE_WIRE, TABLE_WIRED_LAYER,
};

// A line of the spool s with a key, by its row in the table of the open block, and what follows the key.
#[derive(Clone, Copy)]
struct Line<'a> {
    table: u8,
    row: Row,
    s: &'a [u8],
    rest: Rest,
}

fn is_brace(rest: Rest) -> bool
    ensures { result ≡ is_brace rest }
{
    matches!(rest, Rest::Brace)
}

// The table of the figures: in a layer a placed symbol is a block, or one line. The tables with wires do for a set without: it has no line
// of theirs, and the other rows are the same.
fn figure_table(layered: bool, rest: Rest) -> u8
    ensures { result ≡ figure_table_of layered (is_brace rest) }
{
    match (layered, rest) {
        (false, _) => TABLE_FIGURES,
        (true, Rest::Brace) => TABLE_WIRED_LAYER,
        (true, Rest::Equals(_)) => TABLE_SINGLE_WIRED_LAYER,
    }
}

// The table of FILE_FORMAT's open part; the volumes behind the first have no inner parts.
pub(crate) fn file_table(first: bool, part: u8) -> u8
    ensures { result ≡ file_table_of first part }
{
    match (first, part) {
        (false, _) => TABLE_LATER,
        (true, 0) => TABLE_FILE,
        (true, 1) => TABLE_RANGE,
        (true, 2) => TABLE_BASE,
        (true, 3) => TABLE_ELEC,
        (true, _) => TABLE_SYM,
    }
}

// The table of the block that is open.
fn table_of(first: bool, pen: Pen, rest: Rest) -> u8
    ensures { result ≡ table_for first pen (is_brace rest) }
{
    match (pen.block, pen.part) {
        (BLOCK_FIGURES, _) => figure_table(pen.layered, rest),
        (BLOCK_CHAIN, _) => by_home(pen.layered, TABLE_LAYER_POINTS, TABLE_SYMBOL_POINTS),
        (BLOCK_WIRE, 0) => TABLE_WIRE,
        (BLOCK_WIRE, _) => TABLE_LAYER_TEXT,
        (BLOCK_TEXT, _) => by_home(pen.layered, TABLE_LAYER_TEXT, TABLE_SYMBOL_TEXT),
        (BLOCK_PLACED, 0) => TABLE_PLACED,
        (BLOCK_PLACED, _) => TABLE_PLACED_TEXT,
        (BLOCK_TOP, _) => TABLE_TOP,
        (BLOCK_FILE, part) => file_table(first, part),
        (BLOCK_DRAWING, _) => TABLE_DRAWING,
        (BLOCK_DEFINES, _) => TABLE_DEFINES,
        (BLOCK_SYMBOL, _) => TABLE_SYMBOL,
        (BLOCK_HIDE, _) => TABLE_SYMBOL_POINTS,
        _ => TABLE_ELEMENT,
    }
}

// A line that is written at once, and the block that is open behind it. The next two differ in the pen behind the line alone: a closure for it
// would ask for two clauses more, and each has two lines.
fn put_at_once(line: &Line<'_>, pen: Pen, block: u8, out: &mut [u8]) -> Result<Pen, NoRoom>
    requires { Safe pen out.old }
    ensures { Kept out.old out.new result × DrawsRow line.now.table line.now.row line.now.s.now line.now.rest pen (λ n. moved pen n block 0) out.old out.new result }
{
    let n = put_row(line.table, line.row, line.s, line.rest, &mut out[pen.at..])?;
    Ok(at_block(pen, n, block, 0))
}

// A line that opens a block whose inner lines are written before its own.
fn put_begun(line: &Line<'_>, pen: Pen, block: u8, out: &mut [u8]) -> Result<Pen, NoRoom>
    requires { Safe pen out.old }
    ensures { Kept out.old out.new result × DrawsRow line.now.table line.now.row line.now.s.now line.now.rest pen (λ n. begun pen n block) out.old out.new result }
{
    let n = put_row(line.table, line.row, line.s, line.rest, &mut out[pen.at..])?;
    Ok(begun(pen, n, block))
}

// A line behind which figures stand.
fn put_figures(line: &Line<'_>, pen: Pen, layered: bool, out: &mut [u8]) -> Result<Pen, NoRoom>
    requires { Safe pen out.old }
    ensures { Kept out.old out.new result × DrawsRow line.now.table line.now.row line.now.s.now line.now.rest pen (λ n. among_figures pen n layered) out.old out.new result }
{
    let n = put_row(line.table, line.row, line.s, line.rest, &mut out[pen.at..])?;
    Ok(among_figures(pen, n, layered))
}

// A row's line noted.
fn note(line: &Line<'_>, notes: &mut [u32])
    ensures { notes.new ≡ set notes.old (notes_from line.now.table + line.now.row.number) (note_of line.now.rest) }
{
    // by its index: of what get_mut lends, a proof learns no other note
    let i = notes_from(line.table) + line.row.number as usize;
    if i < notes.len() {
        notes[i] = note_of(line.rest);
    }
}

fn key_top(line: &Line<'_>, pen: Pen, notes: &mut [u32], out: &mut [u8]) -> Result<Pen, NoRoom>
    requires { Safe pen out.old × (pen.block ≡ block_top) }
    ensures { Kept out.old out.new result × (length notes.new ≡ length notes.old) × RowDone line.now.table line.now.row line.now.s.now line.now.rest pen notes.old notes.new out.old out.new result }
{
    forget(notes);
    match line.row.number {
        0 => put_at_once(line, pen, BLOCK_FILE, out),
        1 => put_begun(line, pen, BLOCK_DRAWING, out),
        2 => put_at_once(line, pen, BLOCK_DEFINES, out),
        _ => put_at_once(line, pen, BLOCK_ELEMENTS, out),
    }
}

fn key_file(line: &Line<'_>, pen: Pen, notes: &mut [u32], out: &[u8]) -> Result<Pen, NoRoom>
    requires { Safe pen out.now × (pen.block ≡ block_file) }
    ensures { Kept out.now out.now result × (length notes.new ≡ length notes.old) × RowDone line.now.table line.now.row line.now.s.now line.now.rest pen notes.old notes.new out.now out.now result }
{
    note(line, notes);
    if opens(line.s, line.row, line.rest) {
        return Ok(at_block(pen, 0, BLOCK_FILE, line.row.inner));
    }
    Ok(pen)
}

// The row of DRAWING_FORMAT that opens a block.
const ROW_LAYER_NAME: u8 = 7;

fn key_drawing(line: &Line<'_>, pen: Pen, notes: &mut [u32], out: &mut [u8]) -> Result<Pen, NoRoom>
    requires { Safe pen out.old × (pen.block ≡ block_drawing) }
    ensures { Kept out.old out.new result × (length notes.new ≡ length notes.old) × RowDone line.now.table line.now.row line.now.s.now line.now.rest pen notes.old notes.new out.old out.new result }
{
    if line.row.number == ROW_LAYER_NAME {
        return put_at_once(line, pen, BLOCK_LAYER_NAMES, out);
    }
    note(line, notes);
    Ok(pen)
}

fn key_names(key: Span, s: &[u8], rest: Rest, pen: Pen, out: &mut [u8]) -> Result<Pen, NoRoom>
    requires { Safe pen out.old }
    ensures { Kept out.old out.new result × NamedLine s.now key rest pen out.old out.new result }
{
    let n = put_named(s, key, rest, &mut out[pen.at..])?;
    Ok(at_block(pen, n, BLOCK_LAYER_NAMES, 0))
}

fn key_defines(line: &Line<'_>, pen: Pen, notes: &mut [u32], out: &mut [u8]) -> Result<Pen, NoRoom>
    requires { Safe pen out.old × (pen.block ≡ block_defines) }
    ensures { Kept out.old out.new result × (length notes.new ≡ length notes.old) × RowDone line.now.table line.now.row line.now.s.now line.now.rest pen notes.old notes.new out.old out.new result }
{
    if line.row.number == 0 {
        return put_at_once(line, pen, BLOCK_DEFINES, out);
    }
    forget(notes);
    put_begun(line, pen, BLOCK_SYMBOL, out)
}

fn key_symbol(line: &Line<'_>, pen: Pen, notes: &mut [u32], out: &mut [u8]) -> Result<Pen, NoRoom>
    requires { Safe pen out.old × (pen.block ≡ block_symbol) }
    ensures { Kept out.old out.new result × (length notes.new ≡ length notes.old) × RowDone line.now.table line.now.row line.now.s.now line.now.rest pen notes.old notes.new out.old out.new result }
{
    match line.row.number {
        1 => put_figures(line, pen, false, out),
        2 => put_at_once(line, pen, BLOCK_HIDE, out),
        _ => {
            note(line, notes);
            Ok(pen)
        }
    }
}

// The block that a figure opens, or that of the figures where it is a line.
fn figure_block(row: Row) -> u8
    ensures { result ≡ figure_block (kind_of row) (inner_of (kind_of row)) }
{
    if row.kind != HOLDS_BLOCK {
        return BLOCK_FIGURES;
    }
    match row.inner {
        1 => BLOCK_CHAIN,
        2 => BLOCK_TEXT,
        INNER_WIRE => BLOCK_WIRE,
        _ => BLOCK_PLACED,
    }
}

// A text, a placed symbol or a wire has no notes yet.
fn forget_for(block: u8, notes: &mut [u32])
    requires { length notes.old ≡ most_rows }
    ensures { notes.new ≡ figure_notes block notes.old }
{
    match block {
        BLOCK_PLACED | BLOCK_WIRE => forget(notes),
        BLOCK_TEXT => {
            notes[4] = 0;
            notes[5] = 0;
        }
        _ => {}
    }
}

fn key_figures(line: &Line<'_>, pen: Pen, notes: &mut [u32], out: &mut [u8]) -> Result<Pen, NoRoom>
    requires { Safe pen out.old × (pen.block ≡ block_figures) × (length notes.old ≡ most_rows) }
    ensures { Kept out.old out.new result × (length notes.new ≡ length notes.old) × RowDone line.now.table line.now.row line.now.s.now line.now.rest pen notes.old notes.new out.old out.new result }
{
    let block = figure_block(line.row);
    forget_for(block, notes);
    put_at_once(line, pen, block, out)
}

fn key_placed(line: &Line<'_>, pen: Pen, notes: &mut [u32], out: &[u8]) -> Result<Pen, NoRoom>
    requires { Safe pen out.now × (pen.block ≡ block_placed) }
    ensures { Kept out.now out.now result × (length notes.new ≡ length notes.old) × RowDone line.now.table line.now.row line.now.s.now line.now.rest pen notes.old notes.new out.now out.now result }
{
    note(line, notes);
    if line.row.kind == HOLDS_BLOCK {
        return Ok(at_block(pen, 0, BLOCK_PLACED, 1));
    }
    Ok(pen)
}

// An element is written at once.
fn at_once_in_wire(pen: Pen, row: Row) -> bool
    ensures { result ≡ is_element pen.part row.number }
{
    pen.part == 0 && row.number < ROW_DIREC
}

// Of other rows it is noted that they stand there: the lines of those that repeat, and of the wire's texts, are found again when it closes.
fn key_wire(line: &Line<'_>, pen: Pen, notes: &mut [u32], out: &mut [u8]) -> Result<Pen, NoRoom>
    requires { Safe pen out.old × (pen.block ≡ block_wire) }
    ensures { Kept out.old out.new result × (length notes.new ≡ length notes.old) × RowDone line.now.table line.now.row line.now.s.now line.now.rest pen notes.old notes.new out.old out.new result }
{
    if at_once_in_wire(pen, line.row) {
        return put_at_once(line, pen, BLOCK_WIRE, out);
    }
    note(line, notes);
    if line.row.kind == HOLDS_BLOCK {
        return Ok(at_block(pen, 0, BLOCK_WIRE, 1));
    }
    Ok(pen)
}

// A line with a key whose row was found, in any block but `layer_name`.
fn row_line(line: &Line<'_>, pen: Pen, notes: &mut [u32], out: &mut [u8]) -> Result<Pen, NoRoom>
    requires { Safe pen out.old × (length notes.old ≡ most_rows) }
    ensures { Kept out.old out.new result × (length notes.new ≡ length notes.old) × RowDone line.now.table line.now.row line.now.s.now line.now.rest pen notes.old notes.new out.old out.new result }
{
    match pen.block {
        BLOCK_FIGURES => key_figures(line, pen, notes, out),
        BLOCK_CHAIN => put_at_once(line, pen, BLOCK_CHAIN, out),
        BLOCK_WIRE => key_wire(line, pen, notes, out),
        BLOCK_TEXT => {
            note(line, notes);
            Ok(pen)
        }
        BLOCK_PLACED => key_placed(line, pen, notes, out),
        BLOCK_TOP => key_top(line, pen, notes, out),
        BLOCK_FILE => key_file(line, pen, notes, out),
        BLOCK_DRAWING => key_drawing(line, pen, notes, out),
        BLOCK_DEFINES => key_defines(line, pen, notes, out),
        BLOCK_SYMBOL => key_symbol(line, pen, notes, out),
        BLOCK_HIDE => put_at_once(line, pen, BLOCK_HIDE, out),
        _ => put_figures(line, pen, true, out),
    }
}

pub fn on_key(
    s: &[u8],
    first: bool,
    key: Span,
    rest: Rest,
    pen: Pen,
    notes: &mut [u32],
    out: &mut [u8],
) -> Result<Pen, NoRoom>
    requires { Safe pen out.old × (length notes.old ≡ most_rows) }
    ensures { Kept out.old out.new result × (length notes.new ≡ most_rows) × KeyOrName s.now first key rest pen notes.old notes.new out.old out.new result }
{
    if pen.block == BLOCK_LAYER_NAMES {
        return key_names(key, s, rest, pen, out);
    }
    let table = table_of(first, pen, rest);
    match row_of(table, part(s, key)) {
        None => Ok(pen),
        Some(row) => {
            let line = Line {
                table,
                row,
                s,
                rest,
            };
            row_line(&line, pen, notes, out)
        }
    }
}
