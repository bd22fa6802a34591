// A wire's keys behind its elements. "several of one key in the order written": when the wire closes, its lines are gone over once for each
// key that repeats and stands in it, from the line behind its opener to its `}`. Notes cannot hold any number of lines, and lines that are
// moved in the output one by one would take a time that grows with the square of their number.
ghost use Rattle.std.specs.Prelude.{◌≡◌, ◌≤◌};
ghost use Rattle.prints.specs.Printing.{Within};
ghost use Rattle.pens.specs.Groups.{no_text, noted_row, is_close, rest_here, FoundUnder, FoundHere, opened_behind, is_over};
ghost use Rattle.pens.specs.Groups.{PrintsText, PrintsOwn, PrintsShut, PrintsLine, PrintsPass, PrintsLines, PrintsKeys};

use crate::noted::{note_at, note_of, notes_from, put_noted, put_part};
use account::ROWS_WIRE;
use entries::Rest;
use entries::names::part;
use leaves::NoRoom;
use lines::forms::look;
use prints::rows::put_row;
use rules::{LineForm, Span};
use tables::lookup::row_of;
use tables::{Row, TABLE_LAYER_TEXT, TABLE_WIRE};

// Rows of the wire's table: the first that is no element, and the last that repeats, its text.
pub(crate) const ROW_DIREC: u8 = 2;

const ROW_TEXT: u8 = 5;

// What is open where a pass over a wire's lines is: the wire alone, or a text in it, with the notes of that text's two rows.
#[derive(Clone, Copy)]
struct Opened {
    text: bool,
    first: u32,
    second: u32,
}

fn no_text() -> Opened
    ensures { result ≡ no_text }
{
    Opened {
        text: false,
        first: 0,
        second: 0,
    }
}

// ── a line ──
fn row_under(s: &[u8], amid: Opened, key: Span) -> Option<Row>
    ensures { FoundUnder s.now amid key result }
{
    let table = if amid.text {
        TABLE_LAYER_TEXT
    } else {
        TABLE_WIRE
    };
    row_of(table, part(s, key))
}

// The row of a line that has a key.
fn row_here(s: &[u8], amid: Opened, form: LineForm) -> Option<Row>
    ensures { FoundHere s.now amid form result }
{
    match form {
        LineForm::Opens(o) => row_under(s, amid, o.key),
        LineForm::Equals(q) => row_under(s, amid, q.key),
        _ => None,
    }
}

// What follows its key.
fn rest_here(form: LineForm) -> Rest
    ensures { result ≡ rest_here form }
{
    match form {
        LineForm::Equals(q) => Rest::Equals(q.rest),
        _ => Rest::Brace,
    }
}

fn is_close(form: LineForm) -> bool
    ensures { result ≡ is_close form }
{
    matches!(form, LineForm::Close)
}

// The wire's own `}`.
fn is_over(amid: Opened, form: LineForm) -> bool
    ensures { result ≡ is_over amid form }
{
    is_close(form) && !amid.text
}

// A row of the text that is open, noted.
fn noted_row(amid: Opened, number: u8, note: u32) -> Opened
    ensures { result ≡ noted_row amid number note }
{
    if number == 0 {
        Opened {
            text: true,
            first: note,
            ..amid
        }
    } else {
        Opened {
            text: true,
            second: note,
            ..amid
        }
    }
}

// What is open behind a line.
fn opened_behind(amid: Opened, form: LineForm, found: Option<Row>) -> Opened
    ensures { result ≡ opened_behind amid form found }
{
    if is_close(form) {
        return no_text();
    }
    let Some(row) = found else {
        return amid;
    };
    if amid.text {
        return noted_row(amid, row.number, note_of(rest_here(form)));
    }
    Opened {
        text: row.number == ROW_TEXT,
        first: 0,
        second: 0,
    }
}

// ── what a pass for the row of number j writes ──
// The rows of the text that is open, and its `}`.
fn put_text(s: &[u8], amid: Opened, out: &mut [u8]) -> Result<usize, NoRoom>
    ensures { Within out.old out.new result × PrintsText s.now amid out.old out.new result }
{
    let notes = [0, 0, 0, 0, amid.first, amid.second];
    put_part(3, TABLE_LAYER_TEXT, TABLE_LAYER_TEXT, s, &notes, out)
}

// Of a line with a key.
fn put_own(
    s: &[u8],
    j: u8,
    amid: Opened,
    row: Row,
    rest: Rest,
    out: &mut [u8],
) -> Result<usize, NoRoom>
    ensures { Within out.old out.new result × PrintsOwn s.now j amid row rest out.old out.new result }
{
    if amid.text || row.number != j {
        return Ok(0);
    }
    put_row(TABLE_WIRE, row, s, rest, out)
}

// Of a `}`.
fn put_shut(s: &[u8], j: u8, amid: Opened, out: &mut [u8]) -> Result<usize, NoRoom>
    ensures { Within out.old out.new result × PrintsShut s.now j amid out.old out.new result }
{
    if !amid.text || j != ROW_TEXT {
        return Ok(0);
    }
    put_text(s, amid, out)
}

fn put_line(
    s: &[u8],
    j: u8,
    amid: Opened,
    form: LineForm,
    found: Option<Row>,
    out: &mut [u8],
) -> Result<usize, NoRoom>
    ensures { Within out.old out.new result × PrintsLine s.now j amid form found out.old out.new result }
{
    if is_close(form) {
        return put_shut(s, j, amid, out);
    }
    let Some(row) = found else {
        return Ok(0);
    };
    put_own(s, j, amid, row, rest_here(form), out)
}

// All lines of that row, of the wire whose first line behind the opener stands at the place `from`.
fn put_pass(
    s: &[u8],
    body: &[u8],
    start: u32,
    from: u32,
    j: u8,
    out: &mut [u8],
) -> Result<usize, NoRoom>
    ensures { Within out.old out.new result × PrintsPass s.now body.now start from j out.old out.new result }
{
    let mut amid = no_text();
    let mut at = from;
    let mut n = 0;
    'lines: while let Some(seen) = look(body, start, at, 1, 1) {
        let form = seen.form;
        let found = row_here(s, amid, form);
        n += put_line(s, j, amid, form, found, &mut out[n..])?;
        if is_over(amid, form) {
            return Ok(n);
        }
        amid = opened_behind(amid, form, found);
        at = seen.next;
    }
    Ok(n)
}

// ── keys ──
// All lines of the row of number j, where it was noted.
fn put_lines(
    s: &[u8],
    body: &[u8],
    start: u32,
    from: u32,
    j: u8,
    notes: &[u32],
    out: &mut [u8],
) -> Result<usize, NoRoom>
    ensures { Within out.old out.new result × PrintsLines s.now body.now start from j notes.now out.old out.new result }
{
    let note = note_at(notes, notes_from(TABLE_WIRE) + j as usize);
    if note == 0 {
        return Ok(0);
    }
    if j <= ROW_TEXT {
        return put_pass(s, body, start, from, j, out);
    }
    put_noted(TABLE_WIRE, j, s, note, out)
}

// All rows behind the elements, in the order of the wire's table.
pub(crate) fn put_keys(
    s: &[u8],
    body: &[u8],
    start: u32,
    from: u32,
    notes: &[u32],
    out: &mut [u8],
) -> Result<usize, NoRoom>
    ensures { Within out.old out.new result × PrintsKeys s.now body.now start from notes.now out.old out.new result }
{
    let mut n = 0;
    for j in ROW_DIREC..ROWS_WIRE as u8 {
        n += put_lines(s, body, start, from, j, notes, &mut out[n..])?;
    }
    Ok(n)
}
