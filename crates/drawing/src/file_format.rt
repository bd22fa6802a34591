// FILE_FORMAT, and the parts of `range` in it.
ghost use Rattle.std.specs.Prelude.{◌≡◌, map, ◌≤◌, length};
ghost use Rattle.rules.specs.Base.{same};
ghost use Rattle.rules.specs.Lines.{form_in};
ghost use Rattle.rules.specs.RangeClass.{digits};
ghost use Rattle.rules.specs.Values.{capital};
ghost use Rattle.rules.specs.Rows.{act};
ghost use Rattle.rules.specs.Blocks.{around};
ghost use Rattle.tables.specs.Tables.{table_of};
ghost use Rattle.entries.specs.Names.{known_in};
ghost use Rattle.account.specs.FileLines.{file_table_of, marks_from, marks_to, part_marks, Header, kept_name, kept_in, dated_as, ranges_tally, set_tally, wires_tally, here_tally, first_tally, later_tally, FileClosed, FileReady, FileLine};
ghost use Rattle.account.specs.Numbering.{tally_length, header_length};

use account::{
    BLOCK_FILE, BLOCK_TOP, HEADER_ALL, HEADER_ARC, HEADER_DATE, HEADER_DEFINE_RANGE, HEADER_HERE,
    HEADER_LAST, HEADER_LAST_LENGTH, HEADER_LATER_DATE, HEADER_LATER_HERE, HEADER_LATER_TIME,
    HEADER_NEXT_FILE, HEADER_NEXT_FILE_LENGTH, HEADER_SYMBOL_RANGE, HEADER_TIME, HEADER_WIRE_RANGE,
    INNER_ELEC, INNER_NONE, MARKS_BASE, MARKS_ELEC, MARKS_RANGE, MARKS_SYM, MOST_ROWS, Now,
    ROW_LATER_DATE, ROW_LATER_NEXT_FILE, ROW_LATER_TIME, ROW_NEXT_FILE, ROW_WIRE_RANGE, ROWS_FILE,
    ROWS_LATER, Step, TALLY_ALL, TALLY_ARC, TALLY_DATE, TALLY_DEFINE_RANGE, TALLY_ELEMENTS_HERE,
    TALLY_HERE, TALLY_SYMBOL_RANGE, TALLY_TIME, TALLY_WIRE_RANGE, TURN_DRAWING, TURN_ELEMENT,
};
use entries::Next;
use entries::acts::act;
use entries::names::part;
use groundwork::blocks::{at_block, no_digits};
use leaves::bytes::capital;
use rules::{LineForm, Rule, Span};
use tables::{TABLE_FILE, TABLE_LATER};

// FILE_FORMAT's inner blocks, beside `elec`; the last is `sym`.
const INNER_RANGE: u8 = 1;

const INNER_BASE: u8 = 2;

// Where the marks of a part's rows begin and end: FILE_FORMAT's own, `range`, `base`, `elec`, `sym`.
fn marks_of(first: bool, part: u8) -> (usize, usize)
    ensures { (result.0 ≡ marks_from part) × (result.1 ≡ marks_to first part) }
{
    match part {
        INNER_NONE => (0, if first { ROWS_FILE } else { ROWS_LATER }),
        INNER_RANGE => (MARKS_RANGE, MARKS_BASE),
        INNER_BASE => (MARKS_BASE, MARKS_ELEC),
        INNER_ELEC => (MARKS_ELEC, MARKS_SYM),
        _ => (MARKS_SYM, MOST_ROWS),
    }
}

fn file_table(first: bool, part: u8) -> u8
    requires { part ≤ 4 }
    ensures { result ≡ file_table_of first part }
{
    if first {
        part + TABLE_FILE
    } else {
        TABLE_LATER
    }
}

// The part around an inner part: FILE_FORMAT around `range`, `range` around the others.
fn around(part: u8) -> u8
    requires { 1 ≤ part }
    ensures { result ≡ around part }
{
    if part == INNER_RANGE {
        INNER_NONE
    } else {
        INNER_RANGE
    }
}

// What a row without a place in the record left behind it is kept: next_file, and in a later volume date and time.
fn keep_name(header: &mut [i64])
    requires { length header.old ≡ header_length }
    ensures { header.new ≡ kept_name header.old }
{
    let at = header[HEADER_LAST];
    let len = header[HEADER_LAST_LENGTH];
    header[HEADER_NEXT_FILE] = at;
    header[HEADER_NEXT_FILE_LENGTH] = len;
}

// Of the inner parts, `elec` has such a row: E_wire.
fn keep_in(first: bool, part: u8, row: u8, header: &mut [i64])
    requires { length header.old ≡ header_length }
    ensures { header.new ≡ kept_in first part row header.old }
{
    match (part, first, row) {
        (INNER_NONE, true, ROW_NEXT_FILE) => keep_name(header),
        (INNER_NONE, false, ROW_LATER_NEXT_FILE) => keep_name(header),
        (INNER_NONE, false, ROW_LATER_DATE) => header[HEADER_LATER_DATE] = header[HEADER_LAST],
        (INNER_NONE, false, ROW_LATER_TIME) => header[HEADER_LATER_TIME] = header[HEADER_LAST],
        (INNER_ELEC, _, ROW_WIRE_RANGE) => header[HEADER_WIRE_RANGE] = header[HEADER_LAST],
        _ => {}
    }
}

// "next_file names the next volume (a-z read as A-Z) and is empty in the last"
fn names(c: &[u8], name: &[u8]) -> bool
    ensures { result ≡ same (map capital c.now) name.now }
{
    c.len() == name.len() && c.iter().zip(name).all(|(a, b)| capital(*a) == *b)
}

// What the first volume's header says of the set: the ranges; date, time and all_ele; E_wire.
fn ranges_tally(header: &[i64], tally: &mut [u32])
    requires { Header header.now × (length tally.old ≡ tally_length) }
    ensures { tally.new ≡ ranges_tally header.now tally.old }
{
    tally[TALLY_ARC] = header[HEADER_ARC] as u32;
    tally[TALLY_SYMBOL_RANGE] = header[HEADER_SYMBOL_RANGE] as u32;
    tally[TALLY_DEFINE_RANGE] = header[HEADER_DEFINE_RANGE] as u32;
}

fn set_tally(header: &[i64], tally: &mut [u32])
    requires { Header header.now × (length tally.old ≡ tally_length) }
    ensures { tally.new ≡ set_tally header.now tally.old }
{
    tally[TALLY_DATE] = header[HEADER_DATE] as u32;
    tally[TALLY_TIME] = header[HEADER_TIME] as u32;
    tally[TALLY_ALL] = header[HEADER_ALL] as u32;
}

fn wires_tally(header: &[i64], tally: &mut [u32])
    requires { Header header.now × (length tally.old ≡ tally_length) }
    ensures { tally.new ≡ wires_tally header.now tally.old }
{
    tally[TALLY_WIRE_RANGE] = header[HEADER_WIRE_RANGE] as u32;
}

// What a header says of its volume: this_ele, of which none is counted yet.
fn here_tally(this: u32, tally: &mut [u32])
    requires { length tally.old ≡ tally_length }
    ensures { tally.new ≡ here_tally this tally.old }
{
    tally[TALLY_HERE] = this;
    tally[TALLY_ELEMENTS_HERE] = 0;
}

fn first_tally(header: &[i64], tally: &mut [u32])
    requires { Header header.now × (length tally.old ≡ tally_length) }
    ensures { tally.new ≡ first_tally header.now tally.old }
{
    ranges_tally(header, tally);
    set_tally(header, tally);
    here_tally(header[HEADER_HERE] as u32, tally);
    wires_tally(header, tally);
}

fn later_tally(header: &[i64], tally: &mut [u32])
    requires { Header header.now × (length tally.old ≡ tally_length) }
    ensures { tally.new ≡ later_tally header.now tally.old }
{
    here_tally(header[HEADER_LATER_HERE] as u32, tally);
}

// "date and time agree over the set"
fn dated(header: &[i64], tally: &[u32]) -> bool
    requires { Header header.now × (length tally.now ≡ tally_length) }
    ensures { result ≡ dated_as tally.now header.now }
{
    header[HEADER_LATER_DATE] as u32 == tally[TALLY_DATE]
        && header[HEADER_LATER_TIME] as u32 == tally[TALLY_TIME]
}

// "16: volume chain, date or time unlike volume 1's, at FILE_FORMAT's close"
fn close_file(
    s: &[u8],
    following: &[u8],
    first: bool,
    here: Now,
    tally: &mut [u32],
    header: &[i64],
) -> Step
    requires { Header header.now × (length tally.old ≡ tally_length) }
    ensures { FileClosed s.now following.now first here header.now tally.old tally.new result }
{
    let name = Span {
        at: header[HEADER_NEXT_FILE] as u32,
        len: header[HEADER_NEXT_FILE_LENGTH] as u32,
    };
    if !names(part(s, name), following) {
        return Step::Stop(Rule::Chain as u8);
    }
    if first {
        first_tally(header, tally);
        return Step::Go(at_block(here, BLOCK_TOP, TURN_DRAWING));
    }
    if !dated(header, tally) {
        return Step::Stop(Rule::Chain as u8);
    }
    later_tally(header, tally);
    Step::Go(at_block(here, BLOCK_TOP, TURN_ELEMENT))
}

// A line in FILE_FORMAT, in its own part or an inner one. Its numbers are kept apart till it closes.
pub fn on_file(
    s: &[u8],
    symbols: &[u32],
    layers: &[u32],
    following: &[u8],
    first: bool,
    here: Now,
    form: LineForm,
    tally: &mut [u32],
    marks: &mut [bool],
    header: &mut [i64],
) -> Step
    requires { (length s.now ≤ 61440) × (length symbols.now ≤ 65536) × (length layers.now ≤ 65536) × FileReady first here tally.old marks.old header.old }
    ensures { FileLine (act (known_in s.now symbols.now layers.now) (table_of (file_table_of first here.part)) (digits 0 0) (part_marks first here.part marks.old) (form_in s.now form)) s.now following.now first here tally.old tally.new marks.old marks.new header.old header.new result }
{
    let (from, to) = marks_of(first, here.part);
    let next = act(
        file_table(first, here.part),
        s,
        symbols,
        layers,
        no_digits(),
        &marks[from..to],
        form,
        HEADER_LAST,
        header,
    );
    match next {
        Next::Stay => Step::Go(here),
        Next::Entry(row) => {
            marks[from + row as usize] = true;
            keep_in(first, here.part, row, header);
            Step::Go(here)
        }
        Next::Begin(inner) => {
            marks[from + inner.row as usize] = true;
            Step::Go(at_block(here, BLOCK_FILE, inner.block))
        }
        Next::Shut => {
            if here.part == INNER_NONE {
                return close_file(s, following, first, here, tally, header);
            }
            Step::Go(at_block(here, BLOCK_FILE, around(here.part)))
        }
        Next::Refuse(k) => Step::Stop(k),
    }
}
