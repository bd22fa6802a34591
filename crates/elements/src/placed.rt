// A placed symbol's block in a layer.
ghost use Rattle.std.specs.Prelude.{◌≡◌, [], ◌<◌, ◌≤◌, eqb, true, pos, length, get_or};
ghost use Rattle.rules.specs.Lines.{bytes_at, form_in};
ghost use Rattle.rules.specs.RangeClass.{digits, digits_of, hides};
ghost use Rattle.rules.specs.Rows.{find, act};
ghost use Rattle.rules.specs.RecordTable.{mark_unread};
ghost use Rattle.rules.specs.Figures.{placed_table};
ghost use Rattle.tables.specs.Tables.{table_of};
ghost use Rattle.entries.specs.Names.{known_in};
ghost use Rattle.entries.specs.Shapes.{rest_in};
ghost use Rattle.entries.specs.declared.Next.TheVariants as N;
ghost use Rattle.account.specs.SkippedLines.{skipped_by};
ghost use Rattle.account.specs.PlacedLines.{lent, own_number, PlacedDone, RowReady, OwnGiven, serial_row, not_here, unknown_step, KeyLine, hidden_at, CloseLine, OwnLine, PlacedTextLine, PlacedLine, LentReady};
ghost use Rattle.account.specs.SerialNumbers.{ascending, serial_count, kept_in};
ghost use Rattle.tables.specs.Numbering.{table_placed, table_placed_text};
ghost use Rattle.account.specs.Numbering.{inner_placed_text, rows_text, tally_length, most_rows, place_own};
ghost use Rattle.rules.specs.RecordTable.{width};

use crate::skip::skip_line;
use account::{
    BLOCK_PLACED, INNER_NONE, INNER_PLACED_TEXT, Now, PLACE_OWN, ROWS_PLACED, Skipped, Step,
};
use entries::acts::{act, complete};
use entries::names::part;
use entries::row_lines::{act_row, reaches};
use entries::shapes::{key_of, rest_of, shape_for, sort_of};
use entries::{Next, Rest, SORT_FORMLESS};
use groundwork::blocks::{at_block, digits_of, figure_done, no_digits, unmark};
use groundwork::classes::{both, exceeds, hides};
use groundwork::serials::{content_at, keep_own};
use rules::{Digits, LineForm, Rule, Span};
use tables::lookup::row_of;
use tables::{TABLE_PLACED, TABLE_PLACED_TEXT};

// The row `serial` of a placed symbol (`serial_row` in the definitions).
const SERIAL_ROW: u8 = 5;

// Where the states of the attributes stand in its record, by the attributes' keys.
const STATE_TEXT: usize = 26;

const STATE_HIGHT: usize = 27;

const STATE_POS: usize = 28;

const STATE_CIRCUIT: usize = 29;

const STATE_SERIAL: usize = 30;

// A key that is not allowed here: 6, and 5 where the line has no form.
pub(crate) fn not_here(s: &[u8], rest: Rest) -> Step
    ensures { result ≡ not_here (rest_in s.now rest) }
{
    if sort_of(shape_for(s, false, rest)) == SORT_FORMLESS {
        return Step::Stop(Rule::Form as u8);
    }
    Step::Stop(Rule::Key as u8)
}

// "skipped when a digit of E_sym exceeds the class's, and refused otherwise", and so of E_wire and the wire part.
pub(crate) fn on_unknown(
    s: &[u8],
    class: Digits,
    range: Digits,
    here: Now,
    form: LineForm,
    rest: Rest,
) -> Step
    ensures { result ≡ unknown_step class range here (skipped_by (form_in s.now form)) (rest_in s.now rest) }
{
    if exceeds(range, class) {
        return match skip_line(s, form) {
            Skipped::Passes => Step::Go(here),
            Skipped::Deeper => Step::Skip(here),
            Skipped::Shut => Step::Stop(Rule::Order as u8),
            Skipped::Refuse(n) => Step::Stop(n),
        };
    }
    not_here(s, rest)
}

fn placed_entry(
    here: Now,
    row: u8,
    content: Span,
    tally: &mut [u32],
    serials: &mut [u64],
    marks: &mut [bool],
    rec: &[i64],
) -> Step
    requires { (length tally.old ≡ tally_length) × (serial_count tally.old < length serials.old) × (ascending (kept_in tally.old serials.old) ≡ true) × (serial_count tally.old < 4294967295) × (length rec.now ≡ width) × (row < length marks.old) × (row ≡ serial_row → OwnGiven (get_or rec.now place_own (pos 0))) }
    ensures { PlacedDone here (lent tally.old serials.old marks.old []) (lent tally.new serials.new marks.new []) (own_number rec.now) content (N.Entry row) result }
{
    marks[row as usize] = true;
    if row == SERIAL_ROW {
        return keep_own(here, rec[PLACE_OWN] as u64, content, tally, serials);
    }
    Step::Go(here)
}

// "An attribute E_sym allows and the class doesn't know has state 3 and zeros."
pub(crate) fn mark_hidden(class: Digits, d: Digits, least: Digits, state: usize, rec: &mut [i64])
    requires { state < length rec.old }
    ensures { rec.new ≡ hidden_at state (hides class d least) rec.old }
{
    if hides(class, d, least) {
        rec[state] = 3;
    }
}

fn mark_unread(class: Digits, d: Digits, rec: &mut [i64])
    requires { length rec.old ≡ width }
    ensures { rec.new ≡ mark_unread class d placed_table rec.old }
{
    mark_hidden(class, d, Digits { middle: 1, last: 0 }, STATE_SERIAL, rec);
    mark_hidden(class, d, Digits { middle: 0, last: 5 }, STATE_CIRCUIT, rec);
    mark_hidden(class, d, Digits { middle: 0, last: 4 }, STATE_POS, rec);
    mark_hidden(class, d, Digits { middle: 0, last: 3 }, STATE_HIGHT, rec);
    mark_hidden(class, d, Digits { middle: 0, last: 2 }, STATE_TEXT, rec);
}

// What a line of the placed symbol's own keys does. None of them closes it.
fn placed_done(
    here: Now,
    next: Next,
    content: Span,
    tally: &mut [u32],
    serials: &mut [u64],
    marks: &mut [bool],
    inner: &mut [bool],
    rec: &[i64],
) -> Step
    requires { LentReady (lent tally.old serials.old marks.old inner.old) × (length rec.now ≡ width) × RowReady rec.now next }
    ensures { PlacedDone here (lent tally.old serials.old marks.old inner.old) (lent tally.new serials.new marks.new inner.new) (own_number rec.now) content next result }
{
    match next {
        Next::Stay => Step::Go(here),
        Next::Entry(row) => placed_entry(here, row, content, tally, serials, marks, rec),
        Next::Begin(opened) => {
            marks[opened.row as usize] = true;
            unmark(inner);
            Step::Go(at_block(here, BLOCK_PLACED, INNER_PLACED_TEXT))
        }
        Next::Shut => Step::Stop(Rule::Missing as u8),
        Next::Refuse(k) => Step::Stop(k),
    }
}

// A line with a key. A key that the class knows is judged as in any block, in a file of the range E_sym.
fn on_key(
    s: &[u8],
    symbols: &[u32],
    layers: &[u32],
    class: Digits,
    range: Digits,
    here: Now,
    form: LineForm,
    key: Span,
    rest: Rest,
    tally: &mut [u32],
    serials: &mut [u64],
    marks: &mut [bool],
    inner: &mut [bool],
    rec: &mut [i64],
) -> Step
    requires { (length s.now ≤ 61440) × (length symbols.now ≤ 65536) × (length layers.now ≤ 65536) × LentReady (lent tally.old serials.old marks.old inner.old) × (length rec.old ≡ width) }
    ensures { KeyLine (known_in s.now symbols.now layers.now) class range here (lent tally.old serials.old marks.old inner.old) (lent tally.new serials.new marks.new inner.new) rec.old rec.new result (skipped_by (form_in s.now form)) (rest_in s.now rest) (find (bytes_at s.now key) (table_of table_placed)) }
{
    match row_of(TABLE_PLACED, part(s, key)) {
        None => on_unknown(s, class, range, here, form, rest),
        Some(row) => {
            let least = row.least;
            if !reaches(class, least) {
                return on_unknown(s, class, range, here, form, rest);
            }
            let had = marks[row.number as usize];
            let next = act_row(row, s, symbols, layers, range, had, rest, 0, rec);
            placed_done(
                here,
                next,
                content_at(s, rest),
                tally,
                serials,
                marks,
                inner,
                rec,
            )
        }
    }
}

// A line in the text of a placed symbol.
fn on_placed_text(
    s: &[u8],
    symbols: &[u32],
    layers: &[u32],
    here: Now,
    form: LineForm,
    inner: &mut [bool],
    rec: &mut [i64],
) -> Step
    requires { (length s.now ≤ 61440) × (length symbols.now ≤ 65536) × (length layers.now ≤ 65536) × (length inner.old ≡ rows_text) × (length rec.old ≡ width) }
    ensures { PlacedTextLine (act (known_in s.now symbols.now layers.now) (table_of table_placed_text) (digits 0 0) inner.old (form_in s.now form)) here inner.old inner.new rec.old rec.new result }
{
    let next = act(
        TABLE_PLACED_TEXT,
        s,
        symbols,
        layers,
        no_digits(),
        inner,
        form,
        0,
        rec,
    );
    match next {
        Next::Stay => Step::Go(here),
        Next::Entry(row) => {
            inner[row as usize] = true;
            Step::Go(here)
        }
        Next::Begin(_) => Step::Stop(Rule::Form as u8),
        Next::Shut => Step::Go(at_block(here, BLOCK_PLACED, INNER_NONE)),
        Next::Refuse(k) => Step::Stop(k),
    }
}

// The closing line: what the file allows and the class knows is required.
fn close_placed(class: Digits, range: Digits, here: Now, marks: &[bool], rec: &mut [i64]) -> Step
    requires { (length marks.now ≡ most_rows) × (length rec.old ≡ width) × (here.figures < 4294967295) }
    ensures { CloseLine class range here marks.now rec.old rec.new result }
{
    if !complete(TABLE_PLACED, both(class, range), &marks[..ROWS_PLACED]) {
        return Step::Stop(Rule::Missing as u8);
    }
    mark_unread(class, range, rec);
    Step::Go(figure_done(here))
}

// A line in a placed symbol's block, directly in it. A line with a key goes on in one place, whichever its form, so
// that `on_key` is compiled into it.
fn on_placed_own(
    s: &[u8],
    symbols: &[u32],
    layers: &[u32],
    class: Digits,
    range: Digits,
    here: Now,
    form: LineForm,
    tally: &mut [u32],
    serials: &mut [u64],
    marks: &mut [bool],
    inner: &mut [bool],
    rec: &mut [i64],
) -> Step
    requires { (length s.now ≤ 61440) × (length symbols.now ≤ 65536) × (length layers.now ≤ 65536) × LentReady (lent tally.old serials.old marks.old inner.old) × (length rec.old ≡ width) × (here.figures < 4294967295) }
    ensures { OwnLine (known_in s.now symbols.now layers.now) class range here (lent tally.old serials.old marks.old inner.old) (lent tally.new serials.new marks.new inner.new) rec.old rec.new result (form_in s.now form) }
{
    match form {
        LineForm::Ignored => {
            return Step::Go(here);
        }
        LineForm::Close => {
            return close_placed(class, range, here, marks, rec);
        }
        LineForm::Eof => {
            return Step::Stop(Rule::Order as u8);
        }
        // (two arms: the proof goes by each of them)
        LineForm::Opens(_) => {}
        LineForm::Equals(_) => {}
        LineForm::Refused(r) => {
            return Step::Stop(r.number);
        }
    }
    on_key(
        s,
        symbols,
        layers,
        class,
        range,
        here,
        form,
        key_of(form),
        rest_of(form),
        tally,
        serials,
        marks,
        inner,
        rec,
    )
}

// A line in a placed symbol: its record is lent.
pub fn on_placed(
    s: &[u8],
    symbols: &[u32],
    layers: &[u32],
    class: Digits,
    range: u32,
    here: Now,
    form: LineForm,
    tally: &mut [u32],
    serials: &mut [u64],
    marks: &mut [bool],
    inner: &mut [bool],
    rec: &mut [i64],
) -> Step
    requires { (length s.now ≤ 61440) × (length symbols.now ≤ 65536) × (length layers.now ≤ 65536) × LentReady (lent tally.old serials.old marks.old inner.old) × (length rec.old ≡ width) × (here.figures < 4294967295) }
    ensures { PlacedLine (known_in s.now symbols.now layers.now) class (digits_of range) here (lent tally.old serials.old marks.old inner.old) (lent tally.new serials.new marks.new inner.new) rec.old rec.new result (eqb here.part inner_placed_text) (form_in s.now form) }
{
    if here.part == INNER_PLACED_TEXT {
        return on_placed_text(s, symbols, layers, here, form, inner, rec);
    }
    on_placed_own(
        s,
        symbols,
        layers,
        class,
        digits_of(range),
        here,
        form,
        tally,
        serials,
        marks,
        inner,
        rec,
    )
}
