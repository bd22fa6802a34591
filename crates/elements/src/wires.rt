// A wire's block in a layer: its lines and arcs, then its attributes; or, where the class has wire part 0, all its lines skipped.
ghost use Rattle.std.specs.Prelude.{◌≡◌, true, cond, [], ◌+◌, ◌≤◌, ◌<◌, ◌/◌, eqb, pos, length, get_or};
ghost use Rattle.rules.specs.Lines.{bytes_at, form_in};
ghost use Rattle.rules.specs.RangeClass.{digits_of, knows_wires};
ghost use Rattle.rules.specs.Rows.{find, act_row};
ghost use Rattle.rules.specs.Figures.{wire_table, wire_text_row, wire_serial_row};
ghost use Rattle.rules.specs.RecordTable.{width, mark_unread};
ghost use Rattle.rules.specs.Wires.{joins_ends};
ghost use Rattle.tables.specs.Numbering.{table_wire};
ghost use Rattle.tables.specs.Rows.{rule_of};
ghost use Rattle.tables.specs.Tables.{table_of};
ghost use Rattle.entries.specs.Names.{known_in};
ghost use Rattle.entries.specs.Shapes.{rest_in, rest_of, key_of};
ghost use Rattle.account.specs.declared.Step.TheVariants as S;
ghost use Rattle.account.specs.Points.{more_points};
ghost use Rattle.account.specs.SkippedLines.{skipped_by};
ghost use Rattle.account.specs.SerialNumbers.{content_at, ascending, serial_count, kept_in};
ghost use Rattle.account.specs.PlacedLines.{lent, LentReady, OwnGiven};
ghost use Rattle.account.specs.WireLines.{wire_begun, begun_step, begun_put, both_lines, meets_former, join_holds, join_number, former_kept, element_put, past_now, group_agrees, shelved, shelf_of};
ghost use Rattle.account.specs.WireLines.{FrontLine, own_in, OnceEntered, OnceLine, range_in, full_at, misplaced, KeyInWire, wire_counted, WireShut, ReadLine, text_act, TextInWire};
ghost use Rattle.account.specs.WireLines.{open_skipped, marked_unread, SkippedLine, WireLine, ShelvesReady, NowReady, WireReady, RowOfWire};
ghost use Rattle.account.specs.Numbering.{scratch_length, tally_length, most_rows, rows_text, rows_wire, wire_skipped, wire_text, wire_own};

use crate::placed::{mark_hidden, not_here, on_unknown};
use crate::points::more_points;
use crate::shelves::{ROW_DIREC, group_agrees, shelve_group, shelve_text};
use crate::skip::skip_line;
use account::{
    BLOCK_WIRE, FORMER_ROW, FORMER_X, FORMER_Y, LineAt, Now, PLACE_END_X, PLACE_END_Y, PLACE_JOIN,
    PLACE_START_X, PLACE_START_Y, ROWS_WIRE, SCRATCH_LENGTH, Skipped, Step, TALLY_WIRE_RANGE,
    WIRE_DIRECS, WIRE_ELEMENTS, WIRE_JOIN_DIGIT, WIRE_MARK, WIRE_MORE_MARK, WIRE_OWN, WIRE_PAST,
    WIRE_TEXT, WIRE_UNREAD, Where,
};
use entries::acts::{act, complete};
use entries::names::part;
use entries::row_lines::{act_row, reaches};
use entries::shapes::{key_of, rest_of};
use entries::{Next, Rest};
use groundwork::blocks::{at_block, digits_of, figure_done, no_digits, unmark};
use groundwork::classes::both;
use groundwork::serials::{content_at, keep_own};
use groundwork::table::head;
use rules::{Class, Digits, KIND_EDGE, KIND_WIRE_MORE, LineForm, Rule, Span, WIDTH};
use tables::lookup::row_of;
use tables::{Row, TABLE_LAYER_TEXT, TABLE_WIRE};

// The row `line` of a wire's table.
const LINE_ROW: u8 = 0;

// What is kept of the last element: nothing, or, of its row, that it was a line.
const FORMER_NONE: i64 = 0;

const FORMER_LINE: i64 = 1;

// "0 none, 1 tested, 2 untested"
const JOIN_NONE: i64 = 0;

const JOIN_TESTED: i64 = 1;

const JOIN_UNTESTED: i64 = 2;

// "At 4 every end is joined to the next start"
const ENDS_JOINED: u32 = 4;

// "blocks nest to depth 4, the opener being 1"
const MOST_DEPTH: u32 = 4;

// "marked unread"
const UNREAD: i64 = 3;

// "`direc`: 0 to 2"
const MOST_DIRECS: usize = 2;

// The rows `text` and `serial` of a wire's table.
const ROW_TEXT: u8 = 5;

const ROW_SERIAL: u8 = 9;

// Where the states of the attributes stand in its two records, by the attributes' keys.
const STATE_DIREC: usize = 26;

const STATE_PIEND: usize = 27;

const STATE_NUM: usize = 28;

const STATE_LENGTH: usize = 29;

const STATE_TEXT: usize = 58;

const STATE_CIRCUIT: usize = 59;

const STATE_POWER: usize = 60;

const STATE_SERIAL: usize = 61;

// "A class with 0 skips whole wires"
fn knows_wires(class: Class) -> bool
    ensures { result ≡ knows_wires class }
{
    reaches(class.wires, Digits { middle: 0, last: 1 })
}

fn wire_begun(class: Class, n: Now) -> Now
    ensures { result ≡ wire_begun class n }
{
    if knows_wires(class) {
        n
    } else {
        at_block(n, BLOCK_WIRE, WIRE_UNREAD)
    }
}

// Behind a line among figures: where it opened a wire, that one's second record gets its head, and it is read or skipped whole.
pub fn begin_wire(did: Step, class: Class, at: Where, t: &mut [i64]) -> Step
    requires { length t.old ≡ scratch_length }
    ensures { (result ≡ begun_step class did) × (t.new ≡ begun_put at did t.old) }
{
    match did {
        // (not a guard: the proof did not close with the other steps in one arm)
        Step::Go(n) => {
            if n.block != BLOCK_WIRE {
                return Step::Go(n);
            }
            head(
                t,
                WIDTH + WIDTH,
                KIND_WIRE_MORE,
                n.owner,
                at.volume,
                at.line,
            );
            Step::Go(wire_begun(class, n))
        }
        Step::Skip(n) => Step::Skip(n),
        Step::Stop(k) => Step::Stop(k),
    }
}

// "The first digit 0 to 4 says how elements join."
fn joins_ends(range: u32) -> bool
    ensures { result ≡ joins_ends (range / 100) }
{
    range / 100 == ENDS_JOINED
}

// The element before was a line, and this one is.
fn both_lines(row: u8, t: &[i64]) -> bool
    requires { length t.now ≡ scratch_length }
    ensures { result ≡ both_lines row t.now }
{
    t[FORMER_ROW] == FORMER_LINE && row == LINE_ROW
}

fn meets_former(t: &[i64]) -> bool
    requires { length t.now ≡ scratch_length }
    ensures { result ≡ meets_former t.now }
{
    t[FORMER_X] == t[PLACE_START_X] && t[FORMER_Y] == t[PLACE_START_Y]
}

// "tested for equal values between two lines"
fn join_holds(ends: bool, row: u8, t: &[i64]) -> bool
    requires { length t.now ≡ scratch_length }
    ensures { result ≡ join_holds ends row t.now }
{
    !ends || !both_lines(row, t) || meets_former(t)
}

// "and recorded as untested where an arc takes part"
fn join_number(ends: bool, row: u8, t: &[i64]) -> i64
    requires { length t.now ≡ scratch_length }
    ensures { result ≡ pos (join_number ends row t.now) }
{
    if !ends || t[FORMER_ROW] == FORMER_NONE {
        JOIN_NONE
    } else if both_lines(row, t) {
        JOIN_TESTED
    } else {
        JOIN_UNTESTED
    }
}

// What the next element must know of this one.
fn keep_former(row: u8, t: &mut [i64])
    requires { (row ≤ 1) × (length t.old ≡ scratch_length) }
    ensures { t.new ≡ former_kept row t.old }
{
    t[FORMER_X] = t[PLACE_END_X];
    t[FORMER_Y] = t[PLACE_END_Y];
    t[FORMER_ROW] = i64::from(row + 1);
}

// The element's record, whose values stand at the front of the scratch.
fn put_element(ends: bool, here: Now, at: Where, row: u8, t: &mut [i64])
    requires { (row ≤ 1) × (length t.old ≡ scratch_length) }
    ensures { t.new ≡ element_put ends here at row t.old }
{
    let join = join_number(ends, row, t);
    head(t, 0, KIND_EDGE + row, here.owner, at.volume, at.line);
    t[PLACE_JOIN] = join;
    keep_former(row, t);
}

// Behind it no element may come.
fn past(here: Now) -> Now
    ensures { result ≡ past_now here }
{
    at_block(here, BLOCK_WIRE, WIRE_PAST)
}

fn element_entered(ends: bool, here: Now, at: Where, row: u8, t: &mut [i64]) -> Step
    requires { (row ≤ 1) × (length t.old ≡ scratch_length) × (here.points < 4294967295) × (here.records < 18446744073709551615) }
    ensures { (result ≡ cond (join_holds ends row t.old) (S.Go (more_points here)) (S.Stop 11)) × (join_holds ends row t.old ≡ true → t.new ≡ element_put ends here at row t.old) }
{
    if !join_holds(ends, row, t) {
        return Step::Stop(Rule::Value as u8);
    }
    put_element(ends, here, at, row, t);
    Step::Go(more_points(here))
}

fn group_entered(here: Now, row: u8, t: &mut [i64]) -> Step
    requires { (2 ≤ row) × (row ≤ 4) × ShelvesReady t.old }
    ensures { (result ≡ cond (group_agrees row t.old) (S.Go (past_now here)) (S.Stop 11)) × (group_agrees row t.old ≡ true → t.new ≡ shelved 0 (shelf_of row) t.old) }
{
    if !group_agrees(row, t) {
        return Step::Stop(Rule::Value as u8);
    }
    shelve_group(row, t);
    Step::Go(past(here))
}

// A line of an element or of a key that repeats: its numbers go to the front of the scratch first.
fn front_row(
    s: &[u8],
    symbols: &[u32],
    layers: &[u32],
    range: u32,
    here: Now,
    at: Where,
    row: Row,
    full: bool,
    rest: Rest,
    t: &mut [i64],
) -> Step
    requires { (length s.now ≤ 61440) × (length symbols.now ≤ 65536) × (length layers.now ≤ 65536) × (row.number < wire_text_row) × RowOfWire row × NowReady here × ShelvesReady t.old }
    ensures { FrontLine (act_row (known_in s.now symbols.now layers.now) (digits_of range) full row.number (rule_of row) (rest_in s.now rest)) range here at t.old t.new result }
{
    let next = act_row(
        row,
        s,
        symbols,
        layers,
        digits_of(range),
        full,
        rest,
        0,
        &mut t[0..WIDTH],
    );
    match next {
        Next::Stay => Step::Go(here),
        Next::Entry(j) => {
            if j < ROW_DIREC {
                return element_entered(joins_ends(range), here, at, j, t);
            }
            group_entered(here, j, t)
        }
        Next::Begin(_) => Step::Stop(Rule::Form as u8),
        Next::Shut => Step::Stop(Rule::Missing as u8),
        Next::Refuse(n) => Step::Stop(n),
    }
}

// A line of a key that stands once is entered: the row is marked, and "a wire's serial must differ from every symbol's and wire's" (15).
fn once_entered(
    here: Now,
    row: u8,
    content: Span,
    tally: &mut [u32],
    serials: &mut [u64],
    marks: &mut [bool],
    t: &[i64],
) -> Step
    requires { (length tally.old ≡ tally_length) × (serial_count tally.old < length serials.old) × (ascending (kept_in tally.old serials.old) ≡ true) × (serial_count tally.old < 4294967295) × (length t.now ≡ scratch_length) × (row < length marks.old) × (row ≡ wire_serial_row → OwnGiven (get_or t.now wire_own (pos 0))) }
    ensures { OnceEntered here row (own_in t.now) content (lent tally.old serials.old marks.old []) (lent tally.new serials.new marks.new []) result }
{
    marks[row as usize] = true;
    if row == ROW_SERIAL {
        return keep_own(past(here), t[WIRE_OWN] as u64, content, tally, serials);
    }
    Step::Go(past(here))
}

// A line of a key that stands once, or the opener of a text: its numbers go to the wire's two records.
fn own_row(
    s: &[u8],
    symbols: &[u32],
    layers: &[u32],
    here: Now,
    row: Row,
    full: bool,
    rest: Rest,
    tally: &mut [u32],
    serials: &mut [u64],
    marks: &mut [bool],
    inner: &mut [bool],
    t: &mut [i64],
) -> Step
    requires { (length s.now ≤ 61440) × (length symbols.now ≤ 65536) × (length layers.now ≤ 65536) × (wire_text_row ≤ row.number) × (row.number < rows_wire) × RowOfWire row × LentReady (lent tally.old serials.old marks.old inner.old) × (length t.old ≡ scratch_length) }
    ensures { OnceLine (act_row (known_in s.now symbols.now layers.now) (digits_of (range_in tally.old)) full row.number (rule_of row) (rest_in s.now rest)) here (content_at (rest_in s.now rest)) (lent tally.old serials.old marks.old inner.old) (lent tally.new serials.new marks.new inner.new) t.old t.new result }
{
    let range = tally[TALLY_WIRE_RANGE];
    let next = act_row(
        row,
        s,
        symbols,
        layers,
        digits_of(range),
        full,
        rest,
        0,
        &mut t[WIDTH..SCRATCH_LENGTH],
    );
    match next {
        Next::Stay => Step::Go(here),
        Next::Entry(j) => once_entered(here, j, content_at(s, rest), tally, serials, marks, t),
        Next::Begin(_) => {
            unmark(inner);
            Step::Go(at_block(here, BLOCK_WIRE, WIRE_TEXT))
        }
        Next::Shut => Step::Stop(Rule::Missing as u8),
        Next::Refuse(n) => Step::Stop(n),
    }
}

// An element behind anything else.
fn is_misplaced(here: Now, row: u8) -> bool
    ensures { result ≡ misplaced here row }
{
    row < ROW_DIREC && here.part == WIRE_PAST
}

// The row may take no more: "0 to 2" of `direc`, the rows that stand once are marked.
fn is_full(row: u8, marks: &[bool], t: &[i64]) -> bool
    requires { (row < length marks.now) × ShelvesReady t.now }
    ensures { result ≡ full_at marks.now t.now row }
{
    if row == ROW_DIREC {
        MOST_DIRECS <= t[WIRE_DIRECS] as usize
    } else {
        marks[row as usize]
    }
}

// A line with a key, directly in a wire that is read.
fn on_wire_key(
    s: &[u8],
    symbols: &[u32],
    layers: &[u32],
    x: LineAt,
    tally: &mut [u32],
    serials: &mut [u64],
    marks: &mut [bool],
    inner: &mut [bool],
    t: &mut [i64],
) -> Step
    requires { (length s.now ≤ 61440) × (length symbols.now ≤ 65536) × (length layers.now ≤ 65536) × WireReady (lent tally.old serials.old marks.old inner.old) x.here t.old }
    ensures { KeyInWire (known_in s.now symbols.now layers.now) x.class (range_in tally.old) x.here x.at (lent tally.old serials.old marks.old inner.old) (lent tally.new serials.new marks.new inner.new) t.old t.new result (skipped_by (form_in s.now x.form)) (rest_in s.now (rest_of x.form)) (find (bytes_at s.now (key_of x.form)) (table_of table_wire)) }
{
    let form = x.form;
    let here = x.here;
    let rest = rest_of(form);
    let range = tally[TALLY_WIRE_RANGE];
    match row_of(TABLE_WIRE, part(s, key_of(form))) {
        None => on_unknown(s, x.class.wires, digits_of(range), past(here), form, rest),
        Some(row) => {
            let number = row.number;
            let least = row.least;
            if is_misplaced(here, number) {
                return not_here(s, rest);
            }
            if !reaches(x.class.wires, least) {
                return on_unknown(s, x.class.wires, digits_of(range), past(here), form, rest);
            }
            let full = is_full(number, marks, t);
            if number < ROW_TEXT {
                return front_row(s, symbols, layers, range, here, x.at, row, full, rest, t);
            }
            own_row(
                s, symbols, layers, here, row, full, rest, tally, serials, marks, inner, t,
            )
        }
    }
}

// "An attribute E_wire allows and the wire part doesn't know has state 3 and zeros."
fn mark_states(wires: Digits, d: Digits, rec: &mut [i64])
    requires { length rec.old ≡ width + width }
    ensures { rec.new ≡ mark_unread wires d wire_table rec.old }
{
    mark_hidden(wires, d, Digits { middle: 1, last: 0 }, STATE_SERIAL, rec);
    mark_hidden(wires, d, Digits { middle: 0, last: 8 }, STATE_POWER, rec);
    mark_hidden(wires, d, Digits { middle: 0, last: 7 }, STATE_CIRCUIT, rec);
    mark_hidden(wires, d, Digits { middle: 0, last: 6 }, STATE_LENGTH, rec);
    mark_hidden(wires, d, Digits { middle: 0, last: 5 }, STATE_TEXT, rec);
    mark_hidden(wires, d, Digits { middle: 0, last: 4 }, STATE_NUM, rec);
    mark_hidden(wires, d, Digits { middle: 0, last: 3 }, STATE_PIEND, rec);
    mark_hidden(wires, d, Digits { middle: 0, last: 2 }, STATE_DIREC, rec);
}

// The counts of a wire that closes; what was kept of its last element is cleared.
fn count_wire(range: u32, here: Now, t: &mut [i64])
    requires { (here.points < 4294967295) × (length t.old ≡ scratch_length) }
    ensures { t.new ≡ wire_counted range here t.old }
{
    t[FORMER_X] = 0;
    t[FORMER_Y] = 0;
    t[FORMER_ROW] = FORMER_NONE;
    t[WIRE_ELEMENTS] = i64::from(here.points);
    t[WIRE_JOIN_DIGIT] = i64::from(range / 100);
}

// The wire's `}`: what the file allows and the wire part knows is required; its two records are complete.
fn close_wire(wires: Digits, range: u32, here: Now, marks: &[bool], t: &mut [i64]) -> Step
    requires { NowReady here × (length marks.now ≡ most_rows) × (length t.old ≡ scratch_length) }
    ensures { WireShut wires range here marks.now t.old t.new result }
{
    let d = digits_of(range);
    if !complete(TABLE_WIRE, both(wires, d), &marks[..ROWS_WIRE]) {
        return Step::Stop(Rule::Missing as u8);
    }
    count_wire(range, here, t);
    mark_states(wires, d, &mut t[WIDTH..SCRATCH_LENGTH]);
    Step::Go(figure_done(here))
}

// A line directly in a wire that is read.
fn read_line(
    s: &[u8],
    symbols: &[u32],
    layers: &[u32],
    x: LineAt,
    tally: &mut [u32],
    serials: &mut [u64],
    marks: &mut [bool],
    inner: &mut [bool],
    t: &mut [i64],
) -> Step
    requires { (length s.now ≤ 61440) × (length symbols.now ≤ 65536) × (length layers.now ≤ 65536) × WireReady (lent tally.old serials.old marks.old inner.old) x.here t.old }
    ensures { ReadLine (known_in s.now symbols.now layers.now) x.class (range_in tally.old) x.here x.at (lent tally.old serials.old marks.old inner.old) (lent tally.new serials.new marks.new inner.new) t.old t.new result (form_in s.now x.form) }
{
    let here = x.here;
    let form = x.form;
    match form {
        LineForm::Ignored => {
            return Step::Go(here);
        }
        LineForm::Close => {
            return close_wire(x.class.wires, tally[TALLY_WIRE_RANGE], here, marks, t);
        }
        LineForm::Eof => {
            return Step::Stop(Rule::Order as u8);
        }
        // (two arms: the proof goes by each of them)
        LineForm::Opens(_) => {}
        LineForm::Equals(_) => {}
        LineForm::Refused(r) => {
            return Step::Stop(r.number);
        }
    }
    on_wire_key(s, symbols, layers, x, tally, serials, marks, inner, t)
}

// A line in a wire's text, which is made at the front of the scratch as a layer's text is.
fn text_line(
    s: &[u8],
    symbols: &[u32],
    layers: &[u32],
    here: Now,
    form: LineForm,
    inner: &mut [bool],
    t: &mut [i64],
) -> Step
    requires { (length s.now ≤ 61440) × (length symbols.now ≤ 65536) × (length layers.now ≤ 65536) × (length inner.old ≡ rows_text) × ShelvesReady t.old }
    ensures { TextInWire (text_act (known_in s.now symbols.now layers.now) inner.old (form_in s.now form)) here inner.old inner.new t.old t.new result }
{
    let next = act(
        TABLE_LAYER_TEXT,
        s,
        symbols,
        layers,
        no_digits(),
        inner,
        form,
        0,
        &mut t[0..WIDTH],
    );
    match next {
        Next::Stay => Step::Go(here),
        Next::Entry(row) => {
            inner[row as usize] = true;
            Step::Go(here)
        }
        Next::Begin(_) => Step::Stop(Rule::Form as u8),
        Next::Shut => {
            shelve_text(t);
            Step::Go(past(here))
        }
        Next::Refuse(n) => Step::Stop(n),
    }
}

// So many skipped blocks are open.
fn open_skipped(now: Now, depth: u32) -> Now
    ensures { result ≡ open_skipped now depth }
{
    Now {
        points: depth,
        ..now
    }
}

// "marked unread", with the states of what E_wire allows.
fn mark_wire(range: u32, t: &mut [i64])
    requires { length t.old ≡ scratch_length }
    ensures { t.new ≡ marked_unread range t.old }
{
    mark_states(no_digits(), digits_of(range), &mut t[WIDTH..SCRATCH_LENGTH]);
    t[WIRE_MARK] = UNREAD;
    t[WIRE_MORE_MARK] = UNREAD;
}

// A line of a wire that is skipped whole: "in such a wire an opener directly in the wire's block has depth 1".
fn skipped_line(s: &[u8], range: u32, here: Now, form: LineForm, t: &mut [i64]) -> Step
    requires { (here.figures < 4294967295) × (length t.old ≡ scratch_length) }
    ensures { SkippedLine range here (skipped_by (form_in s.now form)) t.old t.new result }
{
    match skip_line(s, form) {
        Skipped::Passes => Step::Go(here),
        Skipped::Deeper => {
            if MOST_DEPTH <= here.points {
                return Step::Stop(Rule::Nesting as u8);
            }
            Step::Go(open_skipped(here, here.points + 1))
        }
        Skipped::Shut => {
            if here.points > 0 {
                return Step::Go(open_skipped(here, here.points - 1));
            }
            mark_wire(range, t);
            Step::Go(figure_done(here))
        }
        Skipped::Refuse(n) => Step::Stop(n),
    }
}

// A line in a wire. It is lent the whole scratch: its elements' records are made at the front, its own two stand behind.
pub fn on_wire(
    s: &[u8],
    symbols: &[u32],
    layers: &[u32],
    x: LineAt,
    tally: &mut [u32],
    serials: &mut [u64],
    marks: &mut [bool],
    inner: &mut [bool],
    t: &mut [i64],
) -> Step
    requires { (length s.now ≤ 61440) × (length symbols.now ≤ 65536) × (length layers.now ≤ 65536) × WireReady (lent tally.old serials.old marks.old inner.old) x.here t.old }
    ensures { WireLine (known_in s.now symbols.now layers.now) x.class (range_in tally.old) x.here x.at (lent tally.old serials.old marks.old inner.old) (lent tally.new serials.new marks.new inner.new) t.old t.new result (eqb x.here.part wire_skipped) (eqb x.here.part wire_text) (form_in s.now x.form) }
{
    let here = x.here;
    let form = x.form;
    if here.part == WIRE_UNREAD {
        return skipped_line(s, tally[TALLY_WIRE_RANGE], here, form, t);
    }
    if here.part == WIRE_TEXT {
        return text_line(s, symbols, layers, here, form, inner, t);
    }
    read_line(s, symbols, layers, x, tally, serials, marks, inner, t)
}
