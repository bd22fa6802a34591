// What a line with a key enters.
ghost use Rattle.std.specs.Prelude.{◌≡◌, true, not, ◌<◌, ◌≤◌, length};
ghost use Rattle.rules.specs.Lines.{bytes_at};
ghost use Rattle.rules.specs.Values.{read_kind};
ghost use Rattle.rules.specs.RangeClass.{reaches};
ghost use Rattle.rules.specs.RecordTable.{put_state};
ghost use Rattle.rules.specs.Rows.{not_twice, read_shape, inner_of, act_row};
ghost use Rattle.tables.specs.Rows.{kind_of, times_of, rule_of};
ghost use Rattle.entries.specs.Names.{known_in, known_of};
ghost use Rattle.entries.specs.Entering.{Puts};
ghost use Rattle.entries.specs.Shapes.{rest_in, shape_in};
ghost use Rattle.entries.specs.Acts.{place_of, put_line, roomy, value_of, Acts, act_shape, next_for};

use crate::contents::read_kind;
use crate::names::part;
use crate::shapes::{fits, inner_of, is_free, shape_for};
use crate::{Inner, Known, Next, Rest, Shape};
use rules::{Digits, Rule, Span};
use tables::{Row, TIMES_ONCE};

fn place_of(place: u8, dump: usize) -> usize
    ensures { result ≡ place_of place dump }
{
    if place == 0 { dump } else { place as usize }
}

fn put_state(place: u8, z: i64, rec: &mut [i64])
    requires { place < length rec.old }
    ensures { rec.new ≡ put_state place z rec.old }
{
    if place != 0 {
        rec[place as usize] = z;
    }
}

// Content that is not empty, and that it is given.
fn put_content(row: Row, known: &Known<'_>, p: Span, dump: usize, rec: &mut [i64]) -> Result<(), u8>
    requires { roomy dump (length rec.old) (rule_of row) ≡ true }
    ensures { Puts (read_kind (known_of known.now) (kind_of row) p.at (bytes_at known.now.spool.now p)) (λ v. put_line (rule_of row) dump v rec.old) rec.new result }
{
    read_kind(
        row,
        p.at,
        known,
        part(known.spool, p),
        place_of(row.place, dump),
        rec,
    )?;
    put_state(row.state, 2, rec);
    Ok(())
}

// A line that has the form its row asks for. Content is entered by one call, whether it opens a block or not, so that the compiler can
// put that function in line.
fn put_shape(
    row: Row,
    known: &Known<'_>,
    shape: Shape,
    dump: usize,
    rec: &mut [i64],
) -> Result<(), u8>
    requires { roomy dump (length rec.old) (rule_of row) ≡ true }
    ensures { Puts (read_shape (known_of known.now) row.number (rule_of row) (shape_in known.now.spool.now shape)) (λ a. put_line (rule_of row) dump (value_of a) rec.old) rec.new result }
{
    match shape {
        Shape::Formless => return Err(Rule::Form as u8),
        Shape::Opener => put_state(row.state, 2, rec),
        Shape::NoContent => put_state(row.state, 1, rec),
        Shape::Content(p) | Shape::Opening(p) => { put_content(row, known, p, dump, rec)? }
    }
    Ok(())
}

// Digits of a range or class that have at least what is asked for.
pub fn reaches(d: Digits, least: Digits) -> bool
    ensures { result ≡ reaches d least }
{
    least.middle <= d.middle && least.last <= d.last
}

fn twice(times: u8, full: bool) -> bool
    ensures { not_twice (times_of times) full ≡ not result }
{
    times == TIMES_ONCE && full
}

// What a line that was entered does; one too many is 11.
fn entered(row: Row, full: bool, shape: Shape) -> Next
    ensures { result ≡ next_for full row.number (inner_of (kind_of row)) shape }
{
    if full {
        return Next::Refuse(Rule::Value as u8);
    }
    match shape {
        Shape::Opener | Shape::Opening(_) => Next::Begin(Inner {
            block: inner_of(row),
            row: row.number,
        }),
        _ => Next::Entry(row.number),
    }
}

// What is wrong with a line is asked in this order, as each has a refusal of its own.
fn act_shape(
    row: Row,
    known: &Known<'_>,
    d: Digits,
    full: bool,
    shape: Shape,
    dump: usize,
    rec: &mut [i64],
) -> Next
    requires { roomy dump (length rec.old) (rule_of row) ≡ true }
    ensures { Acts (λ _. rule_of row) dump rec.old (act_shape (known_of known.now) d full row.number (rule_of row) (shape_in known.now.spool.now shape)) rec.new result }
{
    if matches!(shape, Shape::Formless) {
        return Next::Refuse(Rule::Form as u8);
    }
    if !reaches(d, row.least) {
        return Next::Refuse(Rule::Key as u8);
    }
    if !fits(row, known.spool, shape) {
        return Next::Refuse(Rule::Form as u8);
    }
    if twice(row.times, full) {
        return Next::Refuse(Rule::Twice as u8);
    }
    match put_shape(row, known, shape, dump, rec) {
        Err(n) => Next::Refuse(n),
        Ok(()) => entered(row, full, shape),
    }
}

// A line of a row that was found, by what stands behind its key.
pub(crate) fn row_line(
    row: Row,
    known: &Known<'_>,
    d: Digits,
    full: bool,
    rest: Rest,
    dump: usize,
    rec: &mut [i64],
) -> Next
    requires { roomy dump (length rec.old) (rule_of row) ≡ true }
    ensures { Acts (λ _. rule_of row) dump rec.old (act_row (known_of known.now) d full row.number (rule_of row) (rest_in known.now.spool.now rest)) rec.new result }
{
    let shape = shape_for(known.spool, is_free(row), rest);
    act_shape(row, known, d, full, shape, dump, rec)
}

// A line of a row that was found, in a file of the range d; `full` tells that the row has had all it may have. What a row without a
// place holds goes to the places from `dump` on.
pub fn act_row(
    row: Row,
    s: &[u8],
    symbols: &[u32],
    layers: &[u32],
    d: Digits,
    full: bool,
    rest: Rest,
    dump: usize,
    rec: &mut [i64],
) -> Next
    requires { (length s.now ≤ 61440) × (length symbols.now ≤ 65536) × (length layers.now ≤ 65536) × (roomy dump (length rec.old) (rule_of row) ≡ true) }
    ensures { Acts (λ _. rule_of row) dump rec.old (act_row (known_in s.now symbols.now layers.now) d full row.number (rule_of row) (rest_in s.now rest)) rec.new result }
{
    let known = Known {
        spool: s,
        symbols,
        layers,
    };
    row_line(row, &known, d, full, rest, dump, rec)
}
