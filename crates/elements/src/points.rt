// The points of a `successive` and of a symbol's `hide`.
ghost use Rattle.std.specs.Prelude.{◌≡◌, Bool, false, ◌≤◌, ◌<◌, ltb, length};
ghost use Rattle.rules.specs.Figures.{least_points};
ghost use Rattle.account.specs.Points.{point_table_of, chain_kind, point_act, more_points, chain_end, chain_typed, chain_closed, PointLine, ChainLine, HideLine};
ghost use Rattle.account.specs.Numbering.{chain_length};
ghost use Rattle.tables.specs.Numbering.{table_symbol_points};
ghost use Rattle.rules.specs.RecordTable.{width};

use account::{BLOCK_SYMBOL, CHAIN_LENGTH, Now, Step, Where};
use entries::Next;
use entries::acts::act;
use groundwork::blocks::{at_block, figure_done, no_digits};
use groundwork::table::head;
use rules::{IN_SYMBOL, KIND_HIDDEN, KIND_POINT, LineForm, Rule, WIDTH};
use tables::{TABLE_LAYER_POINTS, TABLE_SYMBOL_POINTS};

// "plus 20 inside a symbol"
const KIND_POINT_IN_SYMBOL: u8 = KIND_POINT + IN_SYMBOL;

// "block of 3 to 100 point"; "`hide` (0 to 100 points, H)"
const MOST_POINTS: u32 = 100;

// Where a point's type stands in its record, and the first point's in the record of its `successive`.
const PLACE_TYPE: usize = 4;

// Behind it there, how many points it has.
const PLACE_COUNT: usize = 5;

// "In layers no coordinate is negative but the two centres; in symbols any sign."
fn point_table(layered: bool) -> u8
    ensures { result ≡ point_table_of layered }
{
    if layered {
        TABLE_LAYER_POINTS
    } else {
        TABLE_SYMBOL_POINTS
    }
}

// "17 a successive's points", "plus 20 inside a symbol"
fn chain_point_kind(layered: bool) -> u8
    ensures { result ≡ chain_kind layered }
{
    if layered {
        KIND_POINT
    } else {
        KIND_POINT_IN_SYMBOL
    }
}

// One more point, or element of a wire.
pub(crate) fn more_points(now: Now) -> Now
    requires { (now.records < 18446744073709551615) × (now.points < 4294967295) }
    ensures { result ≡ more_points now }
{
    Now {
        records: now.records + 1,
        points: now.points + 1,
        ..now
    }
}

// A line in a block of points. The point's record is lent.
fn point_line(
    table: u8,
    kind: u8,
    s: &[u8],
    symbols: &[u32],
    layers: &[u32],
    here: Now,
    form: LineForm,
    at: Where,
    rec: &mut [i64],
) -> Next
    requires { (length s.now ≤ 61440) × (length symbols.now ≤ 65536) × (length layers.now ≤ 65536) × (length rec.old ≡ width) × ((layered : Bool) × (table ≡ point_table_of layered)) }
    ensures { PointLine (point_act table s.now symbols.now layers.now here form) here kind table at rec.old rec.new result }
{
    let full = [MOST_POINTS <= here.points];
    let next = act(table, s, symbols, layers, no_digits(), &full, form, 0, rec);
    // (not `if let`: the proof did not close with the other kinds in one arm)
    match next {
        Next::Stay => next,
        Next::Entry(_) => {
            head(rec, 0, kind, here.owner, at.volume, at.line);
            next
        }
        Next::Begin(_) => next,
        Next::Shut => next,
        Next::Refuse(_) => next,
    }
}

// "14 successive (first point's type, point count)": the type goes to its own record at its first point's line, from that point's record.
fn type_chain(here: Now, t: &mut [i64])
    requires { length t.old ≡ chain_length }
    ensures { t.new ≡ chain_typed here t.old }
{
    if here.points == 0 {
        t[PLACE_TYPE] = t[WIDTH + PLACE_TYPE];
    }
}

// The count goes there at its end.
fn close_chain(here: Now, t: &mut [i64]) -> Step
    requires { (here.figures < 4294967295) × (here.points < 4294967295) × (length t.old ≡ chain_length) }
    ensures { (result ≡ chain_end here) × (ltb here.points least_points ≡ false → t.new ≡ chain_closed here t.old) }
{
    if here.points < 3 {
        return Step::Stop(Rule::Missing as u8);
    }
    t[PLACE_COUNT] = i64::from(here.points);
    Step::Go(figure_done(here))
}

// A line in a `successive`. It is lent two records: its own, and behind it the point's.
pub fn on_chain(
    s: &[u8],
    symbols: &[u32],
    layers: &[u32],
    here: Now,
    form: LineForm,
    at: Where,
    t: &mut [i64],
) -> Step
    requires { (length s.now ≤ 61440) × (length symbols.now ≤ 65536) × (length layers.now ≤ 65536) × (here.figures < 4294967295) × (here.points < 4294967295) × (here.records < 18446744073709551615) × (length t.old ≡ chain_length) }
    ensures { ChainLine (point_act (point_table_of here.layered) s.now symbols.now layers.now here form) here at t.old t.new result }
{
    let next = point_line(
        point_table(here.layered),
        chain_point_kind(here.layered),
        s,
        symbols,
        layers,
        here,
        form,
        at,
        &mut t[WIDTH..CHAIN_LENGTH],
    );
    match next {
        Next::Stay => Step::Go(here),
        Next::Entry(_) => {
            type_chain(here, t);
            Step::Go(more_points(here))
        }
        Next::Begin(_) => Step::Stop(Rule::Form as u8),
        Next::Shut => close_chain(here, t),
        Next::Refuse(n) => Step::Stop(n),
    }
}

// A line in a symbol's `hide`: "43 hide point".
pub fn on_hide(
    s: &[u8],
    symbols: &[u32],
    layers: &[u32],
    here: Now,
    form: LineForm,
    at: Where,
    rec: &mut [i64],
) -> Step
    requires { (length s.now ≤ 61440) × (length symbols.now ≤ 65536) × (length layers.now ≤ 65536) × (here.points < 4294967295) × (here.records < 18446744073709551615) × (length rec.old ≡ width) }
    ensures { HideLine (point_act table_symbol_points s.now symbols.now layers.now here form) here at rec.old rec.new result }
{
    let next = point_line(
        TABLE_SYMBOL_POINTS,
        KIND_HIDDEN,
        s,
        symbols,
        layers,
        here,
        form,
        at,
        rec,
    );
    match next {
        Next::Stay => Step::Go(here),
        Next::Entry(_) => Step::Go(more_points(here)),
        Next::Begin(_) => Step::Stop(Rule::Form as u8),
        Next::Shut => Step::Go(at_block(here, BLOCK_SYMBOL, 0)),
        Next::Refuse(n) => Step::Stop(n),
    }
}
