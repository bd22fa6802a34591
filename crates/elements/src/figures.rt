// Figures, in a layer or in a symbol's `element`.
ghost use Rattle.std.specs.Prelude.{◌≡◌, false, ◌+◌, ◌≤◌, ◌<◌, length, replicate};
ghost use Rattle.rules.specs.Lines.{form_in};
ghost use Rattle.rules.specs.RangeClass.{digits_of};
ghost use Rattle.rules.specs.Rows.{act};
ghost use Rattle.tables.specs.Tables.{table_of};
ghost use Rattle.entries.specs.Names.{known_in};
ghost use Rattle.account.specs.FigureLines.{layer_table_number, home_table, home_rows, line_kind, block_kind, more_figures, block_takes, figure_opened, figures_closed, unmarked_if, FigureLine};
ghost use Rattle.rules.specs.RecordTable.{width};

use account::{
    BLOCK_ELEMENTS, BLOCK_FIGURES, BLOCK_SYMBOL, INNER_PLACED, INNER_TEXT, INNER_WIRE, KIND_BLOCKS,
    Now, ROWS_FIGURES, ROWS_LAYER, ROWS_WIRED_LAYER, Step, Where,
};
use entries::Next;
use entries::acts::act;
use groundwork::blocks::{at_block, digits_of, unmark};
use groundwork::table::head;
use rules::{IN_SYMBOL, KIND_LINE, KIND_WIRE, LineForm, Rule};
use tables::{
    TABLE_FIGURES, TABLE_LAYER, TABLE_SINGLE_LAYER, TABLE_SINGLE_WIRED_LAYER, TABLE_WIRED_LAYER,
};

// "plus 20 inside a symbol"
const KIND_LINE_IN_SYMBOL: u8 = KIND_LINE + IN_SYMBOL;

const KIND_BLOCKS_IN_SYMBOL: u8 = KIND_BLOCKS + IN_SYMBOL;

// A layer's table: "At range 001 it is `E_symbol=`"; at E_wire 000 there is no row of wires.
fn layer_table(single: bool, wired: bool) -> u8
    ensures { result ≡ layer_table_number single wired }
{
    match (wired, single) {
        (true, true) => TABLE_SINGLE_WIRED_LAYER,
        (true, false) => TABLE_WIRED_LAYER,
        (false, true) => TABLE_SINGLE_LAYER,
        (false, false) => TABLE_LAYER,
    }
}

// The table of the figures that may stand here: "E_symbol: placed symbol, in layers only", and wires too.
fn home_table(layered: bool, range: u32, wires: u32) -> u8
    ensures { result ≡ home_table layered range wires }
{
    if layered {
        layer_table(range == 1, wires != 0)
    } else {
        TABLE_FIGURES
    }
}

fn home_rows(layered: bool, wires: u32) -> usize
    ensures { result ≡ home_rows layered wires }
{
    match (layered, wires) {
        (false, _) => ROWS_FIGURES,
        (true, 0) => ROWS_LAYER,
        (true, _) => ROWS_WIRED_LAYER,
    }
}

// "10 line, 11 circle, 12 ellipse, 13 point", "16 placed symbol"; "plus 20 inside a symbol"
fn line_kind(layered: bool, row: u8) -> u8
    requires { row < 8 }
    ensures { result ≡ line_kind layered row }
{
    if layered {
        KIND_LINE + row
    } else {
        KIND_LINE_IN_SYMBOL + row
    }
}

// "14 successive", "15 text", "16 placed symbol"; "plus 20 inside a symbol"; the first of a wire's two
fn block_kind(layered: bool, block: u8) -> u8
    requires { block ≤ 4 }
    ensures { result ≡ block_kind layered block }
{
    match (block, layered) {
        (INNER_WIRE, _) => KIND_WIRE,
        (_, true) => KIND_BLOCKS + block,
        (_, false) => KIND_BLOCKS_IN_SYMBOL + block,
    }
}

fn more_figures(now: Now) -> Now
    requires { (now.records < 18446744073709551615) × (now.figures < 4294967295) }
    ensures { result ≡ more_figures now }
{
    Now {
        records: now.records + 1,
        figures: now.figures + 1,
        ..now
    }
}

// How many records a figure that is a block takes at its line.
fn block_takes(block: u8) -> usize
    ensures { result ≡ block_takes block }
{
    if block == INNER_WIRE { 2 } else { 1 }
}

// A figure that is a block: 9 `successive`, 10 text, 11 a placed symbol, 12 a wire.
fn figure_opened(now: Now, block: u8) -> Now
    requires { (block ≤ 4) × (now.records + 2 ≤ 18446744073709551615) }
    ensures { result ≡ figure_opened now block }
{
    Now {
        block: BLOCK_FIGURES + block,
        part: 0,
        records: now.records + block_takes(block),
        points: 0,
        ..now
    }
}

// "`element` (one or more figures)"; a layer may have none.
fn close_figures(now: Now) -> Step
    ensures { result ≡ figures_closed now }
{
    if now.layered {
        return Step::Go(at_block(now, BLOCK_ELEMENTS, 0));
    }
    if now.figures == 0 {
        return Step::Stop(Rule::Missing as u8);
    }
    Step::Go(at_block(now, BLOCK_SYMBOL, 0))
}

// A block's marks, as it opens.
fn unmark_if(opens: bool, marks: &mut [bool])
    ensures { marks.new ≡ unmarked_if opens marks.old }
{
    if opens {
        unmark(marks);
    }
}

// A line among the figures: the record that it takes is lent.
pub fn on_figures(
    s: &[u8],
    symbols: &[u32],
    layers: &[u32],
    range: u32,
    wires: u32,
    was: Now,
    form: LineForm,
    at: Where,
    marks: &mut [bool],
    inner_marks: &mut [bool],
    rec: &mut [i64],
) -> Step
    requires { (length s.now ≤ 61440) × (length symbols.now ≤ 65536) × (length layers.now ≤ 65536) × (was.figures < 4294967295) × (was.records + 2 ≤ 18446744073709551615) × (length rec.old ≡ width) }
    ensures { FigureLine (act (known_in s.now symbols.now layers.now) (table_of (home_table was.layered range wires)) (digits_of range) (replicate (home_rows was.layered wires) false) (form_in s.now form)) was range wires at rec.old rec.new marks.old marks.new inner_marks.old inner_marks.new result }
{
    let full = [false; ROWS_WIRED_LAYER];
    let rows = home_rows(was.layered, wires);
    let next = act(
        home_table(was.layered, range, wires),
        s,
        symbols,
        layers,
        digits_of(range),
        &full[..rows],
        form,
        0,
        rec,
    );
    match next {
        Next::Stay => Step::Go(was),
        Next::Entry(row) => {
            head(
                rec,
                0,
                line_kind(was.layered, row),
                was.owner,
                at.volume,
                at.line,
            );
            Step::Go(more_figures(was))
        }
        Next::Begin(inner) => {
            head(
                rec,
                0,
                block_kind(was.layered, inner.block),
                was.owner,
                at.volume,
                at.line,
            );
            unmark_if(INNER_PLACED <= inner.block, marks);
            unmark_if(inner.block == INNER_TEXT, inner_marks);
            Step::Go(figure_opened(was, inner.block))
        }
        Next::Shut => close_figures(was),
        Next::Refuse(n) => Step::Stop(n),
    }
}
