// SYMBOL_DEFINE, and a symbol in it.
ghost use Rattle.std.specs.Prelude.{◌≡◌, true, false, [], ◌∷◌, ◌+◌, ◌≤◌, ◌<◌, length, get_or, set, take};
ghost use Rattle.rules.specs.Lines.{form_in};
ghost use Rattle.rules.specs.RangeClass.{digits_of};
ghost use Rattle.rules.specs.Rows.{act};
ghost use Rattle.tables.specs.Tables.{table_of};
ghost use Rattle.entries.specs.Names.{known_in};
ghost use Rattle.account.specs.SymbolLines.{non_in, non_read, symbol_opened, open_symbol, SymbolBegun, OpenedOr, defined_in, close_defines, DefinesLine, name_of, is_named, ContentPlaced, is_new, symbol_entry, symbol_part, SymbolLine, name_number};
ghost use Rattle.tables.specs.Numbering.{table_defines, table_symbol};
ghost use Rattle.account.specs.Numbering.{rows_symbol, tally_symbols, tally_length, most_rows};
ghost use Rattle.rules.specs.RecordTable.{width};

use account::{
    BLOCK_DEFINES, BLOCK_FIGURES, BLOCK_HIDE, BLOCK_SYMBOL, BLOCK_TOP, INNER_ELEMENT, Now,
    PLACE_NAME, PLACE_NAME_LENGTH, ROWS_SYMBOL, Step, TALLY_SYMBOLS, TURN_ELEMENT, Where,
};
use entries::Next;
use entries::acts::act;
use entries::names::{index_of, part};
use groundwork::blocks::{at_block, digits_of, unmark};
use groundwork::table::head;
use rules::{KIND_SYMBOL, LineForm, Rule, Span};
use tables::{TABLE_DEFINES, TABLE_SYMBOL};

// The part of SYMBOL_DEFINE behind `NON=`.
const AFTER_NON: u8 = 1;

// The row of a symbol's name.
const ROW_NAME: u8 = 0;

// "NON and a symbol together" is 6
fn non_read(here: Now, count: usize) -> Step
    ensures { result ≡ non_read here count }
{
    if count != 0 {
        return Step::Stop(Rule::Key as u8);
    }
    Step::Go(at_block(here, BLOCK_DEFINES, AFTER_NON))
}

// A symbol is begun: its record, and nothing in it.
fn symbol_opened(here: Now, count: u32) -> Now
    requires { here.records < 18446744073709551615 }
    ensures { result ≡ symbol_opened here count }
{
    Now {
        block: BLOCK_SYMBOL,
        part: 0,
        layered: false,
        owner: count,
        records: here.records + 1,
        figures: 0,
        points: 0,
    }
}

fn open_symbol(here: Now, count: usize, at: Where, marks: &mut [bool], rec: &mut [i64]) -> Step
    requires { (count ≤ 65536) × (length rec.old ≡ width) × (here.records < 18446744073709551615) }
    ensures { (result ≡ open_symbol here count) × OpenedOr (non_in here) (SymbolBegun count at marks.old marks.new rec.old rec.new) }
{
    if here.part != 0 {
        return Step::Stop(Rule::Key as u8);
    }
    head(rec, 0, KIND_SYMBOL, count as u32, at.volume, at.line);
    unmark(marks);
    Step::Go(symbol_opened(here, count as u32))
}

// `NON=` or a symbol was read.
fn defined(here: Now, count: usize) -> bool
    ensures { result ≡ defined_in here count }
{
    here.part != 0 || count != 0
}

// Neither is 8.
fn close_defines(here: Now, count: usize) -> Step
    ensures { result ≡ close_defines here count }
{
    if !defined(here, count) {
        return Step::Stop(Rule::Missing as u8);
    }
    Step::Go(at_block(here, BLOCK_TOP, TURN_ELEMENT))
}

// A line in SYMBOL_DEFINE.
pub fn on_defines(
    s: &[u8],
    symbols: &[u32],
    layers: &[u32],
    range: u32,
    here: Now,
    form: LineForm,
    at: Where,
    marks: &mut [bool],
    rec: &mut [i64],
) -> Step
    requires { (length s.now ≤ 61440) × (length symbols.now ≤ 65536) × (length layers.now ≤ 65536) × (length rec.old ≡ width) × (here.records < 18446744073709551615) }
    ensures { DefinesLine (act (known_in s.now symbols.now layers.now) (table_of table_defines) (digits_of range) (non_in here ∷ false ∷ []) (form_in s.now form)) here (length symbols.now) at marks.old marks.new rec.old rec.new result }
{
    let full = [here.part != 0, false];
    let count = symbols.len();
    let mut nothing = [0i64; 1];
    let next = act(
        TABLE_DEFINES,
        s,
        symbols,
        layers,
        digits_of(range),
        &full,
        form,
        0,
        &mut nothing,
    );
    match next {
        Next::Stay => Step::Go(here),
        Next::Entry(_) => non_read(here, count),
        Next::Begin(_) => open_symbol(here, count, at, marks, rec),
        Next::Shut => close_defines(here, count),
        Next::Refuse(n) => Step::Stop(n),
    }
}

// The name in a symbol's record.
fn name_in(rec: &[i64]) -> Span
    requires { (7 ≤ length rec.now) × (is_named rec.now ≡ true) }
    ensures { result ≡ name_of rec.now }
{
    Span {
        at: rec[PLACE_NAME] as u32,
        len: rec[PLACE_NAME_LENGTH] as u32,
    }
}

// "15: symbol name twice"
fn is_new(s: &[u8], symbols: &[u32], name: Span) -> bool
    requires { length symbols.now ≤ 65536 }
    ensures { result ≡ is_new s.now symbols.now name }
{
    index_of(s, symbols, part(s, name)).is_none()
}

fn symbol_entry(
    s: &[u8],
    symbols: &[u32],
    here: Now,
    row: u8,
    marks: &mut [bool],
    rec: &[i64],
) -> Step
    requires { (length symbols.now ≤ 65536) × (row < length marks.old) × (7 ≤ length rec.now) × (row ≡ 0 → is_named rec.now ≡ true) }
    ensures { (result ≡ symbol_entry s.now symbols.now here row rec.now) × (marks.new ≡ set marks.old row true) }
{
    marks[row as usize] = true;
    if row == ROW_NAME && !is_new(s, symbols, name_in(rec)) {
        return Step::Stop(Rule::Serial as u8);
    }
    Step::Go(here)
}

// `element` is open, or `hide`.
fn symbol_part(here: Now, block: u8) -> Now
    ensures { result ≡ symbol_part here block }
{
    let (block, figures) = if block == INNER_ELEMENT {
        (BLOCK_FIGURES, 0)
    } else {
        (BLOCK_HIDE, here.figures)
    };
    Now {
        block,
        part: 0,
        layered: false,
        figures,
        points: 0,
        ..here
    }
}

// A line in a symbol.
pub fn on_symbol(
    s: &[u8],
    symbols: &[u32],
    layers: &[u32],
    range: u32,
    here: Now,
    form: LineForm,
    marks: &mut [bool],
    rec: &mut [i64],
) -> Step
    requires { (length s.now ≤ 61440) × (length symbols.now ≤ 65536) × (length layers.now ≤ 65536) × (length marks.old ≡ most_rows) × (length rec.old ≡ width) × ContentPlaced (form_in s.now form) }
    ensures { SymbolLine (act (known_in s.now symbols.now layers.now) (table_of table_symbol) (digits_of range) (take rows_symbol marks.old) (form_in s.now form)) s.now symbols.now here marks.old marks.new rec.old rec.new result }
{
    let next = act(
        TABLE_SYMBOL,
        s,
        symbols,
        layers,
        digits_of(range),
        &marks[..ROWS_SYMBOL],
        form,
        0,
        rec,
    );
    match next {
        Next::Stay => Step::Go(here),
        Next::Entry(row) => symbol_entry(s, symbols, here, row, marks, rec),
        Next::Begin(inner) => {
            marks[inner.row as usize] = true;
            Step::Go(symbol_part(here, inner.block))
        }
        Next::Shut => Step::Go(at_block(here, BLOCK_DEFINES, 0)),
        Next::Refuse(n) => Step::Stop(n),
    }
}

// A closed symbol's name joins the others.
pub fn keep_name(tally: &mut [u32], symbols: &mut [u32], rec: &[i64])
    requires { (length tally.old ≡ tally_length) × (get_or tally.old tally_symbols 0 < length symbols.old) × (length symbols.old ≤ 65536) × (length rec.now ≡ width) × (is_named rec.now ≡ true) }
    ensures { (symbols.new ≡ set symbols.old (get_or tally.old tally_symbols 0) (name_number (name_of rec.now))) × (tally.new ≡ set tally.old tally_symbols (get_or tally.old tally_symbols 0 + 1)) }
{
    let name = name_in(rec);
    let i = tally[TALLY_SYMBOLS] as usize;
    symbols[i] = name.at + 65536 * name.len;
    tally[TALLY_SYMBOLS] += 1;
}
