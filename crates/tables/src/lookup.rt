// The row of a key in the table of a number.
// Made by tools/make-keys from the definitions' rows: change those, or the script.
ghost use Rattle.std.specs.Prelude.{◌≡◌, option_map, find as first};
ghost use Rattle.rules.specs.Base.{same as sameBytes};
ghost use Rattle.rules.specs.Rows.{find};
ghost use Rattle.tables.specs.Rows.{found_of, found_for_line};
ghost use Rattle.tables.specs.Tables.{table_of};
ghost use Rattle.tables.specs.Entries.{listed, numbered};

use crate::blocks::{
    BASE_ROWS, DEFINES_ROWS, DRAWING_ROWS, ELEC_ROWS, ELEMENT_ROWS, FILE_ROWS, LATER_ROWS,
    PLACED_ROWS, RANGE_ROWS, SYM_ROWS, SYMBOL_ROWS, TOP_ROWS, WIRE_ROWS,
};
use crate::figures::{
    FIGURE_ROWS, LAYER_POINT_ROWS, LAYER_ROWS, LAYER_TEXT_ROWS, PLACED_TEXT_ROWS,
    SINGLE_LAYER_ROWS, SYMBOL_POINT_ROWS, SYMBOL_TEXT_ROWS,
};
use crate::rows::Entry;
use crate::{
    Row, TABLE_BASE, TABLE_DEFINES, TABLE_DRAWING, TABLE_ELEC, TABLE_ELEMENT, TABLE_FIGURES,
    TABLE_FILE, TABLE_LATER, TABLE_LAYER, TABLE_LAYER_POINTS, TABLE_LAYER_TEXT, TABLE_PLACED,
    TABLE_PLACED_TEXT, TABLE_RANGE, TABLE_SINGLE_LAYER, TABLE_SINGLE_WIRED_LAYER, TABLE_SYM,
    TABLE_SYMBOL, TABLE_SYMBOL_POINTS, TABLE_SYMBOL_TEXT, TABLE_TOP, TABLE_WIRE, TABLE_WIRED_LAYER,
};
use leaves::bytes::spells;

// A table's rows; a table that is none has no rows.
#[tactic(auto, unfolding(crate::specs::Tables::table_of, rules::specs::Blocks::top_table, rules::specs::Blocks::file_table, rules::specs::Blocks::range_table, rules::specs::Blocks::base_table, rules::specs::Blocks::elec_table, rules::specs::Blocks::sym_table, rules::specs::Blocks::later_table, rules::specs::Blocks::drawing_table, rules::specs::Blocks::defines_table, rules::specs::Blocks::symbol_table, rules::specs::Blocks::element_table, rules::specs::Figures::layer_table, rules::specs::Figures::figure_table, rules::specs::Figures::point_table, rules::specs::Figures::text_table, rules::specs::Figures::placed_table, rules::specs::Figures::wire_table, crate::specs::Rows::parts_of))]
fn rows_of(table: u8) -> &'static [Entry]
    ensures { listed result.now ≡ numbered 0 (table_of table) }
{
    match table {
        TABLE_TOP => &TOP_ROWS,
        TABLE_FILE => &FILE_ROWS,
        TABLE_RANGE => &RANGE_ROWS,
        TABLE_BASE => &BASE_ROWS,
        TABLE_ELEC => &ELEC_ROWS,
        TABLE_SYM => &SYM_ROWS,
        TABLE_LATER => &LATER_ROWS,
        TABLE_DRAWING => &DRAWING_ROWS,
        TABLE_DEFINES => &DEFINES_ROWS,
        TABLE_SYMBOL => &SYMBOL_ROWS,
        TABLE_ELEMENT => &ELEMENT_ROWS,
        TABLE_LAYER => &LAYER_ROWS[..7],
        TABLE_SINGLE_LAYER => &SINGLE_LAYER_ROWS[..7],
        TABLE_FIGURES => &FIGURE_ROWS,
        TABLE_LAYER_POINTS => &LAYER_POINT_ROWS,
        TABLE_SYMBOL_POINTS => &SYMBOL_POINT_ROWS,
        TABLE_LAYER_TEXT => &LAYER_TEXT_ROWS,
        TABLE_SYMBOL_TEXT => &SYMBOL_TEXT_ROWS,
        TABLE_PLACED => &PLACED_ROWS,
        TABLE_PLACED_TEXT => &PLACED_TEXT_ROWS,
        TABLE_WIRE => &WIRE_ROWS,
        TABLE_WIRED_LAYER => &LAYER_ROWS,
        TABLE_SINGLE_WIRED_LAYER => &SINGLE_LAYER_ROWS,
        _ => &[],
    }
}

// The first row of a key.
fn first_of(rows: &[Entry], k: &[u8]) -> Option<Row>
    ensures { result ≡ option_map (λ e. e.row) (first (λ e. sameBytes k.now e.key.now) rows.now) }
{
    rows.iter()
        .find(|entry| spells(k, entry.key))
        .map(|entry| entry.row)
}

// The row of a key, and its number.
pub fn row_of(table: u8, k: &[u8]) -> Option<Row>
    ensures { found_for_line (find k.now (table_of table)) ≡ found_of result }
{
    first_of(rows_of(table), k)
}
