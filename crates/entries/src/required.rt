// The rows that a block must have, by the digits of the range that ask for them.
// Made by tools/make-keys from the definitions' rows: change those, or the script.
ghost use Rattle.std.specs.Prelude.{◌≡◌, map};
ghost use Rattle.tables.specs.Tables.{table_of};
ghost use Rattle.entries.specs.Acts.{asked_from};

use rules::Digits;
use tables::{
    TABLE_BASE, TABLE_DEFINES, TABLE_DRAWING, TABLE_ELEC, TABLE_ELEMENT, TABLE_FIGURES, TABLE_FILE,
    TABLE_LATER, TABLE_LAYER, TABLE_LAYER_POINTS, TABLE_LAYER_TEXT, TABLE_PLACED,
    TABLE_PLACED_TEXT, TABLE_RANGE, TABLE_SINGLE_LAYER, TABLE_SINGLE_WIRED_LAYER, TABLE_SYM,
    TABLE_SYMBOL, TABLE_SYMBOL_POINTS, TABLE_SYMBOL_TEXT, TABLE_TOP, TABLE_WIRE, TABLE_WIRED_LAYER,
};

const NEVER: Option<Digits> = None;

const ALWAYS: Option<Digits> = Some(Digits { middle: 0, last: 0 });

const FROM_01: Option<Digits> = Some(Digits { middle: 0, last: 1 });

const FROM_02: Option<Digits> = Some(Digits { middle: 0, last: 2 });

const FROM_03: Option<Digits> = Some(Digits { middle: 0, last: 3 });

const FROM_04: Option<Digits> = Some(Digits { middle: 0, last: 4 });

const FROM_05: Option<Digits> = Some(Digits { middle: 0, last: 5 });

const FROM_06: Option<Digits> = Some(Digits { middle: 0, last: 6 });

const FROM_07: Option<Digits> = Some(Digits { middle: 0, last: 7 });

const FROM_08: Option<Digits> = Some(Digits { middle: 0, last: 8 });

const FROM_10: Option<Digits> = Some(Digits { middle: 1, last: 0 });

// From which digits on a block must have each row of its table; a table that is none has no rows.
#[tactic(auto, unfolding(tables::specs::Tables::table_of, rules::specs::Blocks::top_table, rules::specs::Blocks::file_table, rules::specs::Blocks::range_table, rules::specs::Blocks::base_table, rules::specs::Blocks::elec_table, rules::specs::Blocks::sym_table, rules::specs::Blocks::later_table, rules::specs::Blocks::drawing_table, rules::specs::Blocks::defines_table, rules::specs::Blocks::symbol_table, rules::specs::Blocks::element_table, rules::specs::Figures::layer_table, rules::specs::Figures::figure_table, rules::specs::Figures::point_table, rules::specs::Figures::text_table, rules::specs::Figures::placed_table, rules::specs::Figures::wire_table))]
pub(crate) fn required(table: u8) -> &'static [Option<Digits>]
    ensures { result.now ≡ map asked_from (table_of table) }
{
    match table {
        // Outside all blocks; the order of the blocks is judged by the reader.
        TABLE_TOP => &[NEVER; 4],
        // FILE_FORMAT of the first volume: its record and the volume's behind it.
        TABLE_FILE => &[ALWAYS; 16],
        // `range`.
        TABLE_RANGE => &[ALWAYS, NEVER, NEVER, NEVER, NEVER, NEVER],
        // `base=001:{`.
        TABLE_BASE => &[ALWAYS],
        // `elec=001:{`.
        TABLE_ELEC => &[ALWAYS; 3],
        // `sym=001:{`.
        TABLE_SYM => &[ALWAYS; 2],
        // FILE_FORMAT of later volumes.
        TABLE_LATER => &[ALWAYS; 5],
        // DRAWING_FORMAT; its range is arc.
        TABLE_DRAWING => &[
            ALWAYS, ALWAYS, ALWAYS, ALWAYS, ALWAYS, ALWAYS, FROM_01, ALWAYS,
        ],
        // SYMBOL_DEFINE; its range is S_elec.
        TABLE_DEFINES => &[NEVER; 2],
        // E_symbol in SYMBOL_DEFINE; its range is S_elec.
        TABLE_SYMBOL => &[ALWAYS, ALWAYS, ALWAYS, FROM_02],
        // ELEMENT.
        TABLE_ELEMENT => &[NEVER],
        // The figures of a layer, and a placed symbol among them.
        TABLE_LAYER | TABLE_SINGLE_LAYER => &[NEVER; 7],
        // The figures of a symbol's `element`.
        TABLE_FIGURES => &[NEVER; 6],
        // `successive` or `hide`.
        TABLE_LAYER_POINTS | TABLE_SYMBOL_POINTS => &[NEVER],
        // `text`.
        TABLE_LAYER_TEXT | TABLE_SYMBOL_TEXT | TABLE_PLACED_TEXT => &[ALWAYS; 2],
        // A placed symbol's block; its range is E_sym.
        TABLE_PLACED => &[ALWAYS, NEVER, FROM_03, FROM_04, FROM_05, FROM_10],
        // A wire's block; its range is the last two digits of E_wire.
        TABLE_WIRE => &[
            NEVER, NEVER, NEVER, NEVER, NEVER, NEVER, FROM_06, FROM_07, FROM_08, FROM_10,
        ],
        // The figures of a layer, and a placed symbol and a wire among them.
        TABLE_WIRED_LAYER | TABLE_SINGLE_WIRED_LAYER => &[NEVER; 8],
        _ => &[],
    }
}
