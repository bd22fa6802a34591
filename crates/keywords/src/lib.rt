// The keys as the rewriter writes them: each from the byte string that the reader compares it with (tables).
// Made by tools/make-keys from the definitions' rows: change those, or the script.
#![tactic(auto)]

ghost use Rattle.std.specs.Prelude.{◌≡◌};
ghost use Rattle.leaves.specs.Writing.{Puts};
ghost use Rattle.keywords.specs.Keys.{key_at, keys, texts};
ghost use Rattle.tables.specs.Tables.{table_of};

use leaves::NoRoom;
use leaves::write::put;
use tables::keys::{
    AIR, ALL_ELE, ALL_LINE, ARC, B_SYM, BASE, CAD, CHARACTER, CIRCLE, CIRCUIT, CORP, DATE, DIREC,
    DRAWER, DRAWING_FORMAT, DRAWNAME, E_CIRNO, E_SYM, E_SYMBOL, E_WIRE, ELEC, ELEMENT,
    ELEMENT_BLOCK, ELLIPSE, FILE_FORMAT, FLOOR_HEIGHT, HARD, HIDE, HIGHT, LAYER, LAYER_NAME,
    LENGTH, LINE, MAKE, NAME, NEXT_FILE, NON, NUM, OS, PIEND, PIPE, POINT, POS, POWER, PROJECT,
    RANGE, S_BASE, S_ELEC, SCALE, SERIAL, SIZE, SUCCESSIVE, SYM, SYMBOL, SYMBOL_DEFINE, TEL, TEXT,
    THIS_ELE, THIS_LINE, TIME, TYPE, VER, WALL,
};
use tables::{
    TABLE_BASE, TABLE_DEFINES, TABLE_DRAWING, TABLE_ELEC, TABLE_ELEMENT, TABLE_FIGURES, TABLE_FILE,
    TABLE_LATER, TABLE_LAYER, TABLE_LAYER_POINTS, TABLE_LAYER_TEXT, TABLE_PLACED,
    TABLE_PLACED_TEXT, TABLE_RANGE, TABLE_SINGLE_LAYER, TABLE_SINGLE_WIRED_LAYER, TABLE_SYM,
    TABLE_SYMBOL, TABLE_SYMBOL_POINTS, TABLE_SYMBOL_TEXT, TABLE_TOP, TABLE_WIRE, TABLE_WIRED_LAYER,
};

// A table's keys in the order of its rows; a table that is none has no rows. (They are not taken from the rows of tables: the edits
// `element_and_hide_exchanged`, `defines_as_drawing` and `wire_as_cirno` write a wrong key here where the right one is read.)
#[tactic(auto, unfolding(tables::specs::Tables::table_of, rules::specs::Blocks::top_table, rules::specs::Blocks::file_table, rules::specs::Blocks::range_table, rules::specs::Blocks::base_table, rules::specs::Blocks::elec_table, rules::specs::Blocks::sym_table, rules::specs::Blocks::later_table, rules::specs::Blocks::drawing_table, rules::specs::Blocks::defines_table, rules::specs::Blocks::symbol_table, rules::specs::Blocks::element_table, rules::specs::Figures::layer_table, rules::specs::Figures::figure_table, rules::specs::Figures::point_table, rules::specs::Figures::text_table, rules::specs::Figures::placed_table, rules::specs::Figures::wire_table))]
fn keys_of(table: u8) -> &'static [&'static [u8]]
    ensures { texts result.now ≡ keys (table_of table) }
{
    match table {
        // Outside all blocks; the order of the blocks is judged by the reader.
        TABLE_TOP => &[
            &FILE_FORMAT,
            &DRAWING_FORMAT,
            &SYMBOL_DEFINE,
            &ELEMENT_BLOCK,
        ],
        // FILE_FORMAT of the first volume: its record and the volume's behind it.
        TABLE_FILE => &[
            &RANGE, &ALL_LINE, &THIS_LINE, &ALL_ELE, &THIS_ELE, &NEXT_FILE, &DATE, &TIME, &CAD,
            &OS, &HARD, &VER, &CORP, &MAKE, &TEL, &NAME,
        ],
        // `range`.
        TABLE_RANGE => &[&BASE, &ARC, &ELEC, &AIR, &PIPE, &SYM],
        // `base=001:{`.
        TABLE_BASE => &[&B_SYM],
        // `elec=001:{`.
        TABLE_ELEC => &[&E_SYM, &E_WIRE, &E_CIRNO],
        // `sym=001:{`.
        TABLE_SYM => &[&S_BASE, &S_ELEC],
        // FILE_FORMAT of later volumes.
        TABLE_LATER => &[&THIS_LINE, &THIS_ELE, &NEXT_FILE, &DATE, &TIME],
        // DRAWING_FORMAT; its range is arc.
        TABLE_DRAWING => &[
            &SIZE,
            &SCALE,
            &PROJECT,
            &DRAWNAME,
            &DATE,
            &DRAWER,
            &FLOOR_HEIGHT,
            &LAYER_NAME,
        ],
        // SYMBOL_DEFINE; its range is S_elec.
        TABLE_DEFINES => &[&NON, &E_SYMBOL],
        // E_symbol in SYMBOL_DEFINE; its range is S_elec.
        TABLE_SYMBOL => &[&NAME, &ELEMENT, &HIDE, &WALL],
        // ELEMENT.
        TABLE_ELEMENT => &[&LAYER],
        // The figures of a layer, and a placed symbol among them.
        TABLE_LAYER | TABLE_SINGLE_LAYER => &[
            &LINE,
            &CIRCLE,
            &ELLIPSE,
            &POINT,
            &SUCCESSIVE,
            &TEXT,
            &E_SYMBOL,
        ],
        // The figures of a symbol's `element`.
        TABLE_FIGURES => &[&LINE, &CIRCLE, &ELLIPSE, &POINT, &SUCCESSIVE, &TEXT],
        // `successive` or `hide`.
        TABLE_LAYER_POINTS | TABLE_SYMBOL_POINTS => &[&POINT],
        // `text`.
        TABLE_LAYER_TEXT | TABLE_SYMBOL_TEXT | TABLE_PLACED_TEXT => &[&TYPE, &CHARACTER],
        // A placed symbol's block; its range is E_sym.
        TABLE_PLACED => &[&SYMBOL, &TEXT, &HIGHT, &POS, &CIRCUIT, &SERIAL],
        // A wire's block; its range is the last two digits of E_wire.
        TABLE_WIRE => &[
            &LINE, &CIRCLE, &DIREC, &PIEND, &NUM, &TEXT, &LENGTH, &CIRCUIT, &POWER, &SERIAL,
        ],
        // The figures of a layer, and a placed symbol and a wire among them.
        TABLE_WIRED_LAYER | TABLE_SINGLE_WIRED_LAYER => &[
            &LINE,
            &CIRCLE,
            &ELLIPSE,
            &POINT,
            &SUCCESSIVE,
            &TEXT,
            &E_SYMBOL,
            &E_WIRE,
        ],
        _ => &[],
    }
}

// The key of a table's row at the front of out, where it fits; what is no row has no key.
pub fn put_key(table: u8, row: u8, out: &mut [u8]) -> Result<usize, NoRoom>
    ensures { Puts (key_at (table_of table) row) out.old out.new result }
{
    match keys_of(table).get(row as usize) {
        Some(&key) => put(key, out),
        None => Ok(0),
    }
}
