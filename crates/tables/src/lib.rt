// Document 01's tables of keys, as the code asks for them: the row of a key, and which rows a block must have.
#![tactic(auto)]

mod blocks;
mod figures;
pub mod keys;
pub mod lookup;
mod rows;

use rules::Digits;

// The numbers of the tables. (These and the following have the same names in specs/Numbering.)
pub const TABLE_TOP: u8 = 0;

pub const TABLE_FILE: u8 = 1;

pub const TABLE_RANGE: u8 = 2;

pub const TABLE_BASE: u8 = 3;

pub const TABLE_ELEC: u8 = 4;

pub const TABLE_SYM: u8 = 5;

pub const TABLE_LATER: u8 = 6;

pub const TABLE_DRAWING: u8 = 7;

pub const TABLE_DEFINES: u8 = 8;

pub const TABLE_SYMBOL: u8 = 9;

pub const TABLE_ELEMENT: u8 = 10;

pub const TABLE_LAYER: u8 = 11;

pub const TABLE_SINGLE_LAYER: u8 = 12;

pub const TABLE_FIGURES: u8 = 13;

pub const TABLE_LAYER_POINTS: u8 = 14;

pub const TABLE_SYMBOL_POINTS: u8 = 15;

pub const TABLE_LAYER_TEXT: u8 = 16;

pub const TABLE_SYMBOL_TEXT: u8 = 17;

pub const TABLE_PLACED: u8 = 18;

pub const TABLE_PLACED_TEXT: u8 = 19;

pub const TABLE_WIRE: u8 = 20;

pub const TABLE_WIRED_LAYER: u8 = 21;

pub const TABLE_SINGLE_WIRED_LAYER: u8 = 22;

// What a row holds.
pub const HOLDS_VALUES: u8 = 0;

pub const HOLDS_TEXT: u8 = 1;

pub const HOLDS_WORD: u8 = 2;

pub const HOLDS_VOLUME_NAME: u8 = 3;

pub const HOLDS_SHEET: u8 = 4;

pub const HOLDS_RATIO: u8 = 5;

pub const HOLDS_SERIALS: u8 = 6;

pub const HOLDS_NOTHING: u8 = 7;

pub const HOLDS_BLOCK: u8 = 8;

pub const HOLDS_HEADED: u8 = 9;

pub const HOLDS_EITHER: u8 = 10;

pub const HOLDS_WIRE_SERIAL: u8 = 11;

pub const HOLDS_CIRCLE: u8 = 12;

// The forms of values; any other number below those of decimals is that of a type, any other from there on that of an angle.
pub const PART_SIGN: u64 = 2;

pub const PART_DIGIT: u64 = 3;

pub const PART_FLAG: u64 = 5;

pub const PART_POSITION: u64 = 6;

pub const PART_COUNT: u64 = 7;

pub const PART_DAY: u64 = 8;

pub const PART_CLOCK: u64 = 9;

pub const PART_RANGE_0: u64 = 10;

pub const PART_RANGE_0_1: u64 = 11;

pub const PART_RANGE_0_2: u64 = 12;

pub const PART_RANGE_1: u64 = 13;

pub const PART_SYMBOL_RANGE: u64 = 14;

pub const PART_SYMBOL_NAME: u64 = 15;

pub const PART_LAYER_ID: u64 = 16;

pub const PART_WIRE_RANGE: u64 = 18;

// the first of the decimals
pub const PART_ANY_SIGN: u64 = 20;

pub const PART_NOT_NEGATIVE: u64 = 21;

pub const PART_ABOVE_ZERO: u64 = 22;

pub const PART_HALF_TURN: u64 = 24;

// the two decimals of one value alone
pub const PART_NO_ANGLE: u64 = 25;

pub const PART_WHOLE_TURN: u64 = 26;

// Several forms, two digits each, the first one last: type,cx,cy,radius,start,end,turn, and without a turn.
pub const ARC_FORMS: u64 = 5_23_23_22_20_20_17;

pub const WHOLE_FORMS: u64 = 26_25_22_20_20_17;

// The rules across values; 0 for none.
pub const ACROSS_ENDS: u8 = 1;

pub const ACROSS_ARC: u8 = 2;

pub const ACROSS_AXES: u8 = 3;

pub const ACROSS_POWER: u8 = 4;

// How often a row may stand; any other number is the most times.
pub const TIMES_ONCE: u8 = 0;

pub const TIMES_ANY: u8 = 255;

// What a line needs to know of its key's row in the block's table. (That a row is required is asked at the block's end alone.)
#[derive(Clone, Copy)]
pub struct Row {
    // its number in the table, from 0
    pub number: u8,
    // what it holds, one of HOLDS_..
    pub kind: u8,
    // of values: their forms, two decimal digits each, the first one last; how many they are; the rule across them
    pub parts: u64,
    pub count: u8,
    pub across: u8,
    // of a text or word: the most bytes, and the set they are of
    pub most: u8,
    pub set: u8,
    // of an opener: the number of the inner block
    pub inner: u8,
    pub may: bool,
    pub least: Digits,
    // one of TIMES_.., or so many times at most
    pub times: u8,
    pub place: u8,
    pub state: u8,
}
