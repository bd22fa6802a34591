// The account: what the reading of a set remembers between two lines (types and constants here, no steps). specs/ says, as the code does it,
// what one line of each block does to it and which record it completes; the code itself is in groundwork, drawing and elements.
#![tactic(auto)]

use rules::{Class, LineForm, Refusal, Span};

// A volume: its number, from 1, and the place of its first byte in the spool.
#[derive(Clone, Copy)]
pub struct Volume {
    pub number: u8,
    pub at: u32,
}

// Where the reading stands in a volume: the place of the next line, and how many lines stand before it.
#[derive(Clone, Copy)]
pub struct Pos {
    pub at: u32,
    pub line: u32,
}

// A line: its volume and its number, and whether the set ends with it.
#[derive(Clone, Copy)]
pub struct Where {
    pub volume: u8,
    pub line: u32,
    pub ends: bool,
}

// Which block is open. (These numbers and the following have the same names in specs/Numbering; they are numbers and no enums, as `Now` is
// public and the tables hold the inner blocks by number.)
pub const BLOCK_TOP: u8 = 0;

pub const BLOCK_FILE: u8 = 1;

pub const BLOCK_DRAWING: u8 = 2;

pub const BLOCK_LAYER_NAMES: u8 = 3;

pub const BLOCK_DEFINES: u8 = 4;

pub const BLOCK_SYMBOL: u8 = 5;

pub const BLOCK_HIDE: u8 = 6;

pub const BLOCK_ELEMENTS: u8 = 7;

pub const BLOCK_FIGURES: u8 = 8;

pub const BLOCK_CHAIN: u8 = 9;

pub const BLOCK_TEXT: u8 = 10;

pub const BLOCK_PLACED: u8 = 11;

pub const BLOCK_WIRE: u8 = 12;

// (13 and 14 are free for blocks of figures)
pub const BLOCK_ENDED: u8 = 15;

// What comes next at the top level: one of the four blocks, by its row in the table, then EOF.
pub const TURN_FILE: u8 = 0;

pub const TURN_DRAWING: u8 = 1;

pub const TURN_DEFINES: u8 = 2;

pub const TURN_ELEMENT: u8 = 3;

pub const TURN_EOF: u8 = 4;

// The inner blocks of a block, as the tables number them: none is open, the lines are the block's own;
pub const INNER_NONE: u8 = 0;

// in FILE_FORMAT's `range`;
pub const INNER_ELEC: u8 = 3;

// in a symbol, beside `hide`;
pub const INNER_ELEMENT: u8 = 1;

// among figures, beside `successive`;
pub const INNER_TEXT: u8 = 2;

pub const INNER_PLACED: u8 = 3;

pub const INNER_WIRE: u8 = 4;

// in a placed symbol.
pub const INNER_PLACED_TEXT: u8 = 1;

// A wire: its elements are read, its text is open, it is skipped whole, or anything but an element has stood in it.
pub const WIRE_READ: u8 = 0;

pub const WIRE_TEXT: u8 = 1;

pub const WIRE_UNREAD: u8 = 2;

pub const WIRE_PAST: u8 = 3;

// How many rows a table has, under the table's name;
pub const ROWS_TOP: usize = 4;

pub const ROWS_FILE: usize = 16;

pub const ROWS_LATER: usize = 5;

pub const ROWS_DRAWING: usize = 8;

pub const ROWS_SYMBOL: usize = 4;

pub const ROWS_LAYER: usize = 7;

pub const ROWS_WIRED_LAYER: usize = 8;

pub const ROWS_FIGURES: usize = 6;

pub const ROWS_PLACED: usize = 6;

pub const ROWS_TEXT: usize = 2;

pub const ROWS_WIRE: usize = 10;

// where the marks of FILE_FORMAT's inner blocks begin, behind those of its own rows;
pub const MARKS_RANGE: usize = 16;

pub const MARKS_BASE: usize = 22;

pub const MARKS_ELEC: usize = 23;

pub const MARKS_SYM: usize = 26;

// and the rows of FILE_FORMAT that have no place in the record, in the first volume and in later ones.
pub const ROW_NEXT_FILE: u8 = 5;

pub const ROW_LATER_NEXT_FILE: u8 = 2;

// (in `elec`)
pub const ROW_WIRE_RANGE: u8 = 1;

pub const ROW_LATER_DATE: u8 = 3;

pub const ROW_LATER_TIME: u8 = 4;

// Places in FILE_FORMAT's numbers. In the header's record: arc, E_sym and S_elec; all_ele, date and time;
pub const HEADER_ARC: usize = 6;

pub const HEADER_SYMBOL_RANGE: usize = 8;

pub const HEADER_DEFINE_RANGE: usize = 11;

pub const HEADER_ALL: usize = 13;

pub const HEADER_DATE: usize = 14;

pub const HEADER_TIME: usize = 15;

// this_ele, in the volume's record behind it, and in a later volume's, which stands alone;
pub const HEADER_HERE: usize = 38;

pub const HEADER_LATER_HERE: usize = 6;

// behind the records what a row without a place left last, a number or a text's place and length;
pub const HEADER_LAST: usize = 64;

pub const HEADER_LAST_LENGTH: usize = 65;

// and what is kept of it: next_file, in the first volume E_wire, and in a later volume date and time.
pub const HEADER_NEXT_FILE: usize = 66;

pub const HEADER_NEXT_FILE_LENGTH: usize = 67;

pub const HEADER_LATER_DATE: usize = 68;

pub const HEADER_LATER_TIME: usize = 69;

pub const HEADER_WIRE_RANGE: usize = 70;

// Places in other records: a symbol's name;
pub const PLACE_NAME: usize = 5;

pub const PLACE_NAME_LENGTH: usize = 6;

// a layer's letter (its number and name follow);
pub const PLACE_LETTER: usize = 5;

// a placed symbol's own number, the first of `serial`;
pub const PLACE_OWN: usize = 14;

// a wire's line or arc: where a line starts and where it ends, and how it is joined to the one before it;
pub const PLACE_START_X: usize = 5;

pub const PLACE_START_Y: usize = 6;

pub const PLACE_END_X: usize = 7;

pub const PLACE_END_Y: usize = 8;

pub const PLACE_JOIN: usize = 11;

// of a wire's two records, on the scratch: how many elements it has, E_wire's first digit, the two marks;
pub const WIRE_ELEMENTS: usize = 37;

pub const WIRE_JOIN_DIGIT: usize = 62;

pub const WIRE_MARK: usize = 63;

pub const WIRE_MORE_MARK: usize = 95;

// how many direcs, piends, nums and texts it has, of the first num earth and power, and its own number;
pub const WIRE_DIRECS: usize = 38;

pub const WIRE_PIENDS: usize = 47;

pub const WIRE_NUMS: usize = 51;

pub const WIRE_EARTH: usize = 52;

pub const WIRE_POWER: usize = 53;

pub const WIRE_TEXTS: usize = 69;

pub const WIRE_OWN: usize = 85;

// and, in places that are 0 when they are complete, what an open wire must know of its last element: the end's x and y, and 1 for a line, 2
// for an arc, 0 for none.
pub const FORMER_X: usize = 36;

pub const FORMER_Y: usize = 68;

pub const FORMER_ROW: usize = 94;

// The kind of a figure that is a block is this and its inner number.
pub const KIND_BLOCKS: u8 = 13;

// Which block is open, and how far it is. What its lines held is in the records.
#[derive(Clone, Copy)]
pub struct Now {
    // the block
    pub block: u8,
    // at the top level: one of TURN_..; in FILE_FORMAT and a placed symbol: one of INNER_..; in a wire: one of WIRE_..; in SYMBOL_DEFINE:
    // 1 after `NON=`
    pub part: u8,
    // the figures are a layer's, not a symbol's
    pub layered: bool,
    // the number of that layer or symbol
    pub owner: u32,
    // how many records were taken so far
    pub records: usize,
    // how many figures the layer or symbol has so far, and how many points the chain or `hide`, how many elements the wire; in a wire that
    // is skipped whole, how many skipped blocks are open in it
    pub figures: u32,
    pub points: u32,
}

// A line as it is read: what is open, its form, its place, and the class.
#[derive(Clone, Copy)]
pub struct LineAt {
    pub here: Now,
    pub form: LineForm,
    pub at: Where,
    pub class: Class,
}

// The tally of a set: the ranges arc, E_sym and S_elec;
pub const TALLY_ARC: usize = 0;

pub const TALLY_SYMBOL_RANGE: usize = 1;

pub const TALLY_DEFINE_RANGE: usize = 2;
// the first volume's date, time and all_ele, and this_ele of the volume at hand;
pub const TALLY_DATE: usize = 3;

pub const TALLY_TIME: usize = 4;

pub const TALLY_ALL: usize = 5;

pub const TALLY_HERE: usize = 6;
// the figures in this volume's closed layers, and in the closed volumes;
pub const TALLY_ELEMENTS_HERE: usize = 7;

pub const TALLY_TOTAL: usize = 8;
// how many symbols and layers have names, and how many serial numbers there are.
pub const TALLY_SYMBOLS: usize = 9;

pub const TALLY_LAYERS: usize = 10;

pub const TALLY_SERIALS: usize = 11;

// and the range E_wire.
pub const TALLY_WIRE_RANGE: usize = 12;

// How many numbers of each are lent down: the tally;
pub const TALLY_LENGTH: usize = 13;

// the rows that are marked at once: FILE_FORMAT's and its inner parts';
pub const MOST_ROWS: usize = 28;

// FILE_FORMAT's numbers;
pub const HEADER_LENGTH: usize = 71;

// the scratch of three records: the open drawing's or symbol's own or an element's of the open wire, the open figure's or a line's, a
// point's of the open `successive` or the open wire's second;
pub const SCRATCH_LENGTH: usize = 96;

// and what a line of a `successive` is lent of it, its own record and the point's;
pub const CHAIN_LENGTH: usize = 64;

// the layers' names (`most_layers` of rules: Blocks);
pub const MOST_LAYERS: usize = 64;

// the symbols' names, no spool has more;
pub const MOST_SYMBOLS: usize = 1280;

// the own serial numbers, no spool has more.
pub const MOST_SERIALS: usize = 2280;

// What a line made of it, or its refusal; a line that opens a block to be skipped has that read first.
#[derive(Clone, Copy)]
pub enum Step {
    Go(Now),
    Skip(Now),
    Stop(u8),
}

// What a line made complete: nothing, the record that stands on the scratch at this place, FILE_FORMAT's, or a wire's two.
#[derive(Clone, Copy)]
pub enum Complete {
    Nothing,
    Record(usize),
    Header,
    Wire,
}

// What a skipped line does: nothing, it opens a block, it closes one; or its refusal.
#[derive(Clone, Copy)]
pub enum Skipped {
    Passes,
    Deeper,
    Shut,
    Refuse(u8),
}
