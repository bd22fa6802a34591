// What one line enters: its values between commas, its text or its serials, read from the spool by the row of its key and put into the numbers of
// the record, or the refusal where one of them breaks its rule.
#![tactic(auto)]

pub mod acts;
mod by_forms;
mod contents;
pub mod names;
mod parts;
mod powers;
mod required;
pub mod row_lines;
pub mod shapes;
mod values;
mod wire_serials;

ghost use Rattle.std.specs.Prelude.{◌≤◌, length};

use rules::Span;

// What a line's values name: parts of the spool, and in it the symbols and the layers, by their places.
#[derive(Clone, Copy)]
pub(crate) struct Known<'a> {
    spool: &'a [u8],
    symbols: &'a [u32],
    layers: &'a [u32],
    ghost short: { length spool.now ≤ 61440 },
    ghost few_symbols: { length symbols.now ≤ 65536 },
    ghost few_layers: { length layers.now ≤ 65536 },
}

// A value, and where its piece ends.
#[derive(Clone, Copy)]
pub(crate) struct Piece {
    val: Result<i64, u8>,
    end: usize,
}

// The forms of values, two decimal digits each, the first one last; how many stand behind the first; the rule across them; and whether a turn
// that was not written is recorded behind them.
#[derive(Clone, Copy)]
pub(crate) struct Forms {
    parts: u64,
    more: u8,
    across: u8,
    turnless: bool,
}

// What follows a key: `:{`, or `=` and the rest of the line. (No Option: a brace is no lack of a rest.)
#[derive(Clone, Copy)]
pub enum Rest {
    Brace,
    Equals(Span),
}

// Which of the five a shape is, in their order: `sort_of` of shapes is public, and other crates compare what it answers with these numbers.
pub const SORT_OPENER: u8 = 0;

pub const SORT_NO_CONTENT: u8 = 1;

pub const SORT_CONTENT: u8 = 2;

pub const SORT_OPENING: u8 = 3;

pub const SORT_FORMLESS: u8 = 4;

// What a line with a key is, by the places of its content.
#[derive(Clone, Copy)]
pub enum Shape {
    Opener,
    NoContent,
    Content(Span),
    Opening(Span),
    Formless,
}

// The inner block that a line opens, and the line's row.
#[derive(Clone, Copy)]
pub struct Inner {
    pub block: u8,
    pub row: u8,
}

// What a line does in its block: nothing, a row's line entered, the same and an inner block opened, the block closed, a refusal.
#[derive(Clone, Copy)]
pub enum Next {
    Stay,
    Entry(u8),
    Begin(Inner),
    Shut,
    Refuse(u8),
}
