// Document 01 as definitions (specs/), and the types and constant tables that the definitions and the code share.
#![tactic(auto)]

// A middle and a last digit of a three-digit range: of a class, of the file's E_sym, of what a key asks for. "Digits count one by one."
#[derive(Clone, Copy)]
pub struct Digits {
    pub middle: u8,
    pub last: u8,
}

// A range class: what a front end knows of symbols, and of wires (its wire part).
#[derive(Clone, Copy)]
pub struct Class {
    pub symbols: Digits,
    pub wires: Digits,
}

// The rules of document 01, "Refusal numbers", by their numbers. What goes on is the number, `Rule::Order as u8`: C is told it, and of two on
// one line the smaller counts (`cons_g` of specs/RefusalNumbers).
#[derive(Clone, Copy, Debug, PartialEq, Eq)]
pub enum Rule {
    // the class or its wire part is none
    Class = 1,
    // the spool is none
    Spool = 2,
    // a volume's lines are not ended as they must be
    Ends = 3,
    // a byte may not stand there
    Byte = 4,
    // the line has none of the forms, or not its key's
    Form = 5,
    // the key is not known here
    Key = 6,
    // the key stands a second time
    Twice = 7,
    // something that the block must have is missing
    Missing = 8,
    // the blocks are out of order
    Order = 9,
    // a value is not written as it must be
    Written = 10,
    // a value breaks another rule
    Value = 11,
    // the range is not served
    Range = 12,
    // the symbol is not defined
    Symbol = 13,
    // a layer is not declared, or twice, or not used
    Layer = 14,
    // a name or serial number stands a second time
    Serial = 15,
    // the chain of volumes breaks
    Chain = 16,
    // a count of elements is wrong
    Count = 17,
    // skipped blocks nest too deep
    Nesting = 18,
    // the record does not fit the table
    Table = 19,
    // the output is too short
    Output = 20,
    // a partner is no own number
    Partner = 21,
}

// The first broken rule: its number in document 01, and where.
#[derive(Clone, Copy)]
pub struct Refusal {
    pub number: u8,
    pub volume: u8,
    pub line: u32,
}

// A part of the spool: the place of its first byte, from 0, and its length.
#[derive(Clone, Copy)]
pub struct Span {
    pub at: u32,
    pub len: u32,
}

// A line `key:{`.
#[derive(Clone, Copy)]
pub struct Opener {
    pub key: Span,
}

// A line `key=` with whatever stands behind it.
#[derive(Clone, Copy)]
pub struct Equation {
    pub key: Span,
    pub rest: Span,
}

// A line's form with the places of its parts, or the refusal (4 or 5) with volume and line.
#[derive(Clone, Copy)]
pub enum LineForm {
    Ignored,
    Close,
    Eof,
    Opens(Opener),
    Equals(Equation),
    Refused(Refusal),
}

// "n one of 4, 9, 16, 25, 36, 49, 64, 81"
pub const SHEET_MULTIPLIERS: [u8; 8] = [4, 9, 16, 25, 36, 49, 64, 81];

// The free-text keys (cad, os, hard, ver, corp, make, tel, name, project, drawname, drawer, character) and a layer's name, last: the
// most bytes each may have.
pub const TEXT_LIMITS: [u8; 13] = [20, 20, 20, 10, 40, 40, 20, 20, 60, 60, 20, 200, 20];

// How many numbers a record has, and the kinds of records, as `RecordTable` names them: numbers, as the table that C is lent holds them.
pub const WIDTH: usize = 32;

pub const KIND_HEADER: u8 = 1;

pub const KIND_VOLUME: u8 = 2;

pub const KIND_DRAWING: u8 = 3;

pub const KIND_SYMBOL: u8 = 4;

pub const KIND_LAYER: u8 = 5;

// line, circle, ellipse, point: the first of them
pub const KIND_LINE: u8 = 10;

pub const KIND_SUCCESSIVE: u8 = 14;

pub const KIND_TEXT: u8 = 15;

pub const KIND_PLACED: u8 = 16;

pub const KIND_POINT: u8 = 17;

// a wire's two, and the first of its elements': line, arc
pub const KIND_WIRE: u8 = 18;

pub const KIND_WIRE_MORE: u8 = 19;

pub const KIND_EDGE: u8 = 20;

// what is added to the kinds of figures inside a symbol
pub const IN_SYMBOL: u8 = 20;

pub const KIND_HIDDEN: u8 = 43;
