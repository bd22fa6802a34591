// Bytes and numbers: the leaves of the reader and of the writer.
#![tactic(auto)]

pub mod bytes;
pub mod numbers;
pub mod pieces;
pub mod sheets;
pub mod texts;
pub mod truth;
pub mod write;

// A decimal in ten-thousandths.
#[derive(Clone, Copy)]
pub struct Decimal {
    pub value: i64,
}

// A decimal before a comma, and where it ends.
#[derive(Clone, Copy)]
pub struct DecimalPiece {
    pub reading: Option<Decimal>,
    pub end: usize,
}

// A sheet: its n, 1 if none is written, and its A number.
#[derive(Clone, Copy)]
pub struct SheetSize {
    pub multiplier: u8,
    pub number: u8,
}

// A scale p/q; q is 1 if none is written.
#[derive(Clone, Copy)]
pub struct Scale {
    pub p: u32,
    pub q: u32,
}

// The most bytes of a free text, and the set that they are of, by the numbers of `bytes::all_in`.
#[derive(Clone, Copy)]
pub struct TextRule {
    pub most: u8,
    pub set: u8,
}

// There was no room for what was to be written.
#[derive(Clone, Copy)]
pub struct NoRoom;
