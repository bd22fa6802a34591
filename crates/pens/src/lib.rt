// The pens, one for each block that can be open: what a line of an accepted set writes in the fixed form, "keys in the order above", at once (by
// prints) or, noted till then, where its block closes.
#![tactic(auto)]

pub mod closing;
mod groups;
pub mod keys;
mod noted;
pub mod places;

// Which block is open, and how far the writing is.
#[derive(Clone, Copy)]
pub struct Pen {
    // the block
    pub block: u8,
    // in FILE_FORMAT, a placed symbol and a wire: the inner part that is open
    pub part: u8,
    // the figures are a layer's, not a symbol's
    pub layered: bool,
    // where the lines inside the open DRAWING_FORMAT or symbol begin
    pub start: usize,
    // how many bytes are written
    pub at: usize,
}
