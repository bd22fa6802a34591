// The spool's volumes and the lines of a volume: document 01, "Spool (H)".
#![tactic(auto)]

use rules::LineForm;

// Where a spool's volumes stand: how many there are, and for each the place of its first byte and its length; zeros behind them.
// A spool that refusal 2 holds of has none. (Arrays side by side, as the laws of a set's run in `sets` name the fields.)
#[derive(Clone, Copy)]
pub struct Layout {
    pub count: u32,
    pub places: [u32; 12],
    pub lengths: [u32; 12],
}

// A line of a volume: its form, the place of the next line's first byte, and whether it is the volume's last.
#[derive(Clone, Copy)]
pub struct Seen {
    pub form: LineForm,
    pub next: u32,
    pub last: bool,
}

// No spool has more bytes, and so no volume.
const MOST_BYTES: usize = 61440;

const MOST_VOLUMES: usize = 12;

const CR: u8 = 13;

const SPACE: u8 = 32;

pub mod ends;
pub mod forms;
mod names;
mod runs;
pub mod spool;
