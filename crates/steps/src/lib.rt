// A volume, line by line.
#![tactic(auto)]

mod line;
mod volume;

pub use volume::read_volume;
