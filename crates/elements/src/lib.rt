// One line of ELEMENT, of the figures of a layer or a symbol, and of the blocks among them, in code.
#![tactic(auto)]

pub mod element;
pub mod figures;
pub mod placed;
pub mod points;
mod shelves;
pub mod skip;
pub mod texts;
pub mod wires;
