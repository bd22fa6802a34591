// One line of the fixed form, printed from a line of an accepted spool: its key (keywords), then its values anew or its text as it stands.
#![tactic(auto)]

mod contents;
mod pieces;
pub mod rows;
