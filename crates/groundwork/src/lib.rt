// What the code of every block stands on: what is open, marks and numbers looked through, the digits of classes, the next line, and the way of a
// record to the table.
#![tactic(auto)]

pub mod blocks;
pub mod classes;
pub mod putting;
pub mod serials;
pub mod table;
pub mod walk;
