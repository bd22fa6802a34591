// One line of the top level and of each block before ELEMENT, in code.
#![tactic(auto)]

pub mod drawing_format;
pub mod file_format;
pub mod symbol_define;
pub mod top;
