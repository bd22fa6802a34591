// The set: its volumes one after the other, read and written.
#![tactic(auto)]

mod reader;
mod rewriter;

pub use reader::{check, read};
pub use rewriter::rewrite;
