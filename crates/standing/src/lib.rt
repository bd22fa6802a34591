// How the account (what the code remembers) stands to the definitions' state: specs/Standing says it, proofs/ that each line keeps it so, block by
// block. No code runs here.
#![tactic(auto)]

// (A crate has an item of its own.)
#[derive(Clone, Copy)]
pub struct Stand {
    pub block: u8,
}
