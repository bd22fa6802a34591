// The theorems of the three demands over the definitions of `rules`: specs/ has their statements, proofs/ their proofs. No code runs here.
#![tactic(auto)]

// (A crate has an item of its own.)
#[derive(Clone, Copy)]
pub struct Promise {
    pub demand: u8,
}
