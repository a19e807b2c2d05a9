// The search for a chain of rules that leaves a file no layers (document 02, L4).
#![tactic(auto)]

pub mod chain;
mod search;

// The lowest atom on a chain, and the number of rules of a chain through it, which was written.
#[derive(Clone, Copy)]
pub struct Lowest {
    pub atom: u32,
    pub count: u32,
}
