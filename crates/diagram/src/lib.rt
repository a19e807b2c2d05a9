// Diagrams as trees, and their listings (document 01, "Diagrams and the store", "A listing").
#![tactic(auto)]

// A node: its fact, and the numbers of its sides.
#[derive(Clone, Copy)]
pub struct Node {
    pub fact: u32,
    pub low: u32,
    pub high: u32,
}
