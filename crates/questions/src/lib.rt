// Questions: weights from the diagrams of a store (document 01, "Questions and listings").
#![tactic(auto)]

pub mod given;
pub mod weights;
