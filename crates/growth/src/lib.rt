// What updates make of the atoms' functions (document 01, "Diagrams and the store"), with no word of nodes. This crate has no code.
#![tactic(auto)]
