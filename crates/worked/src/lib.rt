// P1 to P12 of document 01: the proved set of worked examples, one table under one statement. This crate has no code.
#![tactic(auto)]
