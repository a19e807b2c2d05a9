// The three demands of the request as one statement over the calls of include/reach.h, and its proof. This crate has no code.
#![tactic(auto)]
