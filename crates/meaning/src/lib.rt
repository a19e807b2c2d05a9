// What a program means (document 01, "Meaning"). This crate has no code: its definitions are in specs/, its theorems in
// proofs/.
#![tactic(auto)]
