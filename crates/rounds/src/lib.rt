// Loading, closing and runs (document 01, "Diagrams and the store"): what they do to a store, and what is proved of that.
#![tactic(auto)]
