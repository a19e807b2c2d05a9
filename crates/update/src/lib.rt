// An update of an atom (document 01, "Diagrams and the store"): its definition and what is proved of it. The code comes with it.
#![tactic(auto)]
