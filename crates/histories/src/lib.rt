// Every history of calls and power failures. This crate is theory: a history is defined in specs/History.antt, its steps being the contracts of the store's calls; the theorems
// are in proofs/Histories.antt; walks over the keys in specs/Walks.antt and proofs/Walks.antt. It has no code.
#![tactic(auto)]
