// The worked examples of document 01 stand in specs/Table.antt, and proofs/Holds.antt shows that they hold: this crate has no code to run.
#![tactic(auto)]
