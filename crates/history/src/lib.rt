// Theorems over every list of calls on a device: this crate has definitions and proofs, and no function.
#![tactic(auto)]
