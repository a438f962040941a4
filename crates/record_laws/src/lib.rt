// What is proved about printed and pending records stands in proofs/; this crate has no code.
#![tactic(auto)]
