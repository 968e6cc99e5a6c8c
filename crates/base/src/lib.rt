// Tests and searches over numbers, which the definitions of every other crate are written with; no code.
#![tactic(auto)]
