// The rules of document 01 as mathematics, and demands 1 to 3 proved over every run; no code.
#![tactic(auto)]
