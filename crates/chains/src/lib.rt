// Chains of the public calls, known by their promises alone: each is a run of the rules; no code.
#![tactic(auto)]
