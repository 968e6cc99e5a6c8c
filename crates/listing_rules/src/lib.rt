// The listing of a log, over the rules, the format and the lines alone; no code.
#![tactic(auto)]
