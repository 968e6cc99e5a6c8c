// The report of a log, over the rules, the accounts, the format and the lines alone; no code.
#![tactic(auto)]
