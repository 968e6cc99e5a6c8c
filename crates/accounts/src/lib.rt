// What each block bought and got, over the rules alone (specs/), with its promises proved (proofs/). It has no code.
#![tactic(auto)]
