// What the walk promises of a whole recording, cut into any pieces: no code, but the statements (specs/) and their proofs (proofs/).
#![tactic(auto)]
