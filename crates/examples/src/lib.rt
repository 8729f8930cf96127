// The scope's worked examples: no code, but the table of them (specs/) and the one claim that holds of every row (proofs/).
#![tactic(auto)]
