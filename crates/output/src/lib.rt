// That what `frames` hands to the write calls is the text of the walk, and that no contract allows two answers: no code, but the statements (specs/) and their
// proofs (proofs/).
#![tactic(auto)]
