// What a stream over an input gives, for any cutting of the reads: no code, but the statements (specs/) and their proofs (proofs/).
#![tactic(auto)]
