// That the reader's answer means what the format's definition says of the bytes, and so of the stream and the walk: no code, but proofs.
#![tactic(auto)]
