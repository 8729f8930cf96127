// The laws of the window and of its texts: no code, but what the definition that parse_message meets says of every window. See proofs/.
#![tactic(auto)]
