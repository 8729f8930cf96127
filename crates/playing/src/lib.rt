// What playing a slice again and again gives: the messages that the slice holds, and its stop. Theorems, no code.
#![tactic(auto)]
