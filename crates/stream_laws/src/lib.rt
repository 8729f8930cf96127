// The laws of the stream's calls. They are stated of the definitions in `stream`, and the functions that call the stream cite them.
#![tactic(auto)]
