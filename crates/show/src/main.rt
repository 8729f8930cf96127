// Shows standard input: a line for each message with all its fields, then the messages, the bytes they took, and where the stream stopped.
#![tactic(auto)]

fn main(rt: HostRuntime) {
    showing::show(&rt, rt.stdin(), rt.stdout(), rt.stderr());
}
