// Tallies standard input: the messages of each tag, all messages, and where the stream stopped. Its stored run ends in a refusal.
#![tactic(auto)]

fn main(rt: HostRuntime) {
    tallying::start(&rt, rt.stdin(), rt.stdout(), rt.stderr());
}
