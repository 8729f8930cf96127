// Tallies standard input: a stored run of `tally` over an input that ends inside a message.
#![tactic(auto)]

fn main(rt: HostRuntime) {
    tallying::start(&rt, rt.stdin(), rt.stdout(), rt.stderr());
}
