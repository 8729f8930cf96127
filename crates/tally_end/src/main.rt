// Tallies standard input: a stored run of `tally` to a clean end.
#![tactic(auto)]

fn main(rt: HostRuntime) {
    tallying::start(&rt, rt.stdin(), rt.stdout(), rt.stderr());
}
