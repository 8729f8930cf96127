// Tallies standard input: a stored run of `tally` with the word `later`, over the recording of `frames_old`, to its first refusal.
#![tactic(auto)]

fn main(rt: HostRuntime) {
    tallying::start(&rt, rt.stdin(), rt.stdout(), rt.stderr());
}
