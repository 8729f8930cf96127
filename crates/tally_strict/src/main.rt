// Tallies standard input: a stored run of `tally` with the words `strict` and `later`, in this order, to its first refusal. Its recording has messages of the later edition.
#![tactic(auto)]

fn main(rt: HostRuntime) {
    tallying::start(&rt, rt.stdin(), rt.stdout(), rt.stderr());
}
