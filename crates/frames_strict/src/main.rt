// Walks standard input by its frames: a stored run of `frames` with the word `strict`, over a recording that has what it alone refuses.
#![tactic(auto)]

fn main(rt: HostRuntime) {
    framing::start(&rt, rt.stdin(), rt.stdout(), rt.stderr());
}
