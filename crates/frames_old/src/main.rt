// Walks standard input by its frames: a stored run of `frames` by the old edition, over a recording that has the messages of the later one too.
#![tactic(auto)]

fn main(rt: HostRuntime) {
    framing::start(&rt, rt.stdin(), rt.stdout(), rt.stderr());
}
