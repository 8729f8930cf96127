// Walks standard input by its frames: a stored run of `frames` over every tag, every kind of refusal, and a bad text in every text of every body.
#![tactic(auto)]

fn main(rt: HostRuntime) {
    framing::start(&rt, rt.stdin(), rt.stdout(), rt.stderr());
}
