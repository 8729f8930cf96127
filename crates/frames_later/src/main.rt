// Walks standard input by its frames: a stored run of `frames` with the word `later`, over the recording of `frames_old`.
#![tactic(auto)]

fn main(rt: HostRuntime) {
    framing::start(&rt, rt.stdin(), rt.stdout(), rt.stderr());
}
