// Walks standard input by its frames: a stored run of `frames` with the word `quiet`, over the frames of `frames_kinds`.
#![tactic(auto)]

fn main(rt: HostRuntime) {
    framing::start(&rt, rt.stdin(), rt.stdout(), rt.stderr());
}
