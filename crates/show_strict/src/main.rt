// Shows standard input: a stored run of `show` with the word `strict`, over the recording of `frames_strict`, to its first refusal.
#![tactic(auto)]

fn main(rt: HostRuntime) {
    showing::show(&rt, rt.stdin(), rt.stdout(), rt.stderr());
}
