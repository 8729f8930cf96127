// Shows standard input: a stored run of `show` with the word `later`, over the recording of `frames_old`, to its first refusal.
#![tactic(auto)]

fn main(rt: HostRuntime) {
    showing::show(&rt, rt.stdin(), rt.stdout(), rt.stderr());
}
