// Writes every message back and compares: a stored run of `rewrite` with the word `strict`, over the recording of `frames_strict`, to its first refusal.
#![tactic(auto)]

fn main(rt: HostRuntime) {
    rewriting::start(&rt, rt.stdin(), rt.stdout(), rt.stderr());
}
