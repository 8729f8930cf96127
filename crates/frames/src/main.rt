// Walks standard input by its frames: a line for each frame, then the tail and the totals. With the word `quiet`, a line for each refused frame only. Its
// stored run is the five lines on the page of the scope.
#![tactic(auto)]

fn main(rt: HostRuntime) {
    framing::start(&rt, rt.stdin(), rt.stdout(), rt.stderr());
}
