// Reads a recording from standard input, writes every message back and compares: a line for each, then the counts. Its stored run has every tag of the old edition.
#![tactic(auto)]

fn main(rt: HostRuntime) {
    rewriting::start(&rt, rt.stdin(), rt.stdout(), rt.stderr());
}
