// Plays a list of cases, each a list of reads, to the stream, and prints what it answers: for stored comparisons with the Rust crate.
#![tactic(auto)]

fn main(rt: HostRuntime) {
    showing::cases(rt.stdin(), rt.stdout(), rt.stderr());
}
