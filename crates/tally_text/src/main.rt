// Tallies standard input sixteen times: a stored run of `tally` that stops at a bad text in every body that has text, and at each of its texts. Each run has
// 8,192 bytes of its own, and stops near their beginning (oracle/texts makes the recordings). Its one read brings them all, or, of a pipe, as many as are
// there: what is left of them is passed over, so that the next run begins behind them.
#![tactic(auto)]

use std::io::{Stderr, Stdin, Stdout};
use std::rt::{Env, Files};

// One run, and past the rest of its bytes.
fn tally(rt: &(impl Env + Files), input: Stdin, output: Stdout, error: Stderr) {
    let n = tallying::start(rt, input, output, error);
    let mut rest = [0u8; 8192];
    if n < rest.len() {
        standard::read_full(input, &mut rest[n..]);
    }
}

// The runs, in order. A twice: c3 a9 in a stock is a letter, c3 as its eighth byte is cut off; and, as each below, a sound message and then the bad one. F: the
// stock; the mpid. H: the stock; the reason. I, J, K. L: the mpid; the stock. N, P, Q, R, Y.
const RUNS: u8 = 16;

fn main(rt: HostRuntime) {
    for _ in 0..RUNS {
        tally(&rt, rt.stdin(), rt.stdout(), rt.stderr());
    }
}
