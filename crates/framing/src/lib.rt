// Walks standard input by its frames and prints a line for each, or, where quiet, for each that is refused; then the tail and the totals: the program
// `frames`. A failed read is taken as the end of the input, with a word on standard error. A write that fails ends the run, with a word there too.
#![tactic(auto)]

ghost use Rattle.std.specs.Prelude.{◌≤◌, ◌<◌, ◌≡◌, true, length};
ghost use Rattle.reader.specs.Window.{window_of};
ghost use Rattle.demand.specs.Promises.{Reached};
ghost use Rattle.words.specs.Words.{reading_of};
ghost use Rattle.framing.specs.Told.{Behind, Fresh, Ended, Finished, ending_of};

mod closing;
mod sent;

use format::Reading;
pub use sent::Sent;
use standard::Brought;
use std::io::{Stderr, Stdin, Stdout};
use std::rt::{Env, Files};
use words::{Ending, Words};

// Walks a block, and writes the lines of the frames that end in it, a buffer at a time. Answers what was sent: up to the block's end, or, where a write was
// not taken or the walk can no further, up to there.
fn put_block(s: Sent, block: &[u8], out: &mut [u8]) -> Result<Sent, Sent>
    requires { Reached (window_of s.state.reading) s.state.reading s.state × (s.written.taken ≡ true) × (137 ≤ length out.old) }
    ensures { Behind s.quiet s.state.reading block.now s.state result }
{
    let quiet = s.quiet();
    let mut sent = s;
    let mut from = 0;
    while from < block.len() {
        let r = lines::walk_block(sent.state(), block, from, out, 0, quiet);
        let at = r.at;
        let next = sent.put(block, from, r, &out[..at]);
        if !next.taken() || lines::stops(r.why) {
            return Err(next);
        }
        sent = next;
        from = r.from;
    }
    Ok(sent)
}

// All reads: what was sent behind them, what they brought, and whether all of it was walked and all of its lines written.
#[derive(Clone, Copy)]
struct Run {
    sent: Sent,
    brought: Brought,
    whole: bool,
}

// Reads to the end, from what was sent first on, and walks the frames that end in each read.
fn read_all(input: Stdin, begun: Sent, buf: &mut [u8], out: &mut [u8]) -> Run
    requires { Fresh begun × (0 < length buf.old) × (137 ≤ length out.old) }
    ensures { Ended begun.quiet begun.state.reading result }
{
    let mut sent = begun;
    let mut brought = Brought::unread();
    loop {
        brought = standard::read(input, brought, buf);
        let n = brought.count();
        if n == 0 {
            return Run {
                sent,
                brought,
                whole: true,
            };
        }
        match put_block(sent, &buf[..n], out) {
            Ok(next) => sent = next,
            Err(last) => {
                return Run {
                    sent: last,
                    brought,
                    whole: false,
                };
            }
        }
    }
}

// How the run went: a write was not taken, or the last read failed; something was refused or is left over, or the walk could no further; or none of it.
fn went(run: Run) -> Ending
    ensures { result ≡ ending_of run.sent run.brought run.whole }
{
    let w = run.sent.state();
    if !run.sent.taken() || run.brought.failed() {
        Ending::Failed
    } else if !run.whole || w.seen > 0 || w.accepted < w.frames {
        Ending::Found
    } else {
        Ending::Clean
    }
}

// Says what failed on standard error, and the ending to who asked for it.
fn report(rt: &impl Files, error: Stderr, words: Words, run: Run, o: Ending)
    requires { o ≡ ending_of run.sent run.brought run.whole }
{
    if !run.sent.taken() {
        let _ = error.println("frames: a write failed");
    }
    if run.brought.failed() {
        let _ = error.println("frames: a read failed: what is printed is of the bytes before");
    }
    words::say(rt, words, o);
}

// Walks standard input to its end and prints, as the words ask. The answer tells of the last write.
pub fn print_frames(
    rt: &impl Files,
    input: Stdin,
    output: Stdout,
    error: Stderr,
    words: Words,
) -> Sent
    ensures { Finished words.quiet (reading_of words) result }
{
    let begun = Sent::begun(output, words.quiet, Reading::from(words));
    let mut buf = [0u8; 65536];
    let mut out = [0u8; 65536];
    let mut run = read_all(input, begun, &mut buf, &mut out);
    if run.sent.taken() {
        let n = closing::closing(run.sent.state(), &mut out);
        run.sent = run.sent.close(run.brought, &out[..n]);
    }
    report(rt, error, words, run, went(run));
    run.sent
}

// The program: what the words ask for, and nothing where they are none.
pub fn start(rt: &(impl Env + Files), input: Stdin, output: Stdout, error: Stderr) {
    let w = words::asked(rt, true);
    if w.known {
        print_frames(rt, input, output, error, w);
        return;
    }
    words::misuse(
        rt,
        error,
        w,
        b"frames: its words are quiet, later, strict and status\n",
    );
}
