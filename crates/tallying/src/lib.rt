// The run of the stream over standard input, to its first refusal or its end, with a counter for each tag value. It stands in a library, so that
// `tally` and the three programs that only test it on other inputs are the same code.
#![tactic(auto)]

ghost use Rattle.std.specs.Prelude.{◌≡◌, false, ◌≤◌, length};
ghost use Rattle.text.specs.Decimal.{Wrote};
ghost use Rattle.words.specs.Words.{reading_of, ending_by, stop_by};
ghost use Rattle.stream.specs.Meaning.{number_of};
ghost use Rattle.tally_lines.specs.Lines.{tally_of};
ghost use Rattle.plain.specs.Plain.{Table};
ghost use Rattle.tallying.specs.Counts.{Counters, on_to, Skimmed, Tightly, Drained};
ghost use Rattle.tallying.specs.Reads.{Tallied, Finished};

mod printed;

use feeding::Turn;
use format::Reading;
pub use printed::Tally;
use standard::Brought;
use std::io::{Stderr, Stdin, Stdout};
use std::rt::{Env, Files};
use stream::{Answer, Step, Stream};
use words::{Ending, Words};

// Takes and counts the plain messages in front, by a reading's table, with no jump by tag or side: such jumps are most of the time that `next_of` takes.
// By a strict reading's table there are none.
fn skim(mut s: Stream, b: &[u8; 8192], rows: &[u64; 256], count: &mut [u64; 256]) -> Stream
    requires { Counters count.old s.messages }
    ensures { Skimmed rows.now b.now s count.old result count.new }
{
    loop {
        if !s.in_bounds() {
            return s;
        }
        let window = &b[s.start..s.end];
        let n = plain::plain(window, rows);
        if n == 0 {
            return s;
        }
        let Some(messages) = s.messages.checked_add(1) else {
            return s;
        };
        count[usize::from(window[2])] += 1;
        s = Stream {
            start: s.start + n,
            messages,
            error: false,
            ..s
        };
    }
}

// Where the window begins, and how many messages were taken, behind those that a skim took.
#[derive(Clone, Copy)]
struct Front {
    start: usize,
    messages: u64,
}

// The same for a strict reading, by the ordinary table: the messages that a strict reading takes, too. It is called from two places, so that it is
// compiled by itself, and by numbers alone, so that they stay in registers: in `skim` the two tests more would slow the ordinary reading. So the two are no
// instances of one function, and what they promise differs: that of `skim` holds of the readings whose table it is lent, this one's of every reading.
fn skim_strictly(
    b: &[u8; 8192],
    rows: &[u64; 256],
    count: &mut [u64; 256],
    mut start: usize,
    end: usize,
    mut messages: u64,
) -> Front
    requires counted { Counters count.old messages }
    requires table { Table false rows.now }
    ensures { Tightly b.now start end messages count.old result.start result.messages count.new }
{
    loop {
        if start > end || end > 8192 {
            return Front { start, messages };
        }
        let window = &b[start..end];
        let n = plain::strictly(window, rows);
        if n == 0 || messages == u64::MAX {
            return Front { start, messages };
        }
        count[usize::from(window[2])] += 1;
        start += n;
        messages += 1;
    }
}

// The state behind the messages that a skim took: the first of them clears the mark.
#[tactic(auto, using(std::proofs::lemmas::Bool::Decides::nat_tests))]
fn on(s: Stream, f: Front) -> Stream
    ensures { result ≡ on_to s f.start f.messages }
{
    Stream {
        start: f.start,
        messages: f.messages,
        error: f.messages == s.messages && s.error,
        ..s
    }
}

// Takes and counts the window's messages, the plain ones by a skim, to the first answer that is none. It is lent the reading's table and the ordinary one.
// The loop has this one way out, so that it stays small.
fn drain(
    mut s: Stream,
    b: &[u8; 8192],
    rows: &[u64; 256],
    tight: &[u64; 256],
    count: &mut [u64; 256],
    reading: Reading,
) -> Step
    requires counted { Counters count.old s.messages }
    requires table { Table reading.strict rows.now }
    requires ordinary { Table false tight.now }
    ensures { Drained reading b.now s count.old result count.new }
{
    let strict = reading.strict;
    if strict {
        let f = skim_strictly(b, tight, count, s.start, s.end, s.messages);
        s = on(s, f);
    }
    loop {
        let t = skim(s, b, rows, count);
        let step = stream::next_of(t, b, reading);
        let Answer::Message(message) = step.answer else {
            return step;
        };
        count[usize::from(message.tag)] += 1;
        s = step.state;
        if strict {
            let f = skim_strictly(b, tight, count, s.start, s.end, s.messages);
            s = on(s, f);
        }
    }
}

// Drains the window by a reading and reads, to the first answer that stops.
fn run(input: Stdin, count: &mut [u64; 256], reading: Reading) -> Turn
    requires { Counters count.old 0 }
    ensures { Tallied reading count.old result count.new }
{
    let mut buf = [0u8; 8192];
    let rows = plain::rows(reading.strict);
    let tight = plain::rows(false);
    let mut s = stream::fresh();
    let mut b = Brought::unread();
    loop {
        let step = drain(s, &buf, &rows, &tight, count, reading);
        let Answer::Wants = step.answer else {
            return Turn { step, brought: b };
        };
        let turn = feeding::feed(input, step.state, b, &mut buf);
        if !feeding::ready(turn.step) {
            return turn;
        }
        s = turn.step.state;
        b = turn.brought;
    }
}

// The lines of the counters: they are put, since there are 256 and the buffer has room.
fn put_tally(count: &[u64; 256], messages: u64, answer: Answer, out: &mut [u8]) -> usize
    requires { Counters count.now messages × (5968 ≤ length out.old) }
    ensures { Wrote (tally_of count.now messages answer) out.old 0 out.new result }
{
    tally_lines::tally(count, messages, answer, out)
}

// Says where the run stopped on standard error, and the ending to who asked for it.
fn report(
    rt: &impl Files,
    error: Stderr,
    words: Words,
    last: Step,
    number: Option<u8>,
    t: Tally,
    o: Ending,
)
    requires number_value { number ≡ stop_by (number_of last.answer) }
    requires o_value { o ≡ ending_by number t.written.taken }
{
    let consumed = stream::consumed(last.state);
    words::stopped(error, b"tally", number, consumed, t.taken());
    words::say(rt, words, o);
}

// Runs the stream by the reading that the words ask for, and prints the counts. The answer tells of the reads and of the write. It is small: a larger
// one, with the last message, slows the loop.
pub fn print_tally(
    rt: &impl Files,
    input: Stdin,
    output: Stdout,
    error: Stderr,
    words: Words,
) -> Tally
    ensures { Finished (reading_of words) result }
{
    let reading = Reading::from(words);
    let mut count = [0u64; 256];
    let mut out = [0u8; 8192];
    let last = run(input, &mut count, reading);
    let step = last.step;
    let n = put_tally(&count, step.state.messages, step.answer, &mut out);
    let tally = printed::write(output, &count, last, &out[..n], reading);
    let number = words::stop_by(tally_lines::number_of(step.answer));
    let taken = tally.taken();
    report(
        rt,
        error,
        words,
        step,
        number,
        tally,
        words::ending_by(number, taken),
    );
    tally
}

// The program: what the words ask for, and nothing where they are none. Answers how many bytes its last read brought, for who runs it on one input after the
// other.
pub fn start(rt: &(impl Env + Files), input: Stdin, output: Stdout, error: Stderr) -> usize {
    let w = words::asked(rt, false);
    if w.known {
        return print_tally(rt, input, output, error, w).last_read();
    }
    words::misuse(
        rt,
        error,
        w,
        b"tally: its words are later, strict and status\n",
    );
    0
}
