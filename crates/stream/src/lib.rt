// The stream: its state, what its calls answer, and next, on a state and the 8,192-byte buffer that is lent beside it. The state is taken by value and given back
// with the answer. The other calls, which read no window, are those of the crate refill.
#![tactic(auto)]

ghost use Rattle.std.specs.Prelude.{◌≡◌, ◌&&◌, leb};
ghost use Rattle.stream.specs.State.{fresh_state, refuses, marks, consumed_of};
ghost use Rattle.stream.specs.Next.{next_of};

use format::{Fault, Reading};
use records::Message;

// The state of a stream. The window is the part of the buffer from start to end; the counts are of bytes told, of read calls and of messages answered.
// The mark is set by a refusal with 1 to 5, 10 or 11, and a message clears it.
#[derive(Clone, Copy, Default)]
pub struct Stream {
    pub start: usize,
    pub end: usize,
    pub bytes_read: u64,
    pub read_calls: u64,
    pub messages: u64,
    pub error: bool,
}

impl Stream {
    // Whether the window lies within the buffer. A call on a state where it does not is refused with 30.
    pub fn in_bounds(&self) -> bool
        ensures { result ≡ (leb self.now.start self.now.end && leb self.now.end 8192) }
    {
        self.start <= self.end && self.end <= 8192
    }
}

// What a call answers: a message; the window wants bytes; ready, since there is room or bytes came; nothing more; refused, with number and place.
#[derive(Clone, Copy)]
pub enum Answer {
    Message(Message),
    Wants,
    Ready,
    Nothing,
    Refused(u8, usize),
}

// The state behind a call, and what the call answers.
#[derive(Clone, Copy)]
pub struct Step {
    pub state: Stream,
    pub answer: Answer,
}

// The state before the first call: all zero. The buffer beside it is zeroed at first.
pub fn fresh() -> Stream
    ensures { result ≡ fresh_state }
{
    Stream::default()
}

// A refusal with 30 to 34, that leaves the state.
pub fn refused(s: Stream, number: u8) -> Step
    ensures { result ≡ refuses s number }
{
    Step {
        state: s,
        answer: Answer::Refused(number, 0),
    }
}

// A refusal that sets the mark, with its number and place; nothing more where the mark was set.
pub fn marked(s: Stream, number: u8, place: usize) -> Step
    ensures { result ≡ marks s number place }
{
    if s.error {
        return Step {
            state: s,
            answer: Answer::Nothing,
        };
    }
    Step {
        state: Stream { error: true, ..s },
        answer: Answer::Refused(number, place),
    }
}

// Reads the window by a reading: a message, and the state past it; wants bytes; or a refusal, told once. It is the one place that reads a window, so that the
// whole reader is compiled into it.
pub fn next_of(s: Stream, buf: &[u8], reading: Reading) -> Step
    ensures { result ≡ next_of reading s buf.now }
{
    if buf.len() != 8192 {
        return refused(s, 31);
    }
    if !s.in_bounds() {
        return refused(s, 30);
    }
    match reader::parse_message(&buf[s.start..s.end], reading) {
        Ok((message, used)) => {
            if s.messages == u64::MAX {
                return refused(s, 33);
            }
            Step {
                state: Stream {
                    start: s.start + used,
                    messages: s.messages + 1,
                    error: false,
                    ..s
                },
                answer: Answer::Message(message),
            }
        }
        Err(Fault::Short) => Step {
            state: s,
            answer: Answer::Wants,
        },
        Err(Fault::Refused(r)) => marked(s, r.number, r.place),
    }
}

// The bytes of the messages that were answered, which is where in the recording the window begins: all bytes read, less those in the window. 0 of a state that
// no calls lead to.
pub fn consumed(s: Stream) -> u64
    ensures { result ≡ consumed_of s }
{
    match s.end.checked_sub(s.start) {
        Some(held) => s.bytes_read.saturating_sub(held as u64),
        None => 0,
    }
}
