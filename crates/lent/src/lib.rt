// The stream's calls over a lent state. Each hands to the call that takes it by value the parts of the state that this looks at, with zero or false for the
// others, and stores back the parts that it may change. The others are not touched, whatever they are. Where the whole state was copied in and out, a call took
// some six times as long.
#![tactic(auto)]

ghost use Rattle.std.specs.Prelude.{◌≡◌, length};
ghost use Rattle.stream.specs.Next.{next_of};
ghost use Rattle.stream.specs.Room.{room_of, room_buffer};
ghost use Rattle.stream.specs.Told.{told_of, failed_of};
ghost use Rattle.play.specs.Play.{play_of};

use format::Reading;
use stream::{Answer, Stream};

// Next, by a reading: the message that stands first in the window, or why there is none.
pub fn next(s: &mut Stream, buf: &[u8], reading: Reading) -> Answer
    ensures value { result ≡ (next_of reading s.old buf.now).answer }
    ensures s_after { s.new ≡ (next_of reading s.old buf.now).state }
{
    let parts = Stream {
        bytes_read: 0,
        read_calls: 0,
        ..*s
    };
    let step = stream::next_of(parts, buf, reading);
    s.start = step.state.start;
    s.messages = step.state.messages;
    s.error = step.state.error;
    step.answer
}

// Make room: where it is ready, the buffer from end onward is the caller's to fill.
pub fn make_room(s: &mut Stream, buf: &mut [u8]) -> Answer
    ensures value { result ≡ (room_of s.old (length buf.old)).answer }
    ensures s_after { s.new ≡ (room_of s.old (length buf.old)).state }
    ensures buf_after { buf.new ≡ room_buffer s.old buf.old }
{
    let parts = Stream {
        bytes_read: 0,
        messages: 0,
        error: false,
        ..*s
    };
    let step = refill::make_room_of(parts, buf);
    s.start = step.state.start;
    s.end = step.state.end;
    s.read_calls = step.state.read_calls;
    step.answer
}

// Told how many bytes the free part was filled with; none means that the input ended.
pub fn told(s: &mut Stream, n: usize) -> Answer
    ensures value { result ≡ (told_of s.old n).answer }
    ensures s_after { s.new ≡ (told_of s.old n).state }
{
    let parts = Stream {
        read_calls: 0,
        messages: 0,
        ..*s
    };
    let step = refill::told_of(parts, n);
    s.end = step.state.end;
    s.bytes_read = step.state.bytes_read;
    s.error = step.state.error;
    step.answer
}

// Told that the read failed.
pub fn told_failed(s: &mut Stream) -> Answer
    ensures value { result ≡ (failed_of s.old).answer }
    ensures s_after { s.new ≡ (failed_of s.old).state }
{
    let parts = Stream {
        bytes_read: 0,
        read_calls: 0,
        messages: 0,
        ..*s
    };
    let step = refill::told_failed_of(parts);
    s.error = step.state.error;
    step.answer
}

// How far the slice was played, and the answer.
#[derive(Clone, Copy)]
pub struct Reach {
    pub at: usize,
    pub answer: Answer,
}

// A slice plays the reader, in pieces of a width and by a reading: the position comes back with the answer.
pub fn play_on(
    s: &mut Stream,
    buf: &mut [u8],
    src: &[u8],
    at: usize,
    width: usize,
    reading: Reading,
) -> Reach
    ensures at_value { result.at ≡ (play_of reading src.now width s.old buf.old at).played.at }
    ensures answer_value { result.answer ≡ (play_of reading src.now width s.old buf.old at).played.answer }
    ensures s_after { s.new ≡ (play_of reading src.now width s.old buf.old at).played.state }
    ensures buf_after { buf.new ≡ (play_of reading src.now width s.old buf.old at).buffer }
{
    let p = play::play(*s, buf, src, at, width, reading);
    *s = p.state;
    Reach {
        at: p.at,
        answer: p.answer,
    }
}
