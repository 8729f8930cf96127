// The calls of a stream that read no window: make room, told how many bytes came, and told that a read failed. What they answer is defined in the specs of stream.
#![tactic(auto)]

ghost use Rattle.std.specs.Prelude.{◌≡◌, length};
ghost use Rattle.stream.specs.Room.{room_of, room_buffer};
ghost use Rattle.stream.specs.Told.{told_of, failed_of};

use stream::{Answer, Step, Stream};

// Counts a read call and sees that there is room for it. Where it is ready, the free part `&mut buf[end..]` is the caller's to fill, and it is not empty. A window of 52 bytes or more needs no refill, so
// that a window at the buffer's end moves over less than 52 bytes; the bytes behind the copy stay.
#[tactic(auto, using(std::proofs::lemmas::Bool::Decides::nat_tests), unfolding(stream::specs::Room::room_of, stream::specs::Room::room_buffer))]
pub fn make_room_of(s: Stream, buf: &mut [u8]) -> Step
    ensures value { result ≡ room_of s (length buf.old) }
    ensures buf_after { buf.new ≡ room_buffer s buf.old }
{
    if buf.len() != 8192 {
        return stream::refused(s, 31);
    }
    if !s.in_bounds() {
        return stream::refused(s, 30);
    }
    if s.end - s.start >= 52 {
        return stream::refused(s, 34);
    }
    let Some(read_calls) = s.read_calls.checked_add(1) else {
        return stream::refused(s, 33);
    };
    if s.end == 8192 {
        buf.copy_within(s.start.., 0);
        return Step {
            state: Stream {
                start: 0,
                end: s.end - s.start,
                read_calls,
                ..s
            },
            answer: Answer::Ready,
        };
    }
    Step {
        state: Stream { read_calls, ..s },
        answer: Answer::Ready,
    }
}

// The caller says how many bytes the free part was filled with, and gets the state that holds them; none means that the input ended: nothing more, or
// 10 inside a message.
#[tactic(auto, using(std::proofs::lemmas::Bool::Decides::nat_tests), unfolding(stream::specs::Told::told_of))]
pub fn told_of(s: Stream, n: usize) -> Step
    ensures { result ≡ told_of s n }
{
    if !s.in_bounds() {
        return stream::refused(s, 30);
    }
    if n > 8192 - s.end {
        return stream::refused(s, 32);
    }
    let Some(bytes_read) = s.bytes_read.checked_add(n as u64) else {
        return stream::refused(s, 33);
    };
    if n > 0 {
        return Step {
            state: Stream {
                end: s.end + n,
                bytes_read,
                ..s
            },
            answer: Answer::Ready,
        };
    }
    if s.start == s.end {
        return Step {
            state: s,
            answer: Answer::Nothing,
        };
    }
    stream::marked(s, 10, 0)
}

// The caller says that the read failed: 11 and the mark, or nothing more if it was set.
#[tactic(auto, using(std::proofs::lemmas::Bool::Decides::nat_tests), unfolding(stream::specs::Told::failed_of))]
pub fn told_failed_of(s: Stream) -> Step
    ensures { result ≡ failed_of s }
{
    if !s.in_bounds() {
        return stream::refused(s, 30);
    }
    stream::marked(s, 11, 0)
}
