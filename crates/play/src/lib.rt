// A slice plays the reader, handed over in pieces of a given width: trying the window and fetching call each other until there is an answer.
#![tactic(auto)]

ghost use Rattle.std.specs.Prelude.{◌≡◌, ◌≤◌, length};
ghost use Rattle.play.specs.Play.{portion_of, filled, try_of, fetch_of, play_of};

use format::Reading;
use stream::{Answer, Step, Stream};

// What a call leaves: the state, the position in the slice, and the answer.
#[derive(Clone, Copy)]
pub struct Played {
    pub state: Stream,
    pub at: usize,
    pub answer: Answer,
}

// Puts a piece of the unread bytes at the front of the free part; the rest of it stays. Answers how many bytes came: at most the room, the width and the
// unread bytes.
fn fill(free: &mut [u8], unread: &[u8], width: usize) -> usize
    ensures value { result ≡ portion_of (length free.old) (length unread.now) width }
    ensures free_after { free.new ≡ filled free.old result unread.now }
{
    let n = free.len().min(width.min(unread.len()));
    free[..n].copy_from_slice(&unread[..n]);
    n
}

// What is played: a slice, in pieces of a width and by a reading.
#[derive(Clone, Copy)]
struct Tape<'a> {
    src: &'a [u8],
    width: usize,
    reading: Reading,
}

// Where a call of the stream ends the playing, at a position.
fn ending(step: Step, at: usize) -> Played
    ensures { result ≡ record { state = step.state; at = at; answer = step.answer } }
{
    Played {
        state: step.state,
        at,
        answer: step.answer,
    }
}

// Tries the window by the reading; where it wants bytes, fetches.
#[cycle(fetch_try_window)]
fn try_window(s: Stream, buf: &mut [u8], tape: Tape, at: usize) -> Played
    requires { at ≤ length tape.src.now }
    ensures value { result ≡ (try_of tape.entry.reading tape.entry.src.now tape.entry.width s buf.old at).played }
    ensures buf_after { buf.new ≡ (try_of tape.entry.reading tape.entry.src.now tape.entry.width s buf.old at).buffer }
{
    let tried = stream::next_of(s, buf, tape.reading);
    let Answer::Wants = tried.answer else {
        return ending(tried, at);
    };
    fetch(tried.state, buf, tape, at)
}

// Makes room, hands the free part on to be filled, tells how many bytes came, and tries again.
#[cycle(fetch_try_window)]
fn fetch(s: Stream, buf: &mut [u8], tape: Tape, at: usize) -> Played
    requires { at ≤ length tape.src.now }
    ensures value { result ≡ (fetch_of tape.entry.reading tape.entry.src.now tape.entry.width s buf.old at).played }
    ensures buf_after { buf.new ≡ (fetch_of tape.entry.reading tape.entry.src.now tape.entry.width s buf.old at).buffer }
{
    let room = refill::make_room_of(s, buf);
    let Answer::Ready = room.answer else {
        return ending(room, at);
    };
    let n = fill(&mut buf[room.state.end..], &tape.src[at..], tape.width);
    let next = at + n;
    let told = refill::told_of(room.state, n);
    let Answer::Ready = told.answer else {
        return ending(told, next);
    };
    try_window(told.state, buf, tape, next)
}

// Reads on in the slice `src` from position `at`, in pieces of `width` bytes and by a reading, to the first answer that does not want bytes: a message,
// nothing more or a refusal. The position moves on by what was fetched. First come 31, 30 (also for a position past the slice) and 35.
#[tactic(auto, using(std::proofs::lemmas::Bool::Decides::nat_tests), unfolding(crate::specs::Play::play_of))]
pub fn play(
    s: Stream,
    buf: &mut [u8],
    src: &[u8],
    at: usize,
    width: usize,
    reading: Reading,
) -> Played
    ensures value { result ≡ (play_of reading src.now width s buf.old at).played }
    ensures buf_after { buf.new ≡ (play_of reading src.now width s buf.old at).buffer }
{
    if buf.len() != 8192 {
        return ending(stream::refused(s, 31), at);
    }
    if !s.in_bounds() {
        return ending(stream::refused(s, 30), at);
    }
    if at > src.len() {
        return ending(stream::refused(s, 30), at);
    }
    if width == 0 {
        return ending(stream::refused(s, 35), at);
    }
    let tape = Tape {
        src,
        width,
        reading,
    };
    try_window(s, buf, tape, at)
}
