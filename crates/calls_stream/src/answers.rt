// What the calls answer, as text, put into the line. The words and the numbers are the scope's.
use crate::either::{FlatPlayed, Way};
use calls::Line;
use flat::{Flat, Said};
use stream::Stream;

// Before the call's name: `lent` where it is made over a lent state.
pub fn way(way: Way, line: &mut Line) {
    match way {
        Way::ByValue => {}
        Way::Lent => line.word(b"lent {."),
    }
}

// What the stream answered; a message by its 19 numbers.
fn answered(said: Said, line: &mut Line) {
    match said {
        Said::Nothing => line.word(b" nothing{."),
        Said::Refused(number, place) => line.put(
            b" refused {n} {n}{.",
            &[u64::from(number), place as u64],
        ),
        Said::Wants => line.word(b" wants{."),
        Said::Ready => line.word(b" ready{."),
        Said::Message(v) => {
            line.word(b" message{.");
            line.numbers(&v);
        }
    }
}

// A stream's state.
fn state(s: Stream, line: &mut Line) {
    line.word(b" state{.");
    line.numbers(&[
        s.start as u64,
        s.end as u64,
        s.bytes_read,
        s.read_calls,
        s.messages,
        u64::from(s.error),
    ]);
}

// What a call of the stream answered, and the state behind it.
pub fn stepped(f: Flat, line: &mut Line) {
    answered(f.said, line);
    state(f.state, line);
}

// What the playing slice answered, the position and the state behind it.
pub fn played(p: FlatPlayed, line: &mut Line) {
    answered(p.flat.said, line);
    line.put(b" at {n}{.", &[p.at]);
    state(p.flat.state, line);
}
