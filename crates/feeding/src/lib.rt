// Reads of standard input for a stream.
#![tactic(auto)]

ghost use Rattle.std.specs.Prelude.{◌≡◌};
ghost use Rattle.feeding.specs.Turns.{is_ready, tell_of, Fed};

use standard::Brought;
use std::io::Stdin;
use stream::{Answer, Step, Stream};

// Whether the answer is ready: there is room, or bytes came.
pub fn ready(s: Step) -> bool
    ensures { result ≡ is_ready s.answer }
{
    matches!(s.answer, Answer::Ready)
}

// What the state is told of a read.
fn tell(s: Stream, b: Brought) -> Step
    ensures { result ≡ tell_of s b }
{
    match b.last() {
        Ok(n) => refill::told_of(s, n),
        Err(_) => refill::told_failed_of(s),
    }
}

// A turn: the state and the answer behind it, and what its read brought.
#[derive(Clone, Copy)]
pub struct Turn {
    pub step: Step,
    pub brought: Brought,
}

// One read for a stream: room is made, the free part of the buffer is handed on for the read of standard input, and the state is told what came of it. Where no room
// is made that is the answer, and nothing is read. What was read before is handed in, and comes back with this read.
pub fn feed(input: Stdin, s: Stream, b: Brought, buf: &mut [u8]) -> Turn
    ensures { Fed s b buf.old result buf.new }
{
    let room = refill::make_room_of(s, buf);
    if !ready(room) {
        return Turn {
            step: room,
            brought: b,
        };
    }
    let brought = standard::read(input, b, &mut buf[room.state.end..]);
    Turn {
        step: tell(room.state, brought),
        brought,
    }
}
