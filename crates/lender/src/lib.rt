// The calls over a lent state, for callers that hold no reference to one: each function lends its state to the call of lent that has the same name, and
// gives it back with the answer. One function that takes the call as a closure would be no plainer: its contract would have to say what a closure promises of the state and the buffer.
#![tactic(auto)]

ghost use Rattle.std.specs.Prelude.{◌≡◌, length};
ghost use Rattle.stream.specs.Next.{next_of};
ghost use Rattle.stream.specs.Room.{room_of, room_buffer};
ghost use Rattle.stream.specs.Told.{told_of, failed_of};
ghost use Rattle.play.specs.Play.{play_of};

use format::Reading;
use play::Played;
use stream::{Step, Stream};

// Next, of a state that is lent.
pub fn next(mut s: Stream, buf: &[u8], reading: Reading) -> Step
    ensures { result ≡ next_of reading s buf.now }
{
    let answer = lent::next(&mut s, buf, reading);
    Step { state: s, answer }
}

// Make room, of a state that is lent.
pub fn make_room(mut s: Stream, buf: &mut [u8]) -> Step
    ensures value { result ≡ room_of s (length buf.old) }
    ensures buf_after { buf.new ≡ room_buffer s buf.old }
{
    let answer = lent::make_room(&mut s, buf);
    Step { state: s, answer }
}

// Told how many bytes came, of a state that is lent.
pub fn told(mut s: Stream, n: usize) -> Step
    ensures { result ≡ told_of s n }
{
    let answer = lent::told(&mut s, n);
    Step { state: s, answer }
}

// Told that a read failed, of a state that is lent.
pub fn told_failed(mut s: Stream) -> Step
    ensures { result ≡ failed_of s }
{
    let answer = lent::told_failed(&mut s);
    Step { state: s, answer }
}

// A slice plays the reader, of a state that is lent.
pub fn play(
    mut s: Stream,
    buf: &mut [u8],
    src: &[u8],
    at: usize,
    width: usize,
    reading: Reading,
) -> Played
    ensures value { result ≡ (play_of reading src.now width s buf.old at).played }
    ensures buf_after { buf.new ≡ (play_of reading src.now width s buf.old at).buffer }
{
    let reach = lent::play_on(&mut s, buf, src, at, width, reading);
    Played {
        state: s,
        at: reach.at,
        answer: reach.answer,
    }
}
