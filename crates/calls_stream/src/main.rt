// Plays a list of calls of the stream and of the playing slice, which stands on standard input, each by value and then over a lent state, and prints a line
// for each: what was answered, the stream's state, and the sum of A. oracle/calls makes the list, and says its form and the lines. A call that has no number here
// ends the program.
#![tactic(auto)]

mod answers;
mod either;

use calls::{Broken, Calls, Line};
use either::Way;
use stream::Stream;

// The calls that this program makes.
enum Call {
    Next,
    MakeRoom,
    Told,
    ToldFailed,
    Play,
}

impl TryFrom<u64> for Call {
    type Error = Broken;

    fn try_from(number: u64) -> Result<Call, Broken> {
        match number {
            3 => Ok(Call::Next),
            4 => Ok(Call::MakeRoom),
            5 => Ok(Call::Told),
            6 => Ok(Call::ToldFailed),
            7 => Ok(Call::Play),
            _ => Err(Broken),
        }
    }
}

// The state that a call's numbers say.
fn state_of(v: [u64; 17]) -> Stream {
    let [_, start, end, bytes_read, read_calls, messages, error, ..] = v;
    Stream {
        start: start as usize,
        end: end as usize,
        bytes_read,
        read_calls,
        messages,
        error: error != 0,
    }
}

// A call, by what its first number says.
fn made(call: Call, way: Way, v: [u64; 17], a: &mut [u8], b: &[u8], line: &mut Line) {
    let s = state_of(v);
    let reading = call_list::reading(v[0]);
    let n = v[7] as usize;
    match call {
        Call::Next => {
            line.word(b"next{.");
            answers::stepped(way.next(s, a, reading), line);
        }
        Call::MakeRoom => {
            line.word(b"make_room{.");
            answers::stepped(way.make_room(s, a), line);
        }
        Call::Told => {
            line.word(b"told{.");
            answers::stepped(way.told(s, n), line);
        }
        Call::ToldFailed => {
            line.word(b"told_failed{.");
            answers::stepped(way.told_failed(s), line);
        }
        Call::Play => {
            line.word(b"play{.");
            answers::played(way.play(s, a, b, n, v[8] as usize, reading), line);
        }
    }
}

impl Calls for Way {
    fn make(&self, v: [u64; 17], a: &mut [u8], b: &[u8], line: &mut Line) -> Result<(), Broken> {
        let call = Call::try_from(call_list::which(v[0]))?;
        answers::way(*self, line);
        made(call, *self, v, a, b, line);
        Ok(())
    }
}

fn main(rt: HostRuntime) {
    calls::play(
        "calls_stream",
        &[Way::ByValue, Way::Lent],
        rt.stdin(),
        rt.stdout(),
        rt.stderr(),
    );
}
