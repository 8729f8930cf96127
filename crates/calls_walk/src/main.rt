// Plays a list of calls of the reader's window and of the walk's step, which stands on standard input, and prints a line for each: what was answered, the walk's
// state, and the sum of A. oracle/calls makes the list, and says its form and the lines. A call that has no number here ends the program.
#![tactic(auto)]

mod answers;

use calls::{Broken, Calls, Line};

// The calls that this program makes.
enum Call {
    Window,
    Step,
}

impl TryFrom<u64> for Call {
    type Error = Broken;

    fn try_from(number: u64) -> Result<Call, Broken> {
        match number {
            1 => Ok(Call::Window),
            2 => Ok(Call::Step),
            _ => Err(Broken),
        }
    }
}

struct Walking;

impl Calls for Walking {
    fn make(&self, v: [u64; 17], a: &mut [u8], b: &[u8], line: &mut Line) -> Result<(), Broken> {
        match Call::try_from(call_list::which(v[0]))? {
            Call::Window => answers::window(v, a, line),
            Call::Step => answers::step(v, a, b, line),
        }
        Ok(())
    }
}

fn main(rt: HostRuntime) {
    calls::play(
        "calls_walk",
        &[Walking],
        rt.stdin(),
        rt.stdout(),
        rt.stderr(),
    );
}
