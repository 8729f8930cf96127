// Plays a list of calls of the writer, which stands on standard input, and prints a line for each: what was answered, and the sum of A. oracle/calls makes the
// list, and says its form and the lines. A call that has no number here ends the program.
#![tactic(auto)]

mod changes;

use calls::{Broken, Calls, Line};
use writer::Written;

// The call's number.
const WRITE: u64 = 8;

// The same by the later edition.
const LATER: u64 = 108;

// What the writer answered.
fn wrote(w: Written, line: &mut Line) {
    match w {
        Ok(n) => line.put(b"write done {n}{.", &[n as u64]),
        Err(e) => line.put(b"write refused {n}{.", &[u64::from(u8::from(e))]),
    }
}

struct Writing;

impl Calls for Writing {
    // Writes the record of B's bytes, which may be of either edition, with the changes that the numbers say, into A. It is an error where B is no record, too.
    fn make(&self, v: [u64; 17], a: &mut [u8], b: &[u8], line: &mut Line) -> Result<(), Broken> {
        if call_list::which(v[0]) != WRITE {
            return Err(Broken);
        }
        let Ok((m, _)) = reader::parse_message(b, call_list::reading(LATER)) else {
            return Err(Broken);
        };
        let w = writer::write(changes::changed(m, v), a, call_list::reading(v[0]));
        wrote(w, line);
        Ok(())
    }
}

fn main(rt: HostRuntime) {
    calls::play(
        "calls_write",
        &[Writing],
        rt.stdin(),
        rt.stdout(),
        rt.stderr(),
    );
}
