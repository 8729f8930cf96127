// What was handed to standard output of a walk. It is told by a value that only these functions make, since its fields are private: so whoever has one
// has written the lines of every call up to its state, one behind the other, from the fresh state on.
ghost use Rattle.std.specs.Prelude.{◌≡◌, true, false, length};
ghost use Rattle.walk.specs.Walk.{fresh_of};
ghost use Rattle.framing.specs.Texts.{Lines, Closes};

use format::Reading;
use lines::Blocked;
use standard::{Brought, Written};
use std::io::Stdout;
use walk::Walk;

// Where it goes; the state up to which all lines are handed to writes, quiet or not; the last write, and whether it was that of the closing lines.
#[derive(Clone, Copy)]
pub struct Sent {
    output: Stdout,
    quiet: bool,
    state: Walk,
    written: Written,
    closed: bool,
}

impl Sent {
    // Nothing, at the fresh state of a walk by this reading.
    pub(super) fn begun(output: Stdout, quiet: bool, reading: Reading) -> Self
        ensures quiet_value { result.quiet ≡ quiet }
        ensures state_value { result.state ≡ fresh_of reading }
        ensures taken_value { result.written.taken ≡ true }
    {
        Sent {
            output,
            quiet,
            state: walk::fresh(reading),
            written: Written::unwritten(),
            closed: false,
        }
    }

    // Whether the lines of accepted frames are left out.
    pub(super) fn quiet(self) -> bool
        ensures { result ≡ self.quiet }
    {
        self.quiet
    }

    // The state.
    pub(super) fn state(self) -> Walk
        ensures { result ≡ self.state }
    {
        self.state
    }

    // Whether the last write was taken.
    pub(super) fn taken(self) -> bool
        ensures { result ≡ self.written.taken }
    {
        self.written.taken()
    }

    // Writes the lines of one call.
    pub(super) fn put(self, block: &[u8], from: usize, r: Blocked, text: &[u8]) -> Self
        requires { Lines self block.now from r text.now }
        ensures quiet_value { result.quiet ≡ self.quiet }
        ensures state_value { result.state ≡ r.state }
        ensures bytes_value { result.written.bytes ≡ length text.now }
    {
        Sent {
            state: r.state,
            written: standard::write(self.output, text),
            closed: false,
            ..self
        }
    }

    // Writes the closing lines.
    pub(super) fn close(self, b: Brought, text: &[u8]) -> Self
        requires { Closes self b text.now }
        ensures quiet_value { result.quiet ≡ self.quiet }
        ensures state_value { result.state ≡ self.state }
        ensures bytes_value { result.written.bytes ≡ length text.now }
        ensures closed_value { result.closed ≡ true }
    {
        Sent {
            written: standard::write(self.output, text),
            closed: true,
            ..self
        }
    }
}
