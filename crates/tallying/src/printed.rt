// The write of the lines. It is told by a value that nothing else makes, since its fields are private.
ghost use Rattle.std.specs.Prelude.{◌≡◌, length};
ghost use Rattle.standard.specs.Reads.{bytes_of};
ghost use Rattle.tallying.specs.Reads.{Printed};

use feeding::Turn;
use format::Reading;
use standard::{Brought, Written};
use std::io::Stdout;

// The reads of the run whose counters were printed, and the write of their lines.
#[derive(Clone, Copy)]
pub struct Tally {
    brought: Brought,
    written: Written,
}

// Writes the lines of the counters that a run by a reading left.
pub(super) fn write(
    output: Stdout,
    count: &[u64; 256],
    last: Turn,
    text: &[u8],
    reading: Reading,
) -> Tally
    requires { Printed reading count.now last text.now }
    ensures brought_value { result.brought ≡ last.brought }
    ensures bytes_value { result.written.bytes ≡ length text.now }
{
    Tally {
        brought: last.brought,
        written: standard::write(output, text),
    }
}

impl Tally {
    // Whether the write was taken.
    pub(super) fn taken(self) -> bool
        ensures { result ≡ self.written.taken }
    {
        self.written.taken()
    }

    // How many bytes the last read brought.
    pub(super) fn last_read(self) -> usize
        ensures { result ≡ bytes_of self.brought }
    {
        self.brought.count()
    }
}
