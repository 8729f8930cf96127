// Standard input and standard output. The only read of the one and the only write to the other stand here, each in one function. What it did is told by a
// value that nothing else makes, since its fields are private: so a contract of any crate can speak of reads and writes. The handles are the process's own,
// and no trait's: who has such a value has read standard input itself, or written to standard output itself.
#![tactic(auto)]

ghost use Rattle.std.specs.Prelude.{◌≡◌, true, ◌≤◌, length};
ghost use Rattle.standard.specs.Reads.{Reads, bytes_of, has_failed};

use std::io::{Read, Stdin, Stdout};

// A read that failed. The system says no more of it here.
#[derive(Clone, Copy, PartialEq, Eq)]
pub struct ReadFailed;

// The reads so far. Of the last one: how many bytes it had room for (0: there was none yet), and what came of it: how many it put at the start of what it
// was handed, or that it failed. And the bytes that all of them brought, 2^64 - 1 where they are more.
#[derive(Clone, Copy)]
pub struct Brought {
    room: usize,
    came: Result<usize, ReadFailed>,
    total: u64,
}

// A write: how many bytes it was handed, and whether it took them all.
#[derive(Clone, Copy)]
pub struct Written {
    bytes: usize,
    taken: bool,
}

impl Brought {
    // No read was made yet.
    pub fn unread() -> Self
        ensures { (result.room ≡ 0) × (result.total ≡ 0) }
    {
        Brought {
            room: 0,
            came: Ok(0),
            total: 0,
        }
    }

    // How many bytes the last read brought, or that it failed.
    pub fn last(self) -> Result<usize, ReadFailed>
        ensures { result ≡ self.came }
    {
        self.came
    }

    // Whether the last read failed.
    pub fn failed(self) -> bool
        ensures { result ≡ has_failed self }
    {
        self.last().is_err()
    }

    // How many bytes the last read brought: none, where it failed.
    pub fn count(self) -> usize
        ensures { result ≡ bytes_of self }
    {
        self.last().unwrap_or(0)
    }
}

impl Written {
    // Nothing was written yet.
    pub fn unwritten() -> Self
        ensures { (result.bytes ≡ 0) × (result.taken ≡ true) }
    {
        Written {
            bytes: 0,
            taken: true,
        }
    }

    // Whether the write took all of its bytes.
    pub fn taken(self) -> bool
        ensures { result ≡ self.taken }
    {
        self.taken
    }
}

// One read of standard input more: one call of the system, and no byte is read ahead. A call that a signal interrupts is one that failed. Of the bytes that
// it puts into the free part nothing can be said.
pub fn read(mut input: Stdin, b: Brought, free: &mut [u8]) -> Brought
    ensures { Reads b (length free.old) result }
{
    let room = free.len();
    match input.read(free) {
        Ok(bytes) => Brought {
            room,
            came: Ok(bytes),
            total: b.total.saturating_add(bytes as u64),
        },
        Err(_) => Brought {
            room,
            came: Err(ReadFailed),
            ..b
        },
    }
}

// Reads standard input until the room is full, the input ends or a read fails, and answers how many bytes stand at its start then.
pub fn read_full(input: Stdin, room: &mut [u8]) -> usize
    ensures { result ≤ length room.old }
{
    let mut done = 0;
    while done < room.len() {
        match read(input, Brought::unread(), &mut room[done..]).count() {
            0 => break,
            n => done += n,
        }
    }
    done
}

// One write to standard output. Which text it is, the caller's contract says.
pub fn write(output: Stdout, text: &[u8]) -> Written
    ensures { result.bytes ≡ length text.now }
{
    let bytes = text.len();
    let taken = output.write_all(text).is_ok();
    Written { bytes, taken }
}

// One write to standard output of a text that no definition says, and whether it took all bytes. No value tells of it, so no contract rests on it.
pub fn print(output: Stdout, text: &[u8]) -> bool {
    write(output, text).taken()
}
