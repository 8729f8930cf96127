// The round trips: the reader's call and the writer's, one after the other, by one reading. The theorems stand in proofs/ and speak of the
// definitions; here is what they say of the calls.
#![tactic(auto)]

ghost use Rattle.std.specs.Prelude.{◌≡◌};
ghost use Rattle.reader.specs.Window.{window_of};
ghost use Rattle.trips.specs.Trips.{written_in, again_of, again_in, ReadBack, WrittenBack};

use format::{Fault, Reading};
use reader::Window;
use records::Message;
use writer::Written;

// What reading and then writing answers: what the writer said of the message; or why there was none.
pub type Again = Result<Written, Fault>;

// Writes the record and reads the buffer: the answer is that of the buffer behind the write. A record that was written is read back, unless the reading is
// strict and refuses its time or a text.
pub fn write_read(m: Message, buf: &mut [u8], reading: Reading) -> Window
    ensures value { result ≡ window_of reading (written_in reading m buf.old) }
    ensures buf_after { buf.new ≡ written_in reading m buf.old }
    ensures read_back { ReadBack reading m buf.old result }
{
    let w = writer::write(m, buf, reading);
    reader::parse_message(buf, reading)
}

// Reads the bytes and writes the message that they are. It is written as the bytes that it was, and later bytes stay; but where its length field was not its size, the size is
// written there.
pub fn read_write(s: &[u8], buf: &mut [u8], reading: Reading) -> Again
    ensures value { result ≡ again_of reading (window_of reading s.now) buf.old }
    ensures buf_after { buf.new ≡ again_in reading (window_of reading s.now) buf.old }
    ensures written_back { WrittenBack reading s.now buf.old result buf.new }
{
    let (m, _) = reader::parse_message(s, reading)?;
    Ok(writer::write(m, buf, reading))
}
