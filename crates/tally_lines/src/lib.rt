// The lines of `tally`, put into a lent buffer.
#![tactic(auto)]

ghost use Rattle.std.specs.Prelude.{◌≡◌, ◌+◌, ◌≤◌, length};
ghost use Rattle.text.specs.Decimal.{Wrote, Puts};
ghost use Rattle.stream.specs.Meaning.{number_of, place_of};
ghost use Rattle.tally_lines.specs.Lines.{line_of, lines_of, messages_of, stopped_of, printed_of};

use stream::Answer;

// The line of a tag value, if its count is above zero.
fn line(tag: u8, n: u64, out: &mut [u8], at: usize) -> usize
    requires { at + 23 ≤ length out.old }
    ensures { Wrote (line_of tag n) out.old at out.new result × (result ≤ at + 23) }
{
    if n > 0 {
        let a = text::byte(tag, out, at);
        let b = text::byte(b' ', out, a);
        return text::number(n, b'\n', out, b);
    }
    at
}

// The lines of all tag values, in byte order.
fn lines(count: &[u64], out: &mut [u8]) -> usize
    requires { (length count.now ≡ 256) × (5888 ≤ length out.old) }
    ensures { Wrote (lines_of count.now 256) out.old 0 out.new result × (result ≤ 5888) }
{
    let mut at = 0;
    for (k, n) in count.iter().enumerate() {
        at = line(k as u8, *n, out, at);
    }
    at
}

// The line of all messages.
fn messages_line(messages: u64, out: &mut [u8], at: usize) -> usize
    requires { at + 30 ≤ length out.old }
    ensures { Wrote (messages_of messages) out.old at out.new result × (result ≤ at + 30) }
{
    let a = text::bytes(b"messages ", out, at);
    text::number(messages, b'\n', out, a)
}

// The line of where the stream stopped.
fn stopped_line(stop: u8, place: usize, out: &mut [u8], at: usize) -> usize
    requires { at + 50 ≤ length out.old }
    ensures { Wrote (stopped_of stop place) out.old at out.new result }
{
    let a = text::bytes(b"stopped ", out, at);
    let b = text::number(stop as u64, b' ', out, a);
    text::number(place as u64, b'\n', out, b)
}

// The number of a refusal; 0 of any other answer.
pub fn number_of(answer: Answer) -> u8
    ensures { result ≡ number_of answer }
{
    match answer {
        Answer::Refused(number, _) => number,
        _ => 0,
    }
}

// Its place; 0 of any other answer.
fn place_of(answer: Answer) -> usize
    ensures { result ≡ place_of answer }
{
    match answer {
        Answer::Refused(_, place) => place,
        _ => 0,
    }
}

// The whole output at the front of the buffer, if it has room for it and there are 256 counters; the place behind it is answered.
pub fn tally(count: &[u64], messages: u64, answer: Answer, out: &mut [u8]) -> usize
    ensures { Puts 5968 (printed_of count.now messages answer) out.old 0 out.new result }
{
    if out.len() < 5968 {
        return 0;
    }
    if count.len() != 256 {
        return 0;
    }
    let a = lines(count, out);
    let b = messages_line(messages, out, a);
    stopped_line(number_of(answer), place_of(answer), out, b)
}
