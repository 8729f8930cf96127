// The two calls, made from a call's numbers and bytes, and what they answer as text, put into the line. The words and the numbers are the scope's.
use calls::Line;
use format::Fault;
use records::Message;
use walk::{Stepped, Verdict, Walk};

// A message, by its 19 numbers.
fn message(m: Message, line: &mut Line) {
    line.word(b" message{.");
    line.numbers(&flat::message(m));
}

fn used(n: usize, line: &mut Line) {
    line.put(b" used {n}{.", &[n as u64]);
}

fn refused(number: u8, line: &mut Line) {
    line.put(b" refused {n}{.", &[u64::from(number)]);
}

// A window is read.
pub fn window(v: [u64; 17], a: &[u8], line: &mut Line) {
    line.word(b"window{.");
    match reader::parse_message(a, call_list::reading(v[0])) {
        Ok((m, n)) => {
            message(m, line);
            used(n, line);
        }
        Err(Fault::Short) => line.word(b" incomplete{."),
        Err(Fault::Refused(r)) => {
            refused(r.number, line);
            line.numbers(&[r.place as u64]);
        }
    }
}

// What a step of the walk answered.

fn verdict(what: Verdict, line: &mut Line) {
    match what {
        Ok(m) => message(m, line),
        Err(r) => line.put(b" bad {n} {n}{.", &[u64::from(r.number), r.place as u64]),
    }
}

fn ended(answer: walk::Answer, line: &mut Line) {
    match answer {
        walk::Answer::Frame { offset, size, what } => {
            line.put(b" frame {n} {n}{.", &[offset, size as u64]);
            verdict(what, line);
        }
        walk::Answer::WantsMore => line.word(b" more{."),
        walk::Answer::Refused(number) => refused(number, line),
    }
}

// A walk's state, of the held bytes their sum.
fn state(s: Walk, line: &mut Line) {
    line.word(b" state{.");
    line.numbers(&[
        s.offset,
        s.seen as u64,
        s.frames,
        s.accepted,
        call_list::sum(&s.held),
    ]);
}

// The first 52 bytes.
fn held_of(b: &[u8]) -> [u8; 52] {
    let mut held = [0; 52];
    for (x, y) in held.iter_mut().zip(b) {
        *x = *y;
    }
    held
}

// A step of the walk, from the state that a call's numbers and B say, over A.
fn stepped(v: [u64; 17], a: &[u8], b: &[u8]) -> Stepped {
    let [number, offset, seen, frames, accepted, ..] = v;
    let w = Walk {
        offset,
        seen: seen as usize,
        held: held_of(b),
        frames,
        accepted,
        reading: call_list::reading(number),
    };
    walking::step(w, a)
}

// The step, and the answer, the bytes used and the state behind it.
pub fn step(v: [u64; 17], a: &[u8], b: &[u8], line: &mut Line) {
    line.word(b"step{.");
    let r = stepped(v, a, b);
    ended(r.answer, line);
    used(r.used, line);
    state(r.state, line);
}
