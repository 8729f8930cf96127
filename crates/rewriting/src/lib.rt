// Reads a recording from standard input, by the reading that the words ask for, writes every message back by the same one and compares: a line for each,
// its tag and `same` or `other`; then how many there were, how many were the same, and how many bytes were read of a message that is none: cut short, or
// refused. There it stops, and says on standard error where in the recording that message begins. Bytes are taken one by one: each prefix of a message but
// itself is incomplete, so the window is always one message. A read or a write that fails ends the program, with a word on standard error.
#![tactic(auto)]

ghost use Rattle.std.specs.Prelude.{◌≡◌, true, ◌≤◌, eqb, take, Ok};
ghost use Rattle.format.specs.Layout.{be, part};
ghost use Rattle.format.specs.Rows.{size_of, window};
ghost use Rattle.reader.specs.Window.{window_m};
ghost use Rattle.words.specs.Words.{reading_of};

use format::{Fault, Reading};
use records::Message;
use standard::Brought;
use std::io::{Stderr, Stdin, Stdout};
use std::rt::{Env, Files};
use words::Words;

// Why it stops: the number, 0 for the recording's end; and whether no write failed.
#[derive(Clone, Copy)]
struct Stop {
    number: u8,
    written: bool,
}

impl Stop {
    // It stops with a number, and no write failed.
    fn by(number: u8) -> Stop {
        Stop {
            number,
            written: true,
        }
    }
}

// Whether the first n bytes are the same.
fn compared(a: [u8; 52], b: [u8; 52], n: usize) -> bool
    requires { n ≤ 52 }
    ensures { (result ≡ true → take n a ≡ take n b) × (take n a ≡ take n b → result ≡ true) }
{
    a[..n] == b[..n]
}

// Whether a message that was read from the first n bytes, by a reading, is written by it as these bytes: it is exactly where its length field is its size.
fn rewritten(m: Message, bytes: [u8; 52], n: usize, reading: Reading) -> bool
    requires { window_m (Ok (m, n)) ≡ window reading bytes }
    ensures { result ≡ eqb (be (part bytes 0 2)) (size_of m.tag) }
{
    let mut out = [0u8; 52];
    let Ok(k) = writer::write(m, &mut out, reading) else {
        return false;
    };
    if k != n {
        return false;
    }
    compared(bytes, out, n)
}

// A message's line; whether it could be written.
fn line(output: Stdout, tag: u8, same: bool) -> bool {
    if same {
        standard::print(output, &[tag, b' ', b's', b'a', b'm', b'e', b'\n'])
    } else {
        standard::print(output, &[tag, b' ', b'o', b't', b'h', b'e', b'r', b'\n'])
    }
}

// A number in decimal; whether it could be written.
fn number(output: Stdout, n: u64) -> bool {
    let mut text = [0u8; 20];
    let k = text::decimal(n, &mut text, 0);
    standard::print(output, &text[..k])
}

// A run: how it reads and writes, from the start to the end; the window and how many bytes of it are there; where in the recording it begins; how many
// messages there were, and how many the same.
#[derive(Drop)]
struct Run {
    output: Stdout,
    reading: Reading,
    window: [u8; 52],
    have: usize,
    offset: u64,
    messages: u64,
    same: u64,
}

impl Run {
    // It begins by the reading that the words ask for.
    fn fresh(output: Stdout, words: Words) -> Run
        ensures { result.reading ≡ reading_of words }
    {
        Run {
            output,
            reading: Reading::from(words),
            window: [0; 52],
            have: 0,
            offset: 0,
            messages: 0,
            same: 0,
        }
    }

    // A message of n bytes is written back, compared and counted, and the window is empty again. No more than 2^64 - 1 of them are counted.
    fn count(&mut self, m: Message, n: usize) -> Result<(), Stop>
        requires { window_m (Ok (m, n)) ≡ window self.old.reading self.old.window }
        ensures { self.new.reading ≡ self.old.reading }
    {
        let tag = m.tag;
        let same = rewritten(m, self.window, n, self.reading);
        let written = line(self.output, tag, same);
        self.have = 0;
        if self.messages == u64::MAX {
            return Err(Stop {
                number: 33,
                written,
            });
        }
        self.messages += 1;
        self.offset = self.offset.saturating_add(n as u64);
        if same {
            self.same = self.same.saturating_add(1);
        }
        if written {
            Ok(())
        } else {
            Err(Stop { number: 0, written })
        }
    }

    // One byte more.
    fn feed(&mut self, b: u8) -> Result<(), Stop>
        ensures { self.new.reading ≡ self.old.reading }
    {
        if self.have >= self.window.len() {
            return Err(Stop::by(10));
        }
        self.window[self.have] = b;
        self.have += 1;
        match reader::parse_message(&self.window[..self.have], self.reading) {
            Ok((m, n)) => self.count(m, n),
            Err(Fault::Short) => Ok(()),
            Err(Fault::Refused(r)) => Err(Stop::by(r.number)),
        }
    }

    // One read. The input ends at a message's end, or inside one.
    fn one_read(&mut self, input: Stdin) -> Result<(), Stop>
        ensures { self.new.reading ≡ self.old.reading }
    {
        let mut buf = [0u8; 4096];
        let b = standard::read(input, Brought::unread(), &mut buf);
        match b.last() {
            Err(_) => Err(Stop::by(11)),
            Ok(0) => Err(Stop::by(if self.have > 0 { 10 } else { 0 })),
            Ok(n) => {
                for x in &buf[..n] {
                    self.feed(*x)?;
                }
                Ok(())
            }
        }
    }

    // All reads: until it stops, or after 2^64 - 1 of them.
    fn all_reads(&mut self, input: Stdin) -> Stop
        ensures { self.new.reading ≡ self.old.reading }
    {
        for _ in 0..u64::MAX {
            if let Err(stopped) = self.one_read(input) {
                return stopped;
            }
        }
        Stop::by(0)
    }

    // The last line; whether it could be written.
    fn totals(&self) -> bool {
        standard::print(self.output, b"messages ")
            && number(self.output, self.messages)
            && standard::print(self.output, b" same ")
            && number(self.output, self.same)
            && standard::print(self.output, b" left ")
            && number(self.output, self.have as u64)
            && standard::print(self.output, b"\n")
    }
}

// The program `rewrite`: what the words ask for, and nothing where they are none.
pub fn start(rt: &(impl Env + Files), input: Stdin, output: Stdout, error: Stderr) {
    let w = words::asked(rt, false);
    if !w.known {
        words::misuse(
            rt,
            error,
            w,
            b"rewrite: its words are later, strict and status\n",
        );
        return;
    }
    let mut run = Run::fresh(output, w);
    let end = run.all_reads(input);
    let taken = end.written && run.totals();
    words::finish(
        rt,
        error,
        w,
        b"rewrite",
        words::stop_by(end.number),
        run.offset,
        taken,
    );
}
