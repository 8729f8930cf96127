// The words that a program is started with, and the byte by which it says how its run went. A Rattle program has no exit status: started by hand it says
// all on standard output and standard error. Started with the word `status` it also says one byte on descriptor 3, as its last act, and who started
// it makes a status of that.
#![tactic(auto)]

ghost use Rattle.std.specs.Prelude.{◌≡◌};
ghost use Rattle.words.specs.Words.{word_of, with_of, reading_of, byte_of, stop_by, ending_by};

use format::{Edition, Reading};
use std::env::FillError;
use std::fs::OpenOptions;
use std::io::{Stderr, Write};
use std::rt::{Env, Files};

// What one word asks for: `quiet`, lines for what is refused only; `later`, the later edition; `strict`, the strict reading; `status`, the byte at the
// end.
#[derive(Clone, Copy, PartialEq, Eq)]
pub enum Word {
    Quiet,
    Later,
    Strict,
    Status,
}

// What all words ask for, and whether each is one that the program has, and none is there twice.
#[derive(Clone, Copy, PartialEq, Eq)]
pub struct Words {
    pub quiet: bool,
    pub later: bool,
    pub strict: bool,
    pub status: bool,
    pub known: bool,
}

// How a run went: all was accepted; something was refused, or bytes are left over; the words are none, so there was no run; a read or a write failed.
#[derive(Clone, Copy, PartialEq, Eq)]
pub enum Ending {
    Clean,
    Found,
    Misused,
    Failed,
}

// The byte of an ending: `0`, `1`, `2` or `3`.
impl From<Ending> for u8 {
    ghost from_gives = { λ o b. b ≡ byte_of o };

    fn from(o: Ending) -> u8 {
        match o {
            Ending::Clean => b'0',
            Ending::Found => b'1',
            Ending::Misused => b'2',
            Ending::Failed => b'3',
        }
    }
}

// How the words ask to read: by the old edition, or by the later one where `later` is among them; strictly where `strict` is.
impl From<Words> for Reading {
    ghost from_gives = { λ w r. r ≡ reading_of w };

    fn from(w: Words) -> Reading {
        Reading {
            edition: if w.later {
                Edition::Later
            } else {
                Edition::Old
            },
            strict: w.strict,
        }
    }
}

// Which word these bytes are, where they are one.
pub fn word_of(s: &[u8]) -> Option<Word>
    ensures { result ≡ word_of s.now }
{
    match s {
        b"quiet" => Some(Word::Quiet),
        b"later" => Some(Word::Later),
        b"strict" => Some(Word::Strict),
        b"status" => Some(Word::Status),
        _ => None,
    }
}

// One word more, or what is none. `quiet` is known to a program that has it; no word is known a second time.
pub fn with(w: Words, word: Option<Word>, has: bool) -> Words
    ensures { result ≡ with_of w word has }
{
    match word {
        Some(Word::Quiet) if has => Words {
            quiet: true,
            known: w.known && !w.quiet,
            ..w
        },
        Some(Word::Later) => Words {
            later: true,
            known: w.known && !w.later,
            ..w
        },
        Some(Word::Strict) => Words {
            strict: true,
            known: w.known && !w.strict,
            ..w
        },
        Some(Word::Status) => Words {
            status: true,
            known: w.known && !w.status,
            ..w
        },
        _ => Words { known: false, ..w },
    }
}

// The words that this program was started with. One that is longer than any word is none.
pub fn asked(rt: &impl Env, has: bool) -> Words {
    let mut w = Words {
        quiet: false,
        later: false,
        strict: false,
        status: false,
        known: true,
    };
    for i in 1..usize::MAX {
        let mut buf = [0u8; 16];
        let word = match rt.arg(i, &mut buf) {
            Ok(n) => word_of(&buf[..n]),
            Err(FillError::TooLong) => None,
            Err(FillError::NotPresent) => return w,
        };
        w = with(w, word, has);
    }
    w
}

// One byte on descriptor 3, which the system has as a file of this name. Where that is none, or takes no byte, nothing is said.
fn signal(rt: &impl Files, byte: u8) {
    let mut how = OpenOptions::new();
    how.append(true);
    if let Ok(mut file) = how.open(rt, "/dev/fd/3") {
        let _ = file.write_all(&[byte]);
    }
}

// The last act of a program that was asked for it: the ending's byte on descriptor 3.
pub fn say(rt: &impl Files, w: Words, o: Ending) {
    if w.status {
        signal(rt, u8::from(o));
    }
}

// For words that the program has not: a line on standard error, and the byte.
pub fn misuse(rt: &impl Files, error: Stderr, w: Words, line: &[u8]) {
    let _ = error.write_all(line);
    say(rt, w, Ending::Misused);
}

// The number that a run of the stream stopped with, where 0 is its clean end.
pub fn stop_by(number: u8) -> Option<u8>
    ensures { result ≡ stop_by number }
{
    (number != 0).then_some(number)
}

// How a run of the stream went, by the number that it stopped with, none at its clean end, and by whether all writes were taken.
pub fn ending_by(number: Option<u8>, taken: bool) -> Ending
    ensures { result ≡ ending_by number taken }
{
    match number {
        _ if !taken => Ending::Failed,
        None => Ending::Clean,
        Some(11) => Ending::Failed,
        Some(_) => Ending::Found,
    }
}

// On standard error, where in the recording a run of the stream stopped, unless that is its clean end, and whether a write failed.
pub fn stopped(error: Stderr, name: &[u8], number: Option<u8>, offset: u64, taken: bool) {
    if let Some(number) = number {
        let _ = error.write_all(name);
        let _ = error.println(format_args!(
            ": stopped with {number} at the message that begins at byte {offset}"
        ));
    }
    if !taken {
        let _ = error.write_all(name);
        let _ = error.println(": a write failed");
    }
}

// The end of a program that runs the stream: what `stopped` says, and the byte.
pub fn finish(
    rt: &impl Files,
    error: Stderr,
    w: Words,
    name: &[u8],
    number: Option<u8>,
    offset: u64,
    taken: bool,
) {
    stopped(error, name, number, offset, taken);
    say(rt, w, ending_by(number, taken));
}
