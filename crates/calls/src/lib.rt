// Plays a list of single calls, which stands on standard input, and prints a line for each: what it answered, which its program says, and the sum of A.
// oracle/calls makes the lists, and says their form and the lines.
#![tactic(auto)]

ghost use Rattle.std.specs.Prelude.{◌≡◌, ◌+◌, ◌*◌, ◌≤◌, [], length};
ghost use Rattle.text.specs.Decimal.{Puts};
ghost use Rattle.templates.specs.Templates.{filled_of};
ghost use Rattle.call_list.specs.Calls.{spaced_of};

use std::io::{Stderr, Stdin, Stdout};

// ---- the line

// A line on its way: what it is made of so far, and where the next goes. What there is no room for is not put.
#[derive(Drop)]
pub struct Line {
    bytes: [u8; 4096],
    at: usize,
}

impl Line {
    fn fresh() -> Line {
        Line {
            bytes: [0; 4096],
            at: 0,
        }
    }

    // Puts a template's text with values.
    pub fn put(&mut self, template: &[u8], v: &[u64])
        ensures { Puts (length template.now + 32 * length v.now) (filled_of template.now v.now)
            self.old.bytes self.old.at self.new.bytes self.new.at }
    {
        self.at = templates::put(template, 0, v, &mut self.bytes, self.at);
    }

    // Puts a template that has no places for values.
    pub fn word(&mut self, template: &[u8])
        ensures { Puts (length template.now) (filled_of template.now []) self.old.bytes self.old.at self.new.bytes self.new.at }
    {
        self.put(template, &[]);
    }

    // Puts numbers in decimal, each behind a space.
    pub fn numbers(&mut self, v: &[u64])
        ensures { Puts (21 * length v.now) (spaced_of v.now) self.old.bytes self.old.at self.new.bytes self.new.at }
    {
        self.at = call_list::numbers(v, &mut self.bytes, self.at);
    }
}

// ---- the calls

// A list that is none, or a write that was not taken.
#[derive(Clone, Copy)]
pub struct Broken;

// A program's way to make the calls of a list.
pub trait Calls {
    // Makes the call that the numbers say, over the bytes of A and B, and puts what it answered. It is an error where no call has this number.
    fn make(&self, v: [u64; 17], a: &mut [u8], b: &[u8], line: &mut Line) -> Result<(), Broken>;
}

// A call and its whole line.
fn one_call(
    calls: &impl Calls,
    output: Stdout,
    v: [u64; 17],
    a: &mut [u8],
    b: &[u8],
) -> Result<(), Broken> {
    let mut line = Line::fresh();
    calls.make(v, a, b, &mut line)?;
    line.put(b" sum {n}\n{.", &[call_list::sum(a)]);
    if standard::print(output, call_list::first(&line.bytes, line.at)) {
        Ok(())
    } else {
        Err(Broken)
    }
}

fn room() -> [u8; 70000]
    ensures { 70000 ≡ length result }
{
    [0; 70000]
}

// The call at a place and its line; the place behind it.
fn turn(calls: &impl Calls, output: Stdout, list: &[u8], at: usize) -> Result<usize, Broken> {
    let mut a = room();
    let mut b = room();
    let c = call_list::call_at(list, at, &mut a, &mut b);
    one_call(
        calls,
        output,
        c.v,
        &mut a[..c.na],
        call_list::first(&b, c.nb),
    )?;
    Ok(c.next)
}

// All calls of the list, each in all the ways, one after the other.
fn turns<C: Calls>(ways: &[C], output: Stdout, list: &[u8]) -> Result<(), Broken> {
    let mut at = 0;
    while at < list.len() {
        let mut next = at;
        for calls in ways {
            next = turn(calls, output, list, at)?;
        }
        if next <= at {
            return Err(Broken);
        }
        at = next;
    }
    Ok(())
}

fn list_room() -> [u8; 131072]
    ensures { 131072 ≡ length result }
{
    [0; 131072]
}

// The program of this name: plays the list in these ways. A list that is none, or a write that fails, ends it, with a word on standard error.
pub fn play<C: Calls>(name: &str, ways: &[C], input: Stdin, output: Stdout, error: Stderr) {
    let mut list = list_room();
    let n = standard::read_full(input, &mut list);
    if turns(ways, output, call_list::first(&list, n)).is_err() {
        let _ = error.print(name);
        let _ = error.println(": a list that is none, or a write that failed");
    }
}
