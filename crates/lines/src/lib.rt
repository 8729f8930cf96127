// The lines of `frames`, put into a lent buffer: a line for each frame that ends in a block, or, where `quiet`, for each refused one alone.
#![tactic(auto)]

ghost use Rattle.std.specs.Prelude.{◌+◌, ◌-◌, ◌*◌, ◌^◌, ◌≤◌, ◌<◌, true, cond, [], ◌∷◌, ◌++◌, ◌≡◌, length};
ghost use Rattle.reader.specs.Window.{window_of};
ghost use Rattle.walk.specs.Walk.{ready_of, judge_of};
ghost use Rattle.plain.specs.Plain.{Table};
ghost use Rattle.text.specs.Decimal.{decimal_of, Wrote};
ghost use Rattle.lines.specs.Lines.{ok_text, accepted_of, refused_of};
ghost use Rattle.lines.specs.Blocks.{start_of, stops_of, Called};
ghost use Rattle.lines.specs.Whole.{look_of, Asked, Halts, Goes};

mod counts;
mod digits;

use counts::Counts;
use digits::Digits;
use format::{Reading, Refusal};
use walk::{Verdict, Walk};

// What stands between the offset and the size of an accepted frame.
fn ok_tag(tag: u8, out: &mut [u8], at: usize) -> usize
    requires { at + 6 ≤ length out.old }
    ensures { Wrote (ok_text ++ (tag ∷ 32 ∷ [])) out.old at out.new result }
{
    out[at] = b' ';
    out[at + 1] = b'o';
    out[at + 2] = b'k';
    out[at + 3] = b' ';
    out[at + 4] = tag;
    out[at + 5] = b' ';
    at + 6
}

// Behind the offset of an accepted frame, whose size has two digits.
fn accepted(tag: u8, size: usize, digits: &Digits, out: &mut [u8], at: usize) -> usize
    requires { (10 ≤ size) × (size < 100) × (at + 9 ≤ length out.old) }
    ensures { Wrote (accepted_of tag size) out.old at out.new result }
{
    let a = ok_tag(tag, out, at);
    let b = digits.two(size as u64, out, a);
    out[b] = b'\n';
    b + 1
}

// Behind the offset of a refused frame.
fn refused(r: Refusal, out: &mut [u8], at: usize) -> usize
    requires { at + 51 ≤ length out.old }
    ensures { Wrote (refused_of r.number r.place) out.old at out.new result }
{
    let a = text::bytes(b" refused ", out, at);
    let b = text::number(r.number as u64, b' ', out, a);
    text::number(r.place as u64, b'\n', out, b)
}

// The line of a refused frame at this offset. Its digits do not come from the table: `decimal` of that is compiled into the loop over accepted frames, which
// it would not be if it were called here too.
fn refused_line(n: u64, r: Refusal, out: &mut [u8], at: usize) -> usize
    requires { at + 71 ≤ length out.old }
    ensures { Wrote (decimal_of n ++ refused_of r.number r.place) out.old at out.new result }
{
    let a = text::decimal(n, out, at);
    refused(r, out, a)
}

// Why the lines of accepted frames stop: no further frame ends here; the buffer has no room for another line; the next frame, of this size, is refused.
#[derive(Clone, Copy)]
enum Halt {
    Cut,
    Full,
    Bad(Refusal, usize),
}

// Where that is, in the bytes walked and in the buffer, and how many frames were accepted.
#[derive(Clone, Copy)]
struct Halted {
    at: usize,
    to: usize,
    count: u64,
    why: Halt,
}

// The frame rule's answer, as a line tells it: accepted, with its tag; or refused.
fn look_of(what: Verdict) -> Result<u8, Refusal>
    ensures { result ≡ look_of what }
{
    what.map(|message| message.tag)
}

// How lines are put: by which reading, with its rows of plain messages; whether those of accepted frames are left out; and the table of digits. It is lent
// on from the function that walks a block.
#[derive(Drop)]
struct How {
    reading: Reading,
    rows: [u64; 256],
    quiet: bool,
    digits: Digits,
    ghost tabled: { Table reading.strict rows },
}

// Where the lines of all frames stop, with the counts behind them; and whether they stop for want of room.
#[derive(Clone, Copy)]
struct Gone {
    at: usize,
    to: usize,
    counts: Counts,
    full: bool,
}

// Why a call over a block came back: the block is used up; the buffer has no room for another line; a step refuses.
#[derive(Clone, Copy)]
pub enum Why {
    Used,
    Full,
    Stopped,
}

// What a call leaves: the state; the place in the block to go on from, and the place in the buffer behind the last line put; and why it came back.
#[derive(Clone, Copy)]
pub struct Blocked {
    pub state: Walk,
    pub from: usize,
    pub at: usize,
    pub why: Why,
}

impl How {
    // By this reading, quiet or not.
    fn new(quiet: bool, reading: Reading) -> Self
        ensures quiet_value { result.quiet ≡ quiet }
        ensures reading_value { result.reading ≡ reading }
    {
        How {
            reading,
            rows: plain::rows(reading.strict),
            quiet,
            digits: Digits::new(),
        }
    }

    // The frame rule's answer, from a frame's size and its first bytes. A plain message is accepted without a jump by its tag; by a strict reading's table none
    // is plain.
    fn looked(&self, s: &[u8], size: usize) -> Result<u8, Refusal>
        requires { 2 ≤ size }
        ensures { result ≡ look_of (judge_of (window_of self.now.reading) s.now size) }
    {
        if plain::plain(s, &self.rows) == size {
            return Ok(s[2]);
        }
        look_of(walk::judge(s, size, self.reading))
    }

    // The line of an accepted frame at this offset; where quiet, nothing.
    fn accepted_line(&self, n: u64, tag: u8, size: usize, out: &mut [u8], at: usize) -> usize
        requires { (10 ≤ size) × (size < 100) × (at + 29 ≤ length out.old) }
        ensures { Wrote (cond self.now.quiet [] (decimal_of n ++ accepted_of tag size)) out.old at out.new result }
    {
        if self.quiet {
            return at;
        }
        let a = self.digits.decimal(n, out, at);
        accepted(tag, size, &self.digits, out, a)
    }

    // A line, unless quiet, for each accepted frame of s, from place `from` on, that ends within the first `have` bytes, up to the first frame that is not so.
    // The loop is left at a refused frame, and nothing else judges frames: so the reader is compiled into it.
    fn told_accepted(
        &self,
        s: &[u8],
        have: usize,
        from: usize,
        offset: u64,
        out: &mut [u8],
        to: usize,
    ) -> Halted
        requires { Asked s.now have from offset (length out.old) to }
        ensures { Halts self.now.quiet (window_of self.now.reading) s.now have from offset out.old to out.new result }
    {
        let mut i = from;
        let mut o = to;
        let mut count = 0;
        let last = out.len() - 72;
        let why = loop {
            if have <= i {
                break Halt::Cut;
            }
            if last < o {
                break Halt::Full;
            }
            if s.len() <= i + 1 {
                break Halt::Cut;
            }
            let size = walk::size_by(s[i], s[i + 1]);
            if have - i < size {
                break Halt::Cut;
            }
            match self.looked(&s[i..], size) {
                Err(refusal) => break Halt::Bad(refusal, size),
                Ok(tag) => {
                    o = self.accepted_line(offset + (i - from) as u64, tag, size, out, o);
                    i += size;
                    count += 1;
                }
            }
        };
        Halted {
            at: i,
            to: o,
            count,
            why,
        }
    }

    // A line for each frame of s, from place `from` on, that ends within the first `have` bytes: the accepted ones, unless quiet, then a refused one, and so
    // on. s is these bytes, or the first 52 of them where they are one frame. The counts are taken apart for the loop: kept as they are, with what is known of them as a
    // ghost field, they were tried, and the loop's goals did not close.
    fn told_frames(
        &self,
        s: &[u8],
        have: usize,
        from: usize,
        out: &mut [u8],
        to: usize,
        begun: Counts,
    ) -> Gone
        requires { Asked s.now have from begun.offset (length out.old) to }
        ensures { Goes self.now.quiet (window_of self.now.reading) s.now have from begun.offset begun.frames begun.accepted out.old to out.new result }
    {
        let mut i = from;
        let mut o = to;
        let mut offset = begun.offset;
        let mut frames = begun.frames;
        let mut accepted = begun.accepted;
        loop {
            let h = self.told_accepted(s, have, i, offset, out, o);
            let past = offset + (h.at - i) as u64;
            let told = frames + h.count;
            let good = accepted + h.count;
            let full = match h.why {
                Halt::Cut => false,
                Halt::Full => true,
                Halt::Bad(refusal, size) => {
                    o = refused_line(past, refusal, out, h.to);
                    i = h.at + size;
                    offset = past + size as u64;
                    frames = told + 1;
                    accepted = good;
                    continue;
                }
            };
            return Gone {
                at: h.at,
                to: h.to,
                counts: Counts {
                    offset: past,
                    frames: told,
                    accepted: good,
                },
                full,
            };
        }
    }

    // Walks the block from place `from` on, where a frame begins. Neither a state nor held bytes are in the loop: frames that end in the block are judged where
    // they lie.
    fn from_start(
        &self,
        block: &[u8],
        from: usize,
        out: &mut [u8],
        at: usize,
        counts: Counts,
    ) -> Blocked
        requires { (from ≤ length block.now) × (at ≤ length out.old) × (72 ≤ length out.old) × (counts.offset + (length block.now - from) < 2 ^ 64) }
        ensures { Called self.now.quiet (window_of self.now.reading) (start_of counts.offset counts.frames counts.accepted self.now.reading) block.now from out.old at out.new result }
    {
        let g = self.told_frames(block, block.len(), from, out, at, counts);
        if g.full {
            return Blocked {
                state: g.counts.start(self.reading),
                from: g.at,
                at: g.to,
                why: Why::Full,
            };
        }
        let left = block.len() - g.at;
        Blocked {
            state: g.counts.cut(&block[g.at..], self.reading),
            from: g.at + left,
            at: g.to,
            why: Why::Used,
        }
    }

    // Ends, if the block has its last byte, the frame that the state is in; then the block from there on.
    fn from_inside(&self, w: Walk, block: &[u8], from: usize, out: &mut [u8], at: usize) -> Blocked
        requires { (from < length block.now) × (at + 72 ≤ length out.old) × (ready_of w (length block.now - from) ≡ true) × (self.now.reading ≡ w.reading) }
        ensures { Called self.now.quiet (window_of self.now.reading) w block.now from out.old at out.new result }
    {
        let held = walk::put_in(w.held, w.seen, &block[from..]);
        let size = walk::size_by(held[0], held[1]);
        let left = block.len() - from;
        let total = w.seen + left;
        if total < size {
            return Blocked {
                state: Walk {
                    seen: total,
                    held,
                    ..w
                },
                from: from + left,
                at,
                why: Why::Used,
            };
        }
        let g = self.told_frames(&held, size, 0, out, at, Counts::of(w));
        let used = size - w.seen;
        self.from_start(block, from + used, out, g.to, g.counts)
    }
}

// Walks the block from place `from` on, and puts a line at `at` and on for each frame that ends in it; where quiet, for each refused one alone. 30 and 33 are
// asked once, for all of it.
pub fn walk_block(
    w: Walk,
    block: &[u8],
    from: usize,
    out: &mut [u8],
    at: usize,
    quiet: bool,
) -> Blocked
    ensures { Called quiet (window_of w.reading) w block.now from out.old at out.new result }
{
    let stay = |why: Why| Blocked {
        state: w,
        from,
        at,
        why,
    };
    if block.len() <= from {
        return stay(Why::Used);
    }
    if out.len() <= at || out.len() - at < 72 {
        return stay(Why::Full);
    }
    if !walk::ready(w, block.len() - from) {
        return stay(Why::Stopped);
    }
    let how = How::new(quiet, w.reading);
    if w.seen == 0 {
        return how.from_start(block, from, out, at, Counts::of(w));
    }
    how.from_inside(w, block, from, out, at)
}

// Whether the walk refused the block.
pub fn stops(why: Why) -> bool
    ensures { result ≡ stops_of why }
{
    matches!(why, Why::Stopped)
}
