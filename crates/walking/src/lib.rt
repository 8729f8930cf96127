// One step of the walk over a piece of a recording, from a state to the next. What it comes to is `own_step` (crates/walk/specs/Walk.antt).
//
// Arithmetic and tests stand in functions over numbers and states: a function that answers a frame's message is costly to check at each line.
#![tactic(auto)]

ghost use Rattle.std.specs.Prelude.{◌≡◌, ◌+◌, ◌*◌, ◌^◌, ◌≤◌, ◌<◌, length};
ghost use Rattle.reader.specs.Window.{window_of};
ghost use Rattle.walk.specs.Walk.{Verdict, judge_of, count_of, Ready, put, past_of, done_of, more_of, refused_of, own_step};

use plan::Plan;
use walk::{Answer, Stepped, Verdict, Walk};

fn count(v: Verdict) -> u64
    ensures { result ≡ count_of v }
{
    u64::from(v.is_ok())
}

// The state past a frame of this size; n is what the frame adds to the accepted ones.
fn past(w: Walk, size: usize, n: u64) -> Walk
    requires size_bound { w.offset + size < 2 ^ 64 }
    requires frames_bound { 2 * w.frames ≤ w.offset }
    requires accepted_le_frames { w.accepted ≤ w.frames }
    requires n_bound { n ≤ 1 }
    ensures { (v : Verdict) → n ≡ count_of v → result ≡ past_of w size v }
{
    Walk {
        offset: w.offset + size as u64,
        seen: 0,
        held: [0u8; 52],
        frames: w.frames + 1,
        accepted: w.accepted + n,
        ..w
    }
}

// A frame that lies whole in the piece is judged there; one that was cut, by way of the held bytes. There is one call of `judge` for both, since a
// function that is called from one place is compiled into its caller.
fn judge_joined(w: Walk, piece: &[u8], size: usize) -> Verdict
    requires { size ≤ w.seen + length piece.now }
    ensures { result ≡ judge_of (window_of w.reading) (put w.held w.seen piece.now) size }
{
    let mut held = w.held;
    let frame: &[u8] = if w.seen == 0 {
        piece
    } else {
        held = walk::put_in(held, w.seen, piece);
        &held
    };
    walk::judge(frame, size, w.reading)
}

// The state past a frame that ends, and its answer.
fn done(w: Walk, piece: &[u8], used: usize, size: usize) -> Stepped
    requires ready { Ready w (length piece.now) }
    requires size_bound { size ≤ w.seen + length piece.now }
    ensures { result ≡ done_of w used size (judge_of (window_of w.reading) (put w.held w.seen piece.now) size) }
{
    let v = judge_joined(w, piece, size);
    Stepped {
        state: past(w, size, count(v)),
        used,
        answer: Answer::Frame {
            offset: w.offset,
            size,
            what: v,
        },
    }
}

// The whole piece taken into the current frame.
fn wants_more(w: Walk, piece: &[u8]) -> Stepped
    requires { Ready w (length piece.now) }
    ensures { result ≡ more_of w (put w.held w.seen piece.now) (length piece.now) }
{
    Stepped {
        state: Walk {
            seen: w.seen + piece.len(),
            held: walk::put_in(w.held, w.seen, piece),
            ..w
        },
        used: piece.len(),
        answer: Answer::WantsMore,
    }
}

fn refused(w: Walk, number: u8) -> Stepped
    ensures { result ≡ refused_of w number }
{
    Stepped {
        state: w,
        used: 0,
        answer: Answer::Refused(number),
    }
}

// By the state's reading: uses bytes up to the first frame end and answers that frame, or uses the whole piece and wants more. 30 comes before 33.
pub fn step(w: Walk, piece: &[u8]) -> Stepped
    ensures { result ≡ own_step w piece.now }
{
    match plan::plan_step(w, piece) {
        Plan::Refuse(number) => refused(w, number),
        Plan::Take => wants_more(w, piece),
        Plan::End { used, size } => done(w, piece, used, size),
    }
}
