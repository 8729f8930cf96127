// The walk by length fields: its state and its answers, the frame rule, the held bytes, and when a step refuses. A frame is two length bytes, giving L,
// then L bytes. The step itself stands in the crate walking.
#![tactic(auto)]

ghost use Rattle.std.specs.Prelude.{◌≡◌, ◌==◌};
ghost use Rattle.std.specs.List.{list_all};
ghost use Rattle.reader.specs.Window.{window_of};
ghost use Rattle.walk.specs.Walk.{size_by, verdict_of, judge_of, zero_from, sound_of, countable, ready_of, put, fresh_of};

use format::{Fault, Reading, Refusal};
use reader::Window;
use records::Message;

// The state of a walk: offset of the current frame, its bytes so far, the first 52 of these and then zeros, and how many frames ended, and were
// accepted, before it. The reading is chosen at the start: no step changes it, so one walk has one edition.
#[derive(Clone, Copy)]
pub struct Walk {
    pub offset: u64,
    pub seen: usize,
    pub held: [u8; 52],
    pub frames: u64,
    pub accepted: u64,
    pub reading: Reading,
}

// The answer on one frame: its message, or number and place.
pub type Verdict = Result<Message, Refusal>;

// What a step answers: a frame that ended, with its offset, its size and the answer on it; the piece is used up; 30 or 33.
#[derive(Clone, Copy)]
pub enum Answer {
    Frame {
        offset: u64,
        size: usize,
        what: Verdict,
    },
    WantsMore,
    Refused(u8),
}

// What a step leaves: the state, how many bytes of the piece it used, and its answer.
#[derive(Clone, Copy)]
pub struct Stepped {
    pub state: Walk,
    pub used: usize,
    pub answer: Answer,
}

// The state before the first byte, of a walk by this reading: else all zero.
pub fn fresh(reading: Reading) -> Walk
    ensures { result ≡ fresh_of reading }
{
    Walk {
        offset: 0,
        seen: 0,
        held: [0u8; 52],
        frames: 0,
        accepted: 0,
        reading,
    }
}

// A frame's size by its two length bytes: 2 + L.
pub fn size_by(a: u8, b: u8) -> usize
    ensures { result ≡ size_by a b }
{
    usize::from(a) * 256 + usize::from(b) + 2
}

fn all_zero(s: &[u8]) -> bool
    ensures { result ≡ list_all (λ b. b == 0) s.now }
{
    s.iter().all(|b| *b == 0)
}

// Whether the held bytes from a place on are zero.
fn zero_from(held: &[u8; 52], from: usize) -> bool
    ensures { result ≡ zero_from held.now from }
{
    all_zero(&held[from.min(52)..])
}

// 30, turned round: whether steps can have led to this state.
#[tactic(auto, using(std::proofs::lemmas::Bool::Decides::nat_tests), unfolding(crate::specs::Walk::sound_of))]
pub fn sound(w: Walk) -> bool
    ensures { result ≡ sound_of w }
{
    w.seen < size_by(w.held[0], w.held[1])
        && w.frames <= w.offset / 2
        && w.accepted <= w.frames
        && zero_from(&w.held, w.seen)
}

// 33, turned round: whether the offset behind n bytes more is below 2^64.
#[tactic(auto, using(std::proofs::lemmas::Bool::Decides::nat_tests))]
pub fn room(offset: u64, seen: usize, n: usize) -> bool
    ensures { result ≡ countable offset seen n }
{
    let Some(here) = offset.checked_add(seen as u64) else {
        return false;
    };
    here.checked_add(n as u64).is_some()
}

// Whether a step over n bytes more refuses neither 30 nor 33. A block function of a layer above asks it once for a block, and then goes on by `size_by`, `judge` and `put_in`.
pub fn ready(w: Walk, n: usize) -> bool
    ensures { result ≡ ready_of w n }
{
    sound(w) && room(w.offset, w.seen, n)
}

// Puts the piece at the front of `free`, as far as there is room; the rest of it stays.
fn fill(free: &mut [u8], piece: &[u8])
    ensures { free.new ≡ put free.old 0 piece.now }
{
    let n = free.len().min(piece.len());
    free[..n].copy_from_slice(&piece[..n]);
}

// The held bytes with those of the piece put in from place `seen` on, as far as there is room.
pub fn put_in(mut held: [u8; 52], seen: usize, piece: &[u8]) -> [u8; 52]
    ensures { result ≡ put held seen piece.now }
{
    fill(&mut held[seen.min(52)..], piece);
    held
}

// A window's answer turned into a frame's: bytes left over are 21, incomplete is 20. Three outcomes become two, each its own way: so a match, and no `?`.
fn turned(win: Window, size: usize) -> Verdict
    ensures { result ≡ verdict_of win size }
{
    match win {
        Ok((m, used)) => {
            if used < size {
                Err(Refusal {
                    number: 21,
                    place: 0,
                })
            } else {
                Ok(m)
            }
        }
        Err(Fault::Short) => Err(Refusal {
            number: 20,
            place: 0,
        }),
        Err(Fault::Refused(r)) => Err(r),
    }
}

// The frame rule: the answer on a frame by a reading, from its size and its first bytes. No more than 52 are looked at, since 52 always have an answer.
pub fn judge(s: &[u8], size: usize, reading: Reading) -> Verdict
    ensures { result ≡ judge_of (window_of reading) s.now size }
{
    let n = size.min(52).min(s.len());
    turned(reader::parse_message(&s[..n], reading), size)
}
