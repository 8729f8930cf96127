// What a step of the walk is to do with a piece, told before the frame's bytes are judged: to refuse, to take the whole piece into the current
// frame, or to end that frame. It is apart from the step (crate walking), so that its must-fail edits check neither the step nor the reader's code.
#![tactic(auto)]

ghost use Rattle.std.specs.Prelude.{◌≡◌, ◌<◌, length, get_or};
ghost use Rattle.walk.specs.Walk.{frame_size, put};
ghost use Rattle.plan.specs.Plan.{plan_of, PlanHolds};

use walk::Walk;

// Refuse, with the number; take the whole piece; end the frame, which has this size, after so many bytes of the piece.
#[derive(Clone, Copy)]
pub enum Plan {
    Refuse(u8),
    Take,
    End { used: usize, size: usize },
}

// The byte at a place of what `put_in` gives, found without putting.
fn byte_at(w: &Walk, piece: &[u8], i: usize) -> u8
    requires { i < 52 }
    ensures { result ≡ get_or (put w.now.held w.now.seen piece.now) i 0 }
{
    match i.checked_sub(w.seen) {
        Some(k) if k < piece.len() => piece[k],
        _ => w.held[i],
    }
}

// The size of the current frame: its length bytes are held, or the piece brings them.
fn size_at(w: &Walk, piece: &[u8]) -> usize
    ensures { result ≡ frame_size (put w.now.held w.now.seen piece.now) }
{
    let a = byte_at(w, piece, 0);
    let b = byte_at(w, piece, 1);
    walk::size_by(a, b)
}

// The plan of a step over the piece, and what is then known of the state. 30 comes before 33.
pub fn plan_step(w: Walk, piece: &[u8]) -> Plan
    ensures value { result ≡ plan_of w piece.now }
    ensures plan_holds { PlanHolds result w (length piece.now) }
{
    if !walk::sound(w) {
        return Plan::Refuse(30);
    }
    if !walk::room(w.offset, w.seen, piece.len()) {
        return Plan::Refuse(33);
    }
    let size = size_at(&w, piece);
    let total = w.seen + piece.len();
    if size <= total {
        return Plan::End {
            used: size - w.seen,
            size,
        };
    }
    Plan::Take
}
