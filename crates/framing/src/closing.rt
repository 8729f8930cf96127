// The closing lines, put into a lent buffer: the tail and the totals.
ghost use Rattle.std.specs.Prelude.{◌+◌, ◌≤◌, length};
ghost use Rattle.text.specs.Decimal.{Wrote};
ghost use Rattle.lines.specs.Lines.{tail_of, total_of, closing_of};
ghost use Rattle.lines.specs.Blocks.{Sane};

use walk::Walk;

fn tail(offset: u64, left: usize, out: &mut [u8], at: usize) -> usize
    requires { at + 47 ≤ length out.old }
    ensures { Wrote (tail_of offset left) out.old at out.new result }
{
    let a = text::bytes(b"tail ", out, at);
    let b = text::number(offset, b' ', out, a);
    text::number(left as u64, b'\n', out, b)
}

fn total(frames: u64, accepted: u64, refused: u64, bytes: u64, out: &mut [u8], at: usize) -> usize
    requires { at + 90 ≤ length out.old }
    ensures { Wrote (total_of frames accepted refused bytes) out.old at out.new result }
{
    let a = text::bytes(b"total ", out, at);
    let b = text::number(frames, b' ', out, a);
    let c = text::number(accepted, b' ', out, b);
    let d = text::number(refused, b' ', out, c);
    text::number(bytes, b'\n', out, d)
}

// The tail and the totals of a state that a walk comes to, at the buffer's start: at most 137 bytes.
pub(super) fn closing(w: Walk, out: &mut [u8]) -> usize
    requires { Sane w × (137 ≤ length out.old) }
    ensures { Wrote (closing_of w.offset w.seen w.frames w.accepted) out.old 0 out.new result }
{
    let next = tail(w.offset, w.seen, out, 0);
    let refused = w.frames - w.accepted;
    let bytes = w.offset + w.seen as u64;
    total(w.frames, w.accepted, refused, bytes, out, next)
}
