// Texts read strictly: where one strays from the bytes 20 to 7e. The reader asks it of a strict reading alone, once a message, behind the body's
// answer: so no body and no leaf knows of it.
#![tactic(auto)]

ghost use Rattle.std.specs.Prelude.{◌≡◌, cond, ◌&&◌, ◌+◌, ◌≤◌, min, leb, eqb, length};
ghost use Rattle.format.specs.Layout.{part, outside, strays, first_stray};
ghost use Rattle.format.specs.Strict.{stray_of};

// Whether a byte is outside 20 to 7e.
fn is_outside(b: u8) -> bool
    ensures { result ≡ outside b }
{
    b < 0x20 || b > 0x7e
}

// The place of the first such byte in the text of w bytes at a place, if that ends no later than the limit; zero where there is none.
fn in_text(s: &[u8], at: usize, w: usize, limit: usize) -> usize
    requires { (at + w ≤ 52) × (limit ≤ length s.now) }
    ensures { result ≡ cond (strays (part s.now at w) && leb (at + w) limit) (at + first_stray (part s.now at w)) 0 }
{
    let end = at + w;
    if limit < end {
        return 0;
    }
    for i in at..end {
        if is_outside(s[i]) {
            return i;
        }
    }
    0
}

// The first of two places, unless it is zero.
fn either(p: usize, q: usize) -> usize
    ensures { result ≡ cond (eqb p 0) q p }
{
    if p == 0 { q } else { p }
}

// The place of the first byte outside 20 to 7e in a text of the tag's message that is all there and ends no later than the limit; zero where there is
// none, and no Option, since the definition `stray_of` says it so. K, O and h have an arm of their own, for neighbours in one arm, as J and K, become a range there.
pub fn stray(s: &[u8], tag: u8, limit: usize) -> usize
    ensures { result ≡ stray_of tag s.now (min limit (length s.now)) }
{
    let n = limit.min(s.len());
    match tag {
        b'A' | b'P' => in_text(s, 26, 8, n),
        b'F' => either(in_text(s, 26, 8, n), in_text(s, 38, 4, n)),
        b'H' => either(in_text(s, 13, 8, n), in_text(s, 23, 4, n)),
        b'I' => in_text(s, 30, 8, n),
        b'L' => either(in_text(s, 13, 4, n), in_text(s, 17, 8, n)),
        b'Q' => in_text(s, 21, 8, n),
        b'J' | b'N' | b'R' | b'Y' => in_text(s, 13, 8, n),
        b'K' | b'O' | b'h' => in_text(s, 13, 8, n),
        _ => 0,
    }
}
