// The leaves of the writer: big-endian numbers put into a buffer at a place, and whether a text is UTF-8. What the bytes are stands in
// specs/Encode.
//
// A place is a u8, so that `place + width` cannot wrap; where a number does not fit, nothing is put, so that no caller can break a
// leaf.
#![tactic(auto)]

ghost use Rattle.std.specs.Prelude.{◌≡◌, ◌+◌, ◌^◌, ◌<◌, ◌≤◌, length};
ghost use Rattle.std.proofs.lemmas.List.Edits.{sets};
ghost use Rattle.format.specs.Meaning.{IsWidth};
ghost use Rattle.format.specs.Utf8.{well_formed};
ghost use Rattle.pen.specs.Encode.{digits, put_in};

use format::{Letters, Number};

// The last two bytes of a number, in order. The wider ones are two narrower ones.
fn put2(buf: &mut [u8], at: usize, v: u64)
    requires { at + 2 ≤ length buf.old }
    ensures { buf.new ≡ sets buf.old at (digits 2 v) }
{
    buf[at] = (v / 256 % 256) as u8;
    buf[at + 1] = (v % 256) as u8;
}

// The last four bytes.
fn put4(buf: &mut [u8], at: usize, v: u64)
    requires { at + 4 ≤ length buf.old }
    ensures { buf.new ≡ sets buf.old at (digits 4 v) }
{
    put2(buf, at, v / 65536);
    put2(buf, at + 2, v);
}

// All eight.
fn put8(buf: &mut [u8], at: usize, v: u64)
    requires { at + 8 ≤ length buf.old }
    ensures { buf.new ≡ sets buf.old at (digits 8 v) }
{
    put4(buf, at, v / 4294967296);
    put4(buf, at + 4, v);
}

// The last w bytes. It is put into its caller before anything else is done with it, so that the width is known then, and the bytes go out in a straight line:
// by a call of itself for one byte fewer a record took some twenty times as long.
#[inline(always)]
fn put(buf: &mut [u8], at: usize, w: usize, v: u64)
    requires { (at + w ≤ length buf.old) × IsWidth w }
    ensures { buf.new ≡ sets buf.old at (digits w v) }
{
    match w {
        8 => put8(buf, at, v),
        4 => put4(buf, at, v),
        2 => put2(buf, at, v),
        _ => buf[at] = (v % 256) as u8,
    }
}

// Puts a number at a place, its highest byte first, where all of its bytes fit.
pub fn set<T: Number>(buf: &mut [u8], place: u8, v: T)
    ensures buf_after { buf.new ≡ put_in buf.old place (digits T.WIDTH (T.value v)) }
    ensures v_bound { T.value v < 256 ^ T.WIDTH }
{
    let at = place as usize;
    let n = v.wide();
    if at + T::WIDTH <= buf.len() {
        put(buf, at, T::WIDTH, n);
    }
}

// Puts the last six bytes of a number at a place, where all fit: the timestamp.
pub fn set_u48(buf: &mut [u8], place: u8, v: u64)
    ensures { buf.new ≡ put_in buf.old place (digits 6 v) }
{
    let at = place as usize;
    if at + 6 <= buf.len() {
        put2(buf, at, v / 4294967296);
        put4(buf, at + 2, v);
    }
}

// Whether a text is UTF-8: its bytes, read by the reader's leaf.
pub fn is_text<T: Letters>(v: T) -> bool
    ensures { result ≡ well_formed (digits T.WIDTH (T.value v)) }
{
    let mut b = [0u8; 8];
    set(&mut b, 0, v);
    format::text_at::<T>(&b, 0).is_ok()
}
