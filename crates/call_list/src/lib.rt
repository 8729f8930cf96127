// Lists of single calls, and what every line on a call is made of: the sum of lent bytes, and numbers in decimal. What a list is, and what a call on it
// asks for, is defined in specs/Calls.antt.
#![tactic(auto)]

ghost use Rattle.std.specs.Prelude.{◌+◌, ◌*◌, ◌%◌, ◌≤◌, ◌∷◌, ◌++◌, ◌≡◌, length, take, drop};
ghost use Rattle.format.specs.Layout.{field, num};
ghost use Rattle.text.specs.Decimal.{decimal_of, Wrote, Puts};
ghost use Rattle.call_list.specs.Calls.{value_in, asks_of, fill_of, byte_at, made_of, bytes_a, bytes_b, asked_of, reading_for, weight_of, spaced_of};

use format::{Edition, Reading};

// ---- the list

// The first n bytes, or all that there are.
pub fn first(s: &[u8], n: usize) -> &[u8]
    ensures { result.now ≡ take n s.now }
{
    &s[..n.min(s.len())]
}

// What stands behind them.
fn rest(s: &[u8], n: usize) -> &[u8]
    ensures { result.now ≡ drop n s.now }
{
    &s[n.min(s.len())..]
}

// The number at a place, 0 where not all of its bytes are there.
fn number(t: &[u8], place: u8) -> u64
    ensures { result ≡ value_in (field (num 8) t.now place) }
{
    format::number_at(t, place).unwrap_or(0)
}

// The numbers of the call that t begins with.
fn asks(t: &[u8]) -> [u64; 17]
    ensures { result ≡ asks_of t.now 17 }
{
    let mut v = [0; 17];
    for (k, x) in v.iter_mut().enumerate() {
        *x = number(t, (8 * k) as u8);
    }
    v
}

// The fill's byte at a place.
fn fill_byte(fill: u64, i: usize) -> u8
    ensures { result ≡ fill_of fill i }
{
    if fill == 0 {
        return 0;
    }
    (((i % 251) as u64 + fill % 256) % 256) as u8
}

// The byte at a place: an explicit one, or the fill's.
fn byte(fill: u64, place: usize, explicit: &[u8], i: usize) -> u8
    ensures { result ≡ byte_at fill place explicit.now i }
{
    if i < place {
        return fill_byte(fill, i);
    }
    match explicit.get(i - place) {
        Some(b) => *b,
        None => fill_byte(fill, i),
    }
}

// Makes the bytes of a room.
fn make(fill: u64, place: usize, explicit: &[u8], room: &mut [u8])
    ensures { room.new ≡ made_of fill place explicit.now (length room.old) }
{
    for (i, x) in room.iter_mut().enumerate() {
        *x = byte(fill, place, explicit, i);
    }
}

// What a call asks for: its numbers, how many bytes A and B have, and the place behind it.
#[derive(Clone, Copy)]
pub struct Asked {
    pub v: [u64; 17],
    pub na: usize,
    pub nb: usize,
    pub next: usize,
}

// The call at a place of a list. A and B are made in two rooms, and cut to them; what a room has behind them stays. Behind the list's end numbers are 0,
// and no explicit bytes are put.
pub fn call_at(list: &[u8], at: usize, a: &mut [u8], b: &mut [u8]) -> Asked
    ensures value { result ≡ asked_of list.now at (length a.old) (length b.old) }
    ensures a_after { a.new ≡ bytes_a (drop at list.now) result.na ++ drop result.na a.old }
    ensures b_after { b.new ≡ bytes_b (drop at list.now) result.nb ++ drop result.nb b.old }
{
    let t = rest(list, at);
    let v = asks(t);
    let [
        ..,
        len_a,
        fill_a,
        place_a,
        count_a,
        len_b,
        fill_b,
        place_b,
        count_b,
    ] = v;
    let from_a = rest(t, 136);
    let from_b = rest(from_a, count_a as usize);
    let from_next = rest(from_b, count_b as usize);
    let na = a.len().min(len_a as usize);
    let nb = b.len().min(len_b as usize);
    make(
        fill_a,
        place_a as usize,
        first(from_a, count_a as usize),
        &mut a[..na],
    );
    make(
        fill_b,
        place_b as usize,
        first(from_b, count_b as usize),
        &mut b[..nb],
    );
    Asked {
        v,
        na,
        nb,
        next: list.len() - from_next.len(),
    }
}

// Which call the first number of a call says: those that are made by the later edition have 100 more, and those by a strict reading 200 more.
pub fn which(n: u64) -> u64
    ensures { result ≡ n % 100 }
{
    n % 100
}

// By which reading it is made.
pub fn reading(n: u64) -> Reading
    ensures { result ≡ reading_for n }
{
    Reading {
        edition: if n / 100 % 2 == 0 {
            Edition::Old
        } else {
            Edition::Later
        },
        strict: n >= 200,
    }
}

// ---- the line

// The sum of bytes, mod 2^32: each counts, one more than it is, as often as there are bytes from it on.
pub fn sum(b: &[u8]) -> u64
    ensures { result ≡ weight_of b.now % 4294967296 }
{
    let mut once = 0u32;
    let mut all = 0u32;
    for x in b {
        once = once.wrapping_add(u32::from(*x) + 1);
        all = all.wrapping_add(once);
    }
    u64::from(all)
}

// A number behind a space.
fn spaced(n: u64, out: &mut [u8], at: usize) -> usize
    requires { at + 21 ≤ length out.old }
    ensures wrote { Wrote (32 ∷ decimal_of n) out.old at out.new result }
    ensures upper_bound { result ≤ at + 21 }
{
    let next = text::byte(b' ', out, at);
    text::decimal(n, out, next)
}

// Numbers, each behind a space.
fn all_spaced(v: &[u64], out: &mut [u8], at0: usize) -> usize
    requires { at0 + 21 * length v.now ≤ length out.old }
    ensures { Wrote (spaced_of v.now) out.old at0 out.new result }
{
    let mut at = at0;
    for n in v {
        at = spaced(*n, out, at);
    }
    at
}

// Puts numbers in decimal, each behind a space, and answers the place behind them, where there is room for 21 bytes each. Else nothing is put.
pub fn numbers(v: &[u64], out: &mut [u8], at: usize) -> usize
    ensures { Puts (21 * length v.now) (spaced_of v.now) out.old at out.new result }
{
    if at > out.len() || (out.len() - at) / 21 < v.len() {
        return at;
    }
    all_spaced(v, out, at)
}
