// The leaves: big-endian numbers, text and the header at places of a byte window. Each answers the field's value, or why there is none. What a field is
// stands in specs/Layout; what an answer means, in specs/Meaning.
//
// A place is a u8, so that `place + width` cannot wrap and no caller can break a leaf. The straight sums below are one load each once compiled
// (docs/DECISIONS.md); one law over the width serves them all (proofs/Bytes).
#![tactic(auto)]

ghost use Rattle.std.specs.Prelude.{ℕ, ◌≡◌, ◌⊎◌, refl, ◌+◌, ◌*◌, ◌%◌, ◌^◌, ◌<◌, ◌≤◌, length};
ghost use Rattle.std.proofs.Common.{inl, inr};
ghost use Rattle.format.specs.Layout.{be, part, field, num, text};
ghost use Rattle.format.specs.Utf8.{lead, utf_step, is_fresh, well_formed, begins_at, first_bad};
ghost use Rattle.format.specs.Rows.{header_of};
ghost use Rattle.format.specs.Meaning.{IsWidth, bad, field_m, utf_m, header_m};

// Which printing of the format: the old one, or the later ones, which have two messages more, h and O.
#[derive(Clone, Copy)]
pub enum Edition {
    Old,
    Later,
}

// How a message is to be read or written. Who reads or writes takes it by value, last. A strict reading also refuses times of a day or more, and text with
// a byte outside 20 to 7e; who writes does not look at that.
#[derive(Clone, Copy)]
pub struct Reading {
    pub edition: Edition,
    pub strict: bool,
}

// A refusal: its number in the document, and the place of the bytes that it is about.
#[derive(Clone, Copy)]
pub struct Refusal {
    pub number: u8,
    pub place: usize,
}

// A day, in nanoseconds: in a strict reading, a time is below it.
pub const DAY: u64 = 86400000000000;

// Why a field, a body or a message has no value: not all of its bytes are there, or it is refused.
#[derive(Clone, Copy)]
pub enum Fault {
    Short,
    Refused(Refusal),
}

// A fault that is a refusal.
pub fn refused(number: u8, place: usize) -> Fault
    ensures { result ≡ bad number place }
{
    Fault::Refused(Refusal { number, place })
}

// What stands before every body, without the length, which the reader ignores.
#[derive(Clone, Copy)]
pub struct Header {
    pub tag: u8,
    pub stock_locate: u16,
    pub tracking_number: u16,
    // nanoseconds since midnight, of six bytes
    pub timestamp: u64,
}

// A number that stands in a message as so many bytes, the first the highest.
pub trait Number: Copy {
    ghost WIDTH: { ℕ };
    // The number that a value is.
    ghost value: { Self → ℕ };

    // How many bytes it has.
    const WIDTH: usize;

    // The last WIDTH bytes of a number.
    fn low(v: u64) -> Self
        ensures { value result ≡ v % 256 ^ WIDTH };

    // The number itself.
    fn wide(self) -> u64
        ensures { (result ≡ value self) × (result < 256 ^ WIDTH) };

    ghost width: { IsWidth WIDTH };
}

impl Number for u8 {
    ghost WIDTH = { 1 };

    ghost value = { λ v. v };

    const WIDTH: usize = 1;

    fn low(v: u64) -> u8 {
        (v % 0x100) as u8
    }

    fn wide(self) -> u64 {
        u64::from(self)
    }

    ghost width = { inl refl };
}

impl Number for u16 {
    ghost WIDTH = { 2 };

    ghost value = { λ v. v };

    const WIDTH: usize = 2;

    fn low(v: u64) -> u16 {
        (v % 0x10000) as u16
    }

    fn wide(self) -> u64 {
        u64::from(self)
    }

    ghost width = { inr (inl refl) };
}

impl Number for u32 {
    ghost WIDTH = { 4 };

    ghost value = { λ v. v };

    const WIDTH: usize = 4;

    fn low(v: u64) -> u32 {
        (v % 0x100000000) as u32
    }

    fn wide(self) -> u64 {
        u64::from(self)
    }

    ghost width = { inr (inr (inl refl)) };
}

impl Number for u64 {
    ghost WIDTH = { 8 };

    ghost value = { λ v. v };

    const WIDTH: usize = 8;

    fn low(v: u64) -> u64 {
        v
    }

    fn wide(self) -> u64 {
        self
    }

    ghost width = { inr (inr (inr refl)) };
}

// A number that a text is kept as: of four bytes or of eight.
pub trait Letters: Number {
    ghost texts: { (Self.WIDTH ≡ 4) ⊎ (Self.WIDTH ≡ 8) };
}

impl Letters for u32 {
    ghost texts = { inl refl };
}

impl Letters for u64 {
    ghost texts = { inr refl };
}

// The number that two bytes are, the first the highest.
fn be2(s: &[u8], at: usize) -> u64
    requires { at + 2 ≤ length s.now }
    ensures { (result ≡ be (part s.now at 2)) × (result < 256 ^ 2) }
{
    u64::from(s[at]) * 256 + u64::from(s[at + 1])
}

// The number that four bytes are.
fn be4(s: &[u8], at: usize) -> u64
    requires { at + 4 ≤ length s.now }
    ensures { (result ≡ be (part s.now at 4)) × (result < 256 ^ 4) }
{
    ((u64::from(s[at]) * 256 + u64::from(s[at + 1])) * 256 + u64::from(s[at + 2])) * 256
        + u64::from(s[at + 3])
}

// The number that eight bytes are: two halves.
fn be8(s: &[u8], at: usize) -> u64
    requires { at + 8 ≤ length s.now }
    ensures { (result ≡ be (part s.now at 8)) × (result < 256 ^ 8) }
{
    be4(s, at) * 4294967296 + be4(s, at + 4)
}

// The number that w bytes are. Compiled, the sums above are one load each, which a loop over the bytes is not. It is put into its caller
// before anything else is done with it, so that the width is known then: else the sums of all widths are worked into one another, and none is one load.
#[inline(always)]
fn be(s: &[u8], at: usize, w: usize) -> u64
    requires { (at + w ≤ length s.now) × IsWidth w }
    ensures { (result ≡ be (part s.now at w)) × (result < 256 ^ w) }
{
    match w {
        8 => be8(s, at),
        4 => be4(s, at),
        2 => be2(s, at),
        _ => u64::from(s[at]),
    }
}

// The number at a place; or short.
pub fn number_at<T: Number>(s: &[u8], place: u8) -> Result<T, Fault>
    ensures { field_m T.value result ≡ field (num T.WIDTH) s.now place }
{
    let at = place as usize;
    if s.len() < at + T::WIDTH {
        return Err(Fault::Short);
    }
    Ok(T::low(be(s, at, T::WIDTH)))
}

// Where a text stands between two bytes, by RFC 3629: between two sequences; n more bytes are due, the next from lo to hi; not UTF-8.
#[derive(Clone, Copy)]
pub enum Utf {
    Fresh,
    Tail(u8, u8, u8),
    Bad,
}

// Where a text stands behind the first byte of a sequence.
fn utf_lead(b: u8) -> Utf
    ensures { utf_m result ≡ lead b }
{
    if b < 0x80 {
        Utf::Fresh
    } else if b < 0xc2 {
        Utf::Bad
    } else if b < 0xe0 {
        Utf::Tail(1, 0x80, 0xbf)
    } else if b < 0xe1 {
        Utf::Tail(2, 0xa0, 0xbf)
    } else if b < 0xed {
        Utf::Tail(2, 0x80, 0xbf)
    } else if b < 0xee {
        Utf::Tail(2, 0x80, 0x9f)
    } else if b < 0xf0 {
        Utf::Tail(2, 0x80, 0xbf)
    } else if b < 0xf1 {
        Utf::Tail(3, 0x90, 0xbf)
    } else if b < 0xf4 {
        Utf::Tail(3, 0x80, 0xbf)
    } else if b < 0xf5 {
        Utf::Tail(3, 0x80, 0x8f)
    } else {
        Utf::Bad
    }
}

// Where it stands one byte on.
fn utf_step(u: Utf, b: u8) -> Utf
    ensures { utf_m result ≡ utf_step (utf_m u) b }
{
    match u {
        Utf::Fresh => utf_lead(b),
        Utf::Tail(n, lo, hi) => {
            if n == 0 {
                return Utf::Bad;
            }
            if b < lo {
                return Utf::Bad;
            }
            if hi < b {
                return Utf::Bad;
            }
            if n == 1 {
                Utf::Fresh
            } else {
                Utf::Tail(n - 1, 0x80, 0xbf)
            }
        }
        Utf::Bad => Utf::Bad,
    }
}

// Whether it may end there.
fn is_fresh(u: Utf) -> bool
    ensures { result ≡ is_fresh (utf_m u) }
{
    matches!(u, Utf::Fresh)
}

// The check proper, of four bytes or eight: one function for both texts, and a large one, so that it stays out of their way.
fn well_formed(s: &[u8], at: usize, w: usize) -> bool
    requires { (at + w ≤ length s.now) × ((w ≡ 4) ⊎ (w ≡ 8)) }
    ensures { result ≡ well_formed (part s.now at w) }
{
    let after1 = utf_step(Utf::Fresh, s[at]);
    let after2 = utf_step(after1, s[at + 1]);
    let after3 = utf_step(after2, s[at + 2]);
    let after4 = utf_step(after3, s[at + 3]);
    if w == 8 {
        let after5 = utf_step(after4, s[at + 4]);
        let after6 = utf_step(after5, s[at + 5]);
        let after7 = utf_step(after6, s[at + 6]);
        let after8 = utf_step(after7, s[at + 7]);
        return is_fresh(after8);
    }
    is_fresh(after4)
}

// The place where the sequence begins that the byte at place i belongs to, of a text that stands at u before it: i, or `from`, where the one began that it
// stands in.
fn begins_at(u: Utf, from: usize, i: usize) -> usize
    ensures { result ≡ begins_at (utf_m u) from i }
{
    match u {
        Utf::Fresh => i,
        Utf::Tail(_, _, _) => from,
        Utf::Bad => from,
    }
}

// The place where the first bad sequence begins of the text of w bytes at a place; the one behind the text if there is none. Only who refuses a text asks
// this. Two bytes a turn, counted by hand, make it too large to be compiled into the texts, as the check is.
fn first_bad(s: &[u8], at: usize, w: usize) -> usize
    requires { (at + w ≤ length s.now) × (w % 2 ≡ 0) }
    ensures { result ≡ at + first_bad (part s.now at w) }
{
    let end = at + w;
    let mut u = Utf::Fresh;
    let mut from = at;
    let mut i = at;
    while i < end {
        let next = i + 1;
        from = begins_at(u, from, i);
        u = utf_step(u, s[i]);
        from = begins_at(u, from, next);
        u = utf_step(u, s[next]);
        i = next + 1;
    }
    begins_at(u, from, i)
}

// The text at a place, kept as the number that its bytes are; or short, or 3, where its first bad sequence begins. Where no byte has its high
// bit set, it is ASCII and nothing else is looked at.
pub fn text_at<T: Letters>(s: &[u8], place: u8) -> Result<T, Fault>
    ensures { field_m T.value result ≡ field (text T.WIDTH) s.now place }
{
    let v: T = number_at(s, place)?;
    if v.wide() & 0x8080808080808080 == 0 {
        return Ok(v);
    }
    let at = place as usize;
    if well_formed(s, at, T::WIDTH) {
        Ok(v)
    } else {
        Err(refused(3, first_bad(s, at, T::WIDTH)))
    }
}

// The 13 bytes before a body, if they are there. Tracking number and timestamp are read as one number of eight bytes: no form of a six-byte read is one load.
pub fn read_header(s: &[u8]) -> Option<Header>
    ensures { header_m result ≡ header_of s.now }
{
    if s.len() < 13 {
        return None;
    }
    let v = be8(s, 5);
    Some(Header {
        tag: s[2],
        stock_locate: be2(s, 3) as u16,
        tracking_number: (v / 0x1000000000000) as u16,
        timestamp: v % 0x1000000000000,
    })
}
