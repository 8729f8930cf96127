// Lists of cases, which play reads to a stream, failed ones too, that a run on a file cannot have. What a list is, where a case ends and what a read
// brings is defined in specs/Reads.antt.
#![tactic(auto)]

ghost use Rattle.std.specs.Prelude.{◌+◌, ◌-◌, ◌≤◌, min, ◌++◌, ◌≡◌, length, take, drop};
ghost use Rattle.reads.specs.Reads.{head_of, closes, is_read, brings_of, case_end_of, due_of, fails_of, held_of, read_of, brought_of, count_of, has_more_of};

// The heads: the case's end, a read that fails, and the most bytes that a read brings.
const CLOSED: usize = 0xffff;

const FAILS: usize = 0xfffe;

const MOST: usize = 8192;

// What stands from a place on.
fn rest(list: &[u8], i: usize) -> &[u8]
    ensures { result.now ≡ drop i list.now }
{
    &list[i.min(list.len())..]
}

// The head that a list begins with.
fn head(t: &[u8]) -> usize
    requires { 2 ≤ length t.now }
    ensures { result ≡ head_of t.now }
{
    usize::from(t[0]) * 256 + usize::from(t[1])
}

// Whether it begins with a case's end.
fn closed(t: &[u8]) -> bool
    ensures { result ≡ closes t.now }
{
    if t.len() < 2 {
        return false;
    }
    head(t) == CLOSED
}

// Whether it begins with a read, with its bytes.
fn is_read(t: &[u8]) -> bool
    ensures { result ≡ is_read t.now }
{
    if t.len() < 2 {
        return false;
    }
    let n = head(t);
    if n > MOST {
        return n == FAILS;
    }
    n <= t.len() - 2
}

// How many bytes the read brings that it begins with.
fn brings(t: &[u8]) -> usize
    requires { 2 ≤ length t.now }
    ensures { result ≡ brings_of t.now }
{
    let n = head(t);
    if n > MOST { 0 } else { n }
}

// Behind the case that begins at a place; the place itself where no whole case stands there. A read says by itself how long it is, so no iterator goes from one to the next.
pub fn case_end(list: &[u8], from: usize) -> usize
    ensures { result ≡ case_end_of list.now from }
{
    let mut t = rest(list, from);
    while is_read(t) {
        t = rest(t, 2 + brings(t));
    }
    if closed(t) {
        return list.len() - t.len() + 2;
    }
    from
}

// The place of the read that comes next; the `left` bytes before it are of one that was brought in part.
#[derive(Clone, Copy)]
pub struct Place {
    pub i: usize,
    pub left: usize,
}

// What a read came to: the place behind it, and how many bytes came, or none where it failed.
#[derive(Clone, Copy)]
pub struct Read {
    pub place: Place,
    pub came: Option<usize>,
}

// The bytes that come next: the place behind them, and how many.
fn due(list: &[u8], p: Place) -> Place
    ensures { result ≡ due_of list.now p }
{
    let t = rest(list, p.i);
    if p.left > 0 || !is_read(t) {
        return p;
    }
    let left = brings(t);
    Place {
        i: p.i + 2 + left,
        left,
    }
}

// Whether the read that comes next fails.
fn fails(list: &[u8], p: Place) -> bool
    ensures { result ≡ fails_of list.now p }
{
    let t = rest(list, p.i);
    if p.left > 0 || !is_read(t) {
        return false;
    }
    head(t) == FAILS
}

// How many of the bytes before a place stand there: in a list that is one, all.
fn held(list: &[u8], d: Place) -> usize
    ensures { result ≡ held_of list.now d }
{
    if d.left > d.i || d.i > list.len() {
        return 0;
    }
    d.left
}

// Brings the n bytes before a place, as many as the free part takes, and answers how many.
fn bring(list: &[u8], i: usize, n: usize, free: &mut [u8]) -> usize
    requires { (n ≤ i) × (1 ≤ n → i ≤ length list.now) }
    ensures value { result ≡ min n (length free.old) }
    ensures free_after { free.new ≡ take result (drop (i - n) list.now) ++ drop result free.old }
{
    if n == 0 {
        return 0;
    }
    let count = n.min(free.len());
    let from = i - n;
    let to = from + count;
    free[..count].copy_from_slice(&list[from..to]);
    count
}

// The next read of a case, into the free part of a buffer: its bytes stand at the front then. Where the case has none left, one that brings nothing.
pub fn next_read(list: &[u8], p: Place, free: &mut [u8]) -> Read
    ensures value { result ≡ read_of list.now p (length free.old) }
    ensures free_after { free.new ≡ brought_of list.now p (length free.old) ++ drop (count_of result.came) free.old }
{
    let failed = fails(list, p);
    let d = due(list, p);
    let i = d.i;
    let n = held(list, d);
    let count = bring(list, i, n, free);
    Read {
        place: Place { i, left: n - count },
        came: if failed { None } else { Some(count) },
    }
}

// Whether a case has reads that are not brought in.
pub fn has_more(list: &[u8], p: Place) -> bool
    ensures { result ≡ has_more_of list.now p }
{
    p.left > 0 || is_read(rest(list, p.i))
}
