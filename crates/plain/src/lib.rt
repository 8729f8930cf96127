// The plain messages: those whose bodies are numbers alone, and A and P, of which only side and stock are looked at.
//
// Where a run of messages is only counted, most of its time goes into jumps that nobody can foresee: by the tag, and by the side. Here there are none.
#![tactic(auto)]

ghost use Rattle.std.specs.Prelude.{◌≡◌, get_or};
ghost use Rattle.plain.specs.Plain.{Table, end_by, plain_of, tight_by, strictly_of};

mod table;

use table::{NUMBERS, ORDER, ROWS, SIDE};

// Eight bytes: of each its high bit; and of each all but that.
const HIGHS: u64 = 0x8080808080808080;

const LOWS: u64 = 0x7f7f7f7f7f7f7f7f;

// What is added to each of eight bytes below 80, so that its high bit says whether it is 7f; and whether it is 20 or more.
const ONES: u64 = 0x0101010101010101;

const SPACES: u64 = 0x6060606060606060;

// The time is the last six bytes of the number at 5, behind the tracking number: its remainder by this.
const TIMES: u64 = 0x1000000000000;

// The table of a reading, to be lent: indexed where it is used, it would be built anew at each use. By a strict reading's nothing is plain, so that a loop
// which lends it need not ask at each message how it reads.
pub fn rows(strict: bool) -> [u64; 256]
    ensures { Table strict result }
{
    if strict {
        return [0u64; 256];
    }
    ROWS
}

// The row of a byte.
fn row(rows: &[u64; 256], b: u8) -> u64
    ensures { result ≡ get_or rows.now b 0 }
{
    rows[b as usize]
}

// Where a message ends by the rows of its tag and of its byte 21: an order needs a legal side and a stock with no high bit, a body of numbers needs
// nothing. Zero where it is no plain message.
fn end_by(r: u64, c: u64, stock: u64) -> usize
    ensures { result ≡ end_by r c stock }
{
    let order = r / ORDER;
    let legal = r / NUMBERS % 2 + order * (c / SIDE % 2);
    if legal == 0 {
        return 0;
    }
    if stock & (order * HIGHS) != 0 {
        return 0;
    }
    (r % 128) as usize
}

// The end of the message in front, where it is a plain one and the window has 52 bytes; else zero, and no Option, since the definition `plain_of` says it so. No
// branch is taken by the tag or the side.
pub fn plain(w: &[u8], rows: &[u64; 256]) -> usize
    ensures { result ≡ plain_of w.now rows.now }
{
    if w.len() < 52 {
        return 0;
    }
    let Ok(stock) = format::number_at(w, 26) else {
        return 0;
    };
    end_by(row(rows, w[2]), row(rows, w[21]), stock)
}

// Whether a strict reading takes a plain message, too: v is the number at 5, and r the row of the tag. The time is below a day, and an order's stock, which
// has no high bit then, has no byte outside 20 to 7e: all eight bytes at once, by numbers that no byte can carry out of.
fn tight(v: u64, r: u64, stock: u64) -> bool
    ensures { result ≡ tight_by v r stock }
{
    if v % TIMES >= format::DAY {
        return false;
    }
    let high = r / ORDER * HIGHS;
    let low = stock & LOWS;
    if (low + ONES) & high != 0 {
        return false;
    }
    (low + SPACES) & high == high
}

// The end of the message in front, where it is a plain one by the ordinary table that a strict reading takes, too, and the window has 52 bytes; else zero.
pub fn strictly(w: &[u8], rows: &[u64; 256]) -> usize
    ensures { result ≡ strictly_of w.now rows.now }
{
    if w.len() < 52 {
        return 0;
    }
    let Ok(stock) = format::number_at(w, 26) else {
        return 0;
    };
    let r = row(rows, w[2]);
    let n = end_by(r, row(rows, w[21]), stock);
    let Ok(v) = format::number_at(w, 5) else {
        return 0;
    };
    if !tight(v, r, stock) {
        return 0;
    }
    n
}
