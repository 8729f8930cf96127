// Text put into a lent buffer: each function puts its text at a place, if there is room for it, and answers the
// place behind it.
#![tactic(auto)]

ghost use Rattle.std.specs.Prelude.{◌+◌, ◌≤◌, ◌<◌, [], ◌∷◌, ◌↔◌, length, IsTrue};
ghost use Rattle.text.specs.Decimal.{one_of, two_of, four_of, eight_of, decimal_of, behind, Wrote, Puts};

// One digit.
fn one(n: u64, out: &mut [u8], at: usize) -> usize
    requires { (n ≤ 9) × (at + 1 ≤ length out.old) }
    ensures { Wrote (one_of n) out.old at out.new result }
{
    out[at] = (48 + n) as u8;
    at + 1
}

// Two digits, zeros in front too. They are made as one number, first digit lowest: that compiles to one store.
fn two(n: u64, out: &mut [u8], at: usize) -> usize
    requires { (n ≤ 99) × (at + 2 ≤ length out.old) }
    ensures { Wrote (two_of n) out.old at out.new result }
{
    let pair = 12336 + n % 10 * 256 + n / 10;
    out[at] = (pair % 256) as u8;
    out[at + 1] = (pair / 256) as u8;
    at + 2
}

// Four digits. Two of `two`, as `eight` is two of this, by a division for each half: no const parameter can be half of another.
fn four(n: u64, out: &mut [u8], at: usize) -> usize
    requires { (n ≤ 9999) × (at + 4 ≤ length out.old) }
    ensures { Wrote (four_of n) out.old at out.new result }
{
    let k = two(n / 100, out, at);
    two(n % 100, out, k)
}

// Eight digits.
fn eight(n: u64, out: &mut [u8], at: usize) -> usize
    requires { (n ≤ 99999999) × (at + 8 ≤ length out.old) }
    ensures { Wrote (eight_of n) out.old at out.new result }
{
    let k = four(n / 10000, out, at);
    four(n % 10000, out, k)
}

// A number of at most two digits, without zeros in front.
fn up_to_2(n: u64, out: &mut [u8], at: usize) -> usize
    requires { (n < 100) × (at + length (decimal_of n) ≤ length out.old) }
    ensures { Wrote (decimal_of n) out.old at out.new result }
{
    if n < 10 {
        return one(n, out, at);
    }
    two(n, out, at)
}

fn up_to_4(n: u64, out: &mut [u8], at: usize) -> usize
    requires { (n < 10000) × (at + length (decimal_of n) ≤ length out.old) }
    ensures { Wrote (decimal_of n) out.old at out.new result }
{
    if n < 100 {
        return up_to_2(n, out, at);
    }
    let k = up_to_2(n / 100, out, at);
    two(n % 100, out, k)
}

fn up_to_8(n: u64, out: &mut [u8], at: usize) -> usize
    requires { (n < 100000000) × (at + length (decimal_of n) ≤ length out.old) }
    ensures { Wrote (decimal_of n) out.old at out.new result }
{
    if n < 10000 {
        return up_to_4(n, out, at);
    }
    let k = up_to_4(n / 10000, out, at);
    four(n % 10000, out, k)
}

// Nine to sixteen digits.
fn up_to_16(n: u64, out: &mut [u8], at: usize) -> usize
    requires { (100000000 ≤ n) × (n < 10000000000000000) × (at + length (decimal_of n) ≤ length out.old) }
    ensures { Wrote (decimal_of n) out.old at out.new result }
{
    let k = up_to_8(n / 100000000, out, at);
    eight(n % 100000000, out, k)
}

// Nine digits or more.
fn long(n: u64, out: &mut [u8], at: usize) -> usize
    requires { (100000000 ≤ n) × (at + length (decimal_of n) ≤ length out.old) }
    ensures { Wrote (decimal_of n) out.old at out.new result }
{
    if n < 10000000000000000 {
        return up_to_16(n, out, at);
    }
    let k = up_to_16(n / 100000000, out, at);
    eight(n % 100000000, out, k)
}

fn digits(n: u64, out: &mut [u8], at: usize) -> usize
    requires { at + length (decimal_of n) ≤ length out.old }
    ensures { Wrote (decimal_of n) out.old at out.new result }
{
    if n < 100000000 {
        return up_to_8(n, out, at);
    }
    long(n, out, at)
}

// Whether the buffer has n bytes from a place on.
fn has_room(n: usize, out: &[u8], at: usize) -> bool
    ensures { IsTrue result ↔ at + n ≤ length out.now }
{
    n <= out.len() && at <= out.len() - n
}

// A number in decimal: at most 20 bytes.
pub fn decimal(n: u64, out: &mut [u8], at: usize) -> usize
    ensures { Puts 20 (decimal_of n) out.old at out.new result }
{
    if !has_room(20, out, at) {
        return at;
    }
    digits(n, out, at)
}

// A number in decimal, and a byte behind it: at most 21 bytes.
pub fn number(n: u64, mark: u8, out: &mut [u8], at: usize) -> usize
    ensures { Puts 21 (behind n mark) out.old at out.new result }
{
    if !has_room(21, out, at) {
        return at;
    }
    let next = digits(n, out, at);
    out[next] = mark;
    next + 1
}

// One byte.
pub fn byte(b: u8, out: &mut [u8], at: usize) -> usize
    ensures { Puts 1 (b ∷ []) out.old at out.new result }
{
    if out.len() <= at {
        return at;
    }
    out[at] = b;
    at + 1
}

// Some bytes.
pub fn bytes(text: &[u8], out: &mut [u8], at: usize) -> usize
    ensures { Puts (length text.now) text.now out.old at out.new result }
{
    if !has_room(text.len(), out, at) {
        return at;
    }
    let next = at + text.len();
    out[at..next].copy_from_slice(text);
    next
}
