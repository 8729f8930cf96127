// The digits of numbers, two by two from a table. The line of an accepted frame begins with its offset: its digits are taken from here. The table is lent on
// from the function that walks a block, since one that is indexed where it stands would be built again for each line.
ghost use Rattle.std.specs.Prelude.{◌+◌, ◌≤◌, ◌<◌, ◌≡◌, length};
ghost use Rattle.text.specs.Decimal.{two_of, four_of, decimal_of, Wrote};
ghost use Rattle.lines.specs.Whole.{pairs};

// The two digits of each number below 100, one pair behind the other.
const PAIRS: [u8; 200] = *b"\
    00010203040506070809\
    10111213141516171819\
    20212223242526272829\
    30313233343536373839\
    40414243444546474849\
    50515253545556575859\
    60616263646566676869\
    70717273747576777879\
    80818283848586878889\
    90919293949596979899";

// The table.
#[derive(Drop)]
pub(super) struct Digits {
    table: [u8; 200],
    ghost listed: { table ≡ pairs },
}

// A number of one digit.
fn digit(n: u64, out: &mut [u8], at: usize) -> usize
    requires { (n < 10) × (at + 1 ≤ length out.old) }
    ensures { Wrote (decimal_of n) out.old at out.new result }
{
    out[at] = 48 + n as u8;
    at + 1
}

impl Digits {
    // The table, to be lent.
    pub(super) fn new() -> Self {
        Digits { table: PAIRS }
    }

    // Two digits, zeros in front too.
    pub(super) fn two(&self, n: u64, out: &mut [u8], at: usize) -> usize
        requires { (n < 100) × (at + 2 ≤ length out.old) }
        ensures { Wrote (two_of n) out.old at out.new result }
    {
        let i = n as usize * 2;
        let a = self.table[i];
        let b = self.table[i + 1];
        out[at] = a;
        out[at + 1] = b;
        at + 2
    }

    // Four digits.
    fn four(&self, n: u64, out: &mut [u8], at: usize) -> usize
        requires { (n < 10000) × (at + 4 ≤ length out.old) }
        ensures { Wrote (four_of n) out.old at out.new result }
    {
        let k = self.two(n / 100, out, at);
        self.two(n % 100, out, k)
    }

    // A number of at most four digits, without zeros in front.
    fn front(&self, n: u64, out: &mut [u8], at: usize) -> usize
        requires { (n < 10000) × (at + 4 ≤ length out.old) }
        ensures { Wrote (decimal_of n) out.old at out.new result }
    {
        if n < 10 {
            return digit(n, out, at);
        }
        if n < 100 {
            return self.two(n, out, at);
        }
        if n < 1000 {
            let k = digit(n / 100, out, at);
            return self.two(n % 100, out, k);
        }
        self.four(n, out, at)
    }

    // The offset that a line begins with.
    pub(super) fn decimal(&self, n: u64, out: &mut [u8], at: usize) -> usize
        requires { at + 20 ≤ length out.old }
        ensures { Wrote (decimal_of n) out.old at out.new result }
    {
        if n < 10000 {
            return self.front(n, out, at);
        }
        if n < 100000000 {
            let k = self.front(n / 10000, out, at);
            return self.four(n % 10000, out, k);
        }
        if n < 1000000000000 {
            let k = self.front(n / 100000000, out, at);
            let l = self.four(n / 10000 % 10000, out, k);
            return self.four(n % 10000, out, l);
        }
        text::decimal(n, out, at)
    }
}
