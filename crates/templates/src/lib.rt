// Lines by templates: text with places for values. The text of a template is defined in specs/Templates.antt.
#![tactic(auto)]

ghost use Rattle.std.specs.Prelude.{◌≡◌, true, ℕ, ◌+◌, ◌*◌, ◌≤◌, ◌<◌, ◌≢◌, length, slice_index, get_or, drop, eqb};
ghost use Rattle.text.specs.Decimal.{decimal_of, Wrote, Puts};
ghost use Rattle.templates.specs.Templates.{
  dot,
  until,
  from,
  past,
  hex_of,
  stays,
  shown_of,
  letters_of,
  width_of,
  letter_of,
  is_name,
  name_of,
  value_of,
  behind_of,
  is_letter,
  filled_of,
  starts_of,
};

// ---- what is put: texts and numbers, each at a place; the place behind it is answered

// Bytes as they are.
fn copied(text: &[u8], out: &mut [u8], at: usize) -> usize
    requires { at + length text.now ≤ length out.old }
    ensures { Wrote text.now out.old at out.new result }
{
    let end = at + text.len();
    out[at..end].copy_from_slice(text);
    end
}

// A number in decimal.
fn decimal(n: u64, out: &mut [u8], at: usize) -> usize
    requires { at + 32 ≤ length out.old }
    ensures wrote { Wrote (decimal_of n) out.old at out.new result }
    ensures upper_bound { result ≤ at + 32 }
{
    text::decimal(n, out, at)
}

// A digit of `\xHH`.
fn hex(n: u8) -> u8
    requires { n ≤ 15 }
    ensures { result ≡ hex_of n }
{
    if n < 10 { b'0' + n } else { b'a' - 10 + n }
}

// Whether a byte of a text is put as it is.
fn plain(b: u8) -> bool
    ensures { result ≡ stays b }
{
    32 <= b && (b <= 126 && b != b'\\')
}

// A byte of a text.
fn shown(b: u8, out: &mut [u8], at: usize) -> usize
    requires { at + 4 ≤ length out.old }
    ensures wrote { Wrote (shown_of b) out.old at out.new result }
    ensures upper_bound { result ≤ at + 4 }
{
    if plain(b) {
        out[at] = b;
        return at + 1;
    }
    text::bytes(&[b'\\', b'x', hex(b / 16), hex(b % 16)], out, at)
}

// The last n bytes of a number. They are counted from the front, as the definition `letters_of` goes by how many are left.
fn bytes(v: u64, n: u64, out: &mut [u8], at: usize) -> usize
    requires { (n ≤ 8) × (at + 4 * n ≤ length out.old) }
    ensures wrote { Wrote (letters_of n v) out.old at out.new result }
    ensures upper_bound { result ≤ at + 4 * n }
{
    let mut k = at;
    for i in 0..n {
        let behind = n - i - 1;
        k = shown(((v >> (8 * behind)) % 256) as u8, out, k);
    }
    k
}

// How many bytes a letter stands for.
fn width(kind: u8) -> u64
    ensures { (result ≡ width_of kind) × (result ≤ 8) }
{
    match kind {
        b'8' => 8,
        b'4' => 4,
        _ => 1,
    }
}

// A value, by the letter that stands alone in the braces.
fn letter(kind: u8, v: u64, out: &mut [u8], at: usize) -> usize
    requires { at + 32 ≤ length out.old }
    ensures wrote { Wrote (letter_of kind v) out.old at out.new result }
    ensures upper_bound { result ≤ at + 32 }
{
    if kind == b'n' {
        return decimal(v, out, at);
    }
    bytes(v, width(kind), out, at)
}

// ---- what a template says

// Where a byte stands first, or the end.
fn find(t: &[u8], b: u8) -> usize
    ensures within { result ≤ length t.now }
    ensures before { (k : ℕ) → k < result → slice_index t.now k ≢ b }
    ensures found { result < length t.now → slice_index t.now result ≡ b }
{
    t.iter().position(|x| *x == b).unwrap_or(t.len())
}

// The bytes before a mark, and those from it on.
fn split(t: &[u8], mark: u8) -> (&[u8], &[u8])
    ensures parts { (result.0.now ≡ until mark t.now) × (result.1.now ≡ from mark t.now) }
    ensures long { length result.0.now + length result.1.now ≡ length t.now }
{
    t.split_at(find(t, mark))
}

// What stands behind the first n bytes.
fn skip(t: &[u8], n: usize) -> &[u8]
    ensures { result.now ≡ drop n t.now }
{
    &t[n.min(t.len())..]
}

// What stands behind a mark.
fn behind(t: &[u8], mark: u8) -> &[u8]
    ensures rest { result.now ≡ past mark t.now }
    ensures inside { length result.now ≤ length t.now }
{
    skip(split(t, mark).1, 1)
}

// Whether a byte ends a code, and the code before it is v.
fn names(v: u64, last: u64, b: u8) -> bool
    ensures { result ≡ is_name v last b }
{
    b == b'=' && (last == v || last % 256 == v)
}

// From the name of a code on; nothing where the braces have none.
fn named(t: &[u8], v: u64) -> &[u8]
    ensures name { result.now ≡ name_of v 0 t.now }
    ensures inside { length result.now ≤ length t.now }
{
    let mut last = 0;
    for (i, b) in t.iter().enumerate() {
        if *b == b'}' {
            return skip(t, t.len());
        }
        if names(v, last, *b) {
            return skip(t, i + 1);
        }
        last = last % 256 * 256 + u64::from(*b);
    }
    skip(t, t.len())
}

// Whether a place ends the template, from behind its opening brace on.
fn ends(p: &[u8]) -> bool
    ensures { result ≡ eqb (get_or p.now 0 dot) dot }
{
    match p {
        [b, ..] => *b == b'.',
        [] => true,
    }
}

// Whether a place is a letter alone.
fn is_letter(p: &[u8]) -> bool
    ensures letter { result ≡ is_letter p.now }
    ensures long { result ≡ true → 2 ≤ length p.now }
{
    match p {
        [_, b, ..] => *b == b'}',
        _ => false,
    }
}

// The value at a place, from behind its opening brace on; and what stands behind the place.
fn value<'a>(p: &'a [u8], v: u64, out: &mut [u8], at: usize) -> (&'a [u8], usize)
    requires { at + length p.now + 32 ≤ length out.old }
    ensures inside { result.1 + length result.0.now ≤ at + length p.now + 32 }
    ensures rest { result.0.now ≡ behind_of p.now v }
    ensures wrote { Wrote (value_of p.now v) out.old at out.new result.1 }
{
    if is_letter(p) {
        return (skip(p, 2), letter(p[0], v, out, at));
    }
    let (name, rest) = split(named(p, v), b',');
    (behind(rest, b'}'), copied(name, out, at))
}

// The template that begins here, with the values.
fn filled(template: &[u8], v: &[u64], out: &mut [u8], at0: usize) -> usize
    requires { at0 + length template.now + 32 * length v.now ≤ length out.old }
    ensures { Wrote (filled_of template.now v.now) out.old at0 out.new result }
{
    let mut t = template;
    let mut at = at0;
    for x in v {
        let (text, rest) = split(t, b'{');
        at = copied(text, out, at);
        let place = skip(rest, 1);
        if ends(place) {
            return at;
        }
        (t, at) = value(place, *x, out, at);
    }
    copied(split(t, b'{').0, out, at)
}

// Puts the text of the template that begins at a place, with the values, and answers the place behind it, where there is room for the most that it
// could be: the table's bytes and 32 for each value. Else nothing is put.
pub fn put(table: &[u8], start: usize, v: &[u64], out: &mut [u8], at: usize) -> usize
    ensures { Puts (length table.now + 32 * length v.now) (filled_of (drop start table.now) v.now)
        out.old at out.new result }
{
    if at > out.len() {
        return at;
    }
    let room = out.len() - at;
    if room < table.len() || (room - table.len()) / 32 < v.len() {
        return at;
    }
    filled(skip(table, start), v, out, at)
}

// Where each of the first 32 templates of a table begins. They are found once: a search at each line would cost more than the line.
pub fn starts_of(table: &[u8]) -> [usize; 32]
    ensures { result ≡ starts_of table.now 32 }
{
    let mut starts = [0; 32];
    let mut t = table;
    for start in starts.iter_mut() {
        *start = table.len() - t.len();
        t = behind(t, b'.');
    }
    starts
}
