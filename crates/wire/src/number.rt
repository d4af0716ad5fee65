// Big-endian numbers of 1, 2, 3 and 4 bytes (RFC 5246 4.4), read and written.
ghost use Rattle.std.specs.Prelude.{◌≡◌, ◌+◌, ◌*◌, ◌/◌, ◌%◌, ◌^◌, ◌≤◌, ◌<◌, ltb, get_or, length};
ghost use Rattle.wire.specs.Numbers.{be, bytes_of, bytes_in, number_at, number_text, Below};
ghost use Rattle.wire.specs.Puts.{put, room, written};
ghost use Rattle.refusal.specs.Answers.{as_answer};

use refusal::{Reason, Refusal};

// How many bytes a number has.
#[derive(Clone, Copy)]
pub enum Width {
    One = 1,
    Two,
    Three,
    Four,
}

// A number that was found, and the place past it.
#[derive(Clone, Copy)]
pub struct Number {
    pub value: usize,
    pub next: usize,
}

// Tells how many bytes a width is.
pub fn width_bytes(w: Width) -> usize
    ensures { result ≡ bytes_in w }
{
    w as usize
}

// The first number that is too large for the width.
// stays: a shift by eight times the bytes is no plainer, and four cases need no proof of its bound.
fn limit(w: Width) -> usize
    ensures { result ≡ 256 ^ bytes_in w }
{
    match w {
        Width::One => 0x100,
        Width::Two => 0x1_0000,
        Width::Three => 0x100_0000,
        Width::Four => 0x1_0000_0000,
    }
}

// Whether a number of that width can be `n`.
pub fn width_holds(w: Width, n: usize) -> bool
    ensures { result ≡ ltb n (256 ^ bytes_in w) }
{
    n < limit(w)
}

// A byte as a number.
fn wide(b: u8) -> usize
    ensures { (result ≡ b) × (result < 256) }
{
    b as usize
}

// The two bytes from `at` on, the first as the lower one, as most machines load two bytes at once.
// It stands apart, so that the compiler makes the load before it sees the swap (docs/DECISIONS.md).
// stays: this and the sums below are slower as one loop over the width (docs/DECISIONS.md).
fn two_swapped(s: &[u8], at: usize) -> usize
    requires { at + 2 ≤ length s.now }
    ensures { (result % 256 ≡ get_or s.now at 0) × (result / 256 ≡ get_or s.now (at + 1) 0) × (result < 256 ^ 2) }
{
    wide(s[at + 1]) * 256 + wide(s[at])
}

// The number of the two bytes from `at` on.
fn two_bytes(s: &[u8], at: usize) -> usize
    requires { at + 2 ≤ length s.now }
    ensures { (result ≡ get_or s.now at 0 * 256 + get_or s.now (at + 1) 0) × (result < 256 ^ 2) }
{
    let n = two_swapped(s, at);
    n % 256 * 256 + n / 256
}

// The number of the three bytes from `at` on. The order of the sum is the one that compiles to two
// loads (docs/DECISIONS.md).
fn three_bytes(s: &[u8], at: usize) -> usize
    requires { at + 3 ≤ length s.now }
    ensures { (result ≡ get_or s.now at 0 * 256 ^ 2 + get_or s.now (at + 1) 0 * 256 + get_or s.now (at + 2) 0) × (result < 256 ^ 3) }
{
    wide(s[at + 2]) + two_bytes(s, at) * 256
}

// The number of the four bytes from `at` on.
fn four_bytes(s: &[u8], at: usize) -> usize
    requires { at + 4 ≤ length s.now }
    ensures { (result ≡ get_or s.now at 0 * 256 ^ 3 + get_or s.now (at + 1) 0 * 256 ^ 2 + get_or s.now (at + 2) 0 * 256 + get_or s.now (at + 3) 0) × (result < 256 ^ 4) }
{
    wide(s[at + 3]) + three_bytes(s, at) * 256
}

// The number of the `count` bytes from `at` on.
fn number_of(s: &[u8], at: usize, count: usize) -> usize
    requires { (count ≤ 4) × (at + count ≤ length s.now) }
    ensures { (result ≡ be count s.now at) × (result < 256 ^ count) }
{
    match count {
        0 => 0,
        1 => wide(s[at]),
        2 => two_bytes(s, at),
        3 => three_bytes(s, at),
        _ => four_bytes(s, at),
    }
}

// The number that stands at a place.
pub fn parse_be(s: &[u8], at: usize, w: Width) -> Result<Number, Refusal>
    ensures result_value { as_answer result ≡ number_at (bytes_in w) s.now at }
    ensures below { Below (bytes_in w) result }
{
    let count = width_bytes(w);
    let p = crate::view::take_or(s, at, count, Reason::Incomplete)?;
    Ok(Number {
        value: number_of(s, at, count),
        next: p.next,
    })
}

// Sets the `count` bytes from `at` on to those of `n`.
// stays: by `iter_mut().rev()` the part would be cut out first, which is no plainer
fn put_number(out: &mut [u8], at: usize, count: usize, n: usize)
    requires { at + count ≤ length out.old }
    ensures { out.new ≡ put out.old at (bytes_of count n) }
{
    let mut m = n;
    for k in (0..count).rev() {
        out[at + k] = (m % 256) as u8;
        m /= 256;
    }
}

// Writes `n` at a place: BadLength where the width cannot hold it, then NoRoom. A refusal changes
// no byte.
pub fn gen_be(out: &mut [u8], at: usize, w: Width, n: usize) -> Result<usize, Refusal>
    ensures result_value { as_answer result ≡ room (number_text (bytes_in w) n) at out.old }
    ensures out_after { out.new ≡ written (number_text (bytes_in w) n) at out.old }
{
    let count = width_bytes(w);
    if limit(w) <= n {
        return Err(refusal::unplaced(Reason::BadLength));
    }
    let p = crate::output::room_for(out, at, count)?;
    put_number(out, at, count, n);
    Ok(p.next)
}
