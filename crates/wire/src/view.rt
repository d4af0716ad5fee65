// A part of the caller's own bytes, named by numbers.
ghost use Rattle.std.specs.Prelude.{◌≡◌, ◌+◌, drop};
ghost use Rattle.wire.specs.Parts.{opt_part_of, part_at, part_of};
ghost use Rattle.refusal.specs.Answers.{as_answer};

use refusal::{Reason, Refusal};

// `len` bytes from `start` on.
// stays: no slice, since C and the theorems are told the place of a part (`part_of`, RULES 2.6).
#[derive(Clone, Copy)]
pub struct View {
    pub start: usize,
    pub len: usize,
}

// A part that was found, and the place past it.
#[derive(Clone, Copy)]
pub struct Part {
    pub view: View,
    pub next: usize,
}

// The part of `body` that `v` names, or the empty part where `v` lies outside.
pub fn part_of(body: &[u8], v: View) -> &[u8]
    ensures { result.now ≡ part_of body.now v }
{
    rest_of(body, v.start).get(..v.len).unwrap_or(&[])
}

// The part of `body` that `v` names, or the empty part where it is absent or lies outside.
pub fn opt_part_of(body: &[u8], v: Option<View>) -> &[u8]
    ensures { result.now ≡ opt_part_of body.now v }
{
    v.map_or(&[], |p| part_of(body, p))
}

// The bytes from `from` on; none where that lies outside.
pub fn rest_of(s: &[u8], from: usize) -> &[u8]
    ensures { result.now ≡ drop from s.now }
{
    s.get(from..).unwrap_or(&[])
}

// The bytes behind the part that `v` names; none where that lies outside.
pub fn behind(s: &[u8], v: View) -> &[u8]
    ensures { result.now ≡ drop (v.start + v.len) s.now }
{
    let rest = rest_of(s, v.start);
    rest_of(rest, v.len)
}

// The `n` bytes from `at` on, or the refusal `past` where they run past the end.
// stays: bytes and place are two parameters, as C has them; one struct would be made anew a step.
pub fn take_or(s: &[u8], at: usize, n: usize, past: Reason) -> Result<Part, Refusal>
    ensures { as_answer result ≡ part_at past s.now at n }
{
    if s.len() < at {
        return Err(refusal::refuse(past, at, n));
    }
    let left = s.len() - at;
    if left < n {
        return Err(refusal::refuse(past, at, n - left));
    }
    Ok(Part {
        view: View { start: at, len: n },
        next: at + n,
    })
}
