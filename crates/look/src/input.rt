// Reading.
ghost use Rattle.std.specs.Prelude.{true, ◌≡◌, ◌≤◌, IfOk, drop, length};
ghost use Rattle.wire.specs.Parts.{part_of};

use std::io::{self, Read};
use wire::view::{View, part_of, rest_of};

// The bytes of a window. A whole record has at most 16,645.
const WINDOW: usize = 65536;

// Reads until `buf` is full or the input ends, and returns how many bytes it put at its start.
// stays: no method of `Read` does: `read_exact` refuses what ends early, `read_to_end` has a heap
fn read_full(from: &mut impl Read, buf: &mut [u8]) -> io::Result<usize>
    ensures { IfOk result (λ n. n ≤ length buf.new) }
{
    let mut done = 0;
    while done < buf.len() {
        let n = from.read(&mut buf[done..])?;
        if n == 0 {
            break;
        }
        done += n;
    }
    Ok(done)
}

// What is held of the input: of a window the first `have` bytes, the next record beginning at `at`.
// stays: a buffer and its length: there is no heap, and no slice can borrow from its struct
#[derive(Clone, Copy)]
pub(crate) struct Window {
    bytes: [u8; WINDOW],
    have: usize,
    pub(crate) at: usize,
}

impl Window {
    // One that holds nothing yet.
    pub(crate) fn new() -> Self
        ensures { (result.have ≡ 0) × (result.at ≡ 0) }
    {
        Window {
            bytes: [0; WINDOW],
            have: 0,
            at: 0,
        }
    }

    // The bytes that were read.
    pub(crate) fn filled(&self) -> &[u8]
        ensures { result.now ≡ part_of self.now.bytes (record { start = 0; len = self.now.have }) }
    {
        part_of(
            &self.bytes,
            View {
                start: 0,
                len: self.have,
            },
        )
    }

    // Those from the next record on.
    pub(crate) fn rest(&self) -> &[u8]
        ensures { result.now ≡ drop self.now.at (part_of self.now.bytes (record { start = 0; len = self.now.have })) }
    {
        rest_of(self.filled(), self.at)
    }

    // Puts the rest at the front, fills the window up behind it, and tells whether any byte came.
    pub(crate) fn refill(&mut self, from: &mut impl Read) -> io::Result<bool>
        ensures { IfOk result (λ came. came ≡ true → self.new.at ≡ 0) }
    {
        let mut next = [0; WINDOW];
        let rest = self.rest();
        let kept = rest.len();
        if kept >= WINDOW {
            return Ok(false);
        }
        next[..kept].copy_from_slice(rest);
        let more = read_full(from, &mut next[kept..])?;
        if more == 0 {
            return Ok(false);
        }
        self.bytes = next;
        self.have = kept.wrapping_add(more);
        self.at = 0;
        Ok(true)
    }
}
