// Bytes written into a lent output.
ghost use Rattle.std.specs.Prelude.{◌≡◌, ◌+◌, ◌≤◌, length};
ghost use Rattle.refusal.specs.Answers.{Answer, as_answer};
ghost use Rattle.wire.specs.Puts.{put, room, room_at, written};

use crate::view::Part;
use refusal::{Reason, Refusal};

// The `n` bytes from `at` on, or NoRoom where they run past the end.
pub fn room_for(out: &[u8], at: usize, n: usize) -> Result<Part, Refusal>
    ensures { as_answer result ≡ room_at out.now at n }
{
    crate::view::take_or(out, at, n, Reason::NoRoom).map_err(|_| refusal::unplaced(Reason::NoRoom))
}

// Sets the bytes from `at` on to those of `src`.
// stays: `copy_from_slice` calls `memmove`, and the archive for C needs no library.
fn put_bytes(out: &mut [u8], at: usize, src: &[u8])
    requires { at + length src.now ≤ length out.old }
    ensures { out.new ≡ put out.old at src.now }
{
    for k in 0..src.len() {
        out[at + k] = src[k];
    }
}

// Copies `src` to a place, or NoRoom. A refusal changes no byte.
pub fn gen_bytes(out: &mut [u8], at: usize, src: &[u8]) -> Result<usize, Refusal>
    ensures result_value { as_answer result ≡ room (Answer.accepted src.now) at out.old }
    ensures out_after { out.new ≡ written (Answer.accepted src.now) at out.old }
{
    let p = room_for(out, at, src.len())?;
    put_bytes(out, at, src);
    Ok(p.next)
}
