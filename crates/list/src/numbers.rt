// Numbers of one width: ciphers, methods, signature pairs, certificate types. Found without
// walking.
ghost use Rattle.std.specs.Prelude.{◌≡◌, length};
ghost use Rattle.wire.specs.Numbers.{bytes_in};
ghost use Rattle.field.specs.Fields.{Field};
ghost use Rattle.list.specs.Items.{items, number_place};
ghost use Rattle.refusal.specs.Answers.{as_answer};

use refusal::{Reason, Refusal};
use wire::number::{Number, Width};

// Counts the numbers of a list; bytes that are too few for one more are dropped.
pub fn number_count(s: &[u8], w: Width) -> usize
    ensures { result ≡ length (items (Field.fixed (bytes_in w)) s.now) }
{
    s.len() / wire::number::width_bytes(w)
}

// Reads the number at a place, counted from 0, and answers NoSuch from the count on.
pub fn number_at(s: &[u8], w: Width, at: usize) -> Result<Number, Refusal>
    ensures { as_answer result ≡ number_place at (bytes_in w) s.now }
{
    if number_count(s, w) <= at {
        return Err(refusal::refuse(Reason::NoSuch, 0, 0));
    }
    wire::number::parse_be(s, at * wire::number::width_bytes(w), w)
}
