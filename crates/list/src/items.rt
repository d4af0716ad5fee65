// Items behind a length each: names and certificates.
ghost use Rattle.std.specs.Prelude.{◌≡◌, length};
ghost use Rattle.wire.specs.Numbers.{bytes_in};
ghost use Rattle.field.specs.Fields.{sized};
ghost use Rattle.list.specs.Items.{items, item_from, past_item, place};
ghost use Rattle.list.specs.Stepping.{MovesOn};
ghost use Rattle.refusal.specs.Answers.{as_answer};

use crate::steps::{self, Step};
use field::RuleName;
use refusal::{Reason, Refusal};
use wire::number::Width;
use wire::view::Part;

// The item that begins at `at`, with the place of the next one: a walk over the whole list takes
// one call an item.
pub fn item_from(s: &[u8], at: usize, w: Width) -> Result<Part, Refusal>
    ensures { as_answer result ≡ item_from (sized (bytes_in w)) s.now at }
{
    field::length_data(s, at, w, RuleName::Plain).map_err(|_| refusal::refuse(Reason::NoSuch, 0, 0))
}

// The walk over the items of a list, one each step.
#[derive(Clone, Copy)]
struct Items<'a> {
    s: &'a [u8],
    w: Width,
    ghost onward: { MovesOn (past_item (sized (bytes_in w)) s.now) },
}

impl Step for Items<'_> {
    ghost answered = { λ x. past_item (sized (bytes_in x.w)) x.s.now };

    #[inline(always)]
    fn past(&self, at: usize) -> Result<usize, Refusal> {
        Ok(item_from(self.s, at, self.w)?.next)
    }

    ghost moves_on = { λ x. x.onward };
}

// Counts the items of a list, up to the first that does not fit.
pub fn item_count(s: &[u8], w: Width) -> usize
    ensures { result ≡ length (items (sized (bytes_in w)) s.now) }
{
    steps::count(&Items { s, w }, 0).count
}

// The item at a place, found by walking.
pub fn item_at(s: &[u8], w: Width, at: usize) -> Result<Part, Refusal>
    ensures { as_answer result ≡ place at (items (sized (bytes_in w)) s.now) }
{
    let from = steps::skip(&Items { s, w }, at)?;
    item_from(s, from, w)
}
