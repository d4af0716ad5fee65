// The names of a list of server names (RFC 6066 3), each a type of a byte and the name behind a
// length of two. A list is lent as its own bytes; it goes up to the first name that does not fit,
// and the list of an extension that was read has none such.
ghost use Rattle.std.specs.Prelude.{◌≡◌, length};
ghost use Rattle.list.specs.Items.{place};
ghost use Rattle.list.specs.Stepping.{MovesOn};
ghost use Rattle.list.specs.Tagged.{any_data, TaggedBelow};
ghost use Rattle.read_ext.specs.Kinds.{names_fill};
ghost use Rattle.read_ext.specs.Extensions.{reach_in, name_from, names_in, past_name};
ghost use Rattle.refusal.specs.Answers.{as_answer};

use list::steps::{self, Counted, Step};
use list::tagged::Tagged;
use refusal::{Reason, Refusal};
use wire::number::Width;

// The name that begins at `at`, its type as the tag, with the place of the next one; NoSuch where
// none fits.
pub fn name_from(list: &[u8], at: usize) -> Result<Tagged, Refusal>
    ensures result_value { as_answer result ≡ name_from list.now at }
    ensures tagged_below { TaggedBelow 1 result }
{
    let none = refusal::refuse(Reason::NoSuch, 0, 0);
    list::tagged::tagged_from(list, at, Width::One).map_err(|_| none)
}

// The walk over the names of a list, one each step.
#[derive(Clone, Copy)]
struct Names<'a> {
    list: &'a [u8],
    ghost onward: { MovesOn (past_name list.now) },
}

impl Step for Names<'_> {
    ghost answered = { λ x. past_name x.list.now };

    #[inline(always)]
    fn past(&self, at: usize) -> Result<usize, Refusal> {
        Ok(name_from(self.list, at)?.next)
    }

    ghost moves_on = { λ x. x.onward };
}

// Counts the names up to the first that does not fit.
fn count_names(list: &[u8]) -> Counted
    ensures { result ≡ reach_in 1 any_data list.now }
{
    steps::count(&Names { list }, 0)
}

// Whether names fill the bytes, which may be none.
pub fn fill(list: &[u8]) -> bool
    ensures { result ≡ names_fill list.now }
{
    count_names(list).end == list.len()
}

// Counts the names of a list.
pub fn name_count(list: &[u8]) -> usize
    ensures { result ≡ length (names_in list.now) }
{
    count_names(list).count
}

// The name at a place, counted from 0, found by walking; NoSuch from the count on.
pub fn name_at(list: &[u8], n: usize) -> Result<Tagged, Refusal>
    ensures { as_answer result ≡ place n (names_in list.now) }
{
    let from = steps::skip(&Names { list }, n)?;
    name_from(list, from)
}
