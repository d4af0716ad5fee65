// Items with a tag, and data behind a length of two bytes: extensions and server names.
ghost use Rattle.std.specs.Prelude.{◌≡◌};
ghost use Rattle.wire.specs.Numbers.{bytes_in};
ghost use Rattle.list.specs.Tagged.{tagged_at, TaggedBelow};
ghost use Rattle.refusal.specs.Answers.{as_answer};

use field::RuleName;
use refusal::Refusal;
use wire::number::Width;
use wire::view::View;

// An item that was found: its tag, where its data lies, and the place past it.
#[derive(Clone, Copy)]
pub struct Tagged {
    pub tag: usize,
    pub view: View,
    pub next: usize,
}

// The item that begins at `at`, its tag of that width.
pub fn tagged_from(s: &[u8], at: usize, w: Width) -> Result<Tagged, Refusal>
    ensures result_value { as_answer result ≡ tagged_at (bytes_in w) s.now at }
    ensures tagged_below { TaggedBelow (bytes_in w) result }
{
    let t = wire::number::parse_be(s, at, w)?;
    let p = field::length_data(s, t.next, Width::Two, RuleName::Plain)?;
    Ok(Tagged {
        tag: t.value,
        view: p.view,
        next: p.next,
    })
}
