// The optional last block of a grammar, read.
#![tactic(auto)]

ghost use Rattle.std.specs.Prelude.{◌≡◌};
ghost use Rattle.wire.specs.Numbers.{bytes_in};
ghost use Rattle.field.specs.Fields.{Field, rule_of};
ghost use Rattle.grammar.specs.Reading.{block_at};

use field::RuleName;
use wire::number::Width;
use wire::view::View;

// A block that may be missing, and the place past it.
#[derive(Clone, Copy)]
pub struct OptPart {
    pub view: Option<View>,
    pub next: usize,
}

// The block behind its length where both are there. Otherwise it is absent, and nothing is consumed
// for it.
pub fn opt_length_data(s: &[u8], at: usize, w: Width, rule: RuleName) -> OptPart
    ensures { result ≡ block_at (Field.vector (bytes_in w) (rule_of rule)) s.now at }
{
    match field::length_data(s, at, w, rule) {
        Ok(p) => OptPart {
            view: Some(p.view),
            next: p.next,
        },
        Err(_) => OptPart {
            view: None,
            next: at,
        },
    }
}
