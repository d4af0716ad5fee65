// What a ClientHello and a ServerHello begin with: version, random and session id (RFC 5246
// 7.4.1.2, 7.4.1.3).
#![tactic(auto)]

ghost use Rattle.std.specs.Prelude.{◌≡◌};
ghost use Rattle.grammar.specs.Forms.{absent_if_empty, reading};
ghost use Rattle.read_start.specs.Start.{hello_start};
ghost use Rattle.refusal.specs.Answers.{as_answer};

use field::RuleName;
use refusal::Refusal;
use wire::number::Width;
use wire::view::View;

// Holds version, random and session id of a hello, and the place behind them.
#[derive(Clone, Copy)]
pub struct Start {
    pub version: u16,
    pub random: View,
    pub session_id: Option<View>,
    pub next: usize,
}

// An id of no bytes is an absent one.
fn non_empty(v: View) -> Option<View>
    ensures { result ≡ absent_if_empty v }
{
    if v.len == 0 { None } else { Some(v) }
}

// Reads version, random and session id at the front of a hello.
#[tactic(auto, using(field::proofs::Rules::number_field, field::proofs::Rules::number_field_no, wire::proofs::Numbers::number_value, wire::proofs::Numbers::below_limit), unfolding(grammar::specs::Forms::reading, grammar::specs::Reading::read, grammar::specs::Reading::fields_at))]
pub fn parse_start(i: &[u8]) -> Result<Start, Refusal>
    ensures { as_answer result ≡ reading hello_start i.now }
{
    let version = wire::number::parse_be(i, 0, Width::Two)?;
    let random = field::take(i, version.next, registry::limit::RANDOM)?;
    let id = field::length_data(i, random.next, Width::One, RuleName::SessionId)?;
    Ok(Start {
        version: version.value as u16,
        random: random.view,
        session_id: non_empty(id.view),
        next: id.next,
    })
}
