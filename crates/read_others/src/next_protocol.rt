// The NextProtocol (draft-agl-tls-nextprotoneg-03).
ghost use Rattle.std.specs.Prelude.{◌≡◌};
ghost use Rattle.read_others.specs.Body.{next_protocol};
ghost use Rattle.grammar.specs.Forms.{reading};
ghost use Rattle.refusal.specs.Answers.{as_answer};

use field::RuleName;
use refusal::Refusal;
use wire::number::Width;
use wire::view::View;

// Holds a NextProtocol: tls-parser's fields, and where the tail begins.
#[derive(Clone, Copy)]
pub struct TlsNextProtocolContent {
    pub selected_protocol: View,
    pub padding: View,
    pub tail: usize,
}

// Takes the protocol and the padding, each behind its length of one byte.
#[tactic(auto, unfolding(grammar::specs::Forms::reading, grammar::specs::Reading::read, grammar::specs::Reading::fields_at))]
pub fn parse_tls_handshake_next_protocol(i: &[u8]) -> Result<TlsNextProtocolContent, Refusal>
    ensures { as_answer result ≡ reading next_protocol i.now }
{
    let selected = field::length_data(i, 0, Width::One, RuleName::Plain)?;
    let padding = field::length_data(i, selected.next, Width::One, RuleName::Plain)?;
    Ok(TlsNextProtocolContent {
        selected_protocol: selected.view,
        padding: padding.view,
        tail: padding.next,
    })
}
