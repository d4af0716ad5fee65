// The HelloRetryRequest of TLS 1.3 draft 18 (draft-ietf-tls-tls13-18, 4.1.4).
ghost use Rattle.std.specs.Prelude.{◌≡◌};
ghost use Rattle.read_others.specs.Body.{retry};
ghost use Rattle.grammar.specs.Forms.{reading};
ghost use Rattle.refusal.specs.Answers.{as_answer};

use field::RuleName;
use refusal::Refusal;
use wire::number::Width;
use wire::view::View;

// Holds a HelloRetryRequest: tls-parser's fields, and where the tail begins.
#[derive(Clone, Copy)]
pub struct TlsHelloRetryRequestContents {
    pub version: u16,
    pub cipher: u16,
    pub ext: Option<View>,
    pub tail: usize,
}

// Takes the version and the cipher, two bytes each, and the extensions where they fit.
#[tactic(auto, using(field::proofs::Rules::number_field, field::proofs::Rules::number_field_no, wire::proofs::Numbers::number_value, wire::proofs::Numbers::below_limit), unfolding(grammar::specs::Forms::reading, grammar::specs::Reading::read, grammar::specs::Reading::fields_at))]
pub fn parse_tls_hello_retry_request(i: &[u8]) -> Result<TlsHelloRetryRequestContents, Refusal>
    ensures { as_answer result ≡ reading retry i.now }
{
    let version = wire::number::parse_be(i, 0, Width::Two)?;
    let cipher = wire::number::parse_be(i, version.next, Width::Two)?;
    let ext = grammar::opt_length_data(i, cipher.next, Width::Two, RuleName::Plain);
    Ok(TlsHelloRetryRequestContents {
        version: version.value as u16,
        cipher: cipher.value as u16,
        ext: ext.view,
        tail: ext.next,
    })
}
