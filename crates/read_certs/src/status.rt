// The CertificateStatus (RFC 6066 8).
ghost use Rattle.std.specs.Prelude.{◌≡◌};
ghost use Rattle.read_certs.specs.Certs.{status};
ghost use Rattle.grammar.specs.Forms.{reading};
ghost use Rattle.refusal.specs.Answers.{as_answer};

use field::RuleName;
use refusal::Refusal;
use wire::number::Width;
use wire::view::View;

// Holds a CertificateStatus: tls-parser's fields, and where the tail begins.
#[derive(Clone, Copy)]
pub struct TlsCertificateStatusContents {
    pub status_type: u8,
    pub blob: View,
    pub tail: usize,
}

// Takes the type, one byte, and the response behind its length of three bytes.
#[tactic(auto, using(field::proofs::Rules::number_field, field::proofs::Rules::number_field_no, wire::proofs::Numbers::number_value, wire::proofs::Numbers::below_limit), unfolding(grammar::specs::Forms::reading, grammar::specs::Reading::read, grammar::specs::Reading::fields_at))]
pub fn parse_tls_handshake_certificatestatus(
    i: &[u8],
) -> Result<TlsCertificateStatusContents, Refusal>
    ensures { as_answer result ≡ reading status i.now }
{
    let status_type = wire::number::parse_be(i, 0, Width::One)?;
    let response = field::length_data(i, status_type.next, Width::Three, RuleName::Plain)?;
    Ok(TlsCertificateStatusContents {
        status_type: status_type.value as u8,
        blob: response.view,
        tail: response.next,
    })
}
