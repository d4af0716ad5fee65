// The Certificate (RFC 5246 7.4.2): a chain of certificates.
ghost use Rattle.std.specs.Prelude.{◌≡◌, length};
ghost use Rattle.read_certs.specs.Certs.{certificate};
ghost use Rattle.grammar.specs.Forms.{reading};
ghost use Rattle.field.specs.Fields.{sized};
ghost use Rattle.list.specs.Items.{item_from, items, place};
ghost use Rattle.wire.specs.Parts.{part_of};
ghost use Rattle.refusal.specs.Answers.{as_answer};

use field::RuleName;
use refusal::Refusal;
use wire::number::Width;
use wire::view::{Part, View};

// Holds a Certificate: the chain's bytes, each certificate behind its length, and where the tail
// begins.
#[derive(Clone, Copy)]
pub struct TlsCertificateContents {
    pub cert_chain: View,
    pub tail: usize,
}

// Takes the chain behind its length of three bytes, without a look at the certificates in it.
#[tactic(auto, unfolding(grammar::specs::Forms::reading, grammar::specs::Reading::read, grammar::specs::Reading::fields_at))]
pub fn parse_tls_certificate(i: &[u8]) -> Result<TlsCertificateContents, Refusal>
    ensures { as_answer result ≡ reading certificate i.now }
{
    let p = field::length_data(i, 0, Width::Three, RuleName::Plain)?;
    Ok(TlsCertificateContents {
        cert_chain: p.view,
        tail: p.next,
    })
}

// Each takes the body that the contents were read from; a certificate's place is counted from the
// front of the chain.
// stays: a trait for these would have as many one-line getters as there are accessors
impl TlsCertificateContents {
    // Counts the certificates of the chain, up to the first that does not fit.
    pub fn cert_count(self, body: &[u8]) -> usize
        ensures { result ≡ length (items (sized 3) (part_of body.now self.cert_chain)) }
    {
        list::items::item_count(wire::view::part_of(body, self.cert_chain), Width::Three)
    }

    // The certificate at a place of the chain, found by walking.
    pub fn cert_at(self, body: &[u8], at: usize) -> Result<Part, Refusal>
        ensures { as_answer result ≡ place at (items (sized 3) (part_of body.now self.cert_chain)) }
    {
        list::items::item_at(wire::view::part_of(body, self.cert_chain), Width::Three, at)
    }

    // The certificate that begins at `from`, and where the next one does: a walk takes one call for
    // each.
    pub fn cert_from(self, body: &[u8], from: usize) -> Result<Part, Refusal>
        ensures { as_answer result ≡ item_from (sized 3) (part_of body.now self.cert_chain) from }
    {
        list::items::item_from(
            wire::view::part_of(body, self.cert_chain),
            from,
            Width::Three,
        )
    }
}
