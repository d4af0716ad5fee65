// The CertificateRequest (RFC 5246 7.4.4), and the form of TLS 1.0 and 1.1 that has no signature
// pairs (RFC 4346 7.4.4).
ghost use Rattle.std.specs.Prelude.{◌≡◌, length};
ghost use Rattle.read_certs.specs.Certs.{certificate_request, request};
ghost use Rattle.field.specs.Fields.{Field, sized};
ghost use Rattle.grammar.specs.Forms.{reading};
ghost use Rattle.list.specs.Items.{item_from, items, number_place, place};
ghost use Rattle.wire.specs.Parts.{opt_part_of, part_of};
ghost use Rattle.refusal.specs.Answers.{as_answer};

use field::RuleName;
use refusal::{Reason, Refusal};
use wire::number::{Number, Width};
use wire::view::{Part, View};

// Holds a CertificateRequest: the lists' bytes, and where the tail begins.
#[derive(Clone, Copy)]
pub struct TlsCertificateRequestContents {
    pub cert_types: View,
    pub sig_hash_algs: Option<View>,
    pub unparsed_ca: View,
    pub tail: usize,
}

// The long form, with signature pairs, or the short one, without them.
// stays: `request` of the theorems takes the flag
fn parse_certrequest(i: &[u8], long: bool) -> Result<TlsCertificateRequestContents, Refusal>
    ensures { as_answer result ≡ reading (request long) i.now }
{
    let types = field::length_data(i, 0, Width::One, RuleName::Plain)?;
    let (sig_hash_algs, next) = if long {
        let pairs = field::length_data(i, types.next, Width::Two, RuleName::Plain)?;
        (Some(pairs.view), pairs.next)
    } else {
        (None, types.next)
    };
    let names = field::length_data(i, next, Width::Two, RuleName::Plain)?;
    Ok(TlsCertificateRequestContents {
        cert_types: types.view,
        sig_hash_algs,
        unparsed_ca: names.view,
        tail: names.next,
    })
}

// The short form is taken only where the long one is refused; if both are, it is Complete.
// stays: `or_else` would be shorter; the form is the one that RULES 10.12 sets
#[tactic(auto, unfolding(crate::specs::Certs::certificate_request))]
pub fn parse_tls_handshake_certificaterequest(
    i: &[u8],
) -> Result<TlsCertificateRequestContents, Refusal>
    ensures { as_answer result ≡ certificate_request i.now }
{
    let Ok(long) = parse_certrequest(i, true) else {
        let Ok(short) = parse_certrequest(i, false) else {
            return Err(refusal::refuse(Reason::Complete, 0, 0));
        };
        return Ok(short);
    };
    Ok(long)
}

// Each takes the body that the contents were read from. Absent signature pairs are none.
// stays: a trait for these would have as many one-line getters as there are accessors
impl TlsCertificateRequestContents {
    // Counts the certificate types, each one byte.
    pub fn type_count(self, body: &[u8]) -> usize
        ensures { result ≡ length (items (Field.fixed 1) (part_of body.now self.cert_types)) }
    {
        list::numbers::number_count(wire::view::part_of(body, self.cert_types), Width::One)
    }

    // Reads the certificate type at a place of the list.
    pub fn type_at(self, body: &[u8], at: usize) -> Result<Number, Refusal>
        ensures { as_answer result ≡ number_place at 1 (part_of body.now self.cert_types) }
    {
        list::numbers::number_at(wire::view::part_of(body, self.cert_types), Width::One, at)
    }

    // Counts the signature pairs; an odd byte after them is dropped.
    pub fn sig_count(self, body: &[u8]) -> usize
        ensures { result ≡ length (items (Field.fixed 2) (opt_part_of body.now self.sig_hash_algs)) }
    {
        let sigs = wire::view::opt_part_of(body, self.sig_hash_algs);
        list::numbers::number_count(sigs, Width::Two)
    }

    // Reads the signature pair at a place of the list, as a number of two bytes.
    pub fn sig_at(self, body: &[u8], at: usize) -> Result<Number, Refusal>
        ensures { as_answer result ≡ number_place at 2 (opt_part_of body.now self.sig_hash_algs) }
    {
        let sigs = wire::view::opt_part_of(body, self.sig_hash_algs);
        list::numbers::number_at(sigs, Width::Two, at)
    }

    // Counts the names of authorities, up to the first that does not fit.
    pub fn ca_count(self, body: &[u8]) -> usize
        ensures { result ≡ length (items (sized 2) (part_of body.now self.unparsed_ca)) }
    {
        list::items::item_count(wire::view::part_of(body, self.unparsed_ca), Width::Two)
    }

    // The name at a place of the list, found by walking; its place is counted from the front of the
    // list.
    pub fn ca_at(self, body: &[u8], at: usize) -> Result<Part, Refusal>
        ensures { as_answer result ≡ place at (items (sized 2) (part_of body.now self.unparsed_ca)) }
    {
        list::items::item_at(wire::view::part_of(body, self.unparsed_ca), Width::Two, at)
    }

    // The name that begins at `from`, and where the next one does: a walk takes one call for each.
    pub fn ca_from(self, body: &[u8], from: usize) -> Result<Part, Refusal>
        ensures { as_answer result ≡ item_from (sized 2) (part_of body.now self.unparsed_ca) from }
    {
        list::items::item_from(
            wire::view::part_of(body, self.unparsed_ca),
            from,
            Width::Two,
        )
    }
}
