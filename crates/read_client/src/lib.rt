// The ClientHello (RULES 3.2), the strict one (RULES 3.14), and what tls-parser's trait of that
// name hands out of it.
#![tactic(auto)]

ghost use Rattle.std.specs.Prelude.{◌≡◌, drop, length};
ghost use Rattle.field.specs.Fields.{Field};
ghost use Rattle.grammar.specs.Demand3.{BySplit};
ghost use Rattle.grammar.specs.Forms.{reading};
ghost use Rattle.grammar.specs.Hellos.{client_to_fill};
ghost use Rattle.grammar.specs.Strict.{ByExactSplit};
ghost use Rattle.read_client.specs.Client.{client, exactness, gmt_unix_time, rand_time, strict_client};
ghost use Rattle.list.specs.Items.{items, number_place};
ghost use Rattle.refusal.specs.Answers.{as_answer};
ghost use Rattle.refusal.specs.Refusals.{refusal};
ghost use Rattle.refusal.specs.declared.Reason.TheVariants.{LengthValue};
ghost use Rattle.wire.specs.Parts.{opt_part_of, part_of};

use field::RuleName;
use refusal::{Reason, Refusal};
use wire::number::{Number, Width};
use wire::view::View;

// Holds a ClientHello: tls-parser's fields, and where the tail begins.
#[derive(Clone, Copy)]
pub struct TlsClientHelloContents {
    pub version: u16,
    pub random: View,
    pub session_id: Option<View>,
    pub ciphers: View,
    pub comp: View,
    pub ext: Option<View>,
    pub tail: usize,
}

// The first of the three that keeps a ClientHello from being exact (RULES 3.14).
#[derive(Clone, Copy, Debug, PartialEq, Eq)]
pub enum Inexact {
    NoCiphers,
    NoMethods,
    HasTail,
}

// Reads a ClientHello's body field by field, and its extensions where they fit.
#[tactic(auto, unfolding(grammar::specs::Forms::reading, grammar::specs::Reading::read, grammar::specs::Reading::fields_at))]
pub fn parse_tls_handshake_client_hello(i: &[u8]) -> Result<TlsClientHelloContents, Refusal>
    ensures result_value { as_answer result ≡ reading client i.now }
    ensures by_split { BySplit client i.now }
{
    let start = read_start::parse_start(i)?;
    let ciphers = field::length_data(i, start.next, Width::Two, RuleName::Ciphers)?;
    let comp = field::length_data(i, ciphers.next, Width::One, RuleName::Methods)?;
    let ext = grammar::opt_length_data(i, comp.next, Width::Two, RuleName::Plain);
    Ok(TlsClientHelloContents {
        version: start.version,
        random: start.random,
        session_id: start.session_id,
        ciphers: ciphers.view,
        comp: comp.view,
        ext: ext.view,
        tail: ext.next,
    })
}

// The refusal of a hello that does not match exactly: LengthValue at a place.
fn not_exact(at: usize) -> Refusal
    ensures { result ≡ refusal LengthValue at 0 }
{
    refusal::refuse(Reason::LengthValue, at, 0)
}

// Reads a ClientHello's body as `parse_tls_handshake_client_hello` does, and takes it where it
// matches RFC 5246 7.4.1.2 exactly: no empty list of ciphers or methods, and no byte behind it.
pub fn parse_tls_handshake_client_hello_strict(i: &[u8]) -> Result<TlsClientHelloContents, Refusal>
    ensures result_value { as_answer result ≡ strict_client i.now }
    ensures by_exact_split { ByExactSplit client client_to_fill i.now }
{
    let c = parse_tls_handshake_client_hello(i)?;
    match c.exactness(i) {
        Ok(()) => Ok(c),
        Err(Inexact::NoCiphers) => Err(not_exact(c.ciphers.start - 2)),
        Err(Inexact::NoMethods) => Err(not_exact(c.comp.start - 1)),
        Err(Inexact::HasTail) => Err(not_exact(c.tail)),
    }
}

// Each accessor takes the bytes that the hello was read from. A view outside the bytes lent is the
// empty part.
// stays: a trait for these would have as many one-line getters as there are accessors.
impl TlsClientHelloContents {
    // Tells the version that the hello has.
    pub fn version(self) -> u16
        ensures { result ≡ self.version }
    {
        self.version
    }

    // Hands out the bytes of the random.
    pub fn random(self, body: &[u8]) -> &[u8]
        ensures { result.now ≡ part_of body.now self.random }
    {
        wire::view::part_of(body, self.random)
    }

    // The number of a random of four bytes; of any other, and so of every hello that is read, 0.
    pub fn rand_time(self, body: &[u8]) -> u32
        ensures { result ≡ rand_time (part_of body.now self.random) }
    {
        let random = self.random(body);
        if random.len() != 4 {
            return 0;
        }
        self.gmt_unix_time(body)
    }

    // The first four bytes of the random (RFC 5246 7.4.1.2); 0 where there are not as many.
    #[tactic(auto, using(wire::proofs::Numbers::number_is, wire::proofs::Numbers::number_short, wire::proofs::Numbers::number_value))]
    pub fn gmt_unix_time(self, body: &[u8]) -> u32
        ensures { result ≡ gmt_unix_time (part_of body.now self.random) }
    {
        wire::number::parse_be(self.random(body), 0, Width::Four).map_or(0, |n| n.value as u32)
    }

    // The bytes of the random behind the first four.
    pub fn rand_bytes(self, body: &[u8]) -> &[u8]
        ensures { result.now ≡ drop 4 (part_of body.now self.random) }
    {
        wire::view::rest_of(self.random(body), 4)
    }

    // Hands out the session id, or the empty part where it is absent.
    pub fn session_id(self, body: &[u8]) -> &[u8]
        ensures { result.now ≡ opt_part_of body.now self.session_id }
    {
        wire::view::opt_part_of(body, self.session_id)
    }

    // Counts the ciphers, each two bytes.
    pub fn cipher_count(self, body: &[u8]) -> usize
        ensures { result ≡ length (items (Field.fixed 2) (part_of body.now self.ciphers)) }
    {
        list::numbers::number_count(wire::view::part_of(body, self.ciphers), Width::Two)
    }

    // The cipher at a place, and the place past it in the list.
    pub fn cipher_at(self, body: &[u8], at: usize) -> Result<Number, Refusal>
        ensures { as_answer result ≡ number_place at 2 (part_of body.now self.ciphers) }
    {
        list::numbers::number_at(wire::view::part_of(body, self.ciphers), Width::Two, at)
    }

    // Counts the compression methods, each one byte.
    pub fn comp_count(self, body: &[u8]) -> usize
        ensures { result ≡ length (items (Field.fixed 1) (part_of body.now self.comp)) }
    {
        list::numbers::number_count(wire::view::part_of(body, self.comp), Width::One)
    }

    // The method at a place, and the place past it in the list.
    pub fn comp_at(self, body: &[u8], at: usize) -> Result<Number, Refusal>
        ensures { as_answer result ≡ number_place at 1 (part_of body.now self.comp) }
    {
        list::numbers::number_at(wire::view::part_of(body, self.comp), Width::One, at)
    }

    // Hands out the extensions, or the empty part where they are absent; `ext` tells the two apart.
    pub fn ext(self, body: &[u8]) -> &[u8]
        ensures { result.now ≡ opt_part_of body.now self.ext }
    {
        wire::view::opt_part_of(body, self.ext)
    }

    // Tells whether the hello is exact, or the first of the three that keeps it from that; of one
    // that was read, the strict reader goes by it.
    pub fn exactness(self, body: &[u8]) -> Result<(), Inexact>
        ensures { result ≡ exactness body.now self }
    {
        if wire::view::part_of(body, self.ciphers).is_empty() {
            return Err(Inexact::NoCiphers);
        }
        if wire::view::part_of(body, self.comp).is_empty() {
            return Err(Inexact::NoMethods);
        }
        if self.tail < body.len() {
            return Err(Inexact::HasTail);
        }
        Ok(())
    }
}
