// The ServerHello of TLS 1.3 draft 18, version 0x7f12 (draft-ietf-tls-tls13-18, 4.1.3).
ghost use Rattle.std.specs.Prelude.{◌≡◌};
ghost use Rattle.grammar.specs.Demand3.{BySplit};
ghost use Rattle.grammar.specs.Forms.{reading};
ghost use Rattle.read_server.specs.Server.{draft18};
ghost use Rattle.wire.specs.Parts.{opt_part_of, part_of};
ghost use Rattle.refusal.specs.Answers.{as_answer};

use field::RuleName;
use refusal::Refusal;
use wire::number::Width;
use wire::view::View;

// Holds a ServerHello of draft 18: tls-parser's fields, and where the tail begins.
#[derive(Clone, Copy)]
pub struct TlsServerHelloV13Draft18Contents {
    pub version: u16,
    pub random: View,
    pub cipher: u16,
    pub ext: Option<View>,
    pub tail: usize,
}

// Reads a ServerHello of draft 18, whatever version it has.
#[tactic(auto, using(field::proofs::Rules::number_field, field::proofs::Rules::number_field_no, wire::proofs::Numbers::number_value, wire::proofs::Numbers::below_limit), unfolding(grammar::specs::Forms::reading, grammar::specs::Reading::read, grammar::specs::Reading::fields_at))]
pub fn parse_tls_server_hello_tlsv13draft18(
    i: &[u8],
) -> Result<TlsServerHelloV13Draft18Contents, Refusal>
    ensures result_value { as_answer result ≡ reading draft18 i.now }
    ensures by_split { BySplit draft18 i.now }
{
    let version = wire::number::parse_be(i, 0, Width::Two)?;
    let random = field::take(i, version.next, registry::limit::RANDOM)?;
    let cipher = wire::number::parse_be(i, random.next, Width::Two)?;
    let ext = grammar::opt_length_data(i, cipher.next, Width::Two, RuleName::Plain);
    Ok(TlsServerHelloV13Draft18Contents {
        version: version.value as u16,
        random: random.view,
        cipher: cipher.value as u16,
        ext: ext.view,
        tail: ext.next,
    })
}

// Each accessor takes the bytes that the hello was read from; absent extensions are the empty part.
// stays: a trait for these would have as many one-line getters as there are accessors.
impl TlsServerHelloV13Draft18Contents {
    // Hands out the bytes of the random.
    pub fn random(self, body: &[u8]) -> &[u8]
        ensures { result.now ≡ part_of body.now self.random }
    {
        wire::view::part_of(body, self.random)
    }

    // Hands out the bytes of the extensions, without their length.
    pub fn ext(self, body: &[u8]) -> &[u8]
        ensures { result.now ≡ opt_part_of body.now self.ext }
    {
        wire::view::opt_part_of(body, self.ext)
    }
}
