// The ServerHello of the versions 0x0300 to 0x0303 (RFC 5246 7.4.1.3).
ghost use Rattle.std.specs.Prelude.{◌≡◌};
ghost use Rattle.grammar.specs.Demand3.{BySplit, ByVersion};
ghost use Rattle.grammar.specs.Forms.{reading, by_version};
ghost use Rattle.grammar.specs.Hellos.{server_hello};
ghost use Rattle.grammar.specs.Reading.{last_at};
ghost use Rattle.read_server.specs.Server.{server, server_versions};
ghost use Rattle.wire.specs.Parts.{opt_part_of, part_of};
ghost use Rattle.refusal.specs.Answers.{as_answer};

use field::RuleName;
use grammar::OptPart;
use refusal::{Reason, Refusal};
use wire::number::Width;
use wire::view::View;

// Holds a ServerHello: tls-parser's fields, and where the tail begins.
#[derive(Clone, Copy)]
pub struct TlsServerHelloContents {
    pub version: u16,
    pub random: View,
    pub session_id: Option<View>,
    pub cipher: u16,
    pub compression: u8,
    pub ext: Option<View>,
    pub tail: usize,
}

// Without extensions they are never looked for.
fn extensions(i: &[u8], at: usize, has_ext: bool) -> OptPart
    ensures { result ≡ last_at (server_hello has_ext).block i.now at }
{
    if has_ext {
        grammar::opt_length_data(i, at, Width::Two, RuleName::Plain)
    } else {
        OptPart {
            view: None,
            next: at,
        }
    }
}

// Reads a ServerHello at any version, with extensions or without.
// stays: `server` of the theorems takes `has_ext`.
pub fn parse_tls_server_hello_tlsv12(
    i: &[u8],
    has_ext: bool,
) -> Result<TlsServerHelloContents, Refusal>
    ensures result_value { as_answer result ≡ reading (server has_ext) i.now }
    ensures by_split { BySplit (server has_ext) i.now }
{
    let start = read_start::parse_start(i)?;
    let cipher = wire::number::parse_be(i, start.next, Width::Two)?;
    let compression = wire::number::parse_be(i, cipher.next, Width::One)?;
    let ext = extensions(i, compression.next, has_ext);
    Ok(TlsServerHelloContents {
        version: start.version,
        random: start.random,
        session_id: start.session_id,
        cipher: cipher.value as u16,
        compression: compression.value as u8,
        ext: ext.view,
        tail: ext.next,
    })
}

// Reads a ServerHello as its version says, which is looked at before anything else.
#[tactic(auto, using(crate::proofs::Whole::demand3_by_version), unfolding(grammar::specs::Forms::by_version))]
pub fn parse_tls_handshake_server_hello(i: &[u8]) -> Result<TlsServerHelloContents, Refusal>
    ensures result_value { as_answer result ≡ by_version server_versions i.now }
    ensures by_version { ByVersion server_versions i.now }
{
    let version = wire::number::parse_be(i, 0, Width::Two)?;
    match version.value {
        registry::version::TLS12 | registry::version::TLS11 | registry::version::TLS10 => {
            parse_tls_server_hello_tlsv12(i, true)
        }
        registry::version::SSL30 => parse_tls_server_hello_tlsv12(i, false),
        _ => Err(refusal::refuse(Reason::Tag, 0, 0)),
    }
}

// Each accessor takes the bytes that the hello was read from; an absent part is the empty one.
// stays: a trait for these would have as many one-line getters as there are accessors.
impl TlsServerHelloContents {
    // Hands out the bytes of the random.
    pub fn random(self, body: &[u8]) -> &[u8]
        ensures { result.now ≡ part_of body.now self.random }
    {
        wire::view::part_of(body, self.random)
    }

    // Hands out the session id.
    pub fn session_id(self, body: &[u8]) -> &[u8]
        ensures { result.now ≡ opt_part_of body.now self.session_id }
    {
        wire::view::opt_part_of(body, self.session_id)
    }

    // Hands out the bytes of the extensions, without their length.
    pub fn ext(self, body: &[u8]) -> &[u8]
        ensures { result.now ≡ opt_part_of body.now self.ext }
    {
        wire::view::opt_part_of(body, self.ext)
    }
}
