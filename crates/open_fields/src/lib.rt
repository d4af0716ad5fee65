// The bodies that hold fields, opened as messages.
// stays: a function a kind, a line each, since tls-parser has these names
#![tactic(auto)]

ghost use Rattle.std.specs.Prelude.{◌≡◌};
ghost use Rattle.refusal.specs.Answers.{giving, as_answer};
ghost use Rattle.read_others.specs.Body.{next_protocol, session_ticket};
ghost use Rattle.read_certs.specs.Certs.{certificate, certificate_request, status};
ghost use Rattle.grammar.specs.Forms.{reading};
ghost use Rattle.message.specs.declared.handshake.TlsMessageHandshake.TheVariants.{Certificate, CertificateRequest, CertificateStatus, KeyUpdate, NewSessionTicket, NextProtocol};
ghost use Rattle.wire.specs.Numbers.{number_at};

use message::handshake::TlsMessageHandshake;
use read_certs::certificate::parse_tls_certificate;
use read_certs::request::parse_tls_handshake_certificaterequest;
use read_certs::status::parse_tls_handshake_certificatestatus;
use read_others::next_protocol::parse_tls_handshake_next_protocol;
use read_others::ticket::parse_tls_newsessionticket;
use refusal::Refusal;
use wire::number::Width;

// Opens the first `len` bytes as a NewSessionTicket, or answers as its reader does.
pub fn parse_tls_handshake_msg_newsessionticket(
    i: &[u8],
    len: usize,
) -> Result<TlsMessageHandshake, Refusal>
    ensures { as_answer result ≡ giving (λ c. NewSessionTicket c) (session_ticket len i.now) }
{
    parse_tls_newsessionticket(i, len).map(TlsMessageHandshake::NewSessionTicket)
}

// Opens a body as a Certificate, with the refusals of its reader.
pub fn parse_tls_handshake_msg_certificate(i: &[u8]) -> Result<TlsMessageHandshake, Refusal>
    ensures { as_answer result ≡ giving (λ c. Certificate c) (reading certificate i.now) }
{
    parse_tls_certificate(i).map(TlsMessageHandshake::Certificate)
}

// Opens a body as a CertificateRequest, with the refusals of its reader.
pub fn parse_tls_handshake_msg_certificaterequest(i: &[u8]) -> Result<TlsMessageHandshake, Refusal>
    ensures { as_answer result ≡ giving (λ c. CertificateRequest c) (certificate_request i.now) }
{
    parse_tls_handshake_certificaterequest(i).map(TlsMessageHandshake::CertificateRequest)
}

// Opens a body as a CertificateStatus, with the refusals of its reader.
pub fn parse_tls_handshake_msg_certificatestatus(i: &[u8]) -> Result<TlsMessageHandshake, Refusal>
    ensures { as_answer result ≡ giving (λ c. CertificateStatus c) (reading status i.now) }
{
    parse_tls_handshake_certificatestatus(i).map(TlsMessageHandshake::CertificateStatus)
}

// Opens a body as a NextProtocol, with the refusals of its reader.
pub fn parse_tls_handshake_msg_next_protocol(i: &[u8]) -> Result<TlsMessageHandshake, Refusal>
    ensures { as_answer result ≡ giving (λ c. NextProtocol c) (reading next_protocol i.now) }
{
    parse_tls_handshake_next_protocol(i).map(TlsMessageHandshake::NextProtocol)
}

// Opens a body as a KeyUpdate, which is its first byte.
pub fn parse_tls_handshake_msg_key_update(i: &[u8]) -> Result<TlsMessageHandshake, Refusal>
    ensures { as_answer result ≡ giving (λ n. KeyUpdate n.value) (number_at 1 i.now 0) }
{
    let n = wire::number::parse_be(i, 0, Width::One)?;
    Ok(TlsMessageHandshake::KeyUpdate(n.value as u8))
}
