// The bodies that are handed out whole, opened as messages: each is the first `len` bytes.
// stays: five names that differ in the kind, and `len` beside the bytes, are tls-parser's
#![tactic(auto, unfolding(crate::specs::Whole::whole_body))]

ghost use Rattle.std.specs.Prelude.{◌≡◌};
ghost use Rattle.message.specs.declared.handshake.TlsMessageHandshake.TheVariants.{CertificateVerify, ClientKeyExchange, Finished, ServerDone, ServerKeyExchange};
ghost use Rattle.message.specs.declared.keyexchange.TlsClientKeyExchangeContents.TheVariants.{Unknown};
ghost use Rattle.open_whole.specs.Whole.{whole_body};
ghost use Rattle.refusal.specs.Answers.{as_answer};

use message::handshake::TlsMessageHandshake;
use message::keyexchange::{TlsClientKeyExchangeContents, TlsServerKeyExchangeContents};
use refusal::Refusal;

// Opens the first `len` bytes as a ServerKeyExchange, or answers Incomplete.
pub fn parse_tls_handshake_msg_serverkeyexchange(
    i: &[u8],
    len: usize,
) -> Result<TlsMessageHandshake, Refusal>
    ensures { as_answer result ≡ whole_body (λ v. ServerKeyExchange (record { parameters = v })) len i.now }
{
    let parameters = field::take(i, 0, len)?.view;
    Ok(TlsMessageHandshake::ServerKeyExchange(TlsServerKeyExchangeContents { parameters }))
}

// Opens the first `len` bytes as a ServerDone, or answers Incomplete.
pub fn parse_tls_handshake_msg_serverdone(
    i: &[u8],
    len: usize,
) -> Result<TlsMessageHandshake, Refusal>
    ensures { as_answer result ≡ whole_body (λ v. ServerDone v) len i.now }
{
    Ok(TlsMessageHandshake::ServerDone(field::take(i, 0, len)?.view))
}

// Opens the first `len` bytes as a CertificateVerify, or answers Incomplete.
pub fn parse_tls_handshake_msg_certificateverify(
    i: &[u8],
    len: usize,
) -> Result<TlsMessageHandshake, Refusal>
    ensures { as_answer result ≡ whole_body (λ v. CertificateVerify v) len i.now }
{
    Ok(TlsMessageHandshake::CertificateVerify(field::take(i, 0, len)?.view))
}

// Opens the first `len` bytes as a raw ClientKeyExchange: its method is not known here.
pub fn parse_tls_handshake_msg_clientkeyexchange(
    i: &[u8],
    len: usize,
) -> Result<TlsMessageHandshake, Refusal>
    ensures { as_answer result ≡ whole_body (λ v. ClientKeyExchange (Unknown v)) len i.now }
{
    let contents = TlsClientKeyExchangeContents::Unknown(field::take(i, 0, len)?.view);
    Ok(TlsMessageHandshake::ClientKeyExchange(contents))
}

// Opens the first `len` bytes as a Finished, or answers Incomplete.
pub fn parse_tls_handshake_msg_finished(
    i: &[u8],
    len: usize,
) -> Result<TlsMessageHandshake, Refusal>
    ensures { as_answer result ≡ whole_body (λ v. Finished v) len i.now }
{
    Ok(TlsMessageHandshake::Finished(field::take(i, 0, len)?.view))
}
