// The bodies of hellos and of what asks for one, opened as messages.
// stays: a function a kind, a line each, since tls-parser has these names
#![tactic(auto)]

ghost use Rattle.std.specs.Prelude.{◌≡◌};
ghost use Rattle.read_others.specs.Body.{retry};
ghost use Rattle.read_client.specs.Client.{client, strict_client};
ghost use Rattle.grammar.specs.Forms.{reading};
ghost use Rattle.open_hellos.specs.HelloMessages.{server_message};
ghost use Rattle.message.specs.declared.handshake.TlsMessageHandshake.TheVariants.{ClientHello, HelloRequest, HelloRetryRequest};
ghost use Rattle.refusal.specs.Answers.{accepted, giving, as_answer};

use message::handshake::TlsMessageHandshake;
use read_server::tlsv12::parse_tls_handshake_server_hello;
use read_server::tlsv13draft18::parse_tls_server_hello_tlsv13draft18;
use refusal::Refusal;
use wire::number::Width;

// Opens any body as a HelloRequest; no byte of it is looked at.
pub fn parse_tls_handshake_msg_hello_request(i: &[u8]) -> Result<TlsMessageHandshake, Refusal>
    ensures { as_answer result ≡ accepted HelloRequest }
{
    Ok(TlsMessageHandshake::HelloRequest)
}

// Opens a body as a ClientHello, with the refusals of its reader.
pub fn parse_tls_handshake_msg_client_hello(i: &[u8]) -> Result<TlsMessageHandshake, Refusal>
    ensures { as_answer result ≡ giving (λ c. ClientHello c) (reading client i.now) }
{
    read_client::parse_tls_handshake_client_hello(i).map(TlsMessageHandshake::ClientHello)
}

// Opens a body as a ClientHello that matches exactly, with the refusals of the strict reader.
pub fn parse_tls_handshake_msg_client_hello_strict(i: &[u8]) -> Result<TlsMessageHandshake, Refusal>
    ensures { as_answer result ≡ giving (λ c. ClientHello c) (strict_client i.now) }
{
    read_client::parse_tls_handshake_client_hello_strict(i).map(TlsMessageHandshake::ClientHello)
}

// Opens a body as a ServerHello, and at 0x7f12 as that of draft 18, which
// `parse_tls_handshake_server_hello` does not open.
#[tactic(auto, unfolding(crate::specs::HelloMessages::server_message))]
pub fn parse_tls_handshake_msg_server_hello(i: &[u8]) -> Result<TlsMessageHandshake, Refusal>
    ensures { as_answer result ≡ server_message i.now }
{
    let version = wire::number::parse_be(i, 0, Width::Two)?;
    if version.value == registry::version::TLS13_DRAFT18 {
        parse_tls_server_hello_tlsv13draft18(i).map(TlsMessageHandshake::ServerHelloV13Draft18)
    } else {
        parse_tls_handshake_server_hello(i).map(TlsMessageHandshake::ServerHello)
    }
}

// Opens a body as a HelloRetryRequest, with the refusals of its reader.
pub fn parse_tls_handshake_msg_hello_retry_request(i: &[u8]) -> Result<TlsMessageHandshake, Refusal>
    ensures { as_answer result ≡ giving (λ c. HelloRetryRequest c) (reading retry i.now) }
{
    read_others::retry::parse_tls_hello_retry_request(i).map(TlsMessageHandshake::HelloRetryRequest)
}
