// A handshake message, one case for each kind that is opened.
ghost use Rattle.std.specs.Prelude.{◌≡◌, drop};
ghost use Rattle.message.specs.Messages.{exchange_tail, tail_of};

use crate::keyexchange::{TlsClientKeyExchangeContents, TlsServerKeyExchangeContents};
use read_certs::certificate::TlsCertificateContents;
use read_certs::request::TlsCertificateRequestContents;
use read_certs::status::TlsCertificateStatusContents;
use read_client::TlsClientHelloContents;
use read_others::next_protocol::TlsNextProtocolContent;
use read_others::retry::TlsHelloRetryRequestContents;
use read_others::ticket::TlsNewSessionTicketContent;
use read_server::tlsv12::TlsServerHelloContents;
use read_server::tlsv13draft18::TlsServerHelloV13Draft18Contents;
use refusal::Refusal;
use wire::view::View;

// Holds a message by its kind; every view in it is of the message's body.
#[derive(Clone, Copy)]
pub enum TlsMessageHandshake {
    HelloRequest,
    ClientHello(TlsClientHelloContents),
    ServerHello(TlsServerHelloContents),
    ServerHelloV13Draft18(TlsServerHelloV13Draft18Contents),
    NewSessionTicket(TlsNewSessionTicketContent),
    EndOfEarlyData,
    HelloRetryRequest(TlsHelloRetryRequestContents),
    Certificate(TlsCertificateContents),
    ServerKeyExchange(TlsServerKeyExchangeContents),
    CertificateRequest(TlsCertificateRequestContents),
    ServerDone(View),
    CertificateVerify(View),
    ClientKeyExchange(TlsClientKeyExchangeContents),
    Finished(View),
    CertificateStatus(TlsCertificateStatusContents),
    NextProtocol(TlsNextProtocolContent),
    KeyUpdate(u8),
}

// The number of each kind, by which it is told and heard: its type, and of a ServerHello of draft
// 18 its version.
// stays: the C library matches numbers of a C call on these, and a pattern takes no cast.
pub const HELLO_REQUEST: usize = registry::handshake::HELLO_REQUEST as usize;

pub const CLIENT_HELLO: usize = registry::handshake::CLIENT_HELLO as usize;

pub const SERVER_HELLO: usize = registry::handshake::SERVER_HELLO as usize;

pub const SERVER_HELLO_DRAFT18: usize = registry::version::TLS13_DRAFT18;

pub const NEW_SESSION_TICKET: usize = registry::handshake::NEW_SESSION_TICKET as usize;

pub const END_OF_EARLY_DATA: usize = registry::handshake::END_OF_EARLY_DATA as usize;

pub const HELLO_RETRY_REQUEST: usize = registry::handshake::HELLO_RETRY_REQUEST as usize;

pub const CERTIFICATE: usize = registry::handshake::CERTIFICATE as usize;

pub const SERVER_KEY_EXCHANGE: usize = registry::handshake::SERVER_KEY_EXCHANGE as usize;

pub const CERTIFICATE_REQUEST: usize = registry::handshake::CERTIFICATE_REQUEST as usize;

pub const SERVER_DONE: usize = registry::handshake::SERVER_DONE as usize;

pub const CERTIFICATE_VERIFY: usize = registry::handshake::CERTIFICATE_VERIFY as usize;

pub const CLIENT_KEY_EXCHANGE: usize = registry::handshake::CLIENT_KEY_EXCHANGE as usize;

pub const FINISHED: usize = registry::handshake::FINISHED as usize;

pub const CERTIFICATE_STATUS: usize = registry::handshake::CERTIFICATE_STATUS as usize;

pub const NEXT_PROTOCOL: usize = registry::handshake::NEXT_PROTOCOL as usize;

pub const KEY_UPDATE: usize = registry::handshake::KEY_UPDATE as usize;

// What is left of the body behind a key exchange.
fn behind_exchange(k: TlsClientKeyExchangeContents, body: &[u8]) -> &[u8]
    ensures { result.now ≡ drop (exchange_tail k) body.now }
{
    match k {
        TlsClientKeyExchangeContents::Dh(v)
        | TlsClientKeyExchangeContents::Ecdh(v)
        | TlsClientKeyExchangeContents::Unknown(v) => wire::view::behind(body, v),
    }
}

impl TlsMessageHandshake {
    // What the body's reader left over of the body.
    // stays: a `match` by the kind is plainer than functions in a table.
    pub fn rest(self, body: &[u8]) -> &[u8]
        ensures { result.now ≡ drop (tail_of self) body.now }
    {
        match self {
            TlsMessageHandshake::HelloRequest | TlsMessageHandshake::EndOfEarlyData => body,
            TlsMessageHandshake::ClientHello(c) => wire::view::rest_of(body, c.tail),
            TlsMessageHandshake::ServerHello(c) => wire::view::rest_of(body, c.tail),
            TlsMessageHandshake::ServerHelloV13Draft18(c) => wire::view::rest_of(body, c.tail),
            TlsMessageHandshake::NewSessionTicket(c) => wire::view::rest_of(body, c.tail),
            TlsMessageHandshake::HelloRetryRequest(c) => wire::view::rest_of(body, c.tail),
            TlsMessageHandshake::Certificate(c) => wire::view::rest_of(body, c.tail),
            TlsMessageHandshake::ServerKeyExchange(c) => wire::view::behind(body, c.parameters),
            TlsMessageHandshake::CertificateRequest(c) => wire::view::rest_of(body, c.tail),
            TlsMessageHandshake::ServerDone(v)
            | TlsMessageHandshake::CertificateVerify(v)
            | TlsMessageHandshake::Finished(v) => wire::view::behind(body, v),
            TlsMessageHandshake::ClientKeyExchange(k) => behind_exchange(k, body),
            TlsMessageHandshake::CertificateStatus(c) => wire::view::rest_of(body, c.tail),
            TlsMessageHandshake::NextProtocol(c) => wire::view::rest_of(body, c.tail),
            TlsMessageHandshake::KeyUpdate(_) => wire::view::rest_of(body, 1),
        }
    }
}
