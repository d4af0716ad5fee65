// What is said of a message's body, line by line.
use crate::say::{Placed, kind};
use crate::{hellos, others};
use message::handshake::TlsMessageHandshake;
use std::io::{self, Write};

// Prints what a message is and what it says, a field a line.
// stays: a `match` by the kind is plainer than functions in a table
pub(crate) fn say_body(
    to: &mut impl Write,
    m: TlsMessageHandshake,
    body: Placed<'_>,
) -> io::Result<()> {
    match m {
        TlsMessageHandshake::HelloRequest => kind(to, "HelloRequest", body),
        TlsMessageHandshake::ClientHello(c) => hellos::client(to, c, body),
        TlsMessageHandshake::ServerHello(c) => hellos::server(to, c, body),
        TlsMessageHandshake::ServerHelloV13Draft18(c) => hellos::draft18(to, c, body),
        TlsMessageHandshake::NewSessionTicket(c) => others::ticket(to, c, body),
        TlsMessageHandshake::EndOfEarlyData => kind(to, "EndOfEarlyData", body),
        TlsMessageHandshake::HelloRetryRequest(c) => hellos::retry(to, c, body),
        TlsMessageHandshake::Certificate(c) => others::certificate(to, c, body),
        TlsMessageHandshake::ServerKeyExchange(_) => others::whole(to, "ServerKeyExchange", body),
        TlsMessageHandshake::CertificateRequest(c) => others::request(to, c, body),
        TlsMessageHandshake::ServerDone(_) => others::whole(to, "ServerHelloDone", body),
        TlsMessageHandshake::CertificateVerify(_) => others::whole(to, "CertificateVerify", body),
        TlsMessageHandshake::ClientKeyExchange(_) => others::whole(to, "ClientKeyExchange", body),
        TlsMessageHandshake::Finished(_) => others::whole(to, "Finished", body),
        TlsMessageHandshake::CertificateStatus(c) => others::status(to, c, body),
        TlsMessageHandshake::NextProtocol(c) => others::next_protocol(to, c, body),
        TlsMessageHandshake::KeyUpdate(request) => others::key_update(to, request, body),
    }
}
