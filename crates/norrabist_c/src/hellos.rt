// The bodies of hellos, told by the lengths of their parts: where each begins follows from those
// before it (`specs/Back.antt`).
#![tactic(auto, unfolding(grammar::specs::Forms::by_version, open_hellos::specs::HelloMessages::server_message))]

ghost use Rattle.std.specs.Prelude.{◌≡◌};
ghost use Rattle.grammar.specs.Forms.{by_version, reading};
ghost use Rattle.norrabist_c.specs.Hellos.{ClientFits, client_told, draft18_told, retry_told, server_message_told, server_told};
ghost use Rattle.open_hellos.specs.HelloMessages.{server_message};
ghost use Rattle.read_client.specs.Client.{client, strict_client};
ghost use Rattle.read_others.specs.Body.{retry};
ghost use Rattle.read_server.specs.Server.{draft18, server, server_versions};
ghost use Rattle.refusal.specs.Answers.{accepted, refused};

use crate::parts::{len_of, opt_told};
use read_client::TlsClientHelloContents;
use refusal::{Reason, Refusal};
use wire::number::Width;

// What is told of a ClientHello's body: the version, and the lengths of the id, ciphers, methods
// and extensions.
#[repr(C)]
#[derive(Clone, Copy, Default)]
pub struct ClientHelloTold {
    pub version: u16,
    pub ciphers: u16,
    pub ext: u16,
    pub comp: u8,
    pub session_id: u8,
    pub has_ext: bool,
    pub number: u8,
}

fn client_refused(r: Refusal) -> ClientHelloTold
    ensures { result ≡ client_told (refused r) }
{
    ClientHelloTold {
        number: refusal::refusal_number(r),
        ..Default::default()
    }
}

// What is told of a ClientHello whose lengths fit, as those of every one that was read do.
fn client_told(c: TlsClientHelloContents) -> ClientHelloTold
    requires { ClientFits c }
    ensures { result ≡ client_told (accepted c) }
{
    let ext = opt_told(c.ext);
    ClientHelloTold {
        version: c.version,
        ciphers: c.ciphers.len as u16,
        ext: ext.len as u16,
        comp: c.comp.len as u8,
        session_id: len_of(c.session_id) as u8,
        has_ext: ext.present,
        number: 0,
    }
}

// Reads the body of a ClientHello.
#[unsafe(no_mangle)]
pub extern "C" fn norrabist_parse_tls_handshake_client_hello(i: &[u8]) -> ClientHelloTold
    ensures { result ≡ client_told (reading client i.now) }
{
    match read_client::parse_tls_handshake_client_hello(i) {
        Err(r) => client_refused(r),
        Ok(c) => client_told(c),
    }
}

// Reads the body of a ClientHello that matches exactly.
// stays: two exports of C, each with its reader
#[unsafe(no_mangle)]
pub extern "C" fn norrabist_parse_tls_handshake_client_hello_strict(i: &[u8]) -> ClientHelloTold
    ensures { result ≡ client_told (strict_client i.now) }
{
    match read_client::parse_tls_handshake_client_hello_strict(i) {
        Err(why) => client_refused(why),
        Ok(exact) => client_told(exact),
    }
}

// What is told of a ServerHello's body: version, cipher and method, and the lengths of the id and
// the extensions. That of draft 18 has neither id nor method.
#[repr(C)]
#[derive(Clone, Copy, Default)]
pub struct ServerHelloTold {
    pub version: u16,
    pub cipher: u16,
    pub ext: u16,
    pub compression: u8,
    pub session_id: u8,
    pub has_ext: bool,
    pub number: u8,
}

fn server_refused(r: Refusal) -> ServerHelloTold
    ensures { result ≡ server_told (refused r) }
{
    ServerHelloTold {
        number: refusal::refusal_number(r),
        ..Default::default()
    }
}

// Reads the body of a ServerHello by its grammar, whatever the version.
fn server_told(i: &[u8], has_ext: bool) -> ServerHelloTold
    ensures { result ≡ server_told (reading (server has_ext) i.now) }
{
    match read_server::tlsv12::parse_tls_server_hello_tlsv12(i, has_ext) {
        Err(r) => server_refused(r),
        Ok(s) => {
            let ext = opt_told(s.ext);
            ServerHelloTold {
                version: s.version,
                cipher: s.cipher,
                ext: ext.len as u16,
                compression: s.compression,
                session_id: len_of(s.session_id) as u8,
                has_ext: ext.present,
                number: 0,
            }
        }
    }
}

// Reads the body of a ServerHello; that of draft 18 is Tag. The version is tested here, so that the
// reader of the body is compiled into this function.
#[unsafe(no_mangle)]
pub extern "C" fn norrabist_parse_tls_handshake_server_hello(i: &[u8]) -> ServerHelloTold
    ensures { result ≡ server_told (by_version server_versions i.now) }
{
    let v = match wire::number::parse_be(i, 0, Width::Two) {
        Err(r) => return server_refused(r),
        Ok(n) => n.value,
    };
    if v < registry::version::SSL30 || registry::version::TLS12 < v {
        return server_refused(refusal::refuse(Reason::Tag, 0, 0));
    }
    server_told(i, registry::version::SSL30 < v)
}

// Reads the body of the ServerHello of draft 18.
fn draft18_told(i: &[u8]) -> ServerHelloTold
    ensures { result ≡ draft18_told (reading draft18 i.now) }
{
    match read_server::tlsv13draft18::parse_tls_server_hello_tlsv13draft18(i) {
        Err(r) => server_refused(r),
        Ok(d) => {
            let ext = opt_told(d.ext);
            ServerHelloTold {
                version: d.version,
                cipher: d.cipher,
                ext: ext.len as u16,
                has_ext: ext.present,
                ..Default::default()
            }
        }
    }
}

// Reads the body of a ServerHello of a message: at version 0x7f12 it is that of draft 18.
#[unsafe(no_mangle)]
pub extern "C" fn norrabist_parse_tls_handshake_msg_server_hello(i: &[u8]) -> ServerHelloTold
    ensures { result ≡ server_message_told (server_message i.now) }
{
    let version = match wire::number::parse_be(i, 0, Width::Two) {
        Err(r) => return server_refused(r),
        Ok(n) => n.value,
    };
    if version == registry::version::TLS13_DRAFT18 {
        return draft18_told(i);
    }
    norrabist_parse_tls_handshake_server_hello(i)
}

// What is told of a HelloRetryRequest's body: version, cipher and the length of the extensions.
#[repr(C)]
#[derive(Clone, Copy, Default)]
pub struct HelloRetryRequestTold {
    pub version: u16,
    pub cipher: u16,
    pub ext: u16,
    pub has_ext: bool,
    pub number: u8,
}

// Reads the body of a HelloRetryRequest.
#[unsafe(no_mangle)]
pub extern "C" fn norrabist_parse_tls_handshake_msg_hello_retry_request(
    i: &[u8],
) -> HelloRetryRequestTold
    ensures { result ≡ retry_told (reading retry i.now) }
{
    match read_others::retry::parse_tls_hello_retry_request(i) {
        Err(r) => HelloRetryRequestTold {
            number: refusal::refusal_number(r),
            ..Default::default()
        },
        Ok(h) => {
            let ext = opt_told(h.ext);
            HelloRetryRequestTold {
                version: h.version,
                cipher: h.cipher,
                ext: ext.len as u16,
                has_ext: ext.present,
                number: 0,
            }
        }
    }
}
