// Rows 1 to 9 and 14: hellos; rows 2 to 5 read strictly too.
use crate::say::{self, Bytes, Opt};
use norrabist::{
    Inexact, TlsClientHelloContents, TlsMessageHandshake, TlsServerHelloContents,
    TlsServerHelloV13Draft18Contents, View,
};
use std::io::{self, Write};

// How every accepted line ends: the extensions, and the bytes from the tail on.
fn say_end(to: &mut impl Write, s: &[u8], ext: Option<View>, tail: usize) -> io::Result<()> {
    write!(to, ", extensions {}, tail at {tail}", Opt(ext))?;
    if tail <= s.len() {
        write!(to, ", {}", Bytes(s.len() - tail))?;
    }
    writeln!(to)
}

fn say_client(to: &mut impl Write, s: &[u8], c: TlsClientHelloContents) -> io::Result<()> {
    write!(
        to,
        "accepted, version {:04x}, id {}",
        c.version(),
        Opt(c.session_id)
    )?;
    write!(
        to,
        ", {} ciphers, {} methods",
        c.cipher_count(s),
        c.comp_count(s)
    )?;
    say_end(to, s, c.ext, c.tail)
}

fn say_server(to: &mut impl Write, s: &[u8], c: TlsServerHelloContents) -> io::Result<()> {
    write!(
        to,
        "accepted, version {:04x}, id {}",
        c.version,
        Opt(c.session_id)
    )?;
    write!(
        to,
        ", cipher {:04x}, compression {:02x}",
        c.cipher, c.compression
    )?;
    say_end(to, s, c.ext, c.tail)
}

fn say_draft18(
    to: &mut impl Write,
    s: &[u8],
    c: TlsServerHelloV13Draft18Contents,
) -> io::Result<()> {
    write!(
        to,
        "accepted, draft 18, version {:04x}, cipher {:04x}",
        c.version, c.cipher
    )?;
    say_end(to, s, c.ext, c.tail)
}

fn say_message(to: &mut impl Write, s: &[u8], m: TlsMessageHandshake) -> io::Result<()> {
    match m {
        TlsMessageHandshake::ServerHello(c) => say_server(to, s, c),
        TlsMessageHandshake::ServerHelloV13Draft18(c) => say_draft18(to, s, c),
        _ => writeln!(to, "accepted, no ServerHello"),
    }
}

fn client(to: &mut impl Write, row: &str, text: &str, s: &[u8]) -> io::Result<()> {
    say::row(to, row, "ClientHello", text)?;
    match norrabist::parse_tls_handshake_client_hello(s) {
        Err(r) => say::refused(to, r),
        Ok(c) => say_client(to, s, c),
    }
}

fn say_exactness(to: &mut impl Write, e: Result<(), Inexact>) -> io::Result<()> {
    match e {
        Ok(()) => writeln!(to, "exact"),
        Err(Inexact::NoCiphers) => writeln!(to, "no ciphers"),
        Err(Inexact::NoMethods) => writeln!(to, "no methods"),
        Err(Inexact::HasTail) => writeln!(to, "a tail"),
    }
}

// Three lines: the body, the message, and what the plain reader's value tells.
fn strict(to: &mut impl Write, row: &str, text: &str, s: &[u8]) -> io::Result<()> {
    say::row(to, row, "strict ClientHello", text)?;
    match norrabist::parse_tls_handshake_client_hello_strict(s) {
        Err(r) => say::refused(to, r)?,
        Ok(c) => say_client(to, s, c)?,
    }
    say::row(to, row, "strict ClientHello as message", text)?;
    match norrabist::parse_tls_handshake_msg_client_hello_strict(s) {
        Err(r) => say::refused(to, r)?,
        Ok(TlsMessageHandshake::ClientHello(c)) => say_client(to, s, c)?,
        Ok(_) => writeln!(to, "accepted, no ClientHello")?,
    }
    say::row(to, row, "exactness of ClientHello", text)?;
    match norrabist::parse_tls_handshake_client_hello(s) {
        Err(r) => say::refused(to, r),
        Ok(c) => say_exactness(to, c.exactness(s)),
    }
}

// Two lines: the message form alone opens draft 18.
fn server(to: &mut impl Write, row: &str, text: &str, s: &[u8]) -> io::Result<()> {
    say::row(to, row, "ServerHello", text)?;
    match norrabist::parse_tls_handshake_server_hello(s) {
        Err(r) => say::refused(to, r)?,
        Ok(c) => say_server(to, s, c)?,
    }
    say::row(to, row, "ServerHello as message", text)?;
    match norrabist::parse_tls_handshake_msg_server_hello(s) {
        Err(r) => say::refused(to, r),
        Ok(m) => say_message(to, s, m),
    }
}

// H, what may follow it, and its lengths broken one by one.
pub(crate) fn clients(to: &mut impl Write) -> io::Result<()> {
    let mut s = [0u8; 80];
    s[0] = 0x03;
    s[1] = 0x03;
    client(to, "1", "of no bytes", &s[..0])?;
    client(to, "2", "H", &s[..38])?;
    client(to, "3", "H 00", &s[..39])?;
    client(to, "4", "H 0000", &s[..40])?;
    s[39] = 0x01;
    client(to, "5", "H 0001", &s[..40])?;
    s[34] = 0x21;
    client(to, "6", "0303 Z 21", &s[..35])?;
    s[34] = 0x20;
    client(to, "7", "0303 Z 20 and 31 bytes", &s[..66])?;
    s[34] = 0;
    s[36] = 0x01;
    client(to, "8", "0303 Z 00 0001 00", &s[..38])?;
    s[36] = 0x02;
    client(to, "8", "0303 Z 00 0002 00", &s[..38])?;
    s[36] = 0;
    s[37] = 0x01;
    client(to, "9", "0303 Z 00 0000 01", &s[..38])
}

// H read strictly, and one cipher, one method and extensions added one by one.
pub(crate) fn stricts(to: &mut impl Write) -> io::Result<()> {
    let mut s = [0u8; 80];
    s[0] = 0x03;
    s[1] = 0x03;
    strict(to, "2", "H", &s[..38])?;
    strict(to, "3", "H 00", &s[..39])?;
    strict(to, "4", "H 0000", &s[..40])?;
    strict(to, "-", "0303 Z 00 0000", &s[..37])?;
    s[39] = 0x01;
    strict(to, "5", "H 0001", &s[..40])?;
    s[36] = 0x02;
    s[38] = 0x2f;
    s[39] = 0x00;
    strict(to, "-", "0303 Z 00 0002 002f 00", &s[..40])?;
    s[39] = 0x01;
    strict(to, "-", "0303 Z 00 0002 002f 01 00", &s[..41])?;
    strict(to, "-", "0303 Z 00 0002 002f 01 00 00", &s[..42])?;
    strict(to, "-", "0303 Z 00 0002 002f 01 00 0000", &s[..43])?;
    s[42] = 0x01;
    strict(to, "-", "0303 Z 00 0002 002f 01 00 0001", &s[..43])
}

// Versions that only one of the two functions opens, or neither.
pub(crate) fn versions(to: &mut impl Write) -> io::Result<()> {
    let mut s = [0u8; 80];
    s[0] = 0x03;
    s[1] = 0x04;
    server(to, "14", "0304", &s[..2])?;
    server(to, "14", "03", &s[..1])?;
    s[0] = 0x7f;
    s[1] = 0x12;
    server(to, "-", "7f12", &s[..2])?;
    s[34] = 0x13;
    s[35] = 0x01;
    server(to, "-", "7f12 Z 1301", &s[..36])
}

// At 0x0300 extensions are never looked for.
pub(crate) fn servers(to: &mut impl Write) -> io::Result<()> {
    let mut s = [0u8; 80];
    s[0] = 0x03;
    s[36] = 0x2f;
    server(to, "-", "0300 Z 00 002f 00 0000", &s[..40])?;
    s[1] = 0x03;
    server(to, "-", "0303 Z 00 002f 00 0000", &s[..40])
}

// The parts that the accessors hand out, by their lengths, and the times.
fn say_accessors(to: &mut impl Write, s: &[u8], c: TlsClientHelloContents) -> io::Result<()> {
    write!(to, "random {}", Bytes(c.random(s).len()))?;
    write!(to, ", rand_time {:08x}", c.rand_time(s))?;
    write!(to, ", gmt_unix_time {:08x}", c.gmt_unix_time(s))?;
    write!(to, ", rand_bytes {}", Bytes(c.rand_bytes(s).len()))?;
    write!(to, ", id {}", Bytes(c.session_id(s).len()))?;
    writeln!(to, ", extensions {}", Bytes(c.ext(s).len()))
}

fn accessor(to: &mut impl Write, text: &str, s: &[u8]) -> io::Result<()> {
    say::row(to, "-", "ClientHello", text)?;
    match norrabist::parse_tls_handshake_client_hello(s) {
        Err(r) => say::refused(to, r),
        Ok(c) => say_accessors(to, s, c),
    }
}

// A made-up value: the random alone, all other parts absent or empty.
fn made_up(to: &mut impl Write, text: &str, s: &[u8], random: View) -> io::Result<()> {
    say::row(to, "-", "made-up ClientHello", text)?;
    let none = View { start: 0, len: 0 };
    let hello = TlsClientHelloContents {
        version: 0x0303,
        random,
        session_id: None,
        ciphers: none,
        comp: none,
        ext: None,
        tail: 0,
    };
    say_accessors(to, s, hello)
}

// gmt_unix_time is the first four bytes of the random; rand_time is another number than 0 only
// where there are no more.
pub(crate) fn accessors(to: &mut impl Write) -> io::Result<()> {
    let mut s = [0u8; 80];
    s[0] = 0x03;
    s[1] = 0x03;
    s[5] = 0x01;
    accessor(to, "0303 00000001 and 32 zero bytes", &s[..38])?;
    s[2] = 0x01;
    s[3] = 0x02;
    s[4] = 0x03;
    s[5] = 0x04;
    s[34] = 0x02;
    s[41] = 0x01;
    accessor(
        to,
        "0303 01020304, 28 zero bytes, 02 0000 0000 00 0001 00",
        &s[..43],
    )?;
    made_up(to, "random 010203", &s[..43], View { start: 2, len: 3 })?;
    made_up(to, "random 01020304", &s[..43], View { start: 2, len: 4 })?;
    made_up(to, "random 0102030400", &s[..43], View { start: 2, len: 5 })
}
