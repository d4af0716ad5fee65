// The hellos, and what asks for another.
use crate::ciphers::Cipher;
use crate::lists;
use crate::names::{Compression, Version};
use crate::say::{Count, Hex, Placed, kind};
use list::numbers::number_count;
use read_client::{Inexact, TlsClientHelloContents};
use read_others::retry::TlsHelloRetryRequestContents;
use read_server::tlsv12::TlsServerHelloContents;
use read_server::tlsv13draft18::TlsServerHelloV13Draft18Contents;
use std::io::{self, Write};
use wire::number::Width;
use wire::view::View;

// The name of a hello, where its body lies, and its version.
fn start(to: &mut impl Write, name: &str, body: Placed<'_>, version: u16) -> io::Result<()> {
    kind(to, name, body)?;
    writeln!(to, "    version {}", Version(version))
}

fn random(to: &mut impl Write, r: Placed<'_>) -> io::Result<()> {
    writeln!(to, "    random {r}: {}", Hex(r.bytes))
}

fn session_id(to: &mut impl Write, id: Option<View>, body: Placed<'_>) -> io::Result<()> {
    let Some(v) = id else {
        return writeln!(to, "    session id absent");
    };
    let id = body.part(v);
    writeln!(to, "    session id {id}: {}", Hex(id.bytes))
}

fn ciphers(to: &mut impl Write, l: Placed<'_>) -> io::Result<()> {
    let all = number_count(l.bytes, Width::Two);
    writeln!(to, "    ciphers {l}, {}", Count(all, " cipher"))?;
    lists::ciphers(to, l.bytes)
}

// The extensions, and whether bytes follow what the reader took. A hello that ends without
// extensions is told from one that goes on with bytes that are no whole block. The tail itself is
// told behind the body.
fn extensions(
    to: &mut impl Write,
    ext: Option<View>,
    tail: usize,
    body: Placed<'_>,
) -> io::Result<()> {
    let goes_on = tail < body.len();
    match ext {
        Some(v) => {
            let follows = if goes_on { "a tail" } else { "nothing" };
            writeln!(
                to,
                "    extensions present {}, and {follows} follows",
                body.part(v)
            )
        }
        None if goes_on => writeln!(
            to,
            "    extensions absent, and a tail follows: a block may have been cut off"
        ),
        None => writeln!(to, "    extensions absent, and nothing follows"),
    }
}

// Whether the strict reader takes the ClientHello (RULES 3.14), and if not, the first of its three
// reasons.
// stays: a Display of `Inexact` would have to say one thing, and the rows say another
fn strict(to: &mut impl Write, e: Result<(), Inexact>) -> io::Result<()> {
    match e {
        Ok(()) => writeln!(to, "    strict: taken"),
        Err(Inexact::NoCiphers) => writeln!(to, "    strict: refused, no ciphers"),
        Err(Inexact::NoMethods) => writeln!(to, "    strict: refused, no compression methods"),
        Err(Inexact::HasTail) => writeln!(to, "    strict: refused, a tail follows"),
    }
}

pub(crate) fn client(
    to: &mut impl Write,
    c: TlsClientHelloContents,
    body: Placed<'_>,
) -> io::Result<()> {
    start(to, "ClientHello", body, c.version())?;
    random(to, body.part(c.random))?;
    session_id(to, c.session_id, body)?;
    ciphers(to, body.part(c.ciphers))?;
    let methods = body.part(c.comp);
    write!(to, "    compression methods {methods}")?;
    lists::methods(to, methods.bytes)?;
    extensions(to, c.ext, c.tail, body)?;
    strict(to, c.exactness(body.bytes))
}

pub(crate) fn server(
    to: &mut impl Write,
    c: TlsServerHelloContents,
    body: Placed<'_>,
) -> io::Result<()> {
    start(to, "ServerHello", body, c.version)?;
    random(to, body.part(c.random))?;
    session_id(to, c.session_id, body)?;
    writeln!(to, "    cipher {}", Cipher(c.cipher))?;
    writeln!(to, "    compression {}", Compression(c.compression))?;
    if c.version as usize == registry::version::SSL30 {
        return writeln!(
            to,
            "    extensions absent: never looked for at version 0300"
        );
    }
    extensions(to, c.ext, c.tail, body)
}

pub(crate) fn draft18(
    to: &mut impl Write,
    c: TlsServerHelloV13Draft18Contents,
    body: Placed<'_>,
) -> io::Result<()> {
    start(to, "ServerHello of draft 18", body, c.version)?;
    random(to, body.part(c.random))?;
    writeln!(to, "    cipher {}", Cipher(c.cipher))?;
    extensions(to, c.ext, c.tail, body)
}

pub(crate) fn retry(
    to: &mut impl Write,
    c: TlsHelloRetryRequestContents,
    body: Placed<'_>,
) -> io::Result<()> {
    start(to, "HelloRetryRequest", body, c.version)?;
    writeln!(to, "    cipher {}", Cipher(c.cipher))?;
    extensions(to, c.ext, c.tail, body)
}
