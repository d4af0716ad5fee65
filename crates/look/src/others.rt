// The other bodies. What a reader of such a body leaves over is said by the program, behind these
// lines.
use crate::lists;
use crate::say::{Placed, kind};
use read_certs::certificate::TlsCertificateContents;
use read_certs::request::TlsCertificateRequestContents;
use read_certs::status::TlsCertificateStatusContents;
use read_others::next_protocol::TlsNextProtocolContent;
use read_others::ticket::TlsNewSessionTicketContent;
use std::io::{self, Write};
use wire::number::Width;
use wire::view::View;

// A body that is handed out whole: what it holds is not looked at.
pub(crate) fn whole(to: &mut impl Write, name: &str, body: Placed<'_>) -> io::Result<()> {
    kind(to, name, body)?;
    if body.len() > 0 {
        writeln!(to, "    its content is not opened")?;
    }
    Ok(())
}

pub(crate) fn ticket(
    to: &mut impl Write,
    c: TlsNewSessionTicketContent,
    body: Placed<'_>,
) -> io::Result<()> {
    let hint = c.ticket_lifetime_hint;
    kind(to, "NewSessionTicket", body)?;
    writeln!(to, "    lifetime hint {hint} s")?;
    writeln!(to, "    ticket {}", body.part(c.ticket))
}

pub(crate) fn certificate(
    to: &mut impl Write,
    c: TlsCertificateContents,
    body: Placed<'_>,
) -> io::Result<()> {
    kind(to, "Certificate", body)?;
    let chain = body.part(c.cert_chain);
    lists::items(to, "certificates", " certificate", chain, Width::Three)
}

// The signature algorithms, and an odd byte behind them.
fn pairs(to: &mut impl Write, sigs: Option<View>, body: Placed<'_>) -> io::Result<()> {
    let Some(v) = sigs else {
        return writeln!(to, "    signature algorithms absent");
    };
    let l = body.part(v);
    write!(to, "    signature algorithms {l}")?;
    lists::pairs(to, l.bytes)?;
    if l.len() % 2 == 1 {
        writeln!(to, "      the odd byte behind them is dropped")?;
    }
    Ok(())
}

pub(crate) fn request(
    to: &mut impl Write,
    c: TlsCertificateRequestContents,
    body: Placed<'_>,
) -> io::Result<()> {
    let types = body.part(c.cert_types);
    kind(to, "CertificateRequest", body)?;
    write!(to, "    certificate types {types}")?;
    lists::bytes(to, types.bytes)?;
    pairs(to, c.sig_hash_algs, body)?;
    lists::items(to, "names", " name", body.part(c.unparsed_ca), Width::Two)
}

pub(crate) fn status(
    to: &mut impl Write,
    c: TlsCertificateStatusContents,
    body: Placed<'_>,
) -> io::Result<()> {
    let status_type = c.status_type;
    kind(to, "CertificateStatus", body)?;
    writeln!(to, "    status type {status_type:02x}")?;
    writeln!(to, "    response {}", body.part(c.blob))
}

pub(crate) fn next_protocol(
    to: &mut impl Write,
    c: TlsNextProtocolContent,
    body: Placed<'_>,
) -> io::Result<()> {
    kind(to, "NextProtocol", body)?;
    writeln!(to, "    protocol {}", body.part(c.selected_protocol))?;
    writeln!(to, "    padding {}", body.part(c.padding))
}

pub(crate) fn key_update(to: &mut impl Write, request: u8, body: Placed<'_>) -> io::Result<()> {
    kind(to, "KeyUpdate", body)?;
    writeln!(to, "    request {request:02x}")
}
