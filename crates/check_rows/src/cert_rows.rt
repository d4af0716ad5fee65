// Rows 16 to 18: lists of certificates, and the two forms of a CertificateRequest.
use crate::say::{self, Hex};
use norrabist::{
    Part, Refusal, TlsCertificateContents, TlsCertificateRequestContents, TlsMessageHandshake,
};
use std::io::{self, Write};

// An item of a list, in hex.
fn say_part(to: &mut impl Write, list: &[u8], a: Result<Part, Refusal>) -> io::Result<()> {
    match a {
        Err(r) => write!(to, " refused {}", norrabist::refusal_number(r)),
        Ok(p) => write!(to, " <{}>", Hex(norrabist::part_of(list, p.view))),
    }
}

fn say_chain(to: &mut impl Write, s: &[u8], c: TlsCertificateContents) -> io::Result<()> {
    let chain = norrabist::part_of(s, c.cert_chain);
    let count = c.cert_count(s);
    write!(to, "accepted, items {count}:")?;
    let mut at = 0;
    // stays: the count ends the walk
    for _ in 0..count {
        let a = c.cert_from(s, at);
        say_part(to, chain, a)?;
        at = a.map_or(at, |p| p.next);
    }
    write!(to, ", then")?;
    say_part(to, chain, c.cert_at(s, count))?;
    writeln!(to, ", tail at {}", c.tail)
}

fn certificate(to: &mut impl Write, row: &str, text: &str, s: &[u8]) -> io::Result<()> {
    say::row(to, row, "Certificate", text)?;
    match norrabist::parse_tls_handshake_msg_certificate(s) {
        Err(r) => say::refused(to, r),
        Ok(TlsMessageHandshake::Certificate(c)) => say_chain(to, s, c),
        Ok(_) => writeln!(to, "accepted, no Certificate"),
    }
}

// The first two of a chain, by the reader that holds it.
fn held(to: &mut impl Write, text: &str, chain: &[u8]) -> io::Result<()> {
    say::row(to, "-", "chain", text)?;
    write!(to, "the sender's")?;
    say_part(to, chain, norrabist::sender_certificate(chain))?;
    write!(to, ", the issuer's")?;
    say_part(to, chain, norrabist::issuer_certificate(chain))?;
    writeln!(to)
}

fn say_names(to: &mut impl Write, s: &[u8], c: TlsCertificateRequestContents) -> io::Result<()> {
    let list = norrabist::part_of(s, c.unparsed_ca);
    let count = c.ca_count(s);
    write!(to, ", names {count}:")?;
    let mut at = 0;
    // stays: the count ends the walk
    for _ in 0..count {
        let a = c.ca_from(s, at);
        say_part(to, list, a)?;
        at = a.map_or(at, |p| p.next);
    }
    write!(to, ", then")?;
    say_part(to, list, c.ca_at(s, count))
}

fn say_request(to: &mut impl Write, s: &[u8], c: TlsCertificateRequestContents) -> io::Result<()> {
    let form = if c.sig_hash_algs.is_some() {
        "long"
    } else {
        "short"
    };
    write!(to, "accepted, {form} form, types {}", c.type_count(s))?;
    write!(to, ", pairs {}", c.sig_count(s))?;
    say_names(to, s, c)?;
    writeln!(to, ", tail at {}", c.tail)
}

fn request(to: &mut impl Write, row: &str, text: &str, s: &[u8]) -> io::Result<()> {
    say::row(to, row, "CertificateRequest", text)?;
    match norrabist::parse_tls_handshake_certificaterequest(s) {
        Err(r) => say::refused(to, r),
        Ok(c) => say_request(to, s, c),
    }
}

pub(crate) fn lists(to: &mut impl Write) -> io::Result<()> {
    certificate(
        to,
        "16",
        "000005 000001 aa ff",
        &[0x00, 0x00, 0x05, 0x00, 0x00, 0x01, 0xaa, 0xff],
    )?;
    request(to, "17", "00 0002 0000", &[0x00, 0x00, 0x02, 0x00, 0x00])?;
    request(to, "18", "00 0000 0000", &[0x00, 0x00, 0x00, 0x00, 0x00])?;
    request(to, "18", "00 0000", &[0x00, 0x00, 0x00])?;
    request(to, "18", "00 00", &[0x00, 0x00])?;
    // an odd byte after the pairs is dropped
    request(
        to,
        "-",
        "01 01 0003 0401 ff 0000 aa",
        &[0x01, 0x01, 0x00, 0x03, 0x04, 0x01, 0xff, 0x00, 0x00, 0xaa],
    )?;
    held(to, "000001 aa ff", &[0x00, 0x00, 0x01, 0xaa, 0xff])?;
    held(
        to,
        "000001 aa 000000",
        &[0x00, 0x00, 0x01, 0xaa, 0x00, 0x00, 0x00],
    )
}
