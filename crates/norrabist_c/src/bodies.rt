// The other bodies that hold fields, told the same way, and those that are taken whole.
ghost use Rattle.std.specs.Prelude.{◌≡◌};
ghost use Rattle.field.specs.Fields.{fixed, step};
ghost use Rattle.grammar.specs.Forms.{reading};
ghost use Rattle.norrabist_c.specs.Bodies.{certificate_told, key_told, protocol_told, request_told, status_told, ticket_told};
ghost use Rattle.read_certs.specs.Certs.{certificate, certificate_request, status};
ghost use Rattle.read_others.specs.Body.{next_protocol, session_ticket};
ghost use Rattle.refusal.specs.Answers.{number_in};
ghost use Rattle.wire.specs.Numbers.{number_at};

use crate::parts::len_of;
use crate::refusals::answer_number;
use wire::number::Width;

// What is told of a NewSessionTicket's body: lifetime, and the length of the ticket.
#[repr(C)]
#[derive(Clone, Copy, Default)]
pub struct NewSessionTicketTold {
    pub ticket: usize,
    pub hint: u32,
    pub number: u8,
}

// Reads the body of a NewSessionTicket, `len` bytes long.
#[unsafe(no_mangle)]
pub extern "C" fn norrabist_parse_tls_handshake_msg_newsessionticket(
    i: &[u8],
    len: usize,
) -> NewSessionTicketTold
    ensures { result ≡ ticket_told (session_ticket len i.now) }
{
    match read_others::ticket::parse_tls_newsessionticket(i, len) {
        Err(r) => NewSessionTicketTold {
            number: refusal::refusal_number(r),
            ..Default::default()
        },
        Ok(c) => NewSessionTicketTold {
            ticket: c.ticket.len,
            hint: c.ticket_lifetime_hint,
            number: 0,
        },
    }
}

// What is told of a Certificate's body: the length of the list.
#[repr(C)]
#[derive(Clone, Copy, Default)]
pub struct CertificateTold {
    pub chain: u32,
    pub number: u8,
}

// Reads the body of a Certificate.
#[unsafe(no_mangle)]
pub extern "C" fn norrabist_parse_tls_handshake_msg_certificate(i: &[u8]) -> CertificateTold
    ensures { result ≡ certificate_told (reading certificate i.now) }
{
    match read_certs::certificate::parse_tls_certificate(i) {
        Err(r) => CertificateTold {
            number: refusal::refusal_number(r),
            ..Default::default()
        },
        Ok(c) => CertificateTold {
            chain: c.cert_chain.len as u32,
            number: 0,
        },
    }
}

// What is told of a CertificateRequest's body: the lengths of the types, the pairs and the names,
// and whether there are pairs, as in the long form.
#[repr(C)]
#[derive(Clone, Copy, Default)]
pub struct CertificateRequestTold {
    pub pairs: u16,
    pub names: u16,
    pub types: u8,
    pub has_pairs: bool,
    pub number: u8,
}

// Reads the body of a CertificateRequest: the long form, or else the short one.
#[unsafe(no_mangle)]
pub extern "C" fn norrabist_parse_tls_handshake_certificaterequest(
    i: &[u8],
) -> CertificateRequestTold
    ensures { result ≡ request_told (certificate_request i.now) }
{
    match read_certs::request::parse_tls_handshake_certificaterequest(i) {
        Err(r) => CertificateRequestTold {
            number: refusal::refusal_number(r),
            ..Default::default()
        },
        Ok(c) => CertificateRequestTold {
            pairs: len_of(c.sig_hash_algs) as u16,
            names: c.unparsed_ca.len as u16,
            types: c.cert_types.len as u8,
            has_pairs: c.sig_hash_algs.is_some(),
            number: 0,
        },
    }
}

// What is told of a CertificateStatus's body: its type, and the length of the response.
#[repr(C)]
#[derive(Clone, Copy, Default)]
pub struct CertificateStatusTold {
    pub blob: u32,
    pub status_type: u8,
    pub number: u8,
}

// Reads the body of a CertificateStatus.
#[unsafe(no_mangle)]
pub extern "C" fn norrabist_parse_tls_handshake_certificatestatus(i: &[u8]) -> CertificateStatusTold
    ensures { result ≡ status_told (reading status i.now) }
{
    match read_certs::status::parse_tls_handshake_certificatestatus(i) {
        Err(r) => CertificateStatusTold {
            number: refusal::refusal_number(r),
            ..Default::default()
        },
        Ok(c) => CertificateStatusTold {
            blob: c.blob.len as u32,
            status_type: c.status_type,
            number: 0,
        },
    }
}

// What is told of a NextProtocol's body: the lengths of the protocol and the padding.
#[repr(C)]
#[derive(Clone, Copy, Default)]
pub struct NextProtocolTold {
    pub protocol: u8,
    pub padding: u8,
    pub number: u8,
}

// Reads the body of a NextProtocol.
#[unsafe(no_mangle)]
pub extern "C" fn norrabist_parse_tls_handshake_next_protocol(i: &[u8]) -> NextProtocolTold
    ensures { result ≡ protocol_told (reading next_protocol i.now) }
{
    match read_others::next_protocol::parse_tls_handshake_next_protocol(i) {
        Err(r) => NextProtocolTold {
            number: refusal::refusal_number(r),
            ..Default::default()
        },
        Ok(c) => NextProtocolTold {
            protocol: c.selected_protocol.len as u8,
            padding: c.padding.len as u8,
            number: 0,
        },
    }
}

// What is told of a KeyUpdate's body: its one byte.
#[repr(C)]
#[derive(Clone, Copy, Default)]
pub struct KeyUpdateTold {
    pub request: u8,
    pub number: u8,
}

// Reads the body of a KeyUpdate.
#[unsafe(no_mangle)]
pub extern "C" fn norrabist_parse_tls_handshake_msg_key_update(i: &[u8]) -> KeyUpdateTold
    ensures { result ≡ key_told (number_at 1 i.now 0) }
{
    match wire::number::parse_be(i, 0, Width::One) {
        Err(r) => KeyUpdateTold {
            number: refusal::refusal_number(r),
            ..Default::default()
        },
        Ok(n) => KeyUpdateTold {
            request: n.value as u8,
            number: 0,
        },
    }
}

// Takes the first `len` bytes, as every body that is handed out whole: 0, or Incomplete's number.
#[unsafe(no_mangle)]
pub extern "C" fn norrabist_take_body(i: &[u8], len: usize) -> u8
    ensures { result ≡ number_in (step (fixed len) i.now 0) }
{
    answer_number(field::take(i, 0, len))
}
