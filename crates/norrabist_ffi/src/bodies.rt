// The exports of `norrabist_c::bodies`; made by ./papers --write.
ghost use Rattle.std.specs.Prelude.{◌≡◌};
ghost use Rattle.field.specs.Fields.{fixed, step};
ghost use Rattle.grammar.specs.Forms.{reading};
ghost use Rattle.norrabist_c.specs.Bodies.{certificate_told, key_told, protocol_told, request_told, status_told, ticket_told};
ghost use Rattle.read_certs.specs.Certs.{certificate, certificate_request, status};
ghost use Rattle.read_others.specs.Body.{next_protocol, session_ticket};
ghost use Rattle.refusal.specs.Answers.{number_in};
ghost use Rattle.wire.specs.Numbers.{number_at};

use norrabist_c::bodies::{
    CertificateRequestTold, CertificateStatusTold, CertificateTold, KeyUpdateTold,
    NewSessionTicketTold, NextProtocolTold,
};

// Reads the body of a NewSessionTicket, `len` bytes long.
#[unsafe(no_mangle)]
pub extern "C" fn norrabist_parse_tls_handshake_msg_newsessionticket(
    i: &[u8],
    len: usize,
) -> NewSessionTicketTold
    ensures { result ≡ ticket_told (session_ticket len i.now) }
{
    norrabist_c::bodies::norrabist_parse_tls_handshake_msg_newsessionticket(i, len)
}

// Reads the body of a Certificate.
#[unsafe(no_mangle)]
pub extern "C" fn norrabist_parse_tls_handshake_msg_certificate(i: &[u8]) -> CertificateTold
    ensures { result ≡ certificate_told (reading certificate i.now) }
{
    norrabist_c::bodies::norrabist_parse_tls_handshake_msg_certificate(i)
}

// Reads the body of a CertificateRequest: the long form, or else the short one.
#[unsafe(no_mangle)]
pub extern "C" fn norrabist_parse_tls_handshake_certificaterequest(
    i: &[u8],
) -> CertificateRequestTold
    ensures { result ≡ request_told (certificate_request i.now) }
{
    norrabist_c::bodies::norrabist_parse_tls_handshake_certificaterequest(i)
}

// Reads the body of a CertificateStatus.
#[unsafe(no_mangle)]
pub extern "C" fn norrabist_parse_tls_handshake_certificatestatus(i: &[u8]) -> CertificateStatusTold
    ensures { result ≡ status_told (reading status i.now) }
{
    norrabist_c::bodies::norrabist_parse_tls_handshake_certificatestatus(i)
}

// Reads the body of a NextProtocol.
#[unsafe(no_mangle)]
pub extern "C" fn norrabist_parse_tls_handshake_next_protocol(i: &[u8]) -> NextProtocolTold
    ensures { result ≡ protocol_told (reading next_protocol i.now) }
{
    norrabist_c::bodies::norrabist_parse_tls_handshake_next_protocol(i)
}

// Reads the body of a KeyUpdate.
#[unsafe(no_mangle)]
pub extern "C" fn norrabist_parse_tls_handshake_msg_key_update(i: &[u8]) -> KeyUpdateTold
    ensures { result ≡ key_told (number_at 1 i.now 0) }
{
    norrabist_c::bodies::norrabist_parse_tls_handshake_msg_key_update(i)
}

// Takes the first `len` bytes, as every body that is handed out whole: 0, or Incomplete's number.
#[unsafe(no_mangle)]
pub extern "C" fn norrabist_take_body(i: &[u8], len: usize) -> u8
    ensures { result ≡ number_in (step (fixed len) i.now 0) }
{
    norrabist_c::bodies::norrabist_take_body(i, len)
}
