// The names of alerts, as the RFCs spell them, without `_RESERVED`; their numbers are decimal
// there, and here.
use content::TlsMessageAlert;
use std::fmt;

// Prints the level of an alert (RFC 5246 7.2), which is 1 or 2.
fn say_level<W: fmt::Write>(f: &mut fmt::Formatter<W>, level: u8) -> fmt::Result {
    f.write_str(match level {
        1 => "warning",
        2 => "fatal",
        _ => "not known",
    })
}

// Prints the description of an alert: those of RFC 5246 7.2, RFC 7507 2, RFC 6066 9, RFC 8446 6.2
// and RFC 7301 3.2.
fn say_description<W: fmt::Write>(f: &mut fmt::Formatter<W>, description: u8) -> fmt::Result {
    f.write_str(match description {
        0 => "close_notify",
        10 => "unexpected_message",
        20 => "bad_record_mac",
        21 => "decryption_failed",
        22 => "record_overflow",
        30 => "decompression_failure",
        40 => "handshake_failure",
        41 => "no_certificate",
        42 => "bad_certificate",
        43 => "unsupported_certificate",
        44 => "certificate_revoked",
        45 => "certificate_expired",
        46 => "certificate_unknown",
        47 => "illegal_parameter",
        48 => "unknown_ca",
        49 => "access_denied",
        50 => "decode_error",
        51 => "decrypt_error",
        60 => "export_restriction",
        70 => "protocol_version",
        71 => "insufficient_security",
        80 => "internal_error",
        86 => "inappropriate_fallback",
        90 => "user_canceled",
        100 => "no_renegotiation",
        109 => "missing_extension",
        110 => "unsupported_extension",
        111 => "certificate_unobtainable",
        112 => "unrecognized_name",
        113 => "bad_certificate_status_response",
        114 => "bad_certificate_hash_value",
        115 => "unknown_psk_identity",
        116 => "certificate_required",
        120 => "no_application_protocol",
        _ => "not known",
    })
}

// An alert: the names of its level and its description, each with its number.
#[derive(Clone, Copy)]
pub(crate) struct Alert(pub(crate) TlsMessageAlert);

impl fmt::Display for Alert {
    fn fmt<W: fmt::Write>(&self, f: &mut fmt::Formatter<W>) -> fmt::Result {
        let (level, description) = (self.0.severity, self.0.code);
        f.write_str("Alert, ")?;
        say_level(f, level)?;
        write!(f, " ({level}), ")?;
        say_description(f, description)?;
        write!(f, " ({description})")
    }
}
