// The names of numbers: versions, types, compression, reasons. A number without a name is shown as
// a number.
use refusal::Refusal;
use registry::handshake;
use std::fmt;

// A version in hex, and its name behind a comma.
#[derive(Clone, Copy)]
pub(crate) struct Version(pub(crate) u16);

impl fmt::Display for Version {
    fn fmt<W: fmt::Write>(&self, f: &mut fmt::Formatter<W>) -> fmt::Result {
        let version = self.0;
        write!(f, "{version:04x}")?;
        match version {
            0x0002 => f.write_str(", SSL 2.0"),
            0x0300 => f.write_str(", SSL 3.0"),
            0x0301 => f.write_str(", TLS 1.0"),
            0x0302 => f.write_str(", TLS 1.1"),
            0x0303 => f.write_str(", TLS 1.2"),
            0x0304 => f.write_str(", TLS 1.3"),
            0xfeff => f.write_str(", DTLS 1.0"),
            0xfefd => f.write_str(", DTLS 1.2"),
            // the drafts of TLS 1.3 that tls-parser names
            0x7f12..=0x7f17 => write!(f, ", TLS 1.3 draft {}", version % 256),
            _ => Ok(()),
        }
    }
}

// The type of a record.
#[derive(Clone, Copy)]
pub(crate) struct RecordType(pub(crate) u8);

impl fmt::Display for RecordType {
    fn fmt<W: fmt::Write>(&self, f: &mut fmt::Formatter<W>) -> fmt::Result {
        match self.0 {
            registry::record::CHANGE_CIPHER_SPEC => f.write_str("ChangeCipherSpec"),
            registry::record::ALERT => f.write_str("Alert"),
            registry::record::HANDSHAKE => f.write_str("Handshake"),
            registry::record::APPLICATION_DATA => f.write_str("ApplicationData"),
            registry::record::HEARTBEAT => f.write_str("Heartbeat"),
            n => write!(f, "type 0x{n:02x}"),
        }
    }
}

// The type of a handshake message.
#[derive(Clone, Copy)]
pub(crate) struct HandshakeType(pub(crate) u8);

impl fmt::Display for HandshakeType {
    fn fmt<W: fmt::Write>(&self, f: &mut fmt::Formatter<W>) -> fmt::Result {
        match self.0 {
            handshake::HELLO_REQUEST => f.write_str("HelloRequest"),
            handshake::CLIENT_HELLO => f.write_str("ClientHello"),
            handshake::SERVER_HELLO => f.write_str("ServerHello"),
            handshake::NEW_SESSION_TICKET => f.write_str("NewSessionTicket"),
            handshake::END_OF_EARLY_DATA => f.write_str("EndOfEarlyData"),
            handshake::HELLO_RETRY_REQUEST => f.write_str("HelloRetryRequest"),
            handshake::CERTIFICATE => f.write_str("Certificate"),
            handshake::SERVER_KEY_EXCHANGE => f.write_str("ServerKeyExchange"),
            handshake::CERTIFICATE_REQUEST => f.write_str("CertificateRequest"),
            handshake::SERVER_DONE => f.write_str("ServerHelloDone"),
            handshake::CERTIFICATE_VERIFY => f.write_str("CertificateVerify"),
            handshake::CLIENT_KEY_EXCHANGE => f.write_str("ClientKeyExchange"),
            handshake::FINISHED => f.write_str("Finished"),
            handshake::CERTIFICATE_STATUS => f.write_str("CertificateStatus"),
            handshake::KEY_UPDATE => f.write_str("KeyUpdate"),
            handshake::NEXT_PROTOCOL => f.write_str("NextProtocol"),
            n => write!(f, "type 0x{n:02x}"),
        }
    }
}

// A compression method in hex, and its name behind a blank.
#[derive(Clone, Copy)]
pub(crate) struct Compression(pub(crate) u8);

impl fmt::Display for Compression {
    fn fmt<W: fmt::Write>(&self, f: &mut fmt::Formatter<W>) -> fmt::Result {
        let method = self.0;
        write!(f, "{method:02x}")?;
        match method {
            0x00 => f.write_str(" null"),
            0x01 => f.write_str(" DEFLATE"),
            0x40 => f.write_str(" LZS"),
            _ => Ok(()),
        }
    }
}

// A refusal by its name in the table of refusals, RULES 1.1, and its number.
#[derive(Clone, Copy)]
pub(crate) struct Why(pub(crate) Refusal);

impl fmt::Display for Why {
    fn fmt<W: fmt::Write>(&self, f: &mut fmt::Formatter<W>) -> fmt::Result {
        write!(f, "{} ({})", self.0, refusal::refusal_number(self.0))
    }
}
