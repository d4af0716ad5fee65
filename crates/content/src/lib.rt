// What a record holds: one type for the messages of every record type, and the readers of those
// that are not handshake messages (RFC 5246 7.1, 7.2 and 10, RFC 6520 4).
#![tactic(auto, using(wire::proofs::Numbers::number_is), unfolding(crate::specs::Contents::alert_at, crate::specs::Contents::alert_first, crate::specs::Contents::application_data, crate::specs::Contents::change_cipher_spec_of, crate::specs::Contents::cipher_spec_at, crate::specs::Contents::heartbeat, crate::specs::Contents::heartbeat_in, crate::specs::Contents::heartbeat_of))]

ghost use Rattle.std.specs.Prelude.{◌≡◌};
ghost use Rattle.content.specs.Contents.{alert_at, alert_first, application_data, change_cipher_spec_of, cipher_spec_at, heartbeat, heartbeat_in, heartbeat_of, one_or_two};
ghost use Rattle.refusal.specs.Answers.{as_answer};

use message::handshake::TlsMessageHandshake;
use refusal::{Reason, Refusal};
use wire::number::{Number, Width};
use wire::view::View;

// An alert: its level, 1 or 2, and its description, any byte.
// stays: the level is tls-parser's field, a byte.
#[derive(Clone, Copy)]
pub struct TlsMessageAlert {
    pub severity: u8,
    pub code: u8,
}

// Application data: the whole content of its record.
// stays: tls-parser has this type and `TlsEncryptedContent`, which hold the same, apart.
#[derive(Clone, Copy)]
pub struct TlsMessageApplicationData {
    pub blob: View,
}

// A heartbeat: tls-parser's fields, and where the padding lies, which goes to the end of its
// record.
// stays: the kind and the lengths are tls-parser's fields, `payload_len` beside the payload.
#[derive(Clone, Copy)]
pub struct TlsMessageHeartbeat {
    pub heartbeat_type: u8,
    pub payload_len: u16,
    pub payload: View,
    pub padding: View,
}

// Holds a message by the type of its record; every view in it is of the message's body, which is
// the message itself where it is not a handshake message.
#[derive(Clone, Copy)]
pub enum TlsMessage {
    Handshake(TlsMessageHandshake),
    ChangeCipherSpec,
    Alert(TlsMessageAlert),
    ApplicationData(TlsMessageApplicationData),
    Heartbeat(TlsMessageHeartbeat),
}

// Whether a number is 1 or 2, as the level of an alert and the type of a heartbeat have to be.
pub fn one_or_two(n: usize) -> bool
    ensures { result ≡ one_or_two n }
{
    n == 1 || n == 2
}

// The byte of the ChangeCipherSpec that begins at `at`, with the place past it: Incomplete, then
// LengthValue where it is not 1.
pub fn change_cipher_spec_at(s: &[u8], at: usize) -> Result<Number, Refusal>
    ensures { as_answer result ≡ cipher_spec_at s.now at }
{
    let byte = wire::number::parse_be(s, at, Width::One)?;
    if byte.value != 1 {
        return Err(refusal::refuse(Reason::LengthValue, at, 0));
    }
    Ok(byte)
}

// The alert that begins at `at`, in field order: Incomplete for the level, LengthValue where it is
// neither 1 nor 2, Incomplete for the description.
pub fn alert_at(s: &[u8], at: usize) -> Result<TlsMessageAlert, Refusal>
    ensures { as_answer result ≡ alert_at s.now at }
{
    let level = wire::number::parse_be(s, at, Width::One)?;
    if !one_or_two(level.value) {
        return Err(refusal::refuse(Reason::LengthValue, at, 0));
    }
    let description = wire::number::parse_be(s, level.next, Width::One)?;
    Ok(TlsMessageAlert {
        severity: level.value as u8,
        code: description.value as u8,
    })
}

// The heartbeat that the bytes are: Incomplete where they are under three, whatever the type, then
// LengthValue for the type and for a payload that leaves under 16 bytes of padding.
pub fn read_heartbeat(s: &[u8]) -> Result<TlsMessageHeartbeat, Refusal>
    ensures { as_answer result ≡ heartbeat s.now }
{
    let kind = wire::number::parse_be(s, 0, Width::One)?;
    let announced = wire::number::parse_be(s, kind.next, Width::Two)?;
    let behind = announced.next + announced.value;
    if !one_or_two(kind.value) || s.len() < behind + registry::limit::PADDING {
        return Err(refusal::refuse(Reason::LengthValue, 0, 0));
    }
    Ok(TlsMessageHeartbeat {
        heartbeat_type: kind.value as u8,
        payload_len: announced.value as u16,
        payload: View {
            start: announced.next,
            len: announced.value,
        },
        padding: View {
            start: behind,
            len: s.len() - behind,
        },
    })
}

// The first `len` bytes as a heartbeat: Incomplete where there are fewer.
pub fn take_heartbeat(i: &[u8], len: u16) -> Result<TlsMessageHeartbeat, Refusal>
    ensures { as_answer result ≡ heartbeat_in len i.now }
{
    let whole = field::take(i, 0, len as usize)?.view;
    read_heartbeat(wire::view::part_of(i, whole)).map_err(|r| refusal::inside(r, whole.start))
}

// Reads the ChangeCipherSpec at the front, one byte.
pub fn parse_tls_message_changecipherspec(i: &[u8]) -> Result<TlsMessage, Refusal>
    ensures { as_answer result ≡ change_cipher_spec_of i.now }
{
    change_cipher_spec_at(i, 0)?;
    Ok(TlsMessage::ChangeCipherSpec)
}

// Reads the alert at the front, two bytes.
pub fn parse_tls_message_alert(i: &[u8]) -> Result<TlsMessage, Refusal>
    ensures { as_answer result ≡ alert_first i.now }
{
    Ok(TlsMessage::Alert(alert_at(i, 0)?))
}

// Takes all of the bytes as application data, also where there are none.
pub fn parse_tls_message_applicationdata(i: &[u8]) -> Result<TlsMessage, Refusal>
    ensures { as_answer result ≡ application_data i.now }
{
    Ok(TlsMessage::ApplicationData(TlsMessageApplicationData {
        blob: View {
            start: 0,
            len: i.len(),
        },
    }))
}

// Reads the first `tls_plaintext_len` bytes as a heartbeat: Incomplete where there are fewer.
pub fn parse_tls_message_heartbeat(i: &[u8], tls_plaintext_len: u16) -> Result<TlsMessage, Refusal>
    ensures { as_answer result ≡ heartbeat_of tls_plaintext_len i.now }
{
    Ok(TlsMessage::Heartbeat(take_heartbeat(i, tls_plaintext_len)?))
}
