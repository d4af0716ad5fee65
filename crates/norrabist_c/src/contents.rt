// Messages that are not handshake messages: ChangeCipherSpec, alert and heartbeat. Application data
// is the whole of its bytes, and has no export.
ghost use Rattle.std.specs.Prelude.{◌≡◌};
ghost use Rattle.content.specs.Contents.{alert_at, cipher_spec_at, heartbeat_in};
ghost use Rattle.norrabist_c.specs.Contents.{alert_told, heartbeat_told};
ghost use Rattle.refusal.specs.Answers.{number_in};

use crate::refusals::answer_number;

// Reads a ChangeCipherSpec, one byte: 0, or the refusal's number.
#[unsafe(no_mangle)]
pub extern "C" fn norrabist_parse_tls_message_changecipherspec(i: &[u8]) -> u8
    ensures { result ≡ number_in (cipher_spec_at i.now 0) }
{
    answer_number(content::change_cipher_spec_at(i, 0))
}

// What is told of an alert, which has two bytes.
#[repr(C)]
#[derive(Clone, Copy, Default)]
pub struct AlertTold {
    pub severity: u8,
    pub code: u8,
    pub number: u8,
}

// Reads the alert at the front.
#[unsafe(no_mangle)]
pub extern "C" fn norrabist_parse_tls_message_alert(i: &[u8]) -> AlertTold
    ensures { result ≡ alert_told (alert_at i.now 0) }
{
    match content::alert_at(i, 0) {
        Err(r) => AlertTold {
            number: refusal::refusal_number(r),
            ..Default::default()
        },
        Ok(a) => AlertTold {
            severity: a.severity,
            code: a.code,
            number: 0,
        },
    }
}

// What is told of a heartbeat: the length of the payload, which begins at byte 3, and the type. The
// padding is what stands behind the payload.
#[repr(C)]
#[derive(Clone, Copy, Default)]
pub struct HeartbeatTold {
    pub payload: u16,
    pub heartbeat_type: u8,
    pub number: u8,
}

// Reads the first `len` bytes as a heartbeat.
#[unsafe(no_mangle)]
pub extern "C" fn norrabist_parse_tls_message_heartbeat(i: &[u8], len: u16) -> HeartbeatTold
    ensures { result ≡ heartbeat_told (heartbeat_in len i.now) }
{
    match content::take_heartbeat(i, len) {
        Err(r) => HeartbeatTold {
            number: refusal::refusal_number(r),
            ..Default::default()
        },
        Ok(h) => HeartbeatTold {
            payload: h.payload_len,
            heartbeat_type: h.heartbeat_type,
            number: 0,
        },
    }
}
