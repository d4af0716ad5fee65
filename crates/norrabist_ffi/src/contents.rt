// The exports of `norrabist_c::contents`; made by ./papers --write.
ghost use Rattle.std.specs.Prelude.{◌≡◌};
ghost use Rattle.content.specs.Contents.{alert_at, cipher_spec_at, heartbeat_in};
ghost use Rattle.norrabist_c.specs.Contents.{alert_told, heartbeat_told};
ghost use Rattle.refusal.specs.Answers.{number_in};

use norrabist_c::contents::{AlertTold, HeartbeatTold};

// Reads a ChangeCipherSpec, one byte: 0, or the refusal's number.
#[unsafe(no_mangle)]
pub extern "C" fn norrabist_parse_tls_message_changecipherspec(i: &[u8]) -> u8
    ensures { result ≡ number_in (cipher_spec_at i.now 0) }
{
    norrabist_c::contents::norrabist_parse_tls_message_changecipherspec(i)
}

// Reads the alert at the front.
#[unsafe(no_mangle)]
pub extern "C" fn norrabist_parse_tls_message_alert(i: &[u8]) -> AlertTold
    ensures { result ≡ alert_told (alert_at i.now 0) }
{
    norrabist_c::contents::norrabist_parse_tls_message_alert(i)
}

// Reads the first `len` bytes as a heartbeat.
#[unsafe(no_mangle)]
pub extern "C" fn norrabist_parse_tls_message_heartbeat(i: &[u8], len: u16) -> HeartbeatTold
    ensures { result ≡ heartbeat_told (heartbeat_in len i.now) }
{
    norrabist_c::contents::norrabist_parse_tls_message_heartbeat(i, len)
}
