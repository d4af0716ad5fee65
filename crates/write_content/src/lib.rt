// The messages of a record, written: ChangeCipherSpec and alert, and any message by its kind (RFC
// 5246 7.1, 7.2). What is written is the message alone; the record's writer puts the record round
// it.
#![tactic(auto)]

ghost use Rattle.std.specs.Prelude.{◌≡◌};
ghost use Rattle.wire.specs.Puts.{room, written};
ghost use Rattle.write_rules.specs.JoinTexts.{text_length};
ghost use Rattle.write_content.specs.ContentTexts.{alert_text, cipher_spec_text, content_text};
ghost use Rattle.refusal.specs.Answers.{as_answer};

use content::{TlsMessage, TlsMessageAlert};
use refusal::{Reason, Refusal};
use write_message::gen_tls_messagehandshake;
use write_rules::TextAnswer;

// Writes a ChangeCipherSpec, the byte 01, or answers NoRoom, and tells the length that it needs. A
// refusal changes no byte.
pub fn gen_changecipherspec(out: &mut [u8]) -> TextAnswer
    ensures answer_value { as_answer result.answer ≡ room cipher_spec_text 0 out.old }
    ensures len_value { result.len ≡ text_length cipher_spec_text }
    ensures out_after { out.new ≡ written cipher_spec_text 0 out.old }
{
    TextAnswer {
        answer: wire::output::gen_bytes(out, 0, &[1]),
        len: 1,
    }
}

// Writes an alert, its level and its description: BadLength where the level is neither 1 nor 2,
// then NoRoom, with which the length is told. A refusal changes no byte.
pub fn gen_alert(severity: u8, code: u8, out: &mut [u8]) -> TextAnswer
    ensures answer_value { as_answer result.answer ≡ room (alert_text severity code) 0 out.old }
    ensures len_value { result.len ≡ text_length (alert_text severity code) }
    ensures out_after { out.new ≡ written (alert_text severity code) 0 out.old }
{
    if !content::one_or_two(severity as usize) {
        return TextAnswer::refused(Reason::BadLength);
    }
    TextAnswer {
        answer: wire::output::gen_bytes(out, 0, &[severity, code]),
        len: 2,
    }
}

// Writes a ChangeCipherSpec, or answers NoRoom. A refusal changes no byte.
pub fn gen_tls_changecipherspec(out: &mut [u8]) -> Result<usize, Refusal>
    ensures result_value { as_answer result ≡ room cipher_spec_text 0 out.old }
    ensures out_after { out.new ≡ written cipher_spec_text 0 out.old }
{
    gen_changecipherspec(out).answer
}

// Writes an alert: BadLength, then NoRoom. A refusal changes no byte.
pub fn gen_tls_alert(m: TlsMessageAlert, out: &mut [u8]) -> Result<usize, Refusal>
    ensures result_value { as_answer result ≡ room (alert_text m.severity m.code) 0 out.old }
    ensures out_after { out.new ≡ written (alert_text m.severity m.code) 0 out.old }
{
    gen_alert(m.severity, m.code, out).answer
}

// Writes a message of any record type, its views being of `i`: NotYetImplemented, then BadLength,
// then NoRoom. A refusal changes no byte.
// stays: a `match` by the kind is plainer than functions in a table
pub fn gen_tls_message(m: TlsMessage, i: &[u8], out: &mut [u8]) -> Result<usize, Refusal>
    ensures result_value { as_answer result ≡ room (content_text i.now m) 0 out.old }
    ensures out_after { out.new ≡ written (content_text i.now m) 0 out.old }
{
    match m {
        TlsMessage::Handshake(h) => gen_tls_messagehandshake(h, i, out),
        TlsMessage::ChangeCipherSpec => gen_tls_changecipherspec(out),
        TlsMessage::Alert(a) => gen_tls_alert(a, out),
        TlsMessage::ApplicationData(_) | TlsMessage::Heartbeat(_) => {
            Err(refusal::unplaced(Reason::NotYetImplemented))
        }
    }
}
