// The writers that C and Rust link. Each part is a slice of its own, and no byte is copied before
// every length is checked; an empty slice serves for an id or extensions that are absent. A refusal
// changes no byte.
#![tactic(auto, unfolding(refusal::specs::Refusals::unplaced))]

ghost use Rattle.std.specs.Prelude.{◌≡◌};
ghost use Rattle.norrabist_c.specs.Writers.{exchange_slice_text, finished_text, header_of, kind_told, request_text, wrote_told};
ghost use Rattle.refusal.specs.Answers.{number_in, as_answer};
ghost use Rattle.wire.specs.Puts.{written};
ghost use Rattle.write_client.specs.Slices.{client_text};
ghost use Rattle.write_content.specs.ContentTexts.{alert_text, cipher_spec_text};
ghost use Rattle.write_draft18.specs.Slices.{draft18_text};
ghost use Rattle.write_record.specs.RecordTexts.{record_text};
ghost use Rattle.write_server.specs.Slices.{server_text};

use crate::refusals::answer_number;
use message::handshake;
use record::TlsRecordHeader;
use refusal::Reason;
use write_rules::TextAnswer;

// Holds the table's number (RULES 1.1), and how many bytes the text has: those that were written,
// or that NoRoom asks for; 0 where none may be written.
#[repr(C)]
#[derive(Clone, Copy)]
pub struct Wrote {
    pub count: usize,
    pub number: u8,
}

// What is told of what writing a text came to.
pub fn told(text: TextAnswer) -> Wrote
    ensures { result ≡ record { count = text.len; number = number_in (as_answer text.answer) } }
{
    Wrote {
        count: text.len,
        number: answer_number(text.answer),
    }
}

// Writes a ChangeCipherSpec, the byte 01: NoRoom.
#[unsafe(no_mangle)]
pub extern "C" fn norrabist_gen_tls_changecipherspec(out: &mut [u8]) -> Wrote
    ensures value { result ≡ wrote_told cipher_spec_text out.old }
    ensures out_after { out.new ≡ written cipher_spec_text 0 out.old }
{
    told(write_content::gen_changecipherspec(out))
}

// Writes an alert, level and description: BadLength where the level is neither 1 nor 2, then
// NoRoom.
#[unsafe(no_mangle)]
pub extern "C" fn norrabist_gen_tls_alert(severity: u8, code: u8, out: &mut [u8]) -> Wrote
    ensures value { result ≡ wrote_told (alert_text severity code) out.old }
    ensures out_after { out.new ≡ written (alert_text severity code) 0 out.old }
{
    told(write_content::gen_alert(severity, code, out))
}

// Writes a ClientHello as a message: BadLength, then NoRoom.
#[unsafe(no_mangle)]
pub extern "C" fn norrabist_gen_tls_clienthello(
    version: u16,
    random: &[u8],
    session_id: &[u8],
    ciphers: &[u8],
    comp: &[u8],
    ext: &[u8],
    out: &mut [u8],
) -> Wrote
    ensures value { result ≡ wrote_told (client_text version random.now session_id.now ciphers.now comp.now ext.now) out.old }
    ensures out_after { out.new ≡ written (client_text version random.now session_id.now ciphers.now comp.now ext.now) 0 out.old }
{
    told(write_client::gen_clienthello(version, random, session_id, ciphers, comp, ext, out))
}

// Writes a ServerHello as a message: BadLength, then NoRoom.
#[unsafe(no_mangle)]
pub extern "C" fn norrabist_gen_tls_serverhello(
    version: u16,
    random: &[u8],
    session_id: &[u8],
    cipher: u16,
    compression: u8,
    ext: &[u8],
    out: &mut [u8],
) -> Wrote
    ensures value { result ≡ wrote_told (server_text version random.now session_id.now cipher compression ext.now) out.old }
    ensures out_after { out.new ≡ written (server_text version random.now session_id.now cipher compression ext.now) 0 out.old }
{
    told(write_server::gen_serverhello(version, random, session_id, cipher, compression, ext, out))
}

// Writes a ServerHello of draft 18 as a message: BadLength, then NoRoom.
#[unsafe(no_mangle)]
pub extern "C" fn norrabist_gen_tls_serverhellodraft18(
    version: u16,
    random: &[u8],
    cipher: u16,
    ext: &[u8],
    out: &mut [u8],
) -> Wrote
    ensures value { result ≡ wrote_told (draft18_text version random.now cipher ext.now) out.old }
    ensures out_after { out.new ≡ written (draft18_text version random.now cipher ext.now) 0 out.old }
{
    told(write_draft18::gen_serverhellodraft18(version, random, cipher, ext, out))
}

// Writes a ClientKeyExchange of the form that has that number in `message::keyexchange`: BadLength,
// also of any other number, then NoRoom.
#[unsafe(no_mangle)]
pub extern "C" fn norrabist_gen_tls_clientkeyexchange(
    form: u8,
    part: &[u8],
    out: &mut [u8],
) -> Wrote
    ensures value { result ≡ wrote_told (exchange_slice_text form part.now) out.old }
    ensures out_after { out.new ≡ written (exchange_slice_text form part.now) 0 out.old }
{
    told(write_others::gen_clientkeyexchange(form as usize, part, out))
}

// Writes a HelloRequest, four bytes, or answers NoRoom.
#[unsafe(no_mangle)]
pub extern "C" fn norrabist_gen_tls_hellorequest(out: &mut [u8]) -> Wrote
    ensures value { result ≡ wrote_told request_text out.old }
    ensures out_after { out.new ≡ written request_text 0 out.old }
{
    let answer = write_others::gen_tls_hellorequest(out);
    told(TextAnswer { answer, len: 4 })
}

// Writes a Finished: BadLength, then NoRoom.
#[unsafe(no_mangle)]
pub extern "C" fn norrabist_gen_tls_finished(part: &[u8], out: &mut [u8]) -> Wrote
    ensures value { result ≡ wrote_told (finished_text part.now) out.old }
    ensures out_after { out.new ≡ written (finished_text part.now) 0 out.old }
{
    told(write_others::gen_finished(part, out))
}

// Writes a record of that type and version round `msg`, which is not opened: TooLarge, then NoRoom.
#[unsafe(no_mangle)]
pub extern "C" fn norrabist_gen_tls_plaintext(
    record_type: u8,
    version: u16,
    msg: &[u8],
    out: &mut [u8],
) -> Wrote
    ensures value { result ≡ wrote_told (record_text (header_of record_type version) msg.now) out.old }
    ensures out_after { out.new ≡ written (record_text (header_of record_type version) msg.now) 0 out.old }
{
    let hdr = TlsRecordHeader {
        record_type,
        version,
        len: 0,
    };
    told(write_record::gen_plaintext(hdr, msg, out))
}

// Answers 0 for a kind that is written, by its number in `message::handshake`, and
// NotYetImplemented for any other.
#[unsafe(no_mangle)]
pub extern "C" fn norrabist_kind_written(kind: u16) -> u8
    ensures { result ≡ kind_told kind }
{
    match kind as usize {
        handshake::HELLO_REQUEST
        | handshake::CLIENT_HELLO
        | handshake::SERVER_HELLO
        | handshake::CLIENT_KEY_EXCHANGE
        | handshake::FINISHED
        | handshake::SERVER_HELLO_DRAFT18 => 0,
        _ => refusal::refusal_number(refusal::unplaced(Reason::NotYetImplemented)),
    }
}
