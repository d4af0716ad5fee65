// The ServerHello, written (RFC 5246 7.4.1.3): the same at every version.
#![tactic(auto)]

ghost use Rattle.std.specs.Prelude.{true, ◌≡◌, ℕ, ◌≤◌, length};
ghost use Rattle.read_server.specs.Server.{server};
ghost use Rattle.registry.specs.Types.{server_hello_type};
ghost use Rattle.write_rules.specs.HelloTexts.{hello_text};
ghost use Rattle.write_rules.specs.JoinTexts.{all_lie, join_bytes, may_join, text_length};
ghost use Rattle.write_rules.specs.MessageTexts.{head_text, message_text};
ghost use Rattle.wire.specs.Puts.{put, room, written};
ghost use Rattle.write_server.specs.Slices.{server_parts, server_rows, server_text};
ghost use Rattle.refusal.specs.Answers.{as_answer};

use field::RuleName;
use read_server::tlsv12::TlsServerHelloContents;
use refusal::{Reason, Refusal};
use wire::number::Width;
use write_rules::TextAnswer;

// Whether each part may stand in its field; any version, cipher and method may.
#[tactic(auto, using(crate::proofs::Asked::may_is))]
fn writable(random: &[u8], id: &[u8], ext: &[u8]) -> bool
    ensures { (v c k : ℕ) → result ≡ may_join server_rows (server_parts v random.now id.now c k) ext.now }
{
    random.len() == registry::limit::RANDOM
        && field::may_follow(Width::One, RuleName::SessionId, id.len())
        && field::may_follow(Width::Two, RuleName::Plain, ext.len())
}

// The fields in order, from the front of the part that is lent.
// stays: `let _` drops answers that are known, since there is room; `?` would hand them on.
// stays: by a loop over a row of pieces each hello is slower (docs/DECISIONS.md).
fn put_fields(
    version: u16,
    random: &[u8],
    id: &[u8],
    cipher: u16,
    compression: u8,
    ext: &[u8],
    out: &mut [u8],
)
    requires { (may_join server_rows (server_parts version random.now id.now cipher compression) ext.now ≡ true) × (length (join_bytes server_rows (server_parts version random.now id.now cipher compression) ext.now) ≤ length out.old) }
    ensures { out.new ≡ put out.old 0 (join_bytes server_rows (server_parts version random.now id.now cipher compression) ext.now) }
{
    let past_id = 35 + id.len();
    let past_cipher = past_id + 2;
    let past_compression = past_id + 3;
    let _ = wire::number::gen_be(out, 0, Width::Two, version as usize);
    let _ = wire::output::gen_bytes(out, 2, random);
    let _ = field::gen_length_data(out, 34, Width::One, RuleName::SessionId, id);
    let _ = wire::number::gen_be(out, past_id, Width::Two, cipher as usize);
    let _ = wire::number::gen_be(out, past_cipher, Width::One, compression as usize);
    let _ = field::gen_length_data(out, past_compression, Width::Two, RuleName::Plain, ext);
}

// Writes a ServerHello whose parts are handed over apart as a message: BadLength, then NoRoom. A
// refusal changes no byte; with NoRoom the length that the message needs is told.
// stays: the parts come one by one, as `norrabist_gen_tls_serverhello` has them of C.
// stays: `let _` drops an answer that is known, since there is room; `?` would hand it on.
pub fn gen_serverhello(
    version: u16,
    random: &[u8],
    id: &[u8],
    cipher: u16,
    compression: u8,
    ext: &[u8],
    out: &mut [u8],
) -> TextAnswer
    ensures answer_value { as_answer result.answer ≡ room (server_text version random.now id.now cipher compression ext.now) 0 out.old }
    ensures len_value { result.len ≡ text_length (server_text version random.now id.now cipher compression ext.now) }
    ensures out_after { out.new ≡ written (server_text version random.now id.now cipher compression ext.now) 0 out.old }
{
    if !writable(random, id, ext) {
        return TextAnswer::refused(Reason::BadLength);
    }
    let n = 40 + id.len() + ext.len();
    let len = 4 + n;
    match wire::output::room_for(out, 0, len) {
        Err(r) => TextAnswer {
            answer: Err(r),
            len,
        },
        Ok(p) => {
            put_fields(version, random, id, cipher, compression, ext, &mut out[4..]);
            let _ = write_rules::gen_head(out, registry::handshake::SERVER_HELLO, n);
            TextAnswer {
                answer: Ok(p.next),
                len,
            }
        }
    }
}

// Whether all that the hello names lies in the bytes lent.
#[tactic(auto, using(crate::proofs::Asked::lies_is))]
fn lies_in(m: TlsServerHelloContents, i: &[u8]) -> bool
    ensures { result ≡ all_lie (server true) i.now m }
{
    write_rules::lies_in(i, m.random)
        && write_rules::opt_lies_in(i, m.session_id)
        && write_rules::opt_lies_in(i, m.ext)
}

// Writes a ServerHello as a message: BadLength, then NoRoom. A refusal changes no byte.
pub fn gen_tls_serverhello(
    m: TlsServerHelloContents,
    i: &[u8],
    out: &mut [u8],
) -> Result<usize, Refusal>
    ensures result_value { as_answer result ≡ room (message_text (head_text server_hello_type) (hello_text (server true) i.now m)) 0 out.old }
    ensures out_after { out.new ≡ written (message_text (head_text server_hello_type) (hello_text (server true) i.now m)) 0 out.old }
{
    if !lies_in(m, i) {
        return Err(refusal::unplaced(Reason::BadLength));
    }
    let random = m.random(i);
    let id = m.session_id(i);
    let ext = m.ext(i);
    gen_serverhello(m.version, random, id, m.cipher, m.compression, ext, out).answer
}
