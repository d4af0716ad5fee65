// The ServerHello of TLS 1.3 draft 18, written (draft-ietf-tls-tls13-18, 4.1.3).
#![tactic(auto)]

ghost use Rattle.std.specs.Prelude.{true, ◌≡◌, ℕ, ◌≤◌, length};
ghost use Rattle.read_server.specs.Server.{draft18};
ghost use Rattle.registry.specs.Types.{server_hello_type};
ghost use Rattle.write_rules.specs.HelloTexts.{hello_text};
ghost use Rattle.write_rules.specs.JoinTexts.{all_lie, join_bytes, may_join, text_length};
ghost use Rattle.write_rules.specs.MessageTexts.{head_text, message_text};
ghost use Rattle.wire.specs.Puts.{put, room, written};
ghost use Rattle.write_draft18.specs.Slices.{draft18_parts, draft18_rows, draft18_text};
ghost use Rattle.refusal.specs.Answers.{as_answer};

use field::RuleName;
use read_server::tlsv13draft18::TlsServerHelloV13Draft18Contents;
use refusal::{Reason, Refusal};
use wire::number::Width;
use write_rules::TextAnswer;

// Whether each part may stand in its field; any version and cipher may.
#[tactic(auto, using(crate::proofs::Asked::may_is))]
fn writable(random: &[u8], ext: &[u8]) -> bool
    ensures { (v c : ℕ) → result ≡ may_join draft18_rows (draft18_parts v random.now c) ext.now }
{
    random.len() == registry::limit::RANDOM
        && field::may_follow(Width::Two, RuleName::Plain, ext.len())
}

// The fields in order, from the front of the part that is lent.
// stays: `let _` drops answers that are known, since there is room; `?` would hand them on.
// stays: by a loop over a row of pieces each hello is slower (docs/DECISIONS.md).
fn put_fields(version: u16, random: &[u8], cipher: u16, ext: &[u8], out: &mut [u8])
    requires { (may_join draft18_rows (draft18_parts version random.now cipher) ext.now ≡ true) × (length (join_bytes draft18_rows (draft18_parts version random.now cipher) ext.now) ≤ length out.old) }
    ensures { out.new ≡ put out.old 0 (join_bytes draft18_rows (draft18_parts version random.now cipher) ext.now) }
{
    let _ = wire::number::gen_be(out, 0, Width::Two, version as usize);
    let _ = wire::output::gen_bytes(out, 2, random);
    let _ = wire::number::gen_be(out, 34, Width::Two, cipher as usize);
    let _ = field::gen_length_data(out, 36, Width::Two, RuleName::Plain, ext);
}

// Writes a ServerHello of draft 18 whose parts are handed over apart as a message: BadLength, then
// NoRoom. A refusal changes no byte; with NoRoom the length that the message needs is told.
// stays: the parts come one by one, as `norrabist_gen_tls_serverhellodraft18` has them of C.
// stays: `let _` drops an answer that is known, since there is room; `?` would hand it on.
pub fn gen_serverhellodraft18(
    version: u16,
    random: &[u8],
    cipher: u16,
    ext: &[u8],
    out: &mut [u8],
) -> TextAnswer
    ensures answer_value { as_answer result.answer ≡ room (draft18_text version random.now cipher ext.now) 0 out.old }
    ensures len_value { result.len ≡ text_length (draft18_text version random.now cipher ext.now) }
    ensures out_after { out.new ≡ written (draft18_text version random.now cipher ext.now) 0 out.old }
{
    if !writable(random, ext) {
        return TextAnswer::refused(Reason::BadLength);
    }
    let n = 38 + ext.len();
    let len = 4 + n;
    match wire::output::room_for(out, 0, len) {
        Err(r) => TextAnswer {
            answer: Err(r),
            len,
        },
        Ok(p) => {
            put_fields(version, random, cipher, ext, &mut out[4..]);
            let _ = write_rules::gen_head(out, registry::handshake::SERVER_HELLO, n);
            TextAnswer {
                answer: Ok(p.next),
                len,
            }
        }
    }
}

// Whether all that the hello names lies in the bytes lent.
#[tactic(auto, using(crate::proofs::Asked::lies_is))]
fn lies_in(m: TlsServerHelloV13Draft18Contents, i: &[u8]) -> bool
    ensures { result ≡ all_lie draft18 i.now m }
{
    write_rules::lies_in(i, m.random) && write_rules::opt_lies_in(i, m.ext)
}

// Writes a ServerHello of draft 18 as a message: BadLength, then NoRoom. A refusal changes no byte.
pub fn gen_tls_serverhellodraft18(
    m: TlsServerHelloV13Draft18Contents,
    i: &[u8],
    out: &mut [u8],
) -> Result<usize, Refusal>
    ensures result_value { as_answer result ≡ room (message_text (head_text server_hello_type) (hello_text draft18 i.now m)) 0 out.old }
    ensures out_after { out.new ≡ written (message_text (head_text server_hello_type) (hello_text draft18 i.now m)) 0 out.old }
{
    if !lies_in(m, i) {
        return Err(refusal::unplaced(Reason::BadLength));
    }
    let random = m.random(i);
    let ext = m.ext(i);
    gen_serverhellodraft18(m.version, random, m.cipher, ext, out).answer
}
