// A handshake message: its head, what its type opens, and both.
#![tactic(auto)]

ghost use Rattle.std.specs.Prelude.{◌≡◌};
ghost use Rattle.envelope.specs.Opening.{head_at, by_type, message, opened};
ghost use Rattle.refusal.specs.Answers.{as_answer};

use field::RuleName;
use message::handshake::TlsMessageHandshake;
use refusal::{Reason, Refusal};
use registry::handshake;
use wire::number::Width;
use wire::view::View;

// The type, where the body lies, and the place past it.
// stays: the type is the byte that came, any of 256, as C is told it.
#[derive(Clone, Copy)]
pub struct TlsMessageHead {
    pub msg_type: u8,
    pub body: View,
    pub next: usize,
}

// The head of the message that begins at `at`: length and body are taken, and the type is not
// looked at.
#[tactic(auto, unfolding(crate::specs::Opening::head_at))]
pub fn parse_tls_message_head(s: &[u8], at: usize) -> Result<TlsMessageHead, Refusal>
    ensures { as_answer result ≡ head_at s.now at }
{
    let msg_type = wire::number::parse_be(s, at, Width::One)?;
    let body = field::length_data(s, msg_type.next, Width::Three, RuleName::Plain)?;
    Ok(TlsMessageHead {
        msg_type: msg_type.value as u8,
        body: body.view,
        next: body.next,
    })
}

// Opens a body by its type; `len` is for the types that take a length.
// stays: a `match` by the type is plainer than functions in a table, and is compiled in place.
#[tactic(auto, unfolding(crate::specs::Opening::opened))]
pub fn parse_tls_handshake_msg(
    msg_type: u8,
    i: &[u8],
    len: usize,
) -> Result<TlsMessageHandshake, Refusal>
    ensures { as_answer result ≡ opened msg_type len i.now }
{
    match msg_type {
        handshake::HELLO_REQUEST => open_hellos::parse_tls_handshake_msg_hello_request(i),
        handshake::CLIENT_HELLO => open_hellos::parse_tls_handshake_msg_client_hello(i),
        handshake::SERVER_HELLO => open_hellos::parse_tls_handshake_msg_server_hello(i),
        handshake::NEW_SESSION_TICKET => open_fields::parse_tls_handshake_msg_newsessionticket(
            i, len,
        ),
        handshake::END_OF_EARLY_DATA => Ok(TlsMessageHandshake::EndOfEarlyData),
        handshake::HELLO_RETRY_REQUEST => open_hellos::parse_tls_handshake_msg_hello_retry_request(
            i,
        ),
        handshake::CERTIFICATE => open_fields::parse_tls_handshake_msg_certificate(i),
        handshake::SERVER_KEY_EXCHANGE => open_whole::parse_tls_handshake_msg_serverkeyexchange(
            i, len,
        ),
        handshake::CERTIFICATE_REQUEST => open_fields::parse_tls_handshake_msg_certificaterequest(
            i,
        ),
        handshake::SERVER_DONE => open_whole::parse_tls_handshake_msg_serverdone(i, len),
        handshake::CERTIFICATE_VERIFY => open_whole::parse_tls_handshake_msg_certificateverify(
            i, len,
        ),
        handshake::CLIENT_KEY_EXCHANGE => open_whole::parse_tls_handshake_msg_clientkeyexchange(
            i, len,
        ),
        handshake::FINISHED => open_whole::parse_tls_handshake_msg_finished(i, len),
        handshake::CERTIFICATE_STATUS => open_fields::parse_tls_handshake_msg_certificatestatus(i),
        handshake::KEY_UPDATE => open_fields::parse_tls_handshake_msg_key_update(i),
        handshake::NEXT_PROTOCOL => open_fields::parse_tls_handshake_msg_next_protocol(i),
        0x03 | 0x07..=0x0a | 0x11..=0x13 | 0x15 | 0x17 | 0x19..=0x42 | 0x44..=0xff => Err(
            refusal::unplaced(Reason::Switch),
        ),
    }
}

// Opens a body by its type, its length being that of the bytes.
#[tactic(auto, unfolding(crate::specs::Opening::by_type))]
pub fn parse_tls_handshake_body(msg_type: u8, body: &[u8]) -> Result<TlsMessageHandshake, Refusal>
    ensures { as_answer result ≡ by_type msg_type body.now }
{
    parse_tls_handshake_msg(msg_type, body, body.len())
}

// The message at the front; its views are of its body, and `parse_tls_message_head` tells where
// that lies and where the rest begins.
pub fn parse_tls_message_handshake(i: &[u8]) -> Result<TlsMessageHandshake, Refusal>
    ensures { as_answer result ≡ message i.now }
{
    let head = parse_tls_message_head(i, 0)?;
    let body = wire::view::part_of(i, head.body);
    parse_tls_handshake_body(head.msg_type, body).map_err(|r| refusal::inside(r, head.body.start))
}
