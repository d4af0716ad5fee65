// A handshake message, written: each kind that is, by its own writer.
#![tactic(auto, unfolding(crate::specs::Written::handshake_text))]

ghost use Rattle.std.specs.Prelude.{◌≡◌};
ghost use Rattle.wire.specs.Puts.{room, written};
ghost use Rattle.write_message.specs.Written.{handshake_text};
ghost use Rattle.refusal.specs.Answers.{as_answer};

use message::handshake::TlsMessageHandshake;
use refusal::{Reason, Refusal};
use write_client::gen_tls_clienthello;
use write_draft18::gen_tls_serverhellodraft18;
use write_others::{gen_tls_clientkeyexchange, gen_tls_finished, gen_tls_hellorequest};
use write_server::gen_tls_serverhello;

// Writes any message, its views being of `i`: NotYetImplemented, then BadLength, then NoRoom. A
// refusal changes no byte.
// stays: a `match` by the kind is plainer than functions in a table.
pub fn gen_tls_messagehandshake(
    m: TlsMessageHandshake,
    i: &[u8],
    out: &mut [u8],
) -> Result<usize, Refusal>
    ensures result_value { as_answer result ≡ room (handshake_text i.now m) 0 out.old }
    ensures out_after { out.new ≡ written (handshake_text i.now m) 0 out.old }
{
    match m {
        TlsMessageHandshake::HelloRequest => gen_tls_hellorequest(out),
        TlsMessageHandshake::ClientHello(c) => gen_tls_clienthello(c, i, out),
        TlsMessageHandshake::ServerHello(c) => gen_tls_serverhello(c, i, out),
        TlsMessageHandshake::ServerHelloV13Draft18(c) => gen_tls_serverhellodraft18(c, i, out),
        TlsMessageHandshake::ClientKeyExchange(k) => gen_tls_clientkeyexchange(k, i, out),
        TlsMessageHandshake::Finished(v) => gen_tls_finished(v, i, out),
        _ => Err(refusal::unplaced(Reason::NotYetImplemented)),
    }
}
