// Row 15, a hello written back; and beside it the order of a writer's refusals. The whole output is
// shown: it was lent as aa.
use crate::say::{self, Bytes, Hex};
use norrabist::{Refusal, TlsMessageHandshake, View};
use std::io::{self, Write};

// The longest output.
const MOST: usize = 48;

// The answer to a write into the first `room` bytes, and these.
fn say_written<F: FnOnce(&mut [u8]) -> Result<usize, Refusal>>(
    to: &mut impl Write,
    room: usize,
    write: F,
) -> io::Result<()>
    requires { F.IsAlwaysCallable write }
{
    let mut out = [0xaau8; MOST];
    if room > MOST {
        return Ok(());
    }
    match write(&mut out[..room]) {
        Err(r) => write!(to, "refused {}", norrabist::refusal_number(r))?,
        Ok(n) => write!(to, "{}", Bytes(n))?,
    }
    writeln!(to, ", the output {}", Hex(&out[..room]))
}

fn client(to: &mut impl Write, row: &str, text: &str, s: &[u8], room: usize) -> io::Result<()> {
    say::row(to, row, "write back ClientHello", text)?;
    match norrabist::parse_tls_handshake_client_hello(s) {
        Err(r) => say::refused(to, r),
        Ok(c) => say_written(to, room, |o| norrabist::gen_tls_clienthello(c, s, o)),
    }
}

fn server(to: &mut impl Write, text: &str, s: &[u8], room: usize) -> io::Result<()> {
    say::row(to, "-", "write back ServerHello", text)?;
    match norrabist::parse_tls_handshake_server_hello(s) {
        Err(r) => say::refused(to, r),
        Ok(c) => say_written(to, room, |o| norrabist::gen_tls_serverhello(c, s, o)),
    }
}

// A message whose parts lie in two bytes, into five.
fn message(to: &mut impl Write, text: &str, m: TlsMessageHandshake) -> io::Result<()> {
    let s = [0x11u8; 2];
    say::row(to, "-", "write", text)?;
    say_written(to, 5, |o| norrabist::gen_tls_messagehandshake(m, &s, o))
}

// With room to spare, with just enough, and short by one.
pub(crate) fn backs(to: &mut impl Write) -> io::Result<()> {
    let mut s = [0u8; 38];
    s[0] = 0x03;
    s[1] = 0x03;
    client(to, "15", "H into 48 bytes", &s, 48)?;
    client(to, "15", "H into 44 bytes", &s, 44)?;
    client(to, "15", "H into 43 bytes", &s, 43)?;
    s[1] = 0;
    s[36] = 0x2f;
    server(to, "0300 Z 00 002f 00 into 44 bytes", &s, 44)
}

// A kind that is not written comes before a view outside, and that before the room.
pub(crate) fn orders(to: &mut impl Write) -> io::Result<()> {
    let one = TlsMessageHandshake::Finished(View { start: 0, len: 1 });
    let both = TlsMessageHandshake::Finished(View { start: 0, len: 2 });
    let outside = View { start: 1, len: 2 };
    message(to, "Finished 11 into 5 bytes", one)?;
    message(to, "Finished 1111 into 5 bytes", both)?;
    message(
        to,
        "Finished outside into 5 bytes",
        TlsMessageHandshake::Finished(outside),
    )?;
    message(
        to,
        "ServerDone outside into 5 bytes",
        TlsMessageHandshake::ServerDone(outside),
    )?;
    message(
        to,
        "HelloRequest into 5 bytes",
        TlsMessageHandshake::HelloRequest,
    )
}
