// The writers at the edges of what may be written: for each call the lengths of its parts, the
// room, the answer, and how many bytes of an output of 0xaa are others then.
ghost use Rattle.std.specs.Prelude.{◌≡◌};

use norrabist::{
    Refusal, TlsClientHelloContents, TlsClientKeyExchangeContents, TlsRecordHeader,
    TlsServerHelloContents, TlsServerHelloV13Draft18Contents, View,
};
use std::io::{self, Write};

// More than the longest hello: the length of every output, which is lent as 0xaa, and of the source
// of every part.
const MOST: usize = 131_500;

type Output = [u8; MOST];

// The first bytes of the source.
fn front(len: usize) -> View
    ensures { result ≡ record { start = 0; «len» = len } }
{
    View { start: 0, len }
}

// Ends the line of a call: the answer to a write into the first `room` bytes, and how many bytes
// are not 0xaa then.
// stays: room, source and output are three arguments: a struct would be made anew a call
fn say_written<F: FnOnce(&mut [u8]) -> Result<usize, Refusal>>(
    to: &mut impl Write,
    room: usize,
    mut out: Output,
    write: F,
) -> io::Result<()>
    requires { F.IsAlwaysCallable write }
{
    if room > MOST {
        return Ok(());
    }
    write!(to, " room {room}:")?;
    match write(&mut out[..room]) {
        Err(r) => write!(to, " {}", norrabist::refusal_number(r))?,
        Ok(n) => write!(to, " 0 {n}")?,
    }
    let others = out.iter().filter(|b| **b != 0xaa).count();
    writeln!(to, " {others}")
}

fn client(
    to: &mut impl Write,
    lens: [usize; 5],
    room: usize,
    s: &[u8],
    out: Output,
) -> io::Result<()> {
    let [random, id, ciphers, comp, ext] = lens;
    write!(
        to,
        "gen_tls_clienthello {random} {id} {ciphers} {comp} {ext}"
    )?;
    let m = TlsClientHelloContents {
        version: 0x0303,
        random: front(random),
        session_id: Some(front(id)),
        ciphers: front(ciphers),
        comp: front(comp),
        ext: Some(front(ext)),
        tail: 0,
    };
    say_written(to, room, out, |o| norrabist::gen_tls_clienthello(m, s, o))
}

fn server(
    to: &mut impl Write,
    lens: [usize; 3],
    room: usize,
    s: &[u8],
    out: Output,
) -> io::Result<()> {
    let [random, id, ext] = lens;
    write!(to, "gen_tls_serverhello {random} {id} {ext}")?;
    let m = TlsServerHelloContents {
        version: 0x0300,
        random: front(random),
        session_id: Some(front(id)),
        cipher: 0x002f,
        compression: 0,
        ext: Some(front(ext)),
        tail: 0,
    };
    say_written(to, room, out, |o| norrabist::gen_tls_serverhello(m, s, o))
}

fn draft18(
    to: &mut impl Write,
    random: usize,
    ext: usize,
    room: usize,
    s: &[u8],
    out: Output,
) -> io::Result<()> {
    write!(to, "gen_tls_serverhellodraft18 {random} {ext}")?;
    let m = TlsServerHelloV13Draft18Contents {
        version: 0x7f12,
        random: front(random),
        cipher: 0x1301,
        ext: Some(front(ext)),
        tail: 0,
    };
    say_written(
        to,
        room,
        out,
        |o| norrabist::gen_tls_serverhellodraft18(m, s, o),
    )
}

fn exchange(
    to: &mut impl Write,
    name: &str,
    m: TlsClientKeyExchangeContents,
    room: usize,
    s: &[u8],
    out: Output,
) -> io::Result<()> {
    write!(to, "gen_tls_clientkeyexchange {name}")?;
    say_written(
        to,
        room,
        out,
        |o| norrabist::gen_tls_clientkeyexchange(m, s, o),
    )
}

fn finished(
    to: &mut impl Write,
    start: usize,
    len: usize,
    room: usize,
    s: &[u8],
    out: Output,
) -> io::Result<()> {
    write!(to, "gen_tls_finished {start} {len}")?;
    let v = View { start, len };
    say_written(to, room, out, |o| norrabist::gen_tls_finished(v, s, o))
}

fn request(to: &mut impl Write, room: usize, out: Output) -> io::Result<()> {
    write!(to, "gen_tls_hellorequest")?;
    say_written(to, room, out, |o| norrabist::gen_tls_hellorequest(o))
}

fn plaintext(
    to: &mut impl Write,
    len: usize,
    room: usize,
    s: &[u8],
    out: Output,
) -> io::Result<()> {
    let hdr = TlsRecordHeader {
        record_type: 0x16,
        version: 0x0303,
        len: 0xffff,
    };
    write!(to, "gen_tls_plaintext {len}")?;
    let content = norrabist::part_of(s, front(len));
    say_written(
        to,
        room,
        out,
        |o| norrabist::gen_tls_plaintext(hdr, content, o),
    )
}

fn clients(to: &mut impl Write, s: &[u8], out: Output) -> io::Result<()> {
    client(to, [32, 0, 0, 0, 0], 44, s, out)?;
    client(to, [32, 0, 0, 0, 0], 43, s, out)?;
    client(to, [32, 32, 65_534, 255, 65_535], 131_400, s, out)?;
    client(to, [32, 32, 65_534, 255, 65_535], 131_399, s, out)
}

fn clients_refused(to: &mut impl Write, s: &[u8], out: Output) -> io::Result<()> {
    client(to, [31, 0, 0, 0, 0], MOST, s, out)?;
    client(to, [33, 0, 0, 0, 0], MOST, s, out)?;
    client(to, [32, 33, 0, 0, 0], MOST, s, out)?;
    client(to, [32, 0, 1, 0, 0], MOST, s, out)?;
    client(to, [32, 0, 65_536, 0, 0], MOST, s, out)?;
    client(to, [32, 0, 0, 256, 0], MOST, s, out)?;
    client(to, [32, 0, 0, 0, 65_536], 0, s, out)
}

fn servers(to: &mut impl Write, s: &[u8], out: Output) -> io::Result<()> {
    server(to, [32, 32, 65_535], 65_611, s, out)?;
    server(to, [32, 32, 65_535], 65_610, s, out)?;
    server(to, [32, 33, 0], 0, s, out)?;
    server(to, [0, 0, 0], MOST, s, out)?;
    server(to, [32, 0, 65_536], MOST, s, out)
}

fn drafts(to: &mut impl Write, s: &[u8], out: Output) -> io::Result<()> {
    draft18(to, 32, 65_535, 65_577, s, out)?;
    draft18(to, 32, 65_535, 65_576, s, out)?;
    draft18(to, 32, 65_536, MOST, s, out)?;
    draft18(to, 31, 0, MOST, s, out)?;
    draft18(to, 33, 0, MOST, s, out)
}

fn exchanges(to: &mut impl Write, s: &[u8], out: Output) -> io::Result<()> {
    let raw = TlsClientKeyExchangeContents::Unknown(front(131_400));
    let dh = TlsClientKeyExchangeContents::Dh(front(65_535));
    let dh_past = TlsClientKeyExchangeContents::Dh(front(65_536));
    let ecdh = TlsClientKeyExchangeContents::Ecdh(front(255));
    let ecdh_past = TlsClientKeyExchangeContents::Ecdh(front(256));
    exchange(to, "raw 131,400", raw, 131_404, s, out)?;
    exchange(to, "raw 131,400", raw, 131_403, s, out)?;
    exchange(to, "DH 65,535", dh, 65_541, s, out)?;
    exchange(to, "DH 65,536", dh_past, MOST, s, out)?;
    exchange(to, "ECDH 255", ecdh, 260, s, out)?;
    exchange(to, "ECDH 256", ecdh_past, 0, s, out)
}

fn parts(to: &mut impl Write, s: &[u8], out: Output) -> io::Result<()> {
    finished(to, 0, MOST, 0, s, out)?;
    finished(to, 1, MOST, MOST, s, out)?;
    finished(to, MOST, 0, 4, s, out)?;
    finished(to, 12, 12, 16, s, out)?;
    request(to, 4, out)?;
    request(to, 3, out)
}

fn records(to: &mut impl Write, s: &[u8], out: Output) -> io::Result<()> {
    plaintext(to, 0, 5, s, out)?;
    plaintext(to, 0, 4, s, out)?;
    plaintext(to, 16_640, 16_645, s, out)?;
    plaintext(to, 16_640, 16_644, s, out)?;
    plaintext(to, 16_641, 0, s, out)
}

pub(crate) fn all(to: &mut impl Write) -> io::Result<()> {
    let s = [0u8; MOST];
    let out = [0xaau8; MOST];
    clients(to, &s, out)?;
    clients_refused(to, &s, out)?;
    servers(to, &s, out)?;
    drafts(to, &s, out)?;
    exchanges(to, &s, out)?;
    parts(to, &s, out)?;
    records(to, &s, out)
}
