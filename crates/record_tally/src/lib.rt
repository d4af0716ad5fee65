// What is counted of a handshake record's hellos, and how much of its body a message lacks.
#![tactic(auto, using(crate::proofs::Lacks::no_number), unfolding(crate::specs::Tally::count_of, crate::specs::Tally::cut_off, crate::specs::Tally::server_cut))]

ghost use Rattle.std.specs.Prelude.{◌≡◌};
ghost use Rattle.record_tally.specs.Tally.{count_of, cut_off, hello_tally, lacking_at, server_cut, tally};

use message::handshake::TlsMessageHandshake;
use read_server::tlsv12::TlsServerHelloContents;
use record_walk::TlsHandshakeWalk;
use wire::number::Width;
use wire::view::View;

// How many messages are ClientHellos, how many ServerHellos, and how many hellos have no extensions
// and a tail: a block of extensions may have been cut off.
#[derive(Clone, Copy)]
pub struct HelloTally {
    pub clients: usize,
    pub servers: usize,
    pub cut: usize,
}

impl HelloTally {
    // A tally of that many.
    fn new(clients: usize, servers: usize, cut: usize) -> Self
        ensures { result ≡ tally clients servers cut }
    {
        HelloTally {
            clients,
            servers,
            cut,
        }
    }
}

// One where no extensions were found and a tail begins within the body's `len` bytes.
fn cut_off(ext: Option<View>, tail: usize, len: usize) -> usize
    ensures { result ≡ cut_off ext tail len }
{
    if ext.is_none() && tail < len {
        return 1;
    }
    0
}

// The same of a ServerHello: at version 0x0300 no extensions are looked for.
fn cut_server(c: TlsServerHelloContents, len: usize) -> usize
    ensures { result ≡ server_cut c len }
{
    if c.version as usize == registry::version::SSL30 {
        return 0;
    }
    cut_off(c.ext, c.tail, len)
}

// What a message adds to the tally by its kind, its body being of `len` bytes.
fn count_kind(m: TlsMessageHandshake, len: usize) -> HelloTally
    ensures { result ≡ count_of m len }
{
    match m {
        TlsMessageHandshake::ClientHello(c) => HelloTally::new(1, 0, cut_off(c.ext, c.tail, len)),
        TlsMessageHandshake::ServerHello(c) => HelloTally::new(0, 1, cut_server(c, len)),
        TlsMessageHandshake::ServerHelloV13Draft18(c) => HelloTally::new(
            0,
            1,
            cut_off(c.ext, c.tail, len),
        ),
        TlsMessageHandshake::HelloRetryRequest(c) => HelloTally::new(
            0,
            0,
            cut_off(c.ext, c.tail, len),
        ),
        _ => HelloTally::new(0, 0, 0),
    }
}

// Counts the hellos of a handshake record, lent as its content, up to the first message that is
// refused.
pub fn count_hellos(s: &[u8]) -> HelloTally
    ensures { result ≡ hello_tally s.now }
{
    let mut sum = HelloTally::new(0, 0, 0);
    let mut walk = TlsHandshakeWalk::new();
    // stays: `list::steps` counts alone, and this loop sums what each message adds.
    loop {
        let walked = walk.next(s);
        let Ok(m) = walked.message else {
            return sum;
        };
        walk = walked.walk;
        let one = count_kind(m, walk.body.len);
        sum.clients += one.clients;
        sum.servers += one.servers;
        sum.cut += one.cut;
    }
}

// How many bytes of its body the message that begins at `at` lacks; 0 where none lacks, or where
// not all four bytes of its head are there. A refusal tells no number of bytes, so that the length
// is compared here.
pub fn lacking(s: &[u8], at: usize) -> usize
    ensures { result ≡ lacking_at s.now at }
{
    let message = wire::view::rest_of(s, at);
    let Ok(announced) = wire::number::parse_be(message, 1, Width::Three) else {
        return 0;
    };
    let there = message.len() - announced.next;
    announced.value.saturating_sub(there)
}
