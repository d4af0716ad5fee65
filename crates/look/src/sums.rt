// What the summary tells: sums over the records.
ghost use Rattle.std.specs.Prelude.{◌≡◌};
ghost use Rattle.look.specs.Sums.{added, continued_sums, hellos_in, no_sums, opened_sums, refused_sums, sealed_sums};

use crate::say::{Amount, Count};
use record_open::TlsPlaintext;
use record_tally::HelloTally;
use std::io::{self, Write};

// Of the records told: how many they are, are refused, are sealed and go on with a message begun
// before them; their messages and dropped bytes; the hellos among the messages, and those
// whose extensions may have been cut off.
#[derive(Clone, Copy, Default)]
pub(crate) struct Sums {
    pub(crate) records: usize,
    pub(crate) refused: usize,
    pub(crate) sealed: usize,
    pub(crate) continued: usize,
    pub(crate) messages: usize,
    pub(crate) dropped: usize,
    pub(crate) clients: usize,
    pub(crate) servers: usize,
    pub(crate) cut: usize,
}

// Those of no record.
pub(crate) fn none() -> Sums
    ensures { result ≡ no_sums }
{
    Sums::default()
}

// The hellos in the content of the record `p`, which are those of a handshake record.
pub(crate) fn hellos_in(p: TlsPlaintext, content: &[u8]) -> HelloTally
    ensures { result ≡ hellos_in p.hdr.record_type content.now }
{
    if p.hdr.record_type == registry::record::HANDSHAKE {
        record_tally::count_hellos(content)
    } else {
        HelloTally {
            clients: 0,
            servers: 0,
            cut: 0,
        }
    }
}

// Those of one record that is opened, and of the hellos in it.
pub(crate) fn opened(p: TlsPlaintext, h: HelloTally) -> Sums
    ensures { result ≡ opened_sums p h }
{
    Sums {
        records: 1,
        messages: p.count,
        dropped: p.dropped,
        clients: h.clients,
        servers: h.servers,
        cut: h.cut,
        ..none()
    }
}

// Those of one record that is refused.
pub(crate) fn refused() -> Sums
    ensures { result ≡ refused_sums }
{
    Sums {
        records: 1,
        refused: 1,
        ..none()
    }
}

// Those of one record that is sealed, and so not opened.
pub(crate) fn sealed() -> Sums
    ensures { result ≡ sealed_sums }
{
    Sums {
        records: 1,
        sealed: 1,
        ..none()
    }
}

// Those of one record that goes on with a message begun before it, by the bytes `s` behind those of
// that message.
pub(crate) fn continued(s: &[u8]) -> Sums
    ensures { result ≡ continued_sums s.now }
{
    let all = record_walk::count_messages(s, 0);
    let hellos = record_tally::count_hellos(s);
    Sums {
        records: 1,
        continued: 1,
        messages: all.count,
        dropped: wire::view::rest_of(s, all.end).len(),
        clients: hellos.clients,
        servers: hellos.servers,
        cut: hellos.cut,
        ..none()
    }
}

// Both together, each number modulo 2^64.
pub(crate) fn both(a: Sums, b: Sums) -> Sums
    ensures { result ≡ added a b }
{
    // stays: `+` would say that the sums fit
    Sums {
        records: a.records.wrapping_add(b.records),
        refused: a.refused.wrapping_add(b.refused),
        sealed: a.sealed.wrapping_add(b.sealed),
        continued: a.continued.wrapping_add(b.continued),
        messages: a.messages.wrapping_add(b.messages),
        dropped: a.dropped.wrapping_add(b.dropped),
        clients: a.clients.wrapping_add(b.clients),
        servers: a.servers.wrapping_add(b.servers),
        cut: a.cut.wrapping_add(b.cut),
    }
}

// The hellos, and those that a person has to look at.
fn say_hellos(to: &mut impl Write, s: Sums) -> io::Result<()> {
    let (clients, servers) = (
        Count(s.clients, " ClientHello"),
        Count(s.servers, " ServerHello"),
    );
    write!(
        to,
        "  {clients}, {servers}; with a tail in place of extensions: {}",
        Amount(s.cut)
    )?;
    if s.cut > 0 {
        write!(to, " (a block may have been cut off)")?;
    }
    writeln!(to)
}

// What was not opened, refused or dropped, and how many bytes no record holds.
fn say_rest(to: &mut impl Write, s: Sums, left: usize) -> io::Result<()> {
    let (sealed, refused) = (Count(s.sealed, " record"), Amount(s.refused));
    write!(to, "  {sealed} not opened, {refused} refused")?;
    let (dropped, left) = (Count(s.dropped, " byte"), Count(left, " byte"));
    write!(to, ", {} going on with a message", Amount(s.continued))?;
    writeln!(to, ", {dropped} dropped, {left} left over")
}

// Prints the summary, of so many bytes, of which `left` are behind the last whole record.
pub(crate) fn say_sums(to: &mut impl Write, s: Sums, all: usize, left: usize) -> io::Result<()> {
    let (records, messages) = (Count(s.records, " record"), Count(s.messages, " message"));
    writeln!(
        to,
        "in all: {records}, {messages}, {} read",
        Count(all, " byte")
    )?;
    say_hellos(to, s)?;
    say_rest(to, s, left)
}
