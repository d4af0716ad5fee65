// What an input that is no joined records is, and what to do with it.
use look_input::InputKind;
use std::io::{self, Write};

fn capture(to: &mut impl Write, name: &str) -> io::Result<()> {
    writeln!(
        to,
        "this is a {name} file: packets, of which TLS is but a part"
    )?;
    writeln!(
        to,
        "join the records of one direction first, with tshark and xxd:"
    )?;
    writeln!(
        to,
        "  tshark -r FILE -q -z follow,tcp,raw,0 | grep -x '[0-9a-f]*' | xxd -r -p > RECORDS"
    )?;
    writeln!(
        to,
        "and hand RECORDS to look; README, From a capture, has the other direction"
    )
}

fn hex(to: &mut impl Write) -> io::Result<()> {
    writeln!(to, "this is hex text, and look reads bytes")?;
    writeln!(
        to,
        "turn it into bytes first: xxd -r -p FILE > RECORDS (a dump with places: xxd -r)"
    )
}

fn gzip(to: &mut impl Write) -> io::Result<()> {
    writeln!(
        to,
        "this is a gzip file: unpack it first, and look at what is in it"
    )
}

fn ssl2(to: &mut impl Write) -> io::Result<()> {
    writeln!(
        to,
        "this is a hello of SSL 2.0's form, which is not read: no record of TLS is round it"
    )?;
    writeln!(
        to,
        "what the other side answers to it is a record: look at that direction"
    )
}

fn dtls(to: &mut impl Write) -> io::Result<()> {
    writeln!(
        to,
        "this is DTLS, which is not read: its record headers have 13 bytes and not 5"
    )?;
    writeln!(to, "look reads TLS over TCP")
}

// Tells what the input is; nothing where it may be joined records.
// stays: a `match` by the kind is plainer than functions in a table
pub(crate) fn say_hint(to: &mut impl Write, kind: InputKind) -> io::Result<()> {
    match kind {
        InputKind::Records => Ok(()),
        InputKind::Pcap => capture(to, "pcap"),
        InputKind::PcapNg => capture(to, "pcapng"),
        InputKind::Gzip => gzip(to),
        InputKind::Hex => hex(to),
        InputKind::Ssl2 => ssl2(to),
        InputKind::Dtls => dtls(to),
    }
}
