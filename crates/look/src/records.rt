// The records of the input, one line for each, and what it holds.
ghost use Rattle.std.specs.Prelude.{◌≡◌};
ghost use Rattle.look.specs.Sums.{sum};

use crate::names::{RecordType, Version, Why};
use crate::say::{Count, Placed};
use crate::{contents, messages};
use record::{TlsRawRecord, TlsRecordHeader};
use refusal::Reason;
use std::fmt;
use std::io::{self, Write};
use wire::view::View;

// The header of a record.
#[derive(Clone, Copy)]
struct Header(TlsRecordHeader);

impl fmt::Display for Header {
    fn fmt<W: fmt::Write>(&self, f: &mut fmt::Formatter<W>) -> fmt::Result {
        let h = self.0;
        write!(
            f,
            "{}, version {}",
            RecordType(h.record_type),
            Version(h.version)
        )?;
        write!(f, ", {}", Count(h.len as usize, " byte"))
    }
}

// What the record `record` holds, whose type is told. One that is whole and refused is told with
// what its first message is, where it is a handshake record.
fn say_answer(
    to: &mut impl Write,
    record_type: u8,
    record: Placed<'_>,
    content: Placed<'_>,
) -> io::Result<()> {
    match record_open::parse_tls_plaintext(record.bytes) {
        Err(r) => {
            writeln!(to, "  refused: {}", Why(r))?;
            if record_type == registry::record::HANDSHAKE {
                messages::say_refused(to, r, content.bytes)?;
            }
            Ok(())
        }
        Ok(p) => {
            writeln!(to, "  {}", Count(p.count, " message"))?;
            contents::say_contents(to, record_type, p.count, content)
        }
    }
}

// What a record holds that goes on with a message begun before it: its first `passed` bytes belong
// to that, or all of it. Messages may stand behind them.
fn say_continued(to: &mut impl Write, passed: usize, content: Placed<'_>) -> io::Result<()> {
    let lacked = Count(passed, " byte");
    writeln!(
        to,
        "  goes on with the message begun before, which lacked {lacked}"
    )?;
    let here = content.len();
    if here < passed {
        return writeln!(to, "  and lacks {} still", Count(passed - here, " byte"));
    }
    let own = content.rest(passed);
    if own.len() == 0 {
        return Ok(());
    }
    let all = record_walk::count_messages(own.bytes, 0).count;
    writeln!(to, "  and has {} behind it", Count(all, " message"))?;
    messages::say_messages(to, all, own)
}

// Tells the whole record whose header is `h`, the first of `record`; it is the one of number `k`,
// is sealed or not, and `passed` of its bytes belong to a message begun before it.
pub(crate) fn say_record(
    to: &mut impl Write,
    k: usize,
    h: TlsRecordHeader,
    record: Placed<'_>,
    sealed: bool,
    passed: usize,
) -> io::Result<()> {
    let place = record.from;
    writeln!(to, "record {k} at {place}: {}", Header(h))?;
    let content = record.part(View {
        start: 5,
        len: h.len as usize,
    });
    if sealed {
        writeln!(to, "  after ChangeCipherSpec: encrypted, not opened")
    } else if passed != 0 {
        say_continued(to, passed, content)
    } else {
        say_answer(to, h.record_type, record, content)
    }
}

// The place behind a record that begins at `place`: its header has five bytes.
pub(crate) fn behind(r: TlsRawRecord, place: usize) -> usize
    ensures { result ≡ sum (sum place 5) r.«data».len }
{
    place.wrapping_add(5).wrapping_add(r.data.len)
}

// The header of what is left, and what a type that no record of TLS has may mean.
fn say_left_header(to: &mut impl Write, h: TlsRecordHeader) -> io::Result<()> {
    writeln!(to, "  its header: {}", Header(h))?;
    match h.record_type {
        registry::record::CHANGE_CIPHER_SPEC..=registry::record::HEARTBEAT => Ok(()),
        _ => writeln!(
            to,
            "  no record of TLS has this type: is the input joined records?"
        ),
    }
}

// What lies behind the last whole record, and why that is none: one that is too large is told from
// one that is cut off. Nothing where there is nothing.
pub(crate) fn say_left(to: &mut impl Write, left: Placed<'_>) -> io::Result<()> {
    if left.len() == 0 {
        return Ok(());
    }
    let Err(r) = record::parse_tls_raw_record(left.bytes) else {
        return Ok(());
    };
    writeln!(to, "left over {left}, refused: {}", Why(r))?;
    if r.reason == Reason::TooLarge {
        writeln!(
            to,
            "  it announces more than the 16,640 bytes that a record may have: where the next begins is not known"
        )?;
    } else {
        writeln!(to, "  the input ends before the record does")?;
    }
    if let Ok(h) = record::parse_tls_record_header(left.bytes) {
        say_left_header(to, h)?;
    }
    writeln!(to, "  reading ends here")
}

// A message that the last records begin and do not end; nothing where there is none.
pub(crate) fn say_owed(to: &mut impl Write, owed: usize) -> io::Result<()> {
    if owed > 0 {
        writeln!(
            to,
            "the message begun last lacks {} still",
            Count(owed, " byte")
        )?;
    }
    Ok(())
}
