// Rows 10 to 13: messages, and records that hold them; records of the other types, and joined ones.
use crate::say::{self, Bytes};
use norrabist::{Refusal, TlsMessage, TlsMessageHandshake, TlsPlaintext, TlsRecordWalk};
use std::io::{self, Write};

fn say_kind(to: &mut impl Write, m: TlsMessageHandshake) -> io::Result<()> {
    match m {
        TlsMessageHandshake::HelloRequest => write!(to, "HelloRequest"),
        TlsMessageHandshake::KeyUpdate(_) => write!(to, "KeyUpdate"),
        _ => write!(to, "another kind"),
    }
}

fn message(to: &mut impl Write, row: &str, text: &str, s: &[u8]) -> io::Result<()> {
    say::row(to, row, "message", text)?;
    match norrabist::parse_tls_message_handshake(s) {
        Err(r) => say::refused(to, r),
        Ok(m) => {
            write!(to, "accepted, ")?;
            say_kind(to, m)?;
            writeln!(to)
        }
    }
}

// What a call of the walk hands back.
fn say_next(to: &mut impl Write, a: Result<TlsMessage, Refusal>) -> io::Result<()> {
    match a {
        Err(r) => write!(to, ", refused {}", norrabist::refusal_number(r)),
        Ok(TlsMessage::Handshake(h)) => {
            write!(to, ", ")?;
            say_kind(to, h)
        }
        Ok(TlsMessage::ChangeCipherSpec) => write!(to, ", ChangeCipherSpec"),
        Ok(TlsMessage::Alert(a)) => write!(to, ", alert {} {}", a.severity, a.code),
        Ok(TlsMessage::ApplicationData(d)) => write!(to, ", data of {}", d.blob.len),
        Ok(TlsMessage::Heartbeat(h)) => {
            let (payload, padding) = (h.payload.len, h.padding.len);
            write!(
                to,
                ", heartbeat {} of {payload} and {padding}",
                h.heartbeat_type
            )
        }
    }
}

// One call more of the walk than there are messages.
fn say_walk(to: &mut impl Write, record_type: u8, content: &[u8], count: usize) -> io::Result<()> {
    write!(to, "; the walk")?;
    let mut walk = TlsRecordWalk::new(record_type);
    // stays: the count ends the walk, which is asked once more
    for _ in 0..=count {
        let walked = walk.next(content);
        say_next(to, walked.message)?;
        walk = walked.walk;
    }
    writeln!(to, " at {}", walk.next)
}

fn record(to: &mut impl Write, row: &str, text: &str, s: &[u8]) -> io::Result<()> {
    say::row(to, row, "record", text)?;
    match norrabist::parse_tls_plaintext(s) {
        Err(r) => say::refused(to, r),
        Ok(p) => say_record(to, s, p),
    }
}

fn say_record(to: &mut impl Write, s: &[u8], p: TlsPlaintext) -> io::Result<()> {
    write!(
        to,
        "accepted, messages {}, {} dropped",
        p.count,
        Bytes(p.dropped)
    )?;
    write!(to, ", next record at {}", p.next)?;
    say_walk(to, p.hdr.record_type, norrabist::part_of(s, p.msg), p.count)
}

pub(crate) fn messages(to: &mut impl Write) -> io::Result<()> {
    message(to, "10", "03 000000", &[0x03, 0x00, 0x00, 0x00])?;
    message(to, "10", "03 000001", &[0x03, 0x00, 0x00, 0x01])?;
    message(to, "11", "01 000000", &[0x01, 0x00, 0x00, 0x00])?;
    message(to, "-", "18 000001 01", &[0x18, 0x00, 0x00, 0x01, 0x01])
}

pub(crate) fn records(to: &mut impl Write) -> io::Result<()> {
    record(
        to,
        "11",
        "16 0301 0004 01 000000",
        &[0x16, 0x03, 0x01, 0x00, 0x04, 0x01, 0x00, 0x00, 0x00],
    )?;
    record(to, "12", "16 0301 4101", &[0x16, 0x03, 0x01, 0x41, 0x01])?;
    record(to, "12", "16 0301 4100", &[0x16, 0x03, 0x01, 0x41, 0x00])?;
    record(
        to,
        "13",
        "16 0303 0005 00000000 01",
        &[0x16, 0x03, 0x03, 0x00, 0x05, 0x00, 0x00, 0x00, 0x00, 0x01],
    )?;
    record(
        to,
        "-",
        "16 0303 0009 00000000 18000001 00, and 16",
        &[
            0x16, 0x03, 0x03, 0x00, 0x09, 0x00, 0x00, 0x00, 0x00, 0x18, 0x00, 0x00, 0x01, 0x00,
            0x16,
        ],
    )?;
    record(to, "-", "13 0303 0000", &[0x13, 0x03, 0x03, 0x00, 0x00])?;
    record(to, "-", "19 0303 0000", &[0x19, 0x03, 0x03, 0x00, 0x00])
}

pub(crate) fn others(to: &mut impl Write) -> io::Result<()> {
    record(to, "-", "14 0303 0000", &[0x14, 0x03, 0x03, 0x00, 0x00])?;
    record(
        to,
        "-",
        "14 0303 0001 02",
        &[0x14, 0x03, 0x03, 0x00, 0x01, 0x02],
    )?;
    record(
        to,
        "-",
        "14 0303 0003 01 01 00",
        &[0x14, 0x03, 0x03, 0x00, 0x03, 0x01, 0x01, 0x00],
    )?;
    record(
        to,
        "-",
        "15 0303 0001 00",
        &[0x15, 0x03, 0x03, 0x00, 0x01, 0x00],
    )?;
    record(
        to,
        "-",
        "15 0303 0001 01",
        &[0x15, 0x03, 0x03, 0x00, 0x01, 0x01],
    )?;
    record(
        to,
        "-",
        "15 0303 0005 0228 0100 01",
        &[0x15, 0x03, 0x03, 0x00, 0x05, 0x02, 0x28, 0x01, 0x00, 0x01],
    )?;
    record(to, "-", "17 0303 0000", &[0x17, 0x03, 0x03, 0x00, 0x00])?;
    record(
        to,
        "-",
        "17 0303 0002 0102",
        &[0x17, 0x03, 0x03, 0x00, 0x02, 0x01, 0x02],
    )
}

pub(crate) fn heartbeats(to: &mut impl Write) -> io::Result<()> {
    record(
        to,
        "-",
        "18 0303 0002 0300",
        &[0x18, 0x03, 0x03, 0x00, 0x02, 0x03, 0x00],
    )?;
    let mut beat = [0u8; 25];
    beat[0] = 0x18;
    beat[1] = 0x03;
    beat[2] = 0x03;
    beat[4] = 0x14;
    beat[5] = 0x01;
    beat[7] = 0x01;
    record(to, "-", "18 0303 0014 01 0001 00 and 16 zero bytes", &beat)?;
    beat[7] = 0x02;
    record(to, "-", "18 0303 0014 01 0002 and 17 zero bytes", &beat)
}

fn joined(to: &mut impl Write, text: &str, s: &[u8]) -> io::Result<()> {
    say::row(to, "-", "records", text)?;
    match norrabist::tls_parser_many(s) {
        Err(r) => say::refused(to, r),
        Ok(x) => writeln!(to, "accepted, records {}, stopped at {}", x.count, x.end),
    }
}

pub(crate) fn many(to: &mut impl Write) -> io::Result<()> {
    joined(to, "14 0303", &[0x14, 0x03, 0x03])?;
    joined(
        to,
        "14 0303 0002 0100, 17 0303 0000, 14",
        &[
            0x14, 0x03, 0x03, 0x00, 0x02, 0x01, 0x00, 0x17, 0x03, 0x03, 0x00, 0x00, 0x14,
        ],
    )
}
