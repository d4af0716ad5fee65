// Records: their headers, whether a record can be opened, the head of a handshake record's first
// message, and joined records.
#![tactic(auto, unfolding(crate::specs::Heads::content_head, crate::specs::Heads::plain_head))]

ghost use Rattle.std.specs.Prelude.{◌≡◌};
ghost use Rattle.grammar.specs.Forms.{reading};
ghost use Rattle.norrabist_c.specs.Heads.{content_head, content_told, header_told, many_told, plaintext_told, plain_head, raw_told};
ghost use Rattle.record.specs.Records.{header, raw};
ghost use Rattle.record_many.specs.Many.{many};
ghost use Rattle.refusal.specs.Answers.{refused, as_answer};

use crate::messages::listed_head;
use envelope::TlsMessageHead;
use refusal::Refusal;
use wire::view::View;

// What is told of a record's header: version, length of the content, which begins at byte 5, and
// type.
#[repr(C)]
#[derive(Clone, Copy, Default)]
pub struct RecordHeadTold {
    pub version: u16,
    pub len: u16,
    pub record_type: u8,
    pub number: u8,
}

// Reads the header alone.
#[unsafe(no_mangle)]
pub extern "C" fn norrabist_parse_tls_record_header(i: &[u8]) -> RecordHeadTold
    ensures { result ≡ header_told (header i.now) }
{
    match record::parse_tls_record_header(i) {
        Err(r) => RecordHeadTold {
            number: refusal::refusal_number(r),
            ..Default::default()
        },
        Ok(h) => RecordHeadTold {
            version: h.version,
            len: h.len,
            record_type: h.record_type,
            number: 0,
        },
    }
}

// Reads a record of any type, encrypted or not, whose content is all there.
#[unsafe(no_mangle)]
pub extern "C" fn norrabist_parse_tls_raw_record(i: &[u8]) -> RecordHeadTold
    ensures { result ≡ raw_told (reading raw i.now) }
{
    match record::parse_tls_raw_record(i) {
        Err(r) => RecordHeadTold {
            number: refusal::refusal_number(r),
            ..Default::default()
        },
        Ok(x) => RecordHeadTold {
            version: x.hdr.version,
            len: x.hdr.len,
            record_type: x.hdr.record_type,
            number: 0,
        },
    }
}

// What is told of a record that can be opened: version and length of the content, which begins at
// byte 5, and its type; of a handshake record also length and type of the first message, whose body
// begins at byte 9, else 0.
#[repr(C)]
#[derive(Clone, Copy, Default)]
pub struct PlaintextHeadTold {
    pub version: u16,
    pub len: u16,
    pub body: u16,
    pub record_type: u8,
    pub msg_type: u8,
    pub number: u8,
}

fn plaintext_refused(r: Refusal) -> PlaintextHeadTold
    ensures { result ≡ plaintext_told (refused r) }
{
    PlaintextHeadTold {
        number: refusal::refusal_number(r),
        ..Default::default()
    }
}

// A record's first message, the content beginning at `at`: of a handshake record the head, else
// none, where the message can be opened.
fn content_head(record_type: u8, content: &[u8], at: usize) -> Result<TlsMessageHead, Refusal>
    ensures { as_answer result ≡ content_head record_type at content.now }
{
    if record_type == registry::record::HANDSHAKE {
        return listed_head(content, 0).map_err(|r| record_open::first_refusal(r, at));
    }
    record_open::past_first(record_type, content, at)?;
    Ok(TlsMessageHead {
        msg_type: 0,
        body: View { start: 0, len: 0 },
        next: 0,
    })
}

// Reads a record up to its first message: Incomplete, TooLarge, then by the type Switch, then the
// refusals of the first message, Complete for Incomplete but of a heartbeat. Of a handshake record
// only the head of that message is read; the body's refusal is told by `norrabist_refusal`.
#[unsafe(no_mangle)]
pub extern "C" fn norrabist_parse_tls_plaintext(i: &[u8]) -> PlaintextHeadTold
    ensures { result ≡ plaintext_told (plain_head i.now) }
{
    let outer = match record::parse_tls_raw_record(i) {
        Err(r) => return plaintext_refused(r),
        Ok(x) => x,
    };
    let inner = wire::view::part_of(i, outer.data);
    // most records hold handshake messages: their way is short
    // stays: without a way of its own the tap is slower (docs/SPEED.md)
    if outer.hdr.record_type == registry::record::HANDSHAKE {
        return match listed_head(inner, 0) {
            Err(r) => plaintext_refused(record_open::first_refusal(r, outer.data.start)),
            Ok(h) => PlaintextHeadTold {
                version: outer.hdr.version,
                len: outer.hdr.len,
                body: h.body.len as u16,
                record_type: outer.hdr.record_type,
                msg_type: h.msg_type,
                number: 0,
            },
        };
    }
    let hdr = outer.hdr;
    match content_head(hdr.record_type, inner, outer.data.start) {
        Err(r) => plaintext_refused(r),
        Ok(h) => PlaintextHeadTold {
            version: hdr.version,
            len: hdr.len,
            body: h.body.len as u16,
            record_type: hdr.record_type,
            msg_type: h.msg_type,
            number: 0,
        },
    }
}

// What is told of a record's content: of handshake messages length and type of the first, else 0.
#[repr(C)]
#[derive(Clone, Copy, Default)]
pub struct ContentHeadTold {
    pub body: u32,
    pub msg_type: u8,
    pub number: u8,
}

// Reads the bytes as the content of a record of that type, as `norrabist_parse_tls_plaintext` does
// behind the header.
#[unsafe(no_mangle)]
pub extern "C" fn norrabist_parse_tls_record_with_header(
    record_type: u8,
    content: &[u8],
) -> ContentHeadTold
    ensures { result ≡ content_told (content_head record_type 0 content.now) }
{
    match content_head(record_type, content, 0) {
        Err(r) => ContentHeadTold {
            number: refusal::refusal_number(r),
            ..Default::default()
        },
        Ok(h) => ContentHeadTold {
            body: h.body.len as u32,
            msg_type: h.msg_type,
            number: 0,
        },
    }
}

// What is told of joined records: how many there are, and where reading stopped; 0 and 0 where the
// first is refused.
#[repr(C)]
#[derive(Clone, Copy, Default)]
pub struct RecordsTold {
    pub count: usize,
    pub end: usize,
}

// Reads joined records up to the first that is refused. Why the first is refused is told by
// `norrabist_refusal`.
#[unsafe(no_mangle)]
pub extern "C" fn norrabist_tls_parser_many(i: &[u8]) -> RecordsTold
    ensures { result ≡ many_told (many i.now) }
{
    match record_many::tls_parser_many(i) {
        Err(_) => RecordsTold::default(),
        Ok(x) => RecordsTold {
            count: x.count,
            end: x.end,
        },
    }
}
