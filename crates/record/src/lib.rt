// The record's header, and records whose content is not opened (RFC 5246 6.2.1, 6.2.3).
#![tactic(auto, unfolding(crate::specs::Records::encrypted, crate::specs::Records::header))]

ghost use Rattle.std.specs.Prelude.{◌≡◌};
ghost use Rattle.grammar.specs.Forms.{reading};
ghost use Rattle.record.specs.Records.{encrypted, header, raw};
ghost use Rattle.refusal.specs.Answers.{as_answer};

use field::RuleName;
use refusal::Refusal;
use wire::number::Width;
use wire::view::View;

// Holds type, version and length of a record, its first five bytes.
// stays: the type is the byte that came, any of 256, as C is told it.
#[derive(Clone, Copy)]
pub struct TlsRecordHeader {
    pub record_type: u8,
    pub version: u16,
    pub len: u16,
}

// tls-parser's fields, and where the next record begins.
#[derive(Clone, Copy)]
pub struct TlsRawRecord {
    pub hdr: TlsRecordHeader,
    pub data: View,
    pub next: usize,
}

// Names the content of an encrypted record.
// stays: tls-parser has this type and `TlsMessageApplicationData`, which hold the same, apart.
#[derive(Clone, Copy)]
pub struct TlsEncryptedContent {
    pub blob: View,
}

// tls-parser's fields, and where the next record begins.
#[derive(Clone, Copy)]
pub struct TlsEncrypted {
    pub hdr: TlsRecordHeader,
    pub msg: TlsEncryptedContent,
    pub next: usize,
}

// The header alone; what follows it begins at byte 5.
pub fn parse_tls_record_header(i: &[u8]) -> Result<TlsRecordHeader, Refusal>
    ensures { as_answer result ≡ header i.now }
{
    let record_type = wire::number::parse_be(i, 0, Width::One)?;
    let version = wire::number::parse_be(i, record_type.next, Width::Two)?;
    let len = wire::number::parse_be(i, version.next, Width::Two)?;
    Ok(TlsRecordHeader {
        record_type: record_type.value as u8,
        version: version.value as u16,
        len: len.value as u16,
    })
}

// The record at the front, of any type.
// stays: type and version are read as in the header; a function for the two would be longer.
#[tactic(auto, unfolding(field::specs::Fields::step, grammar::specs::Forms::reading, grammar::specs::Reading::fields_at, grammar::specs::Reading::read, wire::specs::Numbers::number_at))]
pub fn parse_tls_raw_record(i: &[u8]) -> Result<TlsRawRecord, Refusal>
    ensures { as_answer result ≡ reading raw i.now }
{
    let record_type = wire::number::parse_be(i, 0, Width::One)?;
    let version = wire::number::parse_be(i, record_type.next, Width::Two)?;
    let fragment = field::length_data(i, version.next, Width::Two, RuleName::Fragment)?;
    Ok(TlsRawRecord {
        hdr: TlsRecordHeader {
            record_type: record_type.value as u8,
            version: version.value as u16,
            len: fragment.view.len as u16,
        },
        data: fragment.view,
        next: fragment.next,
    })
}

// Takes the record at the front as an encrypted one, whose content is not to be opened.
pub fn parse_tls_encrypted(i: &[u8]) -> Result<TlsEncrypted, Refusal>
    ensures { as_answer result ≡ encrypted i.now }
{
    let record = parse_tls_raw_record(i)?;
    Ok(TlsEncrypted {
        hdr: record.hdr,
        msg: TlsEncryptedContent { blob: record.data },
        next: record.next,
    })
}
