// The exports of `norrabist_c::records`; made by ./papers --write.
ghost use Rattle.std.specs.Prelude.{◌≡◌};
ghost use Rattle.grammar.specs.Forms.{reading};
ghost use Rattle.norrabist_c.specs.Heads.{content_head, content_told, header_told, many_told, plaintext_told, plain_head, raw_told};
ghost use Rattle.record.specs.Records.{header, raw};
ghost use Rattle.record_many.specs.Many.{many};

use norrabist_c::records::{ContentHeadTold, PlaintextHeadTold, RecordHeadTold, RecordsTold};

// Reads the header alone.
#[unsafe(no_mangle)]
pub extern "C" fn norrabist_parse_tls_record_header(i: &[u8]) -> RecordHeadTold
    ensures { result ≡ header_told (header i.now) }
{
    norrabist_c::records::norrabist_parse_tls_record_header(i)
}

// Reads a record of any type, encrypted or not, whose content is all there.
#[unsafe(no_mangle)]
pub extern "C" fn norrabist_parse_tls_raw_record(i: &[u8]) -> RecordHeadTold
    ensures { result ≡ raw_told (reading raw i.now) }
{
    norrabist_c::records::norrabist_parse_tls_raw_record(i)
}

// Reads a record up to its first message: Incomplete, TooLarge, then by the type Switch, then the
// refusals of the first message, Complete for Incomplete but of a heartbeat. Of a handshake record
// only the head of that message is read; the body's refusal is told by `norrabist_refusal`.
#[unsafe(no_mangle)]
pub extern "C" fn norrabist_parse_tls_plaintext(i: &[u8]) -> PlaintextHeadTold
    ensures { result ≡ plaintext_told (plain_head i.now) }
{
    norrabist_c::records::norrabist_parse_tls_plaintext(i)
}

// Reads the bytes as the content of a record of that type, as `norrabist_parse_tls_plaintext` does
// behind the header.
#[unsafe(no_mangle)]
pub extern "C" fn norrabist_parse_tls_record_with_header(
    record_type: u8,
    content: &[u8],
) -> ContentHeadTold
    ensures { result ≡ content_told (content_head record_type 0 content.now) }
{
    norrabist_c::records::norrabist_parse_tls_record_with_header(record_type, content)
}

// Reads joined records up to the first that is refused. Why the first is refused is told by
// `norrabist_refusal`.
#[unsafe(no_mangle)]
pub extern "C" fn norrabist_tls_parser_many(i: &[u8]) -> RecordsTold
    ensures { result ≡ many_told (many i.now) }
{
    norrabist_c::records::norrabist_tls_parser_many(i)
}
