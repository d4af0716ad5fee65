// The plaintext record: opened by its type (RFC 5246 6.2.1).
#![tactic(auto, unfolding(crate::specs::Plaintext::contents, crate::specs::Plaintext::first_of, crate::specs::Plaintext::opened_first, crate::specs::Plaintext::plaintext, crate::specs::Plaintext::record_met, crate::specs::Plaintext::with_header, content_walk::specs::ContentWalks::past_at))]

ghost use Rattle.std.specs.Prelude.{◌≡◌};
ghost use Rattle.refusal.specs.Answers.{accepted, giving, as_answer};
ghost use Rattle.content_walk.specs.ContentWalks.{found_at};
ghost use Rattle.record_open.specs.Plaintext.{contents, first_of, first_refusal, is_opened, of_content, opened_first, plain_record, plaintext, record_met, with_header};

use content::TlsMessage;
use record::{TlsRawRecord, TlsRecordHeader};
use refusal::{Reason, Refusal};
use wire::view::View;

// tls-parser's header; its messages as the bytes that hold them, which a `TlsRecordWalk` goes over,
// with their number; how many bytes at the end of those hold none; and where the next record
// begins.
#[derive(Clone, Copy)]
pub struct TlsPlaintext {
    pub hdr: TlsRecordHeader,
    pub msg: View,
    pub count: usize,
    pub dropped: usize,
    pub next: usize,
}

// A record, and its first message, opened; the message's views are of `body`, which is a view of
// the record's content.
#[derive(Clone, Copy)]
pub struct TlsPlaintextOpened {
    pub record: TlsPlaintext,
    pub body: View,
    pub message: TlsMessage,
}

// What the refusal of the first message, in a record's content that begins at `at`, makes of the
// record.
pub fn first_refusal(r: Refusal, at: usize) -> Refusal
    ensures { result ≡ first_refusal at r }
{
    match r.reason {
        Reason::Incomplete => refusal::refuse(Reason::Complete, at, 0),
        _ => refusal::inside(r, at),
    }
}

// The same by the type of the record: where the content is one message, its refusal stays.
pub fn content_refusal(record_type: u8, r: Refusal, at: usize) -> Refusal
    ensures { result ≡ of_content record_type at r }
{
    if content_walk::is_single(record_type) {
        refusal::inside(r, at)
    } else {
        first_refusal(r, at)
    }
}

// Whether a record of that type is opened.
pub fn is_opened(record_type: u8) -> bool
    ensures { result ≡ is_opened record_type }
{
    matches!(
        record_type,
        registry::record::CHANGE_CIPHER_SPEC..=registry::record::HEARTBEAT
    )
}

// The record with its content, whose first message is found and ends at `next`: the others are
// counted.
#[tactic(auto, using(crate::proofs::Opened::others_in, crate::proofs::Opened::first_vector, crate::proofs::Opened::first_dropped), unfolding(crate::specs::Plaintext::plain_record))]
fn count_others(outer: TlsRawRecord, content: &[u8], next: usize) -> TlsPlaintext
    requires { giving (λ x. x.next) (found_at outer.hdr.record_type content.now 0) ≡ accepted next }
    ensures { result ≡ plain_record outer content.now }
{
    let others = content_walk::count_behind(outer.hdr.record_type, content, next);
    TlsPlaintext {
        hdr: outer.hdr,
        msg: outer.data,
        count: 1 + others.count,
        dropped: content.len() - others.end,
        next: outer.next,
    }
}

// The record with its content, opened by its type, and its first message.
fn open_first(outer: TlsRawRecord, content: &[u8]) -> Result<TlsPlaintextOpened, Refusal>
    ensures { as_answer result ≡ contents outer content.now }
{
    let record_type = outer.hdr.record_type;
    if !is_opened(record_type) {
        return Err(refusal::refuse(Reason::Switch, 0, 0));
    }
    let found = content_walk::message_at(record_type, content, 0);
    let first = found.map_err(|r| content_refusal(record_type, r, outer.data.start))?;
    Ok(TlsPlaintextOpened {
        record: count_others(outer, content, first.next),
        body: first.body,
        message: first.message,
    })
}

// The record with its first message, which is read once; the others are counted.
pub fn open_tls_plaintext(i: &[u8]) -> Result<TlsPlaintextOpened, Refusal>
    ensures { as_answer result ≡ opened_first i.now }
{
    let record = record::parse_tls_raw_record(i)?;
    open_first(record, wire::view::part_of(i, record.data))
}

// The record alone: what `open_tls_plaintext` finds, without its first message.
pub fn parse_tls_plaintext(i: &[u8]) -> Result<TlsPlaintext, Refusal>
    ensures { as_answer result ≡ plaintext i.now }
{
    Ok(open_tls_plaintext(i)?.record)
}

// The bytes opened as the content of a record of that header; its length is not looked at.
pub fn parse_tls_record_with_header(
    i: &[u8],
    hdr: TlsRecordHeader,
) -> Result<TlsPlaintextOpened, Refusal>
    ensures { as_answer result ≡ with_header hdr i.now }
{
    let outer = TlsRawRecord {
        hdr,
        data: View {
            start: 0,
            len: i.len(),
        },
        next: i.len(),
    };
    open_first(outer, i)
}

// Where a record's content can be opened, the place past its first message, which is not handed
// out.
pub fn past_first(record_type: u8, content: &[u8], at: usize) -> Result<usize, Refusal>
    ensures { as_answer result ≡ giving (λ x. x.next) (first_of record_type at content.now) }
{
    if !is_opened(record_type) {
        return Err(refusal::refuse(Reason::Switch, 0, 0));
    }
    let past = content_walk::past_message(record_type, content, 0);
    past.map_err(|r| content_refusal(record_type, r, at))
}

// The record where it can be opened; its messages are not counted.
pub fn meet_tls_record(i: &[u8]) -> Result<TlsRawRecord, Refusal>
    ensures { as_answer result ≡ record_met i.now }
{
    let outer = record::parse_tls_raw_record(i)?;
    let content = wire::view::part_of(i, outer.data);
    past_first(outer.hdr.record_type, content, outer.data.start)?;
    Ok(outer)
}
