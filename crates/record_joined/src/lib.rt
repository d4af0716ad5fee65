// Joined records. Every place is counted from the front of the bytes lent.
#![tactic(auto, using(crate::proofs::Joined::from_lies, crate::proofs::Joined::few_messages, crate::proofs::Joined::raw_in), unfolding(crate::specs::Joined::messages_in, crate::specs::Joined::record_from, crate::specs::Joined::view_in_of))]

ghost use Rattle.std.specs.Prelude.{◌≡◌};
ghost use Rattle.record_joined.specs.Joined.{messages_in, record_from, tallied, view_in_of};
ghost use Rattle.refusal.specs.Answers.{as_answer};

use record::TlsRawRecord;
use refusal::Refusal;
use wire::view::View;

// What `inner` names in the part that `outer` names, as a view of `s`; the empty view where it lies
// outside that part.
pub fn view_in(s: &[u8], outer: View, inner: View) -> View
    ensures { result ≡ view_in_of s.now outer inner }
{
    let len = wire::view::part_of(s, outer).len();
    if len < inner.start || len - inner.start < inner.len {
        return View { start: 0, len: 0 };
    }
    View {
        start: outer.start + inner.start,
        len: inner.len,
    }
}

// The record that begins at `at`, of any type.
pub fn record_from(s: &[u8], at: usize) -> Result<TlsRawRecord, Refusal>
    ensures { as_answer result ≡ record_from s.now at }
{
    let x = record::parse_tls_raw_record(wire::view::rest_of(s, at))?;
    Ok(TlsRawRecord {
        hdr: x.hdr,
        data: View {
            start: at + x.data.start,
            len: x.data.len,
        },
        next: at + x.next,
    })
}

// How many messages the record holds: none where it is not of handshake messages.
fn messages_in(s: &[u8], r: TlsRawRecord) -> usize
    ensures { result ≡ messages_in s.now r }
{
    if r.hdr.record_type != registry::record::HANDSHAKE {
        return 0;
    }
    record_walk::count_messages(wire::view::part_of(s, r.data), 0).count
}

// How many whole records there are up to the first that is refused, how many messages they hold,
// and where the last of them ends.
#[derive(Clone, Copy)]
pub struct RecordTally {
    pub records: usize,
    pub messages: usize,
    pub end: usize,
}

// Counts joined records and their messages, from the front on.
pub fn count_records(s: &[u8]) -> RecordTally
    ensures { result ≡ tallied s.now }
{
    let mut records: usize = 0;
    let mut messages: usize = 0;
    let mut end: usize = 0;
    // stays: `list::steps` counts alone, and this loop sums the messages too.
    while let Ok(r) = record_from(s, end) {
        messages += messages_in(s, r);
        records += 1;
        end = r.next;
    }
    RecordTally {
        records,
        messages,
        end,
    }
}
