// Joined plaintext records, read in one call. Every place is counted from the front of the bytes
// lent.
#![tactic(auto, using(crate::proofs::Records::plain_lies), unfolding(crate::specs::Many::many, crate::specs::Many::moved_records, crate::specs::Many::next_record, crate::specs::Many::plaintext_from, crate::specs::Many::record_past, crate::specs::Many::records_told))]

ghost use Rattle.std.specs.Prelude.{◌≡◌};
ghost use Rattle.list.specs.Stepping.{MovesOn};
ghost use Rattle.record_many.specs.Many.{many, moved_records, next_record, plaintext_from, record_past, records_told};
ghost use Rattle.refusal.specs.Answers.{as_answer};

pub use list::steps::Counted as TlsRecords;
use list::steps::Step;
use record_open::TlsPlaintext;
use refusal::{Reason, Refusal};
use wire::view::View;

// The record that begins at `at`, opened.
pub fn plaintext_from(s: &[u8], at: usize) -> Result<TlsPlaintext, Refusal>
    ensures { as_answer result ≡ plaintext_from s.now at }
{
    let read = record_open::parse_tls_plaintext(wire::view::rest_of(s, at));
    let x = read.map_err(|r| refusal::inside(r, at))?;
    Ok(TlsPlaintext {
        hdr: x.hdr,
        msg: View {
            start: at + x.msg.start,
            len: x.msg.len,
        },
        count: x.count,
        dropped: x.dropped,
        next: at + x.next,
    })
}

// Where the record that begins at `at` ends, where it can be opened.
#[tactic(auto, using(crate::proofs::Records::met_lies, crate::proofs::Records::past_by))]
fn past_record(s: &[u8], at: usize) -> Result<usize, Refusal>
    ensures { as_answer result ≡ record_past s.now at }
{
    let met = record_open::meet_tls_record(wire::view::rest_of(s, at));
    let x = met.map_err(|r| refusal::inside(r, at))?;
    Ok(at + x.next)
}

// The walk over joined records, one each step.
#[derive(Clone, Copy)]
struct Joined<'a> {
    s: &'a [u8],
    ghost onward: { MovesOn (record_past s.now) },
}

impl Step for Joined<'_> {
    ghost answered = { λ x. record_past x.s.now };

    #[inline(always)]
    fn past(&self, at: usize) -> Result<usize, Refusal> {
        past_record(self.s, at)
    }

    ghost moves_on = { λ x. x.onward };
}

// How many records there are from `from` on, up to the first that is refused, and where they end.
fn count_on(s: &[u8], from: usize) -> TlsRecords
    ensures { result ≡ records_told s.now from }
{
    list::steps::count(&Joined { s }, from)
}

// Reads joined records until the first that is refused: how many they are, and where reading
// stopped. Where the first is refused, that is the answer, with Complete for Incomplete.
pub fn tls_parser_many(i: &[u8]) -> Result<TlsRecords, Refusal>
    ensures { as_answer result ≡ many i.now }
{
    past_record(i, 0).map_err(|r| record_open::first_refusal(r, 0))?;
    Ok(count_on(i, 0))
}

// Where the walk stands: at the byte where the next record begins.
// stays: a value and no iterator, since `ManyRecords` speaks of walks by fields.
#[derive(Clone, Copy)]
pub struct TlsRecordsWalk {
    pub next: usize,
}

// The record, and the walk moved on; past the last record NoSuch, and the walk as it was.
#[derive(Clone, Copy)]
pub struct RecordWalked {
    pub record: Result<TlsPlaintext, Refusal>,
    pub walk: TlsRecordsWalk,
}

impl TlsRecordsWalk {
    // Makes a walk that stands before the first record.
    pub fn new() -> Self
        ensures { result ≡ record { next = 0 } }
    {
        TlsRecordsWalk { next: 0 }
    }

    // Hands out the next record and the walk moved on.
    pub fn next(self, s: &[u8]) -> RecordWalked
        ensures record_value { as_answer result.«record» ≡ next_record s.now self }
        ensures walk_value { result.walk ≡ moved_records s.now self }
    {
        let Ok(x) = plaintext_from(s, self.next) else {
            return RecordWalked {
                record: Err(refusal::refuse(Reason::NoSuch, 0, 0)),
                walk: self,
            };
        };
        RecordWalked {
            record: Ok(x),
            walk: TlsRecordsWalk { next: x.next },
        }
    }
}
