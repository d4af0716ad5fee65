// The messages of a record's content, by the type of the record: the one at a place, the walk over
// them, and how many there are.
#![tactic(auto, using(envelope::proofs::Heads::met_no_head, envelope::proofs::Heads::met_no_body, envelope::proofs::Heads::met_got, crate::proofs::Found::alert_is), unfolding(content::specs::Contents::application_data, list::specs::Stopping::end_of, record_walk::specs::Walks::met_head, crate::specs::ContentWalks::alert_found, crate::specs::ContentWalks::application_found, crate::specs::ContentWalks::cipher_spec_found, crate::specs::ContentWalks::found_at, crate::specs::ContentWalks::handshake_found, crate::specs::ContentWalks::heartbeat_found, crate::specs::ContentWalks::moved, crate::specs::ContentWalks::next_message, crate::specs::ContentWalks::past_at))]

ghost use Rattle.std.specs.Prelude.{◌≡◌, length};
ghost use Rattle.list.specs.Stepping.{MovesOn};
ghost use Rattle.list.specs.Stopping.{end_of};
ghost use Rattle.refusal.specs.Answers.{as_answer, giving};
ghost use Rattle.refusal.specs.Refusals.{refusal};
ghost use Rattle.refusal.specs.declared.Reason.TheVariants.{NoSuch};
ghost use Rattle.content_walk.specs.ContentWalks.{alert_found, application_found, cipher_spec_found, found_at, fresh_walk, handshake_found, heartbeat_found, is_single, messages_behind, messages_of, moved, next_message, past_at};

use content::TlsMessage;
pub use list::steps::Counted;
use list::steps::Step;
use refusal::{Reason, Refusal};
use wire::view::View;

// A message that was found: the bytes that its views are of, the place past it, and the message.
#[derive(Clone, Copy)]
pub struct TlsFound {
    pub body: View,
    pub next: usize,
    pub message: TlsMessage,
}

// The ChangeCipherSpec that begins at `at`.
// stays: type and bytes are two parameters, as `norrabist_count_contents` has them of C
fn cipher_spec_found(s: &[u8], at: usize) -> Result<TlsFound, Refusal>
    ensures { as_answer result ≡ cipher_spec_found s.now at }
{
    let n = content::change_cipher_spec_at(s, at)?;
    Ok(TlsFound {
        body: View { start: at, len: 1 },
        next: n.next,
        message: TlsMessage::ChangeCipherSpec,
    })
}

// The alert that begins at `at`.
fn alert_found(s: &[u8], at: usize) -> Result<TlsFound, Refusal>
    ensures { as_answer result ≡ alert_found s.now at }
{
    let a = content::alert_at(s, at)?;
    Ok(TlsFound {
        body: View { start: at, len: 2 },
        next: at + 2,
        message: TlsMessage::Alert(a),
    })
}

// The handshake message that begins at `at`.
fn handshake_found(s: &[u8], at: usize) -> Result<TlsFound, Refusal>
    ensures { as_answer result ≡ handshake_found s.now at }
{
    let head = envelope::parse_tls_message_head(s, at)?;
    let body = wire::view::part_of(s, head.body);
    let read = envelope::parse_tls_handshake_body(head.msg_type, body);
    let m = read.map_err(|r| refusal::inside(r, head.body.start))?;
    Ok(TlsFound {
        body: head.body,
        next: head.next,
        message: TlsMessage::Handshake(m),
    })
}

// All of the content as application data.
fn application_found(s: &[u8]) -> Result<TlsFound, Refusal>
    ensures { as_answer result ≡ application_found s.now }
{
    let message = content::parse_tls_message_applicationdata(s)?;
    Ok(TlsFound {
        body: View {
            start: 0,
            len: s.len(),
        },
        next: s.len(),
        message,
    })
}

// All of the content as a heartbeat.
fn heartbeat_found(s: &[u8]) -> Result<TlsFound, Refusal>
    ensures { as_answer result ≡ heartbeat_found s.now }
{
    let h = content::read_heartbeat(s)?;
    Ok(TlsFound {
        body: View {
            start: 0,
            len: s.len(),
        },
        next: s.len(),
        message: TlsMessage::Heartbeat(h),
    })
}

// The message that begins at `at` in the content of a record of that type. One that takes the whole
// content is found at any place; a type that is not listed is Switch.
// stays: a `match` by the type is plainer than functions in a table, and is compiled in place.
pub fn message_at(record_type: u8, s: &[u8], at: usize) -> Result<TlsFound, Refusal>
    ensures { as_answer result ≡ found_at record_type s.now at }
{
    match record_type {
        registry::record::CHANGE_CIPHER_SPEC => cipher_spec_found(s, at),
        registry::record::ALERT => alert_found(s, at),
        registry::record::HANDSHAKE => handshake_found(s, at),
        registry::record::APPLICATION_DATA => application_found(s),
        registry::record::HEARTBEAT => heartbeat_found(s),
        _ => Err(refusal::refuse(Reason::Switch, 0, 0)),
    }
}

// Whether the content of a record of that type is one message.
pub fn is_single(record_type: u8) -> bool
    ensures { result ≡ is_single record_type }
{
    record_type == registry::record::APPLICATION_DATA || record_type == registry::record::HEARTBEAT
}

// Where the walk stands: the body of the message handed out last, empty before the first; where the
// next message begins; and whether a message was handed out that is the whole content.
// stays: a value with a flag and no iterator, since `ContentWalking` speaks of walks by fields.
#[derive(Clone, Copy)]
pub struct TlsRecordWalk {
    pub record_type: u8,
    pub body: View,
    pub next: usize,
    pub ended: bool,
}

// The message, and the walk moved on; past the last message NoSuch, and the walk as it was.
// stays: the answers of the three walks are public types, whose fields the theorems name
#[derive(Clone, Copy)]
pub struct Walked {
    pub message: Result<TlsMessage, Refusal>,
    pub walk: TlsRecordWalk,
}

impl TlsRecordWalk {
    // Makes a walk that stands before the first message of a record of that type.
    pub fn new(record_type: u8) -> Self
        ensures { result ≡ fresh_walk record_type }
    {
        TlsRecordWalk {
            record_type,
            body: View { start: 0, len: 0 },
            next: 0,
            ended: false,
        }
    }

    // Hands out the next message of the content and the walk moved on; the message's views are of
    // its body, `part_of(s, walk.body)` of that walk.
    pub fn next(self, s: &[u8]) -> Walked
        ensures message_value { as_answer result.message ≡ next_message s.now self }
        ensures walk_value { result.walk ≡ moved s.now self }
    {
        if !self.ended
            && let Ok(x) = message_at(self.record_type, s, self.next)
        {
            return Walked {
                message: Ok(x.message),
                walk: TlsRecordWalk {
                    record_type: self.record_type,
                    body: x.body,
                    next: x.next,
                    ended: is_single(self.record_type),
                },
            };
        }
        Walked {
            message: Err(refusal::refuse(Reason::NoSuch, 0, 0)),
            walk: self,
        }
    }
}

// Where the handshake message ends that begins at `at`. It is compiled by itself: its calls within
// `past_message` would have each step save registers, of a content of any type.
#[inline(never)]
fn past_handshake(s: &[u8], at: usize) -> Result<usize, Refusal>
    ensures { as_answer result ≡ giving (λ x. x.next) (handshake_found s.now at) }
{
    Ok(record_walk::meet_tls_message(s, at)?.next)
}

// Where the message ends that begins at `at`, where it can be opened. The message itself is not
// handed out.
pub fn past_message(record_type: u8, s: &[u8], at: usize) -> Result<usize, Refusal>
    ensures { as_answer result ≡ past_at record_type s.now at }
{
    // stays: `message_at` makes each message, which a walk that asks for ends is spared.
    match record_type {
        registry::record::CHANGE_CIPHER_SPEC => Ok(content::change_cipher_spec_at(s, at)?.next),
        registry::record::ALERT => {
            content::alert_at(s, at)?;
            Ok(at + 2)
        }
        registry::record::HANDSHAKE => past_handshake(s, at),
        registry::record::APPLICATION_DATA => Ok(s.len()),
        registry::record::HEARTBEAT => {
            content::read_heartbeat(s)?;
            Ok(s.len())
        }
        _ => Err(refusal::refuse(Reason::Switch, 0, 0)),
    }
}

// The walk over messages of a type that repeats, one each step.
#[derive(Clone, Copy)]
struct Messages<'a> {
    record_type: u8,
    s: &'a [u8],
    ghost onward: { MovesOn (past_at record_type s.now) },
}

impl Step for Messages<'_> {
    ghost answered = { λ x. past_at x.record_type x.s.now };

    #[inline(always)]
    fn past(&self, at: usize) -> Result<usize, Refusal> {
        past_message(self.record_type, self.s, at)
    }

    ghost moves_on = { λ x. x.onward };
}

// Counts the messages behind another that ends at `from`, up to the first that is refused: none
// where the content is one message.
pub fn count_behind(record_type: u8, s: &[u8], from: usize) -> Counted
    ensures count_value { result.count ≡ length (messages_behind record_type s.now from) }
    ensures end_value { result.end ≡ end_of (λ x. x.next) (messages_behind record_type s.now from) from }
{
    if is_single(record_type) {
        return Counted {
            count: 0,
            end: from,
        };
    }
    list::steps::count(&Messages { record_type, s }, from)
}

// Counts the messages of a record's content by the record's type.
pub fn count_contents(record_type: u8, s: &[u8]) -> Counted
    ensures count_value { result.count ≡ length (messages_of record_type s.now) }
    ensures end_value { result.end ≡ end_of (λ x. x.next) (messages_of record_type s.now) 0 }
{
    let Ok(next) = past_message(record_type, s, 0) else {
        return Counted { count: 0, end: 0 };
    };
    let others = count_behind(record_type, s, next);
    Counted {
        count: 1 + others.count,
        end: others.end,
    }
}
