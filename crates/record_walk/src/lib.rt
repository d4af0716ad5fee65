// The walk over the messages of a handshake record, lent as its content.
#![tactic(auto, using(crate::proofs::Walking::met_is), unfolding(crate::specs::Walks::met_head, crate::specs::Walks::moved, crate::specs::Walks::next_message))]

ghost use Rattle.std.specs.Prelude.{true, ◌≡◌, length};
ghost use Rattle.list.specs.Stepping.{MovesOn};
ghost use Rattle.record_walk.specs.Walks.{OpensAny, messages_from, met_head, moved, next_message, past_all, past_met, fresh_walk};
ghost use Rattle.envelope.specs.Opening.{met_at};
ghost use Rattle.refusal.specs.Answers.{refused, as_answer};

use envelope::TlsMessageHead;
use list::steps::Step;
pub use list::steps::Tally;
use message::handshake::TlsMessageHandshake;
use refusal::{Reason, Refusal};
use registry::handshake;
use wire::view::View;

// Where the walk stands: the body of the message handed out last, empty before the first, and where
// the next message begins.
// stays: a value and no iterator, since `Walking` speaks of walks by fields.
#[derive(Clone, Copy)]
pub struct TlsHandshakeWalk {
    pub body: View,
    pub next: usize,
}

// The message, and the walk moved on; past the last message NoSuch, and the walk as it was.
#[derive(Clone, Copy)]
pub struct Walked {
    pub message: Result<TlsMessageHandshake, Refusal>,
    pub walk: TlsHandshakeWalk,
}

impl TlsHandshakeWalk {
    // Makes a walk that stands before the first message.
    pub fn new() -> Self
        ensures { result ≡ fresh_walk }
    {
        TlsHandshakeWalk {
            body: View { start: 0, len: 0 },
            next: 0,
        }
    }

    // Hands out the next message and the walk moved on; the message's views are of its body,
    // `part_of(s, walk.body)` of that walk.
    pub fn next(self, s: &[u8]) -> Walked
        ensures message_value { as_answer result.message ≡ next_message s.now self }
        ensures walk_value { result.walk ≡ moved s.now self }
    {
        if let Ok(head) = envelope::parse_tls_message_head(s, self.next)
            && let Ok(m) = envelope::parse_tls_handshake_body(
                head.msg_type,
                wire::view::part_of(s, head.body),
            )
        {
            return Walked {
                message: Ok(m),
                walk: TlsHandshakeWalk {
                    body: head.body,
                    next: head.next,
                },
            };
        }
        Walked {
            message: Err(refusal::refuse(Reason::NoSuch, 0, 0)),
            walk: self,
        }
    }
}

// Whether a body of this type is opened whatever it holds.
fn opens_any(msg_type: u8) -> bool
    ensures { (result ≡ true → OpensAny msg_type) × (OpensAny msg_type → result ≡ true) }
{
    matches!(
        msg_type,
        handshake::HELLO_REQUEST
            | handshake::END_OF_EARLY_DATA
            | handshake::SERVER_KEY_EXCHANGE
            | handshake::SERVER_DONE..=handshake::CLIENT_KEY_EXCHANGE | handshake::FINISHED
    )
}

// The head of the message that begins at `at`, where the message can be opened. The message itself
// is not handed out.
pub fn meet_tls_message(s: &[u8], at: usize) -> Result<TlsMessageHead, Refusal>
    ensures { as_answer result ≡ met_head s.now at }
{
    let head = envelope::parse_tls_message_head(s, at)?;
    if opens_any(head.msg_type) {
        return Ok(head);
    }
    let body = wire::view::part_of(s, head.body);
    let read = envelope::parse_tls_handshake_body(head.msg_type, body);
    read.map_err(|r| refusal::inside(r, head.body.start))?;
    Ok(head)
}

// The walk over the messages of a record, one each step.
#[derive(Clone, Copy)]
struct Messages<'a> {
    s: &'a [u8],
    ghost onward: { MovesOn (past_met s.now) },
}

impl Step for Messages<'_> {
    ghost answered = { λ x. past_met x.s.now };

    #[inline(always)]
    fn past(&self, at: usize) -> Result<usize, Refusal> {
        Ok(meet_tls_message(self.s, at)?.next)
    }

    ghost moves_on = { λ x. x.onward };
}

// Counts the messages from `from` on, up to the first that is refused.
pub fn count_messages(s: &[u8], from: usize) -> Tally
    ensures count_value { result.count ≡ length (messages_from s.now from) }
    ensures end_value { result.end ≡ past_all (messages_from s.now from) from }
    ensures end_value_2 { met_at s.now result.end ≡ refused result.stop }
{
    list::steps::count_to_stop(&Messages { s }, from)
}
