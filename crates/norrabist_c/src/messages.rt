// Messages: their heads, and how many there are.
#![tactic(auto, unfolding(crate::specs::Heads::is_listed, crate::specs::Heads::listed_head))]

ghost use Rattle.std.specs.Prelude.{◌≡◌};
ghost use Rattle.content_walk.specs.ContentWalks.{messages_of};
ghost use Rattle.norrabist_c.specs.Heads.{contents_told, head_told, is_listed, listed_head, tally_told};
ghost use Rattle.record_walk.specs.Walks.{messages_from};
ghost use Rattle.refusal.specs.Answers.{as_answer};

use envelope::TlsMessageHead;
use refusal::{Reason, Refusal};
use registry::handshake;

// Whether a body of this type is opened.
fn is_listed(msg_type: u8) -> bool
    ensures { result ≡ is_listed msg_type }
{
    matches!(
        msg_type,
        handshake::HELLO_REQUEST
            | handshake::CLIENT_HELLO
            | handshake::SERVER_HELLO
            | handshake::NEW_SESSION_TICKET
            | handshake::END_OF_EARLY_DATA
            | handshake::HELLO_RETRY_REQUEST
            | handshake::CERTIFICATE
            | handshake::SERVER_KEY_EXCHANGE
            | handshake::CERTIFICATE_REQUEST
            | handshake::SERVER_DONE
            | handshake::CERTIFICATE_VERIFY
            | handshake::CLIENT_KEY_EXCHANGE
            | handshake::FINISHED
            | handshake::CERTIFICATE_STATUS
            | handshake::KEY_UPDATE
            | handshake::NEXT_PROTOCOL
    )
}

// The head of the message that begins at `at`, where its type is listed: else Switch.
pub fn listed_head(s: &[u8], at: usize) -> Result<TlsMessageHead, Refusal>
    ensures { as_answer result ≡ listed_head s.now at }
{
    let h = envelope::parse_tls_message_head(s, at)?;
    if is_listed(h.msg_type) {
        Ok(h)
    } else {
        Err(refusal::refuse(Reason::Switch, at, 0))
    }
}

// What is told of a message's head: where the next message begins, the length of the body, which
// ends there, and the type.
#[repr(C)]
#[derive(Clone, Copy, Default)]
pub struct MessageHeadTold {
    pub next: usize,
    pub body: u32,
    pub msg_type: u8,
    pub number: u8,
}

// Reads the head of the message that begins at `at`: Incomplete where the message is not all
// there, then Switch where its type is not listed. The body's refusals are those of its reader.
#[unsafe(no_mangle)]
pub extern "C" fn norrabist_parse_tls_message_head(s: &[u8], at: usize) -> MessageHeadTold
    ensures { result ≡ head_told (listed_head s.now at) }
{
    match listed_head(s, at) {
        Err(r) => MessageHeadTold {
            number: refusal::refusal_number(r),
            ..Default::default()
        },
        Ok(h) => MessageHeadTold {
            next: h.next,
            body: h.body.len as u32,
            msg_type: h.msg_type,
            number: 0,
        },
    }
}

// What is told of messages: how many there are, and where the last one ends.
#[repr(C)]
#[derive(Clone, Copy)]
pub struct TallyTold {
    pub count: usize,
    pub end: usize,
}

// Counts the messages of a record's content from byte `from` on, up to the first that is refused.
#[unsafe(no_mangle)]
pub extern "C" fn norrabist_count_messages(s: &[u8], from: usize) -> TallyTold
    ensures { result ≡ tally_told (messages_from s.now from) from }
{
    let t = record_walk::count_messages(s, from);
    TallyTold {
        count: t.count,
        end: t.end,
    }
}

// Counts the messages of a record's content by the type of the record, up to the first that is
// refused; of application data and a heartbeat there is one at most.
#[unsafe(no_mangle)]
pub extern "C" fn norrabist_count_contents(record_type: u8, s: &[u8]) -> TallyTold
    ensures { result ≡ contents_told (messages_of record_type s.now) }
{
    let all = content_walk::count_contents(record_type, s);
    TallyTold {
        count: all.count,
        end: all.end,
    }
}
