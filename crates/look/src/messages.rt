// The messages of a handshake record, and what is dropped behind the messages of any.
use crate::names::{HandshakeType, Why};
use crate::say::{Amount, Count, Placed};
use crate::{bodies, owed, say};
use refusal::{Reason, Refusal};
use std::io::{self, Write};
use wire::number::Width;
use wire::view::rest_of;

// A message that announces more bytes than `here`, by `lack`.
fn goes_on(to: &mut impl Write, announced: usize, here: usize, lack: usize) -> io::Result<()> {
    write!(to, "  the message announces {}", Count(announced, " byte"))?;
    if lack > owed::BELIEVED {
        writeln!(to, ", which is not believed: the record may be encrypted")
    } else {
        writeln!(
            to,
            " and {} are here: it goes on in the next record",
            Amount(here)
        )
    }
}

// A message whose body is here whole, and too short for what is in it.
fn ends_early(to: &mut impl Write, r: Refusal, announced: usize) -> io::Result<()> {
    if matches!(r.reason, Reason::Incomplete | Reason::Complete) {
        writeln!(
            to,
            "  its body of {} ends before its fields do",
            Count(announced, " byte")
        )?;
    }
    Ok(())
}

// Why a message is not read, of which Incomplete or Complete does not tell enough.
fn say_why(to: &mut impl Write, r: Refusal, message: &[u8]) -> io::Result<()> {
    let Ok(n) = wire::number::parse_be(message, 1, Width::Three) else {
        let here = message.len();
        return writeln!(
            to,
            "  here are {here} of the 4 bytes of a message's head: the next record, where it goes on, is read from its front"
        );
    };
    let here = rest_of(message, 4).len();
    if here < n.value {
        goes_on(to, n.value, here, n.value - here)
    } else {
        ends_early(to, r, n.value)
    }
}

// What a message that is refused begins as, and why it is not read. Nothing where there is no byte
// of it.
pub(crate) fn say_refused(to: &mut impl Write, r: Refusal, message: &[u8]) -> io::Result<()> {
    if let Some(first) = message.first() {
        writeln!(to, "  it begins as {}", HandshakeType(*first))?;
        say_why(to, r, message)?;
    }
    Ok(())
}

// Tells what a message says, and what its body's reader left over. None that was counted is
// refused.
fn say_opened(to: &mut impl Write, msg_type: u8, body: Placed<'_>) -> io::Result<()> {
    if let Ok(m) = envelope::parse_tls_handshake_body(msg_type, body.bytes) {
        bodies::say_body(to, m, body)?;
        let tail = m.rest(body.bytes).len();
        if tail > 0 {
            let from = body.len().saturating_sub(tail);
            writeln!(to, "    tail {}", body.rest(from))?;
        }
    }
    Ok(())
}

// The bytes behind the last message of a record of that type, with why they hold none; nothing
// where there are none.
pub(crate) fn say_dropped(
    to: &mut impl Write,
    record_type: u8,
    end: usize,
    content: Placed<'_>,
) -> io::Result<()> {
    let left = content.rest(end);
    if let Err(r) = content_walk::past_message(record_type, content.bytes, end) {
        if left.len() > 0 {
            writeln!(to, "  dropped {left}, refused: {}", Why(r))?;
            if record_type == registry::record::HANDSHAKE {
                say_refused(to, r, left.bytes)?;
            }
        }
    }
    Ok(())
}

// Tells as many messages as were counted, and the bytes behind them.
pub(crate) fn say_messages(to: &mut impl Write, all: usize, content: Placed<'_>) -> io::Result<()> {
    let mut at: usize = 0;
    // stays: no plainer: a walk by heads alone needs a bound of its own, and the count is one
    for k in 0..all {
        if let Ok(head) = envelope::parse_tls_message_head(content.bytes, at) {
            say::message(to, k + 1, content.rest(at).from)?;
            say_opened(to, head.msg_type, content.part(head.body))?;
            at = head.next;
        }
    }
    say_dropped(to, registry::record::HANDSHAKE, at, content)
}
