// The messages of a record by its type.
use crate::alerts::Alert;
use crate::messages;
use crate::say::{self, Placed, kind};
use std::io::{self, Write};
use wire::view::View;

// ChangeCipherSpec messages, which are all alike: one line, however many they are.
fn cipher_specs(to: &mut impl Write, all: usize, content: Placed<'_>) -> io::Result<()> {
    let told = content.part(View { start: 0, len: all });
    if all == 1 {
        say::message(to, 1, content.from)?;
        kind(to, "ChangeCipherSpec", told)?;
    } else {
        writeln!(to, "  messages 1 to {all} {told}: ChangeCipherSpec each")?;
    }
    messages::say_dropped(to, registry::record::CHANGE_CIPHER_SPEC, all, content)
}

// Alerts, a line each.
fn say_alerts(to: &mut impl Write, all: usize, content: Placed<'_>) -> io::Result<()> {
    let mut at: usize = 0;
    // stays: no plainer: a walk by alerts alone needs a bound of its own, and the count is one
    for k in 0..all {
        if let Ok(a) = content::alert_at(content.bytes, at) {
            say::message(to, k + 1, content.rest(at).from)?;
            writeln!(to, "{}", Alert(a))?;
            at = at.wrapping_add(2);
        }
    }
    messages::say_dropped(to, registry::record::ALERT, at, content)
}

// Application data, which is all of the content.
fn application_data(to: &mut impl Write, content: Placed<'_>) -> io::Result<()> {
    say::message(to, 1, content.from)?;
    kind(to, "ApplicationData", content)
}

// A heartbeat, which is all of the content; its type is 1 or 2.
fn heartbeat(to: &mut impl Write, content: Placed<'_>) -> io::Result<()> {
    let Ok(h) = content::read_heartbeat(content.bytes) else {
        return Ok(());
    };
    say::message(to, 1, content.from)?;
    kind(to, "Heartbeat", content)?;
    if h.heartbeat_type == 1 {
        writeln!(to, "    heartbeat_request (1)")?;
    } else {
        writeln!(to, "    heartbeat_response (2)")?;
    }
    writeln!(to, "    payload {}", content.part(h.payload))?;
    writeln!(to, "    padding {}", content.part(h.padding))
}

// Tells as many messages as were counted, and the bytes behind them.
// stays: a `match` by the kind is plainer than functions in a table
pub(crate) fn say_contents(
    to: &mut impl Write,
    record_type: u8,
    all: usize,
    content: Placed<'_>,
) -> io::Result<()> {
    match record_type {
        registry::record::CHANGE_CIPHER_SPEC => cipher_specs(to, all, content),
        registry::record::ALERT => say_alerts(to, all, content),
        registry::record::APPLICATION_DATA => application_data(to, content),
        registry::record::HEARTBEAT => heartbeat(to, content),
        _ => messages::say_messages(to, all, content),
    }
}
