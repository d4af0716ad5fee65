// The NewSessionTicket (RULES 4.2, RFC 5077 3.3).
ghost use Rattle.std.specs.Prelude.{◌≡◌};
ghost use Rattle.read_others.specs.Body.{session_ticket};
ghost use Rattle.refusal.specs.Answers.{as_answer};

use field::RuleName;
use refusal::{Reason, Refusal};
use wire::number::Width;
use wire::view::View;

// Holds a NewSessionTicket: tls-parser's fields, and where the tail begins.
#[derive(Clone, Copy)]
pub struct TlsNewSessionTicketContent {
    pub ticket_lifetime_hint: u32,
    pub ticket: View,
    pub tail: usize,
}

// A body of `len` bytes: the lifetime, and the ticket behind its length, which ends with them.
pub fn parse_tls_newsessionticket(
    i: &[u8],
    len: usize,
) -> Result<TlsNewSessionTicketContent, Refusal>
    ensures { as_answer result ≡ session_ticket len i.now }
{
    if len < 4 {
        return Err(refusal::refuse(Reason::Verify, 0, 0));
    }
    let whole = field::take(i, 0, len)?;
    let body = wire::view::part_of(i, whole.view);
    let hint = wire::number::parse_be(body, 0, Width::Four)?;
    let amiss = refusal::refuse(Reason::LengthValue, hint.next, 0);
    let ticket = field::closing_data(body, hint.next, Width::Two, RuleName::Plain, amiss)?;
    Ok(TlsNewSessionTicketContent {
        ticket_lifetime_hint: hint.value as u32,
        ticket: ticket.view,
        tail: ticket.next,
    })
}
