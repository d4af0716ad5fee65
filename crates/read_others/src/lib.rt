// The other bodies that hold fields: HelloRetryRequest, NewSessionTicket, NextProtocol.
#![tactic(auto)]

pub mod next_protocol;
pub mod retry;
pub mod ticket;
