// Handshake messages: one type for all kinds.
#![tactic(auto)]

pub mod handshake;
pub mod keyexchange;
