// Numbers that have names: RFC 5246 A.1 and A.4, RFC 5077, 6066 and 8446 B.3; RULES 2, 3, 4 and 6.
// stays: numbers and no enums: C is handed them, and a byte of the wire may be any.
#![tactic(auto)]

pub mod extension;
pub mod handshake;
pub mod limit;
pub mod record;
pub mod version;
