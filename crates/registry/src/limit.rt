// Lengths that a rule names (RULES 2, 3 and 6).

// The bytes of a random (RFC 5246 7.4.1.2).
pub const RANDOM: usize = 32;
// The most bytes of a session id (RFC 5246 7.4.1.2).
pub const SESSION_ID: usize = 32;
// The most bytes of a record's content (tls-parser's; RFC 5246 6.2.1 has 16,384).
pub const FRAGMENT: usize = 16_640;
// The fewest bytes of a heartbeat's padding (RFC 6520 4).
pub const PADDING: usize = 16;
