// The versions that a ServerHello is opened by (RULES 3; RFC 5246 A.1).

// RFC 6101 5.6.1.3: no extensions are looked for.
pub const SSL30: usize = 0x0300;
// RFC 2246 7.4.1.3.
pub const TLS10: usize = 0x0301;
// RFC 4346 7.4.1.3.
pub const TLS11: usize = 0x0302;
// RFC 5246 7.4.1.3.
pub const TLS12: usize = 0x0303;
// draft-ietf-tls-tls13-18 4.1.3; the number that a ServerHello of draft 18 is told by, too.
pub const TLS13_DRAFT18: usize = 0x7f12;
