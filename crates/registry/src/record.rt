// The type bytes of records (RULES 6; RFC 5246 6.2.1, RFC 6520 3).

// RFC 5246 7.1.
pub const CHANGE_CIPHER_SPEC: u8 = 0x14;
// RFC 5246 7.2.
pub const ALERT: u8 = 0x15;
// RFC 5246 7.4.
pub const HANDSHAKE: u8 = 0x16;
// RFC 5246 10.
pub const APPLICATION_DATA: u8 = 0x17;
// RFC 6520 3.
pub const HEARTBEAT: u8 = 0x18;
