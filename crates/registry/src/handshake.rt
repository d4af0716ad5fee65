// The type bytes of handshake messages (RULES 5.4; RFC 5246 7.4).

// RFC 5246 7.4.1.1.
pub const HELLO_REQUEST: u8 = 0x00;
// RFC 5246 7.4.1.2.
pub const CLIENT_HELLO: u8 = 0x01;
// RFC 5246 7.4.1.3.
pub const SERVER_HELLO: u8 = 0x02;
// RFC 5077 3.3.
pub const NEW_SESSION_TICKET: u8 = 0x04;
// RFC 8446 4.5.
pub const END_OF_EARLY_DATA: u8 = 0x05;
// draft-ietf-tls-tls13-18 4.1.4.
pub const HELLO_RETRY_REQUEST: u8 = 0x06;
// RFC 5246 7.4.2.
pub const CERTIFICATE: u8 = 0x0b;
// RFC 5246 7.4.3.
pub const SERVER_KEY_EXCHANGE: u8 = 0x0c;
// RFC 5246 7.4.4.
pub const CERTIFICATE_REQUEST: u8 = 0x0d;
// RFC 5246 7.4.5.
pub const SERVER_DONE: u8 = 0x0e;
// RFC 5246 7.4.8.
pub const CERTIFICATE_VERIFY: u8 = 0x0f;
// RFC 5246 7.4.7.
pub const CLIENT_KEY_EXCHANGE: u8 = 0x10;
// RFC 5246 7.4.9.
pub const FINISHED: u8 = 0x14;
// RFC 6066 8.
pub const CERTIFICATE_STATUS: u8 = 0x16;
// RFC 8446 4.6.3.
pub const KEY_UPDATE: u8 = 0x18;
// draft-agl-tls-nextprotoneg-03 3.
pub const NEXT_PROTOCOL: u8 = 0x43;
