// The types of the extensions that are opened (RULES 11.3).

// RFC 6066 3.
pub const SERVER_NAME: usize = 0x0000;
// RFC 6066 4.
pub const MAX_FRAGMENT_LENGTH: usize = 0x0001;
// RFC 8422 5.1.1.
pub const SUPPORTED_GROUPS: usize = 0x000a;
