// Numbers that the first four bytes of an input are told by.

// A capture file of libpcap (pcap-savefile), in microseconds, as written by a machine whose byte
// order is big-endian.
pub const PCAP: usize = 0xa1b2_c3d4;
// The same, little-endian.
pub const PCAP_SWAPPED: usize = 0xd4c3_b2a1;
// The same in nanoseconds, big-endian.
pub const PCAP_NANO: usize = 0xa1b2_3c4d;
// The same in nanoseconds, little-endian.
pub const PCAP_NANO_SWAPPED: usize = 0x4d3c_b2a1;
// The type of a Section Header Block, which is the same in either byte order
// (draft-ietf-opsawg-pcapng 4.1).
pub const PCAPNG: usize = 0x0a0d_0d0a;
// RFC 1952 2.3.1: ID1.
pub const GZIP_ID1: u8 = 0x1f;
// RFC 1952 2.3.1: ID2.
pub const GZIP_ID2: u8 = 0x8b;
// RFC 1952 2.3.1: CM, where it is deflate.
pub const GZIP_DEFLATE: u8 = 0x08;
// The lowest type of a record, change_cipher_spec (RFC 5246 6.2.1).
pub const TYPE_LOW: u8 = 0x14;
// The highest type of a record, tls12_cid (RFC 9146 3).
pub const TYPE_HIGH: u8 = 0x19;
// The first byte of a version of DTLS (RFC 6347 4.1: 0xfeff, and counted down from there).
pub const DTLS_MAJOR: u8 = 0xfe;
// The top bit of a length of two bytes in SSL 2.0 (RFC 5246 E.2).
pub const SSL2_TOP: u8 = 0x80;
// The same of a hello of 256 to 511 bytes; no longer one is looked for, since a record whose type
// is damaged would be taken for it.
pub const SSL2_LAST: u8 = 0x81;
// The type of an SSL 2.0 CLIENT-HELLO (RFC 5246 E.2).
pub const SSL2_CLIENT_HELLO: u8 = 0x01;
// The first byte of the version 0x0002, SSL 2.0's.
pub const SSL2_MAJOR: u8 = 0x00;
// The first byte of the versions from 0x0300 on (RFC 5246 E.2).
pub const TLS_MAJOR: u8 = 0x03;
