// Key exchanges: views of what depends on the method that was agreed, and is not looked at.
use wire::view::View;

// Names the whole body of a ServerKeyExchange, which is not opened.
#[derive(Clone, Copy)]
pub struct TlsServerKeyExchangeContents {
    pub parameters: View,
}

// The number of a raw key exchange, where it is told or heard.
// stays: a C call names the form by these numbers, and a pattern takes no cast.
pub const RAW: usize = 0;
// That of a Diffie-Hellman one.
pub const DIFFIE_HELLMAN: usize = 1;
// That of one of elliptic curves.
pub const ELLIPTIC_CURVE: usize = 2;

// Read, it is always `Unknown`, the whole body; written, it is one of the three.
#[derive(Clone, Copy)]
pub enum TlsClientKeyExchangeContents {
    Dh(View),
    Ecdh(View),
    Unknown(View),
}
