// What stands behind a ChangeCipherSpec. No record tells by itself that it is encrypted: what is
// gone by is its type, and whether a ChangeCipherSpec was opened before it.
ghost use Rattle.std.specs.Prelude.{◌≡◌};
ghost use Rattle.record_open.specs.Plaintext.{plaintext};
ghost use Rattle.look.specs.Sealed.{is_sealed, sealed_after};

use record::TlsRawRecord;

// Whether the record `r` is taken for encrypted; `after`: a ChangeCipherSpec stands before it.
pub(crate) fn is_sealed(r: TlsRawRecord, after: bool) -> bool
    ensures { result ≡ is_sealed after r.hdr.record_type }
{
    match r.hdr.record_type {
        registry::record::ALERT | registry::record::HANDSHAKE | registry::record::HEARTBEAT =>
            after,
        _ => false,
    }
}

// Whether a ChangeCipherSpec stands before what follows the record `r`, with which `s` begins. One
// that is refused is none.
pub(crate) fn sealed_after(r: TlsRawRecord, s: &[u8], after: bool) -> bool
    ensures { result ≡ sealed_after after r.hdr.record_type (plaintext s.now) }
{
    if r.hdr.record_type != registry::record::CHANGE_CIPHER_SPEC {
        return after;
    }
    after || record_open::parse_tls_plaintext(s).is_ok()
}
