// A message that is begun in one record and goes on in the next.
ghost use Rattle.std.specs.Prelude.{◌≡◌};
ghost use Rattle.wire.specs.Parts.{part_of};
ghost use Rattle.look.specs.Owed.{begun, owed_after, passed};

use record::TlsRawRecord;
use wire::view::{part_of, rest_of};

// More bytes than this are not believed to be missing of a message: what reads so is none.
pub(crate) const BELIEVED: usize = 131072;

// What the last of messages lacks, the first beginning at the front of `s`.
fn begun_in(s: &[u8]) -> usize
    ensures { result ≡ begun s.now }
{
    let lack = record_tally::lacking(s, record_walk::count_messages(s, 0).end);
    if lack > BELIEVED { 0 } else { lack }
}

// How many bytes of a record belong to a message begun before it, of which `owed` are owed.
pub(crate) fn passed_over(r: TlsRawRecord, owed: usize) -> usize
    ensures { result ≡ passed r.hdr.record_type owed }
{
    match r.hdr.record_type {
        registry::record::HANDSHAKE => owed,
        _ => 0,
    }
}

// How many bytes of a message are owed after the record `r` of the window `s`, before which `owed`
// were. A record of another type ends what was owed, and so does one that is sealed.
pub(crate) fn owed_after(r: TlsRawRecord, owed: usize, s: &[u8], sealed: bool) -> usize
    ensures { result ≡ owed_after sealed r.hdr.record_type owed (part_of s.now r.«data») }
{
    if sealed || r.hdr.record_type != registry::record::HANDSHAKE {
        return 0;
    }
    let content = part_of(s, r.data);
    if content.len() < owed {
        owed - content.len()
    } else {
        begun_in(rest_of(content, owed))
    }
}
