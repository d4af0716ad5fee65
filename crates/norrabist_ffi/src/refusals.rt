// The exports of `norrabist_c::refusals`; made by ./papers --write.
ghost use Rattle.std.specs.Prelude.{◌≡◌};
ghost use Rattle.norrabist_c.specs.Readers.{answer_of, refusal_told};

use norrabist_c::refusals::RefusalTold;

// What the refusal of a reader carries, of the same bytes. `reader` is a handshake type, for the
// reader of such a body, `n` its length where the reader takes one; or 0x0200 and a record's type,
// for the reader of such a content; or the number of another reader, `n` the byte at which it
// begins, and of a heartbeat its length.
// stays: the readers are told apart by number, which is the C interface
#[unsafe(no_mangle)]
pub extern "C" fn norrabist_refusal(reader: u16, i: &[u8], n: usize) -> RefusalTold
    ensures { result ≡ refusal_told (answer_of reader n i.now) }
{
    norrabist_c::refusals::norrabist_refusal(reader, i, n)
}
