// RULES 10.6: the certificates of a chain one after the other, by a reader with the lent list and
// its place in it. What it finds and how it moves is left to functions of plain parameters.
#![tactic(auto)]

ghost use Rattle.std.specs.Prelude.{◌≡◌};
ghost use Rattle.cert_reader.specs.Chain.{at_front, cert_of, moved_on_of, past_or};
ghost use Rattle.field.specs.Fields.{sized};
ghost use Rattle.list.specs.Items.{item_from, items, place};
ghost use Rattle.refusal.specs.Answers.{as_answer};

use refusal::Refusal;
use wire::number::Width;
use wire::view::Part;

// `list` is the chain's bytes, each certificate behind its length of three bytes.
// stays: a value and no iterator: a reader with the list and its place is RULES 10.6
#[derive(Clone, Copy)]
pub struct TlsCertificateReader<'a> {
    pub list: &'a [u8],
    pub at: usize,
}

// The certificate that begins at `at`.
fn cert_in(list: &[u8], at: usize) -> Result<Part, Refusal>
    ensures { as_answer result ≡ item_from (sized 3) list.now at }
{
    list::items::item_from(list, at, Width::Three)
}

// The place past it, or `at` where there is none.
fn past_cert(list: &[u8], at: usize) -> usize
    ensures { result ≡ past_or at (item_from (sized 3) list.now at) }
{
    cert_in(list, at).map_or(at, |p| p.next)
}

impl<'a> TlsCertificateReader<'a> {
    // Makes a reader that stands before the first certificate.
    pub fn new(list: &'a [u8]) -> TlsCertificateReader<'a>
        ensures { result ≡ at_front list.entry }
    {
        TlsCertificateReader { list, at: 0 }
    }

    // The certificate at the reader's place; past the last one NoSuch.
    pub fn cert(self) -> Result<Part, Refusal>
        ensures { as_answer result ≡ cert_of self.entry }
    {
        cert_in(self.list, self.at)
    }

    // The reader past that certificate; past the last one it stays.
    pub fn moved(self) -> TlsCertificateReader<'a>
        ensures { result ≡ moved_on_of self.entry }
    {
        TlsCertificateReader {
            list: self.list,
            at: past_cert(self.list, self.at),
        }
    }
}

// The sender's own certificate, which comes first (RFC 5246 7.4.2).
pub fn sender_certificate(list: &[u8]) -> Result<Part, Refusal>
    ensures { as_answer result ≡ place 0 (items (sized 3) list.now) }
{
    TlsCertificateReader::new(list).cert()
}

// The certificate that follows it, and certifies it.
pub fn issuer_certificate(list: &[u8]) -> Result<Part, Refusal>
    ensures { as_answer result ≡ place 1 (items (sized 3) list.now) }
{
    TlsCertificateReader::new(list).moved().cert()
}
