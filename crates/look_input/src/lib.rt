// What the bytes that a person hands to the program `look` seem to be.
#![tactic(auto)]

mod mark;

ghost use Rattle.std.specs.Prelude.{◌≡◌};
ghost use Rattle.look_input.specs.Inputs.{first_kind, input_kind, is_blank, is_dtls, is_gzip, is_hex, is_hex_digit, is_pcap, is_ssl2, is_text};

use wire::number::Width;

// What an input seems to be.
#[derive(Clone, Copy, PartialEq)]
pub enum InputKind {
    // Records one behind the other, or nothing that is known here.
    Records,
    // A capture file of libpcap.
    Pcap,
    // A capture file in pcapng's form.
    PcapNg,
    // A file that gzip made.
    Gzip,
    // Bytes written in hex.
    Hex,
    // A hello in SSL 2.0's form.
    Ssl2,
    // Records of DTLS.
    Dtls,
}

// Whether the number that an input begins with is one that libpcap writes.
fn is_pcap(n: usize) -> bool
    ensures { result ≡ is_pcap n }
{
    matches!(
        n,
        mark::PCAP | mark::PCAP_SWAPPED | mark::PCAP_NANO | mark::PCAP_NANO_SWAPPED
    )
}

// Whether three bytes begin a gzip file.
// stays: the bytes come one by one, as `first_kind` and `is_hex` of the theorems take them
fn is_gzip(first: u8, second: u8, third: u8) -> bool
    ensures { result ≡ is_gzip first second third }
{
    first == mark::GZIP_ID1 && second == mark::GZIP_ID2 && third == mark::GZIP_DEFLATE
}

// Whether two bytes begin a record of DTLS.
fn is_dtls(first: u8, second: u8) -> bool
    ensures { result ≡ is_dtls first second }
{
    matches!(first, mark::TYPE_LOW..=mark::TYPE_HIGH) && second == mark::DTLS_MAJOR
}

// Whether the first, third and fourth byte are those of a hello in SSL 2.0's form.
fn is_ssl2(first: u8, third: u8, fourth: u8) -> bool
    ensures { result ≡ is_ssl2 first third fourth }
{
    matches!(first, mark::SSL2_TOP..=mark::SSL2_LAST)
        && third == mark::SSL2_CLIENT_HELLO
        && matches!(fourth, mark::SSL2_MAJOR | mark::TLS_MAJOR)
}

// Whether a byte is a hex digit.
fn is_hex_digit(b: u8) -> bool
    ensures { result ≡ is_hex_digit b }
{
    b.is_ascii_hexdigit()
}

// Whether a byte is a blank.
fn is_blank(b: u8) -> bool
    ensures { result ≡ is_blank b }
{
    matches!(b, b' ' | b'\t' | b'\n' | b'\r')
}

// Whether a byte may stand in bytes that are written in hex.
fn is_text(b: u8) -> bool
    ensures { result ≡ is_text b }
{
    is_hex_digit(b) || is_blank(b) || b == b':'
}

// Whether four bytes may be the first of bytes that are written in hex.
fn is_hex(first: u8, second: u8, third: u8, fourth: u8) -> bool
    ensures { result ≡ is_hex first second third fourth }
{
    is_text(first) && is_text(second) && is_text(third) && is_text(fourth)
}

// What four bytes, and their number, seem to be the first of.
fn kind_of_first(n: usize, first: u8, second: u8, third: u8, fourth: u8) -> InputKind
    ensures { result ≡ first_kind n first second third fourth }
{
    if is_pcap(n) {
        InputKind::Pcap
    } else if n == mark::PCAPNG {
        InputKind::PcapNg
    } else if is_gzip(first, second, third) {
        InputKind::Gzip
    } else if is_dtls(first, second) {
        InputKind::Dtls
    } else if is_ssl2(first, third, fourth) {
        InputKind::Ssl2
    } else if is_hex(first, second, third, fourth) {
        InputKind::Hex
    } else {
        InputKind::Records
    }
}

// What an input seems to be, by its first four bytes; one that has fewer, or that nothing else
// fits, is taken for records.
pub fn input_kind(s: &[u8]) -> InputKind
    ensures { result ≡ input_kind s.now }
{
    let Ok(n) = wire::number::parse_be(s, 0, Width::Four) else {
        return InputKind::Records;
    };
    kind_of_first(n.value, s[0], s[1], s[2], s[3])
}
