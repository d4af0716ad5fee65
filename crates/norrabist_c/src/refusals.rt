// Why a reader refuses, whatever the reader: not for the way that is taken often.
#![tactic(auto, unfolding(crate::specs::Readers::answer_of, envelope::specs::Opening::opened, record_walk::specs::Walks::met_head))]

ghost use Rattle.std.specs.Prelude.{◌≡◌};
ghost use Rattle.envelope.specs.Opening.{opened};
ghost use Rattle.grammar.specs.Forms.{by_version};
ghost use Rattle.list.specs.Items.{or_no_such};
ghost use Rattle.norrabist_c.specs.Readers.{answer_of, refusal_told, verdict};
ghost use Rattle.read_client.specs.Client.{strict_client};
ghost use Rattle.read_server.specs.Server.{server_versions};
ghost use Rattle.record_many.specs.Many.{many};
ghost use Rattle.refusal.specs.Answers.{as_answer, number_in};

use refusal::{Reason, Refusal};

// What a refusal carries, by the table's number; 0 where nothing is refused.
#[repr(C)]
#[derive(Clone, Copy)]
pub struct RefusalTold {
    pub number: u8,
}

// The table's number of an answer: 0 where it is accepted.
pub(crate) fn answer_number<T: Copy>(answer: Result<T, Refusal>) -> u8
    ensures { result ≡ number_in (as_answer answer) }
{
    match answer {
        Err(r) => refusal::refusal_number(r),
        Ok(_) => 0,
    }
}

// What the refusal of an answer carries, whatever its value.
fn carried<T: Copy>(answer: Result<T, Refusal>) -> RefusalTold
    ensures { result ≡ refusal_told (verdict (as_answer answer)) }
{
    RefusalTold {
        number: answer_number(answer),
    }
}

// An answer that is refused as NoSuch, whatever its own refusal.
fn or_no_such<T: Copy>(answer: Result<T, Refusal>) -> Result<T, Refusal>
    ensures { as_answer result ≡ or_no_such (as_answer answer) }
{
    answer.map_err(|_| refusal::refuse(Reason::NoSuch, 0, 0))
}

// Of the four readers whose answers are largest each has a function of its own: in an arm below,
// the place of its answer is set to zero whichever reader is asked.
#[inline(never)]
fn of_server(i: &[u8]) -> RefusalTold
    ensures { result ≡ refusal_told (verdict (by_version server_versions i.now)) }
{
    carried(read_server::tlsv12::parse_tls_handshake_server_hello(i))
}

#[inline(never)]
fn of_many(i: &[u8]) -> RefusalTold
    ensures { result ≡ refusal_told (verdict (many i.now)) }
{
    carried(record_many::tls_parser_many(i))
}

#[inline(never)]
fn of_client_strict(i: &[u8]) -> RefusalTold
    ensures { result ≡ refusal_told (verdict (strict_client i.now)) }
{
    carried(read_client::parse_tls_handshake_client_hello_strict(i))
}

#[inline(never)]
fn of_body(msg_type: u8, i: &[u8], len: usize) -> RefusalTold
    ensures { result ≡ refusal_told (verdict (opened msg_type len i.now)) }
{
    carried(envelope::parse_tls_handshake_msg(msg_type, i, len))
}

// What the refusal of a reader carries, of the same bytes. `reader` is a handshake type, for the
// reader of such a body, `n` its length where the reader takes one; or 0x0200 and a record's type,
// for the reader of such a content; or the number of another reader, `n` the byte at which it
// begins, and of a heartbeat its length.
// stays: the readers are told apart by number, which is the C interface
#[unsafe(no_mangle)]
pub extern "C" fn norrabist_refusal(reader: u16, i: &[u8], n: usize) -> RefusalTold
    ensures { result ≡ refusal_told (answer_of reader n i.now) }
{
    match reader {
        0x0100 => carried(record::parse_tls_record_header(i)),
        0x0101 => carried(record::parse_tls_raw_record(i)),
        0x0102 => carried(record_open::open_tls_plaintext(i)),
        0x0103 => carried(record_walk::meet_tls_message(i, n)),
        0x0104 => carried(or_no_such(record_walk::meet_tls_message(i, n))),
        0x0105 => of_server(i),
        0x0106 => of_many(i),
        0x0107 => carried(content::change_cipher_spec_at(i, 0)),
        0x0108 => carried(content::alert_at(i, 0)),
        // `n` modulo 2^16, the lengths that its reader can be handed
        0x0109 => carried(content::take_heartbeat(i, (n % 65536) as u16)),
        0x010a => of_client_strict(i),
        0x0200..=0x02ff => carried(record_open::past_first((reader - 0x0200) as u8, i, 0)),
        0x0000..=0x00ff => of_body(reader as u8, i, n),
        _ => RefusalTold {
            number: refusal::refusal_number(refusal::unplaced(Reason::Switch)),
        },
    }
}
