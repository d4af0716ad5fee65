// A record round messages already written (RFC 5246 6.2.1).
#![tactic(auto)]

ghost use Rattle.std.specs.Prelude.{◌≡◌};
ghost use Rattle.wire.specs.Puts.{room, written};
ghost use Rattle.write_rules.specs.JoinTexts.{text_length};
ghost use Rattle.write_record.specs.RecordTexts.{record_text};
ghost use Rattle.refusal.specs.Answers.{as_answer};

use field::RuleName;
use record::TlsRecordHeader;
use refusal::{Reason, Refusal};
use wire::number::Width;
use write_rules::TextAnswer;

// Writes type and version of `hdr`, the length of `msg` and its bytes, which are not opened:
// TooLarge, then NoRoom. A refusal changes no byte; with NoRoom the length that the record needs is
// told.
// stays: `let _` drops answers that are known, since there is room; `?` would hand them on.
pub fn gen_plaintext(hdr: TlsRecordHeader, msg: &[u8], out: &mut [u8]) -> TextAnswer
    ensures answer_value { as_answer result.answer ≡ room (record_text hdr msg.now) 0 out.old }
    ensures len_value { result.len ≡ text_length (record_text hdr msg.now) }
    ensures out_after { out.new ≡ written (record_text hdr msg.now) 0 out.old }
{
    if !field::may_follow(Width::Two, RuleName::Fragment, msg.len()) {
        return TextAnswer::refused(Reason::TooLarge);
    }
    let len = 5 + msg.len();
    match wire::output::room_for(out, 0, len) {
        Err(r) => TextAnswer {
            answer: Err(r),
            len,
        },
        Ok(p) => {
            let _ = wire::number::gen_be(out, 0, Width::One, hdr.record_type as usize);
            let _ = wire::number::gen_be(out, 1, Width::Two, hdr.version as usize);
            let _ = field::gen_length_data(out, 3, Width::Two, RuleName::Fragment, msg);
            TextAnswer {
                answer: Ok(p.next),
                len,
            }
        }
    }
}

// The same with the answer alone: TooLarge, then NoRoom. A refusal changes no byte.
pub fn gen_tls_plaintext(hdr: TlsRecordHeader, msg: &[u8], out: &mut [u8]) -> Result<usize, Refusal>
    ensures result_value { as_answer result ≡ room (record_text hdr msg.now) 0 out.old }
    ensures out_after { out.new ≡ written (record_text hdr msg.now) 0 out.old }
{
    gen_plaintext(hdr, msg, out).answer
}
