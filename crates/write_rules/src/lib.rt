// What every writer shares: what came of a text, whether a part lies in the bytes lent, and a
// message's head.
#![tactic(auto)]

ghost use Rattle.std.specs.Prelude.{false, ◌≡◌};
ghost use Rattle.grammar.specs.Grammars.{How};
ghost use Rattle.wire.specs.Parts.{lies_in};
ghost use Rattle.wire.specs.Puts.{room, written};
ghost use Rattle.write_rules.specs.HelloTexts.{lies};
ghost use Rattle.write_rules.specs.MessageTexts.{head_text};
ghost use Rattle.refusal.specs.Answers.{Answer, as_answer};
ghost use Rattle.refusal.specs.Refusals.{unplaced};

use refusal::{Reason, Refusal};
use wire::number::Width;
use wire::view::View;

// What writing a text came to, and how many bytes the text has: 0 where none may be written.
// stays: with NoRoom the length is told too, so it stands beside the answer and not in it.
#[derive(Clone, Copy)]
pub struct TextAnswer {
    pub answer: Result<usize, Refusal>,
    pub len: usize,
}

impl TextAnswer {
    // The answer of a text that may not be written.
    pub fn refused(reason: Reason) -> TextAnswer
        ensures answer_value { as_answer result.answer ≡ Answer.refused (unplaced reason) }
        ensures len_value { result.len ≡ 0 }
    {
        TextAnswer {
            answer: Err(refusal::unplaced(reason)),
            len: 0,
        }
    }
}

// Whether a view lies within the bytes lent with it.
pub fn lies_in(i: &[u8], v: View) -> bool
    ensures { result ≡ lies_in i.now v }
{
    v.len <= i.len() && v.start <= i.len() - v.len
}

// The same of a view that may be missing, which lies in any bytes.
pub fn opt_lies_in(i: &[u8], v: Option<View>) -> bool
    ensures { result ≡ lies (How.as_opt false) i.now v }
{
    v.map_or(true, |p| lies_in(i, p))
}

// Writes type and length of a message, to stand before a body of `n` bytes: BadLength, then NoRoom.
// A refusal changes no byte.
// stays: `let _` drops answers that are known, since there is room; `?` would hand them on.
pub fn gen_head(out: &mut [u8], msg_type: u8, n: usize) -> Result<usize, Refusal>
    ensures result_value { as_answer result ≡ room (head_text msg_type n) 0 out.old }
    ensures out_after { out.new ≡ written (head_text msg_type n) 0 out.old }
{
    if wire::number::width_holds(Width::Three, n) {
        let p = wire::output::room_for(out, 0, 4)?;
        let _ = wire::number::gen_be(out, 0, Width::One, msg_type as usize);
        let _ = wire::number::gen_be(out, 1, Width::Three, n);
        Ok(p.next)
    } else {
        Err(refusal::unplaced(Reason::BadLength))
    }
}
