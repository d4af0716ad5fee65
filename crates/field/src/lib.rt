// A fixed part, and a part behind its length by the rule of what it is, read and written.
#![tactic(auto)]

ghost use Rattle.std.specs.Prelude.{◌≡◌, false, List, ℕ};
ghost use Rattle.refusal.specs.Answers.{Answer, as_answer};
ghost use Rattle.wire.specs.Numbers.{bytes_in};
ghost use Rattle.wire.specs.Puts.{room, written};
ghost use Rattle.field.specs.Fields.{Field, rule_of, ruled, step};
ghost use Rattle.field.specs.Closing.{close_at};
ghost use Rattle.field.specs.Texts.{allows, allowed, field_text};

use refusal::{Reason, Refusal};
use wire::number::Width;
use wire::view::{Part, View};

// Names the rule that a length is held to, by what stands behind it.
// stays: width and rule are two parameters, as `Field.vector` of the theorems has them
#[derive(Clone, Copy)]
pub enum RuleName {
    Plain,
    SessionId,
    Ciphers,
    Methods,
    Fragment,
}

impl RuleName {
    // Whether the rule allows the length `n`.
    fn allows(self, n: usize) -> bool
        ensures { result ≡ allows (rule_of self) n }
    {
        match self {
            RuleName::Plain | RuleName::Methods => true,
            RuleName::SessionId => n <= registry::limit::SESSION_ID,
            RuleName::Ciphers => n % 2 == 0,
            RuleName::Fragment => n <= registry::limit::FRAGMENT,
        }
    }

    // The refusal of a length that the rule does not allow: the length stands at `at`, its bytes
    // begin at `next`.
    fn broken(self, at: usize, next: usize) -> Refusal
        ensures { (s : List ℕ) (n : ℕ) → allows (rule_of self) n ≡ false → ruled (rule_of self) s at next n ≡ Answer.refused result }
    {
        match self {
            RuleName::Plain => refusal::refuse(Reason::Incomplete, next, 0),
            RuleName::SessionId => refusal::refuse(Reason::Verify, at, 0),
            RuleName::Ciphers | RuleName::Methods => refusal::refuse(Reason::LengthValue, next, 0),
            RuleName::Fragment => refusal::refuse(Reason::TooLarge, at, 0),
        }
    }

    // The refusal where the bytes run past the end.
    fn past(self) -> Reason
        ensures { result ≡ (rule_of self).past }
    {
        match self {
            RuleName::Ciphers | RuleName::Methods => Reason::LengthValue,
            RuleName::Plain | RuleName::SessionId | RuleName::Fragment => Reason::Incomplete,
        }
    }

    // The refusal to write a part of another length.
    fn unfit(self) -> Reason
        ensures { result ≡ (rule_of self).unfit }
    {
        match self {
            RuleName::Fragment => Reason::TooLarge,
            _ => Reason::BadLength,
        }
    }
}

// Takes the `n` bytes from `at` on, or answers Incomplete.
pub fn take(s: &[u8], at: usize, n: usize) -> Result<Part, Refusal>
    ensures { as_answer result ≡ step (Field.fixed n) s.now at }
{
    wire::view::take_or(s, at, n, Reason::Incomplete)
}

// Takes the part behind its length at `at`; the length is held to the rule.
pub fn length_data(s: &[u8], at: usize, w: Width, rule: RuleName) -> Result<Part, Refusal>
    ensures { as_answer result ≡ step (Field.vector (bytes_in w) (rule_of rule)) s.now at }
{
    let n = wire::number::parse_be(s, at, w)?;
    if !rule.allows(n.value) {
        return Err(rule.broken(at, n.next));
    }
    wire::view::take_or(s, n.next, n.value, rule.past())
}

// Takes the part behind its length at `at` where it ends with the bytes; otherwise answers `amiss`.
pub fn closing_data(
    body: &[u8],
    at: usize,
    w: Width,
    rule: RuleName,
    amiss: Refusal,
) -> Result<Part, Refusal>
    ensures { as_answer result ≡ close_at (Field.vector (bytes_in w) (rule_of rule)) amiss body.now at }
{
    let Ok(n) = wire::number::parse_be(body, at, w) else {
        return Err(amiss);
    };
    if body.len() - n.next != n.value || !rule.allows(n.value) {
        return Err(amiss);
    }
    Ok(Part {
        view: View {
            start: n.next,
            len: n.value,
        },
        next: body.len(),
    })
}

// Whether `n` bytes may be written behind a length of that width.
pub fn may_follow(w: Width, rule: RuleName, n: usize) -> bool
    ensures { result ≡ allowed (Field.vector (bytes_in w) (rule_of rule)) n }
{
    wire::number::width_holds(w, n) && rule.allows(n)
}

// Writes a part behind its length: the refusal of a length that may not be written, then NoRoom. A
// refusal changes no byte.
pub fn gen_length_data(
    out: &mut [u8],
    at: usize,
    w: Width,
    rule: RuleName,
    part: &[u8],
) -> Result<usize, Refusal>
    ensures result_value { as_answer result ≡ room (field_text (Field.vector (bytes_in w) (rule_of rule)) part.now) at out.old }
    ensures out_after { out.new ≡ written (field_text (Field.vector (bytes_in w) (rule_of rule)) part.now) at out.old }
{
    let n = part.len();
    if !may_follow(w, rule, n) {
        return Err(refusal::unplaced(rule.unfit()));
    }
    let count = wire::number::width_bytes(w);
    wire::output::room_for(out, at, count + n)?;
    let next = wire::number::gen_be(out, at, w, n)?;
    wire::output::gen_bytes(out, next, part)
}
