// Walks whose step may answer more than one thing: its type says what it may answer at a byte, and
// the walk is one that such answers make. Where a step has one answer, `steps` says what it is.
ghost use Rattle.std.specs.Prelude.{ℕ, Result};
ghost use Rattle.list.specs.AnySteps.{MovesOn, Halts, Skips};
ghost use Rattle.refusal.specs.declared.Refusal.{Refusal};

use crate::steps::{Counted, Tally};
use refusal::Refusal;

// A step that may answer more than one thing.
pub trait AnyStep {
    // what it may answer at a byte
    ghost may_answer: { Self → ℕ → Result ℕ Refusal → Type 0 };

    // Where what begins at `at` leads, or why nothing does.
    fn lead(&self, at: usize) -> Result<usize, Refusal>
        ensures { may_answer self.now at result };
}

// One that moves on, so that a walk ends.
pub trait OnwardStep: AnyStep {
    ghost moves_on: { (s : Self) → MovesOn (Self.may_answer s) };
}

// Walks from `from` on, up to the first step that is refused, and tells why it was.
#[inline(always)]
pub fn count_any_to_stop<S: OnwardStep>(step: &S, from: usize) -> Tally
    ensures { Halts (S.may_answer step.now) from result.count result.end result.stop }
{
    let mut count: usize = 0;
    let mut end: usize = from;
    // stays: an iterator would lose the refusal that ends the walk
    loop {
        match step.lead(end) {
            Err(stop) => {
                return Tally { count, end, stop };
            }
            Ok(next) => {
                end = next;
                count += 1;
            }
        }
    }
}

// Walks from `from` on, up to the first step that is refused.
#[inline(always)]
pub fn count_any<S: OnwardStep>(step: &S, from: usize) -> Counted
    ensures { (stop : Refusal) × Halts (S.may_answer step.now) from result.count result.end stop }
{
    // stays: a `From<Tally>` that drops the refusal would be as long
    let tally = count_any_to_stop(step, from);
    Counted {
        count: tally.count,
        end: tally.end,
    }
}

// Where that many steps from the front lead, or why one of them was refused. They need not move on.
#[inline(always)]
pub fn skip_any<S: AnyStep>(step: &S, n: usize) -> Result<usize, Refusal>
    ensures { Skips (S.may_answer step.now) n result }
{
    let mut at: usize = 0;
    for _ in 0..n {
        at = step.lead(at)?;
    }
    Ok(at)
}
