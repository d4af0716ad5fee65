// A walk by steps: a step is asked at a byte, and answers the place past what begins there, or why
// nothing does. The type takes the step, so that each walk is a loop of its own when it runs.
ghost use Rattle.std.specs.Prelude.{◌≡◌, ℕ, length};
ghost use Rattle.list.specs.Stepping.{MovesOn, led_by, places_from, stop_from};
ghost use Rattle.refusal.specs.Answers.{Answer, refused, as_answer};

use refusal::Refusal;

// A step of a walk.
pub trait Step {
    // what it answers at a byte
    ghost answered: { Self → ℕ → Answer ℕ };

    // Where what begins at `at` ends, or why nothing does.
    fn past(&self, at: usize) -> Result<usize, Refusal>
        ensures { as_answer result ≡ answered self.now at };

    // so a walk ends
    ghost moves_on: { (s : Self) → MovesOn (answered s) };
}

// How many steps a walk took, up to the first that was refused, where it stopped, and why.
#[derive(Clone, Copy)]
pub struct Tally {
    pub count: usize,
    pub end: usize,
    pub stop: Refusal,
}

// How many steps a walk took, up to the first that was refused, and where it stopped.
#[derive(Clone, Copy)]
pub struct Counted {
    pub count: usize,
    pub end: usize,
}

// Walks from `from` on, up to the first step that is refused, and tells why it was.
#[inline(always)]
pub fn count_to_stop<S: Step>(step: &S, from: usize) -> Tally
    ensures count_value { result.count ≡ length (places_from (S.answered step.now) from) }
    ensures end_value { result.end ≡ stop_from (S.answered step.now) from }
    ensures stop_value { S.answered step.now result.end ≡ refused result.stop }
{
    let mut count: usize = 0;
    let mut end: usize = from;
    // stays: an iterator would lose the refusal that ends the walk
    loop {
        match step.past(end) {
            Err(stop) => {
                return Tally { count, end, stop };
            }
            Ok(next) => {
                end = next;
                count += 1;
            }
        }
    }
}

// Walks from `from` on, up to the first step that is refused.
#[inline(always)]
pub fn count<S: Step>(step: &S, from: usize) -> Counted
    ensures count_value { result.count ≡ length (places_from (S.answered step.now) from) }
    ensures end_value { result.end ≡ stop_from (S.answered step.now) from }
{
    // stays: a `From<Tally>` that drops the refusal would be as long
    let tally = count_to_stop(step, from);
    Counted {
        count: tally.count,
        end: tally.end,
    }
}

// Where that many steps from the front lead, or why one of them was refused.
#[inline(always)]
pub fn skip<S: Step>(step: &S, n: usize) -> Result<usize, Refusal>
    ensures { as_answer result ≡ led_by n (S.answered step.now) 0 }
{
    let mut at: usize = 0;
    for _ in 0..n {
        at = step.past(at)?;
    }
    Ok(at)
}
