// Walks by steps that are told of by what they may answer.
ghost use Rattle.std.specs.Prelude.{Ok, refl, ◌-◌, ◌<◌, ◌≡◌, ℕ};
ghost use Rattle.refusal.specs.Answers.{accepted, as_answer};

use crate::any::{AnyStep, OnwardStep, count_any, count_any_to_stop, skip_any};
use refusal::{Reason, Refusal};

// A step that leads forth and back: from byte 0 to byte 7 and from there to byte 0.
struct Swing;

impl AnyStep for Swing {
    ghost may_answer = { λ s at r. as_answer r ≡ accepted (7 - at) };

    fn lead(&self, at: usize) -> Result<usize, Refusal> {
        Ok(7usize.saturating_sub(at))
    }
}

// A step of which is told alone that it moves on: by three bytes, up to byte 9.
struct Threes;

impl AnyStep for Threes {
    ghost may_answer = { λ s at r. (next : ℕ) → r ≡ Ok next → at < next };

    fn lead(&self, at: usize) -> Result<usize, Refusal> {
        if at < 9 {
            Ok(at + 3)
        } else {
            Err(refusal::refuse(Reason::NoSuch, at, 0))
        }
    }
}

impl OnwardStep for Threes {
    ghost moves_on = { λ s at next b m. m next refl };
}

#[test]
fn skips_forth_and_back(rt: HostRuntime) {
    assert!(rt; matches!(skip_any(&Swing, 0), Ok(0)));
    assert!(rt; matches!(skip_any(&Swing, 1), Ok(7)));
    assert!(rt; matches!(skip_any(&Swing, 2), Ok(0)));
    assert!(rt; matches!(skip_any(&Swing, 5), Ok(7)));
}

#[test]
fn counts_threes(rt: HostRuntime) {
    let all = count_any(&Threes, 0);
    assert!(rt; all.count == 3 && all.end == 9);
    let left = count_any_to_stop(&Threes, 4);
    assert!(rt; left.count == 2 && left.end == 10 && left.stop.reason == Reason::NoSuch);
    assert!(rt; matches!(skip_any(&Threes, 4), Err(_)));
}
