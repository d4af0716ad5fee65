// Why a call is refused: the table of RULES 1.1 as one type, and the only place where a refusal is
// made.
#![tactic(auto)]

ghost use Rattle.std.specs.Prelude.{◌≡◌};
ghost use Rattle.refusal.specs.Refusals.{inside, number_of, refusal, unplaced};

use std::error::Error;
use std::fmt;

// Why a call is refused: rows 1 to 12 of RULES 1.1, by their numbers; there is no 10.
#[derive(Clone, Copy, Debug, PartialEq, Eq, Hash)]
pub enum Reason {
    Incomplete = 1,
    Complete = 2,
    Verify = 3,
    LengthValue = 4,
    Tag = 5,
    Switch = 6,
    TooLarge = 7,
    BadLength = 8,
    NoRoom = 9,
    NoSuch = 11,
    NotYetImplemented = 12,
}

// Prints a reason by its name in the table.
impl fmt::Display for Reason {
    ghost use Rattle.std.specs.Prelude.{Some};
    ghost use Rattle.refusal.specs.Names.{name_of};

    ghost output = { λ r. Some (name_of r) };

    fn fmt<W: fmt::Write>(&self, f: &mut fmt::Formatter<W>) -> fmt::Result {
        f.write_str(match self {
            Reason::Incomplete => "Incomplete",
            Reason::Complete => "Complete",
            Reason::Verify => "Verify",
            Reason::LengthValue => "LengthValue",
            Reason::Tag => "Tag",
            Reason::Switch => "Switch",
            Reason::TooLarge => "TooLarge",
            Reason::BadLength => "BadLength",
            Reason::NoRoom => "NoRoom",
            Reason::NoSuch => "NoSuch",
            Reason::NotYetImplemented => "NotYetImplemented",
        })
    }
}

// What a refusal carries: its reason alone.
#[derive(Clone, Copy, Debug, PartialEq, Eq, Hash)]
pub struct Refusal {
    pub reason: Reason,
}

// Prints a refusal by the name of its reason.
impl fmt::Display for Refusal {
    ghost use Rattle.std.specs.Prelude.{Some};
    ghost use Rattle.refusal.specs.Names.{name_of};

    ghost output = { λ r. Some (name_of r.reason) };

    fn fmt<W: fmt::Write>(&self, f: &mut fmt::Formatter<W>) -> fmt::Result {
        write!(f, "{}", self.reason)
    }
}

impl Error for Refusal {}

// The refusal of an item that begins at `at` and lacks `lack` bytes: a refusal carries its reason
// alone, so both are dropped here.
pub fn refuse(reason: Reason, at: usize, lack: usize) -> Refusal
    ensures { result ≡ refusal reason at lack }
{
    Refusal { reason }
}

// A refusal of no byte that was lent to be read: every refusal to write, and that of a type handed
// over apart from its body.
pub fn unplaced(why: Reason) -> Refusal
    ensures { result ≡ unplaced why }
{
    Refusal { reason: why }
}

// The refusal of what lies inside a whole part that begins at `at`: it carries its reason alone, so
// it stays as it is.
pub fn inside(r: Refusal, at: usize) -> Refusal
    ensures { result ≡ inside at r }
{
    r
}

// Tells the number that a refusal has in RULES 1.1.
pub fn refusal_number(r: Refusal) -> u8
    ensures { result ≡ number_of r.reason }
{
    r.reason as u8
}
