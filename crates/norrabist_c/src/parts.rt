// A part that may be missing, told by its length.
ghost use Rattle.std.specs.Prelude.{◌≡◌};
ghost use Rattle.norrabist_c.specs.Parts.{opt_told};

use wire::view::View;

// Whether a part is there, and its length.
// stays: the structs for C take the flag and the length from it
#[derive(Clone, Copy)]
pub struct OptTold {
    pub len: usize,
    pub present: bool,
}

// Tells of a part its length and whether it is there; an absent one has the length 0.
pub fn opt_told(v: Option<View>) -> OptTold
    ensures { result ≡ opt_told v }
{
    OptTold {
        len: len_of(v),
        present: v.is_some(),
    }
}

// The length of a part; that of an absent one is 0.
pub(crate) fn len_of(v: Option<View>) -> usize
    ensures { result ≡ (opt_told v).len }
{
    v.map_or(0, |p| p.len)
}
