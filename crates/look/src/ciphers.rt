// A cipher suite and its name, which pages_00.rt and pages_c0.rt have.
use crate::{pages_00, pages_c0};
use std::fmt;

// The number of a cipher suite in hex, and its name behind a blank.
#[derive(Clone, Copy)]
pub(crate) struct Cipher(pub(crate) u16);

impl fmt::Display for Cipher {
    fn fmt<W: fmt::Write>(&self, f: &mut fmt::Formatter<W>) -> fmt::Result {
        let n = self.0;
        write!(f, "{n:04x}")?;
        if n < 0xc000 {
            pages_00::say_name(f, n)
        } else {
            pages_c0::say_name(f, n)
        }
    }
}
