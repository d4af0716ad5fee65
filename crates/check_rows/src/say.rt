// What the lines are made of.
use norrabist::{Refusal, View};
use std::fmt;
use std::io::{self, Write};

// So many bytes.
#[derive(Clone, Copy)]
pub(crate) struct Bytes(pub(crate) usize);

impl fmt::Display for Bytes {
    fn fmt<W: fmt::Write>(&self, f: &mut fmt::Formatter<W>) -> fmt::Result {
        match self.0 {
            1 => f.write_str("1 byte"),
            n => write!(f, "{n} bytes"),
        }
    }
}

// Bytes in hex, one behind the other.
#[derive(Clone, Copy)]
pub(crate) struct Hex<'a>(pub(crate) &'a [u8]);

// stays: look has the same; a crate for it alone would be no plainer
impl fmt::Display for Hex<'_> {
    fn fmt<W: fmt::Write>(&self, f: &mut fmt::Formatter<W>) -> fmt::Result {
        for b in self.0 {
            write!(f, "{b:02x}")?;
        }
        Ok(())
    }
}

// Whether a part is there, and how long it is.
#[derive(Clone, Copy)]
pub(crate) struct Opt(pub(crate) Option<View>);

impl fmt::Display for Opt {
    fn fmt<W: fmt::Write>(&self, f: &mut fmt::Formatter<W>) -> fmt::Result {
        match self.0 {
            None => f.write_str("absent"),
            Some(v) => write!(f, "present, {}", Bytes(v.len)),
        }
    }
}

// A refusal is its number alone.
pub(crate) fn refused(to: &mut impl Write, r: Refusal) -> io::Result<()> {
    writeln!(to, "refused {}", norrabist::refusal_number(r))
}

// How every line begins: the row's number, what the input is read as, the input in RULES 8's
// notation.
pub(crate) fn row(to: &mut impl Write, number: &str, what: &str, input: &str) -> io::Result<()> {
    write!(to, "{number} {what} {input}: ")
}
