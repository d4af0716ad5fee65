// What lines are made of: counts, and bytes with their place in the input.
ghost use Rattle.std.specs.Prelude.{◌≡◌, ◌+◌, ◌%◌, ◌^◌, drop, length};
ghost use Rattle.wire.specs.Parts.{part_of};

use std::fmt;
use std::io::{self, Write};
use wire::view::{View, part_of, rest_of};

// A number with a comma before each three digits, up to twelve of them.
#[derive(Clone, Copy)]
pub(crate) struct Amount(pub(crate) usize);

impl fmt::Display for Amount {
    fn fmt<W: fmt::Write>(&self, f: &mut fmt::Formatter<W>) -> fmt::Result {
        let n = self.0;
        let (billions, millions, thousands) = (n / 1_000_000_000, n / 1_000_000, n / 1000);
        if billions > 0 {
            write!(
                f,
                "{billions},{:03},{:03},{:03}",
                millions % 1000,
                thousands % 1000,
                n % 1000
            )
        } else if millions > 0 {
            write!(f, "{millions},{:03},{:03}", thousands % 1000, n % 1000)
        } else if thousands > 0 {
            write!(f, "{thousands},{:03}", n % 1000)
        } else {
            write!(f, "{n}")
        }
    }
}

// So many of what is named, behind a blank; it takes an s where they are not one.
#[derive(Clone, Copy)]
pub(crate) struct Count(pub(crate) usize, pub(crate) &'static str);

impl fmt::Display for Count {
    fn fmt<W: fmt::Write>(&self, f: &mut fmt::Formatter<W>) -> fmt::Result {
        let Count(n, name) = *self;
        let end = if n == 1 { "" } else { "s" };
        write!(f, "{}{name}{end}", Amount(n))
    }
}

// Bytes in hex, one behind the other.
#[derive(Clone, Copy)]
pub(crate) struct Hex<'a>(pub(crate) &'a [u8]);

impl fmt::Display for Hex<'_> {
    fn fmt<W: fmt::Write>(&self, f: &mut fmt::Formatter<W>) -> fmt::Result {
        for b in self.0 {
            write!(f, "{b:02x}")?;
        }
        Ok(())
    }
}

// Bytes, and where they begin in the input. They are shown as their place and how many they are.
#[derive(Clone, Copy)]
pub(crate) struct Placed<'a> {
    pub(crate) bytes: &'a [u8],
    pub(crate) from: usize,
}

impl<'a> Placed<'a> {
    // The part of them that `v` names.
    pub(crate) fn part(self, v: View) -> Placed<'a>
        ensures part_bytes { result.bytes.now ≡ part_of self.entry.bytes.now v }
        ensures part_place { result.from ≡ (self.entry.from + v.start) % 2 ^ 64 }
    {
        Placed {
            bytes: part_of(self.bytes, v),
            from: self.from.wrapping_add(v.start),
        }
    }

    // Those from `at` on.
    pub(crate) fn rest(self, at: usize) -> Placed<'a>
        ensures rest_bytes { result.bytes.now ≡ drop at self.entry.bytes.now }
        ensures rest_place { result.from ≡ (self.entry.from + at) % 2 ^ 64 }
    {
        Placed {
            bytes: rest_of(self.bytes, at),
            from: self.from.wrapping_add(at),
        }
    }

    // How many they are.
    pub(crate) fn len(self) -> usize
        ensures { result ≡ length self.entry.bytes.now }
    {
        self.bytes.len()
    }
}

impl fmt::Display for Placed<'_> {
    fn fmt<W: fmt::Write>(&self, f: &mut fmt::Formatter<W>) -> fmt::Result {
        let from = self.from;
        write!(f, "at {from}, {}", Count(self.bytes.len(), " byte"))
    }
}

// Begins the line of a message: its number in its record, and where it begins in the input.
pub(crate) fn message(to: &mut impl Write, k: usize, place: usize) -> io::Result<()> {
    write!(to, "  message {k} at {place}: ")
}

// Prints the kind of a message, behind its number and place, and where its body lies.
pub(crate) fn kind(to: &mut impl Write, name: &str, body: Placed<'_>) -> io::Result<()> {
    writeln!(to, "{name}, body {body}")
}
