// The lists of a message, item by item.
use crate::ciphers::Cipher;
use crate::names::Compression;
use crate::say::{Count, Placed};
use list::items::{item_count, item_from};
use std::io::{self, Write};
use wire::number::Width;

// Numbers of one byte, in hex, one after the other, to the end of the line.
pub(crate) fn bytes(to: &mut impl Write, l: &[u8]) -> io::Result<()> {
    write!(to, ":")?;
    for n in l {
        write!(to, " {n:02x}")?;
    }
    writeln!(to)
}

// Numbers of two bytes, in hex, one after the other, to the end of the line: each is printed at
// once, since the output is written piece by piece.
pub(crate) fn pairs(to: &mut impl Write, l: &[u8]) -> io::Result<()> {
    write!(to, ":")?;
    for n in l.chunks_exact(2) {
        write!(to, " {:04x}", u16::from_be_bytes([n[0], n[1]]))?;
    }
    writeln!(to)
}

// Cipher suites, a line each.
pub(crate) fn ciphers(to: &mut impl Write, l: &[u8]) -> io::Result<()> {
    for n in l.chunks_exact(2) {
        writeln!(to, "      {}", Cipher(u16::from_be_bytes([n[0], n[1]])))?;
    }
    Ok(())
}

// Compression methods, one after the other, to the end of the line.
pub(crate) fn methods(to: &mut impl Write, l: &[u8]) -> io::Result<()> {
    write!(to, ":")?;
    for method in l {
        write!(to, " {}", Compression(*method))?;
    }
    writeln!(to)
}

// Items behind a length each, of which the width is given: how many they are, behind the list's
// name and place, a line each with what one of them is, and what is left behind them that is no
// whole item. What one of them is has a blank before it.
pub(crate) fn items(
    to: &mut impl Write,
    name: &'static str,
    one: &'static str,
    l: Placed<'_>,
    w: Width,
) -> io::Result<()> {
    let all = item_count(l.bytes, w);
    writeln!(to, "    {name} {l}, {}", Count(all, one))?;
    let mut end: usize = 0;
    // stays: no plainer: a walk by `item_from` needs a bound of its own, and the count is one
    for _ in 0..all {
        if let Ok(p) = item_from(l.bytes, end, w) {
            let item = l.part(p.view);
            let bytes = Count(item.len(), " byte");
            writeln!(to, "     {one} at {}, {bytes}", item.from)?;
            end = p.next;
        }
    }
    let dropped = l.rest(end);
    if dropped.len() > 0 {
        writeln!(to, "      dropped {dropped}: no whole item")?;
    }
    Ok(())
}
