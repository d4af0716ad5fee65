// Runs the compiled wire layer and the writers at their edges: what it prints is held to the file
// stdout.
#![tactic(auto)]

mod writers;

use norrabist::{Number, Part, Refusal, RuleName, View, Width};
use std::io::{self, Write};

const FAR: usize = 0xffff_ffff_ffff_ffff;

// What is called, and its answer: behind a 0 the number and its end, or the number of a refusal
// alone.
// stays: `number` and `part` print other fields; by a closure each call would be longer
fn number(to: &mut impl Write, name: &str, a: Result<Number, Refusal>) -> io::Result<()> {
    match a {
        Err(r) => writeln!(to, "{name} {}", norrabist::refusal_number(r)),
        Ok(n) => writeln!(to, "{name} 0 {} {}", n.value, n.next),
    }
}

// The same of a part.
fn part(to: &mut impl Write, name: &str, a: Result<Part, Refusal>) -> io::Result<()> {
    match a {
        Err(r) => writeln!(to, "{name} {}", norrabist::refusal_number(r)),
        Ok(p) => writeln!(to, "{name} 0 {} {} {}", p.view.start, p.view.len, p.next),
    }
}

// The answer to a write into four bytes of 0xaa, and the bytes then.
fn write(to: &mut impl Write, at: usize, w: Width, n: usize) -> io::Result<()> {
    let mut out = [0xaau8; 4];
    match norrabist::gen_be(&mut out, at, w, n) {
        Err(r) => write!(to, "gen_be {}", norrabist::refusal_number(r))?,
        Ok(next) => write!(to, "gen_be 0 {next}")?,
    }
    let [a, b, c, d] = out;
    writeln!(to, " {a:02x}{b:02x}{c:02x}{d:02x}")
}

fn view(to: &mut impl Write, s: &[u8], start: usize, len: usize) -> io::Result<()> {
    let p = norrabist::part_of(s, View { start, len });
    write!(to, "part_of {}", p.len())?;
    if let Some(first) = p.first() {
        write!(to, " {first:02x}")?;
    }
    writeln!(to)
}

fn behind(to: &mut impl Write, s: &[u8], at: usize, w: Width, rule: RuleName) -> io::Result<()> {
    part(to, "length_data", norrabist::length_data(s, at, w, rule))
}

fn block(to: &mut impl Write, s: &[u8], at: usize) -> io::Result<()> {
    let e = norrabist::opt_length_data(s, at, Width::Two, RuleName::Plain);
    match e.view {
        None => writeln!(to, "opt_length_data absent {}", e.next),
        Some(v) => writeln!(to, "opt_length_data {} {} {}", v.start, v.len, e.next),
    }
}

fn numbers_in(to: &mut impl Write, s: &[u8], w: Width) -> io::Result<()> {
    writeln!(to, "number_count {}", norrabist::number_count(s, w))?;
    for k in [0, 1, 2, FAR] {
        number(to, "number_at", norrabist::number_at(s, w, k))?;
    }
    Ok(())
}

fn items_in(to: &mut impl Write, s: &[u8], w: Width) -> io::Result<()> {
    writeln!(to, "item_count {}", norrabist::item_count(s, w))?;
    for k in 0..3 {
        part(to, "item_at", norrabist::item_at(s, w, k))?;
    }
    for at in [2, FAR] {
        part(to, "item_from", norrabist::item_from(s, at, w))?;
    }
    Ok(())
}

fn reads(to: &mut impl Write) -> io::Result<()> {
    let s = [1u8, 2, 3, 4, 255];
    for (at, w) in [
        (0, Width::One),
        (4, Width::One),
        (5, Width::One),
        (0, Width::Two),
        (3, Width::Two),
        (4, Width::Two),
        (2, Width::Three),
        (3, Width::Three),
        (0, Width::Four),
        (1, Width::Four),
        (2, Width::Four),
        (FAR, Width::Four),
    ] {
        number(to, "parse_be", norrabist::parse_be(&s, at, w))?;
    }
    Ok(())
}

fn writes(to: &mut impl Write) -> io::Result<()> {
    write(to, 0, Width::One, 255)?;
    write(to, 0, Width::One, 256)?;
    write(to, 3, Width::One, 1)?;
    write(to, 4, Width::One, 1)?;
    write(to, 1, Width::Two, 65535)?;
    write(to, 1, Width::Two, 65536)?;
    write(to, 1, Width::Three, 0x010203)?;
    write(to, 2, Width::Three, 0x010203)?;
    write(to, 0, Width::Three, 0x100_0000)?;
    write(to, 0, Width::Four, 0xffff_fffe)?;
    write(to, 0, Width::Four, 0x1_0000_0000)?;
    write(to, FAR, Width::Four, 1)
}

fn views(to: &mut impl Write) -> io::Result<()> {
    let s = [1u8, 2, 3, 4, 5];
    for (start, len) in [(0, 5), (4, 1), (5, 0), (5, 1), (6, 0), (FAR, FAR)] {
        view(to, &s, start, len)?;
    }
    Ok(())
}

fn parts(to: &mut impl Write) -> io::Result<()> {
    let mut s = [7u8; 40];
    s[0] = 32;
    behind(to, &s, 0, Width::One, RuleName::SessionId)?;
    s[0] = 33;
    behind(to, &s, 0, Width::One, RuleName::SessionId)?;
    behind(to, &s, 0, Width::One, RuleName::Methods)?;
    s[0] = 40;
    behind(to, &s, 0, Width::One, RuleName::Methods)?;
    behind(to, &s, 0, Width::One, RuleName::Plain)?;
    s[0] = 0;
    s[1] = 2;
    behind(to, &s, 0, Width::Two, RuleName::Ciphers)?;
    s[1] = 3;
    behind(to, &s, 0, Width::Two, RuleName::Ciphers)?;
    s[1] = 40;
    behind(to, &s, 0, Width::Two, RuleName::Ciphers)?;
    behind(to, &s, 39, Width::Two, RuleName::Ciphers)?;
    behind(to, &s, FAR, Width::Two, RuleName::Ciphers)
}

fn blocks(to: &mut impl Write) -> io::Result<()> {
    let s = [0u8, 1, 9, 0, 0, 0];
    for at in [0, 1, 3, 4, 5, 6] {
        block(to, &s, at)?;
    }
    Ok(())
}

fn main(rt: HostRuntime) -> io::Result<()> {
    let mut stdout = rt.stdout();
    let to = &mut stdout;
    reads(to)?;
    writes(to)?;
    views(to)?;
    parts(to)?;
    blocks(to)?;
    let pairs = [0xc0u8, 0x2f, 0, 0x9c, 1];
    numbers_in(to, &pairs, Width::Two)?;
    numbers_in(to, &pairs, Width::Four)?;
    let items = [0u8, 0, 0, 1, 0xaa, 0, 2, 0xff];
    items_in(to, &items, Width::Two)?;
    items_in(to, &items, Width::Three)?;
    writers::all(to)
}
