// Shows what joined records say, record by record and message by message, and a summary. It reads
// joined records of one direction from standard input, of any length: a window holds 65,536 bytes,
// and what it holds of a record that goes on is carried over into the next. Each place is counted
// from the front of the input. A refusal is told by its name and number, and so is what is not
// read. docs/LOOK.md has every line.
#![tactic(auto)]

mod alerts;
mod bodies;
mod ciphers;
mod contents;
mod hellos;
mod hints;
mod input;
mod lists;
mod messages;
mod names;
mod others;
mod owed;
mod pages_00;
mod pages_c0;
mod records;
mod say;
mod sealed;
mod sums;

ghost use Rattle.std.specs.Prelude.{false, ◌≡◌, IfOk, drop};
ghost use Rattle.wire.specs.Parts.{part_of};
ghost use Rattle.record_open.specs.Plaintext.{plaintext};
ghost use Rattle.look.specs.Owed.{owed_after, passed};
ghost use Rattle.look.specs.Sealed.{is_sealed, sealed_after};
ghost use Rattle.look.specs.Sums.{added, no_sums, record_sums};

use input::Window;
use look_input::InputKind;
use record::TlsRawRecord;
use say::Placed;
use std::io::{self, Write};
use sums::Sums;
use wire::view::{part_of, rest_of};

// The sums of the record `r`, which begins at `at` in the window `s` and is sealed or not; `passed`
// of its bytes belong to a message begun before it.
// stays: a flag and numbers that may be 0, as `record_sums` and `owed_after` have them
fn sums_of(r: TlsRawRecord, s: &[u8], at: usize, sealed: bool, passed: usize) -> Sums
    ensures { result ≡ record_sums (drop at s.now) (part_of s.now r.«data») sealed passed }
{
    if sealed {
        return sums::sealed();
    }
    let content = part_of(s, r.data);
    if passed != 0 {
        return sums::continued(rest_of(content, passed));
    }
    match record_open::parse_tls_plaintext(rest_of(s, at)) {
        Err(_) => sums::refused(),
        Ok(p) => sums::opened(p, sums::hellos_in(p, content)),
    }
}

// How far the input was told: the sums of its records, where the next one begins, how many bytes
// are owed of a message begun before it, and whether a ChangeCipherSpec stands before it.
#[derive(Clone, Copy)]
struct Told {
    all: Sums,
    place: usize,
    owed: usize,
    after: bool,
}

impl Told {
    // Of nothing.
    fn new() -> Self
        ensures { result ≡ record { all = no_sums; place = 0; owed = 0; after = false } }
    {
        Told {
            all: sums::none(),
            place: 0,
            owed: 0,
            after: false,
        }
    }

    // Tells the record `r` too, which begins at `at` in the window `s`.
    fn with(self, to: &mut impl Write, r: TlsRawRecord, s: &[u8], at: usize) -> io::Result<Self>
        ensures sums { IfOk result (λ t. t.all ≡ added self.all (record_sums (drop at s.now) (part_of s.now r.«data») (is_sealed self.after r.hdr.record_type) (passed r.hdr.record_type self.owed))) }
        ensures owed { IfOk result (λ t. t.owed ≡ owed_after (is_sealed self.after r.hdr.record_type) r.hdr.record_type self.owed (part_of s.now r.«data»)) }
        ensures after { IfOk result (λ t. t.after ≡ sealed_after self.after r.hdr.record_type (plaintext (drop at s.now))) }
    {
        let sealed = sealed::is_sealed(r, self.after);
        let passed = owed::passed_over(r, self.owed);
        let record = Placed {
            bytes: rest_of(s, at),
            from: self.place,
        };
        let k = self.all.records.wrapping_add(1);
        records::say_record(to, k, r.hdr, record, sealed, passed)?;
        Ok(Told {
            all: sums::both(self.all, sums_of(r, s, at, sealed, passed)),
            place: records::behind(r, self.place),
            owed: owed::owed_after(r, self.owed, s, sealed),
            after: sealed::sealed_after(r, record.bytes, self.after),
        })
    }

    // Ends the output: what is left, how many bytes of a message are owed, and the summary.
    fn say_end(self, to: &mut impl Write, rest: &[u8]) -> io::Result<()> {
        let read = self.place.wrapping_add(rest.len());
        if read == 0 {
            writeln!(to, "the input is empty: there is no record")?;
        }
        let left = Placed {
            bytes: rest,
            from: self.place,
        };
        records::say_left(to, left)?;
        records::say_owed(to, self.owed)?;
        sums::say_sums(to, self.all, read, rest.len())
    }
}

fn main(rt: HostRuntime) -> io::Result<()> {
    let mut stdin = rt.stdin();
    let mut stdout = rt.stdout();
    let to = &mut stdout;
    let mut window = Window::new();
    window.refill(&mut stdin)?;
    let kind = look_input::input_kind(window.filled());
    if kind != InputKind::Records {
        return hints::say_hint(to, kind);
    }
    let mut told = Told::new();
    // stays: `loop` would have to be proved to end, and the input may have no end
    for _ in 0..u64::MAX {
        if let Ok(r) = record_joined::record_from(window.filled(), window.at) {
            told = told.with(to, r, window.filled(), window.at)?;
            window.at = r.next;
        } else if !window.refill(&mut stdin)? {
            break;
        }
    }
    told.say_end(to, window.rest())
}
