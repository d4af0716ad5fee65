// A list of extensions, written. The values are lent as rows of ten bytes, one an extension: its
// type (2), and where its content begins (4) and how many bytes it has (4) in the bytes lent with
// the rows, as the exports tell an extension that was read. No row is trusted: what it names is
// looked at before anything is written.
ghost use Rattle.std.specs.Prelude.{false, ◌≡◌, length};
ghost use Rattle.refusal.specs.Answers.{giving, as_answer};
ghost use Rattle.wire.specs.Puts.{room, written};
ghost use Rattle.write_rules.specs.JoinTexts.{text_length};
ghost use Rattle.write_ext.specs.ExtTexts.{joined_in, raw_row, row_from, row_text, rows, rows_text, RowsFit};

use refusal::{Reason, Refusal};
use wire::number::Width;
use wire::view::View;
use write_rules::TextAnswer;

// The bytes of a row.
// stays: rows and bytes are two slices, as `norrabist_gen_tls_extensions` has them of C
pub const ROW: usize = 10;

// A row that was found, and the place past it.
#[derive(Clone, Copy)]
pub struct Row {
    pub ext_type: u16,
    pub content: View,
    pub next: usize,
}

// The row that begins at `at`.
// stays: no `chunks_exact`; `every_rows` goes by `rows`, and `rows` by the row at a place.
fn row_from(values: &[u8], at: usize) -> Result<Row, Refusal>
    ensures { as_answer result ≡ row_from values.now at }
{
    let p = field::take(values, at, ROW)?;
    Ok(Row {
        ext_type: read_ext::number_there(values, at, Width::Two) as u16,
        content: View {
            start: read_ext::number_there(values, at + 2, Width::Four),
            len: read_ext::number_there(values, at + 6, Width::Four),
        },
        next: p.next,
    })
}

// Whether a row is of a type that is not written.
fn any_raw(values: &[u8]) -> bool
    ensures { result ≡ raw_row (rows values.now) }
{
    let mut at: usize = 0;
    while let Ok(row) = row_from(values, at) {
        if crate::is_raw(row.ext_type) {
            return true;
        }
        at = row.next;
    }
    false
}

// How many bytes the extension of a row has, or BadLength where its content lies outside.
fn row_length(row: Row, bytes: &[u8]) -> Result<usize, Refusal>
    ensures { as_answer result ≡ giving length (row_text bytes.now row) }
{
    if crate::is_raw(row.ext_type) {
        return Err(refusal::unplaced(Reason::NotYetImplemented));
    }
    if write_rules::lies_in(bytes, row.content) {
        crate::extension_length(row.ext_type, wire::view::part_of(bytes, row.content))
    } else {
        Err(refusal::unplaced(Reason::BadLength))
    }
}

// How many bytes all rows come to, or BadLength where they are over 65,535 or one may not be
// written.
fn rows_length(values: &[u8], bytes: &[u8]) -> Result<usize, Refusal>
    requires { raw_row (rows values.now) ≡ false }
    ensures { as_answer result ≡ giving length (joined_in values.now bytes.now) }
{
    let mut at: usize = 0;
    let mut sum: usize = 0;
    while let Ok(row) = row_from(values, at) {
        sum += row_length(row, bytes)?;
        if 0xffff < sum {
            return Err(refusal::unplaced(Reason::BadLength));
        }
        at = row.next;
    }
    Ok(sum)
}

// The extensions of all rows in order, from the front of the part that is lent.
// stays: `let _` drops answers that are known, since there is room; `?` would hand them on.
fn put_rows(values: &[u8], bytes: &[u8], out: &mut [u8])
    requires { RowsFit values.now bytes.now out.old }
    ensures { out.new ≡ written (joined_in values.now bytes.now) 0 out.old }
{
    let mut at: usize = 0;
    let mut to: usize = 0;
    while let Ok(row) = row_from(values, at) {
        let content = wire::view::part_of(bytes, row.content);
        let Ok(next) = crate::gen_at(out, to, row.ext_type, content) else {
            return;
        };
        to = next;
        at = row.next;
    }
}

// Writes a list of extensions behind its length of two bytes: NotYetImplemented where a row of
// another type is anywhere; BadLength for bytes behind the last row, content that lies outside the
// bytes, is not of its kind or too long, and over 65,535 bytes in all; then NoRoom. With NoRoom the
// length that the list needs is told. A refusal changes no byte.
// stays: `let _` drops an answer that is known, since there is room; `?` would hand it on.
pub fn gen_tls_extensions(values: &[u8], bytes: &[u8], out: &mut [u8]) -> TextAnswer
    ensures answer_value { as_answer result.answer ≡ room (rows_text values.now bytes.now) 0 out.old }
    ensures len_value { result.len ≡ text_length (rows_text values.now bytes.now) }
    ensures out_after { out.new ≡ written (rows_text values.now bytes.now) 0 out.old }
{
    if any_raw(values) {
        return TextAnswer::refused(Reason::NotYetImplemented);
    }
    if values.len() % ROW != 0 {
        return TextAnswer::refused(Reason::BadLength);
    }
    let Ok(n) = rows_length(values, bytes) else {
        return TextAnswer::refused(Reason::BadLength);
    };
    let len = 2 + n;
    match wire::output::room_for(out, 0, len) {
        Err(r) => TextAnswer {
            answer: Err(r),
            len,
        },
        Ok(p) => {
            put_rows(values, bytes, &mut out[2..]);
            let _ = wire::number::gen_be(out, 0, Width::Two, n);
            TextAnswer {
                answer: Ok(p.next),
                len,
            }
        }
    }
}
