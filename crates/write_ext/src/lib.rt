// Extensions written (RULES 11.10 to 11.14), one by itself and a list of them behind its length:
// the three kinds that are opened. A refusal changes no byte.
#![tactic(auto)]

ghost use Rattle.std.specs.Prelude.{[], ◌∷◌, ◌++◌, ◌≡◌, ◌+◌, ◌<◌, ◌≤◌, length};
ghost use Rattle.field.specs.Fields.{sized};
ghost use Rattle.field.specs.Standing.{field_bytes};
ghost use Rattle.read_ext.specs.Kinds.{is_raw};
ghost use Rattle.refusal.specs.Answers.{giving, then, as_answer};
ghost use Rattle.registry.specs.Extensions.{max_fragment_length_ext};
ghost use Rattle.wire.specs.Numbers.{bytes_of};
ghost use Rattle.wire.specs.Puts.{put, room, written};
ghost use Rattle.write_rules.specs.JoinTexts.{text_length};
ghost use Rattle.write_rules.specs.MessageTexts.{view_text};
ghost use Rattle.write_ext.specs.ExtTexts.{ext_text, may_stand, name_text, value_text};

use field::RuleName;
use read_ext::TlsExtension;
use refusal::{Reason, Refusal};
use wire::number::Width;
use wire::view::View;
use write_rules::TextAnswer;

pub mod rows;

// Whether a type is of none of the three kinds.
pub(crate) fn is_raw(ext_type: u16) -> bool
    ensures { result ≡ is_raw ext_type }
{
    !matches!(
        ext_type as usize,
        registry::extension::SERVER_NAME
            | registry::extension::MAX_FRAGMENT_LENGTH
            | registry::extension::SUPPORTED_GROUPS
    )
}

// Whether the content may be written behind its type. The length comes first: names are not looked
// at in a list that is too long.
fn may_stand(ext_type: u16, content: &[u8]) -> bool
    ensures { result ≡ may_stand ext_type content.now }
{
    let n = content.len();
    if 0x1_0000 - read_ext::inner_length(ext_type as usize) <= n {
        return false;
    }
    match ext_type as usize {
        registry::extension::SERVER_NAME => read_ext::names::fill(content),
        registry::extension::MAX_FRAGMENT_LENGTH => n == 1,
        registry::extension::SUPPORTED_GROUPS => n % 2 == 0,
        _ => true,
    }
}

// How many bytes an extension has that is handed over as its type and its content, or
// NotYetImplemented, or BadLength.
// stays: type and content come one by one, as `norrabist_gen_tls_extension` has them of C
pub(crate) fn extension_length(ext_type: u16, content: &[u8]) -> Result<usize, Refusal>
    ensures { as_answer result ≡ giving length (ext_text ext_type content.now) }
{
    if is_raw(ext_type) {
        return Err(refusal::unplaced(Reason::NotYetImplemented));
    }
    if may_stand(ext_type, content) {
        Ok(4 + read_ext::inner_length(ext_type as usize) + content.len())
    } else {
        Err(refusal::unplaced(Reason::BadLength))
    }
}

// Sets the bytes from `at` on to type, length, inner length and list.
// stays: `let _` drops answers that are known, since there is room; `?` would hand them on.
fn put_list(out: &mut [u8], at: usize, ext_type: u16, list: &[u8])
    requires { (length list.now + 2 < 65536) × (at + (6 + length list.now) ≤ length out.old) }
    ensures { out.new ≡ put out.old at (bytes_of 2 ext_type ++ field_bytes (sized 2) (field_bytes (sized 2) list.now)) }
{
    let _ = wire::number::gen_be(out, at, Width::Two, ext_type as usize);
    let _ = wire::number::gen_be(out, at + 2, Width::Two, 2 + list.len());
    let _ = field::gen_length_data(out, at + 4, Width::Two, RuleName::Plain, list);
}

// Sets the bytes from `at` on to type, length and data.
// stays: `let _` drops answers that are known, since there is room; `?` would hand them on.
fn put_data(out: &mut [u8], at: usize, ext_type: u16, data: &[u8])
    requires { (length «data».now < 65536) × (at + (4 + length «data».now) ≤ length out.old) }
    ensures { out.new ≡ put out.old at (bytes_of 2 ext_type ++ field_bytes (sized 2) «data».now) }
{
    let _ = wire::number::gen_be(out, at, Width::Two, ext_type as usize);
    let _ = field::gen_length_data(out, at + 2, Width::Two, RuleName::Plain, data);
}

// Writes an extension at a place, handed over as its type and its content: NotYetImplemented,
// BadLength, then NoRoom.
pub(crate) fn gen_at(
    out: &mut [u8],
    at: usize,
    ext_type: u16,
    content: &[u8],
) -> Result<usize, Refusal>
    ensures result_value { as_answer result ≡ room (ext_text ext_type content.now) at out.old }
    ensures out_after { out.new ≡ written (ext_text ext_type content.now) at out.old }
{
    let n = extension_length(ext_type, content)?;
    let p = wire::output::room_for(out, at, n)?;
    if read_ext::inner_length(ext_type as usize) == 2 {
        put_list(out, at, ext_type, content);
    } else {
        put_data(out, at, ext_type, content);
    }
    Ok(p.next)
}

// Writes an extension, handed over as its type and its content: of server names and groups the list
// without its length, of a fragment length its byte. NotYetImplemented for another type, BadLength
// for content that is not of the kind or too long, then NoRoom; with NoRoom the length that the
// extension needs is told.
pub fn gen_extension(ext_type: u16, content: &[u8], out: &mut [u8]) -> TextAnswer
    ensures answer_value { as_answer result.answer ≡ room (ext_text ext_type content.now) 0 out.old }
    ensures len_value { result.len ≡ text_length (ext_text ext_type content.now) }
    ensures out_after { out.new ≡ written (ext_text ext_type content.now) 0 out.old }
{
    TextAnswer {
        answer: gen_at(out, 0, ext_type, content),
        len: extension_length(ext_type, content).unwrap_or(0),
    }
}

// An extension whose content is a part of the bytes lent with it.
fn gen_view(ext_type: u16, v: View, i: &[u8], out: &mut [u8]) -> Result<usize, Refusal>
    ensures result_value { as_answer result ≡ room (then (view_text i.now v) (ext_text ext_type)) 0 out.old }
    ensures out_after { out.new ≡ written (then (view_text i.now v) (ext_text ext_type)) 0 out.old }
{
    if !write_rules::lies_in(i, v) {
        return Err(refusal::unplaced(Reason::BadLength));
    }
    gen_at(out, 0, ext_type, wire::view::part_of(i, v))
}

// A fragment length, its byte handed over.
fn gen_fragment(value: u8, out: &mut [u8]) -> Result<usize, Refusal>
    ensures result_value { as_answer result ≡ room (ext_text max_fragment_length_ext (value ∷ [])) 0 out.old }
    ensures out_after { out.new ≡ written (ext_text max_fragment_length_ext (value ∷ [])) 0 out.old }
{
    let content = [value];
    gen_at(
        out,
        0,
        registry::extension::MAX_FRAGMENT_LENGTH as u16,
        &content,
    )
}

// Writes an extension whose views are of the bytes lent with it: NotYetImplemented for a raw one,
// BadLength, then NoRoom. A refusal changes no byte.
// stays: a `match` by the kind is plainer than functions in a table
pub fn gen_tls_extension(m: TlsExtension, i: &[u8], out: &mut [u8]) -> Result<usize, Refusal>
    ensures result_value { as_answer result ≡ room (value_text i.now m) 0 out.old }
    ensures out_after { out.new ≡ written (value_text i.now m) 0 out.old }
{
    match m {
        TlsExtension::SNI(v) => gen_view(registry::extension::SERVER_NAME as u16, v, i, out),
        TlsExtension::MaxFragmentLength(value) => gen_fragment(value, out),
        TlsExtension::EllipticCurves(v) => {
            gen_view(registry::extension::SUPPORTED_GROUPS as u16, v, i, out)
        }
        TlsExtension::Unknown(_, _) => { Err(refusal::unplaced(Reason::NotYetImplemented)) }
    }
}

// Writes an entry of a list of server names: its type, and the name behind its length. BadLength
// over 65,535 bytes, then NoRoom; with NoRoom the length that the entry needs is told.
// stays: `let _` drops answers that are known, since there is room; `?` would hand them on.
pub fn gen_server_name(name_type: u8, name: &[u8], out: &mut [u8]) -> TextAnswer
    ensures answer_value { as_answer result.answer ≡ room (name_text name_type name.now) 0 out.old }
    ensures len_value { result.len ≡ text_length (name_text name_type name.now) }
    ensures out_after { out.new ≡ written (name_text name_type name.now) 0 out.old }
{
    if !field::may_follow(Width::Two, RuleName::Plain, name.len()) {
        return TextAnswer::refused(Reason::BadLength);
    }
    let len = 3 + name.len();
    match wire::output::room_for(out, 0, len) {
        Err(r) => TextAnswer {
            answer: Err(r),
            len,
        },
        Ok(p) => {
            let _ = wire::number::gen_be(out, 0, Width::One, name_type as usize);
            let _ = field::gen_length_data(out, 1, Width::Two, RuleName::Plain, name);
            TextAnswer {
                answer: Ok(p.next),
                len,
            }
        }
    }
}
