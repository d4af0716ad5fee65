// Extension blocks, one extension a call, and extensions written.
ghost use Rattle.std.specs.Prelude.{◌≡◌};
ghost use Rattle.read_ext.specs.Extensions.{extension_from, extension_place, extension_says, extensions, name_from};
ghost use Rattle.wire.specs.Puts.{written};
ghost use Rattle.write_ext.specs.ExtTexts.{ext_text, name_text, rows_text};
ghost use Rattle.norrabist_c.specs.Extensions.{extension_told, extensions_told, name_told, Tellable};
ghost use Rattle.norrabist_c.specs.Writers.{wrote_told};

use crate::writers::Wrote;
use read_ext::{Damage, NotHad, TlsExtensionFound};

// What is told of a block: how many items can be had from its front, and the table's number. Where
// the number is 0, these are all its extensions; where it is LengthValue, the first bad item has
// that index.
#[repr(C)]
#[derive(Clone, Copy)]
pub struct ExtensionsTold {
    pub items: usize,
    pub number: u8,
}

// Reads a block: how many extensions it has, or LengthValue and the index of the first bad item.
#[unsafe(no_mangle)]
pub extern "C" fn norrabist_parse_tls_extensions(block: &[u8]) -> ExtensionsTold
    ensures { result ≡ extensions_told (extensions block.now) }
{
    match read_ext::parse_tls_extensions(block) {
        Err(d) => ExtensionsTold {
            items: d.index,
            number: refusal::refusal_number(d.refusal),
        },
        Ok(items) => ExtensionsTold { items, number: 0 },
    }
}

// What is told of an extension: its type, and where its content begins and how long it is. The next
// one begins where the content ends.
#[repr(C)]
#[derive(Clone, Copy, Default)]
pub struct ExtensionTold {
    pub start: usize,
    pub ext_type: u16,
    pub len: u16,
    pub number: u8,
}

// What is told of the answer for an extension.
fn told_of(answer: Result<TlsExtensionFound, NotHad>) -> ExtensionTold
    requires { Tellable answer }
    ensures { result ≡ extension_told (extension_says answer) }
{
    match answer {
        Err(NotHad::Damaged(Damage { refusal, .. }) | NotHad::Refused(refusal)) => ExtensionTold {
            number: refusal::refusal_number(refusal),
            ..Default::default()
        },
        Ok(x) => ExtensionTold {
            start: x.content.start,
            ext_type: x.ext_type,
            len: x.content.len as u16,
            number: 0,
        },
    }
}

// The extension that begins at byte `at` of a block; at 0 the whole block is looked at, and
// LengthValue is the answer where it is damaged. NoSuch where none begins there.
#[unsafe(no_mangle)]
pub extern "C" fn norrabist_extension_from(block: &[u8], at: usize) -> ExtensionTold
    ensures { result ≡ extension_told (extension_from block.now at) }
{
    told_of(read_ext::extension_from(block, at))
}

// The extension at a place of a block, counted from 0: LengthValue where the block is damaged, then
// NoSuch past the last.
#[unsafe(no_mangle)]
pub extern "C" fn norrabist_extension_at(block: &[u8], place: usize) -> ExtensionTold
    ensures { result ≡ extension_told (extension_place place block.now) }
{
    told_of(read_ext::extension_at(block, place))
}

// What is told of a server name: where it begins in the list, its length and its type. The next
// one begins where it ends.
#[repr(C)]
#[derive(Clone, Copy, Default)]
pub struct ServerNameTold {
    pub start: usize,
    pub len: u16,
    pub name_type: u8,
    pub number: u8,
}

// The server name that begins at byte `at` of a list of them; NoSuch where none fits.
#[unsafe(no_mangle)]
pub extern "C" fn norrabist_server_name_from(list: &[u8], at: usize) -> ServerNameTold
    ensures { result ≡ name_told (name_from list.now at) }
{
    match read_ext::names::name_from(list, at) {
        Err(r) => ServerNameTold {
            number: refusal::refusal_number(r),
            ..Default::default()
        },
        Ok(x) => ServerNameTold {
            start: x.view.start,
            len: x.view.len as u16,
            name_type: x.tag as u8,
            number: 0,
        },
    }
}

// Writes an extension of that type round its content: NotYetImplemented, BadLength, then NoRoom.
#[unsafe(no_mangle)]
pub extern "C" fn norrabist_gen_tls_extension(
    ext_type: u16,
    content: &[u8],
    out: &mut [u8],
) -> Wrote
    ensures value { result ≡ wrote_told (ext_text ext_type content.now) out.old }
    ensures out_after { out.new ≡ written (ext_text ext_type content.now) 0 out.old }
{
    crate::writers::told(write_ext::gen_extension(ext_type, content, out))
}

// Writes a list of extensions behind its length, lent as rows and the bytes that hold their
// contents: NotYetImplemented, BadLength, then NoRoom.
#[unsafe(no_mangle)]
pub extern "C" fn norrabist_gen_tls_extensions(values: &[u8], bytes: &[u8], out: &mut [u8]) -> Wrote
    ensures value { result ≡ wrote_told (rows_text values.now bytes.now) out.old }
    ensures out_after { out.new ≡ written (rows_text values.now bytes.now) 0 out.old }
{
    crate::writers::told(write_ext::rows::gen_tls_extensions(values, bytes, out))
}

// Writes an entry of a list of server names: BadLength, then NoRoom.
#[unsafe(no_mangle)]
pub extern "C" fn norrabist_gen_server_name(name_type: u8, name: &[u8], out: &mut [u8]) -> Wrote
    ensures value { result ≡ wrote_told (name_text name_type name.now) out.old }
    ensures out_after { out.new ≡ written (name_text name_type name.now) 0 out.old }
{
    crate::writers::told(write_ext::gen_server_name(name_type, name, out))
}
