// The exports of `norrabist_c::extensions`; made by ./papers --write.
ghost use Rattle.std.specs.Prelude.{◌≡◌};
ghost use Rattle.read_ext.specs.Extensions.{extension_from, extension_place, extensions, name_from};
ghost use Rattle.wire.specs.Puts.{written};
ghost use Rattle.write_ext.specs.ExtTexts.{ext_text, name_text, rows_text};
ghost use Rattle.norrabist_c.specs.Extensions.{extension_told, extensions_told, name_told};
ghost use Rattle.norrabist_c.specs.Writers.{wrote_told};

use norrabist_c::extensions::{ExtensionTold, ExtensionsTold, ServerNameTold};
use norrabist_c::writers::Wrote;

// Reads a block: how many extensions it has, or LengthValue and the index of the first bad item.
#[unsafe(no_mangle)]
pub extern "C" fn norrabist_parse_tls_extensions(block: &[u8]) -> ExtensionsTold
    ensures { result ≡ extensions_told (extensions block.now) }
{
    norrabist_c::extensions::norrabist_parse_tls_extensions(block)
}

// The extension that begins at byte `at` of a block; at 0 the whole block is looked at, and
// LengthValue is the answer where it is damaged. NoSuch where none begins there.
#[unsafe(no_mangle)]
pub extern "C" fn norrabist_extension_from(block: &[u8], at: usize) -> ExtensionTold
    ensures { result ≡ extension_told (extension_from block.now at) }
{
    norrabist_c::extensions::norrabist_extension_from(block, at)
}

// The extension at a place of a block, counted from 0: LengthValue where the block is damaged, then
// NoSuch past the last.
#[unsafe(no_mangle)]
pub extern "C" fn norrabist_extension_at(block: &[u8], place: usize) -> ExtensionTold
    ensures { result ≡ extension_told (extension_place place block.now) }
{
    norrabist_c::extensions::norrabist_extension_at(block, place)
}

// The server name that begins at byte `at` of a list of them; NoSuch where none fits.
#[unsafe(no_mangle)]
pub extern "C" fn norrabist_server_name_from(list: &[u8], at: usize) -> ServerNameTold
    ensures { result ≡ name_told (name_from list.now at) }
{
    norrabist_c::extensions::norrabist_server_name_from(list, at)
}

// Writes an extension of that type round its content: NotYetImplemented, BadLength, then NoRoom.
#[unsafe(no_mangle)]
pub extern "C" fn norrabist_gen_tls_extension(
    ext_type: u16,
    content: &[u8],
    out: &mut [u8],
) -> Wrote
    ensures value { result ≡ wrote_told (ext_text ext_type content.now) out.old }
    ensures out_after { out.new ≡ written (ext_text ext_type content.now) 0 out.old }
{
    norrabist_c::extensions::norrabist_gen_tls_extension(ext_type, content, out)
}

// Writes a list of extensions behind its length, lent as rows and the bytes that hold their
// contents: NotYetImplemented, BadLength, then NoRoom.
#[unsafe(no_mangle)]
pub extern "C" fn norrabist_gen_tls_extensions(values: &[u8], bytes: &[u8], out: &mut [u8]) -> Wrote
    ensures value { result ≡ wrote_told (rows_text values.now bytes.now) out.old }
    ensures out_after { out.new ≡ written (rows_text values.now bytes.now) 0 out.old }
{
    norrabist_c::extensions::norrabist_gen_tls_extensions(values, bytes, out)
}

// Writes an entry of a list of server names: BadLength, then NoRoom.
#[unsafe(no_mangle)]
pub extern "C" fn norrabist_gen_server_name(name_type: u8, name: &[u8], out: &mut [u8]) -> Wrote
    ensures value { result ≡ wrote_told (name_text name_type name.now) out.old }
    ensures out_after { out.new ≡ written (name_text name_type name.now) 0 out.old }
{
    norrabist_c::extensions::norrabist_gen_server_name(name_type, name, out)
}
