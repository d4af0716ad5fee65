// The exports of `norrabist_c::writers`; made by ./papers --write.
ghost use Rattle.std.specs.Prelude.{◌≡◌};
ghost use Rattle.norrabist_c.specs.Writers.{exchange_slice_text, finished_text, header_of, kind_told, request_text, wrote_told};
ghost use Rattle.wire.specs.Puts.{written};
ghost use Rattle.write_client.specs.Slices.{client_text};
ghost use Rattle.write_content.specs.ContentTexts.{alert_text, cipher_spec_text};
ghost use Rattle.write_draft18.specs.Slices.{draft18_text};
ghost use Rattle.write_record.specs.RecordTexts.{record_text};
ghost use Rattle.write_server.specs.Slices.{server_text};

use norrabist_c::writers::Wrote;

// Writes a ChangeCipherSpec, the byte 01: NoRoom.
#[unsafe(no_mangle)]
pub extern "C" fn norrabist_gen_tls_changecipherspec(out: &mut [u8]) -> Wrote
    ensures value { result ≡ wrote_told cipher_spec_text out.old }
    ensures out_after { out.new ≡ written cipher_spec_text 0 out.old }
{
    norrabist_c::writers::norrabist_gen_tls_changecipherspec(out)
}

// Writes an alert, level and description: BadLength where the level is neither 1 nor 2, then
// NoRoom.
#[unsafe(no_mangle)]
pub extern "C" fn norrabist_gen_tls_alert(severity: u8, code: u8, out: &mut [u8]) -> Wrote
    ensures value { result ≡ wrote_told (alert_text severity code) out.old }
    ensures out_after { out.new ≡ written (alert_text severity code) 0 out.old }
{
    norrabist_c::writers::norrabist_gen_tls_alert(severity, code, out)
}

// Writes a ClientHello as a message: BadLength, then NoRoom.
#[unsafe(no_mangle)]
pub extern "C" fn norrabist_gen_tls_clienthello(
    version: u16,
    random: &[u8],
    session_id: &[u8],
    ciphers: &[u8],
    comp: &[u8],
    ext: &[u8],
    out: &mut [u8],
) -> Wrote
    ensures value { result ≡ wrote_told (client_text version random.now session_id.now ciphers.now comp.now ext.now) out.old }
    ensures out_after { out.new ≡ written (client_text version random.now session_id.now ciphers.now comp.now ext.now) 0 out.old }
{
    norrabist_c::writers::norrabist_gen_tls_clienthello(
        version, random, session_id, ciphers, comp, ext, out,
    )
}

// Writes a ServerHello as a message: BadLength, then NoRoom.
#[unsafe(no_mangle)]
pub extern "C" fn norrabist_gen_tls_serverhello(
    version: u16,
    random: &[u8],
    session_id: &[u8],
    cipher: u16,
    compression: u8,
    ext: &[u8],
    out: &mut [u8],
) -> Wrote
    ensures value { result ≡ wrote_told (server_text version random.now session_id.now cipher compression ext.now) out.old }
    ensures out_after { out.new ≡ written (server_text version random.now session_id.now cipher compression ext.now) 0 out.old }
{
    norrabist_c::writers::norrabist_gen_tls_serverhello(
        version,
        random,
        session_id,
        cipher,
        compression,
        ext,
        out,
    )
}

// Writes a ServerHello of draft 18 as a message: BadLength, then NoRoom.
#[unsafe(no_mangle)]
pub extern "C" fn norrabist_gen_tls_serverhellodraft18(
    version: u16,
    random: &[u8],
    cipher: u16,
    ext: &[u8],
    out: &mut [u8],
) -> Wrote
    ensures value { result ≡ wrote_told (draft18_text version random.now cipher ext.now) out.old }
    ensures out_after { out.new ≡ written (draft18_text version random.now cipher ext.now) 0 out.old }
{
    norrabist_c::writers::norrabist_gen_tls_serverhellodraft18(version, random, cipher, ext, out)
}

// Writes a ClientKeyExchange of the form that has that number in `message::keyexchange`: BadLength,
// also of any other number, then NoRoom.
#[unsafe(no_mangle)]
pub extern "C" fn norrabist_gen_tls_clientkeyexchange(
    form: u8,
    part: &[u8],
    out: &mut [u8],
) -> Wrote
    ensures value { result ≡ wrote_told (exchange_slice_text form part.now) out.old }
    ensures out_after { out.new ≡ written (exchange_slice_text form part.now) 0 out.old }
{
    norrabist_c::writers::norrabist_gen_tls_clientkeyexchange(form, part, out)
}

// Writes a HelloRequest, four bytes, or answers NoRoom.
#[unsafe(no_mangle)]
pub extern "C" fn norrabist_gen_tls_hellorequest(out: &mut [u8]) -> Wrote
    ensures value { result ≡ wrote_told request_text out.old }
    ensures out_after { out.new ≡ written request_text 0 out.old }
{
    norrabist_c::writers::norrabist_gen_tls_hellorequest(out)
}

// Writes a Finished: BadLength, then NoRoom.
#[unsafe(no_mangle)]
pub extern "C" fn norrabist_gen_tls_finished(part: &[u8], out: &mut [u8]) -> Wrote
    ensures value { result ≡ wrote_told (finished_text part.now) out.old }
    ensures out_after { out.new ≡ written (finished_text part.now) 0 out.old }
{
    norrabist_c::writers::norrabist_gen_tls_finished(part, out)
}

// Writes a record of that type and version round `msg`, which is not opened: TooLarge, then NoRoom.
#[unsafe(no_mangle)]
pub extern "C" fn norrabist_gen_tls_plaintext(
    record_type: u8,
    version: u16,
    msg: &[u8],
    out: &mut [u8],
) -> Wrote
    ensures value { result ≡ wrote_told (record_text (header_of record_type version) msg.now) out.old }
    ensures out_after { out.new ≡ written (record_text (header_of record_type version) msg.now) 0 out.old }
{
    norrabist_c::writers::norrabist_gen_tls_plaintext(record_type, version, msg, out)
}

// Answers 0 for a kind that is written, by its number in `message::handshake`, and
// NotYetImplemented for any other.
#[unsafe(no_mangle)]
pub extern "C" fn norrabist_kind_written(kind: u16) -> u8
    ensures { result ≡ kind_told kind }
{
    norrabist_c::writers::norrabist_kind_written(kind)
}
