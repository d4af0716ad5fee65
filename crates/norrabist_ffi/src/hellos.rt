// The exports of `norrabist_c::hellos`; made by ./papers --write.
ghost use Rattle.std.specs.Prelude.{◌≡◌};
ghost use Rattle.grammar.specs.Forms.{by_version, reading};
ghost use Rattle.norrabist_c.specs.Hellos.{client_told, retry_told, server_message_told, server_told};
ghost use Rattle.open_hellos.specs.HelloMessages.{server_message};
ghost use Rattle.read_client.specs.Client.{client, strict_client};
ghost use Rattle.read_others.specs.Body.{retry};
ghost use Rattle.read_server.specs.Server.{server_versions};

use norrabist_c::hellos::{ClientHelloTold, HelloRetryRequestTold, ServerHelloTold};

// Reads the body of a ClientHello.
#[unsafe(no_mangle)]
pub extern "C" fn norrabist_parse_tls_handshake_client_hello(i: &[u8]) -> ClientHelloTold
    ensures { result ≡ client_told (reading client i.now) }
{
    norrabist_c::hellos::norrabist_parse_tls_handshake_client_hello(i)
}

// Reads the body of a ClientHello that matches exactly.
// stays: two exports of C, each with its reader
#[unsafe(no_mangle)]
pub extern "C" fn norrabist_parse_tls_handshake_client_hello_strict(i: &[u8]) -> ClientHelloTold
    ensures { result ≡ client_told (strict_client i.now) }
{
    norrabist_c::hellos::norrabist_parse_tls_handshake_client_hello_strict(i)
}

// Reads the body of a ServerHello; that of draft 18 is Tag. The version is tested here, so that the
// reader of the body is compiled into this function.
#[unsafe(no_mangle)]
pub extern "C" fn norrabist_parse_tls_handshake_server_hello(i: &[u8]) -> ServerHelloTold
    ensures { result ≡ server_told (by_version server_versions i.now) }
{
    norrabist_c::hellos::norrabist_parse_tls_handshake_server_hello(i)
}

// Reads the body of a ServerHello of a message: at version 0x7f12 it is that of draft 18.
#[unsafe(no_mangle)]
pub extern "C" fn norrabist_parse_tls_handshake_msg_server_hello(i: &[u8]) -> ServerHelloTold
    ensures { result ≡ server_message_told (server_message i.now) }
{
    norrabist_c::hellos::norrabist_parse_tls_handshake_msg_server_hello(i)
}

// Reads the body of a HelloRetryRequest.
#[unsafe(no_mangle)]
pub extern "C" fn norrabist_parse_tls_handshake_msg_hello_retry_request(
    i: &[u8],
) -> HelloRetryRequestTold
    ensures { result ≡ retry_told (reading retry i.now) }
{
    norrabist_c::hellos::norrabist_parse_tls_handshake_msg_hello_retry_request(i)
}
