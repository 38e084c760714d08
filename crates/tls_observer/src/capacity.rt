//! How much memory the summary of a connection uses.
ghost use Rattle.std.specs.Prelude.{◌≡◌};
ghost use Rattle.tls_observer.specs.Capacity.{of_bytes as of_bytes_in, of_chain as of_chain_in, of_client as of_client_in, of_handshake as of_handshake_in, of_server as of_server_in};

use std::mem::size_of;
use tls_summary::{CertificateSummary, ClientParts, HandshakeSummary, ServerParts};

/// The memory of a certificate's summary in a chain, in bytes.
const CERTIFICATE_COST: usize = size_of::<CertificateSummary>();

/// The capacity of optional bytes.
fn of_bytes(bytes: &Option<Vec<u8>>) -> usize
    ensures { result ≡ of_bytes_in bytes.now }
{
    match bytes {
        Some(bytes) => bytes.capacity(),
        None => 0,
    }
}

/// The memory of a certificate chain, in bytes.
fn of_chain(chain: &Option<Vec<CertificateSummary>>) -> usize
    ensures { result ≡ of_chain_in chain.now }
{
    match chain {
        Some(certificates) => certificates.capacity().saturating_mul(CERTIFICATE_COST),
        None => 0,
    }
}

/// The memory of a ClientHello, in bytes.
fn of_client(client: &Option<ClientParts>) -> usize
    ensures { result ≡ of_client_in client.now }
{
    let Some(client) = client else {
        return 0;
    };
    client
        .random
        .capacity()
        .saturating_add(of_bytes(&client.session_id))
        .saturating_add(client.ciphers.capacity())
        .saturating_add(client.compressions.capacity())
        .saturating_add(of_bytes(&client.ext))
}

/// The memory of a ServerHello, in bytes.
fn of_server(server: &Option<ServerParts>) -> usize
    ensures { result ≡ of_server_in server.now }
{
    let Some(server) = server else {
        return 0;
    };
    server
        .random
        .capacity()
        .saturating_add(of_bytes(&server.session_id))
        .saturating_add(of_bytes(&server.ext))
}

/// The memory of a summary, in bytes.
pub fn of_handshake(handshake: &HandshakeSummary) -> usize
    ensures { result ≡ of_handshake_in handshake.now }
{
    of_client(&handshake.client)
        .saturating_add(of_server(&handshake.server))
        .saturating_add(of_chain(&handshake.client_certificates))
        .saturating_add(of_chain(&handshake.server_certificates))
        .saturating_add(of_bytes(&handshake.client_certificate))
        .saturating_add(of_bytes(&handshake.server_certificate))
        .saturating_add(of_bytes(&handshake.ocsp_response))
        .saturating_add(of_bytes(&handshake.ssl2_cipher_specs))
}
