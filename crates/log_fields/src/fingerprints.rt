//! The fingerprints of hellos.
ghost use Rattle.std.specs.Prelude.{◌≡◌, IfOk, OnOk};
ghost use Rattle.std.specs.Option.{option_map};
ghost use Rattle.std.specs.String.{string_bytes};
ghost use Rattle.tls_fingerprints.specs.Hellos.{view_client, view_server};
ghost use Rattle.tls_fingerprints.specs.Ja3.{digest_of as digest_by, ja3_of, ja3_text_of};
ghost use Rattle.tls_fingerprints.specs.Ja4.{ja4_of};
ghost use Rattle.tls_summary.specs.HandshakeSummary.{view_summary};
ghost use Rattle.log_formats.specs.Data.{text_data, value_of};
ghost use Rattle.log_fields.specs.Known.{known_of, printed_client, printed_server};
ghost use Rattle.log_fields.specs.Values.{fingerprint_value, some_print, transport_of};

use crate::context::FieldContext;
use crate::fields::{Fingerprint, rows};
use connections::Protocol;
use layouts::Items;
use log_formats::cell::{Cell, TakesCell};
use log_formats::text::owned_text;
use std::alloc::{AllocError, Global};
use tls_fingerprints::{ClientHelloParts, ServerHelloParts, Transport, ja3_digest};
use tls_summary::HandshakeSummary;

fn slice_of(bytes: &Option<Vec<u8>>) -> Option<&[u8]>
    ensures { option_map (λ b. b.now) result ≡ option_map (λ v. v.items) bytes.now }
{
    match bytes {
        Some(bytes) => Some(bytes.as_slice()),
        None => None,
    }
}

/// Returns the fields of the client's fingerprints. An SSL 2.0 hello has none.
fn client_parts(handshake: &HandshakeSummary) -> Option<ClientHelloParts<'_>>
    ensures { option_map view_client result ≡ printed_client (view_summary handshake.now) }
{
    match &handshake.ssl2_cipher_specs {
        Some(_) => None,
        None => match &handshake.client {
            Some(client) => Some(ClientHelloParts {
                version: client.version,
                ciphers: Items::new(client.ciphers.as_slice()),
                ext: slice_of(&client.ext),
            }),
            None => None,
        },
    }
}

/// Returns the fields of the server's fingerprints.
fn server_parts(handshake: &HandshakeSummary) -> Option<ServerHelloParts<'_>>
    ensures { option_map view_server result ≡ printed_server (view_summary handshake.now) }
{
    match &handshake.server {
        Some(server) => Some(ServerHelloParts {
            version: server.version,
            cipher: server.cipher,
            ext: slice_of(&server.ext),
        }),
        None => None,
    }
}

/// Returns the hello's transport.
fn transport(protocol: Protocol) -> Transport
    ensures { result ≡ transport_of protocol }
{
    match protocol {
        Protocol::Tcp => Transport::Tcp,
        Protocol::Udp => Transport::Udp,
    }
}

/// Returns the text of a hello's JA3.
fn ja3_text(context: &FieldContext<'_>, client: &ClientHelloParts<'_>) -> Result<String, AllocError>
    ensures { IfOk result (λ text. string_bytes text ≡ ja3_text_of (view_client client.now)) }
{
    match context.digests.try_borrow_mut() {
        Ok(mut known) => client.ja3_text_with(context.alloc, &mut known),
        Err(_) => client.ja3_text(context.alloc),
    }
}

/// Returns a hello's JA3.
fn ja3(context: &FieldContext<'_>, client: &ClientHelloParts<'_>) -> Result<String, AllocError>
    ensures { IfOk result (λ text. string_bytes text ≡ ja3_of (view_client client.now)) }
{
    match context.digests.try_borrow_mut() {
        Ok(mut known) => client.ja3_with(context.alloc, &mut known),
        Err(_) => client.ja3(context.alloc),
    }
}

/// Returns a hello's JA4.
fn ja4(context: &FieldContext<'_>, client: &ClientHelloParts<'_>) -> Result<String, AllocError>
    ensures { IfOk result (λ text. string_bytes text
        ≡ ja4_of (transport_of context.now.summary.now.protocol) (view_client client.now)) }
{
    let transport = transport(context.summary.protocol);
    match context.digests.try_borrow_mut() {
        Ok(mut known) => client.ja4_with(context.alloc, transport, &mut known),
        Err(_) => client.ja4(context.alloc, transport),
    }
}

/// Returns the digest of a JA3S text.
fn digest_of(context: &FieldContext<'_>, text: &str) -> Result<String, AllocError>
    ensures { IfOk result (λ digits. string_bytes digits ≡ digest_by text.now) }
{
    match context.digests.try_borrow_mut() {
        Ok(mut known) => known.ja3_digest(context.alloc, text),
        Err(_) => ja3_digest(context.alloc, text),
    }
}

/// Returns the text of JA3S, copied if it is kept; `None` without a ServerHello.
fn ja3s_text(context: &FieldContext<'_>) -> Result<Option<String>, AllocError>
    ensures { IfOk result
        (λ text. option_map string_bytes text ≡ (known_of context.now).ja3s_text) }
{
    match &context.kept.ja3s {
        Some(text) => Ok(Some(String::from_str(context.alloc, text.as_str())?)),
        None => match server_parts(context.handshake) {
            Some(server) => Ok(Some(server.ja3s_text(context.alloc)?)),
            None => Ok(None),
        },
    }
}

/// Returns JA3; `None` without a ClientHello.
fn ja3_cell<'a>(context: &FieldContext<'_>) -> Result<Option<Cell<'a>>, AllocError>
    ensures { IfOk result (λ cell. value_of cell
        ≡ some_print ja3_of (printed_client (view_summary context.now.handshake.now))) }
{
    match client_parts(context.handshake) {
        Some(client) => Ok(owned_text(ja3(context, &client)?)),
        None => Ok(None),
    }
}

/// Returns the text of JA3; `None` without a ClientHello.
fn ja3_text_cell<'a>(context: &FieldContext<'_>) -> Result<Option<Cell<'a>>, AllocError>
    ensures { IfOk result (λ cell. value_of cell
        ≡ some_print ja3_text_of (printed_client (view_summary context.now.handshake.now))) }
{
    match client_parts(context.handshake) {
        Some(client) => Ok(owned_text(ja3_text(context, &client)?)),
        None => Ok(None),
    }
}

/// Returns JA3S, and keeps its text for the next field; `None` without a ServerHello.
fn ja3s_cell<'a>(context: &mut FieldContext<'a>) -> Result<Option<Cell<'a>>, AllocError>
    ensures value { IfOk result
        (λ cell. value_of cell ≡ some_print digest_by (known_of context.old).ja3s_text) }
    ensures same { known_of context.new ≡ known_of context.old }
{
    let Some(text) = ja3s_text(context)? else {
        return Ok(None);
    };
    let digest = digest_of(context, text.as_str())?;
    context.kept.ja3s = Some(text);
    Ok(owned_text(digest))
}

/// Returns the text of JA3S; `None` without a ServerHello.
fn ja3s_text_cell<'a>(context: &FieldContext<'_>) -> Result<Option<Cell<'a>>, AllocError>
    ensures { IfOk result
        (λ cell. value_of cell ≡ option_map text_data (known_of context.now).ja3s_text) }
{
    match ja3s_text(context)? {
        Some(text) => Ok(owned_text(text)),
        None => Ok(None),
    }
}

/// Returns JA4; `None` without a ClientHello.
fn ja4_cell<'a>(context: &FieldContext<'_>) -> Result<Option<Cell<'a>>, AllocError>
    ensures { IfOk result (λ cell. value_of cell
        ≡ some_print (ja4_of (transport_of context.now.summary.now.protocol))
        (printed_client (view_summary context.now.handshake.now))) }
{
    match client_parts(context.handshake) {
        Some(client) => Ok(owned_text(ja4(context, &client)?)),
        None => Ok(None),
    }
}

/// Passes a fingerprint to `to`; it is missing without the hello.
pub fn compute_fingerprint<'a, T: TakesCell<'a>>(
    context: &mut FieldContext<'a>,
    field: &Fingerprint,
    to: &mut T,
) -> Result<(), AllocError>
    ensures value { OnOk result
        (T.HasTaken (fingerprint_value field.now (known_of context.old)) to.old to.new) }
    ensures same { known_of context.new ≡ known_of context.old }
{
    rows!(computes [Fingerprint context field to take_result])
}
