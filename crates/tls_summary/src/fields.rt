//! The fields of a connection.
ghost use Rattle.std.specs.Prelude.{◌≡◌, IfOk, map};
ghost use Rattle.std.specs.Option.{option_map};
ghost use Rattle.tls_key_exchange.specs.Timestamp.{serialized_timestamp};
ghost use Rattle.layouts.specs.Items.{items_in};
ghost use Rattle.layouts.specs.Layout.{counted, number};
ghost use Rattle.layouts.specs.Text.{held};
ghost use Rattle.tls_ext.specs.Extension.{view_server_name};
ghost use Rattle.tls_ext.specs.InPlace.{extension_type, key_share_entry};
ghost use Rattle.tls_summary.specs.Encrypted.{view_encrypted};
ghost use Rattle.tls_summary.specs.HandshakeSummary.{view_summary};
ghost use Rattle.tls_summary.specs.Fields as fields;

use crate::encrypted::{EncryptedClientHello, encrypted_in};
use crate::hellos::{
    count, group_of_share, host_name, is_filled, known, modes, names, other_names, protocols,
    shares, timestamps, versions,
};
use crate::summary::HandshakeSummary;
use layouts::{Counted1, Items};
use ssl2_hello::CipherSpec;
use std::alloc::{AllocError, Global};
use tls_base::{
    NamedGroup, SNIType, TlsCipherSuiteID, TlsCompressionID, TlsExtensionType, TlsVersion,
};
use tls_ext::offered::{algorithms, content, formats, groups, none};
use tls_ext::{ExtensionType, KeyShareEntry, best_version, extension_types};
use tls_flow::Direction;
use tls_key_exchange::SignedCertificateTimestamp;

/// encrypted_client_hello (RFC 9849, section 5), which has no constant in the library.
pub const ENCRYPTED_CLIENT_HELLO: TlsExtensionType = TlsExtensionType(0xfe0d);

/// delegated_credential (RFC 9345, section 4.1.1), which has no constant in the library.
pub const DELEGATED_CREDENTIAL: TlsExtensionType = TlsExtensionType(34);

/// connection_id (RFC 9146, section 3), which has no constant in the library.
pub const CONNECTION_ID: TlsExtensionType = TlsExtensionType(54);

/// The length of the connection ID in an extension connection_id, in bytes: the extension has 1
/// byte of length and the ID.
fn id_len(content: Option<&[u8]>) -> usize
    ensures { result ≡ fields.id_length (option_map (λ x. x.now) content.entry) }
{
    match content {
        Some([len, id @ ..]) if id.len() == *len as usize => id.len(),
        _ => 0,
    }
}

/// Borrows the stored bytes.
fn lent(bytes: &Option<Vec<u8>>) -> Option<&[u8]>
    ensures { option_map (λ x. x.now) result ≡ option_map (λ v. v.items) bytes.now }
{
    match bytes {
        Some(bytes) => Some(bytes.as_slice()),
        None => None,
    }
}

impl HandshakeSummary {
    fn client_ext(&self) -> Option<&[u8]>
        ensures { held (option_map (λ x. x.now) result) ≡ fields.client_extensions
            (view_summary self.now) }
    {
        match &self.client {
            Some(hello) => lent(&hello.ext),
            None => None,
        }
    }

    fn server_ext(&self) -> Option<&[u8]>
        ensures { held (option_map (λ x. x.now) result) ≡ fields.server_extensions
            (view_summary self.now) }
    {
        match &self.server {
            Some(hello) => lent(&hello.ext),
            None => None,
        }
    }

    /// The version that the server chose: the one in its supported_versions, if the ServerHello has
    /// that (RFC 8446, section 4.2.1), else the hello's version field.
    pub fn version(&self) -> Option<TlsVersion>
        ensures { option_map (λ v. v.0) result ≡ fields.version (view_summary self.now) }
    {
        match &self.server {
            Some(hello) => known(best_version(hello.version, lent(&hello.ext))),
            None => None,
        }
    }

    /// The cipher suite that the server chose.
    pub fn cipher(&self) -> Option<TlsCipherSuiteID>
        ensures { option_map (λ c. c.0) result ≡ fields.cipher (view_summary self.now) }
    {
        match &self.server {
            Some(hello) => Some(hello.cipher),
            None => None,
        }
    }

    /// The group of the key exchange, from the server's key share or its ServerKeyExchange.
    pub fn curve(&self) -> Option<NamedGroup>
        ensures { option_map (λ g. g.0) result ≡ (view_summary self.now).curve }
    {
        self.curve
    }

    /// The host that the client asked for: the first name of type host_name in server_name (RFC
    /// 6066, section 3).
    pub fn server_name(&self) -> Option<&[u8]>
        ensures { option_map (λ x. x.now) result ≡ fields.server_name (view_summary self.now) }
    {
        host_name(names(self.client_ext()))
    }

    /// The names of other types in server_name, in order, each with its type.
    ///
    /// `AllocError` if there is no memory for them.
    pub fn other_server_names(&self, alloc: Global) -> Result<Vec<(SNIType, &[u8])>, AllocError>
        ensures { IfOk result
            (λ v. map view_server_name v.items
            ≡ fields.other_server_names (view_summary self.now)) }
    {
        other_names(alloc, names(self.client_ext()))
    }

    /// The application protocol that the server chose (RFC 7301, section 3.1).
    pub fn next_protocol(&self) -> Option<&[u8]>
        ensures { option_map (λ x. x.now) result ≡ fields.next_protocol (view_summary self.now) }
    {
        let mut names = protocols(self.server_ext());
        names.next()
    }

    /// Whether the server resumed a session or accepted a pre-shared key, by pre_shared_key (RFC
    /// 8446, section 4.2.11).
    pub fn has_session(&self) -> bool
        ensures { result ≡ fields.has_session (view_summary self.now) }
    {
        self.server_extension(TlsExtensionType::PreSharedKey)
            .is_some()
    }

    /// The version field of the ClientHello: 0x0303 in TLS 1.3.
    pub fn client_version(&self) -> Option<TlsVersion>
        ensures { option_map (λ v. v.0) result ≡ fields.client_version (view_summary self.now) }
    {
        match &self.client {
            Some(hello) => Some(hello.version),
            None => None,
        }
    }

    /// The session ID of the ClientHello; `None` if it is empty.
    pub fn client_session_id(&self) -> Option<&[u8]>
        ensures { option_map (λ x. x.now) result
            ≡ fields.client_session_id (view_summary self.now) }
    {
        match &self.client {
            Some(hello) => lent(&hello.session_id),
            None => None,
        }
    }

    /// The cipher suites that the client offers, in its order.
    pub fn client_ciphers(&self) -> Items<'_, TlsCipherSuiteID>
        ensures { items_in (number 2) result.bytes.now ≡ fields.client_ciphers
            (view_summary self.now) }
    {
        match &self.client {
            Some(hello) => Items::new(hello.ciphers.as_slice()),
            None => none::<TlsCipherSuiteID>(),
        }
    }

    /// The compression methods that the client offers, in its order.
    pub fn client_compressions(&self) -> Items<'_, TlsCompressionID>
        ensures { items_in (number 1) result.bytes.now ≡ fields.client_compressions
            (view_summary self.now) }
    {
        match &self.client {
            Some(hello) => Items::new(hello.compressions.as_slice()),
            None => none::<TlsCompressionID>(),
        }
    }

    /// The content of the ClientHello's first extension of this type, without its length; `None` if
    /// it has none.
    pub fn client_extension(&self, kind: TlsExtensionType) -> Option<&[u8]>
        ensures { option_map (λ x. x.now) result ≡ fields.client_extension kind.0
            (view_summary self.now) }
    {
        content(self.client_ext(), kind)
    }

    /// The types of the ClientHello's extensions, in order (RFC 8446, section 4.2).
    pub fn client_extension_types(&self) -> Items<'_, ExtensionType>
        ensures { items_in extension_type result.bytes.now ≡ fields.client_extension_types
            (view_summary self.now) }
    {
        extension_types(self.client_ext())
    }

    /// The versions that the client offers in supported_versions (RFC 8446, section 4.2.1), in its
    /// order.
    pub fn client_versions(&self) -> Items<'_, TlsVersion>
        ensures { items_in (number 2) result.bytes.now ≡ fields.client_versions
            (view_summary self.now) }
    {
        versions(self.client_ext())
    }

    /// The groups in supported_groups (RFC 8446, section 4.2.7), in the client's order.
    pub fn client_groups(&self) -> Items<'_, NamedGroup>
        ensures { items_in (number 2) result.bytes.now ≡ fields.client_groups
            (view_summary self.now) }
    {
        groups(self.client_ext())
    }

    /// The formats in ec_point_formats (RFC 8422, section 5.1.2), one a byte.
    pub fn client_point_formats(&self) -> &[u8]
        ensures { result.now ≡ fields.client_point_formats (view_summary self.now) }
    {
        formats(self.client_ext())
    }

    /// The algorithms in signature_algorithms (RFC 8446, section 4.2.3), in the client's order.
    pub fn client_signature_algorithms(&self) -> Items<'_, u16>
        ensures { items_in (number 2) result.bytes.now ≡ fields.client_signature_algorithms
            (view_summary self.now) }
    {
        algorithms(self.client_ext())
    }

    /// The application protocols that the client offers (RFC 7301, section 3.1), in its order.
    pub fn client_protocols(&self) -> Items<'_, Counted1>
        ensures { items_in (counted 1) result.bytes.now ≡ fields.client_protocols
            (view_summary self.now) }
    {
        protocols(self.client_ext())
    }

    /// The key shares that the client offers (RFC 8446, section 4.2.8), in its order.
    pub fn client_key_shares(&self) -> Items<'_, KeyShareEntry<'_>>
        ensures { items_in key_share_entry result.bytes.now ≡ fields.client_key_shares
            (view_summary self.now) }
    {
        shares(self.client_ext())
    }

    /// The client's psk_key_exchange_modes (RFC 8446, section 4.2.9), one a byte.
    pub fn client_psk_modes(&self) -> &[u8]
        ensures { result.now ≡ fields.client_psk_modes (view_summary self.now) }
    {
        modes(self.client_ext())
    }

    /// Whether the client offers pre-shared keys, in pre_shared_key (RFC 8446, section 4.2.11).
    pub fn offers_pre_shared_key(&self) -> bool
        ensures { result ≡ fields.offers_pre_shared_key (view_summary self.now) }
    {
        self.client_extension(TlsExtensionType::PreSharedKey)
            .is_some()
    }

    /// Whether the client announces early data (RFC 8446, section 4.2.10).
    pub fn offers_early_data(&self) -> bool
        ensures { result ≡ fields.offers_early_data (view_summary self.now) }
    {
        self.client_extension(TlsExtensionType::EarlyData).is_some()
    }

    /// Whether the client offers a ticket, in a session_ticket that isn't empty (RFC 5077, section
    /// 3.2).
    pub fn offers_ticket(&self) -> bool
        ensures { result ≡ fields.offers_ticket (view_summary self.now) }
    {
        is_filled(self.client_extension(TlsExtensionType::SessionTicketTLS))
    }

    /// Whether the ClientHello has a cookie extension (RFC 8446, section 4.2.2).
    pub fn has_cookie(&self) -> bool
        ensures { result ≡ fields.has_cookie (view_summary self.now) }
    {
        self.client_extension(TlsExtensionType::Cookie).is_some()
    }

    /// Whether the ClientHello has encrypted_client_hello (RFC 9849, section 5).
    pub fn offers_encrypted_client_hello(&self) -> bool
        ensures { result ≡ fields.offers_encrypted_client_hello (view_summary self.now) }
    {
        self.client_extension(ENCRYPTED_CLIENT_HELLO).is_some()
    }

    /// The encrypted_client_hello of the ClientHello (RFC 9849, section 5), in its outer form.
    /// `None` if it has none, or one that doesn't parse to its end.
    pub fn client_encrypted_hello(&self) -> Option<EncryptedClientHello<'_>>
        ensures { option_map view_encrypted result ≡ fields.client_encrypted_hello
            (view_summary self.now) }
    {
        encrypted_in(self.client_extension(ENCRYPTED_CLIENT_HELLO))
    }

    /// Whether the ClientHello that a HelloRetryRequest asked for has encrypted_client_hello as the
    /// first one had (RFC 9849, section 6.1.5). `None` if the first had none, or no second one
    /// came.
    pub fn repeats_encrypted_client_hello(&self) -> Option<bool>
        ensures { result ≡ fields.repeats_encrypted_client_hello (view_summary self.now) }
    {
        if self.had_encrypted_hello && self.is_retried && !self.is_asked_again {
            return Some(self.offers_encrypted_client_hello());
        }
        None
    }

    /// Whether the client accepts delegated credentials (RFC 9345, section 4.1.1).
    pub fn offers_delegated_credentials(&self) -> bool
        ensures { result ≡ fields.offers_delegated_credentials (view_summary self.now) }
    {
        self.client_extension(DELEGATED_CREDENTIAL).is_some()
    }

    /// The version field of the ServerHello: 0x0303 in TLS 1.3.
    pub fn server_version(&self) -> Option<TlsVersion>
        ensures { option_map (λ v. v.0) result ≡ fields.server_version (view_summary self.now) }
    {
        match &self.server {
            Some(hello) => Some(hello.version),
            None => None,
        }
    }

    /// The session ID of the ServerHello; `None` if it is empty.
    pub fn server_session_id(&self) -> Option<&[u8]>
        ensures { option_map (λ x. x.now) result
            ≡ fields.server_session_id (view_summary self.now) }
    {
        match &self.server {
            Some(hello) => lent(&hello.session_id),
            None => None,
        }
    }

    /// The compression method that the server chose.
    pub fn server_compression(&self) -> Option<TlsCompressionID>
        ensures { option_map (λ c. c.0) result ≡ fields.server_compression (view_summary self.now) }
    {
        match &self.server {
            Some(hello) => Some(hello.compression),
            None => None,
        }
    }

    /// The content of the ServerHello's first extension of this type, without its length; `None` if
    /// it has none.
    pub fn server_extension(&self, kind: TlsExtensionType) -> Option<&[u8]>
        ensures { option_map (λ x. x.now) result ≡ fields.server_extension kind.0
            (view_summary self.now) }
    {
        content(self.server_ext(), kind)
    }

    /// The CipherSpecs of a ClientHello of SSL 2.0's form (RFC 5246, appendix E.2), in its order;
    /// `None` if it has another form.
    pub fn client_cipher_specs(&self) -> Option<Items<'_, CipherSpec>>
        ensures { option_map (λ x. items_in (number 3) x.bytes.now)
            result ≡ (view_summary self.now).ssl2_cipher_specs }
    {
        match &self.ssl2_cipher_specs {
            Some(specs) => Some(Items::new(specs.as_slice())),
            None => None,
        }
    }

    /// The length of the connection ID, in bytes, in each DTLS record in this direction: the one
    /// that the receiver asked for in its hello (RFC 9146, section 3; RFC 9147, section 9). 0 if a
    /// side's hello has no such extension.
    pub fn connection_id_len(&self, side: Direction) -> usize
        ensures { result ≡ fields.connection_id_length side (view_summary self.now) }
    {
        let client = self.client_extension(CONNECTION_ID);
        let server = self.server_extension(CONNECTION_ID);
        match (side, client, server) {
            (Direction::ToServer, Some(_), Some(_)) => id_len(server),
            (Direction::FromServer, Some(_), Some(_)) => id_len(client),
            _ => 0,
        }
    }

    /// The types of the ServerHello's extensions, in order.
    pub fn server_extension_types(&self) -> Items<'_, ExtensionType>
        ensures { items_in extension_type result.bytes.now ≡ fields.server_extension_types
            (view_summary self.now) }
    {
        extension_types(self.server_ext())
    }

    /// The group of the ServerHello's key share (RFC 8446, section 4.2.8).
    pub fn server_key_share(&self) -> Option<NamedGroup>
        ensures { option_map (λ g. g.0) result ≡ fields.server_key_share (view_summary self.now) }
    {
        group_of_share(self.server_extension(TlsExtensionType::KeyShare))
    }

    /// The timestamps for the server's certificate in the ServerHello (RFC 6962, section 3.3.1).
    pub fn server_timestamps(&self) -> Items<'_, SignedCertificateTimestamp<'_>>
        ensures { items_in serialized_timestamp result.bytes.now ≡ fields.server_timestamps
            (view_summary self.now) }
    {
        timestamps(self.server_ext())
    }

    /// The number of timestamps for the server's certificate in the ServerHello (RFC 6962, section
    /// 3.3.1), saturating.
    pub fn server_timestamp_count(&self) -> u64
        ensures { result ≡ fields.server_timestamp_count (view_summary self.now) }
    {
        count(self.server_timestamps())
    }
}
