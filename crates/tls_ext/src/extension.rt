//! Extensions and their contents.
ghost use Rattle.std.specs.Prelude.{◌≡◌, IfOk};
ghost use Rattle.tls_ext.specs.Extension.{view, extension_type};

use crate::kind::{every_row, row_type, rows};
use std::alloc::{AllocError, Global};
use tls_base::{
    CertificateStatusType, NamedGroup, OutOfMemory, SNIType, TlsCipherSuiteID, TlsExtensionType,
    TlsVersion,
};

/// A key share of one group: the KeyShareEntry of RFC 8446, section 4.2.8.
#[derive(Clone, Debug, PartialEq, Drop)]
pub struct KeyShareEntry<'a> {
    /// The group of the key exchange.
    pub group: NamedGroup,
    /// The public value of the key exchange.
    pub kx: &'a [u8],
}

/// A filter on a certificate extension: the OIDFilter of RFC 8446, section 4.2.5.
#[derive(Clone, Copy, Debug, PartialEq, Drop)]
pub struct OidFilter<'a> {
    /// The object identifier, DER-encoded.
    pub cert_ext_oid: &'a [u8],
    /// The values of the extension, DER-encoded.
    pub cert_ext_val: &'a [u8],
}

/// An extension of a hello message or a certificate request (RFC 8446, section 4.2).
#[derive(Debug, PartialEq, Drop)]
pub enum TlsExtension<'a> {
    /// The names of the requested server, each its type and its bytes (server_name; RFC 6066,
    /// section 3).
    SNI(Vec<(SNIType, &'a [u8])>),
    /// The code of a maximum fragment length (RFC 6066, section 4).
    MaxFragmentLength(u8),
    /// The type of a status request and the request; `None` from a server (RFC 6066, section 8).
    StatusRequest(Option<(CertificateStatusType, &'a [u8])>),
    /// The supported groups (RFC 8422, section 5.1.1; RFC 8446, section 4.2.7).
    EllipticCurves(Vec<NamedGroup>),
    /// The supported point formats, 1 byte each (RFC 8422, section 5.1.2).
    EcPointFormats(&'a [u8]),
    /// The numbers of the supported signature algorithms (RFC 8446, section 4.2.3).
    SignatureAlgorithms(Vec<u16>),
    /// The heartbeat mode: who may send heartbeats (RFC 6520, section 2).
    Heartbeat(u8),
    /// The application protocol names (RFC 7301, section 3.1).
    ALPN(Vec<&'a [u8]>),
    /// The list of certificate timestamps, without its length (RFC 6962, section 3.3.1).
    SignedCertificateTimestamp(Option<&'a [u8]>),
    /// The padding (RFC 7685, section 3).
    Padding(&'a [u8]),
    /// The flag encrypt_then_mac (RFC 7366, section 2).
    EncryptThenMac,
    /// The flag extended_master_secret (RFC 7627, section 5.1).
    ExtendedMasterSecret,
    /// The record size limit: the maximum length of a record's content (RFC 8449, section 4).
    RecordSizeLimit(u16),
    /// A session ticket (RFC 5077, section 3.2).
    SessionTicket(&'a [u8]),
    /// Key shares, under their number in drafts of TLS 1.3.
    KeyShareOld(&'a [u8]),
    /// The offered pre-shared keys, or the selected one (RFC 8446, section 4.2.11).
    PreSharedKey(&'a [u8]),
    /// The maximum size of early data, in bytes; `None` outside NewSessionTicket (RFC 8446, section
    /// 4.2.10).
    EarlyData(Option<u32>),
    /// The supported versions, or the one that a server selected (RFC 8446, section 4.2.1). In TLS
    /// 1.3 the selected version is the one in use, and not that of the hello.
    SupportedVersions(Vec<TlsVersion>),
    /// A cookie (RFC 8446, section 4.2.2).
    Cookie(&'a [u8]),
    /// The modes of pre-shared keys, 1 byte each (RFC 8446, section 4.2.9).
    PskExchangeModes(Vec<u8>),
    /// The filters on certificate extensions (RFC 8446, section 4.2.5).
    OidFilters(Vec<OidFilter<'a>>),
    /// The flag post_handshake_auth (RFC 8446, section 4.2.6).
    PostHandshakeAuth,
    /// The key shares (RFC 8446, section 4.2.8).
    KeyShare(&'a [u8]),
    /// The flag next_protocol_negotiation, as a client sends it (draft-agl-tls-nextprotoneg-04,
    /// section 3).
    NextProtocolNegotiation,
    /// The handshake data that a renegotiation is bound to (RFC 5746, section 3.2).
    RenegotiationInfo(&'a [u8]),
    /// An encrypted server name (draft-ietf-tls-esni-02, section 5).
    EncryptedServerName {
        /// The cipher suite that encrypts the name.
        ciphersuite: TlsCipherSuiteID,
        /// The group of the key share.
        group: NamedGroup,
        /// The client's public value.
        key_share: &'a [u8],
        /// A hash of the record with the server's keys.
        record_digest: &'a [u8],
        /// The encrypted name.
        encrypted_sni: &'a [u8],
    },
    /// A GREASE number and its content. GREASE numbers are reserved so that peers learn to ignore
    /// unknown ones. Any number whose bytes both end in the hexadecimal digit a counts; RFC 8701,
    /// section 2, reserves sixteen of these.
    Grease(u16, &'a [u8]),
    /// An extension whose content isn't parsed: its type and its content.
    Unknown(TlsExtensionType, &'a [u8]),
}

/// Expands to a match with an arm for each row of the table: the type of its variant.
macro_rules! type_of {
    ([$extension:ident] $($number:tt => $form:ident($kind:ident, $read:ident), $sides:ident;)*) => {
        match $extension {
            $(TlsExtension::$kind { .. } => row_type!($number),)*
            TlsExtension::Grease(_, _) => TlsExtensionType::Grease,
            TlsExtension::Unknown(kind, _) => *kind,
        }
    };
}

/// Converts to the extension's type. `Grease` has 0xfafa, `Unknown` its own type.
impl From<&TlsExtension<'_>> for TlsExtensionType {
    ghost from_gives = { λ e t. t.0 ≡ extension_type (view e.now) };

    fn from(extension: &TlsExtension) -> TlsExtensionType {
        rows!(every_row type_of extension)
    }
}

/// Returns a copy of the items in a new vector.
fn copied<T: Copy>(alloc: Global, items: &Vec<T>) -> Result<Vec<T>, AllocError>
    ensures { IfOk result (λ v. v.items ≡ items.now.items) }
{
    Vec::from_slice(alloc, items.as_slice())
}

/// Expands to a match with an arm for each row of the table: a copy of its variant. Variants of
/// several fields have no arm here.
macro_rules! copy_of {
    ([$extension:ident $alloc:ident] $($number:tt =>
        $(list($list:ident, $l:ident))? $(value($value:ident, $v:ident))?
            $(empty($empty:ident, $e:ident))?
        $(fields $f:tt)?, $sides:ident;)*) => {
        match $extension {
            $($(TlsExtension::$list(items) => TlsExtension::$list(copied($alloc, items)?),)?)*
            $($(TlsExtension::$value(value) => TlsExtension::$value(*value),)?)*
            $($(TlsExtension::$empty => TlsExtension::$empty,)?)*
            TlsExtension::EncryptedServerName {
                ciphersuite,
                group,
                key_share,
                record_digest,
                encrypted_sni,
            } => TlsExtension::EncryptedServerName {
                ciphersuite: *ciphersuite,
                group: *group,
                key_share: *key_share,
                record_digest: *record_digest,
                encrypted_sni: *encrypted_sni,
            },
            TlsExtension::Grease(number, content) => TlsExtension::Grease(*number, *content),
            TlsExtension::Unknown(kind, content) => TlsExtension::Unknown(*kind, *content),
        }
    };
}

impl<'a> TlsExtension<'a> {
    /// Returns a copy of the extension. Slices are shared, lists are copied.
    ///
    /// `OutOfMemory` if a list can't be allocated.
    pub fn try_clone(&self, alloc: Global) -> Result<TlsExtension<'a>, OutOfMemory>
        ensures { IfOk result (λ e. view e ≡ view self.now) }
    {
        Ok(rows!(every_row copy_of self alloc))
    }
}
