//! Parses extensions of one given type each (RFC 8446, section 4.2): 2 bytes of that type, 2 bytes
//! of length, and a content of that many bytes. Bytes that the content leaves are dropped. All
//! numbers are big-endian.
//!
//! Each call refuses another type with `Error` of kind `Tag`, and an incomplete extension with
//! `Incomplete`: the bytes missing from the type, the length, or the content.
#![tactic(auto, using(crate::proofs::WindowLemmas::tagged_opened, layouts::proofs::OneAnswerLemmas::read_allowed))]

ghost use Rattle.layouts.specs.Answers.{Gives, GivesOrMemory};
ghost use Rattle.tls_base.specs.ExtensionNumbers as extension_number;
ghost use Rattle.tls_ext.specs.Extension.{view};
ghost use Rattle.tls_ext.specs.Content as content;
ghost use Rattle.std.specs.Prelude.{◌≡◌};
ghost use Rattle.tls_ext.specs.Within.{with_rest};
ghost use Rattle.tls_ext.specs.Tagged.{tagged, tagged_bytes as tagged_bytes_layout, tagged_heartbeat, unknown};

use crate::content::{
    cookie_content, early_data_content, encrypt_then_mac_content, extended_master_secret_content,
    key_share_content, parse_tls_extension_ec_point_formats_content,
    parse_tls_extension_elliptic_curves_content, parse_tls_extension_heartbeat_content,
    parse_tls_extension_max_fragment_length_content,
    parse_tls_extension_psk_key_exchange_modes_content,
    parse_tls_extension_signature_algorithms_content, parse_tls_extension_sni_content,
    pre_shared_key_content, session_ticket_content, status_request_content,
    supported_versions_content,
};
use crate::extension::TlsExtension;
use layouts::{Err, Error, ErrorKind, IResult, block, counted2, number2, parsed, tag};
use std::alloc::Global;
use tls_base::TlsExtensionType;

/// Returns the content of an extension of this type, not yet parsed.
#[tactic(auto, using(layouts::proofs::OneAnswerLemmas::read_allowed), unfolding(crate::specs::Tagged::tagged_bytes))]
fn tagged_bytes(i: &[u8], kind: TlsExtensionType) -> IResult<&[u8], &[u8]>
    ensures { Gives (λ v. v.now) (tagged_bytes_layout kind.0) i.now result }
{
    let (i, _) = parsed!(tag(i, kind.0));
    counted2(i)
}

/// Returns the result `read` of a content, with the bytes after the content as its rest.
#[inline(always)]
fn within<'a, T: Drop>(rest: &'a [u8], read: IResult<&'a [u8], T>) -> IResult<&'a [u8], T>
    ensures { result ≡ with_rest rest.entry read.entry }
{
    match read {
        Ok((_, value)) => Ok((rest, value)),
        Err(e) => Err(e),
    }
}

/// Expands to a reader of an extension of this type, whose content the call `$read` reads.
macro_rules! tagged {
    ($i:ident, $kind:ident, $read:ident $(, $alloc:ident)?) => {{
        let (rest, content) = parsed!(tagged_bytes($i, TlsExtensionType::$kind));
        within(rest, $read($($alloc,)? content))
    }};
}

/// Reads the server names (type 0; RFC 6066, section 3). The content is read as by
/// [`crate::parse_tls_extension_sni_content`].
///
/// - `Error` of kind `Tag` if the type differs.
/// - `Incomplete` with the number of missing bytes if the extension is incomplete.
/// - The refusals of the content, and `OutOfMemory` if the list can't be allocated.
pub fn parse_tls_extension_sni(alloc: Global, i: &[u8]) -> IResult<&[u8], TlsExtension>
    ensures { GivesOrMemory view (tagged extension_number.server_name content.server_names)
        i.now result }
{
    tagged! { i, ServerName, parse_tls_extension_sni_content, alloc }
}

/// Reads a maximum fragment length (type 1; RFC 6066, section 4). The content is read as by
/// [`crate::parse_tls_extension_max_fragment_length_content`].
///
/// - `Error` of kind `Tag` if the type differs.
/// - `Incomplete` with the number of missing bytes if the extension is incomplete.
/// - `Incomplete(1)` if the content is empty.
pub fn parse_tls_extension_max_fragment_length(i: &[u8]) -> IResult<&[u8], TlsExtension>
    ensures { Gives view (tagged extension_number.max_fragment_length content.max_fragment_length)
        i.now result }
{
    tagged! { i, MaxFragmentLength, parse_tls_extension_max_fragment_length_content }
}

/// Reads a status request (type 5; RFC 6066, section 8). An empty content is `None`; else it has 1
/// byte of status type, then the request.
///
/// - `Error` of kind `Tag` if the type differs.
/// - `Incomplete` with the number of missing bytes if the extension is incomplete.
pub fn parse_tls_extension_status_request(i: &[u8]) -> IResult<&[u8], TlsExtension>
    ensures { Gives view (tagged extension_number.status_request content.status_request)
        i.now result }
{
    tagged! { i, StatusRequest, status_request_content }
}

/// Reads the supported groups (type 10; RFC 8446, section 4.2.7). The content is read as by
/// [`crate::parse_tls_extension_elliptic_curves_content`].
///
/// - `Error` of kind `Tag` if the type differs.
/// - `Incomplete` with the number of missing bytes if the extension is incomplete.
/// - The refusals of the content, and `OutOfMemory` if the list can't be allocated.
pub fn parse_tls_extension_elliptic_curves(alloc: Global, i: &[u8]) -> IResult<&[u8], TlsExtension>
    ensures { GivesOrMemory view (tagged extension_number.supported_groups content.supported_groups)
        i.now result }
{
    tagged! { i, SupportedGroups, parse_tls_extension_elliptic_curves_content, alloc }
}

/// Reads the supported point formats (type 11; RFC 8422, section 5.1.2). The content is read as by
/// [`crate::parse_tls_extension_ec_point_formats_content`].
///
/// - `Error` of kind `Tag` if the type differs.
/// - `Incomplete` with the number of missing bytes if the extension is incomplete.
/// - The refusals of the content.
pub fn parse_tls_extension_ec_point_formats(i: &[u8]) -> IResult<&[u8], TlsExtension>
    ensures { Gives view (tagged extension_number.ec_point_formats content.ec_point_formats)
        i.now result }
{
    tagged! { i, EcPointFormats, parse_tls_extension_ec_point_formats_content }
}

/// Reads the signature algorithms (type 13; RFC 8446, section 4.2.3). The content is read as by
/// [`crate::parse_tls_extension_signature_algorithms_content`].
///
/// - `Error` of kind `Tag` if the type differs.
/// - `Incomplete` with the number of missing bytes if the extension is incomplete.
/// - The refusals of the content, and `OutOfMemory` if the list can't be allocated.
pub fn parse_tls_extension_signature_algorithms(
    alloc: Global,
    i: &[u8],
) -> IResult<&[u8], TlsExtension>
    ensures { GivesOrMemory view
        (tagged extension_number.signature_algorithms content.signature_algorithms) i.now result }
{
    tagged! { i, SignatureAlgorithms, parse_tls_extension_signature_algorithms_content, alloc }
}

/// Reads the flag encrypt_then_mac (type 22; RFC 7366, section 2), whose content is empty.
///
/// - `Error` of kind `Tag` if the type differs.
/// - `Incomplete` with the number of missing bytes if the extension is incomplete.
/// - `Error` of kind `Verify` if the content isn't empty.
pub fn parse_tls_extension_encrypt_then_mac(i: &[u8]) -> IResult<&[u8], TlsExtension>
    ensures { Gives view (tagged extension_number.encrypt_then_mac content.encrypt_then_mac)
        i.now result }
{
    tagged! { i, EncryptThenMac, encrypt_then_mac_content }
}

/// Reads the flag extended_master_secret (type 23; RFC 7627, section 5.1), whose content is empty.
///
/// - `Error` of kind `Tag` if the type differs.
/// - `Incomplete` with the number of missing bytes if the extension is incomplete.
/// - `Error` of kind `Verify` if the content isn't empty.
pub fn parse_tls_extension_extended_master_secret(i: &[u8]) -> IResult<&[u8], TlsExtension>
    ensures { Gives view
        (tagged extension_number.extended_master_secret content.extended_master_secret)
        i.now result }
{
    tagged! { i, ExtendedMasterSecret, extended_master_secret_content }
}

/// Reads a session ticket (type 35; RFC 5077, section 3.2): the whole content.
///
/// - `Error` of kind `Tag` if the type differs.
/// - `Incomplete` with the number of missing bytes if the extension is incomplete.
pub fn parse_tls_extension_session_ticket(i: &[u8]) -> IResult<&[u8], TlsExtension>
    ensures { Gives view (tagged extension_number.session_ticket content.session_ticket)
        i.now result }
{
    tagged! { i, SessionTicketTLS, session_ticket_content }
}

/// Reads key shares (type 51; RFC 8446, section 4.2.8): the whole content, as bytes.
///
/// - `Error` of kind `Tag` if the type differs.
/// - `Incomplete` with the number of missing bytes if the extension is incomplete.
pub fn parse_tls_extension_key_share(i: &[u8]) -> IResult<&[u8], TlsExtension>
    ensures { Gives view (tagged extension_number.key_share content.key_share) i.now result }
{
    tagged! { i, KeyShare, key_share_content }
}

/// Reads pre-shared keys (type 41; RFC 8446, section 4.2.11): the whole content, as bytes.
///
/// - `Error` of kind `Tag` if the type differs.
/// - `Incomplete` with the number of missing bytes if the extension is incomplete.
pub fn parse_tls_extension_pre_shared_key(i: &[u8]) -> IResult<&[u8], TlsExtension>
    ensures { Gives view (tagged extension_number.pre_shared_key content.pre_shared_key)
        i.now result }
{
    tagged! { i, PreSharedKey, pre_shared_key_content }
}

/// Reads early data (type 42; RFC 8446, section 4.2.10). An empty content is `None`; else it has 4
/// bytes, the maximum size of early data in bytes.
///
/// - `Error` of kind `Tag` if the type differs.
/// - `Incomplete` with the number of missing bytes if the extension is incomplete.
/// - `Incomplete` with the number of missing bytes if the content has 1, 2 or 3.
pub fn parse_tls_extension_early_data(i: &[u8]) -> IResult<&[u8], TlsExtension>
    ensures { Gives view (tagged extension_number.early_data content.early_data) i.now result }
{
    tagged! { i, EarlyData, early_data_content }
}

/// Reads the supported versions (type 43; RFC 8446, section 4.2.1). A content of 2 bytes is one
/// version. Else it has 1 byte of length, which isn't checked, then versions of 2 bytes each. In
/// TLS 1.3 the version in use is the one that a server selects here, and not the `version` of a
/// hello.
///
/// - `Error` of kind `Tag` if the type differs.
/// - `Incomplete` with the number of missing bytes if the extension is incomplete.
/// - `Incomplete(1)` if the content is empty.
/// - `Error` of kind `LengthValue` if an odd number of bytes follows the length.
/// - `OutOfMemory` if the list can't be allocated.
pub fn parse_tls_extension_supported_versions(
    alloc: Global,
    i: &[u8],
) -> IResult<&[u8], TlsExtension>
    ensures { GivesOrMemory view
        (tagged extension_number.supported_versions content.supported_versions) i.now result }
{
    tagged! { i, SupportedVersions, supported_versions_content, alloc }
}

/// Reads a cookie (type 44; RFC 8446, section 4.2.2): the whole content, as bytes.
///
/// - `Error` of kind `Tag` if the type differs.
/// - `Incomplete` with the number of missing bytes if the extension is incomplete.
pub fn parse_tls_extension_cookie(i: &[u8]) -> IResult<&[u8], TlsExtension>
    ensures { Gives view (tagged extension_number.cookie content.cookie) i.now result }
{
    tagged! { i, Cookie, cookie_content }
}

/// Reads the modes of pre-shared keys (type 45; RFC 8446, section 4.2.9). The content is read as by
/// [`crate::parse_tls_extension_psk_key_exchange_modes_content`].
///
/// - `Error` of kind `Tag` if the type differs.
/// - `Incomplete` with the number of missing bytes if the extension is incomplete.
/// - The refusals of the content, and `OutOfMemory` if the list can't be allocated.
pub fn parse_tls_extension_psk_key_exchange_modes(
    alloc: Global,
    i: &[u8],
) -> IResult<&[u8], TlsExtension>
    ensures { GivesOrMemory view
        (tagged extension_number.psk_key_exchange_modes content.psk_key_exchange_modes)
        i.now result }
{
    tagged! { i, PskExchangeModes, parse_tls_extension_psk_key_exchange_modes_content, alloc }
}

/// Reads the heartbeat mode, which states who may send heartbeats (type 15; RFC 6520, section 2): a
/// content of 1 byte.
///
/// - `Error` of kind `Tag` if the type differs.
/// - `Error` of kind `Verify` if the length isn't 1, before the content is read.
/// - `Incomplete` with the number of missing bytes if the extension is incomplete.
#[tactic(auto, using(layouts::proofs::OneAnswerLemmas::read_allowed), unfolding(crate::specs::Tagged::tagged_heartbeat))]
pub fn parse_tls_extension_heartbeat(i: &[u8]) -> IResult<&[u8], TlsExtension>
    ensures { Gives view tagged_heartbeat i.now result }
{
    let (i, _) = parsed!(tag(i, TlsExtensionType::Heartbeat.0));
    let (i, n) = parsed!(number2(i));
    if n != 1 {
        return Err(Err::Error(Error {
            input: i,
            code: ErrorKind::Verify,
        }));
    }
    let (rest, content) = parsed!(block(i, 1));
    within(rest, parse_tls_extension_heartbeat_content(content))
}

/// Reads an extension of any type as `Unknown` (RFC 8446, section 4.2): 2 bytes of type, 2 bytes of
/// length, and that many bytes.
///
/// `Incomplete` with the number of missing bytes.
#[tactic(auto, using(layouts::proofs::OneAnswerLemmas::read_allowed), unfolding(crate::specs::Tagged::unknown))]
pub fn parse_tls_extension_unknown(i: &[u8]) -> IResult<&[u8], TlsExtension>
    ensures { Gives view unknown i.now result }
{
    let (i, kind) = parsed!(TlsExtensionType::parse(i));
    let (i, content) = parsed!(counted2(i));
    Ok((i, TlsExtension::Unknown(kind, content)))
}
