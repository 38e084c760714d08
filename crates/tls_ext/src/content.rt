//! Parses the contents of extensions: the bytes after an extension's type and length (RFC 8446,
//! section 4.2).
//!
//! Each call reads the start of its input and returns the rest. All numbers are big-endian. A list
//! or a block may be empty, even if the RFC has a lower bound on its length.
#![tactic(auto, using(layouts::proofs::OneAnswerLemmas::read_allowed))]

ghost use Rattle.std.specs.Prelude.{◌≤◌, length, Ok};
ghost use Rattle.layouts.specs.Answers.{Gives, GivesOrMemory};
ghost use Rattle.layouts.specs.Layout.{rest};
ghost use Rattle.tls_ext.specs.Extension.{OidFilter as OIDFilter, ServerName as ServerNameEntry};
ghost use Rattle.tls_ext.specs.Extension.{view_oid_filter, view_server_name, view};
ghost use Rattle.tls_ext.specs.Content as content;
ghost use Rattle.tls_ext.specs.Content.{server_name, oid_filter};

use crate::extension::{OidFilter, TlsExtension};
use layouts::{
    Counted1, ErrorKind, IResult, InPlace, Number2, Room, block, counted1, counted2, hops2, items,
    maybe2, number1, number2, number4, pairs, parsed, refused,
};
use std::alloc::Global;
use tls_base::{CertificateStatusType, NamedGroup, SNIType, TlsCipherSuiteID, TlsVersion};

/// Takes all bytes of a content, and leaves none. Never refuses.
#[tactic(auto, using(layouts::proofs::OneAnswerLemmas::read_allowed), unfolding(layouts::specs::Reading::split_at))]
#[inline(always)]
pub(crate) fn whole(i: &[u8]) -> (&[u8], &[u8])
    ensures { Gives (λ v. v.now) rest i.now (Ok result) }
{
    let (bytes, left) = i.split_at(i.len());
    (left, bytes)
}

/// Expands to an extension of this kind with all bytes of its content.
macro_rules! opaque {
    ($i:ident, $kind:ident) => {{
        let (i, bytes) = whole($i);
        Ok((i, TlsExtension::$kind(bytes)))
    }};
}

/// Expands to an extension of this kind, whose content must be empty: the extension is a flag.
macro_rules! empty {
    ($i:ident, $kind:ident) => {{
        if !$i.is_empty() {
            return refused($i, ErrorKind::Verify);
        }
        Ok(($i, TlsExtension::$kind))
    }};
}

/// Reads padding (RFC 7685, section 3): all bytes of `i`. Never refuses.
#[tactic(auto, using(layouts::proofs::OneAnswerLemmas::read_allowed), unfolding(crate::specs::Content::padding))]
pub(crate) fn padding_content(i: &[u8]) -> IResult<&[u8], TlsExtension>
    ensures { Gives view content.padding i.now result }
{
    opaque!(i, Padding)
}

/// Reads a session ticket (RFC 5077, section 3.2): all bytes of `i`. Never refuses.
#[tactic(auto, using(layouts::proofs::OneAnswerLemmas::read_allowed), unfolding(crate::specs::Content::session_ticket))]
pub(crate) fn session_ticket_content(i: &[u8]) -> IResult<&[u8], TlsExtension>
    ensures { Gives view content.session_ticket i.now result }
{
    opaque!(i, SessionTicket)
}

/// Reads key shares under their older number: all bytes of `i`. Never refuses.
#[tactic(auto, using(layouts::proofs::OneAnswerLemmas::read_allowed), unfolding(crate::specs::Content::key_share_old))]
pub(crate) fn key_share_old_content(i: &[u8]) -> IResult<&[u8], TlsExtension>
    ensures { Gives view content.key_share_old i.now result }
{
    opaque!(i, KeyShareOld)
}

/// Reads pre-shared keys (RFC 8446, section 4.2.11): all bytes of `i`. Never refuses.
#[tactic(auto, using(layouts::proofs::OneAnswerLemmas::read_allowed), unfolding(crate::specs::Content::pre_shared_key))]
pub(crate) fn pre_shared_key_content(i: &[u8]) -> IResult<&[u8], TlsExtension>
    ensures { Gives view content.pre_shared_key i.now result }
{
    opaque!(i, PreSharedKey)
}

/// Reads a cookie (RFC 8446, section 4.2.2): all bytes of `i`. Never refuses.
#[tactic(auto, using(layouts::proofs::OneAnswerLemmas::read_allowed), unfolding(crate::specs::Content::cookie))]
pub(crate) fn cookie_content(i: &[u8]) -> IResult<&[u8], TlsExtension>
    ensures { Gives view content.cookie i.now result }
{
    opaque!(i, Cookie)
}

/// Reads key shares (RFC 8446, section 4.2.8): all bytes of `i`. Never refuses.
#[tactic(auto, using(layouts::proofs::OneAnswerLemmas::read_allowed), unfolding(crate::specs::Content::key_share))]
pub(crate) fn key_share_content(i: &[u8]) -> IResult<&[u8], TlsExtension>
    ensures { Gives view content.key_share i.now result }
{
    opaque!(i, KeyShare)
}

/// Reads the flag encrypt_then_mac (RFC 7366, section 2). `Error` of kind `Verify` if `i` isn't
/// empty.
#[tactic(auto, using(layouts::proofs::OneAnswerLemmas::read_allowed), unfolding(crate::specs::Content::encrypt_then_mac))]
pub(crate) fn encrypt_then_mac_content(i: &[u8]) -> IResult<&[u8], TlsExtension>
    ensures { Gives view content.encrypt_then_mac i.now result }
{
    empty!(i, EncryptThenMac)
}

/// Reads the flag extended_master_secret (RFC 7627, section 5.1). `Error` of kind `Verify` if `i`
/// isn't empty.
#[tactic(auto, using(layouts::proofs::OneAnswerLemmas::read_allowed), unfolding(crate::specs::Content::extended_master_secret))]
pub(crate) fn extended_master_secret_content(i: &[u8]) -> IResult<&[u8], TlsExtension>
    ensures { Gives view content.extended_master_secret i.now result }
{
    empty!(i, ExtendedMasterSecret)
}

/// Reads the flag post_handshake_auth (RFC 8446, section 4.2.6). `Error` of kind `Verify` if `i`
/// isn't empty.
#[tactic(auto, using(layouts::proofs::OneAnswerLemmas::read_allowed), unfolding(crate::specs::Content::post_handshake_auth))]
pub(crate) fn post_handshake_auth_content(i: &[u8]) -> IResult<&[u8], TlsExtension>
    ensures { Gives view content.post_handshake_auth i.now result }
{
    empty!(i, PostHandshakeAuth)
}

/// Reads the flag next_protocol_negotiation (draft-agl-tls-nextprotoneg-04, section 3). `Error` of
/// kind `Verify` if `i` isn't empty.
#[tactic(auto, using(layouts::proofs::OneAnswerLemmas::read_allowed), unfolding(crate::specs::Content::next_protocol_negotiation))]
pub(crate) fn next_protocol_negotiation_content(i: &[u8]) -> IResult<&[u8], TlsExtension>
    ensures { Gives view content.next_protocol_negotiation i.now result }
{
    empty!(i, NextProtocolNegotiation)
}

/// Reads a server name (RFC 6066, section 3): 1 byte of type, 2 bytes of length, and that many
/// bytes.
///
/// `Incomplete` with the number of missing bytes.
#[tactic(auto, using(layouts::proofs::OneAnswerLemmas::read_allowed), unfolding(crate::specs::Content::server_name))]
pub fn parse_tls_extension_sni_hostname(i: &[u8]) -> IResult<&[u8], (SNIType, &[u8])>
    ensures { Gives view_server_name server_name i.now result }
{
    let (i, name_type) = parsed!(SNIType::parse(i));
    let (i, name) = parsed!(counted2(i));
    Ok((i, (name_type, name)))
}

/// Server names as items of a list: the type and the bytes of each (RFC 6066, section 3).
#[derive(Clone, Copy)]
pub struct ServerName;

impl<'a> InPlace<'a> for ServerName {
    type Read = (SNIType, &'a [u8]);

    ghost Value = { ServerNameEntry };

    ghost view = { view_server_name };

    ghost layout = { server_name };

    #[inline(always)]
    fn read(i: &'a [u8]) -> IResult<&'a [u8], (SNIType, &'a [u8])> {
        parse_tls_extension_sni_hostname(i)
    }
}

impl Room for ServerName {
    fn room(i: &[u8]) -> usize
        ensures { result ≤ length i.now }
    {
        hops2(i, 1)
    }
}

/// Reads the server names (RFC 6066, section 3): none if `i` is empty, else 2 bytes of length and
/// that many bytes of names. Each is read as by [`parse_tls_extension_sni_hostname`]. The list ends
/// before the first name that can't be read; the bytes from there are dropped.
///
/// - `Incomplete` with the bytes missing from the length, or else from the list.
/// - `OutOfMemory` if the list can't be allocated.
#[tactic(auto, using(layouts::proofs::OneAnswerLemmas::read_allowed), unfolding(crate::specs::Content::server_names))]
pub fn parse_tls_extension_sni_content(alloc: Global, i: &[u8]) -> IResult<&[u8], TlsExtension>
    ensures { GivesOrMemory view content.server_names i.now result }
{
    if i.is_empty() {
        return Ok((i, TlsExtension::SNI(Vec::new(alloc))));
    }
    let (i, window) = parsed!(counted2(i));
    let (_, names) = parsed!(items::<ServerName>(alloc, window));
    Ok((i, TlsExtension::SNI(names)))
}

/// Reads a maximum fragment length (RFC 6066, section 4), 1 byte of code.
///
/// `Incomplete(1)` if `i` is empty.
#[tactic(auto, using(layouts::proofs::OneAnswerLemmas::read_allowed), unfolding(crate::specs::Content::max_fragment_length))]
pub fn parse_tls_extension_max_fragment_length_content(i: &[u8]) -> IResult<&[u8], TlsExtension>
    ensures { Gives view content.max_fragment_length i.now result }
{
    let (i, code) = parsed!(number1(i));
    Ok((i, TlsExtension::MaxFragmentLength(code)))
}

/// Reads a status request (RFC 6066, section 8): `None` if `i` is empty, else 1 byte of status type
/// and all bytes after it.
///
/// Never refuses.
#[tactic(auto, using(layouts::proofs::OneAnswerLemmas::read_allowed), unfolding(crate::specs::Content::status_request))]
pub(crate) fn status_request_content(i: &[u8]) -> IResult<&[u8], TlsExtension>
    ensures { Gives view content.status_request i.now result }
{
    if i.is_empty() {
        return Ok((i, TlsExtension::StatusRequest(None)));
    }
    let (i, status_type) = parsed!(CertificateStatusType::parse(i));
    let (i, request) = whole(i);
    Ok((i, TlsExtension::StatusRequest(Some((status_type, request)))))
}

/// Reads the supported groups (RFC 8422, section 5.1.1; RFC 8446, section 4.2.7): 2 bytes of length
/// and that many bytes of groups, 2 bytes each.
///
/// - `Incomplete` with the bytes missing from the length, or else from the groups.
/// - `Error` of kind `LengthValue` if the length is odd.
/// - `OutOfMemory` if the list can't be allocated.
#[tactic(auto, using(layouts::proofs::OneAnswerLemmas::read_allowed), unfolding(crate::specs::Content::supported_groups))]
pub fn parse_tls_extension_elliptic_curves_content(
    alloc: Global,
    i: &[u8],
) -> IResult<&[u8], TlsExtension>
    ensures { GivesOrMemory view content.supported_groups i.now result }
{
    let (i, window) = parsed!(counted2(i));
    let (_, groups) = parsed!(pairs::<NamedGroup>(alloc, window));
    Ok((i, TlsExtension::EllipticCurves(groups)))
}

/// Reads the supported point formats (RFC 8422, section 5.1.2): 1 byte of length, and that many
/// bytes, one each.
///
/// `Incomplete` with the bytes missing from the length, or else from the formats.
#[tactic(auto, using(layouts::proofs::OneAnswerLemmas::read_allowed), unfolding(crate::specs::Content::ec_point_formats))]
pub fn parse_tls_extension_ec_point_formats_content(i: &[u8]) -> IResult<&[u8], TlsExtension>
    ensures { Gives view content.ec_point_formats i.now result }
{
    let (i, formats) = parsed!(counted1(i));
    Ok((i, TlsExtension::EcPointFormats(formats)))
}

/// Reads the signature algorithms (RFC 8446, section 4.2.3): 2 bytes of length and that many bytes
/// of numbers, 2 bytes each. An odd byte at the end is dropped.
///
/// - `Incomplete` with the bytes missing from the length, or else from the list.
/// - `OutOfMemory` if the list can't be allocated.
#[tactic(auto, using(layouts::proofs::ListLemmas::map_same, layouts::proofs::OneAnswerLemmas::read_allowed), unfolding(crate::specs::Content::signature_algorithms))]
pub fn parse_tls_extension_signature_algorithms_content(
    alloc: Global,
    i: &[u8],
) -> IResult<&[u8], TlsExtension>
    ensures { GivesOrMemory view content.signature_algorithms i.now result }
{
    let (i, window) = parsed!(counted2(i));
    let (_, algorithms) = parsed!(items::<Number2>(alloc, window));
    Ok((i, TlsExtension::SignatureAlgorithms(algorithms)))
}

/// Reads the heartbeat mode, which states who may send heartbeats (RFC 6520, section 2): 1 byte.
///
/// `Incomplete(1)` if `i` is empty.
#[tactic(auto, using(layouts::proofs::OneAnswerLemmas::read_allowed), unfolding(crate::specs::Content::heartbeat))]
pub fn parse_tls_extension_heartbeat_content(i: &[u8]) -> IResult<&[u8], TlsExtension>
    ensures { Gives view content.heartbeat i.now result }
{
    let (i, mode) = parsed!(number1(i));
    Ok((i, TlsExtension::Heartbeat(mode)))
}

/// Reads the application protocol names (RFC 7301, section 3.1): 2 bytes of length and that many
/// bytes of names, each after 1 byte of length. The list ends before the first incomplete name; the
/// bytes from there are dropped.
///
/// - `Incomplete` with the bytes missing from the length, or else from the list.
/// - `OutOfMemory` if the list can't be allocated.
#[tactic(auto, using(layouts::proofs::OneAnswerLemmas::read_allowed), unfolding(crate::specs::Content::application_layer_protocol_negotiation))]
pub fn parse_tls_extension_alpn_content(alloc: Global, i: &[u8]) -> IResult<&[u8], TlsExtension>
    ensures { GivesOrMemory view content.application_layer_protocol_negotiation i.now result }
{
    let (i, window) = parsed!(counted2(i));
    let (_, names) = parsed!(items::<Counted1>(alloc, window));
    Ok((i, TlsExtension::ALPN(names)))
}

/// Reads the list of certificate timestamps (RFC 6962, section 3.3.1) as bytes: 2 bytes of length
/// and that many bytes. If they are incomplete, returns `None` and consumes nothing.
///
/// Never refuses.
#[tactic(auto, using(layouts::proofs::OneAnswerLemmas::read_allowed), unfolding(crate::specs::Content::signed_certificate_timestamp))]
pub fn parse_tls_extension_signed_certificate_timestamp_content(
    i: &[u8],
) -> IResult<&[u8], TlsExtension>
    ensures { Gives view content.signed_certificate_timestamp i.now result }
{
    let (i, timestamps) = parsed!(maybe2(i));
    Ok((i, TlsExtension::SignedCertificateTimestamp(timestamps)))
}

/// Reads the record size limit, the maximum length of a record's content (RFC 8449, section 4): 2
/// bytes.
///
/// `Incomplete` with the number of missing bytes.
#[tactic(auto, using(layouts::proofs::OneAnswerLemmas::read_allowed), unfolding(crate::specs::Content::record_size_limit))]
pub(crate) fn record_size_limit_content(i: &[u8]) -> IResult<&[u8], TlsExtension>
    ensures { Gives view content.record_size_limit i.now result }
{
    let (i, limit) = parsed!(number2(i));
    Ok((i, TlsExtension::RecordSizeLimit(limit)))
}

/// Reads the maximum size of early data, in bytes (RFC 8446, section 4.2.10): `None` if `i` is
/// empty, else 4 bytes.
///
/// `Incomplete` with the number of missing bytes.
#[tactic(auto, using(layouts::proofs::OneAnswerLemmas::read_allowed), unfolding(crate::specs::Content::early_data))]
pub(crate) fn early_data_content(i: &[u8]) -> IResult<&[u8], TlsExtension>
    ensures { Gives view content.early_data i.now result }
{
    if i.is_empty() {
        return Ok((i, TlsExtension::EarlyData(None)));
    }
    let (i, size) = parsed!(number4(i));
    Ok((i, TlsExtension::EarlyData(Some(size))))
}

/// Reads the supported versions (RFC 8446, section 4.2.1). If `i` has 2 bytes, they are one
/// version. Else it has 1 byte of length, which isn't checked, and all bytes after it are versions
/// of 2 bytes each.
///
/// - `Incomplete(1)` if `i` is empty.
/// - `Error` of kind `LengthValue` if an odd number of bytes follows the length.
/// - `OutOfMemory` if the list can't be allocated.
#[tactic(auto, using(layouts::proofs::OneAnswerLemmas::read_allowed), unfolding(crate::specs::Content::supported_versions, layouts::specs::Reading::ignored_at))]
pub(crate) fn supported_versions_content(alloc: Global, i: &[u8]) -> IResult<&[u8], TlsExtension>
    ensures { GivesOrMemory view content.supported_versions i.now result }
{
    if i.len() == 2 {
        let (i, version) = parsed!(TlsVersion::parse(i));
        let mut versions = Vec::with_capacity(alloc, 1)?;
        versions.push_reserved(version);
        return Ok((i, TlsExtension::SupportedVersions(versions)));
    }
    let (i, _) = parsed!(block(i, 1));
    let (i, versions) = parsed!(pairs::<TlsVersion>(alloc, i));
    Ok((i, TlsExtension::SupportedVersions(versions)))
}

/// Reads the modes of pre-shared keys (RFC 8446, section 4.2.9): 1 byte of length and that many
/// modes, 1 byte each.
///
/// - `Incomplete` with the bytes missing from the length, or else from the modes.
/// - `OutOfMemory` if the list can't be allocated.
#[tactic(auto, using(layouts::proofs::OneAnswerLemmas::read_allowed), unfolding(crate::specs::Content::psk_key_exchange_modes))]
pub fn parse_tls_extension_psk_key_exchange_modes_content(
    alloc: Global,
    i: &[u8],
) -> IResult<&[u8], TlsExtension>
    ensures { GivesOrMemory view content.psk_key_exchange_modes i.now result }
{
    let (i, modes) = parsed!(counted1(i));
    let modes = Vec::from_slice(alloc, modes)?;
    Ok((i, TlsExtension::PskExchangeModes(modes)))
}

impl<'a> InPlace<'a> for OidFilter<'a> {
    type Read = Self;

    ghost Value = { OIDFilter };

    ghost view = { view_oid_filter };

    ghost layout = { oid_filter };

    #[tactic(auto, using(layouts::proofs::OneAnswerLemmas::read_allowed), unfolding(crate::specs::Content::oid_filter))]
    #[inline(always)]
    fn read(i: &'a [u8]) -> IResult<&'a [u8], Self> {
        let (i, cert_ext_oid) = parsed!(counted1(i));
        let (i, cert_ext_val) = parsed!(counted2(i));
        let filter = OidFilter {
            cert_ext_oid,
            cert_ext_val,
        };
        Ok((i, filter))
    }
}

impl Room for OidFilter<'_> {
    fn room(i: &[u8]) -> usize
        ensures { result ≤ length i.now }
    {
        i.len() / 8
    }
}

/// Reads the filters on certificate extensions (RFC 8446, section 4.2.5): 2 bytes of length and
/// that many bytes of filters. Each is an OID after 1 byte of length, and values after 2. The list
/// ends before the first incomplete filter; the bytes from there are dropped.
///
/// - `Incomplete` with the bytes missing from the length, or else from the list.
/// - `OutOfMemory` if the list can't be allocated.
#[tactic(auto, using(layouts::proofs::OneAnswerLemmas::read_allowed), unfolding(crate::specs::Content::oid_filters))]
pub(crate) fn oid_filters_content(alloc: Global, i: &[u8]) -> IResult<&[u8], TlsExtension>
    ensures { GivesOrMemory view content.oid_filters i.now result }
{
    let (i, window) = parsed!(counted2(i));
    let (_, filters) = parsed!(items::<OidFilter>(alloc, window));
    Ok((i, TlsExtension::OidFilters(filters)))
}

/// Reads the handshake data that a renegotiation is bound to (RFC 5746, section 3.2): 1 byte of
/// length and that many bytes.
///
/// `Incomplete` with the bytes missing from the length, or else from the data.
#[tactic(auto, using(layouts::proofs::OneAnswerLemmas::read_allowed), unfolding(crate::specs::Content::renegotiation_info))]
pub fn parse_tls_extension_renegotiation_info_content(i: &[u8]) -> IResult<&[u8], TlsExtension>
    ensures { Gives view content.renegotiation_info i.now result }
{
    let (i, bytes) = parsed!(counted1(i));
    Ok((i, TlsExtension::RenegotiationInfo(bytes)))
}

/// Reads an encrypted server name (draft-ietf-tls-esni-02, section 5): a cipher suite and a group,
/// 2 bytes each; then a key share, a digest and the encrypted name, each after 2 bytes of length.
///
/// `Incomplete` with the bytes missing from the first incomplete part.
// Always inlined: it is the one content of several fields that the compiler wouldn't inline, and as
// a call it would make every content go through its result's memory.
#[tactic(auto, using(layouts::proofs::OneAnswerLemmas::read_allowed), unfolding(crate::specs::Content::encrypted_server_name))]
#[inline(always)]
pub fn parse_tls_extension_encrypted_server_name(i: &[u8]) -> IResult<&[u8], TlsExtension>
    ensures { Gives view content.encrypted_server_name i.now result }
{
    let (i, ciphersuite) = parsed!(TlsCipherSuiteID::parse(i));
    let (i, group) = parsed!(NamedGroup::parse(i));
    let (i, key_share) = parsed!(counted2(i));
    let (i, record_digest) = parsed!(counted2(i));
    let (i, encrypted_sni) = parsed!(counted2(i));
    let extension = TlsExtension::EncryptedServerName {
        ciphersuite,
        group,
        key_share,
        record_digest,
        encrypted_sni,
    };
    Ok((i, extension))
}
