//! Contents of extensions by type.
ghost use Rattle.std.specs.Prelude.{IfOk, IfSome, ◌∷◌, []};
ghost use Rattle.tls_json.specs.Outline.{Shows, HasNames, ReadsAs};
ghost use Rattle.tls_json.specs.Extensions.{filter_fields, share_fields};
ghost use Rattle.tls_json.specs.Extensions as names_of;

use crate::json::{ParsedValue, Value};
use crate::offers;
use crate::table::{Table, Values, single};
use crate::text::{blob, blobs, code_text, codes, escaped, numbers};
use crate::timestamps::timestamp_list;
use layouts::{Counted1, Counted2, IResult, InPlace, Items, counted1, counted2};
use std::alloc::{AllocError, Global};
use tls_base::{NamedGroup, TlsExtensionType, TlsVersion};
use tls_ext::{
    KeyShareEntry, OidFilter, TlsExtension, ec_point_formats, key_shares, oid_filters,
    parse_tls_extension_encrypted_server_name, protocol_names, psk_key_exchange_modes,
    server_names, signature_algorithms, supported_groups,
};
use tls_summary::{DELEGATED_CREDENTIAL, ENCRYPTED_CLIENT_HELLO};

/// compress_certificate (RFC 8879, section 7.1), for which `tls_base` has no constant.
const COMPRESS_CERTIFICATE: TlsExtensionType = TlsExtensionType(27);

/// connection_id (RFC 9146, section 10.1), for which `tls_base` has no constant.
const CONNECTION_ID: TlsExtensionType = TlsExtensionType(54);

/// Who sent an extension.
#[derive(Clone, Copy)]
pub enum Sender {
    /// A client, in its ClientHello.
    Client,
    /// A server, in its answer.
    Server,
}

/// Returns a list if it can be parsed whole and ends with its extension.
fn whole<'a, T: InPlace<'a>>(answer: IResult<&'a [u8], Items<'a, T>>) -> Option<Items<'a, T>> {
    match answer {
        Ok(([], list)) if list.rest().is_empty() => Some(list),
        _ => None,
    }
}

/// Returns bytes if they end with their extension.
fn whole_bytes<'a>(answer: IResult<&'a [u8], &'a [u8]>) -> Option<&'a [u8]> {
    match answer {
        Ok(([], bytes)) => Some(bytes),
        _ => None,
    }
}

/// Returns the list in these bytes if it can be parsed whole and ends with its extension.
fn whole_list<'a, T: InPlace<'a>>(answer: IResult<&'a [u8], &'a [u8]>) -> Option<Items<'a, T>> {
    match whole_bytes(answer) {
        Some(bytes) => whole(Ok((&[], Items::new(bytes)))),
        None => None,
    }
}

/// Writes a ServerName (RFC 6066, section 3).
fn server_name(alloc: Global, name_type: u8, host_name: &[u8]) -> Result<Value, AllocError>
    ensures { IfOk result (HasNames names_of.server_name) }
{
    Table::new(alloc)
        .decimal("name_type", u64::from(name_type))
        .add("host_name", escaped(alloc, host_name))
        .finish()
}

/// Parses server_name (RFC 6066, section 3).
fn server_name_list(alloc: Global, content: &[u8]) -> ParsedValue
    ensures { IfSome result (ReadsAs names_of.server_name_list) }
{
    let list = whole(server_names(content))?;
    let mut names = Values::new(alloc);
    for (name_type, host_name) in list {
        names = names.add(server_name(alloc, name_type.0, host_name));
    }
    Some(single(alloc, "server_name_list", names.finish()))
}

/// Parses a client's status_request (RFC 6066, section 8).
fn status_request(alloc: Global, content: &[u8]) -> ParsedValue
    ensures { IfSome result (ReadsAs names_of.status_request) }
{
    let [status_type, request @ ..] = content else {
        return None;
    };
    Some(
        Table::new(alloc)
            .decimal("status_type", u64::from(*status_type))
            .bytes("request", request)
            .finish(),
    )
}

/// Parses supported_groups (RFC 8446, section 4.2.7).
fn named_group_list(alloc: Global, content: &[u8]) -> ParsedValue
    ensures { IfSome result (ReadsAs names_of.supported_groups) }
{
    let list = whole(supported_groups(content))?;
    Some(single(alloc, "named_group_list", numbers(alloc, list.bytes())))
}

/// Parses ec_point_formats (RFC 8422, section 5.1.2).
fn point_format_list(alloc: Global, content: &[u8]) -> ParsedValue
    ensures { IfSome result (ReadsAs names_of.ec_point_formats) }
{
    let formats = whole_bytes(ec_point_formats(content))?;
    Some(single(alloc, "ec_point_format_list", codes(alloc, formats)))
}

/// Parses signature_algorithms or signature_algorithms_cert (RFC 8446, section 4.2.3).
fn schemes(alloc: Global, content: &[u8]) -> ParsedValue
    ensures { IfSome result (ReadsAs names_of.signature_algorithms) }
{
    let list = whole(signature_algorithms(content))?;
    Some(single(
        alloc,
        "supported_signature_algorithms",
        numbers(alloc, list.bytes()),
    ))
}

/// Parses application_layer_protocol_negotiation (RFC 7301, section 3.1).
fn protocol_name_list(alloc: Global, content: &[u8]) -> ParsedValue
    ensures { IfSome result (ReadsAs names_of.protocol_names) }
{
    let list = whole::<Counted1>(protocol_names(content))?;
    let mut names = Values::new(alloc);
    for protocol in list {
        names = names.add(escaped(alloc, protocol));
    }
    Some(single(alloc, "protocol_name_list", names.finish()))
}

/// Parses certificate_authorities (RFC 8446, section 4.2.4).
fn authorities(alloc: Global, content: &[u8]) -> ParsedValue
    ensures { IfSome result (ReadsAs names_of.certificate_authorities) }
{
    let list = whole_list::<Counted2>(counted2(content))?;
    Some(single(alloc, "authorities", blobs(alloc, list)))
}

/// Parses a client's supported_versions (RFC 8446, section 4.2.1).
fn offered_versions(alloc: Global, content: &[u8]) -> ParsedValue
    ensures { IfSome result (ReadsAs names_of.offered_versions) }
{
    let list = whole_list::<TlsVersion>(counted1(content))?;
    Some(single(alloc, "versions", numbers(alloc, list.bytes())))
}

/// Parses a content that is one number of 2 bytes, which is written as `0x0304`.
fn single_code(alloc: Global, name: &'static str, content: &[u8]) -> ParsedValue
    ensures { IfSome result (ReadsAs (name.now ∷ [])) }
{
    let [upper, lower] = content else {
        return None;
    };
    let code = u16::from_be_bytes([*upper, *lower]);
    Some(single(alloc, name, code_text(alloc, code)))
}

/// Parses cookie (RFC 8446, section 4.2.2).
fn cookie(alloc: Global, content: &[u8]) -> ParsedValue
    ensures { IfSome result (ReadsAs names_of.cookie) }
{
    let cookie = whole_bytes(counted2(content))?;
    Some(single(alloc, "cookie", blob(alloc, cookie)))
}

/// Parses psk_key_exchange_modes (RFC 8446, section 4.2.9).
fn key_exchange_modes(alloc: Global, content: &[u8]) -> ParsedValue
    ensures { IfSome result (ReadsAs names_of.psk_key_exchange_modes) }
{
    let modes = whole_bytes(psk_key_exchange_modes(content))?;
    Some(single(alloc, "ke_modes", codes(alloc, modes)))
}

/// Writes an OIDFilter (RFC 8446, section 4.2.5).
fn filter_of(alloc: Global, filter: &OidFilter<'_>) -> Result<Value, AllocError>
    ensures { IfOk result (Shows (filter_fields filter.now)) }
{
    Table::new(alloc)
        .bytes("certificate_extension_oid", filter.cert_ext_oid)
        .bytes("certificate_extension_values", filter.cert_ext_val)
        .finish()
}

/// Parses oid_filters (RFC 8446, section 4.2.5).
fn filters(alloc: Global, content: &[u8]) -> ParsedValue
    ensures { IfSome result (ReadsAs names_of.oid_filters) }
{
    let list = whole::<OidFilter>(oid_filters(content))?;
    let mut all = Values::new(alloc);
    for filter in list {
        all = all.add(filter_of(alloc, &filter));
    }
    Some(single(alloc, "filters", all.finish()))
}

/// Writes a KeyShareEntry (RFC 8446, section 4.2.8).
fn share_of(alloc: Global, group: NamedGroup, key_exchange: &[u8]) -> Result<Value, AllocError>
    ensures { IfOk result (Shows (share_fields group.0 key_exchange.now)) }
{
    Table::new(alloc)
        .hexadecimal("group", group.0)
        .bytes("key_exchange", key_exchange)
        .finish()
}

/// Parses a client's key_share (RFC 8446, section 4.2.8).
fn client_shares(alloc: Global, content: &[u8]) -> ParsedValue
    ensures { IfSome result (ReadsAs names_of.client_shares) }
{
    let list = whole(key_shares(content))?;
    let mut all = Values::new(alloc);
    for share in list {
        all = all.add(share_of(alloc, share.group, share.kx));
    }
    Some(single(alloc, "client_shares", all.finish()))
}

/// Parses a server's key share (RFC 8446, section 4.2.8).
fn server_share(alloc: Global, content: &[u8]) -> ParsedValue
    ensures { IfSome result (ReadsAs names_of.server_share) }
{
    match KeyShareEntry::read(content) {
        Ok(([], share)) => {
            let share = share_of(alloc, share.group, share.kx);
            Some(single(alloc, "server_share", share))
        }
        _ => None,
    }
}

/// Parses a server's key_share. In a HelloRetryRequest it is only a group (RFC 8446, section
/// 4.2.8).
fn server_key_share(alloc: Global, content: &[u8]) -> ParsedValue {
    match content {
        [_, _] => single_code(alloc, "selected_group", content),
        _ => server_share(alloc, content),
    }
}

/// Parses renegotiation_info (RFC 5746, section 3.2).
fn renegotiation(alloc: Global, content: &[u8]) -> ParsedValue
    ensures { IfSome result (ReadsAs names_of.renegotiation_info) }
{
    let bytes = whole_bytes(counted1(content))?;
    Some(single(alloc, "renegotiated_connection", blob(alloc, bytes)))
}

/// Parses encrypted_server_name (draft-ietf-tls-esni-02, section 5).
fn encrypted_server_name(alloc: Global, content: &[u8]) -> ParsedValue
    ensures { IfSome result (ReadsAs names_of.encrypted_server_name) }
{
    let Ok(([], read)) = parse_tls_extension_encrypted_server_name(content) else {
        return None;
    };
    let TlsExtension::EncryptedServerName {
        ciphersuite,
        group,
        key_share,
        record_digest,
        encrypted_sni,
    } = read
    else {
        return None;
    };
    Some(
        Table::new(alloc)
            .hexadecimal("suite", ciphersuite.0)
            .add("key_share", share_of(alloc, group, key_share))
            .bytes("record_digest", record_digest)
            .bytes("encrypted_sni", encrypted_sni)
            .finish(),
    )
}

/// Writes heartbeat (RFC 6520, section 2).
fn heartbeat_mode(alloc: Global, mode: u8) -> Result<Value, AllocError>
    ensures { IfOk result (HasNames names_of.heartbeat) }
{
    single(alloc, "mode", Ok(Value::Number(u64::from(mode))))
}

/// Writes early_data of a NewSessionTicket (RFC 8446, section 4.2.10).
fn early_data(alloc: Global, max_size: u32) -> Result<Value, AllocError>
    ensures { IfOk result (HasNames names_of.early_data) }
{
    single(
        alloc,
        "max_early_data_size",
        Ok(Value::Number(u64::from(max_size))),
    )
}

/// Parses a content that is one number. max_fragment_length (RFC 6066, section 4) and
/// record_size_limit (RFC 8449, section 4) are numbers without a field.
fn of_number(alloc: Global, kind: TlsExtensionType, content: &[u8]) -> ParsedValue {
    match (kind, content) {
        (TlsExtensionType::MaxFragmentLength, [code]) => {
            Some(Ok(Value::Number(u64::from(*code))))
        }
        (TlsExtensionType::Heartbeat, [mode]) => Some(heartbeat_mode(alloc, *mode)),
        (TlsExtensionType::RecordSizeLimit, [upper, lower]) => {
            let limit = u16::from_be_bytes([*upper, *lower]);
            Some(Ok(Value::Number(u64::from(limit))))
        }
        (TlsExtensionType::EarlyData, [first, second, third, fourth]) => {
            let max_size = u32::from_be_bytes([*first, *second, *third, *fourth]);
            Some(early_data(alloc, max_size))
        }
        _ => None,
    }
}

/// Parses a content whose form depends on its sender.
fn of_sender(alloc: Global, sender: Sender, kind: TlsExtensionType, content: &[u8]) -> ParsedValue {
    match (kind, sender) {
        (TlsExtensionType::SupportedVersions, Sender::Client) => offered_versions(alloc, content),
        (TlsExtensionType::SupportedVersions, Sender::Server) => single_code(
            alloc,
            "selected_version",
            content,
        ),
        (TlsExtensionType::KeyShare, Sender::Client) => client_shares(alloc, content),
        (TlsExtensionType::KeyShare, Sender::Server) => server_key_share(alloc, content),
        (TlsExtensionType::PreSharedKey, Sender::Client) => offers::offered_psks(alloc, content),
        (TlsExtensionType::PreSharedKey, Sender::Server) => offers::selected_psk(alloc, content),
        (DELEGATED_CREDENTIAL, Sender::Client) => schemes(alloc, content),
        (ENCRYPTED_CLIENT_HELLO, Sender::Client) => offers::encrypted_hello(alloc, content),
        _ => of_number(alloc, kind, content),
    }
}

fn read(alloc: Global, sender: Sender, kind: TlsExtensionType, content: &[u8]) -> ParsedValue {
    match kind {
        TlsExtensionType::ServerName if !content.is_empty() => server_name_list(alloc, content),
        TlsExtensionType::StatusRequest => status_request(alloc, content),
        TlsExtensionType::SupportedGroups => named_group_list(alloc, content),
        TlsExtensionType::EcPointFormats => point_format_list(alloc, content),
        TlsExtensionType::SignatureAlgorithms | TlsExtensionType::SigAlgorithmsCert => {
            schemes(alloc, content)
        }
        TlsExtensionType::ApplicationLayerProtocolNegotiation => {
            protocol_name_list(alloc, content)
        }
        TlsExtensionType::SignedCertificateTimestamp => timestamp_list(alloc, content),
        TlsExtensionType::Cookie => cookie(alloc, content),
        TlsExtensionType::PskExchangeModes => key_exchange_modes(alloc, content),
        TlsExtensionType::CertificateAuthorities => authorities(alloc, content),
        TlsExtensionType::OidFilters => filters(alloc, content),
        TlsExtensionType::UseSrtp => offers::srtp_profiles(alloc, content),
        COMPRESS_CERTIFICATE => offers::compressions(alloc, content),
        CONNECTION_ID => offers::connection_id(alloc, content),
        TlsExtensionType::RenegotiationInfo => renegotiation(alloc, content),
        TlsExtensionType::EncryptedServerName => encrypted_server_name(alloc, content),
        _ => of_sender(alloc, sender, kind, content),
    }
}

/// Writes the content of an extension by its type: its fields, or its bytes if it has none or can't
/// be parsed to its end.
pub fn content_of(
    alloc: Global,
    sender: Sender,
    kind: TlsExtensionType,
    content: &[u8],
) -> Result<Value, AllocError> {
    match read(alloc, sender, kind, content) {
        Some(data) => data,
        None => blob(alloc, content),
    }
}
