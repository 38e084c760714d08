//! The fields of a hello's extensions; none if the extension is missing or refused.
ghost use Rattle.std.specs.Prelude.{◌≡◌, IfOk, map};
ghost use Rattle.std.specs.Option.{option_map};
ghost use Rattle.layouts.specs.Items.{items_in, returned};
ghost use Rattle.layouts.specs.Layout.{counted, number};
ghost use Rattle.layouts.specs.Reading.{reading};
ghost use Rattle.layouts.specs.Text.{held};
ghost use Rattle.tls_key_exchange.specs.Timestamp.{serialized_timestamp};
ghost use Rattle.tls_ext.specs.Content.{server_name};
ghost use Rattle.tls_ext.specs.Extension.{view_server_name};
ghost use Rattle.tls_ext.specs.InPlace.{key_share_entry};
ghost use Rattle.tls_ext.specs.Offered.{known as known_by};
ghost use Rattle.tls_summary.specs.Hellos.{count_of, group_of, has_bytes, host_among, modes_in, names_in, others_among, protocols_in, shares_in, timestamps_in, value_in, versions_in};

use layouts::{Counted1, Err, Error, Items, number4};
use std::alloc::{AllocError, Global};
use tls_base::{NamedGroup, SNIType, TlsExtensionType, TlsVersion};
use tls_ext::offered::{content, none};
use tls_ext::{
    KeyShareEntry, ServerName, application_protocols, extensions, first_content, key_shares,
    psk_key_exchange_modes, server_names, supported_versions,
};
use tls_key_exchange::{SignedCertificateTimestamp, certificate_timestamps};

/// The value of an answer; `None` if it is a refusal.
pub(crate) fn known<T: Drop>(answer: Result<Option<T>, Err<Error<&[u8]>>>) -> Option<T>
    ensures { result ≡ known_by (returned (λ v. v) answer.entry) }
{
    match answer {
        Ok(value) => value,
        Err(_) => None,
    }
}

/// Whether there is a content, and it isn't empty.
pub(crate) fn is_filled(content: Option<&[u8]>) -> bool
    ensures { result ≡ has_bytes (option_map (λ x. x.now) content.entry) }
{
    match content {
        Some(bytes) => !bytes.is_empty(),
        None => false,
    }
}

/// The names in the first server_name.
pub(crate) fn names<'a>(ext: Option<&'a [u8]>) -> Items<'a, ServerName>
    ensures { items_in server_name result.bytes.now ≡ names_in
        (held (option_map (λ x. x.now) ext.entry)) }
{
    let Ok(Some(content)) = first_content(extensions(ext), TlsExtensionType::ServerName) else {
        return none::<ServerName>();
    };
    match server_names(content) {
        Ok((_, names)) => names,
        Err(_) => none::<ServerName>(),
    }
}

/// The first of the names whose type is host_name.
pub(crate) fn host_name<'a>(names: Items<'a, ServerName>) -> Option<&'a [u8]>
    ensures { option_map (λ x. x.now) result ≡ host_among
        (items_in server_name names.entry.bytes.now) }
{
    for (kind, name) in names {
        if kind == SNIType::HostName {
            return Some(name);
        }
    }
    None
}

/// The names of other types, each with its type. `AllocError` if there is no memory for them.
pub(crate) fn other_names<'a>(
    alloc: Global,
    names: Items<'a, ServerName>,
) -> Result<Vec<(SNIType, &'a [u8])>, AllocError>
    ensures { IfOk result
        (λ v. map view_server_name v.items ≡ others_among
        (items_in server_name names.entry.bytes.now)) }
{
    let mut others = Vec::new(alloc);
    for (kind, name) in names {
        if kind != SNIType::HostName {
            others.push((kind, name))?;
        }
    }
    Ok(others)
}

/// The versions in the first supported_versions.
pub(crate) fn versions<'a>(ext: Option<&'a [u8]>) -> Items<'a, TlsVersion>
    ensures { items_in (number 2) result.bytes.now ≡ versions_in
        (held (option_map (λ x. x.now) ext.entry)) }
{
    let Ok(Some(content)) = first_content(extensions(ext), TlsExtensionType::SupportedVersions)
    else {
        return none::<TlsVersion>();
    };
    match supported_versions(content) {
        Ok((_, versions)) => versions,
        Err(_) => none::<TlsVersion>(),
    }
}

/// The modes in the first psk_key_exchange_modes, one a byte.
pub(crate) fn modes<'a>(ext: Option<&'a [u8]>) -> &'a [u8]
    ensures { result.now ≡ modes_in (held (option_map (λ x. x.now) ext.entry)) }
{
    let Ok(Some(content)) = first_content(extensions(ext), TlsExtensionType::PskExchangeModes)
    else {
        return &[];
    };
    match psk_key_exchange_modes(content) {
        Ok((_, modes)) => modes,
        Err(_) => &[],
    }
}

/// The names in the first application_layer_protocol_negotiation.
pub(crate) fn protocols<'a>(ext: Option<&'a [u8]>) -> Items<'a, Counted1>
    ensures { items_in (counted 1) result.bytes.now ≡ protocols_in
        (held (option_map (λ x. x.now) ext.entry)) }
{
    match application_protocols(ext) {
        Ok(Some(names)) => names,
        Ok(None) | Err(_) => none::<Counted1>(),
    }
}

/// The key shares in a client's first key_share.
pub(crate) fn shares<'a>(ext: Option<&'a [u8]>) -> Items<'a, KeyShareEntry<'a>>
    ensures { items_in key_share_entry result.bytes.now ≡ shares_in
        (held (option_map (λ x. x.now) ext.entry)) }
{
    let Some(content) = content(ext, TlsExtensionType::KeyShare) else {
        return none::<KeyShareEntry>();
    };
    match key_shares(content) {
        Ok((_, shares)) => shares,
        Err(_) => none::<KeyShareEntry>(),
    }
}

/// The group of a server's key share.
pub(crate) fn group_of_share(share: Option<&[u8]>) -> Option<NamedGroup>
    ensures { option_map (λ g. g.0) result ≡ group_of (option_map (λ x. x.now) share.entry) }
{
    match NamedGroup::parse(share?) {
        Ok((_, group)) => Some(group),
        Err(_) => None,
    }
}

/// The number in the first 4 bytes; `None` if there are fewer.
pub(crate) fn first_number(bytes: &[u8]) -> Option<u32>
    ensures { result ≡ value_in (reading (number 4) bytes.now) }
{
    match number4(bytes) {
        Ok((_, number)) => Some(number),
        Err(_) => None,
    }
}

/// The timestamps in a server's first signed_certificate_timestamp.
pub(crate) fn timestamps<'a>(ext: Option<&'a [u8]>) -> Items<'a, SignedCertificateTimestamp<'a>>
    ensures { items_in serialized_timestamp result.bytes.now ≡ timestamps_in
        (held (option_map (λ x. x.now) ext.entry)) }
{
    let Some(content) = content(ext, TlsExtensionType::SignedCertificateTimestamp) else {
        return none::<SignedCertificateTimestamp>();
    };
    match certificate_timestamps(content) {
        Ok((_, timestamps)) => timestamps,
        Err(_) => none::<SignedCertificateTimestamp>(),
    }
}

/// How many timestamps there are, saturating.
pub(crate) fn count<'a>(timestamps: Items<'a, SignedCertificateTimestamp<'a>>) -> u64
    ensures { result ≡ count_of (items_in serialized_timestamp timestamps.entry.bytes.now) }
{
    let mut count: u64 = 0;
    for timestamp in timestamps {
        count = count.saturating_add(1);
    }
    count
}
