//! Properties of a hello that its extensions carry, one call each, from its `ext` (RFC 8446,
//! section 4.1.2).
//!
//! Each call finds the first extension of its type, at any position, and checks the content of no
//! other. If there is none and the walk ended before the end of the bytes, the call returns the
//! refusal of the extension that the walk ended at. So `None` means that all extensions were seen.
#![tactic(auto, using(layouts::proofs::OneAnswerLemmas::read_allowed))]

ghost use Rattle.std.specs.Prelude.{◌≡◌, IsTrue, ◌↔◌};
ghost use Rattle.std.specs.Option.{option_map};
ghost use Rattle.layouts.specs.Items.{Returns, items_in};
ghost use Rattle.layouts.specs.Layout.{counted, number};
ghost use Rattle.layouts.specs.Text.{held};
ghost use Rattle.tls_ext.specs.Dispatch.{is_grease as is_grease_number};
ghost use Rattle.tls_ext.specs.InPlace.{best_version as best_version_in, host_name, lateness as lateness_in, latest, protocol_names as protocol_names_in};

use crate::content_view::{protocol_names, server_names, supported_versions};
use crate::extension_view::{extensions, first_content};
use layouts::{Counted1, Err, Error, Items, parsed};
use tls_base::{TlsExtensionType, TlsVersion};

/// Returns the host name that a client requests (RFC 6066, section 3): the first name in the first
/// server_name extension.
///
/// `None` if there is no such extension, or it has no name. Refuses if the extension's content is
/// refused, or if there is no such extension and the extensions end with an incomplete one.
pub fn server_name<'a>(ext: Option<&'a [u8]>) -> Result<Option<&'a [u8]>, Err<Error<&'a [u8]>>>
    ensures { Returns (option_map (λ x. x.now))
        (host_name (held (option_map (λ x. x.now) ext.entry))) result }
{
    let Some(content) = first_content(extensions(ext), TlsExtensionType::ServerName)? else {
        return Ok(None);
    };
    let (_, mut names) = server_names(content)?;
    match names.next() {
        Some((_, name)) => Ok(Some(name)),
        None => Ok(None),
    }
}

/// Returns the protocols that a client offers, in its order, or the one that a server chose (RFC
/// 7301, section 3.1).
///
/// `None` if there is no such extension. Refuses if the extension's content is refused, or if there
/// is no such extension and the extensions end with an incomplete one.
pub fn application_protocols<'a>(
    ext: Option<&'a [u8]>,
) -> Result<Option<Items<'a, Counted1>>, Err<Error<&'a [u8]>>>
    ensures { Returns (option_map (λ v. items_in (counted 1) v.bytes.now))
        (protocol_names_in (held (option_map (λ x. x.now) ext.entry))) result }
{
    let kind = TlsExtensionType::ApplicationLayerProtocolNegotiation;
    let Some(content) = first_content(extensions(ext), kind)? else {
        return Ok(None);
    };
    let (_, names) = parsed!(protocol_names(content));
    Ok(Some(names))
}

/// Returns whether a number is reserved for GREASE (RFC 8701, section 2): each of its bytes ends in
/// the hexadecimal digit a.
fn is_grease(n: u16) -> bool
    ensures { result ≡ is_grease_number n }
{
    n & 0x0f0f == 0x0a0a
}

/// Returns the rank of a version: later versions have higher ranks. It is the version's number,
/// except for DTLS, where lower numbers are later (RFC 6347, section 4.1; RFC 9147, section 5.3).
fn lateness(version: TlsVersion) -> u16
    ensures { result ≡ lateness_in version.0 }
{
    match version.0 {
        number @ 0xfe00..=0xfeff => 0xfe00 + (0xfeff - number),
        number => number,
    }
}

/// Returns the latest of `versions` that isn't a GREASE number; `None` if there is none.
#[tactic(auto, using(crate::proofs::VersionLemmas::latest_end, crate::proofs::VersionLemmas::latest_grease, crate::proofs::VersionLemmas::latest_other, crate::proofs::VersionLemmas::known_stays, crate::proofs::VersionLemmas::next_is_better))]
fn latest_version(versions: Items<TlsVersion>) -> Option<TlsVersion>
    ensures { option_map (λ v. v.0) result ≡ latest (items_in (number 2) versions.entry.bytes.now) }
{
    let mut best: Option<TlsVersion> = None;
    for version in versions {
        if is_grease(version.0) {
            continue;
        }
        best = match best {
            Some(known) if lateness(version) < lateness(known) => Some(known),
            _ => Some(version),
        };
    }
    best
}

/// Returns the best version of a hello (RFC 8446, section 4.2.1): the latest in its extension
/// supported_versions, without GREASE numbers (RFC 8701, section 2). Without that extension it is
/// `version`, that of the hello itself. In a ServerHello it is the version that the server chose.
///
/// The higher number is the later version, but of two of DTLS, which begin with 0xfe, the lower one
/// (RFC 6347, section 4.1). A draft's number counts as any other.
///
/// `None` if the extension has no such version. Refuses if the extension's content is refused, or
/// if there is no such extension and the extensions end with an incomplete one.
pub fn best_version<'a>(
    version: TlsVersion,
    ext: Option<&'a [u8]>,
) -> Result<Option<TlsVersion>, Err<Error<&'a [u8]>>>
    ensures { Returns (option_map (λ v. v.0))
        (best_version_in version.0 (held (option_map (λ x. x.now) ext.entry))) result }
{
    let kind = TlsExtensionType::SupportedVersions;
    let Some(content) = first_content(extensions(ext), kind)? else {
        return Ok(Some(version));
    };
    let (_, versions) = parsed!(supported_versions(content));
    Ok(latest_version(versions))
}
