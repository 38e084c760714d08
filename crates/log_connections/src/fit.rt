//! Whether the hellos of both sides fit each other.
ghost use Rattle.std.specs.Prelude.{◌≡◌};
ghost use Rattle.std.specs.Option.{option_map};
ghost use Rattle.layouts.specs.Items.{items_in};
ghost use Rattle.layouts.specs.Layout.{number};
ghost use Rattle.tls_summary.specs.HandshakeSummary.{view_summary};
ghost use Rattle.log_connections.specs.Fit.{are_same as are_same_of, do_hellos_fit as fit, is_among, offers_suite as offers_suite_of, offers_version as offers_version_of};

use layouts::Items;
use tls_base::{TlsCipherSuiteID, TlsVersion};
use tls_summary::HandshakeSummary;

/// Returns whether a version is one of these.
fn is_version_among(version: TlsVersion, versions: Items<'_, TlsVersion>) -> bool
    ensures { result ≡ is_among version.0 (items_in (number 2) versions.entry.bytes.now) }
{
    for other in versions {
        if other == version {
            return true;
        }
    }
    false
}

/// Returns whether a cipher suite is one of these.
fn is_suite_among(suite: TlsCipherSuiteID, suites: Items<'_, TlsCipherSuiteID>) -> bool
    ensures { result ≡ is_among suite.0 (items_in (number 2) suites.entry.bytes.now) }
{
    for other in suites {
        if other == suite {
            return true;
        }
    }
    false
}

/// Returns whether a version is one of supported_versions, or, without that extension, at most the
/// one in the ClientHello.
fn offers_version(
    most: Option<TlsVersion>,
    versions: Items<'_, TlsVersion>,
    chosen: Option<TlsVersion>,
) -> bool
    ensures { result ≡ offers_version_of (option_map (λ v. v.0) most)
        (items_in (number 2) versions.entry.bytes.now) (option_map (λ v. v.0) chosen) }
{
    let (Some(most), Some(chosen)) = (most, chosen) else {
        return false;
    };
    if versions.len() == 0 {
        return chosen.0 <= most.0;
    }
    is_version_among(chosen, versions)
}

/// Returns whether a cipher suite is one of these.
fn offers_suite(suites: Items<'_, TlsCipherSuiteID>, chosen: Option<TlsCipherSuiteID>) -> bool
    ensures { result ≡ offers_suite_of (items_in (number 2) suites.entry.bytes.now)
        (option_map (λ c. c.0) chosen) }
{
    match chosen {
        Some(suite) => is_suite_among(suite, suites),
        None => false,
    }
}

/// Returns whether there are two session IDs, and they are the same.
fn are_same(client: Option<&[u8]>, server: Option<&[u8]>) -> bool
    ensures { result ≡ are_same_of (option_map (λ x. x.now) client.entry)
        (option_map (λ x. x.now) server.entry) }
{
    match (client, server) {
        (Some(id), Some(other)) => id == other,
        _ => false,
    }
}

/// Returns whether the server chose a version that the client offers, and a cipher suite or a
/// session of its; also if one of the hellos lacks.
pub(crate) fn do_hellos_fit(handshake: &HandshakeSummary) -> bool
    ensures { result ≡ fit (view_summary handshake.now) }
{
    let (Some(_), Some(_)) = (&handshake.client, &handshake.server) else {
        return true;
    };
    let version = handshake.version();
    if !offers_version(
        handshake.client_version(),
        handshake.client_versions(),
        version,
    ) {
        return false;
    }
    offers_suite(handshake.client_ciphers(), handshake.cipher())
        || are_same(handshake.client_session_id(), handshake.server_session_id())
}
