//! The names of versions.
ghost use Rattle.std.specs.Prelude.{◌≡◌};
ghost use Rattle.std.specs.Option.{option_map};
ghost use Rattle.tls_base.specs.Names.{look_up, names_of};
ghost use Rattle.log_formats.specs.Texts.{zeek_versions};

use tls_base::TlsVersion;

/// The number of DTLS 1.3 (RFC 9147, section 5.3).
const DTLS13: TlsVersion = TlsVersion(0xfefc);

/// Versions with their names in Suricata and in the Elastic Common Schema, which has the protocol's
/// name and the version.
static VERSIONS: [(TlsVersion, &str, (&str, &str)); 8] = [
    (TlsVersion::Ssl30, "SSLv3", ("ssl", "3.0")),
    (TlsVersion::Tls10, "TLSv1", ("tls", "1.0")),
    (TlsVersion::Tls11, "TLS 1.1", ("tls", "1.1")),
    (TlsVersion::Tls12, "TLS 1.2", ("tls", "1.2")),
    (TlsVersion::Tls13, "TLS 1.3", ("tls", "1.3")),
    (TlsVersion::DTls10, "DTLS 1.0", ("dtls", "1.0")),
    (TlsVersion::DTls12, "DTLS 1.2", ("dtls", "1.2")),
    (DTLS13, "DTLS 1.3", ("dtls", "1.3")),
];

/// Versions with their names in Zeek, then drafts of TLS 1.3: those of the IETF, and in Zeek's form
/// Facebook's and BoringSSL's.
static ZEEK_VERSIONS: &[(u16, &str)] = &[
    (TlsVersion::Ssl30.0, "SSLv3"),
    (TlsVersion::Tls10.0, "TLSv10"),
    (TlsVersion::Tls11.0, "TLSv11"),
    (TlsVersion::Tls12.0, "TLSv12"),
    (TlsVersion::Tls13.0, "TLSv13"),
    (TlsVersion::DTls10.0, "DTLSv10"),
    (TlsVersion::DTls12.0, "DTLSv12"),
    (DTLS13.0, "DTLSv13"),
    (0x7f0e, "TLSv13-draft14"),
    (0x7f0f, "TLSv13-draft15"),
    (0x7f10, "TLSv13-draft16"),
    (0x7f11, "TLSv13-draft17"),
    (0x7f12, "TLSv13-draft18"),
    (0x7f13, "TLSv13-draft19"),
    (0x7f14, "TLSv13-draft20"),
    (0x7f15, "TLSv13-draft21"),
    (0x7f16, "TLSv13-draft22"),
    (0x7f17, "TLSv13-draft23"),
    (0x7f18, "TLSv13-draft24"),
    (0x7f19, "TLSv13-draft25"),
    (0x7f1a, "TLSv13-draft26"),
    (0x7f1b, "TLSv13-draft27"),
    (0x7f1c, "TLSv13-draft28"),
    (0xfb17, "TLSv13-facebook23"),
    (0xfb1a, "TLSv13-facebook26"),
    (0x7e01, "TLSv13-boringssl1"),
    (0x7e02, "TLSv13-boringssl2"),
    (0x7e03, "TLSv13-boringssl3"),
];

/// Returns the name of `n` in a table.
fn find_name(table: &[(u16, &'static str)], n: u16) -> Option<&'static str>
    ensures { option_map (λ t. t.now) result ≡ look_up (names_of table.now) n }
{
    find_number(table, n)
}

/// Returns what a table has for `n`, in its first row with that number.
fn find_number<T: Copy>(table: &[(u16, T)], n: u16) -> Option<T>
    ensures { result ≡ look_up table.now n }
{
    table.iter().find(|row| row.0 == n).map(|row| row.1)
}

/// Returns Zeek's name of a version, or that of a draft of TLS 1.3.
#[tactic(auto, unfolding(crate::specs::Texts::zeek_versions))]
pub fn zeek_version(version: TlsVersion) -> Option<&'static str>
    ensures { option_map (λ t. t.now) result ≡ look_up zeek_versions version.0 }
{
    find_name(ZEEK_VERSIONS, version.0)
}

/// Returns Suricata's name of a version.
pub fn suricata_version(version: TlsVersion) -> Option<&'static str> {
    VERSIONS
        .iter()
        .find(|row| row.0 == version)
        .map(|row| row.1)
}

/// Returns the protocol's name and the version in the Elastic Common Schema.
pub fn ecs_version(version: TlsVersion) -> Option<(&'static str, &'static str)> {
    VERSIONS
        .iter()
        .find(|row| row.0 == version)
        .map(|row| row.2)
}
