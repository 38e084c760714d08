//! Name attributes that X.520 defines, from 2.5.4.32 on.

use super::{Object, objects};

/// Name attributes that X.520 defines, from 2.5.4.32 on.
#[rattlefmt::skip]
pub(crate) static FURTHER_DIRECTORY_ATTRIBUTES: &[Object] = objects!(
    b"\x55\x04\x20" "owner" "owner", // 2.5.4.32
    b"\x55\x04\x21" "roleOccupant" "roleOccupant", // 2.5.4.33
    b"\x55\x04\x22" "seeAlso" "seeAlso", // 2.5.4.34
    b"\x55\x04\x23" "userPassword" "userPassword", // 2.5.4.35
    b"\x55\x04\x24" "userCertificate" "userCertificate", // 2.5.4.36
    b"\x55\x04\x25" "cACertificate" "cACertificate", // 2.5.4.37
    b"\x55\x04\x26" "authorityRevocationList" "authorityRevocationList", // 2.5.4.38
    b"\x55\x04\x27" "certificateRevocationList" "certificateRevocationList", // 2.5.4.39
    b"\x55\x04\x28" "crossCertificatePair" "crossCertificatePair", // 2.5.4.40
    b"\x55\x04\x29" "name" "name", // 2.5.4.41
    b"\x55\x04\x2a" "GN" "givenName", // 2.5.4.42
    b"\x55\x04\x2b" "initials" "initials", // 2.5.4.43
    b"\x55\x04\x2c" "generationQualifier" "generationQualifier", // 2.5.4.44
    b"\x55\x04\x2d" "x500UniqueIdentifier" "x500UniqueIdentifier", // 2.5.4.45
    b"\x55\x04\x2e" "dnQualifier" "dnQualifier", // 2.5.4.46
    b"\x55\x04\x2f" "enhancedSearchGuide" "enhancedSearchGuide", // 2.5.4.47
    b"\x55\x04\x30" "protocolInformation" "protocolInformation", // 2.5.4.48
    b"\x55\x04\x31" "distinguishedName" "distinguishedName", // 2.5.4.49
    b"\x55\x04\x32" "uniqueMember" "uniqueMember", // 2.5.4.50
    b"\x55\x04\x33" "houseIdentifier" "houseIdentifier", // 2.5.4.51
    b"\x55\x04\x34" "supportedAlgorithms" "supportedAlgorithms", // 2.5.4.52
    b"\x55\x04\x35" "deltaRevocationList" "deltaRevocationList", // 2.5.4.53
    b"\x55\x04\x36" "dmdName" "dmdName", // 2.5.4.54
    b"\x55\x04\x41" "pseudonym" "pseudonym", // 2.5.4.65
    b"\x55\x04\x48" "role" "role", // 2.5.4.72
    b"\x55\x04\x61" "organizationIdentifier" "organizationIdentifier", // 2.5.4.97
    b"\x55\x04\x62" "c3" "countryCode3c", // 2.5.4.98
    b"\x55\x04\x63" "n3" "countryCode3n", // 2.5.4.99
    b"\x55\x04\x64" "dnsName" "dnsName" // 2.5.4.100
);
