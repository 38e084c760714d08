//! Extensions of certificates (RFC 5280, section 4.2; RFC 6962, section 3.3).

use super::{Object, objects};

/// Extensions of certificates (RFC 5280, section 4.2; RFC 6962, section 3.3).
#[rattlefmt::skip]
pub(crate) static EXTENSIONS: &[Object] = objects!(
    b"\x55\x1d\x09" "subjectDirectoryAttributes" "X509v3 Subject Directory Attributes", // 2.5.29.9
    b"\x55\x1d\x0e" "subjectKeyIdentifier" "X509v3 Subject Key Identifier", // 2.5.29.14
    b"\x55\x1d\x0f" "keyUsage" "X509v3 Key Usage", // 2.5.29.15
    b"\x55\x1d\x10" "privateKeyUsagePeriod" "X509v3 Private Key Usage Period", // 2.5.29.16
    b"\x55\x1d\x11" "subjectAltName" "X509v3 Subject Alternative Name", // 2.5.29.17
    b"\x55\x1d\x12" "issuerAltName" "X509v3 Issuer Alternative Name", // 2.5.29.18
    b"\x55\x1d\x13" "basicConstraints" "X509v3 Basic Constraints", // 2.5.29.19
    b"\x55\x1d\x1e" "nameConstraints" "X509v3 Name Constraints", // 2.5.29.30
    b"\x55\x1d\x1f" "crlDistributionPoints" "X509v3 CRL Distribution Points", // 2.5.29.31
    b"\x55\x1d\x20" "certificatePolicies" "X509v3 Certificate Policies", // 2.5.29.32
    b"\x55\x1d\x21" "policyMappings" "X509v3 Policy Mappings", // 2.5.29.33
    b"\x55\x1d\x23" "authorityKeyIdentifier" "X509v3 Authority Key Identifier", // 2.5.29.35
    b"\x55\x1d\x24" "policyConstraints" "X509v3 Policy Constraints", // 2.5.29.36
    b"\x55\x1d\x25" "extendedKeyUsage" "X509v3 Extended Key Usage", // 2.5.29.37
    b"\x55\x1d\x2e" "freshestCRL" "X509v3 Freshest CRL", // 2.5.29.46
    b"\x55\x1d\x36" "inhibitAnyPolicy" "X509v3 Inhibit Any Policy", // 2.5.29.54
    b"\x2b\x06\x01\x05\x05\x07\x01\x01" "authorityInfoAccess" "Authority Information Access",
        // 1.3.6.1.5.5.7.1.1
    b"\x2b\x06\x01\x05\x05\x07\x01\x0b" "subjectInfoAccess" "Subject Information Access",
        // 1.3.6.1.5.5.7.1.11
    b"\x2b\x06\x01\x05\x05\x07\x01\x18" "tlsfeature" "TLS Feature", // 1.3.6.1.5.5.7.1.24
    b"\x2b\x06\x01\x04\x01\xd6\x79\x02\x04\x02" "ct_precert_scts" "CT Precertificate SCTs",
        // 1.3.6.1.4.1.11129.2.4.2
    b"\x2b\x06\x01\x04\x01\xd6\x79\x02\x04\x03" "ct_precert_poison" "CT Precertificate Poison",
        // 1.3.6.1.4.1.11129.2.4.3
    b"\x2b\x06\x01\x04\x01\xd6\x79\x02\x04\x05" "ct_cert_scts" "CT Certificate SCTs",
        // 1.3.6.1.4.1.11129.2.4.5
    b"\x60\x86\x48\x01\x86\xf8\x42\x01\x01" "nsCertType" "Netscape Cert Type",
        // 2.16.840.1.113730.1.1
    b"\x60\x86\x48\x01\x86\xf8\x42\x01\x0d" "nsComment" "Netscape Comment" // 2.16.840.1.113730.1.13
);
