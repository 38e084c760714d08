//! Object identifiers of algorithms, extensions and key purposes.

use der::ObjectIdentifier;

/// rsaEncryption: 1.2.840.113549.1.1.1 (RFC 3279, section 2.3.1).
pub const RSA_ENCRYPTION: ObjectIdentifier = ObjectIdentifier {
    content: &[0x2a, 0x86, 0x48, 0x86, 0xf7, 0x0d, 0x01, 0x01, 0x01],
};

/// id-RSASSA-PSS: 1.2.840.113549.1.1.10 (RFC 4055, section 3).
pub const RSASSA_PSS: ObjectIdentifier = ObjectIdentifier {
    content: &[0x2a, 0x86, 0x48, 0x86, 0xf7, 0x0d, 0x01, 0x01, 0x0a],
};

/// id-ecPublicKey: 1.2.840.10045.2.1 (RFC 5480, section 2.1.1).
pub const EC_PUBLIC_KEY: ObjectIdentifier = ObjectIdentifier {
    content: &[0x2a, 0x86, 0x48, 0xce, 0x3d, 0x02, 0x01],
};

/// id-Ed25519: 1.3.101.112 (RFC 8410, section 3).
pub const ED25519: ObjectIdentifier = ObjectIdentifier {
    content: &[0x2b, 0x65, 0x70],
};

/// id-Ed448: 1.3.101.113 (RFC 8410, section 3).
pub const ED448: ObjectIdentifier = ObjectIdentifier {
    content: &[0x2b, 0x65, 0x71],
};

/// id-dsa: 1.2.840.10040.4.1 (RFC 3279, section 2.3.2).
pub const DSA: ObjectIdentifier = ObjectIdentifier {
    content: &[0x2a, 0x86, 0x48, 0xce, 0x38, 0x04, 0x01],
};

/// id-ce-subjectKeyIdentifier: 2.5.29.14 (RFC 5280, section 4.2.1.2).
pub const SUBJECT_KEY_IDENTIFIER: ObjectIdentifier = ObjectIdentifier {
    content: &[0x55, 0x1d, 0x0e],
};

/// id-ce-keyUsage: 2.5.29.15 (RFC 5280, section 4.2.1.3).
pub const KEY_USAGE: ObjectIdentifier = ObjectIdentifier {
    content: &[0x55, 0x1d, 0x0f],
};

/// id-ce-subjectAltName: 2.5.29.17 (RFC 5280, section 4.2.1.6).
pub const SUBJECT_ALT_NAME: ObjectIdentifier = ObjectIdentifier {
    content: &[0x55, 0x1d, 0x11],
};

/// id-ce-issuerAltName: 2.5.29.18 (RFC 5280, section 4.2.1.7).
pub const ISSUER_ALT_NAME: ObjectIdentifier = ObjectIdentifier {
    content: &[0x55, 0x1d, 0x12],
};

/// id-ce-basicConstraints: 2.5.29.19 (RFC 5280, section 4.2.1.9).
pub const BASIC_CONSTRAINTS: ObjectIdentifier = ObjectIdentifier {
    content: &[0x55, 0x1d, 0x13],
};

/// id-ce-certificatePolicies: 2.5.29.32 (RFC 5280, section 4.2.1.4).
pub const CERTIFICATE_POLICIES: ObjectIdentifier = ObjectIdentifier {
    content: &[0x55, 0x1d, 0x20],
};

/// id-ce-authorityKeyIdentifier: 2.5.29.35 (RFC 5280, section 4.2.1.1).
pub const AUTHORITY_KEY_IDENTIFIER: ObjectIdentifier = ObjectIdentifier {
    content: &[0x55, 0x1d, 0x23],
};

/// id-ce-extKeyUsage: 2.5.29.37 (RFC 5280, section 4.2.1.12).
pub const EXTENDED_KEY_USAGE: ObjectIdentifier = ObjectIdentifier {
    content: &[0x55, 0x1d, 0x25],
};

/// id-pe-authorityInfoAccess: 1.3.6.1.5.5.7.1.1 (RFC 5280, section 4.2.2.1, like the next two).
pub const AUTHORITY_INFO_ACCESS: ObjectIdentifier = ObjectIdentifier {
    content: &[0x2b, 0x06, 0x01, 0x05, 0x05, 0x07, 0x01, 0x01],
};

/// id-ad-ocsp: 1.3.6.1.5.5.7.48.1.
pub const OCSP: ObjectIdentifier = ObjectIdentifier {
    content: &[0x2b, 0x06, 0x01, 0x05, 0x05, 0x07, 0x30, 0x01],
};

/// id-ad-caIssuers: 1.3.6.1.5.5.7.48.2.
pub const CA_ISSUERS: ObjectIdentifier = ObjectIdentifier {
    content: &[0x2b, 0x06, 0x01, 0x05, 0x05, 0x07, 0x30, 0x02],
};

/// The userPrincipalName of an otherName: 1.3.6.1.4.1.311.20.2.3 (MS-WCCE, section 2.2.2.7.7.4).
pub const USER_PRINCIPAL_NAME: ObjectIdentifier = ObjectIdentifier {
    content: &[0x2b, 0x06, 0x01, 0x04, 0x01, 0x82, 0x37, 0x14, 0x02, 0x03],
};

/// anyExtendedKeyUsage: 2.5.29.37.0 (RFC 5280, section 4.2.1.12, like those that follow).
pub const ANY_EXTENDED_KEY_USAGE: ObjectIdentifier = ObjectIdentifier {
    content: &[0x55, 0x1d, 0x25, 0x00],
};

/// id-kp-serverAuth: 1.3.6.1.5.5.7.3.1.
pub const SERVER_AUTH: ObjectIdentifier = ObjectIdentifier {
    content: &[0x2b, 0x06, 0x01, 0x05, 0x05, 0x07, 0x03, 0x01],
};

/// id-kp-clientAuth: 1.3.6.1.5.5.7.3.2.
pub const CLIENT_AUTH: ObjectIdentifier = ObjectIdentifier {
    content: &[0x2b, 0x06, 0x01, 0x05, 0x05, 0x07, 0x03, 0x02],
};

/// id-kp-codeSigning: 1.3.6.1.5.5.7.3.3.
pub const CODE_SIGNING: ObjectIdentifier = ObjectIdentifier {
    content: &[0x2b, 0x06, 0x01, 0x05, 0x05, 0x07, 0x03, 0x03],
};

/// id-kp-emailProtection: 1.3.6.1.5.5.7.3.4.
pub const EMAIL_PROTECTION: ObjectIdentifier = ObjectIdentifier {
    content: &[0x2b, 0x06, 0x01, 0x05, 0x05, 0x07, 0x03, 0x04],
};

/// id-kp-timeStamping: 1.3.6.1.5.5.7.3.8.
pub const TIME_STAMPING: ObjectIdentifier = ObjectIdentifier {
    content: &[0x2b, 0x06, 0x01, 0x05, 0x05, 0x07, 0x03, 0x08],
};

/// id-kp-OCSPSigning: 1.3.6.1.5.5.7.3.9.
pub const OCSP_SIGNING: ObjectIdentifier = ObjectIdentifier {
    content: &[0x2b, 0x06, 0x01, 0x05, 0x05, 0x07, 0x03, 0x09],
};
