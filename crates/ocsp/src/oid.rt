//! Object identifiers of OCSP and of certificate transparency.

use der::ObjectIdentifier;

/// id-pkix-ocsp-basic: 1.3.6.1.5.5.7.48.1.1 (RFC 6960, section 4.2.1).
pub const BASIC: ObjectIdentifier = ObjectIdentifier {
    content: &[0x2b, 0x06, 0x01, 0x05, 0x05, 0x07, 0x30, 0x01, 0x01],
};

/// Timestamps in a certificate: 1.3.6.1.4.1.11129.2.4.2 (RFC 6962, section 3.3).
pub const CERTIFICATE_TIMESTAMPS: ObjectIdentifier = ObjectIdentifier {
    content: &[0x2b, 0x06, 0x01, 0x04, 0x01, 0xd6, 0x79, 0x02, 0x04, 0x02],
};

/// Timestamps in an OCSP response: 1.3.6.1.4.1.11129.2.4.5 (RFC 6962, section 3.3).
pub const OCSP_TIMESTAMPS: ObjectIdentifier = ObjectIdentifier {
    content: &[0x2b, 0x06, 0x01, 0x04, 0x01, 0xd6, 0x79, 0x02, 0x04, 0x05],
};
