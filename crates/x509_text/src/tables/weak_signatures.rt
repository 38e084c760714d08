//! Algorithms whose hash is MD2, MD4, MD5, SHA or SHA-1 (RFC 3279, section 2.2; OIW).

use super::{Algorithm, contents};

/// Signatures with such a hash.
#[rattlefmt::skip]
pub(crate) static WEAK_SIGNATURES: &[Algorithm] = contents!(
    b"\x2a\x86\x48\x86\xf7\x0d\x01\x01\x02", // md2WithRSAEncryption, 1.2.840.113549.1.1.2
    b"\x2a\x86\x48\x86\xf7\x0d\x01\x01\x03", // md4WithRSAEncryption, 1.2.840.113549.1.1.3
    b"\x2a\x86\x48\x86\xf7\x0d\x01\x01\x04", // md5WithRSAEncryption, 1.2.840.113549.1.1.4
    b"\x2a\x86\x48\x86\xf7\x0d\x01\x01\x05", // sha1WithRSAEncryption, 1.2.840.113549.1.1.5
    b"\x2a\x86\x48\xce\x38\x04\x03", // dsaWithSHA1, 1.2.840.10040.4.3
    b"\x2a\x86\x48\xce\x3d\x04\x01", // ecdsa-with-SHA1, 1.2.840.10045.4.1
    b"\x2b\x0e\x03\x02\x02", // md4WithRSA, 1.3.14.3.2.2
    b"\x2b\x0e\x03\x02\x03", // md5WithRSA, 1.3.14.3.2.3
    b"\x2b\x0e\x03\x02\x0d", // dsaWithSHA, 1.3.14.3.2.13
    b"\x2b\x0e\x03\x02\x0f", // shaWithRSAEncryption, 1.3.14.3.2.15
    b"\x2b\x0e\x03\x02\x1b", // dsaWithSHA1-old, 1.3.14.3.2.27
    b"\x2b\x0e\x03\x02\x1d" // sha1WithRSA, 1.3.14.3.2.29
);

/// These hashes.
#[rattlefmt::skip]
pub(crate) static WEAK_HASHES: &[Algorithm] = contents!(
    b"\x2a\x86\x48\x86\xf7\x0d\x02\x02", // md2, 1.2.840.113549.2.2
    b"\x2a\x86\x48\x86\xf7\x0d\x02\x04", // md4, 1.2.840.113549.2.4
    b"\x2a\x86\x48\x86\xf7\x0d\x02\x05", // md5, 1.2.840.113549.2.5
    b"\x2b\x0e\x03\x02\x12", // sha, 1.3.14.3.2.18
    b"\x2b\x0e\x03\x02\x1a" // sha1, 1.3.14.3.2.26
);
