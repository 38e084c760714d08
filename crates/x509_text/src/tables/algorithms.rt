//! Algorithms of keys and of signatures (RFC 3279, RFC 4055, RFC 5758, RFC 8410).

use super::{Object, objects};

/// Algorithms of keys and of signatures (RFC 3279, RFC 4055, RFC 5758, RFC 8410).
#[rattlefmt::skip]
pub(crate) static ALGORITHMS: &[Object] = objects!(
    b"\x2a\x86\x48\x86\xf7\x0d\x01\x01\x01" "rsaEncryption" "rsaEncryption", // 1.2.840.113549.1.1.1
    b"\x2a\x86\x48\x86\xf7\x0d\x01\x01\x02" "RSA-MD2" "md2WithRSAEncryption",
        // 1.2.840.113549.1.1.2
    b"\x2a\x86\x48\x86\xf7\x0d\x01\x01\x03" "RSA-MD4" "md4WithRSAEncryption",
        // 1.2.840.113549.1.1.3
    b"\x2a\x86\x48\x86\xf7\x0d\x01\x01\x04" "RSA-MD5" "md5WithRSAEncryption",
        // 1.2.840.113549.1.1.4
    b"\x2a\x86\x48\x86\xf7\x0d\x01\x01\x05" "RSA-SHA1" "sha1WithRSAEncryption",
        // 1.2.840.113549.1.1.5
    b"\x2a\x86\x48\x86\xf7\x0d\x01\x01\x07" "RSAES-OAEP" "rsaesOaep", // 1.2.840.113549.1.1.7
    b"\x2a\x86\x48\x86\xf7\x0d\x01\x01\x0a" "RSASSA-PSS" "rsassaPss", // 1.2.840.113549.1.1.10
    b"\x2a\x86\x48\x86\xf7\x0d\x01\x01\x0b" "RSA-SHA256" "sha256WithRSAEncryption",
        // 1.2.840.113549.1.1.11
    b"\x2a\x86\x48\x86\xf7\x0d\x01\x01\x0c" "RSA-SHA384" "sha384WithRSAEncryption",
        // 1.2.840.113549.1.1.12
    b"\x2a\x86\x48\x86\xf7\x0d\x01\x01\x0d" "RSA-SHA512" "sha512WithRSAEncryption",
        // 1.2.840.113549.1.1.13
    b"\x2a\x86\x48\x86\xf7\x0d\x01\x01\x0e" "RSA-SHA224" "sha224WithRSAEncryption",
        // 1.2.840.113549.1.1.14
    b"\x2a\x86\x48\x86\xf7\x0d\x01\x01\x0f" "RSA-SHA512/224" "sha512-224WithRSAEncryption",
        // 1.2.840.113549.1.1.15
    b"\x2a\x86\x48\x86\xf7\x0d\x01\x01\x10" "RSA-SHA512/256" "sha512-256WithRSAEncryption",
        // 1.2.840.113549.1.1.16
    b"\x2a\x86\x48\x86\xf7\x0d\x01\x03\x01" "dhKeyAgreement" "dhKeyAgreement",
        // 1.2.840.113549.1.3.1
    b"\x2a\x86\x48\xce\x3e\x02\x01" "dhpublicnumber" "X9.42 DH", // 1.2.840.10046.2.1
    b"\x2a\x86\x48\xce\x38\x04\x01" "DSA" "dsaEncryption", // 1.2.840.10040.4.1
    b"\x2a\x86\x48\xce\x38\x04\x03" "DSA-SHA1" "dsaWithSHA1", // 1.2.840.10040.4.3
    b"\x2a\x86\x48\xce\x3d\x02\x01" "id-ecPublicKey" "id-ecPublicKey", // 1.2.840.10045.2.1
    b"\x2a\x86\x48\xce\x3d\x04\x01" "ecdsa-with-SHA1" "ecdsa-with-SHA1", // 1.2.840.10045.4.1
    b"\x2a\x86\x48\xce\x3d\x04\x02" "ecdsa-with-Recommended" "ecdsa-with-Recommended",
        // 1.2.840.10045.4.2
    b"\x2a\x86\x48\xce\x3d\x04\x03" "ecdsa-with-Specified" "ecdsa-with-Specified",
        // 1.2.840.10045.4.3
    b"\x2a\x86\x48\xce\x3d\x04\x03\x01" "ecdsa-with-SHA224" "ecdsa-with-SHA224",
        // 1.2.840.10045.4.3.1
    b"\x2a\x86\x48\xce\x3d\x04\x03\x02" "ecdsa-with-SHA256" "ecdsa-with-SHA256",
        // 1.2.840.10045.4.3.2
    b"\x2a\x86\x48\xce\x3d\x04\x03\x03" "ecdsa-with-SHA384" "ecdsa-with-SHA384",
        // 1.2.840.10045.4.3.3
    b"\x2a\x86\x48\xce\x3d\x04\x03\x04" "ecdsa-with-SHA512" "ecdsa-with-SHA512",
        // 1.2.840.10045.4.3.4
    b"\x2b\x0e\x03\x02\x03" "RSA-NP-MD5" "md5WithRSA", // 1.3.14.3.2.3
    b"\x2b\x0e\x03\x02\x0c" "DSA-old" "dsaEncryption-old", // 1.3.14.3.2.12
    b"\x2b\x0e\x03\x02\x0d" "DSA-SHA" "dsaWithSHA", // 1.3.14.3.2.13
    b"\x2b\x0e\x03\x02\x0f" "RSA-SHA" "shaWithRSAEncryption", // 1.3.14.3.2.15
    b"\x2b\x0e\x03\x02\x1b" "DSA-SHA1-old" "dsaWithSHA1-old", // 1.3.14.3.2.27
    b"\x2b\x0e\x03\x02\x1d" "RSA-SHA1-2" "sha1WithRSA", // 1.3.14.3.2.29
    b"\x2b\x24\x03\x03\x01\x02" "RSA-RIPEMD160" "ripemd160WithRSA", // 1.3.36.3.3.1.2
    b"\x2b\x65\x6e" "X25519" "X25519", // 1.3.101.110
    b"\x2b\x65\x6f" "X448" "X448", // 1.3.101.111
    b"\x2b\x65\x70" "ED25519" "ED25519", // 1.3.101.112
    b"\x2b\x65\x71" "ED448" "ED448", // 1.3.101.113
    b"\x55\x08\x01\x01" "RSA" "rsa" // 2.5.8.1.1
);
