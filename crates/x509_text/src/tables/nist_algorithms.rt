//! Algorithms of keys and of signatures below NIST's 2.16.840.1.101.3.4 (FIPS 186-4, RFC 9881, RFC
//! 9909, RFC 9935).

use super::{Object, objects};

/// Algorithms of keys and of signatures below NIST's 2.16.840.1.101.3.4 (FIPS 186-4, RFC 9881, RFC
/// 9909, RFC 9935).
#[rattlefmt::skip]
pub(crate) static NIST_ALGORITHMS: &[Object] = objects!(
    b"\x60\x86\x48\x01\x65\x03\x04\x03\x01" "dsa_with_SHA224" "dsa_with_SHA224",
        // 2.16.840.1.101.3.4.3.1
    b"\x60\x86\x48\x01\x65\x03\x04\x03\x02" "dsa_with_SHA256" "dsa_with_SHA256",
        // 2.16.840.1.101.3.4.3.2
    b"\x60\x86\x48\x01\x65\x03\x04\x03\x03" "id-dsa-with-sha384" "dsa_with_SHA384",
        // 2.16.840.1.101.3.4.3.3
    b"\x60\x86\x48\x01\x65\x03\x04\x03\x04" "id-dsa-with-sha512" "dsa_with_SHA512",
        // 2.16.840.1.101.3.4.3.4
    b"\x60\x86\x48\x01\x65\x03\x04\x03\x05" "id-dsa-with-sha3-224" "dsa_with_SHA3-224",
        // 2.16.840.1.101.3.4.3.5
    b"\x60\x86\x48\x01\x65\x03\x04\x03\x06" "id-dsa-with-sha3-256" "dsa_with_SHA3-256",
        // 2.16.840.1.101.3.4.3.6
    b"\x60\x86\x48\x01\x65\x03\x04\x03\x07" "id-dsa-with-sha3-384" "dsa_with_SHA3-384",
        // 2.16.840.1.101.3.4.3.7
    b"\x60\x86\x48\x01\x65\x03\x04\x03\x08" "id-dsa-with-sha3-512" "dsa_with_SHA3-512",
        // 2.16.840.1.101.3.4.3.8
    b"\x60\x86\x48\x01\x65\x03\x04\x03\x09" "id-ecdsa-with-sha3-224" "ecdsa_with_SHA3-224",
        // 2.16.840.1.101.3.4.3.9
    b"\x60\x86\x48\x01\x65\x03\x04\x03\x0a" "id-ecdsa-with-sha3-256" "ecdsa_with_SHA3-256",
        // 2.16.840.1.101.3.4.3.10
    b"\x60\x86\x48\x01\x65\x03\x04\x03\x0b" "id-ecdsa-with-sha3-384" "ecdsa_with_SHA3-384",
        // 2.16.840.1.101.3.4.3.11
    b"\x60\x86\x48\x01\x65\x03\x04\x03\x0c" "id-ecdsa-with-sha3-512" "ecdsa_with_SHA3-512",
        // 2.16.840.1.101.3.4.3.12
    b"\x60\x86\x48\x01\x65\x03\x04\x03\x0d" "id-rsassa-pkcs1-v1_5-with-sha3-224" "RSA-SHA3-224",
        // 2.16.840.1.101.3.4.3.13
    b"\x60\x86\x48\x01\x65\x03\x04\x03\x0e" "id-rsassa-pkcs1-v1_5-with-sha3-256" "RSA-SHA3-256",
        // 2.16.840.1.101.3.4.3.14
    b"\x60\x86\x48\x01\x65\x03\x04\x03\x0f" "id-rsassa-pkcs1-v1_5-with-sha3-384" "RSA-SHA3-384",
        // 2.16.840.1.101.3.4.3.15
    b"\x60\x86\x48\x01\x65\x03\x04\x03\x10" "id-rsassa-pkcs1-v1_5-with-sha3-512" "RSA-SHA3-512",
        // 2.16.840.1.101.3.4.3.16
    b"\x60\x86\x48\x01\x65\x03\x04\x03\x11" "id-ml-dsa-44" "ML-DSA-44", // 2.16.840.1.101.3.4.3.17
    b"\x60\x86\x48\x01\x65\x03\x04\x03\x12" "id-ml-dsa-65" "ML-DSA-65", // 2.16.840.1.101.3.4.3.18
    b"\x60\x86\x48\x01\x65\x03\x04\x03\x13" "id-ml-dsa-87" "ML-DSA-87", // 2.16.840.1.101.3.4.3.19
    b"\x60\x86\x48\x01\x65\x03\x04\x03\x14" "id-slh-dsa-sha2-128s" "SLH-DSA-SHA2-128s",
        // 2.16.840.1.101.3.4.3.20
    b"\x60\x86\x48\x01\x65\x03\x04\x03\x15" "id-slh-dsa-sha2-128f" "SLH-DSA-SHA2-128f",
        // 2.16.840.1.101.3.4.3.21
    b"\x60\x86\x48\x01\x65\x03\x04\x03\x16" "id-slh-dsa-sha2-192s" "SLH-DSA-SHA2-192s",
        // 2.16.840.1.101.3.4.3.22
    b"\x60\x86\x48\x01\x65\x03\x04\x03\x17" "id-slh-dsa-sha2-192f" "SLH-DSA-SHA2-192f",
        // 2.16.840.1.101.3.4.3.23
    b"\x60\x86\x48\x01\x65\x03\x04\x03\x18" "id-slh-dsa-sha2-256s" "SLH-DSA-SHA2-256s",
        // 2.16.840.1.101.3.4.3.24
    b"\x60\x86\x48\x01\x65\x03\x04\x03\x19" "id-slh-dsa-sha2-256f" "SLH-DSA-SHA2-256f",
        // 2.16.840.1.101.3.4.3.25
    b"\x60\x86\x48\x01\x65\x03\x04\x03\x1a" "id-slh-dsa-shake-128s" "SLH-DSA-SHAKE-128s",
        // 2.16.840.1.101.3.4.3.26
    b"\x60\x86\x48\x01\x65\x03\x04\x03\x1b" "id-slh-dsa-shake-128f" "SLH-DSA-SHAKE-128f",
        // 2.16.840.1.101.3.4.3.27
    b"\x60\x86\x48\x01\x65\x03\x04\x03\x1c" "id-slh-dsa-shake-192s" "SLH-DSA-SHAKE-192s",
        // 2.16.840.1.101.3.4.3.28
    b"\x60\x86\x48\x01\x65\x03\x04\x03\x1d" "id-slh-dsa-shake-192f" "SLH-DSA-SHAKE-192f",
        // 2.16.840.1.101.3.4.3.29
    b"\x60\x86\x48\x01\x65\x03\x04\x03\x1e" "id-slh-dsa-shake-256s" "SLH-DSA-SHAKE-256s",
        // 2.16.840.1.101.3.4.3.30
    b"\x60\x86\x48\x01\x65\x03\x04\x03\x1f" "id-slh-dsa-shake-256f" "SLH-DSA-SHAKE-256f",
        // 2.16.840.1.101.3.4.3.31
    b"\x60\x86\x48\x01\x65\x03\x04\x04\x01" "id-alg-ml-kem-512" "ML-KEM-512",
        // 2.16.840.1.101.3.4.4.1
    b"\x60\x86\x48\x01\x65\x03\x04\x04\x02" "id-alg-ml-kem-768" "ML-KEM-768",
        // 2.16.840.1.101.3.4.4.2
    b"\x60\x86\x48\x01\x65\x03\x04\x04\x03" "id-alg-ml-kem-1024" "ML-KEM-1024"
        // 2.16.840.1.101.3.4.4.3
);
