//! Elliptic curves of SEC 2 and X9.62.

use super::{Object, objects};

/// Elliptic curves of SEC 2 and X9.62.
#[rattlefmt::skip]
pub(crate) static CURVES: &[Object] = objects!(
    b"\x2a\x86\x48\xce\x3d\x03\x01\x01" "prime192v1" "prime192v1", // 1.2.840.10045.3.1.1
    b"\x2a\x86\x48\xce\x3d\x03\x01\x02" "prime192v2" "prime192v2", // 1.2.840.10045.3.1.2
    b"\x2a\x86\x48\xce\x3d\x03\x01\x03" "prime192v3" "prime192v3", // 1.2.840.10045.3.1.3
    b"\x2a\x86\x48\xce\x3d\x03\x01\x04" "prime239v1" "prime239v1", // 1.2.840.10045.3.1.4
    b"\x2a\x86\x48\xce\x3d\x03\x01\x05" "prime239v2" "prime239v2", // 1.2.840.10045.3.1.5
    b"\x2a\x86\x48\xce\x3d\x03\x01\x06" "prime239v3" "prime239v3", // 1.2.840.10045.3.1.6
    b"\x2a\x86\x48\xce\x3d\x03\x01\x07" "prime256v1" "prime256v1", // 1.2.840.10045.3.1.7
    b"\x2b\x81\x04\x00\x01" "sect163k1" "sect163k1", // 1.3.132.0.1
    b"\x2b\x81\x04\x00\x02" "sect163r1" "sect163r1", // 1.3.132.0.2
    b"\x2b\x81\x04\x00\x03" "sect239k1" "sect239k1", // 1.3.132.0.3
    b"\x2b\x81\x04\x00\x04" "sect113r1" "sect113r1", // 1.3.132.0.4
    b"\x2b\x81\x04\x00\x05" "sect113r2" "sect113r2", // 1.3.132.0.5
    b"\x2b\x81\x04\x00\x06" "secp112r1" "secp112r1", // 1.3.132.0.6
    b"\x2b\x81\x04\x00\x07" "secp112r2" "secp112r2", // 1.3.132.0.7
    b"\x2b\x81\x04\x00\x08" "secp160r1" "secp160r1", // 1.3.132.0.8
    b"\x2b\x81\x04\x00\x09" "secp160k1" "secp160k1", // 1.3.132.0.9
    b"\x2b\x81\x04\x00\x0a" "secp256k1" "secp256k1", // 1.3.132.0.10
    b"\x2b\x81\x04\x00\x0f" "sect163r2" "sect163r2", // 1.3.132.0.15
    b"\x2b\x81\x04\x00\x10" "sect283k1" "sect283k1", // 1.3.132.0.16
    b"\x2b\x81\x04\x00\x11" "sect283r1" "sect283r1", // 1.3.132.0.17
    b"\x2b\x81\x04\x00\x16" "sect131r1" "sect131r1", // 1.3.132.0.22
    b"\x2b\x81\x04\x00\x17" "sect131r2" "sect131r2", // 1.3.132.0.23
    b"\x2b\x81\x04\x00\x18" "sect193r1" "sect193r1", // 1.3.132.0.24
    b"\x2b\x81\x04\x00\x19" "sect193r2" "sect193r2", // 1.3.132.0.25
    b"\x2b\x81\x04\x00\x1a" "sect233k1" "sect233k1", // 1.3.132.0.26
    b"\x2b\x81\x04\x00\x1b" "sect233r1" "sect233r1", // 1.3.132.0.27
    b"\x2b\x81\x04\x00\x1c" "secp128r1" "secp128r1", // 1.3.132.0.28
    b"\x2b\x81\x04\x00\x1d" "secp128r2" "secp128r2", // 1.3.132.0.29
    b"\x2b\x81\x04\x00\x1e" "secp160r2" "secp160r2", // 1.3.132.0.30
    b"\x2b\x81\x04\x00\x1f" "secp192k1" "secp192k1", // 1.3.132.0.31
    b"\x2b\x81\x04\x00\x20" "secp224k1" "secp224k1", // 1.3.132.0.32
    b"\x2b\x81\x04\x00\x21" "secp224r1" "secp224r1", // 1.3.132.0.33
    b"\x2b\x81\x04\x00\x22" "secp384r1" "secp384r1", // 1.3.132.0.34
    b"\x2b\x81\x04\x00\x23" "secp521r1" "secp521r1", // 1.3.132.0.35
    b"\x2b\x81\x04\x00\x24" "sect409k1" "sect409k1", // 1.3.132.0.36
    b"\x2b\x81\x04\x00\x25" "sect409r1" "sect409r1", // 1.3.132.0.37
    b"\x2b\x81\x04\x00\x26" "sect571k1" "sect571k1", // 1.3.132.0.38
    b"\x2b\x81\x04\x00\x27" "sect571r1" "sect571r1" // 1.3.132.0.39
);
