//! Elliptic curves of RFC 5639 and GM/T 0006.

use super::{Object, objects};

/// Elliptic curves of RFC 5639 and GM/T 0006.
#[rattlefmt::skip]
pub(crate) static FURTHER_CURVES: &[Object] = objects!(
    b"\x2b\x24\x03\x03\x02\x08\x01\x01\x01" "brainpoolP160r1" "brainpoolP160r1",
        // 1.3.36.3.3.2.8.1.1.1
    b"\x2b\x24\x03\x03\x02\x08\x01\x01\x02" "brainpoolP160t1" "brainpoolP160t1",
        // 1.3.36.3.3.2.8.1.1.2
    b"\x2b\x24\x03\x03\x02\x08\x01\x01\x03" "brainpoolP192r1" "brainpoolP192r1",
        // 1.3.36.3.3.2.8.1.1.3
    b"\x2b\x24\x03\x03\x02\x08\x01\x01\x04" "brainpoolP192t1" "brainpoolP192t1",
        // 1.3.36.3.3.2.8.1.1.4
    b"\x2b\x24\x03\x03\x02\x08\x01\x01\x05" "brainpoolP224r1" "brainpoolP224r1",
        // 1.3.36.3.3.2.8.1.1.5
    b"\x2b\x24\x03\x03\x02\x08\x01\x01\x06" "brainpoolP224t1" "brainpoolP224t1",
        // 1.3.36.3.3.2.8.1.1.6
    b"\x2b\x24\x03\x03\x02\x08\x01\x01\x07" "brainpoolP256r1" "brainpoolP256r1",
        // 1.3.36.3.3.2.8.1.1.7
    b"\x2b\x24\x03\x03\x02\x08\x01\x01\x08" "brainpoolP256t1" "brainpoolP256t1",
        // 1.3.36.3.3.2.8.1.1.8
    b"\x2b\x24\x03\x03\x02\x08\x01\x01\x09" "brainpoolP320r1" "brainpoolP320r1",
        // 1.3.36.3.3.2.8.1.1.9
    b"\x2b\x24\x03\x03\x02\x08\x01\x01\x0a" "brainpoolP320t1" "brainpoolP320t1",
        // 1.3.36.3.3.2.8.1.1.10
    b"\x2b\x24\x03\x03\x02\x08\x01\x01\x0b" "brainpoolP384r1" "brainpoolP384r1",
        // 1.3.36.3.3.2.8.1.1.11
    b"\x2b\x24\x03\x03\x02\x08\x01\x01\x0c" "brainpoolP384t1" "brainpoolP384t1",
        // 1.3.36.3.3.2.8.1.1.12
    b"\x2b\x24\x03\x03\x02\x08\x01\x01\x0d" "brainpoolP512r1" "brainpoolP512r1",
        // 1.3.36.3.3.2.8.1.1.13
    b"\x2b\x24\x03\x03\x02\x08\x01\x01\x0e" "brainpoolP512t1" "brainpoolP512t1",
        // 1.3.36.3.3.2.8.1.1.14
    b"\x2a\x81\x1c\xcf\x55\x01\x82\x2d" "SM2" "sm2" // 1.2.156.10197.1.301
);
