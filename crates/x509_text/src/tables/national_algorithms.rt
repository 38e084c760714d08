//! Chinese and Russian algorithms of keys and of signatures (GM/T 0006, RFC 9215).

use super::{Object, objects};

/// Chinese and Russian algorithms of keys and of signatures (GM/T 0006, RFC 9215).
#[rattlefmt::skip]
pub(crate) static NATIONAL_ALGORITHMS: &[Object] = objects!(
    b"\x2a\x81\x1c\xcf\x55\x01\x83\x75" "SM2-SM3" "SM2-with-SM3", // 1.2.156.10197.1.501
    b"\x2a\x81\x1c\xcf\x55\x01\x83\x78" "RSA-SM3" "sm3WithRSAEncryption", // 1.2.156.10197.1.504
    b"\x2a\x85\x03\x02\x02\x03" "id-GostR3411-94-with-GostR3410-2001"
        "GOST R 34.11-94 with GOST R 34.10-2001", // 1.2.643.2.2.3
    b"\x2a\x85\x03\x02\x02\x13" "gost2001" "GOST R 34.10-2001", // 1.2.643.2.2.19
    b"\x2a\x85\x03\x07\x01\x01\x01\x01" "gost2012_256" "GOST R 34.10-2012 with 256 bit modulus",
        // 1.2.643.7.1.1.1.1
    b"\x2a\x85\x03\x07\x01\x01\x01\x02" "gost2012_512" "GOST R 34.10-2012 with 512 bit modulus",
        // 1.2.643.7.1.1.1.2
    b"\x2a\x85\x03\x07\x01\x01\x03\x02" "id-tc26-signwithdigest-gost3410-2012-256"
        "GOST R 34.10-2012 with GOST R 34.11-2012 (256 bit)", // 1.2.643.7.1.1.3.2
    b"\x2a\x85\x03\x07\x01\x01\x03\x03" "id-tc26-signwithdigest-gost3410-2012-512"
        "GOST R 34.10-2012 with GOST R 34.11-2012 (512 bit)" // 1.2.643.7.1.1.3.3
);
