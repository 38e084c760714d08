//! Elliptic curves over binary fields of X9.62, and those of WTLS (WAP-261).

use super::{Object, objects};

/// Elliptic curves over binary fields of X9.62, and those of WTLS (WAP-261).
#[rattlefmt::skip]
pub(crate) static OLDER_CURVES: &[Object] = objects!(
    b"\x2a\x86\x48\xce\x3d\x03\x00\x01" "c2pnb163v1" "c2pnb163v1", // 1.2.840.10045.3.0.1
    b"\x2a\x86\x48\xce\x3d\x03\x00\x02" "c2pnb163v2" "c2pnb163v2", // 1.2.840.10045.3.0.2
    b"\x2a\x86\x48\xce\x3d\x03\x00\x03" "c2pnb163v3" "c2pnb163v3", // 1.2.840.10045.3.0.3
    b"\x2a\x86\x48\xce\x3d\x03\x00\x04" "c2pnb176v1" "c2pnb176v1", // 1.2.840.10045.3.0.4
    b"\x2a\x86\x48\xce\x3d\x03\x00\x05" "c2tnb191v1" "c2tnb191v1", // 1.2.840.10045.3.0.5
    b"\x2a\x86\x48\xce\x3d\x03\x00\x06" "c2tnb191v2" "c2tnb191v2", // 1.2.840.10045.3.0.6
    b"\x2a\x86\x48\xce\x3d\x03\x00\x07" "c2tnb191v3" "c2tnb191v3", // 1.2.840.10045.3.0.7
    b"\x2a\x86\x48\xce\x3d\x03\x00\x0a" "c2pnb208w1" "c2pnb208w1", // 1.2.840.10045.3.0.10
    b"\x2a\x86\x48\xce\x3d\x03\x00\x0b" "c2tnb239v1" "c2tnb239v1", // 1.2.840.10045.3.0.11
    b"\x2a\x86\x48\xce\x3d\x03\x00\x0c" "c2tnb239v2" "c2tnb239v2", // 1.2.840.10045.3.0.12
    b"\x2a\x86\x48\xce\x3d\x03\x00\x0d" "c2tnb239v3" "c2tnb239v3", // 1.2.840.10045.3.0.13
    b"\x2a\x86\x48\xce\x3d\x03\x00\x10" "c2pnb272w1" "c2pnb272w1", // 1.2.840.10045.3.0.16
    b"\x2a\x86\x48\xce\x3d\x03\x00\x11" "c2pnb304w1" "c2pnb304w1", // 1.2.840.10045.3.0.17
    b"\x2a\x86\x48\xce\x3d\x03\x00\x12" "c2tnb359v1" "c2tnb359v1", // 1.2.840.10045.3.0.18
    b"\x2a\x86\x48\xce\x3d\x03\x00\x13" "c2pnb368w1" "c2pnb368w1", // 1.2.840.10045.3.0.19
    b"\x2a\x86\x48\xce\x3d\x03\x00\x14" "c2tnb431r1" "c2tnb431r1", // 1.2.840.10045.3.0.20
    b"\x67\x2b\x01\x04\x01" "wap-wsg-idm-ecid-wtls1" "wap-wsg-idm-ecid-wtls1", // 2.23.43.1.4.1
    b"\x67\x2b\x01\x04\x03" "wap-wsg-idm-ecid-wtls3" "wap-wsg-idm-ecid-wtls3", // 2.23.43.1.4.3
    b"\x67\x2b\x01\x04\x04" "wap-wsg-idm-ecid-wtls4" "wap-wsg-idm-ecid-wtls4", // 2.23.43.1.4.4
    b"\x67\x2b\x01\x04\x05" "wap-wsg-idm-ecid-wtls5" "wap-wsg-idm-ecid-wtls5", // 2.23.43.1.4.5
    b"\x67\x2b\x01\x04\x06" "wap-wsg-idm-ecid-wtls6" "wap-wsg-idm-ecid-wtls6", // 2.23.43.1.4.6
    b"\x67\x2b\x01\x04\x07" "wap-wsg-idm-ecid-wtls7" "wap-wsg-idm-ecid-wtls7", // 2.23.43.1.4.7
    b"\x67\x2b\x01\x04\x08" "wap-wsg-idm-ecid-wtls8" "wap-wsg-idm-ecid-wtls8", // 2.23.43.1.4.8
    b"\x67\x2b\x01\x04\x09" "wap-wsg-idm-ecid-wtls9" "wap-wsg-idm-ecid-wtls9", // 2.23.43.1.4.9
    b"\x67\x2b\x01\x04\x0a" "wap-wsg-idm-ecid-wtls10" "wap-wsg-idm-ecid-wtls10", // 2.23.43.1.4.10
    b"\x67\x2b\x01\x04\x0b" "wap-wsg-idm-ecid-wtls11" "wap-wsg-idm-ecid-wtls11", // 2.23.43.1.4.11
    b"\x67\x2b\x01\x04\x0c" "wap-wsg-idm-ecid-wtls12" "wap-wsg-idm-ecid-wtls12" // 2.23.43.1.4.12
);
