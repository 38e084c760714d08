//! Purposes of keys (RFC 5280, section 4.2.1.12).

use super::{Object, objects};

/// Purposes of keys (RFC 5280, section 4.2.1.12).
#[rattlefmt::skip]
pub(crate) static PURPOSES: &[Object] = objects!(
    b"\x2b\x06\x01\x05\x05\x07\x03\x01" "serverAuth" "TLS Web Server Authentication",
        // 1.3.6.1.5.5.7.3.1
    b"\x2b\x06\x01\x05\x05\x07\x03\x02" "clientAuth" "TLS Web Client Authentication",
        // 1.3.6.1.5.5.7.3.2
    b"\x2b\x06\x01\x05\x05\x07\x03\x03" "codeSigning" "Code Signing", // 1.3.6.1.5.5.7.3.3
    b"\x2b\x06\x01\x05\x05\x07\x03\x04" "emailProtection" "E-mail Protection", // 1.3.6.1.5.5.7.3.4
    b"\x2b\x06\x01\x05\x05\x07\x03\x05" "ipsecEndSystem" "IPSec End System", // 1.3.6.1.5.5.7.3.5
    b"\x2b\x06\x01\x05\x05\x07\x03\x06" "ipsecTunnel" "IPSec Tunnel", // 1.3.6.1.5.5.7.3.6
    b"\x2b\x06\x01\x05\x05\x07\x03\x07" "ipsecUser" "IPSec User", // 1.3.6.1.5.5.7.3.7
    b"\x2b\x06\x01\x05\x05\x07\x03\x08" "timeStamping" "Time Stamping", // 1.3.6.1.5.5.7.3.8
    b"\x2b\x06\x01\x05\x05\x07\x03\x09" "OCSPSigning" "OCSP Signing", // 1.3.6.1.5.5.7.3.9
    b"\x2b\x06\x01\x05\x05\x07\x03\x0a" "DVCS" "dvcs", // 1.3.6.1.5.5.7.3.10
    b"\x2b\x06\x01\x05\x05\x07\x03\x11" "ipsecIKE" "ipsec Internet Key Exchange",
        // 1.3.6.1.5.5.7.3.17
    b"\x2b\x06\x01\x05\x05\x07\x03\x15" "secureShellClient" "SSH Client", // 1.3.6.1.5.5.7.3.21
    b"\x2b\x06\x01\x05\x05\x07\x03\x16" "secureShellServer" "SSH Server", // 1.3.6.1.5.5.7.3.22
    b"\x55\x1d\x25\x00" "anyExtendedKeyUsage" "Any Extended Key Usage", // 2.5.29.37.0
    b"\x2b\x06\x01\x04\x01\x82\x37\x02\x01\x15" "msCodeInd" "Microsoft Individual Code Signing",
        // 1.3.6.1.4.1.311.2.1.21
    b"\x2b\x06\x01\x04\x01\x82\x37\x02\x01\x16" "msCodeCom" "Microsoft Commercial Code Signing",
        // 1.3.6.1.4.1.311.2.1.22
    b"\x2b\x06\x01\x04\x01\x82\x37\x0a\x03\x01" "msCTLSign" "Microsoft Trust List Signing",
        // 1.3.6.1.4.1.311.10.3.1
    b"\x2b\x06\x01\x04\x01\x82\x37\x0a\x03\x03" "msSGC" "Microsoft Server Gated Crypto",
        // 1.3.6.1.4.1.311.10.3.3
    b"\x2b\x06\x01\x04\x01\x82\x37\x0a\x03\x04" "msEFS" "Microsoft Encrypted File System",
        // 1.3.6.1.4.1.311.10.3.4
    b"\x2b\x06\x01\x04\x01\x82\x37\x14\x02\x02" "msSmartcardLogin" "Microsoft Smartcard Login",
        // 1.3.6.1.4.1.311.20.2.2
    b"\x60\x86\x48\x01\x86\xf8\x42\x04\x01" "nsSGC"
        "Netscape Server Gated Crypto" // 2.16.840.1.113730.4.1
);
