//! Signature schemes.
ghost use Rattle.std.specs.Prelude.{Some, codes, ◌≡◌, ◌≤◌, ◌↔◌, ◌/◌, ◌%◌, IsTrue};
ghost use Rattle.layouts.specs.Layout.{number};
ghost use Rattle.layouts.specs.Answers.{Gives};
ghost use Rattle.std.specs.Option.{option_map};
ghost use Rattle.tls_base.specs.Names.{look_up, name};
ghost use Rattle.tls_base.specs.Constants.{signature_schemes};
ghost use Rattle.tls_base.specs.Registered.{registered_signature_schemes};

use crate::name::{find_name, names, registered, write_name};
use layouts::{IResult, number2, parsed};
use std::fmt;

/// A signature scheme: the SignatureScheme of RFC 8446, section 4.2.3, 2 bytes, big-endian, with
/// those of RFC 8734 and RFC 8998.
#[derive(Debug, PartialEq, Eq, Drop)]
pub struct SignatureScheme(pub u16);

impl SignatureScheme {
    /// Defined in RFC 8446, section 4.2.3.
    pub const rsa_pkcs1_sha256: SignatureScheme = SignatureScheme(0x0401);

    /// Defined in RFC 8446, section 4.2.3.
    pub const rsa_pkcs1_sha384: SignatureScheme = SignatureScheme(0x0501);

    /// Defined in RFC 8446, section 4.2.3.
    pub const rsa_pkcs1_sha512: SignatureScheme = SignatureScheme(0x0601);

    /// Defined in RFC 8446, section 4.2.3.
    pub const rsa_pkcs1_sha1: SignatureScheme = SignatureScheme(0x0201);

    /// Defined in RFC 8446, section 4.2.3.
    pub const ecdsa_secp256r1_sha256: SignatureScheme = SignatureScheme(0x0403);

    /// Defined in RFC 8446, section 4.2.3.
    pub const ecdsa_secp384r1_sha384: SignatureScheme = SignatureScheme(0x0503);

    /// Defined in RFC 8446, section 4.2.3.
    pub const ecdsa_secp521r1_sha512: SignatureScheme = SignatureScheme(0x0603);

    /// Defined in RFC 8446, section 4.2.3.
    pub const ecdsa_sha1: SignatureScheme = SignatureScheme(0x0203);

    /// Defined in RFC 8998.
    pub const sm2sig_sm3: SignatureScheme = SignatureScheme(0x0708);

    /// Defined in RFC 8446, section 4.2.3.
    pub const rsa_pss_rsae_sha256: SignatureScheme = SignatureScheme(0x0804);

    /// Defined in RFC 8446, section 4.2.3.
    pub const rsa_pss_rsae_sha384: SignatureScheme = SignatureScheme(0x0805);

    /// Defined in RFC 8446, section 4.2.3.
    pub const rsa_pss_rsae_sha512: SignatureScheme = SignatureScheme(0x0806);

    /// Defined in RFC 8446, section 4.2.3.
    pub const ed25519: SignatureScheme = SignatureScheme(0x0807);

    /// Defined in RFC 8446, section 4.2.3.
    pub const ed448: SignatureScheme = SignatureScheme(0x0808);

    /// Defined in RFC 8446, section 4.2.3.
    pub const rsa_pss_pss_sha256: SignatureScheme = SignatureScheme(0x0809);

    /// Defined in RFC 8446, section 4.2.3.
    pub const rsa_pss_pss_sha384: SignatureScheme = SignatureScheme(0x080a);

    /// Defined in RFC 8446, section 4.2.3.
    pub const rsa_pss_pss_sha512: SignatureScheme = SignatureScheme(0x080b);

    /// Defined in RFC 8734.
    pub const ecdsa_brainpoolP256r1tls13_sha256: SignatureScheme = SignatureScheme(0x081a);

    /// Defined in RFC 8734.
    pub const ecdsa_brainpoolP384r1tls13_sha384: SignatureScheme = SignatureScheme(0x081b);

    /// Defined in RFC 8734.
    pub const ecdsa_brainpoolP512r1tls13_sha512: SignatureScheme = SignatureScheme(0x081c);

    /// Returns whether the number is one of 0xfe00 to 0xfeff. RFC 8446, section 4.2.3, reserves
    /// 0xfe00 to 0xffff for private use; this call doesn't count 0xff00 to 0xffff.
    pub fn is_reserved(&self) -> bool
        ensures { IsTrue result ↔ ((0xfe00 ≤ self.now.0) × (self.now.0 ≤ 0xfeff)) }
    {
        0xfe00 <= self.0 && self.0 <= 0xfeff
    }

    /// Returns the first byte: a [`crate::HashAlgorithm`] if the number is a pair of TLS 1.2.
    pub fn hash_alg(&self) -> u8
        ensures { result ≡ self.now.0 / 256 }
    {
        (self.0 >> 8) as u8
    }

    /// Returns the second byte: a [`crate::SignAlgorithm`] if the number is a pair of TLS 1.2.
    pub fn sign_alg(&self) -> u8
        ensures { result ≡ self.now.0 % 256 }
    {
        (self.0 & 0xff) as u8
    }

    /// Returns the number's name in IANA's registry of signature schemes, without the remark that
    /// it is reserved, or the name of the pair of TLS 1.2, as `dsa_sha256`; `None` if it has none.
    pub fn registered_name(&self) -> Option<&'static str>
        ensures { option_map (λ t. t.now) result ≡ look_up registered_signature_schemes self.now.0 }
    {
        find_name(REGISTERED, self.0)
    }

    /// Reads 2 bytes, big-endian. `Incomplete` with the number of missing bytes, 2 or 1.
    pub fn parse(i: &[u8]) -> IResult<&[u8], Self>
        ensures { Gives (λ v. v.0) (number 2) i.now result }
    {
        let (i, n) = parsed!(number2(i));
        Ok((i, SignatureScheme(n)))
    }
}

/// The registry of signature schemes: a row for each number with a constant or a registered name,
/// and for the pairs of TLS 1.2.
macro_rules! rows {
    ($column:ident) => {
        $column! {
            SignatureScheme:
            rsa_pkcs1_sha256 = "rsa_pkcs1_sha256";
            rsa_pkcs1_sha384 = "rsa_pkcs1_sha384";
            rsa_pkcs1_sha512 = "rsa_pkcs1_sha512";
            rsa_pkcs1_sha1 = "rsa_pkcs1_sha1";
            ecdsa_secp256r1_sha256 = "ecdsa_secp256r1_sha256";
            ecdsa_secp384r1_sha384 = "ecdsa_secp384r1_sha384";
            ecdsa_secp521r1_sha512 = "ecdsa_secp521r1_sha512";
            ecdsa_sha1 = "ecdsa_sha1";
            sm2sig_sm3 = "sm2sig_sm3";
            rsa_pss_rsae_sha256 = "rsa_pss_rsae_sha256";
            rsa_pss_rsae_sha384 = "rsa_pss_rsae_sha384";
            rsa_pss_rsae_sha512 = "rsa_pss_rsae_sha512";
            ed25519 = "ed25519";
            ed448 = "ed448";
            rsa_pss_pss_sha256 = "rsa_pss_pss_sha256";
            rsa_pss_pss_sha384 = "rsa_pss_pss_sha384";
            rsa_pss_pss_sha512 = "rsa_pss_pss_sha512";
            ecdsa_brainpoolP256r1tls13_sha256 = "ecdsa_brainpoolP256r1tls13_sha256";
            ecdsa_brainpoolP384r1tls13_sha384 = "ecdsa_brainpoolP384r1tls13_sha384";
            ecdsa_brainpoolP512r1tls13_sha512 = "ecdsa_brainpoolP512r1tls13_sha512";
            0x0202 = "dsa_sha1"; // RFC 8446, section 4.2.3
            0x0402 = "dsa_sha256"; // RFC 8446, section 4.2.3
            0x0502 = "dsa_sha384"; // RFC 8446, section 4.2.3
            0x0602 = "dsa_sha512"; // RFC 8446, section 4.2.3
            0x0101 = "rsa_pkcs1_md5"; // RFC 5246, section 7.4.1.4.1
            0x0301 = "rsa_pkcs1_sha224"; // RFC 5246, section 7.4.1.4.1
            0x0302 = "dsa_sha224"; // RFC 5246, section 7.4.1.4.1
            0x0303 = "ecdsa_sha224"; // RFC 5246, section 7.4.1.4.1
            0x0420 = "rsa_pkcs1_sha256_legacy"; // draft-ietf-tls-tls13-pkcs1
            0x0520 = "rsa_pkcs1_sha384_legacy"; // draft-ietf-tls-tls13-pkcs1
            0x0620 = "rsa_pkcs1_sha512_legacy"; // draft-ietf-tls-tls13-pkcs1
            0x0704 = "eccsi_sha256"; // draft-wang-tls-raw-public-key-with-ibc
            0x0705 = "iso_ibs1"; // draft-wang-tls-raw-public-key-with-ibc
            0x0706 = "iso_ibs2"; // draft-wang-tls-raw-public-key-with-ibc
            0x0707 = "iso_chinese_ibs"; // draft-wang-tls-raw-public-key-with-ibc
            0x0709 = "gostr34102012_256a"; // RFC 9367
            0x070a = "gostr34102012_256b"; // RFC 9367
            0x070b = "gostr34102012_256c"; // RFC 9367
            0x070c = "gostr34102012_256d"; // RFC 9367
            0x070d = "gostr34102012_512a"; // RFC 9367
            0x070e = "gostr34102012_512b"; // RFC 9367
            0x070f = "gostr34102012_512c"; // RFC 9367
            0x0840 = "gostr34102012_256"; // RFC 9189
            0x0841 = "gostr34102012_512"; // RFC 9189
            0x0904 = "mldsa44"; // draft-ietf-tls-mldsa
            0x0905 = "mldsa65"; // draft-ietf-tls-mldsa
            0x0906 = "mldsa87"; // draft-ietf-tls-mldsa
            0x0911 = "slhdsa_sha2_128s"; // draft-reddy-tls-slhdsa
            0x0912 = "slhdsa_sha2_128f"; // draft-reddy-tls-slhdsa
            0x0913 = "slhdsa_sha2_192s"; // draft-reddy-tls-slhdsa
            0x0914 = "slhdsa_sha2_192f"; // draft-reddy-tls-slhdsa
            0x0915 = "slhdsa_sha2_256s"; // draft-reddy-tls-slhdsa
            0x0916 = "slhdsa_sha2_256f"; // draft-reddy-tls-slhdsa
            0x0917 = "slhdsa_shake_128s"; // draft-reddy-tls-slhdsa
            0x0918 = "slhdsa_shake_128f"; // draft-reddy-tls-slhdsa
            0x0919 = "slhdsa_shake_192s"; // draft-reddy-tls-slhdsa
            0x091a = "slhdsa_shake_192f"; // draft-reddy-tls-slhdsa
            0x091b = "slhdsa_shake_256s"; // draft-reddy-tls-slhdsa
            0x091c = "slhdsa_shake_256f"; // draft-reddy-tls-slhdsa
        }
    };
}

/// The constants, each as its number and its name.
static NAMES: &[(u16, &str)] = rows!(names);

/// The registry's names, each after its number.
static REGISTERED: &[(u16, &str)] = rows!(registered);

impl fmt::Display for SignatureScheme {
    ghost output = { λ v. Some (name (codes "SignatureScheme") signature_schemes v.0) };

    fn fmt<W: fmt::Write>(&self, f: &mut fmt::Formatter<W>) -> fmt::Result {
        write_name(f, "SignatureScheme", NAMES, self.0)
    }
}
