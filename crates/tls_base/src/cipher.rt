//! Parameters of cipher suites.
ghost use Rattle.std.specs.Prelude.{◌≡◌};
ghost use Rattle.tls_base.specs.Cipher.{numbered, key_exchanges, authentications, encryptions, modes, macs, functions};

use std::error::Error;
use std::fmt;

/// A number without a member in the enum that was asked for.
#[derive(Debug, PartialEq, Drop)]
pub struct UnknownNumber(pub u8);

impl fmt::Display for UnknownNumber {
    fn fmt<W: fmt::Write>(&self, f: &mut fmt::Formatter<W>) -> fmt::Result {
        write!(
            f,
            "no parameter of a cipher suite has the number {}",
            self.0
        )
    }
}

impl Error for UnknownNumber {}

/// Expands to the members of an enum, in the order of their numbers.
macro_rules! members {
    ($type:ident: $($member:ident),*) => {
        &[$($type::$member),*]
    };
}

/// Returns the member at position `n`, counted from 0; refuses `n` if there is none.
fn find_numbered<T: Copy>(members: &[T], n: u8) -> Result<T, UnknownNumber>
    ensures { result ≡ numbered members.now n }
{
    members.get(n as usize).copied().ok_or(UnknownNumber(n))
}

/// Key exchange. A member's number is its position here, counted from 0.
#[derive(Clone, Copy, Debug, PartialEq, Eq)]
pub enum TlsCipherKx {
    /// None (TLS_NULL_WITH_NULL_NULL of RFC 5246, appendix A.5).
    Null,
    /// A pre-shared key (RFC 4279).
    Psk,
    /// Kerberos (RFC 2712).
    Krb5,
    /// Secure Remote Password (RFC 5054).
    Srp,
    /// A secret encrypted with the server's RSA key (RFC 5246, section 7.4.7.1).
    Rsa,
    /// Diffie-Hellman, not ephemeral (the DH_.. of RFC 5246, appendix A.5).
    Dh,
    /// Ephemeral Diffie-Hellman (the DHE_.. of RFC 5246, appendix A.5).
    Dhe,
    /// Elliptic-curve Diffie-Hellman, not ephemeral (RFC 4492, section 2).
    Ecdh,
    /// Ephemeral elliptic-curve Diffie-Hellman (RFC 8422, section 2).
    Ecdhe,
    /// Anonymous elliptic-curve Diffie-Hellman (RFC 8422, section 2).
    Aecdh,
    /// A password, with an elliptic curve (RFC 8492).
    Eccpwd,
    /// Negotiated by extensions: a suite of TLS 1.3 doesn't fix it (RFC 8446, section 4.2.8).
    Tls13,
}

impl TryFrom<u8> for TlsCipherKx {
    type Error = UnknownNumber;

    ghost try_from_gives = { λ n r. r ≡ numbered key_exchanges n };

    fn try_from(n: u8) -> Result<Self, UnknownNumber> {
        find_numbered(
            members!(
                TlsCipherKx: Null, Psk, Krb5, Srp, Rsa, Dh, Dhe, Ecdh, Ecdhe, Aecdh, Eccpwd,
                Tls13
            ),
            n,
        )
    }
}

/// Authentication of the peers. A member's number is its position here, counted from 0.
#[derive(Clone, Copy, Debug, PartialEq, Eq)]
pub enum TlsCipherAu {
    /// None (the .._anon of RFC 5246, appendix A.5).
    Null,
    /// A pre-shared key (RFC 4279).
    Psk,
    /// Kerberos (RFC 2712).
    Krb5,
    /// The password alone (RFC 5054).
    Srp,
    /// The password, and DSS for the server (RFC 5054).
    Srp_Dss,
    /// The password, and RSA for the server (RFC 5054).
    Srp_Rsa,
    /// A DSS key (RFC 5246, section 7.4.2).
    Dss,
    /// An RSA key (RFC 5246, section 7.4.2).
    Rsa,
    /// The word in this place of the names TLS_PSK_DHE_WITH_AES_.. (RFC 6655, section 4).
    Dhe,
    /// An ECDSA key (RFC 8422, section 2).
    Ecdsa,
    /// A password (RFC 8492).
    Eccpwd,
    /// Negotiated by extensions: a suite of TLS 1.3 doesn't fix it (RFC 8446, section 4.2.3).
    Tls13,
}

impl TryFrom<u8> for TlsCipherAu {
    type Error = UnknownNumber;

    ghost try_from_gives = { λ n r. r ≡ numbered authentications n };

    fn try_from(n: u8) -> Result<Self, UnknownNumber> {
        find_numbered(
            members!(
                TlsCipherAu: Null, Psk, Krb5, Srp, Srp_Dss, Srp_Rsa, Dss, Rsa, Dhe, Ecdsa,
                Eccpwd, Tls13
            ),
            n,
        )
    }
}

/// Encryption of records. A member's number is its position here, counted from 0.
#[derive(Clone, Copy, Debug, PartialEq, Eq)]
pub enum TlsCipherEnc {
    /// None (RFC 5246, section 6.1).
    Null,
    /// DES (RFC 5469).
    Des,
    /// 3DES with three keys (RFC 5246, appendix C).
    TripleDes,
    /// RC2 (RFC 2246, appendix C).
    Rc2,
    /// RC4 (RFC 5246, appendix C), which RFC 7465 forbids.
    Rc4,
    /// ARIA (RFC 6209).
    Aria,
    /// IDEA (RFC 5469).
    Idea,
    /// SEED (RFC 4162).
    Seed,
    /// AES (RFC 5246, appendix C).
    Aes,
    /// Camellia (RFC 5932).
    Camellia,
    /// ChaCha20 with Poly1305 (RFC 7905).
    Chacha20_Poly1305,
    /// SM4 (RFC 8998).
    Sm4,
    /// AEGIS (draft-irtf-cfrg-aegis-aead).
    Aegis,
}

impl TryFrom<u8> for TlsCipherEnc {
    type Error = UnknownNumber;

    ghost try_from_gives = { λ n r. r ≡ numbered encryptions n };

    fn try_from(n: u8) -> Result<Self, UnknownNumber> {
        find_numbered(
            members!(
                TlsCipherEnc: Null, Des, TripleDes, Rc2, Rc4, Aria, Idea, Seed, Aes, Camellia,
                Chacha20_Poly1305, Sm4, Aegis
            ),
            n,
        )
    }
}

/// The mode of a block cipher. A member's number is its position here, counted from 0.
#[derive(Clone, Copy, Debug, PartialEq, Eq)]
pub enum TlsCipherEncMode {
    /// None: a stream cipher or no cipher (RFC 5246, section 6.2.3.1).
    Null,
    /// Cipher block chaining (RFC 5246, section 6.2.3.2).
    Cbc,
    /// Counter with CBC-MAC (RFC 6655).
    Ccm,
    /// Galois/Counter Mode (RFC 5288).
    Gcm,
}

impl TryFrom<u8> for TlsCipherEncMode {
    type Error = UnknownNumber;

    ghost try_from_gives = { λ n r. r ≡ numbered modes n };

    fn try_from(n: u8) -> Result<Self, UnknownNumber> {
        find_numbered(members!(TlsCipherEncMode: Null, Cbc, Ccm, Gcm), n)
    }
}

/// Authentication of records. A member's number is its position here, counted from 0.
#[derive(Clone, Copy, Debug, PartialEq, Eq)]
pub enum TlsCipherMac {
    /// None (RFC 5246, section 6.1).
    Null,
    /// `hmac_md5` (RFC 5246, section 6.1).
    HmacMd5,
    /// `hmac_sha1` (RFC 5246, section 6.1).
    HmacSha1,
    /// `hmac_sha256` (RFC 5246, section 6.1).
    HmacSha256,
    /// `hmac_sha384` (RFC 5246, section 6.1).
    HmacSha384,
    /// `hmac_sha512` (RFC 5246, section 6.1).
    HmacSha512,
    /// The cipher authenticates records itself (RFC 5246, section 6.2.3.3).
    Aead,
}

impl TryFrom<u8> for TlsCipherMac {
    type Error = UnknownNumber;

    ghost try_from_gives = { λ n r. r ≡ numbered macs n };

    fn try_from(n: u8) -> Result<Self, UnknownNumber> {
        find_numbered(
            members!(
                TlsCipherMac: Null, HmacMd5, HmacSha1, HmacSha256, HmacSha384, HmacSha512, Aead
            ),
            n,
        )
    }
}

/// The pseudorandom function that keys are derived with (RFC 5246, section 5). A member's number is
/// its position here, counted from 0.
#[derive(Clone, Copy, Debug, PartialEq, Eq)]
pub enum TlsPRF {
    /// The version's default: the suite names none (RFC 5246, section 5).
    Default,
    /// None: no keys are derived, as in the initial state of a connection (RFC 5246, section 6.1).
    Null,
    /// HMAC with MD5 and with SHA-1 (RFC 2246, section 5).
    Md5AndSha1,
    /// HMAC with SHA-1, as RFC 5246, section 5, defines it for any hash.
    Sha1,
    /// HMAC with SHA-256 (RFC 5246, section 5).
    Sha256,
    /// HMAC with SHA-384 (RFC 5288, section 3).
    Sha384,
    /// HMAC with SHA-512, as RFC 5246, section 5, defines it for any hash.
    Sha512,
    /// HMAC with SM3 (RFC 8998).
    Sm3,
}

impl TryFrom<u8> for TlsPRF {
    type Error = UnknownNumber;

    ghost try_from_gives = { λ n r. r ≡ numbered functions n };

    fn try_from(n: u8) -> Result<Self, UnknownNumber> {
        find_numbered(
            members!(TlsPRF: Default, Null, Md5AndSha1, Sha1, Sha256, Sha384, Sha512, Sm3),
            n,
        )
    }
}
