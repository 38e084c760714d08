//! Cipher suites and their parameters.
ghost use Rattle.std.specs.Prelude.{◌≡◌, ◌/◌};
ghost use Rattle.tls_base.specs.Cipher.{block_size, code_length};

use crate::cipher::{
    TlsCipherAu, TlsCipherEnc, TlsCipherEncMode, TlsCipherKx, TlsCipherMac, TlsPRF,
};
use crate::cipher_suite_id::TlsCipherSuiteID;

/// A cipher suite with its parameters.
#[derive(Clone, Debug, PartialEq, Eq, Drop)]
pub struct TlsCipherSuite {
    /// The suite's name in the registry of cipher suites.
    pub name: &'static str,
    /// The suite's number in that registry.
    pub id: TlsCipherSuiteID,
    /// The key exchange.
    pub kx: TlsCipherKx,
    /// The authentication.
    pub au: TlsCipherAu,
    /// The encryption.
    pub enc: TlsCipherEnc,
    /// The mode of the encryption.
    pub enc_mode: TlsCipherEncMode,
    /// The key length of the encryption, in bits.
    pub enc_size: u16,
    /// The authentication of records.
    pub mac: TlsCipherMac,
    /// The length of a record's authentication code, in bits.
    pub mac_size: u16,
    /// The pseudorandom function.
    pub prf: TlsPRF,
}

impl TlsCipherSuite {
    /// Returns the key length of the encryption, in bytes.
    pub const fn enc_key_size(&self) -> usize
        ensures { result ≡ self.now.enc_size / 8 }
    {
        (self.enc_size / 8) as usize
    }

    /// Returns the block length of the encryption, in bytes; 0 for a stream cipher, and without
    /// encryption.
    pub const fn enc_block_size(&self) -> usize
        ensures { result ≡ block_size self.now.enc }
    {
        match self.enc {
            TlsCipherEnc::Des | TlsCipherEnc::Idea | TlsCipherEnc::Rc2 | TlsCipherEnc::TripleDes =>
                8,
            TlsCipherEnc::Aes
            | TlsCipherEnc::Aria
            | TlsCipherEnc::Camellia
            | TlsCipherEnc::Seed
            | TlsCipherEnc::Sm4 => 16,
            TlsCipherEnc::Null
            | TlsCipherEnc::Chacha20_Poly1305
            | TlsCipherEnc::Rc4
            | TlsCipherEnc::Aegis => 0,
        }
    }

    /// Returns the length of a record's authentication code, in bytes; 0 if the cipher
    /// authenticates records, or nothing does.
    pub const fn mac_length(&self) -> usize
        ensures { result ≡ code_length self.now.mac }
    {
        match self.mac {
            TlsCipherMac::HmacMd5 => 16,
            TlsCipherMac::HmacSha1 => 20,
            TlsCipherMac::HmacSha256 => 32,
            TlsCipherMac::HmacSha384 => 48,
            TlsCipherMac::HmacSha512 => 64,
            TlsCipherMac::Null | TlsCipherMac::Aead => 0,
        }
    }
}
