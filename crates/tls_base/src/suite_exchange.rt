//! Key exchanges of cipher suites, as far as they decide the form of the key exchange messages.
ghost use Rattle.std.specs.Prelude.{◌≡◌};
ghost use Rattle.tls_base.specs.SuiteExchange.{is_in, is_over_curves, key_exchange, signed as signed_by, unsigned as unsigned_by};

use crate::cipher_suite_id::TlsCipherSuiteID;

/// What the two sides transmit to make a key, besides the identity of a pre-shared key.
#[derive(Clone, Copy, Debug, PartialEq, Eq)]
pub enum Public {
    /// Nothing: there is only a pre-shared key (RFC 4279, section 2).
    Nothing,
    /// A secret that the client encrypts (RFC 5246, section 7.4.7.1).
    Rsa,
    /// Public values of finite-field Diffie-Hellman (RFC 5246, sections 7.4.3 and 7.4.7.2).
    Dh,
    /// Public values of elliptic-curve Diffie-Hellman (RFC 8422, sections 5.4 and 5.7).
    Ecdh,
}

/// The key exchange of a suite.
#[derive(Clone, Copy, Debug, PartialEq, Eq)]
pub struct KeyExchange {
    /// Whether a pre-shared key is used, with its identity (RFC 4279, sections 2 to 4; RFC 5489,
    /// section 2).
    pub has_identity: bool,
    /// What else is transmitted.
    pub public: Public,
    /// Whether the server signs its public values.
    pub is_signed: bool,
}

/// Returns a key exchange without a signature.
const fn unsigned(has_identity: bool, public: Public) -> KeyExchange
    ensures { result ≡ unsigned_by has_identity public }
{
    KeyExchange {
        has_identity,
        public,
        is_signed: false,
    }
}

/// Returns a key exchange whose public values the server signs, without a pre-shared key.
const fn signed(public: Public) -> KeyExchange
    ensures { result ≡ signed_by public }
{
    KeyExchange {
        has_identity: false,
        public,
        is_signed: true,
    }
}

/// RSA alone, including export suites.
static RSA: &[(u16, u16)] = &[
    (0x0001, 0x000a),
    (0x002f, 0x002f),
    (0x0035, 0x0035),
    (0x003b, 0x003d),
    (0x0041, 0x0041),
    (0x0084, 0x0084),
    (0x0096, 0x0096),
    (0x009c, 0x009d),
    (0x00ba, 0x00ba),
    (0x00c0, 0x00c0),
    (0xc03c, 0xc03d),
    (0xc050, 0xc051),
    (0xc07a, 0xc07b),
    (0xc09c, 0xc09d),
    (0xc0a0, 0xc0a1),
];

/// Diffie-Hellman with a certificate: DHE, and fixed keys, for which the server sends no key
/// exchange.
static DH: &[(u16, u16)] = &[
    (0x000b, 0x0016),
    (0x0030, 0x0033),
    (0x0036, 0x0039),
    (0x003e, 0x0040),
    (0x0042, 0x0045),
    (0x0067, 0x006b),
    (0x0085, 0x0088),
    (0x0097, 0x009a),
    (0x009e, 0x00a5),
    (0x00bb, 0x00be),
    (0x00c1, 0x00c4),
    (0xc03e, 0xc045),
    (0xc052, 0xc059),
    (0xc07c, 0xc083),
    (0xc09e, 0xc09f),
    (0xc0a2, 0xc0a3),
    (0xccaa, 0xccaa),
];

/// Diffie-Hellman without a certificate.
static ANONYMOUS_DH: &[(u16, u16)] = &[
    (0x0017, 0x001b),
    (0x0034, 0x0034),
    (0x003a, 0x003a),
    (0x0046, 0x0046),
    (0x006c, 0x006d),
    (0x0089, 0x0089),
    (0x009b, 0x009b),
    (0x00a6, 0x00a7),
    (0x00bf, 0x00bf),
    (0x00c5, 0x00c5),
    (0xc046, 0xc047),
    (0xc05a, 0xc05b),
    (0xc084, 0xc085),
];

/// Elliptic-curve Diffie-Hellman with a certificate: ECDHE, and fixed keys, for which the server
/// sends no key exchange.
static ECDH: &[(u16, u16)] = &[
    (0xc001, 0xc014),
    (0xc023, 0xc032),
    (0xc048, 0xc04f),
    (0xc05c, 0xc063),
    (0xc072, 0xc079),
    (0xc086, 0xc08d),
    (0xc0ac, 0xc0af),
    (0xcca8, 0xcca9),
];

/// Elliptic-curve Diffie-Hellman without a certificate.
static ANONYMOUS_ECDH: &[(u16, u16)] = &[(0xc015, 0xc019)];

/// A pre-shared key alone.
static KNOWN_KEY: &[(u16, u16)] = &[
    (0x002c, 0x002c),
    (0x008a, 0x008d),
    (0x00a8, 0x00a9),
    (0x00ae, 0x00b1),
    (0xc064, 0xc065),
    (0xc06a, 0xc06b),
    (0xc08e, 0xc08f),
    (0xc094, 0xc095),
    (0xc0a4, 0xc0a5),
    (0xc0a8, 0xc0a9),
    (0xccab, 0xccab),
];

/// A pre-shared key with Diffie-Hellman.
static KNOWN_KEY_WITH_DH: &[(u16, u16)] = &[
    (0x002d, 0x002d),
    (0x008e, 0x0091),
    (0x00aa, 0x00ab),
    (0x00b2, 0x00b5),
    (0xc066, 0xc067),
    (0xc06c, 0xc06d),
    (0xc090, 0xc091),
    (0xc096, 0xc097),
    (0xc0a6, 0xc0a7),
    (0xc0aa, 0xc0ab),
    (0xccad, 0xccad),
];

/// A pre-shared key with elliptic-curve Diffie-Hellman.
static KNOWN_KEY_WITH_ECDH: &[(u16, u16)] = &[
    (0xc033, 0xc03b),
    (0xc070, 0xc071),
    (0xc09a, 0xc09b),
    (0xccac, 0xccac),
    (0xd001, 0xd005),
];

/// A pre-shared key with RSA.
static KNOWN_KEY_WITH_RSA: &[(u16, u16)] = &[
    (0x002e, 0x002e),
    (0x0092, 0x0095),
    (0x00ac, 0x00ad),
    (0x00b6, 0x00b9),
    (0xc068, 0xc069),
    (0xc06e, 0xc06f),
    (0xc092, 0xc093),
    (0xc098, 0xc099),
    (0xccae, 0xccae),
];

/// Returns whether a number is in one of the ranges, each from its first to its last number.
fn is_within(ranges: &[(u16, u16)], number: u16) -> bool
    ensures { result ≡ is_in ranges.now number }
{
    ranges
        .iter()
        .any(|range| range.0 <= number && number <= range.1)
}

impl KeyExchange {
    /// Returns the key exchange of a registered suite; `None` for those of TLS 1.3, and those with
    /// Kerberos, SRP, GOST or passwords.
    pub fn of(suite: TlsCipherSuiteID) -> Option<KeyExchange>
        ensures { result ≡ key_exchange suite.0 }
    {
        match suite.0 {
            suite if is_within(RSA, suite) => Some(unsigned(false, Public::Rsa)),
            suite if is_within(DH, suite) => Some(signed(Public::Dh)),
            suite if is_within(ANONYMOUS_DH, suite) => Some(unsigned(false, Public::Dh)),
            suite if is_within(ECDH, suite) => Some(signed(Public::Ecdh)),
            suite if is_within(ANONYMOUS_ECDH, suite) => Some(unsigned(false, Public::Ecdh)),
            suite if is_within(KNOWN_KEY, suite) => Some(unsigned(true, Public::Nothing)),
            suite if is_within(KNOWN_KEY_WITH_DH, suite) => Some(unsigned(true, Public::Dh)),
            suite if is_within(KNOWN_KEY_WITH_ECDH, suite) => Some(unsigned(true, Public::Ecdh)),
            suite if is_within(KNOWN_KEY_WITH_RSA, suite) => Some(unsigned(true, Public::Rsa)),
            _ => None,
        }
    }

    /// Returns whether the server's key exchange has the parameters of a curve (RFC 8422, section
    /// 5.4).
    ///
    /// Suites with fixed keys, whose server sends no key exchange, aren't distinguished.
    pub fn is_over_curves(self) -> bool
        ensures { result ≡ is_over_curves self }
    {
        matches!(self.public, Public::Ecdh)
    }
}
