//! Key exchange groups.
ghost use Rattle.std.specs.Prelude.{Some, codes, ◌≡◌};
ghost use Rattle.layouts.specs.Layout.{number};
ghost use Rattle.layouts.specs.Answers.{Gives};
ghost use Rattle.std.specs.Option.{option_map};
ghost use Rattle.tls_base.specs.Names.{look_up, name};
ghost use Rattle.tls_base.specs.Registered.{registered_groups};
ghost use Rattle.tls_base.specs.Constants.{key_bits as key_bits_of, named_groups};

use crate::name::{find_name, find_number, names, registered, write_name};
use layouts::{IResult, Number, number2, parsed};
use std::fmt;

/// A key exchange group: the NamedGroup of RFC 8446, section 4.2.7, 2 bytes, big-endian.
///
/// It includes the NamedCurve of RFC 4492, section 5.1.1, of which RFC 8422, section 5.1.1,
/// deprecates 1 to 22, 0xff01 and 0xff02.
#[derive(Clone, Copy, Debug, PartialEq, Eq)]
pub struct NamedGroup(pub u16);

impl NamedGroup {
    /// `sect163k1` (RFC 4492, section 5.1.1).
    pub const Sect163k1: NamedGroup = NamedGroup(1);

    /// `sect163r1` (RFC 4492, section 5.1.1).
    pub const Sect163r1: NamedGroup = NamedGroup(2);

    /// `sect163r2` (RFC 4492, section 5.1.1).
    pub const Sect163r2: NamedGroup = NamedGroup(3);

    /// `sect193r1` (RFC 4492, section 5.1.1).
    pub const Sect193r1: NamedGroup = NamedGroup(4);

    /// `sect193r2` (RFC 4492, section 5.1.1).
    pub const Sect193r2: NamedGroup = NamedGroup(5);

    /// `sect233k1` (RFC 4492, section 5.1.1).
    pub const Sect233k1: NamedGroup = NamedGroup(6);

    /// `sect233r1` (RFC 4492, section 5.1.1).
    pub const Sect233r1: NamedGroup = NamedGroup(7);

    /// `sect239k1` (RFC 4492, section 5.1.1).
    pub const Sect239k1: NamedGroup = NamedGroup(8);

    /// `sect283k1` (RFC 4492, section 5.1.1).
    pub const Sect283k1: NamedGroup = NamedGroup(9);

    /// `sect283r1` (RFC 4492, section 5.1.1).
    pub const Sect283r1: NamedGroup = NamedGroup(10);

    /// `sect409k1` (RFC 4492, section 5.1.1).
    pub const Sect409k1: NamedGroup = NamedGroup(11);

    /// `sect409r1` (RFC 4492, section 5.1.1).
    pub const Sect409r1: NamedGroup = NamedGroup(12);

    /// `sect571k1` (RFC 4492, section 5.1.1).
    pub const Sect571k1: NamedGroup = NamedGroup(13);

    /// `sect571r1` (RFC 4492, section 5.1.1).
    pub const Sect571r1: NamedGroup = NamedGroup(14);

    /// `secp160k1` (RFC 4492, section 5.1.1).
    pub const Secp160k1: NamedGroup = NamedGroup(15);

    /// `secp160r1` (RFC 4492, section 5.1.1).
    pub const Secp160r1: NamedGroup = NamedGroup(16);

    /// `secp160r2` (RFC 4492, section 5.1.1).
    pub const Secp160r2: NamedGroup = NamedGroup(17);

    /// `secp192k1` (RFC 4492, section 5.1.1).
    pub const Secp192k1: NamedGroup = NamedGroup(18);

    /// `secp192r1` (RFC 4492, section 5.1.1).
    pub const Secp192r1: NamedGroup = NamedGroup(19);

    /// `secp224k1` (RFC 4492, section 5.1.1).
    pub const Secp224k1: NamedGroup = NamedGroup(20);

    /// `secp224r1` (RFC 4492, section 5.1.1).
    pub const Secp224r1: NamedGroup = NamedGroup(21);

    /// `secp256k1` (RFC 4492, section 5.1.1).
    pub const Secp256k1: NamedGroup = NamedGroup(22);

    /// `secp256r1` (RFC 8422, section 5.1.1).
    pub const Secp256r1: NamedGroup = NamedGroup(23);

    /// `secp384r1` (RFC 8422, section 5.1.1).
    pub const Secp384r1: NamedGroup = NamedGroup(24);

    /// `secp521r1` (RFC 8422, section 5.1.1).
    pub const Secp521r1: NamedGroup = NamedGroup(25);

    /// `brainpoolP256r1` (RFC 7027). In TLS 1.3 it has another number.
    pub const BrainpoolP256r1: NamedGroup = NamedGroup(26);

    /// `brainpoolP384r1` (RFC 7027). In TLS 1.3 it has another number.
    pub const BrainpoolP384r1: NamedGroup = NamedGroup(27);

    /// `brainpoolP512r1` (RFC 7027). In TLS 1.3 it has another number.
    pub const BrainpoolP512r1: NamedGroup = NamedGroup(28);

    /// `x25519` (RFC 8422, section 5.1.1).
    pub const EcdhX25519: NamedGroup = NamedGroup(29);

    /// `x448` (RFC 8422, section 5.1.1).
    pub const EcdhX448: NamedGroup = NamedGroup(30);

    /// `brainpoolP256r1tls13` (RFC 8734).
    pub const BrainpoolP256r1tls13: NamedGroup = NamedGroup(31);

    /// `brainpoolP384r1tls13` (RFC 8734).
    pub const BrainpoolP384r1tls13: NamedGroup = NamedGroup(32);

    /// `brainpoolP512r1tls13` (RFC 8734).
    pub const BrainpoolP512r1tls13: NamedGroup = NamedGroup(33);

    /// `curveSM2` (RFC 8998).
    pub const Sm2: NamedGroup = NamedGroup(41);

    /// `ffdhe2048` (RFC 7919): a finite field.
    pub const Ffdhe2048: NamedGroup = NamedGroup(0x0100);

    /// `ffdhe3072` (RFC 7919): a finite field.
    pub const Ffdhe3072: NamedGroup = NamedGroup(0x0101);

    /// `ffdhe4096` (RFC 7919): a finite field.
    pub const Ffdhe4096: NamedGroup = NamedGroup(0x0102);

    /// `ffdhe6144` (RFC 7919): a finite field.
    pub const Ffdhe6144: NamedGroup = NamedGroup(0x0103);

    /// `ffdhe8192` (RFC 7919): a finite field.
    pub const Ffdhe8192: NamedGroup = NamedGroup(0x0104);

    /// `arbitrary_explicit_prime_curves` (RFC 4492, section 5.1.1): any curve over a prime field,
    /// given by its parameters.
    pub const ArbitraryExplicitPrimeCurves: NamedGroup = NamedGroup(0xff01);

    /// `arbitrary_explicit_char2_curves` (RFC 4492, section 5.1.1): any curve over a field of
    /// characteristic 2, given by its parameters.
    pub const ArbitraryExplicitChar2Curves: NamedGroup = NamedGroup(0xff02);

    /// Returns the length of a key, in bits, for the curves of RFC 4492 and RFC 7027 and for X25519
    /// (253); `None` for any other group.
    pub fn key_bits(self) -> Option<u16>
        ensures { result ≡ key_bits_of self.0 }
    {
        find_number(KEY_BITS, self.0)
    }

    /// Returns the number's name in IANA's registry of groups, without the remark that it is
    /// reserved; `None` if it has none.
    pub fn registered_name(self) -> Option<&'static str>
        ensures { option_map (λ t. t.now) result ≡ look_up registered_groups self.0 }
    {
        find_name(REGISTERED, self.0)
    }

    /// Reads 2 bytes, big-endian. `Incomplete` with the number of missing bytes, 2 or 1.
    pub fn parse(i: &[u8]) -> IResult<&[u8], Self>
        ensures { Gives (λ v. v.0) (number 2) i.now result }
    {
        let (i, n) = parsed!(number2(i));
        Ok((i, NamedGroup(n)))
    }
}

impl Number for NamedGroup {
    ghost WIDTH = { 2 };

    const WIDTH: usize = 2;

    ghost value = { λ v. v.0 };

    #[inline(always)]
    fn read_present(i: &[u8]) -> (&[u8], Self) {
        let (i, n) = u16::read_present(i);
        (i, NamedGroup(n))
    }
}

/// The length of a key, in bits, of each group that has one here.
static KEY_BITS: &[(u16, u16)] = &[
    (NamedGroup::Sect163k1.0, 163),
    (NamedGroup::Sect163r1.0, 163),
    (NamedGroup::Sect163r2.0, 163),
    (NamedGroup::Sect193r1.0, 193),
    (NamedGroup::Sect193r2.0, 193),
    (NamedGroup::Sect233k1.0, 233),
    (NamedGroup::Sect233r1.0, 233),
    (NamedGroup::Sect239k1.0, 239),
    (NamedGroup::Sect283k1.0, 283),
    (NamedGroup::Sect283r1.0, 283),
    (NamedGroup::Sect409k1.0, 409),
    (NamedGroup::Sect409r1.0, 409),
    (NamedGroup::Sect571k1.0, 571),
    (NamedGroup::Sect571r1.0, 571),
    (NamedGroup::Secp160k1.0, 160),
    (NamedGroup::Secp160r1.0, 160),
    (NamedGroup::Secp160r2.0, 160),
    (NamedGroup::Secp192k1.0, 192),
    (NamedGroup::Secp192r1.0, 192),
    (NamedGroup::Secp224k1.0, 224),
    (NamedGroup::Secp224r1.0, 224),
    (NamedGroup::Secp256k1.0, 256),
    (NamedGroup::Secp256r1.0, 256),
    (NamedGroup::Secp384r1.0, 384),
    (NamedGroup::Secp521r1.0, 521),
    (NamedGroup::BrainpoolP256r1.0, 256),
    (NamedGroup::BrainpoolP384r1.0, 384),
    (NamedGroup::BrainpoolP512r1.0, 512),
    (NamedGroup::EcdhX25519.0, 253),
];

/// The registry of groups, in increasing order: a row for each number with a constant or a
/// registered name.
macro_rules! rows {
    ($column:ident) => {
        $column! {
            NamedGroup:
            Sect163k1 = "sect163k1";
            Sect163r1 = "sect163r1";
            Sect163r2 = "sect163r2";
            Sect193r1 = "sect193r1";
            Sect193r2 = "sect193r2";
            Sect233k1 = "sect233k1";
            Sect233r1 = "sect233r1";
            Sect239k1 = "sect239k1";
            Sect283k1 = "sect283k1";
            Sect283r1 = "sect283r1";
            Sect409k1 = "sect409k1";
            Sect409r1 = "sect409r1";
            Sect571k1 = "sect571k1";
            Sect571r1 = "sect571r1";
            Secp160k1 = "secp160k1";
            Secp160r1 = "secp160r1";
            Secp160r2 = "secp160r2";
            Secp192k1 = "secp192k1";
            Secp192r1 = "secp192r1";
            Secp224k1 = "secp224k1";
            Secp224r1 = "secp224r1";
            Secp256k1 = "secp256k1";
            Secp256r1 = "secp256r1";
            Secp384r1 = "secp384r1";
            Secp521r1 = "secp521r1";
            BrainpoolP256r1 = "brainpoolP256r1";
            BrainpoolP384r1 = "brainpoolP384r1";
            BrainpoolP512r1 = "brainpoolP512r1";
            EcdhX25519 = "x25519";
            EcdhX448 = "x448";
            BrainpoolP256r1tls13 = "brainpoolP256r1tls13";
            BrainpoolP384r1tls13 = "brainpoolP384r1tls13";
            BrainpoolP512r1tls13 = "brainpoolP512r1tls13";
            34 = "GC256A"; // RFC 9189
            35 = "GC256B"; // RFC 9189
            36 = "GC256C"; // RFC 9189
            37 = "GC256D"; // RFC 9189
            38 = "GC512A"; // RFC 9189
            39 = "GC512B"; // RFC 9189
            40 = "GC512C"; // RFC 9189
            Sm2 = "curveSM2";
            Ffdhe2048 = "ffdhe2048";
            Ffdhe3072 = "ffdhe3072";
            Ffdhe4096 = "ffdhe4096";
            Ffdhe6144 = "ffdhe6144";
            Ffdhe8192 = "ffdhe8192";
            512 = "MLKEM512"; // draft-ietf-tls-mlkem
            513 = "MLKEM768"; // draft-ietf-tls-mlkem
            514 = "MLKEM1024"; // draft-ietf-tls-mlkem
            4587 = "SecP256r1MLKEM768"; // draft-ietf-tls-ecdhe-mlkem
            4588 = "X25519MLKEM768"; // draft-ietf-tls-ecdhe-mlkem
            4589 = "SecP384r1MLKEM1024"; // draft-ietf-tls-ecdhe-mlkem
            4590 = "curveSM2MLKEM768"; // draft-yang-tls-hybrid-sm2-mlkem
            0x6399 = "X25519Kyber768Draft00"; // draft-tls-westerbaan-xyber768d00
            0x639a = "SecP256r1Kyber768Draft00"; // draft-kwiatkowski-tls-ecdhe-kyber
            ArbitraryExplicitPrimeCurves = "arbitrary_explicit_prime_curves";
            ArbitraryExplicitChar2Curves = "arbitrary_explicit_char2_curves";
        }
    };
}

/// The constants, each as its number and its name.
static NAMES: &[(u16, &str)] = rows!(names);

/// The registry's names, each after its number.
static REGISTERED: &[(u16, &str)] = rows!(registered);

impl fmt::Display for NamedGroup {
    ghost output = { λ v. Some (name (codes "NamedGroup") named_groups v.0) };

    fn fmt<W: fmt::Write>(&self, f: &mut fmt::Formatter<W>) -> fmt::Result {
        write_name(f, "NamedGroup", NAMES, self.0)
    }
}
