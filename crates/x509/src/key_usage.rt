//! What a key may be used for (RFC 5280, sections 4.2.1.3 and 4.2.1.12).
#![tactic(auto, using(layouts::proofs::OneAnswerLemmas::read_allowed))]

ghost use Rattle.std.specs.Prelude.{◌≡◌};
ghost use Rattle.layouts.specs.Answers.{Gives};
ghost use Rattle.layouts.specs.Items.{items_in};
ghost use Rattle.der.specs.Values.{view_bit_string};
ghost use Rattle.x509.specs.Extensions.{usage_of as usage_by, key_usage, KeyPurposeId as PlainKeyPurpose, view_key_purpose, purpose_of as purpose_by, key_purpose, extended_key_usage};

use crate::oid;
use der::{BitString, ItemsOf, ObjectIdentifier, object_identifier, tag, tagged};
use layouts::{IResult, InPlace, Items, parsed};

/// What a key may be used for.
#[derive(Clone, Copy, Debug, PartialEq, Eq)]
pub struct KeyUsage {
    /// Signatures other than those on certificates and revocation lists.
    pub digital_signature: bool,
    /// Signatures that commit their signer (also called nonRepudiation).
    pub content_commitment: bool,
    /// Encryption of keys.
    pub key_encipherment: bool,
    /// Encryption of other data.
    pub data_encipherment: bool,
    /// Key agreement.
    pub key_agreement: bool,
    /// Signatures on certificates.
    pub key_cert_sign: bool,
    /// Signatures on revocation lists.
    pub crl_sign: bool,
    /// With key agreement: encryption only.
    pub encipher_only: bool,
    /// With key agreement: decryption only.
    pub decipher_only: bool,
}

/// The usage in these bits.
fn usage_of(bits: BitString) -> KeyUsage
    ensures { result ≡ usage_by (view_bit_string bits.entry) }
{
    KeyUsage {
        digital_signature: bits.bit(0),
        content_commitment: bits.bit(1),
        key_encipherment: bits.bit(2),
        data_encipherment: bits.bit(3),
        key_agreement: bits.bit(4),
        key_cert_sign: bits.bit(5),
        crl_sign: bits.bit(6),
        encipher_only: bits.bit(7),
        decipher_only: bits.bit(8),
    }
}

/// Parses a KeyUsage, the value of keyUsage. Other bits are ignored.
///
/// It refuses what [`der::tagged`] and parsing a [`BitString`] do.
#[tactic(auto, using(layouts::proofs::OneAnswerLemmas::read_allowed), unfolding(crate::specs::Extensions::key_usage))]
pub fn parse_key_usage(i: &[u8]) -> IResult<&[u8], KeyUsage>
    ensures { Gives (λ v. v) key_usage i.now result }
{
    let (i, bits) = parsed!(tagged::<BitString>(i, tag::BIT_STRING));
    Ok((i, usage_of(bits)))
}

/// A purpose that a key may be used for.
#[derive(Clone, Copy, Debug, PartialEq)]
pub enum KeyPurposeId<'a> {
    /// Any purpose.
    AnyExtendedKeyUsage,
    /// A TLS server.
    ServerAuth,
    /// A TLS client.
    ClientAuth,
    /// Code signing.
    CodeSigning,
    /// Mail protection.
    EmailProtection,
    /// Binding a digest to a time.
    TimeStamping,
    /// Signing OCSP responses.
    OcspSigning,
    /// Another one.
    Other(ObjectIdentifier<'a>),
}

/// The purpose of an object identifier.
fn purpose_of(id: ObjectIdentifier) -> KeyPurposeId
    ensures { view_key_purpose result ≡ purpose_by id.entry.content.now }
{
    if id.content == oid::ANY_EXTENDED_KEY_USAGE.content {
        KeyPurposeId::AnyExtendedKeyUsage
    } else if id.content == oid::SERVER_AUTH.content {
        KeyPurposeId::ServerAuth
    } else if id.content == oid::CLIENT_AUTH.content {
        KeyPurposeId::ClientAuth
    } else if id.content == oid::CODE_SIGNING.content {
        KeyPurposeId::CodeSigning
    } else if id.content == oid::EMAIL_PROTECTION.content {
        KeyPurposeId::EmailProtection
    } else if id.content == oid::TIME_STAMPING.content {
        KeyPurposeId::TimeStamping
    } else if id.content == oid::OCSP_SIGNING.content {
        KeyPurposeId::OcspSigning
    } else {
        KeyPurposeId::Other(id)
    }
}

/// A list of purposes; each is parsed as a [`KeyPurposeId`].
pub struct KeyPurposeIds;

impl<'a> InPlace<'a> for KeyPurposeIds {
    type Read = KeyPurposeId<'a>;

    ghost Value = { PlainKeyPurpose };

    ghost view = { view_key_purpose };

    ghost layout = { key_purpose };

    #[tactic(auto, using(layouts::proofs::OneAnswerLemmas::read_allowed), unfolding(crate::specs::Extensions::key_purpose))]
    fn read(i: &'a [u8]) -> IResult<&'a [u8], KeyPurposeId<'a>> {
        let (i, id) = parsed!(object_identifier(i));
        Ok((i, purpose_of(id)))
    }
}

/// Parses an ExtKeyUsageSyntax, the value of extKeyUsage, without copying.
///
/// It refuses what [`der::tagged`] does if there is no SEQUENCE. A broken rule within it ends the
/// iterator, and [`Items::refusal`] returns it.
#[tactic(auto, using(layouts::proofs::OneAnswerLemmas::read_allowed), unfolding(crate::specs::Extensions::extended_key_usage))]
pub fn parse_extended_key_usage<'a>(i: &'a [u8]) -> IResult<&'a [u8], Items<'a, KeyPurposeIds>>
    ensures { Gives (λ v. items_in key_purpose v.bytes.now) extended_key_usage i.now result }
{
    tagged::<ItemsOf<KeyPurposeIds>>(i, tag::SEQUENCE)
}
