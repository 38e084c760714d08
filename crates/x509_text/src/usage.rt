//! What a key may be used for (RFC 5280, sections 4.2.1.3 and 4.2.1.12), by name.
ghost use Rattle.std.specs.Prelude.{◌≡◌, map};
ghost use Rattle.x509.specs.Extensions.{view_key_purpose};
ghost use Rattle.x509_text.specs.Usage.{purpose_content, usage_bits};

use der::ObjectIdentifier;
use x509::{KeyPurposeId, KeyUsage, oid};

/// The bits of a KeyUsage, in order: the name that RFC 5280 gives each, and whether it is set.
pub fn key_usage_bits(usage: KeyUsage) -> [(&'static str, bool); 9]
    ensures { map (λ bit. (bit.0.now, bit.1)) result ≡ usage_bits usage }
{
    [
        ("digitalSignature", usage.digital_signature),
        ("nonRepudiation", usage.content_commitment),
        ("keyEncipherment", usage.key_encipherment),
        ("dataEncipherment", usage.data_encipherment),
        ("keyAgreement", usage.key_agreement),
        ("keyCertSign", usage.key_cert_sign),
        ("cRLSign", usage.crl_sign),
        ("encipherOnly", usage.encipher_only),
        ("decipherOnly", usage.decipher_only),
    ]
}

/// The object identifier of a purpose; [`object_text`](crate::object_text) returns its name.
pub fn purpose_id<'a>(purpose: KeyPurposeId<'a>) -> ObjectIdentifier<'a>
    ensures { result.content.now ≡ purpose_content (view_key_purpose purpose.entry) }
{
    match purpose {
        KeyPurposeId::AnyExtendedKeyUsage => oid::ANY_EXTENDED_KEY_USAGE,
        KeyPurposeId::ServerAuth => oid::SERVER_AUTH,
        KeyPurposeId::ClientAuth => oid::CLIENT_AUTH,
        KeyPurposeId::CodeSigning => oid::CODE_SIGNING,
        KeyPurposeId::EmailProtection => oid::EMAIL_PROTECTION,
        KeyPurposeId::TimeStamping => oid::TIME_STAMPING,
        KeyPurposeId::OcspSigning => oid::OCSP_SIGNING,
        KeyPurposeId::Other(id) => id,
    }
}
