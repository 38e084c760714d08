//! The extension encrypted_client_hello of a ClientHello.
ghost use Rattle.std.specs.Prelude.{◌≡◌};
ghost use Rattle.std.specs.Option.{option_map};
ghost use Rattle.layouts.specs.Answers.{Gives};
ghost use Rattle.tls_summary.specs.Encrypted.{ech_client_hello, encrypted_in as encrypted_by, view_encrypted};

use layouts::{ErrorKind, IResult, counted2, number1, number2, parsed, refused};

/// The encrypted_client_hello of a ClientHello in the clear, whose type is outer (RFC 9849, section
/// 5). A client without the server's key sends one of random values (section 6.2).
#[derive(Clone, Copy, Debug, PartialEq)]
pub struct EncryptedClientHello<'a> {
    /// The HPKE key derivation function (RFC 9180, section 7.2).
    pub kdf: u16,
    /// The HPKE encryption (RFC 9180, section 7.3).
    pub aead: u16,
    /// The server's configuration by which the hello is encrypted, or a random number.
    pub config_id: u8,
    /// The HPKE encapsulated key; empty in the hello that a HelloRetryRequest asked for (section
    /// 6.1.5).
    pub enc: &'a [u8],
    /// The encrypted hello.
    pub payload: &'a [u8],
}

/// Reads the outer form of ECHClientHello (RFC 9849, section 5): type 0, 2 bytes of KDF, 2 of AEAD,
/// 1 of config_id, then the key and the payload, each after 2 bytes of length.
///
/// Refuses another type and an empty payload. `Incomplete` with the bytes missing from the first
/// incomplete part.
#[tactic(auto, using(layouts::proofs::OneAnswerLemmas::read_allowed), unfolding(crate::specs::Encrypted::ech_client_hello))]
fn parse_encrypted(i: &[u8]) -> IResult<&[u8], EncryptedClientHello>
    ensures { Gives view_encrypted ech_client_hello i.now result }
{
    let (i, kind) = parsed!(number1(i));
    if kind != 0 {
        return refused(i, ErrorKind::Switch);
    }
    let (i, kdf) = parsed!(number2(i));
    let (i, aead) = parsed!(number2(i));
    let (i, config_id) = parsed!(number1(i));
    let (i, enc) = parsed!(counted2(i));
    let (i, payload) = parsed!(counted2(i));
    if payload.is_empty() {
        return refused(i, ErrorKind::LengthValue);
    }
    let hello = EncryptedClientHello {
        kdf,
        aead,
        config_id,
        enc,
        payload,
    };
    Ok((i, hello))
}

/// What an extension with this content says; `None` if it doesn't parse to its end.
pub(crate) fn encrypted_in(content: Option<&[u8]>) -> Option<EncryptedClientHello>
    ensures { option_map view_encrypted result ≡ encrypted_by
        (option_map (λ x. x.now) content.entry) }
{
    match parse_encrypted(content?) {
        Ok(([], hello)) => Some(hello),
        Ok(_) | Err(_) => None,
    }
}
