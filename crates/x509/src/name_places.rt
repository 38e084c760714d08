//! Where a certificate has its names (RFC 5280, sections 4.1.2.4 and 4.1.2.6).
#![tactic(auto, using(layouts::proofs::OneAnswerLemmas::read_allowed))]

ghost use Rattle.std.specs.Prelude.{◌≡◌};
ghost use Rattle.layouts.specs.Answers.{Gives};
ghost use Rattle.layouts.specs.Place.{bytes_at as bytes_there};
ghost use Rattle.x509.specs.NamePlaces.{sequence_start, name_place, name_places, names_at, view_encoded};

use crate::name::parse_name;
use der::{AllBytes, Element, der_length, optional, tag};
use layouts::{ErrorKind, IResult, InPlace, Place, number1, parsed, refused};

/// The encoded names of a certificate, each with its tag and its length.
#[derive(Clone, Copy, Debug, PartialEq)]
pub struct EncodedNames<'a> {
    /// The signer.
    pub issuer: &'a [u8],
    /// The owner of the key.
    pub subject: &'a [u8],
}

/// The places of a certificate's names, each with its tag and its length, in the certificate.
#[derive(Clone, Copy, Debug, PartialEq)]
pub struct NamePlaces {
    /// The signer.
    pub issuer: Place,
    /// The owner of the key.
    pub subject: Place,
}

/// The bytes at this place; fewer if it doesn't lie within them.
#[tactic(auto, using(crate::proofs::PlaceLemmas::cut_there))]
#[inline(always)]
fn bytes_at(whole: &[u8], place: Place) -> &[u8]
    ensures { result.now ≡ bytes_there whole.now place }
{
    let (_, behind) = whole.split_at(place.offset.min(whole.len()));
    let (part, _) = behind.split_at(place.length.min(behind.len()));
    part
}

impl NamePlaces {
    /// The names at these places of a certificate.
    pub fn names(self, certificate: &[u8]) -> EncodedNames<'_>
        ensures { view_encoded result ≡ names_at certificate.now self }
    {
        EncodedNames {
            issuer: bytes_at(certificate, self.issuer),
            subject: bytes_at(certificate, self.subject),
        }
    }
}

/// Parses the tag and the length of a SEQUENCE.
#[tactic(auto, using(layouts::proofs::OneAnswerLemmas::read_allowed), unfolding(crate::specs::NamePlaces::sequence_start))]
fn read_sequence_start(i: &[u8]) -> IResult<&[u8], usize>
    ensures { Gives (λ n. n) sequence_start i.now result }
{
    let (i, t) = parsed!(number1(i));
    if t != tag::SEQUENCE {
        return refused(i, ErrorKind::Tag);
    }
    der_length(i)
}

/// Parses a Name as its place in `whole` bytes that end with `i`.
#[tactic(auto, using(layouts::proofs::OneAnswerLemmas::read_allowed), unfolding(crate::specs::NamePlaces::name_place))]
fn read_name_place(i: &[u8], whole: usize) -> IResult<&[u8], Place>
    ensures { Gives (λ p. p) (name_place whole) i.now result }
{
    let before = i.len();
    let (i, _) = parsed!(parse_name(i));
    let place = Place {
        offset: whole.saturating_sub(before),
        length: before.saturating_sub(i.len()),
    };
    Ok((i, place))
}

/// Parses a certificate up to its subject, and returns where its names are, without copying. The
/// rest begins behind the subject.
///
/// The lengths of Certificate and TBSCertificate aren't compared with what is in them, which
/// [`parse_certificate`](crate::parse_certificate) does. It refuses what [`der::tagged`] does.
#[tactic(auto, using(layouts::proofs::OneAnswerLemmas::read_allowed), unfolding(crate::specs::NamePlaces::name_places))]
pub fn parse_name_places(i: &[u8]) -> IResult<&[u8], NamePlaces>
    ensures { Gives (λ p. p) name_places i.now result }
{
    let whole = i.len();
    let (i, _) = parsed!(read_sequence_start(i));
    let (i, _) = parsed!(read_sequence_start(i));
    let (i, _) = parsed!(optional::<AllBytes>(i, 0xa0));
    let (i, _) = parsed!(Element::read(i));
    let (i, _) = parsed!(Element::read(i));
    let (i, issuer) = parsed!(read_name_place(i, whole));
    let (i, _) = parsed!(Element::read(i));
    let (i, subject) = parsed!(read_name_place(i, whole));
    Ok((i, NamePlaces { issuer, subject }))
}
