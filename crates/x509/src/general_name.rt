//! Names in extensions (RFC 5280, section 4.2.1.6).
#![tactic(auto, using(layouts::proofs::OneAnswerLemmas::read_allowed))]

ghost use Rattle.std.specs.Prelude.{◌≡◌};
ghost use Rattle.layouts.specs.Answers.{Gives};
ghost use Rattle.layouts.specs.Items.{items_in};
ghost use Rattle.der.specs.Element.{view_element};
ghost use Rattle.x509.specs.GeneralName.{GeneralName as PlainGeneralName, view_general_name, name_of, general_name, general_names, OtherName as PlainOtherName, view_other_name, other_name};

use der::{Element, ItemsOf, ObjectIdentifier, object_identifier, tag, tagged};
use layouts::{IResult, InPlace, Items, parsed};

/// A name of a subject or an issuer. The bytes of text are returned as they are.
#[derive(Clone, Copy, Debug, PartialEq)]
pub enum GeneralName<'a> {
    /// A mail address: an IA5String.
    Rfc822Name(&'a [u8]),
    /// A DNS name: an IA5String.
    DnsName(&'a [u8]),
    /// A URI: an IA5String.
    UniformResourceIdentifier(&'a [u8]),
    /// An IP address: 4 or 16 bytes if it keeps the rule, which isn't checked.
    IpAddress(&'a [u8]),
    /// Another kind of name, by its tag: otherName 0xa0, x400Address 0xa3, directoryName 0xa4,
    /// ediPartyName 0xa5, registeredID 0x88.
    Other(Element<'a>),
}

/// The name in an element.
fn general_name_of(e: Element) -> GeneralName
    ensures { view_general_name result ≡ name_of (view_element e.entry) }
{
    match e.tag {
        0x81 => GeneralName::Rfc822Name(e.content),
        0x82 => GeneralName::DnsName(e.content),
        0x86 => GeneralName::UniformResourceIdentifier(e.content),
        0x87 => GeneralName::IpAddress(e.content),
        _ => GeneralName::Other(e),
    }
}

/// A list of names; each is parsed as a [`GeneralName`].
pub struct GeneralNames;

impl<'a> InPlace<'a> for GeneralNames {
    type Read = GeneralName<'a>;

    ghost Value = { PlainGeneralName };

    ghost view = { view_general_name };

    ghost layout = { general_name };

    #[tactic(auto, using(layouts::proofs::OneAnswerLemmas::read_allowed), unfolding(crate::specs::GeneralName::general_name))]
    fn read(i: &'a [u8]) -> IResult<&'a [u8], GeneralName<'a>> {
        let (i, e) = parsed!(Element::read(i));
        Ok((i, general_name_of(e)))
    }
}

/// Parses GeneralNames, the value of subjectAltName and issuerAltName, without copying.
///
/// It refuses what [`der::tagged`] does if there is no SEQUENCE. A broken rule within it ends the
/// iterator, and [`Items::refusal`] returns it.
#[tactic(auto, using(layouts::proofs::OneAnswerLemmas::read_allowed), unfolding(crate::specs::GeneralName::general_names))]
pub fn parse_general_names<'a>(i: &'a [u8]) -> IResult<&'a [u8], Items<'a, GeneralNames>>
    ensures { Gives (λ v. items_in general_name v.bytes.now) general_names i.now result }
{
    tagged::<ItemsOf<GeneralNames>>(i, tag::SEQUENCE)
}

/// The content of an otherName.
#[derive(Clone, Copy, Debug, PartialEq)]
pub struct OtherName<'a> {
    /// Its type, such as [`crate::oid::USER_PRINCIPAL_NAME`].
    pub type_id: ObjectIdentifier<'a>,
    /// Its value, as the type defines it.
    pub value: Element<'a>,
}

/// Parses the content of an otherName: of a [`GeneralName::Other`] with the tag 0xa0.
///
/// It refuses what [`der::object_identifier`], [`der::tagged`] and parsing an [`Element`] do.
#[tactic(auto, using(layouts::proofs::OneAnswerLemmas::read_allowed), unfolding(crate::specs::GeneralName::other_name))]
pub fn parse_other_name(i: &[u8]) -> IResult<&[u8], OtherName>
    ensures { Gives view_other_name other_name i.now result }
{
    let (i, type_id) = parsed!(object_identifier(i));
    let (i, value) = parsed!(tagged::<Element>(i, 0xa0));
    Ok((i, OtherName { type_id, value }))
}
