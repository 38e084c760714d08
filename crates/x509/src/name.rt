//! Names (RFC 5280, section 4.1.2.4).
#![tactic(auto, using(layouts::proofs::OneAnswerLemmas::read_allowed))]

ghost use Rattle.std.specs.Prelude.{List};
ghost use Rattle.layouts.specs.Answers.{Gives};
ghost use Rattle.layouts.specs.Items.{items_in};
ghost use Rattle.x509.specs.Name.{AttributeTypeAndValue as PlainAttribute, view_attribute, attribute_content, attribute, relative_distinguished_name, whole_set, name as name_layout};

use der::{Element, ItemsOf, ListOf, ObjectIdentifier, object_identifier, tag, tagged};
use layouts::{IResult, InPlace, Items, parsed};

/// An attribute of a name.
#[derive(Clone, Copy, Debug, PartialEq)]
pub struct AttributeTypeAndValue<'a> {
    /// Its type, such as 2.5.4.3 for a commonName.
    pub attribute_type: ObjectIdentifier<'a>,
    /// Its value, usually a string of the kind that its tag gives.
    pub value: Element<'a>,
}

/// The content of an attribute.
struct AttributeContent;

impl<'a> InPlace<'a> for AttributeContent {
    type Read = AttributeTypeAndValue<'a>;

    ghost Value = { PlainAttribute };

    ghost view = { view_attribute };

    ghost layout = { attribute_content };

    #[tactic(auto, using(layouts::proofs::OneAnswerLemmas::read_allowed), unfolding(crate::specs::Name::attribute_content))]
    fn read(i: &'a [u8]) -> IResult<&'a [u8], AttributeTypeAndValue<'a>> {
        let (i, attribute_type) = parsed!(object_identifier(i));
        let (i, value) = parsed!(Element::read(i));
        let attribute = AttributeTypeAndValue {
            attribute_type,
            value,
        };
        Ok((i, attribute))
    }
}

/// A list of attributes; each is parsed as an [`AttributeTypeAndValue`].
pub struct Attributes;

impl<'a> InPlace<'a> for Attributes {
    type Read = AttributeTypeAndValue<'a>;

    ghost Value = { PlainAttribute };

    ghost view = { view_attribute };

    ghost layout = { attribute };

    #[tactic(auto, using(layouts::proofs::OneAnswerLemmas::read_allowed), unfolding(crate::specs::Name::attribute))]
    fn read(i: &'a [u8]) -> IResult<&'a [u8], AttributeTypeAndValue<'a>> {
        tagged::<AttributeContent>(i, tag::SEQUENCE)
    }
}

/// A set of attributes; most have one.
pub type RelativeDistinguishedName<'a> = Items<'a, Attributes>;

/// A list of sets of attributes; each is parsed as a [`RelativeDistinguishedName`].
pub struct RelativeDistinguishedNames;

impl<'a> InPlace<'a> for RelativeDistinguishedNames {
    type Read = Items<'a, Attributes>;

    ghost Value = { List PlainAttribute };

    ghost view = { λ v. items_in attribute v.bytes.now };

    ghost layout = { relative_distinguished_name };

    #[tactic(auto, using(layouts::proofs::OneAnswerLemmas::read_allowed), unfolding(crate::specs::Name::relative_distinguished_name))]
    fn read(i: &'a [u8]) -> IResult<&'a [u8], Items<'a, Attributes>> {
        tagged::<ItemsOf<Attributes>>(i, tag::SET)
    }
}

/// A list of sets of attributes, as [`RelativeDistinguishedNames`], that ends in front of a set
/// with an attribute that can't be parsed.
pub struct WholeSets;

impl<'a> InPlace<'a> for WholeSets {
    type Read = Items<'a, Attributes>;

    ghost Value = { List PlainAttribute };

    ghost view = { λ v. items_in attribute v.bytes.now };

    ghost layout = { whole_set };

    #[tactic(auto, using(layouts::proofs::OneAnswerLemmas::read_allowed), unfolding(crate::specs::Name::whole_set))]
    fn read(i: &'a [u8]) -> IResult<&'a [u8], Items<'a, Attributes>> {
        tagged::<ListOf<Attributes>>(i, tag::SET)
    }
}

/// A name: sets of attributes, in order, each parsed when the iterator reaches it.
pub type Name<'a> = Items<'a, RelativeDistinguishedNames>;

/// Parses a Name, without copying.
///
/// It refuses what [`der::tagged`] does if there is no SEQUENCE. A broken rule within it ends the
/// iterator, and [`Items::refusal`] returns it.
#[tactic(auto, using(layouts::proofs::OneAnswerLemmas::read_allowed), unfolding(crate::specs::Name::name))]
pub fn parse_name(i: &[u8]) -> IResult<&[u8], Name>
    ensures { Gives (λ v. items_in relative_distinguished_name v.bytes.now) name_layout
        i.now result }
{
    tagged::<ItemsOf<RelativeDistinguishedNames>>(i, tag::SEQUENCE)
}
