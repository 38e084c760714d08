//! Where to find information on a certificate's issuer, and the policies it was issued under (RFC
//! 5280, sections 4.2.2.1 and 4.2.1.4).
#![tactic(auto, using(layouts::proofs::OneAnswerLemmas::read_allowed))]

ghost use Rattle.layouts.specs.Answers.{Gives};
ghost use Rattle.layouts.specs.Bytes.{Bytes};
ghost use Rattle.layouts.specs.Items.{items_in};
ghost use Rattle.der.specs.ObjectIdentifier.{view_object_identifier};
ghost use Rattle.x509.specs.Access.{AccessDescription as PlainAccess, view_access, access_description_content, access_description, authority_info_access, policy_content, policy, certificate_policies};

use crate::general_name::{GeneralName, GeneralNames};
use der::{AllBytes, ItemsOf, ObjectIdentifier, object_identifier, optional, tag, tagged};
use layouts::{IResult, InPlace, Items, parsed};

/// Where to find information of one kind.
#[derive(Clone, Copy, Debug, PartialEq)]
pub struct AccessDescription<'a> {
    /// The kind: [`crate::oid::OCSP`], [`crate::oid::CA_ISSUERS`] or another.
    pub access_method: ObjectIdentifier<'a>,
    /// The place, usually a URI.
    pub access_location: GeneralName<'a>,
}

/// The content of an AccessDescription.
struct AccessContent;

impl<'a> InPlace<'a> for AccessContent {
    type Read = AccessDescription<'a>;

    ghost Value = { PlainAccess };

    ghost view = { view_access };

    ghost layout = { access_description_content };

    #[tactic(auto, using(layouts::proofs::OneAnswerLemmas::read_allowed), unfolding(crate::specs::Access::access_description_content))]
    fn read(i: &'a [u8]) -> IResult<&'a [u8], AccessDescription<'a>> {
        let (i, access_method) = parsed!(object_identifier(i));
        let (i, access_location) = parsed!(GeneralNames::read(i));
        let description = AccessDescription {
            access_method,
            access_location,
        };
        Ok((i, description))
    }
}

/// A list of places of information; each is parsed as an [`AccessDescription`].
pub struct AccessDescriptions;

impl<'a> InPlace<'a> for AccessDescriptions {
    type Read = AccessDescription<'a>;

    ghost Value = { PlainAccess };

    ghost view = { view_access };

    ghost layout = { access_description };

    #[tactic(auto, using(layouts::proofs::OneAnswerLemmas::read_allowed), unfolding(crate::specs::Access::access_description))]
    fn read(i: &'a [u8]) -> IResult<&'a [u8], AccessDescription<'a>> {
        tagged::<AccessContent>(i, tag::SEQUENCE)
    }
}

/// Parses an AuthorityInfoAccessSyntax, the value of authorityInfoAccess, without copying.
///
/// It refuses what [`der::tagged`] does if there is no SEQUENCE. A broken rule within it ends the
/// iterator, and [`Items::refusal`] returns it.
#[tactic(auto, using(layouts::proofs::OneAnswerLemmas::read_allowed), unfolding(crate::specs::Access::authority_info_access))]
pub fn parse_authority_info_access<'a>(
    i: &'a [u8],
) -> IResult<&'a [u8], Items<'a, AccessDescriptions>>
    ensures { Gives (λ v. items_in access_description v.bytes.now) authority_info_access
        i.now result }
{
    tagged::<ItemsOf<AccessDescriptions>>(i, tag::SEQUENCE)
}

/// The content of a PolicyInformation. Its qualifiers are skipped.
struct PolicyContent;

impl<'a> InPlace<'a> for PolicyContent {
    type Read = ObjectIdentifier<'a>;

    ghost Value = { Bytes };

    ghost view = { view_object_identifier };

    ghost layout = { policy_content };

    #[tactic(auto, using(layouts::proofs::OneAnswerLemmas::read_allowed), unfolding(crate::specs::Access::policy_content))]
    fn read(i: &'a [u8]) -> IResult<&'a [u8], ObjectIdentifier<'a>> {
        let (i, id) = parsed!(object_identifier(i));
        let (i, _) = parsed!(optional::<AllBytes>(i, tag::SEQUENCE));
        Ok((i, id))
    }
}

/// A list of policies; each is parsed as its object identifier.
pub struct Policies;

impl<'a> InPlace<'a> for Policies {
    type Read = ObjectIdentifier<'a>;

    ghost Value = { Bytes };

    ghost view = { view_object_identifier };

    ghost layout = { policy };

    #[tactic(auto, using(layouts::proofs::OneAnswerLemmas::read_allowed), unfolding(crate::specs::Access::policy))]
    fn read(i: &'a [u8]) -> IResult<&'a [u8], ObjectIdentifier<'a>> {
        tagged::<PolicyContent>(i, tag::SEQUENCE)
    }
}

/// Parses CertificatePolicies, the value of certificatePolicies, without copying.
///
/// It refuses what [`der::tagged`] does if there is no SEQUENCE. A broken rule within it ends the
/// iterator, and [`Items::refusal`] returns it.
#[tactic(auto, using(layouts::proofs::OneAnswerLemmas::read_allowed), unfolding(crate::specs::Access::certificate_policies))]
pub fn parse_certificate_policies<'a>(i: &'a [u8]) -> IResult<&'a [u8], Items<'a, Policies>>
    ensures { Gives (λ v. items_in policy v.bytes.now) certificate_policies i.now result }
{
    tagged::<ItemsOf<Policies>>(i, tag::SEQUENCE)
}
