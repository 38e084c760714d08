//! BER's TRUE, which is read and which DER forbids (X.690, sections 8.2.2 and 11.1).
#![tactic(auto, using(layouts::proofs::OneAnswerLemmas::read_allowed))]

ghost use Rattle.std.specs.Prelude.{◌≡◌, Option};
ghost use Rattle.std.specs.Option.{option_map};
ghost use Rattle.layouts.specs.Answers.{Gives};
ghost use Rattle.layouts.specs.Bytes.{Bytes};
ghost use Rattle.x509_text.specs.Strict.{ca_fault_in, critical_fault_in, strict_constraints};
ghost use Rattle.x509_text.specs.Strict.{strict_constraints_content, strict_extension};
ghost use Rattle.x509_text.specs.Strict.{strict_extension_content, unless_of_ber as unless_of_ber_by};

use crate::fault::{ListFault, extensions_fault, kind_of, list_fault};
use der::{AllBytes, Boolean, Integer, object_identifier, optional, tag, tagged};
use layouts::{ErrorKind, IResult, InPlace, Items, parsed};
use x509::{Extensions, parse_basic_constraints};

/// The content of an extension with DER's BOOLEAN. Reading it returns the extension's value.
struct StrictContent;

impl<'a> InPlace<'a> for StrictContent {
    type Read = &'a [u8];

    ghost Value = { Bytes };

    ghost view = { λ v. v.now };

    ghost layout = { strict_extension_content };

    #[tactic(auto, using(layouts::proofs::OneAnswerLemmas::read_allowed), unfolding(crate::specs::Strict::strict_extension_content))]
    fn read(i: &'a [u8]) -> IResult<&'a [u8], &'a [u8]> {
        let (i, _) = parsed!(object_identifier(i));
        let (i, _) = parsed!(optional::<Boolean>(i, tag::BOOLEAN));
        tagged::<AllBytes>(i, tag::OCTET_STRING)
    }
}

/// An extension with DER's BOOLEAN. Reading it returns the extension's value.
struct StrictExtensions;

impl<'a> InPlace<'a> for StrictExtensions {
    type Read = &'a [u8];

    ghost Value = { Bytes };

    ghost view = { λ v. v.now };

    ghost layout = { strict_extension };

    #[tactic(auto, using(layouts::proofs::OneAnswerLemmas::read_allowed), unfolding(crate::specs::Strict::strict_extension))]
    fn read(i: &'a [u8]) -> IResult<&'a [u8], &'a [u8]> {
        tagged::<StrictContent>(i, tag::SEQUENCE)
    }
}

/// The first fault by DER, unless BER has it too.
fn unless_of_ber(by_der: Option<ListFault>, by_ber: Option<ListFault>) -> Option<ListFault>
    ensures { result ≡ unless_of_ber_by by_der by_ber }
{
    let der = by_der?;
    match by_ber {
        Some(ber) if der.at == ber.at => None,
        _ => Some(der),
    }
}

/// The first extension whose `critical` is BER's TRUE; `None` if none of those that can be read is
/// so.
pub fn critical_fault(extensions: Items<Extensions>) -> Option<ListFault>
    ensures { result ≡ critical_fault_in extensions.entry.bytes.now }
{
    let der = list_fault::<StrictExtensions>(Items::new(extensions.bytes()));
    unless_of_ber(der, extensions_fault(extensions))
}

/// The content of BasicConstraints with DER's BOOLEAN. Reading it returns the pathLenConstraint.
struct StrictConstraints;

impl<'a> InPlace<'a> for StrictConstraints {
    type Read = Option<&'a [u8]>;

    ghost Value = { Option Bytes };

    ghost view = { λ v. option_map (λ n. n.now) v };

    ghost layout = { strict_constraints_content };

    #[tactic(auto, using(layouts::proofs::OneAnswerLemmas::read_allowed), unfolding(crate::specs::Strict::strict_constraints_content))]
    fn read(i: &'a [u8]) -> IResult<&'a [u8], Option<&'a [u8]>> {
        let (i, _) = parsed!(optional::<Boolean>(i, tag::BOOLEAN));
        optional::<Integer>(i, tag::INTEGER)
    }
}

/// Parses BasicConstraints with DER's BOOLEAN, and returns the pathLenConstraint.
#[tactic(auto, using(layouts::proofs::OneAnswerLemmas::read_allowed), unfolding(crate::specs::Strict::strict_constraints))]
fn read_strict_constraints(i: &[u8]) -> IResult<&[u8], Option<&[u8]>>
    ensures { Gives (λ v. option_map (λ n. n.now) v) strict_constraints i.now result }
{
    tagged::<StrictConstraints>(i, tag::SEQUENCE)
}

/// The broken rule if the cA of BasicConstraints that can be read is BER's TRUE.
pub fn ca_fault(value: &[u8]) -> Option<ErrorKind>
    ensures { result ≡ ca_fault_in value.now }
{
    if parse_basic_constraints(value).is_err() {
        return None;
    }
    match read_strict_constraints(value) {
        Ok(_) => None,
        Err(refusal) => Some(kind_of(refusal)),
    }
}
