//! Contents of single values, with their places.
#![tactic(auto, using(layouts::proofs::OneAnswerLemmas::read_allowed))]

ghost use Rattle.std.specs.Prelude.{List};
ghost use Rattle.layouts.specs.Bytes.{Bytes};
ghost use Rattle.layouts.specs.Items.{items_in};
ghost use Rattle.layouts.specs.Layout.{rest as rest_layout};
ghost use Rattle.der.specs.Element.{items_of};
ghost use Rattle.der.specs.ObjectIdentifier.{object_identifier_content, view_object_identifier};
ghost use Rattle.der.specs.Values.{BitString as PlainBitString, bit_string, integer, view_bit_string};
ghost use Rattle.x509_places.specs.Place.{Stands};

use crate::part::Part;
use crate::place::place_before;
use der::{BitString, Integer, ObjectIdentifier};
use layouts::{IResult, InPlace, Items, Place, rest};
use std::marker::PhantomData;

/// The content of an OBJECT IDENTIFIER.
pub(crate) struct ObjectIdentifierAt;

impl<'a> Part<'a> for ObjectIdentifierAt {
    type Read = (ObjectIdentifier<'a>, Place);

    ghost Value = { Bytes };

    ghost view = { λ x. view_object_identifier x.0 };

    ghost layout = { object_identifier_content };

    ghost stands = { λ b x. Stands b x.1 x.0.content.now };

    fn read_at(whole: &[u8], behind: usize, i: &'a [u8]) -> IResult<&'a [u8], Self::Read> {
        let (rest, x) = ObjectIdentifier::read(i)?;
        let place = place_before(whole, behind, x.content, rest);
        Ok((rest, (x, place)))
    }
}

/// The content of an INTEGER.
pub(crate) struct IntegerAt;

impl<'a> Part<'a> for IntegerAt {
    type Read = (&'a [u8], Place);

    ghost Value = { Bytes };

    ghost view = { λ x. x.0.now };

    ghost layout = { integer };

    ghost stands = { λ b x. Stands b x.1 x.0.now };

    fn read_at(whole: &[u8], behind: usize, i: &'a [u8]) -> IResult<&'a [u8], Self::Read> {
        let (rest, x) = Integer::read(i)?;
        let place = place_before(whole, behind, x, rest);
        Ok((rest, (x, place)))
    }
}

/// The content of a BIT STRING, and the place of its bytes.
pub(crate) struct BitStringAt;

impl<'a> Part<'a> for BitStringAt {
    type Read = (BitString<'a>, Place);

    ghost Value = { PlainBitString };

    ghost view = { λ x. view_bit_string x.0 };

    ghost layout = { bit_string };

    ghost stands = { λ b x. Stands b x.1 x.0.bytes.now };

    fn read_at(whole: &[u8], behind: usize, i: &'a [u8]) -> IResult<&'a [u8], Self::Read> {
        let (rest, x) = BitString::read(i)?;
        let place = place_before(whole, behind, x.bytes, rest);
        Ok((rest, (x, place)))
    }
}

/// All bytes of a content.
pub(crate) struct AllBytesAt;

impl<'a> Part<'a> for AllBytesAt {
    type Read = (&'a [u8], Place);

    ghost Value = { Bytes };

    ghost view = { λ x. x.0.now };

    ghost layout = { rest_layout };

    ghost stands = { λ b x. Stands b x.1 x.0.now };

    fn read_at(whole: &[u8], behind: usize, i: &'a [u8]) -> IResult<&'a [u8], Self::Read> {
        let (after, x) = rest(i)?;
        let place = place_before(whole, behind, x, after);
        Ok((after, (x, place)))
    }
}

/// The items of a content, and their place.
pub(crate) struct ItemsAt<'a, T>(PhantomData<Items<'a, T>>);

impl<'a, T: InPlace<'a>> Part<'a> for ItemsAt<'a, T> {
    type Read = (Items<'a, T>, Place);

    ghost Value = { List T.InPlace.Value };

    ghost view = { λ x. items_in T.InPlace.layout x.0.bytes.now };

    ghost layout = { items_of T.InPlace.layout };

    ghost stands = { λ b x. Stands b x.1 x.0.bytes.now };

    #[tactic(auto, using(layouts::proofs::OneAnswerLemmas::read_allowed), unfolding(der::specs::Element::items_of))]
    fn read_at(whole: &[u8], behind: usize, i: &'a [u8]) -> IResult<&'a [u8], Self::Read> {
        let items = Items::new(i);
        let (after, _) = rest(i)?;
        let place = place_before(whole, behind, i, after);
        Ok((after, (items, place)))
    }
}
