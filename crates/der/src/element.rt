//! Elements: a tag, a length, and as many bytes of content (X.690, sections 8.1 and 10.1).
#![tactic(auto, using(layouts::proofs::OneAnswerLemmas::read_allowed))]

ghost use Rattle.std.specs.Prelude.{List};
ghost use Rattle.std.specs.Option.{option_map};
ghost use Rattle.layouts.specs.Bytes.{Bytes};
ghost use Rattle.layouts.specs.Answers.{Gives};
ghost use Rattle.layouts.specs.Items.{items_in};
ghost use Rattle.layouts.specs.Layout.{complete, list as list_layout, rest as rest_layout};
ghost use Rattle.der.specs.Element.{whole as whole_layout, tagged as tagged_layout, optional as optional_layout, optional_element as optional_element_layout};
ghost use Rattle.der.specs.Element.{Element as PlainElement, view_element, element, element_bytes as element_bytes_layout, items_of};

use crate::length::der_length;
use layouts::{Err, ErrorKind, IResult, InPlace, Items, block, number1, parsed, refused, rest};
use std::marker::PhantomData;

/// Parses `T`, which must consume all bytes.
#[tactic(auto, using(layouts::proofs::OneAnswerLemmas::read_allowed), unfolding(crate::specs::Element::whole))]
fn whole<'a, T: InPlace<'a>>(i: &'a [u8]) -> IResult<&'a [u8], T::Read>
    ensures { Gives T.view (whole_layout T.layout) i.now result }
{
    let (i, x) = parsed!(T::read(i));
    if !i.is_empty() {
        return refused(i, ErrorKind::LengthValue);
    }
    Ok((i, x))
}

/// Parses `T` in a whole content: it must consume all bytes, and missing ones won't come.
fn whole_content<'a, T: InPlace<'a>>(i: &'a [u8]) -> IResult<&'a [u8], T::Read>
    ensures { Gives T.view (complete (whole_layout T.layout)) i.now result }
{
    match whole::<T>(i) {
        Err(Err::Incomplete(_)) => refused(i, ErrorKind::Complete),
        answer => answer,
    }
}

/// Parses an element with this tag, whose whole content `T` parses.
///
/// - `Incomplete` with the count of bytes missing of the tag, the length or the content.
/// - `Error` of kind `Tag` if the tag is another.
/// - What [`der_length`] refuses.
/// - What `T` refuses in the content; of kind `Complete` if bytes are missing there, and
///   `LengthValue` if some are left.
#[tactic(auto, using(layouts::proofs::OneAnswerLemmas::read_allowed), unfolding(crate::specs::Element::tagged))]
pub fn tagged<'a, T: InPlace<'a>>(i: &'a [u8], tag: u8) -> IResult<&'a [u8], T::Read>
    ensures { Gives T.view (tagged_layout tag T.layout) i.now result }
{
    let (i, t) = parsed!(number1(i));
    if t != tag {
        return refused(i, ErrorKind::Tag);
    }
    let (i, n) = parsed!(der_length(i));
    let (i, content) = parsed!(block(i, n));
    let (_, x) = parsed!(whole_content::<T>(content));
    Ok((i, x))
}

/// Parses an element with this tag as [`tagged`] does; `None` without consuming anything if no such
/// element is next (OPTIONAL).
#[tactic(auto, using(layouts::proofs::OneAnswerLemmas::read_allowed), unfolding(crate::specs::Element::optional))]
pub fn optional<'a, T: InPlace<'a>>(i: &'a [u8], tag: u8) -> IResult<&'a [u8], Option<T::Read>>
    ensures { Gives (λ v. option_map T.view v) (optional_layout tag T.layout) i.now result }
{
    if i.is_empty() {
        return Ok((i, None));
    }
    let (_, t) = parsed!(number1(i));
    if t == tag {
        let (i, x) = parsed!(tagged::<T>(i, tag));
        return Ok((i, Some(x)));
    }
    Ok((i, None))
}

/// An element with any tag.
#[derive(Clone, Copy, Debug, PartialEq)]
pub struct Element<'a> {
    /// The tag, of one byte: its class in bits 8 and 7, bit 6 if the content consists of elements,
    /// its number below 31 (X.690, section 8.1.2).
    pub tag: u8,
    /// The content.
    pub content: &'a [u8],
}

/// Parses an element with any tag.
///
/// - `Incomplete` with the count of missing bytes.
/// - `Error` of kind `Switch` if its tag has more than one byte.
/// - What [`der_length`] refuses.
impl<'a> InPlace<'a> for Element<'a> {
    type Read = Self;

    ghost Value = { PlainElement };

    ghost view = { view_element };

    ghost layout = { element };

    #[tactic(auto, using(layouts::proofs::OneAnswerLemmas::read_allowed), unfolding(crate::specs::Element::element))]
    fn read(i: &'a [u8]) -> IResult<&'a [u8], Self> {
        let (i, tag) = parsed!(number1(i));
        if tag % 32 == 31 {
            return refused(i, ErrorKind::Switch);
        }
        let (i, n) = parsed!(der_length(i));
        let (i, content) = parsed!(block(i, n));
        Ok((i, Element { tag, content }))
    }
}

/// Parses an element with any tag, or `None` if no byte is left (ANY OPTIONAL, at an end).
///
/// It refuses what parsing an [`Element`] does.
#[tactic(auto, using(layouts::proofs::OneAnswerLemmas::read_allowed), unfolding(crate::specs::Element::optional_element))]
pub fn optional_element(i: &[u8]) -> IResult<&[u8], Option<Element>>
    ensures { Gives (λ v. option_map view_element v) optional_element_layout i.now result }
{
    if i.is_empty() {
        return Ok((i, None));
    }
    let (i, x) = parsed!(Element::read(i));
    Ok((i, Some(x)))
}

/// Parses an element as its bytes, with its tag and its length.
///
/// It refuses what parsing an [`Element`] does.
#[tactic(auto, using(layouts::proofs::OneAnswerLemmas::read_allowed), unfolding(crate::specs::Element::element_bytes))]
pub fn element_bytes(i: &[u8]) -> IResult<&[u8], &[u8]>
    ensures { Gives (λ v. v.now) element_bytes_layout i.now result }
{
    let (behind, _) = parsed!(Element::read(i));
    block(i, i.len().saturating_sub(behind.len()))
}

/// All bytes of a content.
pub struct AllBytes;

impl<'a> InPlace<'a> for AllBytes {
    type Read = &'a [u8];

    ghost Value = { Bytes };

    ghost view = { λ bytes. bytes.now };

    ghost layout = { rest_layout };

    fn read(i: &'a [u8]) -> IResult<&'a [u8], &'a [u8]> {
        rest(i)
    }
}

/// The items of a content, parsed while iterating (SEQUENCE OF, SET OF).
///
/// No item is checked before the iterator reaches it; [`Items::refusal`] returns why it ended
/// early.
pub struct ItemsOf<'a, T>(PhantomData<Items<'a, T>>);

impl<'a, T: InPlace<'a>> InPlace<'a> for ItemsOf<'a, T> {
    type Read = Items<'a, T>;

    ghost Value = { List T.InPlace.Value };

    ghost view = { λ v. items_in T.InPlace.layout v.bytes.now };

    ghost layout = { items_of T.InPlace.layout };

    #[tactic(auto, using(layouts::proofs::OneAnswerLemmas::read_allowed), unfolding(crate::specs::Element::items_of))]
    fn read(i: &'a [u8]) -> IResult<&'a [u8], Items<'a, T>> {
        let items = Items::new(i);
        let (i, _) = parsed!(rest(i));
        Ok((i, items))
    }
}

/// The items of a content that consists of items only, parsed again while iterating (SEQUENCE OF,
/// SET OF).
///
/// As a content of [`tagged`] it refuses with kind `LengthValue` if an item can't be parsed.
pub struct ListOf<'a, T>(PhantomData<Items<'a, T>>);

impl<'a, T: InPlace<'a>> InPlace<'a> for ListOf<'a, T> {
    type Read = Items<'a, T>;

    ghost Value = { List T.InPlace.Value };

    ghost view = { λ v. items_in T.InPlace.layout v.bytes.now };

    ghost layout = { list_layout T.InPlace.layout };

    fn read(i: &'a [u8]) -> IResult<&'a [u8], Items<'a, T>> {
        let items = Items::new(i);
        Ok((items.rest(), items))
    }
}
