//! Lists in a line. Their items are parsed when they are written.
ghost use Rattle.std.specs.Prelude.{◌≡◌, length};
ghost use Rattle.layouts.specs.Items.{items_in};
ghost use Rattle.log_formats.specs.Data.{value_of};
ghost use Rattle.log_formats.specs.Data.{some_numbers as numbers_if_any, some_texts as texts_if_any};
ghost use Rattle.log_formats.specs.Lists.{is_empty as is_empty_list, numbers_of, texts_of};
ghost use Rattle.log_formats.specs.Cached.{share_groups};

use crate::cell::Cell;
use crate::suites::Suites;
use crate::text::{Text, extension, group};
use layouts::{Counted1, InPlace, Items};
use serde::{Described, Serialize, Serializer};
use ssl2_hello::CipherSpec;
use tls_base::{NamedGroup, TlsCipherSuiteID, TlsVersion};
use tls_ext::{ExtensionType, KeyShareEntry};

/// A list of texts, by its source.
#[derive(Drop)]
pub enum Texts<'a> {
    /// Owned texts.
    Owned(Vec<String>),
    /// TLS versions.
    Versions(Items<'a, TlsVersion>),
    /// Extension types.
    Types(Items<'a, ExtensionType>),
    /// Groups.
    Groups(Items<'a, NamedGroup>),
    /// Signature schemes.
    Schemes(Items<'a, u16>),
    /// Protocol names.
    Protocols(Items<'a, Counted1>),
    /// The groups of unparsed key shares.
    Shares(&'a [u8]),
    /// Cipher suites, with these names.
    Suites(&'a Suites, Items<'a, TlsCipherSuiteID>),
    /// SSL 2.0 CipherSpecs, with these names.
    Specs(&'a Suites, Items<'a, CipherSpec>),
    /// Digests, in hexadecimal.
    Digests(Vec<[u8; 32]>),
}

/// Returns whether a list has no items.
fn has_none<'a, T: InPlace<'a>>(list: Items<'a, T>) -> bool
    ensures { result ≡ is_empty_list (items_in T.layout list.entry.bytes.now) }
{
    let mut walk = list;
    walk.next().is_none()
}

/// Returns whether there are no key shares.
#[tactic(auto, using(crate::proofs::ListLemmas::empty_map))]
fn has_no_share(bytes: &[u8]) -> bool
    ensures { result ≡ is_empty_list (share_groups bytes.now) }
{
    let mut walk: Items<KeyShareEntry> = Items::new(bytes);
    walk.next().is_none()
}

/// A consumer of a list's texts, one after the other.
pub trait TakesTexts {
    /// Why it takes no more texts.
    type Error;

    /// Takes the next text.
    fn take_text(&mut self, text: &Text<'_>) -> Result<(), Self::Error>;
}

/// Passes the names of groups to the consumer.
fn hand_groups<T: TakesTexts>(list: Items<'_, NamedGroup>, taker: &mut T) -> Result<(), T::Error> {
    for one in list {
        taker.take_text(&group(one))?;
    }
    Ok(())
}

fn hand_versions<T: TakesTexts>(
    list: Items<'_, TlsVersion>,
    taker: &mut T,
) -> Result<(), T::Error> {
    for one in list {
        taker.take_text(&Text::Version(one))?;
    }
    Ok(())
}

fn hand_types<T: TakesTexts>(
    list: Items<'_, ExtensionType>,
    taker: &mut T,
) -> Result<(), T::Error> {
    for one in list {
        taker.take_text(&extension(one))?;
    }
    Ok(())
}

fn hand_schemes<T: TakesTexts>(list: Items<'_, u16>, taker: &mut T) -> Result<(), T::Error> {
    for one in list {
        taker.take_text(&Text::Scheme(one))?;
    }
    Ok(())
}

fn hand_protocols<T: TakesTexts>(list: Items<'_, Counted1>, taker: &mut T) -> Result<(), T::Error> {
    for one in list {
        taker.take_text(&Text::Escaped(one))?;
    }
    Ok(())
}

fn hand_shares<T: TakesTexts>(bytes: &[u8], taker: &mut T) -> Result<(), T::Error> {
    let list: Items<KeyShareEntry> = Items::new(bytes);
    for one in list {
        taker.take_text(&group(one.group))?;
    }
    Ok(())
}

fn hand_suites<T: TakesTexts>(
    suites: &Suites,
    list: Items<'_, TlsCipherSuiteID>,
    taker: &mut T,
) -> Result<(), T::Error> {
    for one in list {
        taker.take_text(&suites.text(one))?;
    }
    Ok(())
}

fn hand_specs<T: TakesTexts>(
    suites: &Suites,
    list: Items<'_, CipherSpec>,
    taker: &mut T,
) -> Result<(), T::Error> {
    for one in list {
        taker.take_text(&suites.spec_text(one))?;
    }
    Ok(())
}

impl Texts<'_> {
    /// Returns whether the list is empty.
    #[tactic(auto, using(crate::proofs::ListLemmas::empty_map, crate::proofs::ListLemmas::empty_length))]
    pub fn is_empty(&self) -> bool
        ensures { result ≡ is_empty_list (texts_of self.now) }
    {
        match self {
            Texts::Owned(all) => all.is_empty(),
            Texts::Versions(list) => has_none(*list),
            Texts::Types(list) => has_none(*list),
            Texts::Groups(list) => has_none(*list),
            Texts::Schemes(list) => has_none(*list),
            Texts::Protocols(list) => has_none(*list),
            Texts::Shares(bytes) => has_no_share(bytes),
            Texts::Suites(_, list) => has_none(*list),
            Texts::Specs(_, list) => has_none(*list),
            Texts::Digests(all) => all.is_empty(),
        }
    }

    /// Returns whether the list is determined by numbers of 2 bytes alone.
    pub fn are_numbers(&self) -> bool {
        matches!(
            self,
            Texts::Versions(_)
                | Texts::Types(_)
                | Texts::Groups(_)
                | Texts::Schemes(_)
                | Texts::Shares(_)
                | Texts::Suites(_, _)
        )
    }

    /// Passes the texts to the consumer, one after the other.
    pub fn hand<T: TakesTexts>(&self, taker: &mut T) -> Result<(), T::Error> {
        match self {
            Texts::Owned(all) => {
                for one in all {
                    taker.take_text(&Text::Plain(one.as_str()))?;
                }
                Ok(())
            }
            Texts::Versions(list) => hand_versions(*list, taker),
            Texts::Types(list) => hand_types(*list, taker),
            Texts::Groups(list) => hand_groups(*list, taker),
            Texts::Schemes(list) => hand_schemes(*list, taker),
            Texts::Protocols(list) => hand_protocols(*list, taker),
            Texts::Shares(bytes) => hand_shares(bytes, taker),
            Texts::Suites(suites, list) => hand_suites(suites, *list, taker),
            Texts::Specs(suites, list) => hand_specs(suites, *list, taker),
            Texts::Digests(all) => {
                for one in all {
                    taker.take_text(&Text::Digits(one.as_slice()))?;
                }
                Ok(())
            }
        }
    }
}

/// Serializes each text as an element of a sequence.
#[derive(Drop)]
struct Sends<'a, S> {
    out: &'a mut S,
}

impl<S: Serializer> TakesTexts for Sends<'_, S> {
    type Error = S::Error;

    fn take_text(&mut self, text: &Text<'_>) -> Result<(), S::Error> {
        text.serialize(&mut *self.out)
    }
}

/// Returns a list of texts as a value; `None` if it is empty.
#[tactic(auto, unfolding(crate::specs::Data::some_texts))]
pub fn some_texts(texts: Texts<'_>) -> Option<Cell<'_>>
    ensures { value_of result ≡ texts_if_any (texts_of texts.entry) }
{
    if texts.is_empty() {
        return None;
    }
    Some(Cell::Texts(texts))
}

impl Described for Texts<'_> {}

impl Serialize for Texts<'_> {
    fn serialize<S: Serializer>(&self, out: &mut S) -> Result<(), S::Error> {
        out.begin_seq(None)?;
        self.hand(&mut Sends { out: &mut *out })?;
        out.end_seq()
    }
}

/// A list of numbers, by its source.
#[derive(Drop)]
pub enum Numbers<'a> {
    /// Codes of one byte.
    Codes(&'a [u8]),
    /// Owned numbers.
    Owned(Vec<u64>),
}

impl Numbers<'_> {
    /// Returns the number at this index; `None` behind the last.
    pub fn get(&self, place: usize) -> Option<u64> {
        match self {
            Numbers::Codes(codes) => Some(u64::from(*codes.get(place)?)),
            Numbers::Owned(all) => Some(*all.get(place)?),
        }
    }

    /// Returns how many numbers there are.
    pub fn len(&self) -> usize
        ensures { result ≡ length (numbers_of self.now) }
    {
        match self {
            Numbers::Codes(codes) => codes.len(),
            Numbers::Owned(all) => all.len(),
        }
    }
}

/// Returns a list of numbers as a value; `None` if it is empty.
#[tactic(auto, using(crate::proofs::ListLemmas::empty_length), unfolding(crate::specs::Data::some_numbers))]
pub fn some_numbers(numbers: Numbers<'_>) -> Option<Cell<'_>>
    ensures { value_of result ≡ numbers_if_any (numbers_of numbers.entry) }
{
    if numbers.len() == 0 {
        return None;
    }
    Some(Cell::Numbers(numbers))
}

impl Described for Numbers<'_> {}

impl Serialize for Numbers<'_> {
    fn serialize<S: Serializer>(&self, out: &mut S) -> Result<(), S::Error> {
        out.begin_seq(None)?;
        for place in 0..self.len() {
            if let Some(number) = self.get(place) {
                out.u64(number)?;
            }
        }
        out.end_seq()
    }
}
