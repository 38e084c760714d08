//! A cache of parts of JSON lines. The hellos of one program have the same lists, and a server's
//! certificate comes again and again.
//!
//! What a call returns was cached before by a call with the same place and the same numbers, or
//! with the same places and the same certificate (`specs/Cached.antt`).
ghost use Rattle.std.specs.Prelude.{◌≡◌, ◌⊎◌, ◌<◌, ◌≤◌, ◌↔◌, ℕ, List, [], ◌∷◌, map, length, vec_len, Any, IsTrue, IfOk, IfSome, IfNone, OnOk, MatchOption};
ghost use Rattle.std.proofs.Common.{ap};
ghost use Rattle.log_formats.specs.Cached.{AddsCertificateText, AddsText, AddsToSet, ChangesOnly, HasCertificateText, HasText, HasTextOf, IsCertificateText, IsEmpty, IsOf, IsOfCertificate, IsText, IsThis, codes_in, key_of, lists_of, of_codes, set_of as set_by, share_groups};
ghost use Rattle.layouts.specs.Bytes.{Bytes};
ghost use Rattle.layouts.specs.Items.{items_in};
ghost use Rattle.layouts.specs.Layout.{number as number_of};
ghost use Rattle.tls_ext.specs.InPlace.{extension_type, key_share_entry};

use crate::lists::Texts;
use layouts::{InPlace, Items};
use std::alloc::{AllocError, Global};
use tls_base::{NamedGroup, TlsCipherSuiteID, TlsExtensionType, TlsVersion};
use tls_ext::{ExtensionType, KeyShareEntry};

/// The most certificates in the cache: mostly a network has no more servers.
const MOST: usize = 64;

/// The number of sets for the lists of a kind. A list's set follows from a sum of its numbers, so
/// that it is compared with few others, however alike peers make theirs.
const SETS: u32 = 16;

/// The most lists in a set.
const MOST_IN_SET: usize = 4;

/// The most numbers in a cached list, so that hellos can't take much memory with theirs.
const MOST_NUMBERS: usize = 128;

/// The longest certificate in the cache, in bytes.
const LONGEST_CERTIFICATE: usize = 4096;

/// The longest text of a cached list, in bytes. The names of 100 cipher suites have about 4,000.
const LONGEST_LIST: usize = 4096;

/// The longest text of a cached certificate, in bytes.
const LONGEST: usize = 2048;

/// An item of a list that begins with a number of 2 bytes.
trait Coded<'a>: InPlace<'a> {
    /// The number of an item.
    ghost number: { Self.Read → ℕ };

    /// The numbers of the items in bytes.
    ghost numbers: { Bytes → List ℕ };

    /// Returns the number.
    fn code(one: &Self::Read) -> u16
        ensures { result ≡ number one.now };

    ghost first: { (b c : Bytes) (one : Self.Read)
        → items_in Self.layout b ≡ Self.view one ∷ items_in Self.layout c
        → numbers b ≡ number one ∷ numbers c };

    ghost none: { (b : Bytes) → items_in Self.layout b ≡ [] → numbers b ≡ [] };
}

impl<'a> Coded<'a> for u16 {
    ghost number = { λ n. n };

    ghost numbers = { λ b. items_in (number_of 2) b };

    fn code(one: &u16) -> u16 {
        *one
    }

    ghost first = { λ b c one e. e };

    ghost none = { λ b e. e };
}

impl<'a> Coded<'a> for TlsVersion {
    ghost number = { λ n. n.0 };

    ghost numbers = { λ b. items_in (number_of 2) b };

    fn code(one: &TlsVersion) -> u16 {
        one.0
    }

    ghost first = { λ b c one e. e };

    ghost none = { λ b e. e };
}

impl<'a> Coded<'a> for ExtensionType {
    ghost number = { λ n. n.0 };

    ghost numbers = { λ b. items_in extension_type b };

    fn code(one: &TlsExtensionType) -> u16 {
        one.0
    }

    ghost first = { λ b c one e. e };

    ghost none = { λ b e. e };
}

impl<'a> Coded<'a> for NamedGroup {
    ghost number = { λ n. n.0 };

    ghost numbers = { λ b. items_in (number_of 2) b };

    fn code(one: &NamedGroup) -> u16 {
        one.0
    }

    ghost first = { λ b c one e. e };

    ghost none = { λ b e. e };
}

impl<'a> Coded<'a> for TlsCipherSuiteID {
    ghost number = { λ n. n.0 };

    ghost numbers = { λ b. items_in (number_of 2) b };

    fn code(one: &TlsCipherSuiteID) -> u16 {
        one.0
    }

    ghost first = { λ b c one e. e };

    ghost none = { λ b e. e };
}

impl<'a> Coded<'a> for KeyShareEntry<'a> {
    ghost number = { λ e. e.group.0 };

    ghost numbers = { share_groups };

    fn code(one: &KeyShareEntry<'a>) -> u16 {
        one.group.0
    }

    ghost first = { λ b c one e. ap (map (λ x. x.kind)) e };

    ghost none = { λ b e. ap (map (λ x. x.kind)) e };
}

impl<'a> Coded<'a> for u8 {
    ghost number = { λ n. n };

    ghost numbers = { λ b. items_in (number_of 1) b };

    fn code(one: &u8) -> u16 {
        u16::from(*one)
    }

    ghost first = { λ b c one e. e };

    ghost none = { λ b e. e };
}

/// Returns whether a list has exactly these numbers. The comparison stops at the first difference.
fn are_numbers<'a, T: Coded<'a>>(list: Items<'a, T>, known: &[u16]) -> bool
    ensures { IsTrue result
        ↔ (known.now ≡ T.numbers list.entry.bytes.now) }
{
    let mut left = known;
    for one in list {
        let Some((first, others)) = left.split_first() else {
            return false;
        };
        if *first != T::code(&one) {
            return false;
        }
        left = others;
    }
    left.is_empty()
}

/// Returns the numbers of a list; `None` if they are more than the cache takes.
fn short_numbers<'a, T: Coded<'a>>(
    alloc: Global,
    list: Items<'a, T>,
) -> Result<Option<Vec<u16>>, AllocError>
    ensures { IfOk result (λ numbers. MatchOption numbers
        (MOST_NUMBERS < length (T.numbers list.entry.bytes.now))
        (λ v. v.items ≡ T.numbers list.entry.bytes.now)) }
{
    let mut numbers = Vec::new(alloc);
    for one in list {
        if numbers.len() >= MOST_NUMBERS {
            return Ok(None);
        }
        numbers.push(T::code(&one))?;
    }
    Ok(Some(numbers))
}

/// Returns the set of a list.
fn set_of<'a, T: Coded<'a>>(list: Items<'a, T>) -> usize
    ensures is { result ≡ set_by (T.numbers list.entry.bytes.now) }
    ensures below { result < SETS }
{
    let mut sum = 0u32;
    for one in list {
        sum = sum.wrapping_mul(31).wrapping_add(u32::from(T::code(&one)));
    }
    // (both halves count, since numbers of a kind may agree in their last bits)
    ((sum ^ (sum >> 16)) % SETS) as usize
}

/// A list of numbers in the field at a place, and its text.
#[derive(Drop)]
struct KnownList {
    place: usize,
    numbers: Vec<u16>,
    text: Vec<u8>,
}

impl KnownList {
    /// Returns whether it is for this place and has exactly these numbers.
    fn is_of<'a, T: Coded<'a>>(&self, place: usize, list: Items<'a, T>) -> bool
        ensures { IsTrue result
            ↔ (IsOf place (T.numbers list.entry.bytes.now) self.now) }
    {
        self.place == place && are_numbers(list, self.numbers.as_slice())
    }
}

/// Returns the text of a list at this place, if it is in the set.
fn text_in<'a, 's, T: Coded<'a>>(
    set: &'s [KnownList],
    place: usize,
    list: Items<'a, T>,
) -> Option<&'s [u8]>
    ensures found { IfSome result (λ text. Any
        (IsText place (T.numbers list.entry.bytes.now) text.now) set.now) }
    ensures none { IfNone result ((text : List ℕ) → ¬ Any
        (IsText place (T.numbers list.entry.bytes.now) text) set.now) }
{
    for one in set {
        if one.is_of(place, list) {
            return Some(one.text.as_slice());
        }
    }
    None
}

/// Empties a list that is full.
fn empty_full<T: Drop>(list: &mut Vec<T>, most: usize)
    ensures either { (list.new.items ≡ list.old.items) ⊎ (list.new.items ≡ []) }
    ensures kept { vec_len list.old < most → list.new.items ≡ list.old.items }
{
    if list.len() >= most {
        list.clear();
    }
}

/// Adds a text to a set. A full set is emptied first.
fn add_text(
    alloc: Global,
    set: &mut Vec<KnownList>,
    place: usize,
    numbers: Vec<u16>,
    text: &[u8],
) -> Result<(), AllocError>
    ensures added { AddsToSet set.old.items set.new.items place numbers.items text.now }
    ensures there { OnOk result (Any (IsText place numbers.items text.now) set.new.items) }
{
    empty_full(set, MOST_IN_SET);
    let text = Vec::from_slice(alloc, text)?;
    set.push(KnownList {
        place,
        numbers,
        text,
    })?;
    Ok(())
}

/// Lists of one kind, in sets. A list that finds its set full replaces all the lists in it.
#[derive(Drop)]
struct KnownLists {
    sets: Vec<Vec<KnownList>>,
}

impl KnownLists {
    /// Returns an empty cache.
    fn new(alloc: Global) -> KnownLists
        ensures { result.sets.items ≡ [] }
    {
        KnownLists {
            sets: Vec::new(alloc),
        }
    }

    /// Returns the text of a list at this place, if it is cached.
    fn text<'a, T: Coded<'a>>(&self, place: usize, list: Items<'a, T>) -> Option<&[u8]>
        ensures found { IfSome result (λ text. HasText self.now place
            (T.numbers list.entry.bytes.now) text.now) }
        ensures none { IfNone result ((text : List ℕ) → ¬ HasText self.now place
            (T.numbers list.entry.bytes.now) text) }
    {
        match self.sets.get(set_of(list)) {
            Some(set) => text_in(set.as_slice(), place, list),
            None => None,
        }
    }

    /// Makes the sets that are missing.
    fn make_sets(&mut self, alloc: Global) -> Result<(), AllocError>
        ensures added { (p : ℕ) (ns t : List ℕ)
            → HasText self.new p ns t → HasText self.old p ns t }
        ensures made { OnOk result (SETS ≤ vec_len self.new.sets) }
    {
        for _ in self.sets.len()..SETS as usize {
            self.sets.push(Vec::new(alloc))?;
        }
        Ok(())
    }

    /// Caches the text of a list at this place, if both are short enough.
    fn keep<'a, T: Coded<'a>>(
        &mut self,
        alloc: Global,
        place: usize,
        list: Items<'a, T>,
        text: &[u8],
    ) -> Result<(), AllocError>
        ensures added { AddsText self.old self.new place
            (T.numbers list.entry.bytes.now) text.now }
        ensures there { OnOk result
            (length (T.numbers list.entry.bytes.now) ≤ MOST_NUMBERS
            → length text.now ≤ LONGEST_LIST → HasText self.new place
            (T.numbers list.entry.bytes.now) text.now) }
    {
        let Some(numbers) = short_numbers(alloc, list)? else {
            return Ok(());
        };
        if text.len() > LONGEST_LIST {
            return Ok(());
        }
        self.make_sets(alloc)?;
        let at = set_of(list);
        add_text(alloc, &mut self.sets[at], place, numbers, text)
    }

    /// Caches the text of the groups of key shares at this place, as [`KnownLists::keep`] does.
    fn keep_shares(
        &mut self,
        alloc: Global,
        place: usize,
        bytes: &[u8],
        text: &[u8],
    ) -> Result<(), AllocError>
        ensures added { AddsText self.old self.new place (share_groups bytes.now) text.now }
        ensures there { OnOk result (length (share_groups bytes.now) ≤ MOST_NUMBERS
            → length text.now ≤ LONGEST_LIST
            → HasText self.new place (share_groups bytes.now) text.now) }
    {
        self.keep(alloc, place, Items::<KeyShareEntry<'_>>::new(bytes), text)
    }
}

/// A certificate and the text of some of its fields.
#[derive(Drop)]
struct KnownCertificate {
    places: Vec<usize>,
    certificate: Vec<u8>,
    text: Vec<u8>,
}

impl KnownCertificate {
    /// Returns the entry of a certificate and the text of its fields at these places.
    fn of(
        alloc: Global,
        places: &[usize],
        certificate: &[u8],
        text: &[u8],
    ) -> Result<KnownCertificate, AllocError>
        ensures { IfOk result (IsCertificateText places.now certificate.now text.now) }
    {
        Ok(KnownCertificate {
            places: Vec::from_slice(alloc, places)?,
            certificate: Vec::from_slice(alloc, certificate)?,
            text: Vec::from_slice(alloc, text)?,
        })
    }

    /// Returns whether it is of these places and this certificate.
    fn is_of(&self, places: &[usize], certificate: &[u8]) -> bool
        ensures { IsTrue result ↔ (IsOfCertificate places.now certificate.now self.now) }
    {
        self.certificate.as_slice() == certificate && self.places.as_slice() == places
    }
}

/// The texts of the latest lists and certificates.
#[derive(Drop)]
pub struct TextCache {
    versions: KnownLists,
    types: KnownLists,
    groups: KnownLists,
    schemes: KnownLists,
    suites: KnownLists,
    codes: KnownLists,
    certificates: Vec<KnownCertificate>,
}

impl TextCache {
    /// Returns an empty cache.
    pub fn new(alloc: Global) -> TextCache
        ensures { IsEmpty result }
    {
        TextCache {
            versions: KnownLists::new(alloc),
            types: KnownLists::new(alloc),
            groups: KnownLists::new(alloc),
            schemes: KnownLists::new(alloc),
            suites: KnownLists::new(alloc),
            codes: KnownLists::new(alloc),
            certificates: Vec::new(alloc),
        }
    }

    /// Returns the text of the field at this place with this list, if it is cached. Only lists of
    /// numbers are.
    pub fn list(&self, place: usize, texts: &Texts<'_>) -> Option<&[u8]>
        ensures found { IfSome result (λ text. HasTextOf self.now place texts.now text.now) }
        ensures none { IfNone result
            ((text : List ℕ) → ¬ HasTextOf self.now place texts.now text) }
    {
        match texts {
            Texts::Versions(list) => self.versions.text(place, *list),
            Texts::Types(list) => self.types.text(place, *list),
            Texts::Groups(list) => self.groups.text(place, *list),
            Texts::Shares(bytes) => self.groups.text(place, shares(bytes)),
            Texts::Schemes(list) => self.schemes.text(place, *list),
            Texts::Suites(_, list) => self.suites.text(place, *list),
            _ => None,
        }
    }

    /// Caches the text of the field at this place with this list of numbers.
    pub fn cache_list(
        &mut self,
        alloc: Global,
        place: usize,
        texts: &Texts<'_>,
        text: &[u8],
    ) -> Result<(), AllocError>
        ensures added { MatchOption (key_of texts.now) (self.new ≡ self.old)
            (λ key. AddsText (lists_of key.0 self.old) (lists_of key.0 self.new) place key.1
            text.now) }
        ensures others { IfSome (key_of texts.now) (λ key. ChangesOnly key.0 self.old self.new) }
        ensures there { OnOk result (IfSome (key_of texts.now)
            (λ key. length key.1 ≤ MOST_NUMBERS → length text.now ≤ LONGEST_LIST
            → HasText (lists_of key.0 self.new) place key.1 text.now)) }
    {
        match texts {
            Texts::Versions(list) => self.versions.keep(alloc, place, *list, text),
            Texts::Types(list) => self.types.keep(alloc, place, *list, text),
            Texts::Groups(list) => self.groups.keep(alloc, place, *list, text),
            Texts::Shares(bytes) => self.groups.keep_shares(alloc, place, bytes, text),
            Texts::Schemes(list) => self.schemes.keep(alloc, place, *list, text),
            Texts::Suites(_, list) => self.suites.keep(alloc, place, *list, text),
            _ => Ok(()),
        }
    }

    /// Returns the text of the field at this place with these codes, if it is cached.
    pub fn codes(&self, place: usize, codes: &[u8]) -> Option<&[u8]>
        ensures found { IfSome result
            (λ text. HasText self.now.codes place (codes_in codes.now) text.now) }
        ensures none { IfNone result
            ((text : List ℕ) → ¬ HasText self.now.codes place (codes_in codes.now) text) }
    {
        self.codes.text(place, Items::<u8>::new(codes))
    }

    /// Caches the text of the field at this place with these codes.
    pub fn cache_codes(
        &mut self,
        alloc: Global,
        place: usize,
        codes: &[u8],
        text: &[u8],
    ) -> Result<(), AllocError>
        ensures added { AddsText self.old.codes self.new.codes place (codes_in codes.now) text.now }
        ensures others { ChangesOnly of_codes self.old self.new }
        ensures there { OnOk result (length (codes_in codes.now) ≤ MOST_NUMBERS
            → length text.now ≤ LONGEST_LIST
            → HasText self.new.codes place (codes_in codes.now) text.now) }
    {
        self.codes.keep(alloc, place, Items::<u8>::new(codes), text)
    }

    /// Returns the text of a certificate's fields at these places, if it is cached.
    pub fn certificate(&self, places: &[usize], certificate: &[u8]) -> Option<&[u8]>
        ensures found { IfSome result
            (λ text. HasCertificateText self.now places.now certificate.now text.now) }
        ensures none { IfNone result
            ((text : List ℕ) → ¬ HasCertificateText self.now places.now certificate.now text) }
    {
        for one in &self.certificates {
            if one.is_of(places, certificate) {
                return Some(one.text.as_slice());
            }
        }
        None
    }

    /// Caches the text of a certificate's fields, if both are short enough. A full cache of
    /// certificates is emptied first.
    pub fn cache_certificate(
        &mut self,
        alloc: Global,
        places: &[usize],
        certificate: &[u8],
        text: &[u8],
    ) -> Result<(), AllocError>
        ensures added { AddsCertificateText self.old self.new places.now certificate.now text.now }
        ensures others { self.new ≡ record self.old { certificates = self.new.certificates } }
        ensures there { OnOk result (length certificate.now ≤ LONGEST_CERTIFICATE
            → length text.now ≤ LONGEST
            → HasCertificateText self.new places.now certificate.now text.now) }
    {
        if certificate.len() > LONGEST_CERTIFICATE || text.len() > LONGEST {
            return Ok(());
        }
        empty_full(&mut self.certificates, MOST);
        let one = KnownCertificate::of(alloc, places, certificate, text)?;
        self.certificates.push(one)?;
        Ok(())
    }
}

/// Returns the key shares in these bytes.
fn shares(bytes: &[u8]) -> Items<'_, KeyShareEntry<'_>>
    ensures { result.bytes.now ≡ bytes.now }
{
    Items::new(bytes)
}
