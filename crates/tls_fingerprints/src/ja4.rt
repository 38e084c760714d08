//! JA4 of a ClientHello.
ghost use Rattle.std.specs.Prelude.{◌≡◌, ◌++◌, ◌-◌, ◌∷◌, [], length, slice_get, IfOk, OnOk};
ghost use Rattle.std.specs.List.{join_with_byte};
ghost use Rattle.std.specs.String.{string_bytes};
ghost use Rattle.std.specs.Option.{option_map};
ghost use Rattle.layouts.specs.Text.{held};
ghost use Rattle.tls_ext.specs.InPlace.{protocol_names};
ghost use Rattle.tls_ext.specs.Offered.{algorithms_in, known};
ghost use Rattle.tls_fingerprints.specs.Hellos.{types_in, view_client};
ghost use Rattle.tls_fingerprints.specs.Numbers.{hex_list, rising, without_grease};
ghost use Rattle.tls_fingerprints.specs.Ja4.{ends_text, ja4_front_with, ja4_of, ja4_suites_of, ja4_text_of, ja4_types_of, letter_of, other_types, protocol_text, short_digest as short_digest_of, two_digits, version_text as version_text_of, with_algorithms};

use crate::digest_cache::DigestCache;
use crate::hellos::{ClientHelloParts, Transport};
use crate::numbers::{add_hex_list, hex_digit, kept, kept_types, push_hex_list, rise};
use layouts::Items;
use sha2::{Digest, Sha256};
use std::alloc::{AllocError, Global};
use tls_base::{TlsExtensionType, TlsVersion};
use tls_ext::offered::{algorithms, content};
use tls_ext::{application_protocols, best_version, extension_types};

/// The initial capacity for the text of a part; most are no longer.
const TEXT_LEN: usize = 512;

/// The length of JA4, in characters.
const JA4_LEN: usize = 36;

impl Transport {
    /// The first character of JA4.
    pub(crate) fn letter(self) -> &'static str
        ensures is { result.now ≡ letter_of self }
        ensures one { length result.now ≡ 1 }
    {
        match self {
            Transport::Tcp => "t",
            Transport::Udp => "d",
            Transport::Quic => "q",
        }
    }
}

/// The two characters of a version.
pub(crate) fn version_text(version: Option<TlsVersion>) -> &'static str
    ensures is { result.now ≡ version_text_of (option_map (λ v. v.0) version) }
    ensures two { length result.now ≡ 2 }
{
    let Some(version) = version else {
        return "00";
    };
    match version.0 {
        0x0304 => "13",
        0x0303 => "12",
        0x0302 => "11",
        0x0301 => "10",
        0x0300 => "s3",
        0x0002 => "s2",
        0xfeff => "d1",
        0xfefd => "d2",
        0xfefc => "d3",
        _ => "00",
    }
}

/// Appends a count in two decimal digits, at most 99.
fn add_two_digits(text: &mut String, count: usize) -> Result<(), AllocError>
    ensures { OnOk result (string_bytes text.new ≡ string_bytes text.old ++ two_digits count) }
{
    let shown = count.min(99) as u8;
    text.push(char::from(b'0' + shown / 10))?;
    text.push(char::from(b'0' + shown % 10))
}

/// Appends two characters for the first and the last byte of a name.
fn add_ends(text: &mut String, name: &[u8]) -> Result<(), AllocError>
    ensures { OnOk result (string_bytes text.new
        ≡ string_bytes text.old ++ ends_text (slice_get name.now 0)
        (slice_get name.now (length name.now - 1))) }
{
    let (Some(first), Some(last)) = (name.first(), name.last()) else {
        return text.push_str("00");
    };
    if first.is_ascii_alphanumeric() && last.is_ascii_alphanumeric() {
        text.push(char::from(*first))?;
        text.push(char::from(*last))
    } else {
        text.push(hex_digit(*first / 16))?;
        text.push(hex_digit(*last % 16))
    }
}

/// Appends the two characters of the client's first application protocol.
fn add_protocol(text: &mut String, ext: Option<&[u8]>) -> Result<(), AllocError>
    ensures { OnOk result (string_bytes text.new
        ≡ string_bytes text.old ++ protocol_text
        (known (protocol_names (held (option_map (λ x. x.now) ext.entry))))) }
{
    let Ok(Some(mut names)) = application_protocols(ext) else {
        return text.push_str("00");
    };
    match names.next() {
        Some(name) => add_ends(text, name),
        None => text.push_str("00"),
    }
}

/// Removes the types that the first part of JA4 covers.
fn remove_first_part(types: &mut Vec<u16>)
    ensures { types.new.items ≡ other_types types.old.items }
{
    types.retain(|kind| *kind != 0 && *kind != 16);
}

/// The types that the first part of JA4 doesn't cover.
fn others(types: Vec<u16>) -> Vec<u16>
    ensures { result.items ≡ other_types types.items }
{
    let mut types = types;
    remove_first_part(&mut types);
    types
}

/// The first 6 bytes of a text's SHA-256, in hexadecimal; zeros for an empty text.
pub(crate) fn short_digest(alloc: Global, text: &[u8]) -> Result<String, AllocError>
    ensures { IfOk result (λ digits. string_bytes digits ≡ short_digest_of text.now) }
{
    if text.is_empty() {
        return String::from_str(alloc, "000000000000");
    }
    let digest = Sha256::digest(text);
    let (front, _) = digest.split_at(6);
    hex::encode(alloc, front)
}

/// The numbers in rising order.
fn risen(numbers: Vec<u16>) -> Vec<u16>
    ensures { result.items ≡ rising numbers.items }
{
    let mut numbers = numbers;
    rise(&mut numbers);
    numbers
}

/// Appends `_` and the algorithms; nothing if there are none.
fn push_algorithms(text: &mut Vec<u8>, algorithms: &[u16]) -> Result<(), AllocError>
    ensures { OnOk result (text.new.items ≡ with_algorithms text.old.items algorithms.now) }
{
    if algorithms.is_empty() {
        return Ok(());
    }
    text.push(b'_')?;
    push_hex_list(text, algorithms)
}

/// The text of a part: the numbers, and then the algorithms.
pub(crate) fn part_text(
    alloc: Global,
    numbers: &[u16],
    algorithms: &[u16],
) -> Result<Vec<u8>, AllocError>
    ensures { IfOk result
        (λ text. text.items ≡ with_algorithms (hex_list numbers.now) algorithms.now) }
{
    let mut text = Vec::with_capacity(alloc, TEXT_LEN)?;
    push_hex_list(&mut text, numbers)?;
    push_algorithms(&mut text, algorithms)?;
    Ok(text)
}

/// Appends the second and the third part, each after `_`.
fn add_parts(text: &mut String, second: &str, third: &str) -> Result<(), AllocError>
    ensures { OnOk result
        (string_bytes text.new ≡ join_with_byte 95
        (string_bytes text.old ∷ second.now ∷ third.now ∷ [])) }
{
    text.push('_')?;
    text.push_str(second)?;
    text.push('_')?;
    text.push_str(third)
}

impl ClientHelloParts<'_> {
    /// The first part, with these counts of suites and extension types.
    fn ja4_front(
        &self,
        alloc: Global,
        transport: Transport,
        suites: usize,
        types: usize,
    ) -> Result<String, AllocError>
        ensures { IfOk result
            (λ text. string_bytes text ≡ ja4_front_with transport (view_client self.now)
            suites types) }
    {
        let version = match best_version(self.version, self.ext) {
            Ok(version) => version,
            Err(_) => None,
        };
        let mut text = String::with_capacity(alloc, JA4_LEN)?;
        text.push_str(transport.letter())?;
        text.push_str(version_text(version))?;
        text.push(match content(self.ext, TlsExtensionType::ServerName) {
            Some(_) => 'd',
            None => 'i',
        })?;
        add_two_digits(&mut text, suites)?;
        add_two_digits(&mut text, types)?;
        add_protocol(&mut text, self.ext)?;
        Ok(text)
    }

    /// The cipher suites without GREASE.
    fn kept_suites(&self, alloc: Global) -> Result<Vec<u16>, AllocError>
        ensures { IfOk result (λ v. v.items ≡ without_grease (view_client self.now).suites) }
    {
        kept(alloc, Items::new(self.ciphers.bytes()))
    }

    /// The extension types without GREASE.
    fn kept_types(&self, alloc: Global) -> Result<Vec<u16>, AllocError>
        ensures { IfOk result
            (λ v. v.items ≡ without_grease (types_in (view_client self.now).extensions)) }
    {
        kept_types(alloc, extension_types(self.ext))
    }

    /// The signature algorithms without GREASE.
    fn kept_algorithms(&self, alloc: Global) -> Result<Vec<u16>, AllocError>
        ensures { IfOk result
            (λ v. v.items ≡ without_grease (algorithms_in (view_client self.now).extensions)) }
    {
        kept(alloc, algorithms(self.ext))
    }

    /// The text that the second part hashes.
    fn ja4_suites(&self, alloc: Global) -> Result<String, AllocError>
        ensures { IfOk result (λ text. string_bytes text ≡ ja4_suites_of (view_client self.now)) }
    {
        let suites = risen(self.kept_suites(alloc)?);
        let mut text = String::with_capacity(alloc, TEXT_LEN)?;
        add_hex_list(&mut text, suites.as_slice())?;
        Ok(text)
    }

    /// The text that the third part hashes.
    fn ja4_types(&self, alloc: Global) -> Result<String, AllocError>
        ensures { IfOk result (λ text. string_bytes text ≡ ja4_types_of (view_client self.now)) }
    {
        let types = risen(others(self.kept_types(alloc)?));
        let algorithms = self.kept_algorithms(alloc)?;
        let mut text = String::with_capacity(alloc, TEXT_LEN)?;
        add_hex_list(&mut text, types.as_slice())?;
        if !algorithms.is_empty() {
            text.push('_')?;
            add_hex_list(&mut text, algorithms.as_slice())?;
        }
        Ok(text)
    }

    /// JA4 with the texts of its second and third part instead of their digests; some tools call
    /// this JA4_r.
    ///
    /// `AllocError` if there is no memory for it.
    pub fn ja4_text(&self, alloc: Global, transport: Transport) -> Result<String, AllocError>
        ensures { IfOk result
            (λ text. string_bytes text ≡ ja4_text_of transport (view_client self.now)) }
    {
        let (suites, types) = (self.kept_suites(alloc)?, self.kept_types(alloc)?);
        let mut text = self.ja4_front(alloc, transport, suites.len(), types.len())?;
        let suites = self.ja4_suites(alloc)?;
        let types = self.ja4_types(alloc)?;
        add_parts(&mut text, suites.as_str(), types.as_str())?;
        Ok(text)
    }

    /// JA4, such as `t13d1516h2_8daaf6152771_e5627efa2ab1`: the transport, the version, whether the
    /// hello names a host, how many cipher suites and extensions it has, and its first protocol; a
    /// digest of the cipher suites; and a digest of the extension types and the signature
    /// algorithms.
    ///
    /// `AllocError` if there is no memory for it.
    pub fn ja4(&self, alloc: Global, transport: Transport) -> Result<String, AllocError>
        ensures { IfOk result
            (λ text. string_bytes text ≡ ja4_of transport (view_client self.now)) }
    {
        let (text, _is_new) = self.ja4_by_parts(alloc, transport, &mut DigestCache::new(alloc))?;
        Ok(text)
    }

    /// JA4, and whether a digest of its parts was computed: those in the cache aren't computed
    /// again.
    fn ja4_by_parts(
        &self,
        alloc: Global,
        transport: Transport,
        known: &mut DigestCache,
    ) -> Result<(String, bool), AllocError>
        ensures { IfOk result
            (λ made. string_bytes made.0 ≡ ja4_of transport (view_client self.now)) }
    {
        let (suites, types) = (self.kept_suites(alloc)?, self.kept_types(alloc)?);
        let mut text = self.ja4_front(alloc, transport, suites.len(), types.len())?;
        text.push('_')?;
        let new_suites = known.add_digits(alloc, &mut text, risen(suites), Vec::new(alloc))?;
        text.push('_')?;
        let types = others(types);
        let algorithms = self.kept_algorithms(alloc)?;
        let new_types = known.add_digits(alloc, &mut text, risen(types), algorithms)?;
        Ok((text, new_suites || new_types))
    }

    /// JA4 as in [`ClientHelloParts::ja4`], copied from the cache if that has a hello with the same
    /// lists. Digests of parts that are in the cache aren't computed again, either.
    ///
    /// `AllocError` if there is no memory for it.
    pub fn ja4_with(
        &self,
        alloc: Global,
        transport: Transport,
        known: &mut DigestCache,
    ) -> Result<String, AllocError>
        ensures { IfOk result
            (λ text. string_bytes text ≡ ja4_of transport (view_client self.now)) }
    {
        if let Some(text) = known.known_ja4(self, transport) {
            return String::from_str(alloc, text);
        }
        let (text, is_new) = self.ja4_by_parts(alloc, transport, known)?;
        // If a program shuffles its extensions, only its first hello has new parts; the others
        // shouldn't fill the cache.
        if is_new {
            known.keep_ja4(alloc, self, transport, text.as_str())?;
        }
        Ok(text)
    }
}
