//! A cache for the digests of fingerprints.
ghost use Rattle.std.specs.Prelude.{◌≡◌, ◌++◌, true, IfOk, IfSome, OnOk};
ghost use Rattle.std.specs.String.{string_bytes};
ghost use Rattle.tls_fingerprints.specs.Hellos.{view_client};
ghost use Rattle.tls_fingerprints.specs.Ja3.{digest_of, ja3_of, ja3_text_of, text_of_numbers};
ghost use Rattle.tls_fingerprints.specs.Ja4.{ja4_of, ja4_of_numbers, short_digest as short_digest_of, with_algorithms};
ghost use Rattle.tls_fingerprints.specs.Numbers.{hex_list};

use crate::hellos::{ClientHelloParts, Transport};
use crate::ja3::ja3_digest;
use crate::ja3_numbers::Ja3Numbers;
use crate::ja4::{part_text, short_digest};
use crate::ja4_numbers::Ja4Numbers;
use std::alloc::{AllocError, Global};

/// The size of the cache for each kind of entry. Most networks have no more programs.
const MOST: usize = 64;

/// Entries with room for more numbers aren't cached, so that peers can't fill memory with their
/// hellos.
const MOST_NUMBERS: usize = 256;

/// Longer texts of JA3 or JA3S aren't cached, in bytes.
const LONGEST: usize = 1024;

/// The numbers of a part of JA4, and its digest.
#[derive(Drop)]
struct DigestedPart {
    numbers: Vec<u16>,
    algorithms: Vec<u16>,
    digits: String,
    ghost is: { string_bytes digits ≡ short_digest_of
        (with_algorithms (hex_list numbers.items) algorithms.items) },
}

/// A text of JA3 or JA3S, and its digest.
#[derive(Drop)]
struct DigestedText {
    text: String,
    digits: String,
    ghost is: { string_bytes digits ≡ digest_of (string_bytes text) },
}

/// The numbers of a JA3, its text, and its digest.
#[derive(Drop)]
struct DigestedHello {
    numbers: Ja3Numbers,
    text: String,
    digits: String,
    ghost text_is: { string_bytes text ≡ text_of_numbers numbers },
    ghost digits_are: { string_bytes digits ≡ digest_of (text_of_numbers numbers) },
}

impl DigestedHello {
    /// Computes the entry of a hello.
    fn of(alloc: Global, hello: &ClientHelloParts<'_>) -> Result<DigestedHello, AllocError>
        ensures { IfOk result
            (λ one. text_of_numbers one.numbers ≡ ja3_text_of (view_client hello.now)) }
    {
        let numbers = Ja3Numbers::of(alloc, hello)?;
        let text = numbers.text(alloc)?;
        let digits = ja3_digest(alloc, text.as_str())?;
        Ok(DigestedHello {
            numbers,
            text,
            digits,
        })
    }
}

/// The numbers of a JA4, and the JA4.
#[derive(Drop)]
struct KnownJa4 {
    front: [u8; 10],
    numbers: Ja4Numbers,
    text: String,
    ghost is: { string_bytes text ≡ ja4_of_numbers front numbers },
}

impl KnownJa4 {
    /// Whether this is the JA4 of a hello.
    fn is_of(&self, hello: &ClientHelloParts<'_>, transport: Transport) -> bool
        ensures { result ≡ true
            → string_bytes self.now.text ≡ ja4_of transport (view_client hello.now) }
    {
        if !self.numbers.are_of(hello) {
            return false;
        }
        let (suites, types) = (self.numbers.suites.len(), self.numbers.types.len());
        hello.front(transport, suites, types) == self.front
    }
}

/// A cache of recent JA3 with their texts, JA4, and digests of JA3S and of the parts of JA4, each
/// looked up by what it hashes. Hellos of one program agree in these, so most digests needn't be
/// computed again for each connection.
#[derive(Drop)]
pub struct DigestCache {
    parts: Vec<DigestedPart>,
    texts: Vec<DigestedText>,
    hellos: Vec<DigestedHello>,
    ja4s: Vec<KnownJa4>,
}

impl DigestCache {
    /// An empty cache.
    pub fn new(alloc: Global) -> DigestCache {
        DigestCache {
            parts: Vec::new(alloc),
            texts: Vec::new(alloc),
            hellos: Vec::new(alloc),
            ja4s: Vec::new(alloc),
        }
    }

    /// The digest of a part, if it is cached.
    fn part_digits(&self, numbers: &[u16], algorithms: &[u16]) -> Option<&str>
        ensures { IfSome result
            (λ digits. digits.now ≡ short_digest_of
            (with_algorithms (hex_list numbers.now) algorithms.now)) }
    {
        for one in &self.parts {
            if one.numbers.as_slice() == numbers && one.algorithms.as_slice() == algorithms {
                return Some(one.digits.as_str());
            }
        }
        None
    }

    /// Caches an entry that is short enough; a full cache is cleared first.
    fn keep_part(&mut self, one: DigestedPart) -> Result<(), AllocError> {
        let (numbers, algorithms) = (one.numbers.capacity(), one.algorithms.capacity());
        if numbers.saturating_add(algorithms) > MOST_NUMBERS {
            return Ok(());
        }
        if self.parts.len() >= MOST {
            self.parts.clear();
        }
        self.parts.push(one)?;
        Ok(())
    }

    /// Appends the digest of a part with these numbers and algorithms. Returns whether it had to be
    /// computed.
    pub(crate) fn add_digits(
        &mut self,
        alloc: Global,
        ja4: &mut String,
        numbers: Vec<u16>,
        algorithms: Vec<u16>,
    ) -> Result<bool, AllocError>
        ensures { OnOk result (string_bytes ja4.new
            ≡ string_bytes ja4.old ++ short_digest_of
            (with_algorithms (hex_list numbers.items) algorithms.items)) }
    {
        if let Some(digits) = self.part_digits(numbers.as_slice(), algorithms.as_slice()) {
            ja4.push_str(digits)?;
            return Ok(false);
        }
        let text = part_text(alloc, numbers.as_slice(), algorithms.as_slice())?;
        let digits = short_digest(alloc, text.as_slice())?;
        ja4.push_str(digits.as_str())?;
        self.keep_part(DigestedPart {
            numbers,
            algorithms,
            digits,
        })?;
        Ok(true)
    }

    /// The digest of a text, if it is cached.
    fn text_digits(&self, text: &str) -> Option<&str>
        ensures { IfSome result (λ digits. digits.now ≡ digest_of text.now) }
    {
        for one in &self.texts {
            if one.text.as_str() == text {
                return Some(one.digits.as_str());
            }
        }
        None
    }

    /// Caches an entry as [`DigestCache::keep_part`] does.
    fn keep_text(&mut self, one: DigestedText) -> Result<(), AllocError> {
        if one.text.len() > LONGEST {
            return Ok(());
        }
        if self.texts.len() >= MOST {
            self.texts.clear();
        }
        self.texts.push(one)?;
        Ok(())
    }

    /// The digest of a text as in [`ja3_digest`], computed unless it is cached.
    ///
    /// `AllocError` if there is no memory for it.
    pub fn ja3_digest(&mut self, alloc: Global, text: &str) -> Result<String, AllocError>
        ensures { IfOk result (λ digits. string_bytes digits ≡ digest_of text.now) }
    {
        if let Some(digits) = self.text_digits(text) {
            return String::from_str(alloc, digits);
        }
        let digits = ja3_digest(alloc, text)?;
        let kept = String::from_str(alloc, digits.as_str())?;
        let text = String::from_str(alloc, text)?;
        self.keep_text(DigestedText { text, digits: kept })?;
        Ok(digits)
    }

    /// The entry of a hello with the same numbers. The last one is tried first, since a line may
    /// need both its text and its digest.
    fn known_hello(&self, hello: &ClientHelloParts<'_>) -> Option<&DigestedHello>
        ensures { IfSome result
            (λ one. text_of_numbers one.now.numbers ≡ ja3_text_of (view_client hello.now)) }
    {
        for one in self.hellos.iter().rev() {
            if one.numbers.are_of(hello) {
                return Some(one);
            }
        }
        None
    }

    /// Caches an entry as [`DigestCache::keep_part`] does.
    fn keep_hello(&mut self, one: DigestedHello) -> Result<(), AllocError> {
        if one.numbers.capacity() > MOST_NUMBERS || one.text.len() > LONGEST {
            return Ok(());
        }
        if self.hellos.len() >= MOST {
            self.hellos.clear();
        }
        self.hellos.push(one)?;
        Ok(())
    }

    /// The text of a hello's JA3, from the cache or computed.
    pub(crate) fn hello_text(
        &mut self,
        alloc: Global,
        hello: &ClientHelloParts<'_>,
    ) -> Result<String, AllocError>
        ensures { IfOk result (λ text. string_bytes text ≡ ja3_text_of (view_client hello.now)) }
    {
        if let Some(one) = self.known_hello(hello) {
            return String::from_str(alloc, one.text.as_str());
        }
        let one = DigestedHello::of(alloc, hello)?;
        let text = String::from_str(alloc, one.text.as_str())?;
        self.keep_hello(one)?;
        Ok(text)
    }

    /// The digits of a hello's JA3, from the cache or computed.
    pub(crate) fn hello_digits(
        &mut self,
        alloc: Global,
        hello: &ClientHelloParts<'_>,
    ) -> Result<String, AllocError>
        ensures { IfOk result (λ digits. string_bytes digits ≡ ja3_of (view_client hello.now)) }
    {
        if let Some(one) = self.known_hello(hello) {
            return String::from_str(alloc, one.digits.as_str());
        }
        let one = DigestedHello::of(alloc, hello)?;
        let digits = String::from_str(alloc, one.digits.as_str())?;
        self.keep_hello(one)?;
        Ok(digits)
    }

    /// The JA4 of a hello with this transport, if it is cached.
    pub(crate) fn known_ja4(
        &self,
        hello: &ClientHelloParts<'_>,
        transport: Transport,
    ) -> Option<&str>
        ensures { IfSome result (λ text. text.now ≡ ja4_of transport (view_client hello.now)) }
    {
        for one in &self.ja4s {
            if one.is_of(hello, transport) {
                return Some(one.text.as_str());
            }
        }
        None
    }

    /// Caches the JA4 of a hello as [`DigestCache::keep_part`] does.
    pub(crate) fn keep_ja4(
        &mut self,
        alloc: Global,
        hello: &ClientHelloParts<'_>,
        transport: Transport,
        ja4: &str,
    ) -> Result<(), AllocError>
        requires { ja4.now ≡ ja4_of transport (view_client hello.now) }
    {
        let numbers = Ja4Numbers::of(alloc, hello)?;
        if numbers.capacity() > MOST_NUMBERS {
            return Ok(());
        }
        if self.ja4s.len() >= MOST {
            self.ja4s.clear();
        }
        let front = hello.front(transport, numbers.suites.len(), numbers.types.len());
        let text = String::from_str(alloc, ja4)?;
        self.ja4s.push(KnownJa4 {
            front,
            numbers,
            text,
        })?;
        Ok(())
    }
}
