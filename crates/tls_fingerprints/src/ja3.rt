//! JA3 of a ClientHello, and JA3S of a ServerHello.
ghost use Rattle.std.specs.Prelude.{◌≡◌, ◌++◌, ◌∷◌, [], IfOk, OnOk};
ghost use Rattle.std.specs.String.{string_bytes};
ghost use Rattle.std.specs.Option.{option_map};
ghost use Rattle.layouts.specs.Text.{held};
ghost use Rattle.tls_fingerprints.specs.Numbers.{dashed, without_grease};
ghost use Rattle.tls_fingerprints.specs.Hellos.{types_in, view_client, view_server};
ghost use Rattle.tls_fingerprints.specs.Ja3.{digest_of, ja3_of, ja3_text_of, ja3s_of, ja3s_text_of};

use crate::digest_cache::DigestCache;
use crate::hellos::{ClientHelloParts, ServerHelloParts};
use crate::ja3_numbers::Ja3Numbers;
use crate::numbers::{add_dashed, add_decimal, kept_types};
use md5::{Digest, Md5};
use std::alloc::{AllocError, Global};
use tls_ext::extension_types;

/// The initial capacity for JA3S's text; most are no longer.
const SERVERS_TEXT_LEN: usize = 64;

/// Appends `,` and the extension types without GREASE.
fn add_types(alloc: Global, text: &mut String, ext: Option<&[u8]>) -> Result<(), AllocError>
    ensures { OnOk result (string_bytes text.new
        ≡ string_bytes text.old ++ 44 ∷ dashed
        (without_grease (types_in (held (option_map (λ x. x.now) ext.entry))))) }
{
    let kept = kept_types(alloc, extension_types(ext))?;
    text.push(',')?;
    add_dashed(text, kept.as_slice())
}

/// The digest of a JA3 or JA3S text: its MD5, in 32 hexadecimal digits.
///
/// `AllocError` if there is no memory for it.
pub fn ja3_digest(alloc: Global, text: &str) -> Result<String, AllocError>
    ensures { IfOk result (λ digits. string_bytes digits ≡ digest_of text.now) }
{
    hex::encode(alloc, Md5::digest(text.as_bytes()))
}

impl ClientHelloParts<'_> {
    /// The text that JA3 hashes: version, cipher suites, extension types, groups and point formats,
    /// in decimal, with `-` within a list and `,` between the lists.
    ///
    /// `AllocError` if there is no memory for it.
    pub fn ja3_text(&self, alloc: Global) -> Result<String, AllocError>
        ensures { IfOk result (λ text. string_bytes text ≡ ja3_text_of (view_client self.now)) }
    {
        Ja3Numbers::of(alloc, self)?.text(alloc)
    }

    /// JA3: the MD5 of [`ClientHelloParts::ja3_text`], in 32 hexadecimal digits.
    ///
    /// `AllocError` if there is no memory for it.
    pub fn ja3(&self, alloc: Global) -> Result<String, AllocError>
        ensures { IfOk result (λ digits. string_bytes digits ≡ ja3_of (view_client self.now)) }
    {
        ja3_digest(alloc, self.ja3_text(alloc)?.as_str())
    }

    /// The text of [`ClientHelloParts::ja3_text`], copied from the cache if that has a hello with
    /// the same numbers.
    ///
    /// `AllocError` if there is no memory for it.
    pub fn ja3_text_with(
        &self,
        alloc: Global,
        known: &mut DigestCache,
    ) -> Result<String, AllocError>
        ensures { IfOk result (λ text. string_bytes text ≡ ja3_text_of (view_client self.now)) }
    {
        known.hello_text(alloc, self)
    }

    /// JA3 as in [`ClientHelloParts::ja3`], copied from the cache if that has a hello with the same
    /// numbers.
    ///
    /// `AllocError` if there is no memory for it.
    pub fn ja3_with(&self, alloc: Global, known: &mut DigestCache) -> Result<String, AllocError>
        ensures { IfOk result (λ digits. string_bytes digits ≡ ja3_of (view_client self.now)) }
    {
        known.hello_digits(alloc, self)
    }
}

impl ServerHelloParts<'_> {
    /// The text that JA3S hashes: version, cipher suite, and extension types, in the form of JA3's
    /// text.
    ///
    /// `AllocError` if there is no memory for it.
    pub fn ja3s_text(&self, alloc: Global) -> Result<String, AllocError>
        ensures { IfOk result (λ text. string_bytes text ≡ ja3s_text_of (view_server self.now)) }
    {
        let mut text = String::with_capacity(alloc, SERVERS_TEXT_LEN)?;
        add_decimal(&mut text, self.version.0)?;
        text.push(',')?;
        add_decimal(&mut text, self.cipher.0)?;
        add_types(alloc, &mut text, self.ext)?;
        Ok(text)
    }

    /// JA3S: the MD5 of [`ServerHelloParts::ja3s_text`], in 32 hexadecimal digits.
    ///
    /// `AllocError` if there is no memory for it.
    pub fn ja3s(&self, alloc: Global) -> Result<String, AllocError>
        ensures { IfOk result (λ digits. string_bytes digits ≡ ja3s_of (view_server self.now)) }
    {
        ja3_digest(alloc, self.ja3s_text(alloc)?.as_str())
    }
}
