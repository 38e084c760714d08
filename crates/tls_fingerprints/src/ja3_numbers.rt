//! The numbers that JA3 uses.
ghost use Rattle.std.specs.Prelude.{◌≡◌, ◌++◌, ◌∷◌, map, true, IfOk, OnOk};
ghost use Rattle.std.specs.List.{join_with_byte};
ghost use Rattle.std.specs.String.{string_bytes};
ghost use Rattle.tls_fingerprints.specs.Hellos.{view_client};
ghost use Rattle.tls_fingerprints.specs.Ja3.{ja3_text_of, text_of_numbers};

use crate::hellos::ClientHelloParts;
use crate::numbers::{add_dashed, add_decimal, are_kept, are_kept_types, kept, kept_types};
use itoa::Integer;
use layouts::Items;
use std::alloc::{AllocError, Global};
use tls_ext::extension_types;
use tls_ext::offered::{formats, groups};

/// The initial capacity of a text; most are no longer.
const TEXT_LEN: usize = 512;

/// The version of a hello, and the numbers of its lists without GREASE.
#[derive(Drop)]
pub(crate) struct Ja3Numbers {
    version: u16,
    suites: Vec<u16>,
    types: Vec<u16>,
    groups: Vec<u16>,
    formats: Vec<u8>,
}

/// Appends `,` and a list.
fn add_list<N: Integer>(text: &mut String, numbers: &[N]) -> Result<(), AllocError>
    ensures { OnOk result
        (string_bytes text.new ≡ string_bytes text.old ++ 44 ∷ join_with_byte 45
        (map N.text numbers.now)) }
{
    text.push(',')?;
    add_dashed(text, numbers)
}

impl Ja3Numbers {
    /// The numbers of a hello.
    pub(crate) fn of(alloc: Global, hello: &ClientHelloParts<'_>) -> Result<Ja3Numbers, AllocError>
        ensures { IfOk result
            (λ numbers. text_of_numbers numbers ≡ ja3_text_of (view_client hello.now)) }
    {
        Ok(Ja3Numbers {
            version: hello.version.0,
            suites: kept(alloc, Items::new(hello.ciphers.bytes()))?,
            types: kept_types(alloc, extension_types(hello.ext))?,
            groups: kept(alloc, Items::new(groups(hello.ext).bytes()))?,
            formats: Vec::from_slice(alloc, formats(hello.ext))?,
        })
    }

    /// Whether a hello has these numbers. The comparison stops at the first difference and doesn't
    /// allocate. It begins with the extension types, since some programs shuffle them.
    pub(crate) fn are_of(&self, hello: &ClientHelloParts<'_>) -> bool
        ensures { result ≡ true → text_of_numbers self.now ≡ ja3_text_of (view_client hello.now) }
    {
        self.version == hello.version.0
            && are_kept_types(extension_types(hello.ext), self.types.as_slice())
            && are_kept(Items::new(hello.ciphers.bytes()), self.suites.as_slice())
            && are_kept(
                Items::new(groups(hello.ext).bytes()),
                self.groups.as_slice(),
            )
            && formats(hello.ext) == self.formats.as_slice()
    }

    /// The total capacity of the lists, in numbers.
    pub(crate) fn capacity(&self) -> usize {
        self.suites
            .capacity()
            .saturating_add(self.types.capacity())
            .saturating_add(self.groups.capacity())
            .saturating_add(self.formats.capacity())
    }

    /// The text that JA3 hashes.
    pub(crate) fn text(&self, alloc: Global) -> Result<String, AllocError>
        ensures { IfOk result (λ text. string_bytes text ≡ text_of_numbers self.now) }
    {
        let mut text = String::with_capacity(alloc, TEXT_LEN)?;
        add_decimal(&mut text, self.version)?;
        add_list(&mut text, self.suites.as_slice())?;
        add_list(&mut text, self.types.as_slice())?;
        add_list(&mut text, self.groups.as_slice())?;
        add_list(&mut text, self.formats.as_slice())?;
        Ok(text)
    }
}
