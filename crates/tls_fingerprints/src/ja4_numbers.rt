//! The numbers that the second and the third part of JA4 use.
ghost use Rattle.std.specs.Prelude.{◌≡◌, true, IfOk};
ghost use Rattle.tls_fingerprints.specs.Hellos.{view_client};
ghost use Rattle.tls_fingerprints.specs.Ja4.{AreOf};

use crate::hellos::ClientHelloParts;
use crate::numbers::{are_kept, are_kept_types, kept, kept_types};
use layouts::Items;
use std::alloc::{AllocError, Global};
use tls_ext::extension_types;
use tls_ext::offered::algorithms;

/// The numbers of a hello's lists without GREASE, in its order.
#[derive(Drop)]
pub(crate) struct Ja4Numbers {
    pub(crate) suites: Vec<u16>,
    pub(crate) types: Vec<u16>,
    pub(crate) algorithms: Vec<u16>,
}

impl Ja4Numbers {
    /// The numbers of a hello.
    pub(crate) fn of(alloc: Global, hello: &ClientHelloParts<'_>) -> Result<Ja4Numbers, AllocError>
        ensures { IfOk result (AreOf (view_client hello.now)) }
    {
        Ok(Ja4Numbers {
            suites: kept(alloc, Items::new(hello.ciphers.bytes()))?,
            types: kept_types(alloc, extension_types(hello.ext))?,
            algorithms: kept(alloc, algorithms(hello.ext))?,
        })
    }

    /// Whether a hello has these numbers. The comparison stops at the first difference and doesn't
    /// allocate. It begins with the extension types, since some programs shuffle them.
    pub(crate) fn are_of(&self, hello: &ClientHelloParts<'_>) -> bool
        ensures { result ≡ true → AreOf (view_client hello.now) self.now }
    {
        are_kept_types(extension_types(hello.ext), self.types.as_slice())
            && are_kept(Items::new(hello.ciphers.bytes()), self.suites.as_slice())
            && are_kept(algorithms(hello.ext), self.algorithms.as_slice())
    }

    /// The total capacity of the lists, in numbers.
    pub(crate) fn capacity(&self) -> usize {
        self.suites
            .capacity()
            .saturating_add(self.types.capacity())
            .saturating_add(self.algorithms.capacity())
    }
}
