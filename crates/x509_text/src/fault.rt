//! Where a list of a certificate ends before its bytes do.
ghost use Rattle.std.specs.Prelude.{◌≡◌};
ghost use Rattle.layouts.specs.Answers.{refusal_of};
ghost use Rattle.x509.specs.Certificate.{extension};
ghost use Rattle.x509.specs.GeneralName.{general_name};
ghost use Rattle.x509.specs.Extensions.{key_purpose};
ghost use Rattle.x509.specs.Name.{whole_set};
ghost use Rattle.x509_text.specs.Fault.{fault_in, kind_by};

use layouts::{Err, Error, ErrorKind, InPlace, Items};
use x509::{Extensions, GeneralNames, KeyPurposeIds, Name, WholeSets};

/// The first item of a list that can't be read. It and those after it are in no iterator.
#[derive(Clone, Copy, Debug, PartialEq, Eq)]
pub struct ListFault {
    /// Where it begins: the count of bytes before it in the list's content.
    pub at: usize,
    /// The kind of the broken rule; `Complete` if bytes of it are missing.
    pub kind: ErrorKind,
}

/// The kind of a refusal.
pub(crate) fn kind_of(refusal: Err<Error<&[u8]>>) -> ErrorKind
    ensures { result ≡ kind_by (refusal_of refusal.entry) }
{
    match refusal {
        Err::Error(error) => error.code,
        _ => ErrorKind::Complete,
    }
}

/// The first item that can't be read; `None` if the items cover all bytes.
pub(crate) fn list_fault<'a, T: InPlace<'a>>(items: Items<'a, T>) -> Option<ListFault>
    ensures { result ≡ fault_in T.layout items.entry.bytes.now }
{
    match items.refusal() {
        Some(refusal) => Some(ListFault {
            at: items.bytes().len().saturating_sub(items.rest().len()),
            kind: kind_of(refusal),
        }),
        None => None,
    }
}

/// The first set of a name that isn't one, or has an attribute that isn't one (RFC 5280, section
/// 4.1.2.4).
///
/// `None` if the name consists of sets of attributes, so that its text lacks none.
pub fn name_fault(name: Name) -> Option<ListFault>
    ensures { result ≡ fault_in whole_set name.entry.bytes.now }
{
    list_fault::<WholeSets>(Items::new(name.bytes()))
}

/// The first extension that isn't one (RFC 5280, section 4.2); `None` if all can be read.
pub fn extensions_fault(extensions: Items<Extensions>) -> Option<ListFault>
    ensures { result ≡ fault_in extension extensions.entry.bytes.now }
{
    list_fault(extensions)
}

/// The first name of a subjectAltName that isn't one (RFC 5280, section 4.2.1.6); `None` if all can
/// be read.
pub fn general_names_fault(names: Items<GeneralNames>) -> Option<ListFault>
    ensures { result ≡ fault_in general_name names.entry.bytes.now }
{
    list_fault(names)
}

/// The first purpose of an extKeyUsage that isn't one (RFC 5280, section 4.2.1.12); `None` if all
/// can be read.
pub fn purposes_fault(purposes: Items<KeyPurposeIds>) -> Option<ListFault>
    ensures { result ≡ fault_in key_purpose purposes.entry.bytes.now }
{
    list_fault(purposes)
}
