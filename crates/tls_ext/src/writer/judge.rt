//! Computes the length of an encoding, or the refusal of the first part that doesn't fit, without
//! allocating.
ghost use Rattle.std.specs.Prelude.{◌≡◌, length, map, min};
ghost use Rattle.tls_ext.specs.Extension.{view, view_server_name};
ghost use Rattle.tls_ext.specs.ExtensionText.{names_text, Counts, JudgesExtension, JudgesExtensions};

use crate::extension::TlsExtension;
use layouts::GenError;
use tls_base::SNIType;

/// A length that a field of 2 bytes can't hold.
const TOO_LONG: usize = 65536;

/// Returns the length of the server names, each 1 byte of type, 2 bytes of length, and the name; at
/// most [`TOO_LONG`].
fn names_len(names: &[(SNIType, &[u8])]) -> usize
    ensures { result ≡ min (length (names_text (map view_server_name names.now))) 65536 }
{
    let mut total = 0;
    for (_, name) in names {
        total = (total + 3 + name.len()).min(TOO_LONG);
    }
    total
}

/// Returns the length of an extension's content, exact below [`TOO_LONG`].
///
/// `NotYetImplemented` if this kind isn't written.
fn content_len(extension: &TlsExtension) -> Result<usize, GenError>
    ensures { Counts (view extension.now) result }
{
    match extension {
        TlsExtension::SNI(names) => Ok(2 + names_len(names)),
        TlsExtension::MaxFragmentLength(_) => Ok(1),
        TlsExtension::EllipticCurves(groups) => Ok(2 + 2 * groups.len().min(TOO_LONG)),
        _ => Err(GenError::NotYetImplemented),
    }
}

/// Returns the length of an extension's encoding.
///
/// - `NotYetImplemented` if this kind isn't written.
/// - `BadLength` if the content is longer than 65535 bytes.
pub(crate) fn extension_len(extension: &TlsExtension) -> Result<usize, GenError>
    ensures { JudgesExtension (view extension.now) result }
{
    let len = content_len(extension)?;
    if len >= TOO_LONG {
        return Err(GenError::BadLength);
    }
    Ok(4 + len)
}

/// Returns the length of the encoding of a list of extensions.
///
/// - The refusal of the first extension that can't be written.
/// - `BadLength` if together they are longer than 65535 bytes.
pub(crate) fn extensions_len(extensions: &[TlsExtension]) -> Result<usize, GenError>
    ensures { JudgesExtensions (map view extensions.now) result }
{
    let mut total = 0;
    for extension in extensions {
        total = (total + extension_len(extension)?).min(TOO_LONG);
    }
    if total >= TOO_LONG {
        return Err(GenError::BadLength);
    }
    Ok(2 + total)
}
