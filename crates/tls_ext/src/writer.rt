//! Writes extensions (RFC 8446, section 4.2): server names, a maximum fragment length, and
//! supported groups.
//!
//! A call first checks the whole value without allocating (`judge`). Then it builds the encoding in
//! one allocation of exactly its length (`builder`), and hands it to the `Write`. So a refusal, or
//! running out of memory, leaves the `Write` unchanged.
ghost use Rattle.std.specs.Prelude.{map, OnOk};
ghost use Rattle.tls_ext.specs.Extension.{view};
ghost use Rattle.tls_ext.specs.ExtensionText.{IsReadBack, WritesExtension, WritesExtensions};

use crate::extension::TlsExtension;
use layouts::writer::builder::append2;
use layouts::{GenError, write_whole};
use std::alloc::Global;
use std::io::Write;

mod builder;
mod judge;

use builder::{append_extension, append_extensions};
use judge::{extension_len, extensions_len};

/// Writes an extension (RFC 8446, section 4.2): 2 bytes of type, 2 bytes of length, and the
/// content. All numbers are big-endian.
///
/// - Server names (RFC 6066, section 3): 2 bytes of length, and each name as 1 byte of type, 2
///   bytes of length, and its bytes.
/// - A maximum fragment length (RFC 6066, section 4): 1 byte.
/// - Supported groups (RFC 8446, section 4.2.7): 2 bytes of length, and 2 bytes each.
///
/// With `Ok` the encoding was appended to what `w` held. The caller flushes `w`. These refusals
/// leave `w` unchanged:
///
/// - `NotYetImplemented`: the extension is of another kind.
/// - `BadLength`: the content is longer than 65535 bytes. This includes a name, or a list in it,
///   that is too long for its length field. 32766 groups fit, 32767 don't.
/// - `OutOfMemory`: the encoding can't be allocated.
///
/// `Io` means that the extension can be written, but `w` failed, was interrupted, or took no bytes.
/// How much it took before is unknown.
pub fn gen_tls_extension<W: Write>(
    alloc: Global,
    extension: &TlsExtension,
    w: &mut W,
) -> Result<(), GenError>
    ensures { WritesExtension (view extension.now) W.contents w.old w.new result }
{
    let len = extension_len(extension)?;
    let mut text = Vec::with_capacity(alloc, len)?;
    append_extension(&mut text, extension, len);
    write_whole(w, &text)
}

/// Writes a list of extensions (RFC 8446, section 4.2): 2 bytes of length, big-endian, and the
/// extensions, each as by [`gen_tls_extension`]. [`crate::parse_tls_extensions`] reads the bytes
/// after the length back as the same list.
///
/// With `Ok` the encoding was appended to what `w` held. The caller flushes `w`. These refusals
/// leave `w` unchanged:
///
/// - `NotYetImplemented` or `BadLength`: [`gen_tls_extension`] refuses the first extension that
///   can't be written. `BadLength` also if each can, but together they are longer than 65535 bytes.
/// - `OutOfMemory`: the encoding can't be allocated.
///
/// `Io` means that the list can be written, but `w` failed, was interrupted, or took no bytes. How
/// much it took before is unknown.
pub fn gen_tls_extensions<W: Write>(
    alloc: Global,
    extensions: &[TlsExtension],
    w: &mut W,
) -> Result<(), GenError>
    ensures writes { WritesExtensions (map view extensions.now) W.contents w.old w.new result }
    ensures reads_back { OnOk result (IsReadBack (map view extensions.now)) }
{
    let len = extensions_len(extensions)?;
    let mut text = Vec::with_capacity(alloc, len)?;
    append2(&mut text, (len - 2) as u16);
    append_extensions(&mut text, extensions);
    write_whole(w, &text)
}
