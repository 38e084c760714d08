//! Appends extensions to a vector with enough capacity.
ghost use Rattle.std.specs.Prelude.{◌≡◌, ◌<◌, ◌≤◌, ◌+◌, ◌*◌, ◌^◌, ◌++◌, length, map, vec_len, vec_capacity};
ghost use Rattle.std.specs.List.{All};
ghost use Rattle.layouts.specs.Text.{numbers_text};
ghost use Rattle.tls_ext.specs.Extension.{view, view_server_name};
ghost use Rattle.tls_ext.specs.ExtensionText.{names_text, extension_text, joined_text};
ghost use Rattle.tls_ext.specs.ExtensionText.{FitsExtension, FitsExtensions, InRangeExtension};

use crate::extension::TlsExtension;
use crate::writer::judge::extension_len;
use layouts::writer::builder::{append_bytes, append1, append2};
use tls_base::{NamedGroup, SNIType, TlsExtensionType};

/// Appends server names.
fn append_names(out: &mut Vec<u8>, names: &[(SNIType, &[u8])])
    requires fits { length (names_text (map view_server_name names.now)) ≤ 65535 }
    requires room { vec_len out.old + length (names_text (map view_server_name names.now)) ≤
        vec_capacity out.old }
    ensures items { out.new.items ≡ out.old.items ++ names_text (map view_server_name names.now) }
    ensures range { All (λ n. n.name_type < 256 ^ 1) (map view_server_name names.now) }
    ensures len { vec_len out.new ≡ vec_len out.old + length
        (names_text (map view_server_name names.now)) }
    ensures capacity { vec_capacity out.old ≤ vec_capacity out.new }
{
    for (name_type, name) in names {
        append1(out, name_type.0);
        append2(out, name.len() as u16);
        append_bytes(out, name);
    }
}

/// Appends groups, 2 bytes each.
fn append_groups(out: &mut Vec<u8>, groups: &[NamedGroup])
    requires { vec_len out.old + 2 * length groups.now ≤ vec_capacity out.old }
    ensures items { out.new.items ≡ out.old.items ++ numbers_text 2 (map (λ g. g.0) groups.now) }
    ensures range { All (λ x. x < 256 ^ 2) (map (λ g. g.0) groups.now) }
    ensures len { vec_len out.new ≡ vec_len out.old + 2 * length groups.now }
    ensures capacity { vec_capacity out.old ≤ vec_capacity out.new }
{
    for group in groups {
        append2(out, group.0);
    }
}

/// Appends the encoding of an extension, which has `len` bytes.
pub(crate) fn append_extension(out: &mut Vec<u8>, extension: &TlsExtension, len: usize)
    requires fits { FitsExtension (view extension.now) }
    requires length { len ≡ length (extension_text (view extension.now)) }
    requires room { vec_len out.old + len ≤ vec_capacity out.old }
    ensures items { out.new.items ≡ out.old.items ++ extension_text (view extension.now) }
    ensures range { InRangeExtension (view extension.now) }
    ensures len { vec_len out.new ≡ vec_len out.old + len }
    ensures capacity { vec_capacity out.old ≤ vec_capacity out.new }
{
    append2(out, TlsExtensionType::from(extension).0);
    append2(out, (len - 4) as u16);
    match extension {
        TlsExtension::SNI(names) => {
            append2(out, (len - 6) as u16);
            append_names(out, names);
        }
        TlsExtension::MaxFragmentLength(code) => append1(out, *code),
        TlsExtension::EllipticCurves(groups) => {
            append2(out, (2 * groups.len()) as u16);
            append_groups(out, groups);
        }
        // `judge` refuses every other kind.
        _ => {}
    }
}

/// Appends the encodings of extensions, one after another.
pub(crate) fn append_extensions(out: &mut Vec<u8>, extensions: &[TlsExtension])
    requires fits { FitsExtensions (map view extensions.now) }
    requires room { vec_len out.old + length (joined_text (map view extensions.now))
        ≤ vec_capacity out.old }
    ensures items { out.new.items ≡ out.old.items ++ joined_text (map view extensions.now) }
    ensures range { All InRangeExtension (map view extensions.now) }
{
    for extension in extensions {
        if let Ok(len) = extension_len(extension) {
            append_extension(out, extension, len);
        }
    }
}
