//! Extensions of hellos.
ghost use Rattle.std.specs.Prelude.{IfOk, ◌≡◌, ◌++◌};
ghost use Rattle.serde_json.specs.Data.{Data, array, no_items};
ghost use Rattle.layouts.specs.Items.{left_in};
ghost use Rattle.tls_ext.specs.InPlace.{raw_extension};
ghost use Rattle.tls_json.specs.Outline.{Shows, Entries, HasFields};
ghost use Rattle.tls_json.specs.Tables.{extensions_fields, extension_fields};

use crate::content::{Sender, content_of};
use crate::json::Value;
use crate::table::{Table, Values};
use layouts::Items;
use std::alloc::{AllocError, Global};
use tls_base::TlsExtensionType;
use tls_ext::RawExtension;

/// Writes an extension (RFC 8446, section 4.2): its type, the type's name if it is registered, and
/// its content.
fn fields(
    alloc: Global,
    extension_type: TlsExtensionType,
    name: Option<&'static str>,
    extension_data: Result<Value, AllocError>,
) -> Result<Value, AllocError>
    ensures { (d : Data) → IfOk extension_data (Shows d)
        → IfOk result (Shows (extension_fields extension_type.0 name.entry d)) }
{
    Table::new(alloc)
        .decimal("extension_type", u64::from(extension_type.0))
        .some_name("name", name)
        .add("extension_data", extension_data)
        .finish()
}

/// Lists the extensions of a block in order.
fn list<'a>(alloc: Global, sender: Sender, block: &'a [u8]) -> Result<Value, AllocError>
    ensures { IfOk result (Shows (array no_items)) }
{
    let walk: Items<RawExtension> = Items::new(block);
    let mut all = Values::new(alloc);
    for one in walk {
        let name = one.extension_type.registered_name();
        let data = content_of(alloc, sender, one.extension_type, one.content);
        all = all.add(fields(alloc, one.extension_type, name, data));
    }
    all.finish()
}

/// Returns the bytes after the last whole extension of a block.
fn rest<'a>(block: &'a [u8]) -> &'a [u8]
    ensures { result.now ≡ left_in raw_extension block.now }
{
    let walk: Items<RawExtension> = Items::new(block);
    walk.rest()
}

/// Adds a hello's extensions, if it has a block of them, and the bytes after the last whole one.
/// `ext` is the block without its length.
pub fn with_extensions(alloc: Global, table: Table, sender: Sender, ext: Option<&[u8]>) -> Table
    ensures { (es : Entries) → HasFields es table
        → HasFields (es ++ extensions_fields ext.entry) result }
{
    match ext {
        Some(block) => table
            .add("extensions", list(alloc, sender, block))
            .some_bytes("rest", rest(block)),
        None => table,
    }
}
