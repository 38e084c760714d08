//! Values that can be written as JSON.
ghost use Rattle.std.specs.Prelude.{◌≡◌, ◌++◌, ◌∷◌, IfOk, OnOk};
ghost use Rattle.std.specs.String.{string_bytes};
ghost use Rattle.json_objects.specs.Data.{Data, WritesData, json_of};
ghost use Rattle.json_objects.specs.Entries.{text_of};
ghost use Rattle.json.specs.Token.{key};
ghost use Rattle.json.specs.Tree.{json_tokens};

use json::Writer;
use std::alloc::{AllocError, Global};

/// A value with a text in JSON. `IsData` says which data it is written as.
pub trait ToJson {
    ghost IsData: { Self → Data → Type 0 };

    /// Appends the value. Where memory runs out, a part of it may be written.
    fn write(&self, alloc: Global, out: &mut Writer) -> Result<(), AllocError>
        ensures ok { OnOk result
            ((d : Data) × IsData self.now d × WritesData d out.old out.new) }
        ensures before { out.new.before ≡ out.old.before };
}

/// Appends a member of an object.
pub(crate) fn write_member<T: ToJson>(
    alloc: Global,
    out: &mut Writer,
    name: &str,
    value: &T,
) -> Result<(), AllocError>
    ensures ok { OnOk result ((d : Data) × T.IsData value.now d
        × (out.new.tokens ≡ out.old.tokens ++ key name.now ∷ json_tokens (json_of d))) }
    ensures before { out.new.before ≡ out.old.before }
{
    out.key(name)?;
    value.write(alloc, out)
}

/// Returns a value as JSON.
pub fn value_text<T: ToJson>(alloc: Global, value: &T) -> Result<String, AllocError>
    ensures { IfOk result (λ text. (d : Data) × T.IsData value.now d
        × (string_bytes text ≡ text_of (json_of d))) }
{
    let mut out = Writer::new(Vec::new(alloc));
    value.write(alloc, &mut out)?;
    match String::from_utf8(out.into_inner()) {
        Ok(text) => Ok(text),
        Err(_) => Err(AllocError),
    }
}
