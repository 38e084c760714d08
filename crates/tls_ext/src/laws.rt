//! Theorems about the layouts and encodings alone: what is written reads back, and a walk in place
//! yields the list. Each function's contract is one law; its body is empty.

ghost use Rattle.std.specs.Prelude.{◌≡◌, List};
ghost use Rattle.std.specs.List.{All};
ghost use Rattle.layouts.specs.Bytes.{Bytes};
ghost use Rattle.layouts.specs.Items.{decode_while, items_in};
ghost use Rattle.tls_ext.specs.Dispatch.{extension, extension_content};
ghost use Rattle.tls_ext.specs.Extension.{Extension};
ghost use Rattle.tls_ext.specs.ExtensionText.{FitsExtension, FitsExtensions, InRangeExtension};
ghost use Rattle.tls_ext.specs.ExtensionText.{IsReadBack, IsReadBackBefore};
ghost use Rattle.tls_ext.specs.InPlace.{extension_of, raw_extension};

/// An extension that can be written reads back from its encoding as an extension of any message,
/// whatever bytes follow, and nothing is dropped. Its numbers fit their fields, as those of every
/// value in memory do.
#[tactic(auto, using(crate::proofs::ExtensionTextLemmas::extension_spelled))]
pub fn extension_is_read_back()
    ensures { (e : Extension) (r : Bytes) → FitsExtension e → InRangeExtension e
        → IsReadBackBefore e r }
{}

/// Extensions that can be written read back from their encoding without its 2 bytes of length, and
/// no bytes are left.
#[tactic(auto, using(crate::proofs::ExtensionTextLemmas::extensions_read))]
pub fn extensions_are_read_back()
    ensures { (es : List Extension) → FitsExtensions es → All InRangeExtension es → IsReadBack es }
{}

/// The extensions of a message, for any side, are those of a walk in place, each decoded, up to the
/// first whose content is refused.
#[tactic(auto, using(layouts::proofs::FramedLemmas::items_of_windows), unfolding(crate::specs::Dispatch::extension))]
pub fn extensions_are_walked_and_decoded()
    ensures { (side : _) (b : Bytes) → items_in (extension side) b ≡ decode_while
        (extension_of (extension_content side)) (items_in raw_extension b) }
{}
