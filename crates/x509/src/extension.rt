//! Extensions (RFC 5280, section 4.2).
#![tactic(auto, using(layouts::proofs::OneAnswerLemmas::read_allowed))]

ghost use Rattle.std.specs.Prelude.{◌≡◌, List};
ghost use Rattle.std.specs.Option.{option_map};
ghost use Rattle.layouts.specs.Answers.{Gives};
ghost use Rattle.layouts.specs.Items.{items_in};
ghost use Rattle.x509.specs.Certificate.{Extension as PlainExtension, view_extension, extension_content, extension, extensions as extensions_layout};
ghost use Rattle.x509.specs.Extensions.{first_of};

use der::{AllBytes, ItemsOf, ObjectIdentifier, default_false, object_identifier, tag, tagged};
use layouts::{IResult, InPlace, Items, parsed};

/// An extension.
#[derive(Clone, Copy, Debug, PartialEq)]
pub struct Extension<'a> {
    /// Its type.
    pub extn_id: ObjectIdentifier<'a>,
    /// Whether a receiver that doesn't know it must reject the certificate.
    pub critical: bool,
    /// Its value, in DER.
    pub extn_value: &'a [u8],
}

/// The content of an extension.
struct ExtensionContent;

impl<'a> InPlace<'a> for ExtensionContent {
    type Read = Extension<'a>;

    ghost Value = { PlainExtension };

    ghost view = { view_extension };

    ghost layout = { extension_content };

    #[tactic(auto, using(layouts::proofs::OneAnswerLemmas::read_allowed), unfolding(crate::specs::Certificate::extension_content))]
    fn read(i: &'a [u8]) -> IResult<&'a [u8], Extension<'a>> {
        let (i, extn_id) = parsed!(object_identifier(i));
        let (i, critical) = parsed!(default_false(i));
        let (i, extn_value) = parsed!(tagged::<AllBytes>(i, tag::OCTET_STRING));
        let extension = Extension {
            extn_id,
            critical,
            extn_value,
        };
        Ok((i, extension))
    }
}

/// A list of extensions; each is parsed as an [`Extension`].
pub struct Extensions;

impl<'a> InPlace<'a> for Extensions {
    type Read = Extension<'a>;

    ghost Value = { PlainExtension };

    ghost view = { view_extension };

    ghost layout = { extension };

    #[tactic(auto, using(layouts::proofs::OneAnswerLemmas::read_allowed), unfolding(crate::specs::Certificate::extension))]
    fn read(i: &'a [u8]) -> IResult<&'a [u8], Extension<'a>> {
        tagged::<ExtensionContent>(i, tag::SEQUENCE)
    }
}

/// The Extensions structure: its list.
pub(crate) struct ExtensionList;

impl<'a> InPlace<'a> for ExtensionList {
    type Read = Items<'a, Extensions>;

    ghost Value = { List PlainExtension };

    ghost view = { λ v. items_in extension v.bytes.now };

    ghost layout = { extensions_layout };

    #[tactic(auto, using(layouts::proofs::OneAnswerLemmas::read_allowed), unfolding(crate::specs::Certificate::extensions))]
    fn read(i: &'a [u8]) -> IResult<&'a [u8], Items<'a, Extensions>> {
        tagged::<ItemsOf<Extensions>>(i, tag::SEQUENCE)
    }
}

/// The first of `extensions` with this type, such as one of [`crate::oid`].
///
/// `None` if there is none before the iterator ends.
pub fn first_extension<'a>(
    extensions: Items<'a, Extensions>,
    extn_id: ObjectIdentifier,
) -> Option<Extension<'a>>
    ensures { option_map view_extension result ≡ first_of extn_id.entry.content.now
        (items_in extension extensions.entry.bytes.now) }
{
    for extension in extensions {
        if extension.extn_id.content == extn_id.content {
            return Some(extension);
        }
    }
    None
}
