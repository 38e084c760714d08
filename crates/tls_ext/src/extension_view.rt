//! Extensions in place (RFC 8446, section 4.2): the type and the content of each. The content is
//! parsed on demand.
//!
//! A walk over extensions checks where each ends, but no content. So it continues after an
//! extension whose content would be refused, where the calls that make lists end. The calls of
//! `content_view` check one content.
ghost use Rattle.std.specs.Prelude.{◌≡◌, ℕ};
ghost use Rattle.std.specs.Option.{option_map};
ghost use Rattle.layouts.specs.Items.{Returns, items_in};
ghost use Rattle.layouts.specs.Framed.{Framed};
ghost use Rattle.layouts.specs.Text.{held};
ghost use Rattle.tls_ext.specs.InPlace.{content_of, extension_type, raw_extension, view_raw_extension};

use layouts::{Err, Error, IResult, InPlace, Items, counted2, parsed};
use tls_base::TlsExtensionType;

/// An extension whose content isn't parsed.
#[derive(Clone, Copy, Debug, PartialEq)]
pub struct RawExtension<'a> {
    /// The type of the extension.
    pub extension_type: TlsExtensionType,
    /// The content, without its length.
    pub content: &'a [u8],
}

impl<'a> InPlace<'a> for RawExtension<'a> {
    type Read = Self;

    ghost Value = { Framed };

    ghost view = { view_raw_extension };

    ghost layout = { raw_extension };

    #[tactic(auto, using(layouts::proofs::OneAnswerLemmas::read_allowed), unfolding(layouts::specs::Framed::framed))]
    #[inline(always)]
    fn read(i: &'a [u8]) -> IResult<&'a [u8], Self> {
        let (i, extension_type) = parsed!(TlsExtensionType::parse(i));
        let (i, content) = parsed!(counted2(i));
        let extension = RawExtension {
            extension_type,
            content,
        };
        Ok((i, extension))
    }
}

/// Types of extensions as items of a list; contents are skipped.
#[derive(Clone, Copy)]
pub struct ExtensionType;

impl<'a> InPlace<'a> for ExtensionType {
    type Read = TlsExtensionType;

    ghost Value = { ℕ };

    ghost view = { λ n. n.0 };

    ghost layout = { extension_type };

    #[inline(always)]
    fn read(i: &'a [u8]) -> IResult<&'a [u8], TlsExtensionType> {
        let (i, extension) = parsed!(RawExtension::read(i));
        Ok((i, extension.extension_type))
    }
}

/// Returns a walk over the extensions of a client's or a server's hello, from its `ext`; none if
/// that is `None`.
#[inline(always)]
pub fn extensions<'a>(ext: Option<&'a [u8]>) -> Items<'a, RawExtension<'a>>
    ensures { result.bytes.now ≡ held (option_map (λ x. x.now) ext.entry) }
{
    match ext {
        Some(block) => Items::new(block),
        None => Items::new(&[]),
    }
}

/// Returns a walk over the types of the extensions of a client's or a server's hello, in their
/// order, from its `ext`.
#[inline(always)]
pub fn extension_types<'a>(ext: Option<&'a [u8]>) -> Items<'a, ExtensionType>
    ensures { result.bytes.now ≡ held (option_map (λ x. x.now) ext.entry) }
{
    Items::new(extensions(ext).bytes())
}

/// Returns the content of the first of `extensions` with this type.
///
/// If there is none: `None` if the walk reached the end of the bytes, else the refusal of the
/// extension that the walk ended at.
pub fn first_content<'a>(
    extensions: Items<'a, RawExtension<'a>>,
    kind: TlsExtensionType,
) -> Result<Option<&'a [u8]>, Err<Error<&'a [u8]>>>
    ensures { Returns (option_map (λ x. x.now))
        (content_of kind.0 extensions.entry.bytes.now) result }
{
    let block = extensions.bytes();
    let walk: Items<RawExtension> = Items::new(block);
    for extension in walk {
        if extension.extension_type == kind {
            return Ok(Some(extension.content));
        }
    }
    let whole: Items<RawExtension> = Items::new(block);
    match whole.refusal() {
        Some(e) => Err(e),
        None => Ok(None),
    }
}
