//! What a hello's `ext` offers: the lists in the first extension of a type, empty if it is missing
//! or refused.
ghost use Rattle.std.specs.Prelude.{◌≡◌, []};
ghost use Rattle.std.specs.Option.{option_map};
ghost use Rattle.layouts.specs.Items.{items_in};
ghost use Rattle.layouts.specs.Layout.{number};
ghost use Rattle.layouts.specs.Text.{held};
ghost use Rattle.tls_ext.specs.Offered.{algorithms_in, content_in, formats_in, groups_in};

use crate::content_view::{ec_point_formats, signature_algorithms, supported_groups};
use crate::extension_view::{extensions, first_content};
use layouts::{InPlace, Items};
use tls_base::{NamedGroup, TlsExtensionType};

/// Returns a walk over no items.
pub fn none<'a, T: InPlace<'a>>() -> Items<'a, T>
    ensures { items_in T.layout result.bytes.now ≡ [] }
{
    Items::new(&[])
}

/// Returns the content of the first extension of this type; `None` if none was found.
pub fn content<'a>(ext: Option<&'a [u8]>, kind: TlsExtensionType) -> Option<&'a [u8]>
    ensures { option_map (λ x. x.now) result ≡ content_in kind.0
        (held (option_map (λ x. x.now) ext.entry)) }
{
    match first_content(extensions(ext), kind) {
        Ok(content) => content,
        Err(_) => None,
    }
}

/// Returns the groups in the first supported_groups (RFC 8446, section 4.2.7); none if it is
/// missing or refused.
pub fn groups<'a>(ext: Option<&'a [u8]>) -> Items<'a, NamedGroup>
    ensures { items_in (number 2) result.bytes.now ≡ groups_in
        (held (option_map (λ x. x.now) ext.entry)) }
{
    let Ok(Some(content)) = first_content(extensions(ext), TlsExtensionType::SupportedGroups) else {
        return none::<NamedGroup>();
    };
    match supported_groups(content) {
        Ok((_, groups)) => groups,
        Err(_) => none::<NamedGroup>(),
    }
}

/// Returns the formats in the first ec_point_formats (RFC 8422, section 5.1.2), 1 byte each; none
/// if it is missing or refused.
pub fn formats<'a>(ext: Option<&'a [u8]>) -> &'a [u8]
    ensures { result.now ≡ formats_in (held (option_map (λ x. x.now) ext.entry)) }
{
    let Ok(Some(content)) = first_content(extensions(ext), TlsExtensionType::EcPointFormats) else {
        return &[];
    };
    match ec_point_formats(content) {
        Ok((_, formats)) => formats,
        Err(_) => &[],
    }
}

/// Returns the algorithms in the first signature_algorithms (RFC 8446, section 4.2.3); none if it
/// is missing or refused.
pub fn algorithms<'a>(ext: Option<&'a [u8]>) -> Items<'a, u16>
    ensures { items_in (number 2) result.bytes.now ≡ algorithms_in
        (held (option_map (λ x. x.now) ext.entry)) }
{
    let Ok(Some(content)) = first_content(extensions(ext), TlsExtensionType::SignatureAlgorithms)
    else {
        return none::<u16>();
    };
    match signature_algorithms(content) {
        Ok((_, algorithms)) => algorithms,
        Err(_) => none::<u16>(),
    }
}
