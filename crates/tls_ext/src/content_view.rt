//! Parses the contents of extensions in place: the bytes after an extension's type and length (RFC
//! 8446, section 4.2).
//!
//! Each call returns the answer of the call of `content` that makes a list, but allocates nothing.
//! The length of a list is checked at once. Its items are read when the walk reaches them, and the
//! walk ends where that call ends its list.
#![tactic(auto, using(layouts::proofs::OneAnswerLemmas::read_allowed))]

ghost use Rattle.layouts.specs.Answers.{Gives};
ghost use Rattle.layouts.specs.Items.{items_in};
ghost use Rattle.layouts.specs.Framed.{Framed};
ghost use Rattle.layouts.specs.Layout.{counted, number};
ghost use Rattle.tls_ext.specs.Content as content;
ghost use Rattle.tls_ext.specs.Extension as extension;
ghost use Rattle.tls_ext.specs.InPlace.{client_shares, key_share_entry, view_key_share_entry};

use crate::content::ServerName;
use crate::extension::{KeyShareEntry, OidFilter};
use layouts::{
    Counted1, IResult, InPlace, Items, block, counted1, counted2, number2, pairs_in_place, parsed,
};
use tls_base::{NamedGroup, TlsVersion};

/// Reads the server names in place, as [`crate::parse_tls_extension_sni_content`].
#[tactic(auto, using(layouts::proofs::OneAnswerLemmas::read_allowed, layouts::proofs::ItemsLemmas::none_in), unfolding(crate::specs::Content::server_names))]
#[inline(always)]
pub fn server_names(i: &[u8]) -> IResult<&[u8], Items<ServerName>>
    ensures { Gives (λ v. extension.server_name (items_in content.server_name v.bytes.now))
        content.server_names i.now result }
{
    if i.is_empty() {
        return Ok((i, Items::new(i)));
    }
    let (i, window) = parsed!(counted2(i));
    Ok((i, Items::new(window)))
}

/// Reads the application protocol names in place, as [`crate::parse_tls_extension_alpn_content`].
#[tactic(auto, using(layouts::proofs::OneAnswerLemmas::read_allowed), unfolding(crate::specs::Content::application_layer_protocol_negotiation))]
#[inline(always)]
pub fn protocol_names(i: &[u8]) -> IResult<&[u8], Items<Counted1>>
    ensures { Gives
        (λ v. extension.application_layer_protocol_negotiation (items_in (counted 1) v.bytes.now))
        content.application_layer_protocol_negotiation i.now result }
{
    let (i, window) = parsed!(counted2(i));
    Ok((i, Items::new(window)))
}

/// Reads the signature algorithms in place, as
/// [`crate::parse_tls_extension_signature_algorithms_content`].
#[tactic(auto, using(layouts::proofs::OneAnswerLemmas::read_allowed), unfolding(crate::specs::Content::signature_algorithms))]
#[inline(always)]
pub fn signature_algorithms(i: &[u8]) -> IResult<&[u8], Items<u16>>
    ensures { Gives (λ v. extension.signature_algorithms (items_in (number 2) v.bytes.now))
        content.signature_algorithms i.now result }
{
    let (i, window) = parsed!(counted2(i));
    Ok((i, Items::new(window)))
}

/// Reads the supported groups in place, as [`crate::parse_tls_extension_elliptic_curves_content`].
#[tactic(auto, using(layouts::proofs::OneAnswerLemmas::read_allowed), unfolding(crate::specs::Content::supported_groups))]
#[inline(always)]
pub fn supported_groups(i: &[u8]) -> IResult<&[u8], Items<NamedGroup>>
    ensures { Gives (λ v. extension.supported_groups (items_in (number 2) v.bytes.now))
        content.supported_groups i.now result }
{
    let (i, window) = parsed!(counted2(i));
    let (_, groups) = parsed!(pairs_in_place::<NamedGroup>(window));
    Ok((i, groups))
}

/// Reads the supported point formats, 1 byte each, as
/// [`crate::parse_tls_extension_ec_point_formats_content`].
#[tactic(auto, using(layouts::proofs::OneAnswerLemmas::read_allowed), unfolding(crate::specs::Content::ec_point_formats))]
#[inline(always)]
pub fn ec_point_formats(i: &[u8]) -> IResult<&[u8], &[u8]>
    ensures { Gives (λ v. extension.ec_point_formats v.now) content.ec_point_formats i.now result }
{
    counted1(i)
}

/// Reads the modes of pre-shared keys, 1 byte each, as
/// [`crate::parse_tls_extension_psk_key_exchange_modes_content`].
#[tactic(auto, using(layouts::proofs::OneAnswerLemmas::read_allowed), unfolding(crate::specs::Content::psk_key_exchange_modes))]
#[inline(always)]
pub fn psk_key_exchange_modes(i: &[u8]) -> IResult<&[u8], &[u8]>
    ensures { Gives (λ v. extension.psk_key_exchange_modes v.now) content.psk_key_exchange_modes
        i.now result }
{
    counted1(i)
}

/// Reads the filters on certificate extensions in place (RFC 8446, section 4.2.5): 2 bytes of
/// length and that many bytes of filters. Each is an OID after 1 byte of length, and values after
/// 2.
///
/// `Incomplete` with the bytes missing from the length, or else from the list.
#[tactic(auto, using(layouts::proofs::OneAnswerLemmas::read_allowed), unfolding(crate::specs::Content::oid_filters))]
#[inline(always)]
pub fn oid_filters<'a>(i: &'a [u8]) -> IResult<&'a [u8], Items<'a, OidFilter<'a>>>
    ensures { Gives (λ v. extension.oid_filters (items_in content.oid_filter v.bytes.now))
        content.oid_filters i.now result }
{
    let (i, window) = parsed!(counted2(i));
    Ok((i, Items::new(window)))
}

/// Reads the supported versions in place (RFC 8446, section 4.2.1). If `i` has 2 bytes, they are
/// one version. Else it has 1 byte of length, which isn't checked, and all bytes after it are
/// versions of 2 bytes each.
///
/// - `Incomplete(1)` if `i` is empty.
/// - `Error` of kind `LengthValue` if an odd number of bytes follows the length.
#[tactic(auto, using(layouts::proofs::OneAnswerLemmas::read_allowed, layouts::proofs::NumbersLemmas::one_in), unfolding(crate::specs::Content::supported_versions, layouts::specs::Reading::ignored_at))]
#[inline(always)]
pub fn supported_versions(i: &[u8]) -> IResult<&[u8], Items<TlsVersion>>
    ensures { Gives (λ v. extension.supported_versions (items_in (number 2) v.bytes.now))
        content.supported_versions i.now result }
{
    if i.len() == 2 {
        let (rest, _) = parsed!(TlsVersion::parse(i));
        return Ok((rest, Items::new(i)));
    }
    let (i, _) = parsed!(block(i, 1));
    pairs_in_place::<TlsVersion>(i)
}

impl<'a> InPlace<'a> for KeyShareEntry<'a> {
    type Read = Self;

    ghost Value = { Framed };

    ghost view = { view_key_share_entry };

    ghost layout = { key_share_entry };

    #[tactic(auto, using(layouts::proofs::OneAnswerLemmas::read_allowed), unfolding(layouts::specs::Framed::framed))]
    #[inline(always)]
    fn read(i: &'a [u8]) -> IResult<&'a [u8], Self> {
        let (i, n) = parsed!(number2(i));
        let (i, kx) = parsed!(counted2(i));
        let group = NamedGroup(n);
        Ok((i, KeyShareEntry { group, kx }))
    }
}

/// Reads the key shares of a ClientHello in place (RFC 8446, section 4.2.8): 2 bytes of length and
/// that many bytes of shares. Each is a group of 2 bytes, and a public value after 2 bytes of
/// length.
///
/// `Incomplete` with the bytes missing from the length, or else from the list.
#[inline(always)]
pub fn key_shares<'a>(i: &'a [u8]) -> IResult<&'a [u8], Items<'a, KeyShareEntry<'a>>>
    ensures { Gives (λ v. items_in key_share_entry v.bytes.now) client_shares i.now result }
{
    let (i, window) = parsed!(counted2(i));
    Ok((i, Items::new(window)))
}
