//! Parses extensions of any type (RFC 8446, section 4.2), with the content of that type.
ghost use Rattle.std.specs.Prelude.{◌≡◌, ◌≤◌, length, map};
ghost use Rattle.layouts.specs.Answers.{Gives, GivesOrMemory};
ghost use Rattle.tls_ext.specs.Extension.{Extension, unknown, view};
ghost use Rattle.tls_ext.specs.Dispatch.{extension as extension_layout, extension_content as content_layout};
ghost use Rattle.tls_ext.specs.Dispatch.{extensions, registered, registered_list};
ghost use Rattle.tls_ext.specs.Content.{opaque_content};
ghost use Rattle.tls_ext.specs.declared.kind.Side.{Side};
ghost use Rattle.tls_ext.specs.declared.kind.Side.TheVariants.{General as general, Client as client, Server as server};

use crate::content;
use crate::extension::TlsExtension;
use crate::kind::{Side, list_rows, other_rows, row_type, rows};
use layouts::{IResult, Item, Room, counted2, hops2, items, parsed};
use std::alloc::Global;
use std::marker::PhantomData;
use tls_base::TlsExtensionType;

/// Expands to a match on the type. Each row gives its content if the side reads it, else all bytes;
/// `$other` is for types without a row.
macro_rules! by_type {
    ([$kind:ident $side:ident $i:ident $given:tt => $other:expr]
        $($number:tt => $form:ident($variant:ident, $read:ident), $sides:ident;)*) => {
        match $kind {
            $(row_type!($number) => {
                if $side.$sides() { content::$read $given } else { unknown_content($i, $kind) }
            })*
            _ => $other,
        }
    };
}

/// Reads the content of a type that has no row, or none for this side: all bytes.
#[tactic(auto, using(layouts::proofs::OneAnswerLemmas::read_allowed))]
#[inline(always)]
fn unknown_content(i: &[u8], kind: TlsExtensionType) -> IResult<&[u8], TlsExtension>
    ensures { Gives view (opaque_content (unknown kind.0)) i.now result }
{
    let (i, content) = content::whole(i);
    Ok((i, TlsExtension::Unknown(kind, content)))
}

/// Reads the content of a type whose content is a list, or of an unknown type.
///
/// It is a separate function: in one match with the other rows, their results would go through the
/// memory of these calls' results.
#[tactic(auto, using(layouts::proofs::OneAnswerLemmas::read_allowed, layouts::proofs::OneAnswerLemmas::eqb_other), unfolding(crate::specs::Dispatch::registered_list))]
#[inline(always)]
fn list_content(
    alloc: Global,
    i: &[u8],
    kind: TlsExtensionType,
    side: Side,
) -> IResult<&[u8], TlsExtension>
    ensures { GivesOrMemory view (registered_list side kind.0) i.now result }
{
    rows!(list_rows by_type kind side i (alloc, i) => unknown_content(i, kind))
}

/// Reads the content of a type that isn't a GREASE number.
#[tactic(auto, using(layouts::proofs::OneAnswerLemmas::read_allowed, layouts::proofs::OneAnswerLemmas::eqb_other), unfolding(crate::specs::Dispatch::registered, crate::specs::Dispatch::registered_list))]
#[inline(always)]
fn registered_content(
    alloc: Global,
    i: &[u8],
    kind: TlsExtensionType,
    side: Side,
) -> IResult<&[u8], TlsExtension>
    ensures { GivesOrMemory view (registered side kind.0) i.now result }
{
    rows!(other_rows by_type kind side i (i) => list_content(alloc, i, kind, side))
}

/// Reads the content of an extension of the type `kind`, for this side.
///
/// The refusals are those of the kind's content. The content of a GREASE number, and of a type that
/// `side` doesn't read, is never refused.
#[tactic(auto, using(layouts::proofs::OneAnswerLemmas::read_allowed), unfolding(crate::specs::Dispatch::extension_content))]
#[inline(always)]
fn extension_content(
    alloc: Global,
    i: &[u8],
    kind: TlsExtensionType,
    side: Side,
) -> IResult<&[u8], TlsExtension>
    ensures { GivesOrMemory view (content_layout side kind.0) i.now result }
{
    if kind.0 & 0x0f0f == 0x0a0a {
        let (i, content) = content::whole(i);
        return Ok((i, TlsExtension::Grease(kind.0, content)));
    }
    registered_content(alloc, i, kind, side)
}

/// Reads a whole extension, for this side.
#[tactic(auto, using(layouts::proofs::OneAnswerLemmas::read_allowed), unfolding(crate::specs::Dispatch::extension))]
#[inline(always)]
fn extension(alloc: Global, i: &[u8], side: Side) -> IResult<&[u8], TlsExtension>
    ensures { GivesOrMemory view (extension_layout side) i.now result }
{
    let (i, kind) = parsed!(TlsExtensionType::parse(i));
    let (i, window) = parsed!(counted2(i));
    let (_, extension) = parsed!(extension_content(alloc, window, kind, side));
    Ok((i, extension))
}

/// Reads an extension of any message (RFC 8446, section 4.2): 2 bytes of type, 2 bytes of length,
/// and a content of that many bytes. Bytes that the content leaves are dropped. All numbers are
/// big-endian.
///
/// A type whose bytes both end in the hexadecimal digit a is `Grease`, with its content. RFC 8701,
/// section 2, reserves sixteen such numbers, those with two equal bytes; here all 256 are. A type
/// whose content isn't parsed is `Unknown`, with its content.
///
/// - `Incomplete` with the number of missing bytes if the extension is incomplete.
/// - The refusals of the content, which may be `Incomplete` too: those of the kind's own call,
///   except for Heartbeat. Here 1 byte of its content is read and the others are dropped, with
///   `Incomplete(1)` if it is empty, while [`crate::parse_tls_extension_heartbeat`] accepts only
///   the length 1.
/// - The refusals of contents without a call: `Incomplete` with the bytes missing from a record
///   size limit of 2 bytes, or from the length or the list of filters on certificate extensions;
///   `Error` of kind `Verify` if post_handshake_auth or next_protocol_negotiation isn't empty.
/// - `OutOfMemory` if a list can't be allocated.
#[inline(always)]
pub fn parse_tls_extension(alloc: Global, i: &[u8]) -> IResult<&[u8], TlsExtension>
    ensures { GivesOrMemory view (extension_layout general) i.now result }
{
    extension(alloc, i, Side::General)
}

/// Reads an extension of a ClientHello, as [`parse_tls_extension`], but the older number of key
/// shares, which this call doesn't parse, is `Unknown`.
#[inline(always)]
pub fn parse_tls_client_hello_extension(alloc: Global, i: &[u8]) -> IResult<&[u8], TlsExtension>
    ensures { GivesOrMemory view (extension_layout client) i.now result }
{
    extension(alloc, i, Side::Client)
}

/// Reads an extension of a ServerHello, as [`parse_tls_extension`], but types that this call
/// doesn't parse are `Unknown`:
///
/// - supported groups, padding, the older number of key shares;
/// - modes of pre-shared keys, filters on certificate extensions;
/// - post_handshake_auth, and an encrypted server name.
#[inline(always)]
pub fn parse_tls_server_hello_extension(alloc: Global, i: &[u8]) -> IResult<&[u8], TlsExtension>
    ensures { GivesOrMemory view (extension_layout server) i.now result }
{
    extension(alloc, i, Side::Server)
}

/// A side as a type, for the items of a list.
trait Reader {
    ghost side: { Side };

    fn side() -> Side
        ensures { result ≡ side };
}

/// The side of any message.
struct General;

impl Reader for General {
    ghost side = { general };

    fn side() -> Side {
        Side::General
    }
}

/// Reads extensions of a ClientHello.
struct Client;

impl Reader for Client {
    ghost side = { client };

    fn side() -> Side {
        Side::Client
    }
}

/// Reads extensions of a ServerHello.
struct Server;

impl Reader for Server {
    ghost side = { server };

    fn side() -> Side {
        Side::Server
    }
}

/// An extension as an item of a list, for this side.
struct ExtensionFor<R: Reader> {
    reader: PhantomData<R>,
}

impl<'a, R: Reader> Item<'a> for ExtensionFor<R> {
    type Read = TlsExtension<'a>;

    ghost Value = { Extension };

    ghost view = { view };

    ghost layout = { extension_layout R.side };

    fn read(alloc: Global, i: &'a [u8]) -> IResult<&'a [u8], TlsExtension<'a>> {
        extension(alloc, i, R::side())
    }
}

impl<R: Reader> Room for ExtensionFor<R> {
    fn room(i: &[u8]) -> usize
        ensures { result ≤ length i.now }
    {
        hops2(i, 2)
    }
}

/// Reads zero or more extensions, each as [`parse_tls_extension`], up to the first that is refused
/// by `Error` or `Incomplete`. The rest begins there.
///
/// `OutOfMemory` if a list can't be allocated. Refuses nothing else.
pub fn parse_tls_extensions(alloc: Global, i: &[u8]) -> IResult<&[u8], Vec<TlsExtension>>
    ensures { GivesOrMemory (λ v. map view v.items) (extensions general) i.now result }
{
    items::<ExtensionFor<General>>(alloc, i)
}

/// Reads the extensions of a ClientHello, as [`parse_tls_extensions`], each as
/// [`parse_tls_client_hello_extension`].
pub fn parse_tls_client_hello_extensions(
    alloc: Global,
    i: &[u8],
) -> IResult<&[u8], Vec<TlsExtension>>
    ensures { GivesOrMemory (λ v. map view v.items) (extensions client) i.now result }
{
    items::<ExtensionFor<Client>>(alloc, i)
}

/// Reads the extensions of a ServerHello, as [`parse_tls_extensions`], each as
/// [`parse_tls_server_hello_extension`].
pub fn parse_tls_server_hello_extensions(
    alloc: Global,
    i: &[u8],
) -> IResult<&[u8], Vec<TlsExtension>>
    ensures { GivesOrMemory (λ v. map view v.items) (extensions server) i.now result }
{
    items::<ExtensionFor<Server>>(alloc, i)
}
