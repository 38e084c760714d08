//! Reads single fields of hellos (RFC 5246, section 7.4.1), and derives values from them.
ghost use Rattle.std.specs.Prelude.{◌≡◌, ◌<◌, map, IfOk, Ok};
ghost use Rattle.std.specs.Option.{option_map};
ghost use Rattle.layouts.specs.Answers.{Gives, GivesOrMemory};
ghost use Rattle.layouts.specs.Items.{items_in};
ghost use Rattle.layouts.specs.Text.{held};
ghost use Rattle.layouts.specs.Layout.{counted, maybe, number};
ghost use Rattle.tls_base.specs.CipherTable.{suite_of_id};
ghost use Rattle.tls_hs.specs.Hello.{session_id as session_id_layout, cipher_suites as cipher_suites_layout};
ghost use Rattle.tls_hs.specs.Places.{Leads};
ghost use Rattle.tls_hs.specs.Hello.{compression_methods, random_time as time_of, random_bytes as bytes_of};

use layouts::{
    ErrorKind, IResult, Items, Number, OutOfMemory, block, counted2, number1, number2, numbers,
    parsed, refused,
};
use std::alloc::{AllocError, Global};
use tls_base::{CipherTable, TlsCipherSuite, TlsCipherSuiteID, TlsCompressionID};

/// Reads a session id (RFC 5246, section 7.4.1.2): 1 byte of length, at most 32, and that many
/// bytes. An empty one is `None`.
///
/// `Error` of kind `Verify` if the length is above 32, else `Incomplete` with the number of missing
/// bytes.
#[tactic(auto, using(layouts::proofs::OneAnswerLemmas::read_allowed), unfolding(crate::specs::Hello::session_id))]
pub fn session_id(i: &[u8]) -> IResult<&[u8], Option<&[u8]>>
    ensures { Gives (λ v. option_map (λ x. x.now) v) session_id_layout i.now result }
{
    let (rest, n) = parsed!(number1(i));
    if n > 32 {
        return refused(i, ErrorKind::Verify);
    }
    let (rest, id) = parsed!(block(rest, n as usize));
    if n == 0 {
        Ok((rest, None))
    } else {
        Ok((rest, Some(id)))
    }
}

/// Returns the bytes of an optional part, or no bytes if there is none.
#[inline(always)]
pub fn held_bytes(part: Option<&[u8]>) -> &[u8]
    ensures { result.now ≡ held (option_map (λ x. x.now) part.entry) }
{
    match part {
        Some(bytes) => bytes,
        None => &[],
    }
}

/// Returns the numbers of a list in place as a vector, which is allocated once.
///
/// `AllocError` if the vector can't be allocated.
#[tactic(auto, using(layouts::proofs::OneAnswerLemmas::read_allowed, crate::proofs::ListedLemmas::listed))]
#[inline(always)]
pub fn listed<T: Number>(alloc: Global, items: Items<T>) -> Result<Vec<T>, AllocError>
    requires { 0 < T.WIDTH }
    ensures { IfOk result
        (λ v. map T.value v.items ≡ items_in (number T.WIDTH) items.entry.bytes.now) }
{
    let bytes = items.bytes();
    match numbers::<T>(alloc, bytes, bytes.len() / T::WIDTH) {
        Ok((_, list)) => Ok(list),
        Err(_) => Err(AllocError),
    }
}

/// Reads cipher suites in place. Gives the same answer as [`crate::parts::cipher_suites`], but
/// allocates nothing.
#[tactic(auto, using(layouts::proofs::OneAnswerLemmas::read_allowed, layouts::proofs::NumbersLemmas::numbers_in), unfolding(crate::specs::Hello::cipher_suites))]
#[inline(always)]
pub fn cipher_suites_in_place(i: &[u8]) -> IResult<&[u8], Items<TlsCipherSuiteID>>
    ensures gives { Gives (λ v. items_in (number 2) v.bytes.now) cipher_suites_layout i.now result }
    ensures leads { IfOk result (λ x. Leads 2 i.now x.1.bytes.now x.0.now) }
{
    let (after, k) = number2(i)?;
    let k = k as usize;
    if k % 2 != 0 || k > after.len() {
        return refused(i, ErrorKind::LengthValue);
    }
    let (suites, rest) = after.split_at(2 * (k / 2));
    Ok((rest, Items::new(suites)))
}

/// Reads compression methods in place. Gives the same answer as [`crate::parts::compressions`], but
/// allocates nothing.
#[tactic(auto, using(layouts::proofs::OneAnswerLemmas::read_allowed, layouts::proofs::NumbersLemmas::numbers_in), unfolding(crate::specs::Hello::compression_methods))]
#[inline(always)]
pub fn compressions_in_place(i: &[u8]) -> IResult<&[u8], Items<TlsCompressionID>>
    ensures gives { Gives (λ v. items_in (number 1) v.bytes.now) compression_methods i.now result }
    ensures leads { IfOk result (λ x. Leads 1 i.now x.1.bytes.now x.0.now) }
{
    let (after, k) = number1(i)?;
    let k = k as usize;
    if k > after.len() {
        return refused(i, ErrorKind::LengthValue);
    }
    let (methods, rest) = after.split_at(k);
    Ok((rest, Items::new(methods)))
}

/// Reads cipher suites (RFC 5246, section 7.4.1.2): 2 bytes of length and that many bytes of
/// suites, 2 bytes each, big-endian.
///
/// - `Incomplete` with the number of missing bytes, if the length is incomplete.
/// - `Error` of kind `LengthValue` if the length is odd, or greater than the number of remaining
///   bytes.
/// - `OutOfMemory` if the list can't be allocated.
pub fn cipher_suites(alloc: Global, i: &[u8]) -> IResult<&[u8], Vec<TlsCipherSuiteID>>
    ensures { GivesOrMemory (λ v. map (λ x. x.0) v.items) cipher_suites_layout i.now result }
{
    let (rest, suites) = parsed!(cipher_suites_in_place(i));
    Ok((rest, listed(alloc, suites)?))
}

/// Reads compression methods (RFC 5246, section 7.4.1.2): 1 byte of length and that many methods, 1
/// byte each.
///
/// - `Incomplete` with 1 if there is no length.
/// - `Error` of kind `LengthValue` if the length is greater than the number of remaining bytes.
/// - `OutOfMemory` if the list can't be allocated.
pub fn compressions(alloc: Global, i: &[u8]) -> IResult<&[u8], Vec<TlsCompressionID>>
    ensures { GivesOrMemory (λ v. map (λ x. x.0) v.items) compression_methods i.now result }
{
    let (rest, methods) = parsed!(compressions_in_place(i));
    Ok((rest, listed(alloc, methods)?))
}

/// Reads the extensions at the end of a hello (RFC 5246, section 7.4.1.2): 2 bytes of length and
/// that many bytes. If they are incomplete, returns `None` and consumes nothing. Never refuses.
pub fn extension_block(i: &[u8]) -> (&[u8], Option<&[u8]>)
    ensures { Gives (λ v. option_map (λ x. x.now) v) (maybe (counted 2)) i.now (Ok result) }
{
    match counted2(i) {
        Ok((rest, bytes)) => (rest, Some(bytes)),
        Err(_) => (i, None),
    }
}

/// Returns the table's suite for each of `ciphers`, in their order; `None` if the table has none.
///
/// `OutOfMemory` if the list can't be allocated.
pub fn suites<'t>(
    alloc: Global,
    table: &'t CipherTable,
    ciphers: &[TlsCipherSuiteID],
) -> Result<Vec<Option<&'t TlsCipherSuite>>, OutOfMemory>
    ensures { IfOk result
        (λ v. map (option_map (λ s. s.now)) v.items ≡ map (suite_of_id table.now)
        (map (λ c. c.0) ciphers.now)) }
{
    let mut suites = Vec::with_capacity(alloc, ciphers.len())?;
    for cipher in ciphers {
        suites.push_reserved(table.by_id(cipher.0));
    }
    Ok(suites)
}

/// Returns the first 4 bytes of a ClientHello's random as a number, big-endian; 0 if there are
/// fewer.
pub fn random_time(random: &[u8]) -> u32
    ensures { result ≡ time_of random.now }
{
    match random {
        [a, b, c, d, ..] => u32::from_be_bytes([*a, *b, *c, *d]),
        _ => 0,
    }
}

/// Returns a ClientHello's random after its first 4 bytes; empty if there are fewer.
pub fn random_bytes(random: &[u8]) -> &[u8]
    ensures { result.now ≡ bytes_of random.now }
{
    match random {
        [_, _, _, _, bytes @ ..] => bytes,
        _ => &[],
    }
}
