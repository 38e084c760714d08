//! Fingerprints as characters, without allocation: each text is hashed while it is produced.
ghost use Rattle.std.specs.Prelude.{◌≡◌, ◌≤◌, ◌<◌, ◌+◌, ◌-◌, ◌++◌, ◌∷◌, ◌==◌, ◌&&◌, not, [], List, ℕ, length, take, slice_get, IfSome, IfNone};
ghost use Rattle.std.specs.List.{join_with_byte};
ghost use Rattle.std.specs.Option.{option_map};
ghost use Rattle.hex.specs.Hex.{encode_lower};
ghost use Rattle.md5.specs.Md5.{Holds, md5};
ghost use Rattle.sha2.specs.Hashers.{Holds256};
ghost use Rattle.layouts.specs.Text.{held};
ghost use Rattle.tls_base.specs.ExtensionNumbers.{server_name};
ghost use Rattle.tls_ext.specs.InPlace.{best_version as best_version_in, protocol_names};
ghost use Rattle.tls_fingerprints.specs.Numbers.{hex_list, rising, without_grease};
ghost use Rattle.tls_ext.specs.Offered.{content_in, known};
ghost use Rattle.tls_fingerprints.specs.Hellos.{types_in, view_client, view_server};
ghost use Rattle.tls_fingerprints.specs.Ja3.{ja3_of, ja3s_of};
ghost use Rattle.tls_fingerprints.specs.Ja4.{IsPart, IsTooLong, ends_text, ja4_front_with, ja4_of, ja4_suites_of, ja4_types_of, name_letter as name_letter_of, protocol_text, short_digest as short_digest_of, two_digits as two_digits_of};

use crate::feeding::{
    feed_algorithms, feed_dashed, feed_decimal, feed_hex_list, feed_kept, feed_types,
};
use crate::hellos::{ClientHelloParts, ServerHelloParts, Transport};
use crate::ja4::version_text;
use crate::numbers::hex_digit;
use crate::room::{kept_in, other_types_in};
use layouts::Items;
use md5::{Digest as Md5Digest, Md5};
use sha2::{Digest as Sha2Digest, Sha256};
use tls_base::{TlsExtensionType, TlsVersion};
use tls_ext::offered::{algorithms, content, formats, groups};
use tls_ext::{application_protocols, best_version, extension_types};

/// The most cipher suites, and the most extensions, that JA4 accepts. A hello has no more, since
/// their block has at most 65,535 bytes.
pub const MOST: usize = 32767;

/// The hexadecimal digits of a text's MD5.
fn digits_of(text: Md5) -> [u8; 32]
    ensures { (m : List ℕ) → Holds text m → result ≡ encode_lower (md5 m) }
{
    let digest = text.finalize();
    let mut digits = [0; 32];
    let _written = hex::encode_to_slice(&digest, &mut digits);
    digits
}

/// The hexadecimal digits of the first 6 bytes of a text's SHA-256; zeros for an empty text.
fn short_digits_of(text: Sha256, is_empty: bool) -> [u8; 12]
    ensures { (m : List ℕ) → Holds256 text m → is_empty ≡ (length m == 0)
        → result ≡ short_digest_of m }
{
    if is_empty {
        return *b"000000000000";
    }
    let digest = text.finalize();
    let mut digits = [0; 12];
    let _written = hex::encode_to_slice(&digest[..6], &mut digits);
    digits
}

/// Hashes the numbers in rising order, in the form of [`feed_hex_list`].
fn feed_rising(text: &mut Sha256, numbers: &mut [u16])
    ensures { (m : List ℕ) → Holds256 text.old m
        → Holds256 text.new (m ++ hex_list (rising numbers.old)) }
{
    numbers.sort_unstable();
    feed_hex_list(text, numbers);
}

/// Whether there are neither extension types nor algorithms.
fn is_nothing(types: usize, any_algorithms: bool) -> bool
    ensures { result ≡ (types == 0 && not any_algorithms) }
{
    types == 0 && !any_algorithms
}

/// Writes a piece of text at offset `at`, and returns the offset after it.
fn put(text: &mut [u8], at: usize, piece: &[u8]) -> usize
    requires { at + length piece.now ≤ length text.old }
    ensures end { result ≡ at + length piece.now }
    ensures stands { take result text.new ≡ take at text.old ++ piece.now }
    ensures room { length text.new ≡ length text.old }
{
    let end = at + piece.len();
    text[at..end].copy_from_slice(piece);
    end
}

/// A count in two decimal digits, at most 99.
fn two_digits(count: usize) -> [u8; 2]
    ensures { result ≡ two_digits_of count }
{
    let shown = count.min(99) as u8;
    [b'0' + shown / 10, b'0' + shown % 10]
}

/// Two characters for the first and the last byte of a name.
fn ends(name: &[u8]) -> [u8; 2]
    ensures { result ≡ ends_text (slice_get name.now 0) (slice_get name.now (length name.now - 1)) }
{
    let (Some(first), Some(last)) = (name.first(), name.last()) else {
        return *b"00";
    };
    if first.is_ascii_alphanumeric() && last.is_ascii_alphanumeric() {
        [*first, *last]
    } else {
        [hex_digit(*first / 16) as u8, hex_digit(*last % 16) as u8]
    }
}

/// `d` if the client names a host, else `i`.
fn name_letter(ext: Option<&[u8]>) -> [u8; 1]
    ensures { result ≡ name_letter_of
        (content_in server_name (held (option_map (λ x. x.now) ext.entry))) }
{
    match content(ext, TlsExtensionType::ServerName) {
        Some(_) => *b"d",
        None => *b"i",
    }
}

/// The two characters of the client's first application protocol.
fn protocol(ext: Option<&[u8]>) -> [u8; 2]
    ensures { result ≡ protocol_text
        (known (protocol_names (held (option_map (λ x. x.now) ext.entry)))) }
{
    let Ok(Some(mut names)) = application_protocols(ext) else {
        return *b"00";
    };
    match names.next() {
        Some(name) => ends(name),
        None => *b"00",
    }
}

/// The three parts of JA4, joined.
fn joined(front: &[u8; 10], suites: &[u8; 12], types: &[u8; 12]) -> [u8; 36]
    ensures { result ≡ join_with_byte 95 (front.now ∷ suites.now ∷ types.now ∷ []) }
{
    let mut text = [b'_'; 36];
    let at = put(&mut text, 0, front);
    let at = put(&mut text, at, b"_");
    let at = put(&mut text, at, suites);
    let at = put(&mut text, at, b"_");
    let _end = put(&mut text, at, types);
    text
}

impl ClientHelloParts<'_> {
    /// The 32 digits of JA3, as [`ClientHelloParts::ja3`] returns them, without allocation.
    pub fn ja3_digits(&self) -> [u8; 32]
        ensures { result ≡ ja3_of (view_client self.now) }
    {
        let mut text = Md5::new();
        feed_decimal(&mut text, self.version.0);
        text.update(b",");
        feed_kept(&mut text, Items::new(self.ciphers.bytes()));
        text.update(b",");
        feed_types(&mut text, extension_types(self.ext));
        text.update(b",");
        feed_kept(&mut text, Items::new(groups(self.ext).bytes()));
        text.update(b",");
        feed_dashed(&mut text, formats(self.ext));
        digits_of(text)
    }

    /// The latest version that the client offers, from its extensions if these have one.
    fn latest_version(&self) -> Option<TlsVersion>
        ensures { option_map (λ v. v.0) result ≡ known
            (best_version_in (view_client self.now).version (view_client self.now).extensions) }
    {
        match best_version(self.version, self.ext) {
            Ok(version) => version,
            Err(_) => None,
        }
    }

    /// The first part of JA4, with these counts of suites and extension types.
    pub(crate) fn front(&self, transport: Transport, suites: usize, types: usize) -> [u8; 10]
        ensures { result ≡ ja4_front_with transport (view_client self.now) suites types }
    {
        let letter = transport.letter();
        let version = version_text(self.latest_version());
        let name = name_letter(self.ext);
        let suites = two_digits(suites);
        let types = two_digits(types);
        let protocol = protocol(self.ext);
        let mut text = [0; 10];
        let at = put(&mut text, 0, letter.as_bytes());
        let at = put(&mut text, at, version.as_bytes());
        let at = put(&mut text, at, &name);
        let at = put(&mut text, at, &suites);
        let at = put(&mut text, at, &types);
        let _end = put(&mut text, at, &protocol);
        text
    }

    /// The count of suites without GREASE, and the second part of JA4. `None` if `room` is too
    /// small for the suites.
    fn suites_part(&self, room: &mut [u16]) -> Option<(usize, [u8; 12])>
        ensures size { length room.new ≡ length room.old }
        ensures some { IfSome result
            (λ p. IsPart p.0 p.1 (without_grease (view_client self.now).suites)
            (ja4_suites_of (view_client self.now))) }
        ensures none { IfNone result
            (length room.old < length (without_grease (view_client self.now).suites)) }
    {
        let count = kept_in(Items::new(self.ciphers.bytes()), room)?;
        let mut text = Sha256::new();
        feed_rising(&mut text, &mut room[..count]);
        let is_empty = count == 0;
        Some((count, short_digits_of(text, is_empty)))
    }

    /// The count of extension types without GREASE, and the third part of JA4. `None` if `room` is
    /// too small for the types.
    fn types_part(&self, room: &mut [u16]) -> Option<(usize, [u8; 12])>
        ensures some { IfSome result
            (λ p. IsPart p.0 p.1 (without_grease (types_in (view_client self.now).extensions))
            (ja4_types_of (view_client self.now))) }
        ensures none { IfNone result
            (length room.old
            < length (without_grease (types_in (view_client self.now).extensions))) }
    {
        let types = other_types_in(extension_types(self.ext), room)?;
        let mut text = Sha256::new();
        feed_rising(&mut text, &mut room[..types.others]);
        let any = feed_algorithms(&mut text, algorithms(self.ext));
        let is_empty = is_nothing(types.others, any);
        Some((types.all, short_digits_of(text, is_empty)))
    }

    /// The 36 characters of JA4, as [`ClientHelloParts::ja4`] returns them. It uses 64 KiB of the
    /// stack and doesn't allocate.
    ///
    /// `None` if there are more than [`MOST`] cipher suites or extensions.
    pub fn ja4_characters(&self, transport: Transport) -> Option<[u8; 36]>
        ensures some { IfSome result (λ text. text ≡ ja4_of transport (view_client self.now)) }
        ensures none { IfNone result (IsTooLong MOST (view_client self.now)) }
    {
        let mut room = [0; MOST];
        let (suite_count, suites) = self.suites_part(&mut room)?;
        let (type_count, types) = self.types_part(&mut room)?;
        let front = self.front(transport, suite_count, type_count);
        Some(joined(&front, &suites, &types))
    }
}

impl ServerHelloParts<'_> {
    /// The 32 digits of JA3S, as [`ServerHelloParts::ja3s`] returns them, without allocation.
    pub fn ja3s_digits(&self) -> [u8; 32]
        ensures { result ≡ ja3s_of (view_server self.now) }
    {
        let mut text = Md5::new();
        feed_decimal(&mut text, self.version.0);
        text.update(b",");
        feed_decimal(&mut text, self.cipher.0);
        text.update(b",");
        feed_types(&mut text, extension_types(self.ext));
        digits_of(text)
    }
}
