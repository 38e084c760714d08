//! Numbers of lists by index: cipher suites, versions, groups, signature schemes.
ghost use Rattle.tls_ext.specs.Content as content;
ghost use Rattle.tls_ext.specs.InPlace.{best_version as best_version_in, listed_versions, picked};
ghost use Rattle.layouts.specs.Items.{items_in};
ghost use Rattle.layouts.specs.Layout.{number};
ghost use Rattle.layouts.specs.Reading.{reading};
ghost use Rattle.tls_hs.specs.Hello.{client_hello};
ghost use Rattle.tls_records.specs.DtlsHello.{client_hello as dtls_client_hello};
ghost use Rattle.wispuddera_c.specs.Number.{IsAnsweredNumber, IsNumberIn, IsNumberOf, listed_groups, listed_schemes, offered};

use crate::status::{NONE, READ, Refusal};
use layouts::Items;
use tls_base::{NamedGroup, TlsVersion};
use tls_ext::{best_version, signature_algorithms, supported_groups, supported_versions};
use tls_hs::ClientHelloView;
use tls_records::DTLSClientHelloView;

/// A number of a list, and the length of the list.
#[repr(C)]
#[derive(Clone, Copy)]
pub struct Number {
    /// How many bytes are missing, if the status is `INCOMPLETE`; else 0.
    pub missing: usize,
    /// The length of the list.
    pub count: usize,
    /// The number.
    pub value: u16,
}

/// The number at this index of a list.
#[inline(always)]
fn write_number(numbers: Items<u16>, index: usize, out: &mut Number) -> u32
    ensures { IsNumberOf (items_in (number 2) numbers.entry.bytes.now) index result out.new }
{
    out.missing = 0;
    out.count = numbers.len();
    match numbers.get(index) {
        Some(value) => {
            out.value = value;
            READ
        }
        None => NONE,
    }
}

/// Finds the number at this index of a list of 2-byte numbers, such as the cipher suites of a
/// ClientHello.
#[unsafe(no_mangle)]
pub extern "C" fn wispuddera_number_at(bytes: &[u8], index: usize, out: &mut Number) -> u32
    ensures { IsNumberOf (items_in (number 2) bytes.now) index result out.new }
{
    write_number(Items::new(bytes), index, out)
}

/// Finds the cipher suite at this index in the body of a ClientHello (RFC 5246, section 7.4.1.2).
#[unsafe(no_mangle)]
pub extern "C" fn wispuddera_cipher_suite_at(bytes: &[u8], index: usize, out: &mut Number) -> u32
    ensures { IsNumberIn (offered (λ h. h.cipher_suites) (reading client_hello bytes.now)) index
        result out.new }
{
    match ClientHelloView::parse(bytes) {
        Ok((_, hello)) => write_number(Items::new(hello.ciphers.bytes()), index, out),
        Err(e) => {
            let refusal = Refusal::of(e);
            out.missing = refusal.missing;
            refusal.status
        }
    }
}

/// Finds the cipher suite at this index in the body of a DTLS ClientHello (RFC 6347, section
/// 4.2.1).
#[unsafe(no_mangle)]
pub extern "C" fn wispuddera_dtls_cipher_suite_at(
    bytes: &[u8],
    index: usize,
    out: &mut Number,
) -> u32
    ensures { IsNumberIn
        (offered (λ h. h.hello.cipher_suites) (reading dtls_client_hello bytes.now)) index
        result out.new }
{
    match DTLSClientHelloView::parse(bytes) {
        Ok((_, hello)) => write_number(Items::new(hello.ciphers.bytes()), index, out),
        Err(e) => {
            let refusal = Refusal::of(e);
            out.missing = refusal.missing;
            refusal.status
        }
    }
}

/// Finds the version at this index in the content of a supported_versions (RFC 8446, section
/// 4.2.1).
#[unsafe(no_mangle)]
pub extern "C" fn wispuddera_version_at(bytes: &[u8], index: usize, out: &mut Number) -> u32
    ensures { IsNumberIn (picked listed_versions (reading content.supported_versions bytes.now))
        index result out.new }
{
    match supported_versions(bytes) {
        Ok((_, versions)) => write_number(Items::new(versions.bytes()), index, out),
        Err(e) => {
            let refusal = Refusal::of(e);
            out.missing = refusal.missing;
            refusal.status
        }
    }
}

/// Finds the group at this index in the content of a supported_groups (RFC 8446, section 4.2.7).
#[unsafe(no_mangle)]
pub extern "C" fn wispuddera_group_at(bytes: &[u8], index: usize, out: &mut Number) -> u32
    ensures { IsNumberIn (picked listed_groups (reading content.supported_groups bytes.now)) index
        result out.new }
{
    match supported_groups(bytes) {
        Ok((_, groups)) => write_number(Items::new(groups.bytes()), index, out),
        Err(e) => {
            let refusal = Refusal::of(e);
            out.missing = refusal.missing;
            refusal.status
        }
    }
}

/// Finds the signature scheme at this index in the content of a signature_algorithms (RFC 8446,
/// section 4.2.3).
#[unsafe(no_mangle)]
pub extern "C" fn wispuddera_signature_scheme_at(
    bytes: &[u8],
    index: usize,
    out: &mut Number,
) -> u32
    ensures { IsNumberIn (picked listed_schemes (reading content.signature_algorithms bytes.now))
        index result out.new }
{
    match signature_algorithms(bytes) {
        Ok((_, schemes)) => write_number(Items::new(schemes.bytes()), index, out),
        Err(e) => {
            let refusal = Refusal::of(e);
            out.missing = refusal.missing;
            refusal.status
        }
    }
}

/// Finds the best version of a hello with this version field and these extensions (RFC 8446,
/// section 4.2.1).
#[unsafe(no_mangle)]
pub extern "C" fn wispuddera_best_version(bytes: &[u8], version: u16, out: &mut Number) -> u32
    ensures { IsAnsweredNumber (best_version_in version bytes.now) result out.new }
{
    out.missing = 0;
    match best_version(TlsVersion(version), Some(bytes)) {
        Ok(Some(best)) => {
            out.value = best.0;
            READ
        }
        Ok(None) => NONE,
        Err(e) => {
            let refusal = Refusal::of(e);
            out.missing = refusal.missing;
            refusal.status
        }
    }
}
