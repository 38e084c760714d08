//! Looking things up in records, hellos and extensions: names, lists, contents.
ghost use Rattle.tls_ext.specs.InPlace.{client_shares, content_of, host_name, key_share_entry, protocol_names};
ghost use Rattle.layouts.specs.Items.{IsReturned};
ghost use Rattle.layouts.specs.Layout.{counted};
ghost use Rattle.layouts.specs.Reading.{reading};
ghost use Rattle.tls_hs.specs.Certificate.{certificate};
ghost use Rattle.tls_hs.specs.Hello.{client_hello};
ghost use Rattle.tls_records.specs.InPlace.{body_of_type, host_name_of_record, name_in_hello};
ghost use Rattle.wispuddera_c.specs.Found.{AreFound, IsFound, ShowsList, ShowsPart};
ghost use Rattle.wispuddera_c.specs.Place.{ItemsStandAt};
ghost use Rattle.wispuddera_c.specs.Status.{IsAnswered};

use crate::place::{Place, in_c};
use crate::status::{NONE, READ, Refusal};
use layouts::{Counted2, Err, Error, Place as Within};
use tls_base::{TlsExtensionType, TlsHandshakeType};
use tls_hs::RawCertificate;
use tls_places::{
    body_place, content_place, frame_at, host_name_place, host_name_place_of_hello,
    host_name_place_of_record, protocol_names_place,
};

/// The place of what was looked up.
#[repr(C)]
#[derive(Clone, Copy)]
pub struct Found {
    /// How many bytes are missing, if the status is `INCOMPLETE`; else 0.
    pub missing: usize,
    /// Its place.
    pub place: Place,
}

/// Writes the library's result to the struct, and returns its status.
#[inline(always)]
fn write_found(found: Result<Option<Within>, Err<Error<&[u8]>>>, out: &mut Found) -> u32
    requires { IsReturned found }
    ensures part { ShowsPart found.entry result out.new }
    ensures list { ShowsList (counted 1) found.entry result out.new }
{
    out.missing = 0;
    match found {
        Ok(Some(place)) => {
            out.place = in_c(place);
            READ
        }
        Ok(None) => NONE,
        Err(e) => {
            let refusal = Refusal::of(e);
            out.missing = refusal.missing;
            refusal.status
        }
    }
}

/// Finds the host name that the first ClientHello of the record at the front asks for.
#[unsafe(no_mangle)]
pub extern "C" fn wispuddera_find_server_name_in_record(bytes: &[u8], out: &mut Found) -> u32
    ensures { IsFound bytes.now (host_name_of_record bytes.now) result out.new }
{
    write_found(host_name_place_of_record(bytes), out)
}

/// Finds the host name that a ClientHello asks for, in its body.
#[unsafe(no_mangle)]
pub extern "C" fn wispuddera_find_server_name_in_hello(bytes: &[u8], out: &mut Found) -> u32
    ensures { IsFound bytes.now (name_in_hello (reading client_hello bytes.now)) result out.new }
{
    write_found(host_name_place_of_hello(bytes), out)
}

/// Finds the host name in a block of extensions (RFC 6066, section 3).
#[unsafe(no_mangle)]
pub extern "C" fn wispuddera_find_server_name(bytes: &[u8], out: &mut Found) -> u32
    ensures { IsFound bytes.now (host_name bytes.now) result out.new }
{
    write_found(host_name_place(bytes), out)
}

/// Finds the list of protocol names in a block of extensions (RFC 7301, section 3.1).
#[unsafe(no_mangle)]
pub extern "C" fn wispuddera_find_protocols(bytes: &[u8], out: &mut Found) -> u32
    ensures { AreFound (counted 1) bytes.now (protocol_names bytes.now) result out.new }
{
    write_found(protocol_names_place(bytes), out)
}

/// Finds the content of the first extension of this type in a block of extensions (RFC 8446,
/// section 4.2).
#[unsafe(no_mangle)]
pub extern "C" fn wispuddera_find_extension(bytes: &[u8], kind: u16, out: &mut Found) -> u32
    ensures { IsFound bytes.now (content_of kind bytes.now) result out.new }
{
    write_found(content_place(bytes, TlsExtensionType(kind)), out)
}

/// Finds the body of the first handshake message of this type in a fragment (RFC 5246, section
/// 7.4).
#[unsafe(no_mangle)]
pub extern "C" fn wispuddera_find_body(bytes: &[u8], kind: u8, out: &mut Found) -> u32
    ensures { IsFound bytes.now (body_of_type kind bytes.now) result out.new }
{
    write_found(body_place(bytes, TlsHandshakeType(kind)), out)
}

/// Finds the list of key shares in the content of a ClientHello's key_share (RFC 8446, section
/// 4.2.8).
#[tactic(auto, using(layouts::proofs::OneAnswerLemmas::read_allowed, layouts::proofs::PlaceLemmas::ends_here))]
#[unsafe(no_mangle)]
pub extern "C" fn wispuddera_find_key_shares(bytes: &[u8], out: &mut Found) -> u32
    ensures { IsAnswered (λ v _. ItemsStandAt key_share_entry bytes.now out.new.place v)
        (reading client_shares bytes.now) result out.new.missing }
{
    match frame_at::<Counted2>(bytes, bytes) {
        Ok((_, (_, place))) => {
            *out = Found {
                missing: 0,
                place: in_c(place),
            };
            READ
        }
        Err(e) => {
            let refusal = Refusal::of(e);
            out.missing = refusal.missing;
            refusal.status
        }
    }
}

/// Finds the list of certificates in the body of a Certificate up to TLS 1.2 (RFC 5246, section
/// 7.4.2).
#[tactic(auto, using(layouts::proofs::OneAnswerLemmas::read_allowed, layouts::proofs::PlaceLemmas::ends_here), unfolding(tls_hs::specs::Certificate::certificate))]
#[unsafe(no_mangle)]
pub extern "C" fn wispuddera_find_certificates(bytes: &[u8], out: &mut Found) -> u32
    ensures { IsAnswered (λ v _. ItemsStandAt (counted 3) bytes.now out.new.place v)
        (reading certificate bytes.now) result out.new.missing }
{
    match frame_at::<RawCertificate>(bytes, bytes) {
        Ok((_, (_, place))) => {
            *out = Found {
                missing: 0,
                place: in_c(place),
            };
            READ
        }
        Err(e) => {
            let refusal = Refusal::of(e);
            out.missing = refusal.missing;
            refusal.status
        }
    }
}
