//! Whether a datagram begins another association.
ghost use Rattle.std.specs.Prelude.{◌≡◌};
ghost use Rattle.std.specs.Option.{option_map};
ghost use Rattle.layouts.specs.Reading.{reading};
ghost use Rattle.dtls_records.specs.DtlsHello.{client_hello};
ghost use Rattle.raw_records.specs.RawDtlsRecord.{view_raw_record};
ghost use Rattle.dtls_stream.specs.Fragments.{view_fragment};
ghost use Rattle.tls_summary.specs.HandshakeSummary.{view_summary};
ghost use Rattle.dtls_analyzer.specs.Datagrams.{first_fragment as first_in};
ghost use Rattle.dtls_analyzer.specs.Another.{first_random as first, has_other_hello as other_hello, has_ended as ended, is_first_hello as is_first, is_other as is_other_than, random_by, random_in};

use crate::datagram_records::is_known;
use crate::datagram_side::first_fragment;
use dtls_records::DTLSClientHelloView;
use dtls_stream::Fragment;
use layouts::InPlace;
use raw_records::{DTLSRawRecord, read_record};
use tls_base::TlsHandshakeType;
use tls_flow::Outcome;
use tls_observer::ends::is_complete;
use tls_summary::HandshakeSummary;

/// Whether this is a whole ClientHello, and the first message of its sender.
fn is_first_hello(fragment: &Fragment<'_>) -> bool
    ensures { result ≡ is_first (view_fragment fragment.now) }
{
    fragment.msg_type.0 == TlsHandshakeType::ClientHello.0
        && fragment.message_seq == 0
        && fragment.fragment_offset == 0
        && fragment.body.len() == fragment.length as usize
}

/// The random of a ClientHello, from its body.
fn random_of(body: &[u8]) -> Option<&[u8]>
    ensures { option_map (λ b. b.now) result ≡ random_in (reading client_hello body.now) }
{
    match DTLSClientHelloView::parse(body) {
        Ok((_, hello)) => Some(hello.random),
        Err(_) => None,
    }
}

/// The random of the ClientHello that a record begins with.
fn random_in_record<'a>(record: &DTLSRawRecord<'a>) -> Option<&'a [u8]>
    ensures { option_map (λ b. b.now) result ≡ random_by (first_in (view_raw_record record.now)) }
{
    match first_fragment(record) {
        Some(fragment) if is_first_hello(&fragment) => random_of(fragment.body),
        _ => None,
    }
}

/// The random of the ClientHello with which a datagram begins an association.
fn first_random(datagram: &[u8]) -> Option<&[u8]>
    ensures { option_map (λ b. b.now) result ≡ first datagram.now }
{
    match read_record(datagram) {
        Ok((_, record)) => {
            if is_known(&record.header) && record.header.epoch == 0 {
                return random_in_record(&record);
            }
            None
        }
        Err(_) => None,
    }
}

/// Whether the handshake ended, with success or by an alert.
pub(crate) fn has_ended(outcome: Outcome) -> bool
    ensures { result ≡ ended outcome }
{
    is_complete(outcome) || matches!(outcome, Outcome::BrokenOff)
}

/// Whether a random differs from that of the association's ClientHello.
fn is_other(handshake: &HandshakeSummary, random: &[u8]) -> bool
    ensures { result ≡ is_other_than (view_summary handshake.now).client random.now }
{
    match &handshake.client {
        Some(hello) => hello.random.as_slice() != random,
        None => true,
    }
}

/// Whether a datagram begins with the ClientHello of another association than this summary's.
pub(crate) fn has_other_hello(handshake: &HandshakeSummary, datagram: &[u8]) -> bool
    ensures { result ≡ other_hello datagram.now (view_summary handshake.now).client }
{
    match first_random(datagram) {
        Some(random) => is_other(handshake, random),
        None => false,
    }
}
