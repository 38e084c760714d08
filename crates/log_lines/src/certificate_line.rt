//! The line of a certificate.
use log_certificates::{
    ReadCertificate, certificate_cell, certificate_of, has_expired, is_not_yet_valid,
};
use log_fields::columns::{CertificateLineField, certificate_fields};
use log_fields::connection::identity_cell;
use log_fields::context::Moment;
use log_fields::names::{fault_name, sender_name};
use log_fields::summary::Summary;
use log_formats::cell::{Cell, Row};
use log_formats::text::{hexadecimal, name_cell, some_mark, some_text};
use log_messages::SentCertificate;
use sha1::Sha1;
use sha2::{Digest, Sha256};
use std::alloc::{AllocError, Global};
use tls_flow::Direction;
use tls_summary::certificate_fault;

/// Returns why a certificate can't be parsed; `None` if it can.
fn fault_cell(bytes: &[u8]) -> Option<Cell<'static>> {
    let fault = certificate_fault(bytes)?;
    Some(name_cell(fault_name(fault)))
}

/// Returns true if a certificate had expired at a time.
fn expired_cell(certificate: &Option<ReadCertificate<'_>>, time: u64) -> Option<Cell<'static>> {
    match certificate {
        Some(certificate) => some_mark(has_expired(certificate, time)),
        None => None,
    }
}

/// Returns true if a certificate wasn't valid yet at a time.
fn not_yet_valid_cell(
    certificate: &Option<ReadCertificate<'_>>,
    time: u64,
) -> Option<Cell<'static>> {
    match certificate {
        Some(certificate) => some_mark(is_not_yet_valid(certificate, time)),
        None => None,
    }
}

/// Returns a field of a certificate that was completed at this moment.
fn certificate_line_cell(
    moment: Moment<'_>,
    sent: &SentCertificate,
    certificate: &Option<ReadCertificate<'_>>,
    field: &CertificateLineField,
) -> Result<Option<Cell<'static>>, AllocError> {
    let alloc = moment.alloc;
    let bytes = sent.bytes.as_slice();
    match field {
        CertificateLineField::Identity(field) => identity_cell(moment, field),
        CertificateLineField::Side => Ok(Some(name_cell(sender_name(sent.direction)))),
        CertificateLineField::Place => Ok(Some(Cell::Number(sent.place))),
        CertificateLineField::Fingerprint => some_text(hexadecimal(
            alloc,
            Sha256::digest(bytes).as_slice(),
        )),
        CertificateLineField::Sha1 => some_text(hexadecimal(alloc, &Sha1::digest(bytes))),
        CertificateLineField::Length => Ok(Some(Cell::Number(bytes.len() as u64))),
        CertificateLineField::Certificate(field) => match certificate {
            Some(certificate) => certificate_cell(alloc, certificate, field),
            None => Ok(None),
        },
        CertificateLineField::Expired => Ok(expired_cell(certificate, moment.time)),
        CertificateLineField::NotYetValid => Ok(not_yet_valid_cell(certificate, moment.time)),
        CertificateLineField::IsServers => Ok(some_mark(
            sent.direction == Direction::FromServer && sent.place == 0,
        )),
        CertificateLineField::IsClients => Ok(some_mark(
            sent.direction == Direction::ToServer && sent.place == 0,
        )),
        CertificateLineField::Fault => Ok(fault_cell(bytes)),
    }
}

/// Returns the line of a certificate that was completed at this moment, with the fields at these
/// places of [`certificate_fields`].
pub fn certificate_row(
    alloc: Global,
    places: &[usize],
    summary: &Summary<'_>,
    time: u64,
    sent: &SentCertificate,
) -> Result<Row<'static>, AllocError> {
    let moment = Moment {
        alloc,
        summary,
        time,
    };
    let certificate = certificate_of(Some(sent.bytes.as_slice()));
    let mut cells = Vec::with_capacity(alloc, places.len())?;
    for place in places {
        if let Some((name, _, field)) = certificate_fields().get(*place) {
            let cell = certificate_line_cell(moment, sent, &certificate, field)?;
            cells.push((*name, cell))?;
        }
    }
    Ok(Row { cells })
}
