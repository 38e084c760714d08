//! Connections as events of the Elastic Common Schema (elastic.co/docs/reference/ecs), as Filebeat
//! sends them.
use crate::nested::{Nested, Path};
use connections::{Protocol, Side};
use log_certificates::CertificateField;
use log_fields::connection::cell_of;
use log_fields::context::FieldContext;
use log_fields::fields::{
    Chain, Field, Fingerprint, Identity, Lifecycle, Negotiation, Offer, SideTraffic,
};
use log_fields::joined_lists::joined_list_cell;
use log_fields::summary::Summary;
use log_fields::timestamps::timestamp_cell;
use log_formats::cell::{Cell, Row};
use log_formats::lists::{Texts, some_texts};
use log_formats::objects::{LINE_LEN, json_bytes};
use log_formats::text::{name_cell, name_or_number, some_name, some_text};
use log_formats::versions::ecs_version;
use sha1::Sha1;
use std::alloc::{AllocError, Global};
use std::net::IpAddr;
use tls_flow::Outcome;

/// The schema version of the names.
const SCHEMA: &str = "8.11.0";

/// The time zone of times: UTC.
const ZONE: &str = "Z";

/// The value of a name, by its source.
#[derive(Clone, Copy)]
enum Value {
    /// A field of the connection's line.
    Field(Field),
    /// A field of the certificate.
    Certificate(CertificateField),
    /// A hexadecimal field of the certificate, in upper case.
    Uppercase(CertificateField),
    /// A field of the certificate, as a number.
    Number(CertificateField),
    /// The names in the certificate's subjectAltName.
    AlternativeNames,
    /// The certificate's SHA-1.
    Sha1,
    /// The certificate's SHA-256.
    Sha256,
    /// A text that is the same in each event.
    Constant(&'static str),
    /// A list of texts that is the same in each event.
    Constants(&'static [&'static str]),
    Start,
    End,
    Duration,
    Success,
    NetworkType,
    NetworkProtocol,
    /// The sum of a count of both sides.
    Sum(SideTraffic),
    Version,
    VersionProtocol,
}

/// Whose certificate a row describes.
#[derive(Clone, Copy)]
enum Owner {
    Nobody,
    Client,
    Server,
}

/// The names in an object, each with its value.
type Rows = &'static [(&'static str, Value)];

const EVENT: Rows = &[
    ("kind", Value::Constant("event")),
    ("category", Value::Constants(&["network"])),
    ("type", Value::Constants(&["connection", "protocol"])),
    ("dataset", Value::Constant("tlslog.connection")),
    ("id", Value::Field(Field::Identity(Identity::Uid))),
    ("outcome", Value::Success),
    ("start", Value::Start),
    ("end", Value::End),
    ("duration", Value::Duration),
];

const SOURCE: Rows = &[
    ("ip", Value::Field(Field::Identity(Identity::Originator))),
    (
        "port",
        Value::Field(Field::Identity(Identity::OriginatorPort)),
    ),
    (
        "bytes",
        Value::Field(Field::SideTraffic(Side::Originator, SideTraffic::Bytes)),
    ),
    (
        "packets",
        Value::Field(Field::SideTraffic(Side::Originator, SideTraffic::Packets)),
    ),
];

const DESTINATION: Rows = &[
    ("ip", Value::Field(Field::Identity(Identity::Responder))),
    (
        "port",
        Value::Field(Field::Identity(Identity::ResponderPort)),
    ),
    (
        "bytes",
        Value::Field(Field::SideTraffic(Side::Responder, SideTraffic::Bytes)),
    ),
    (
        "packets",
        Value::Field(Field::SideTraffic(Side::Responder, SideTraffic::Packets)),
    ),
];

const NETWORK: Rows = &[
    (
        "transport",
        Value::Field(Field::Identity(Identity::Protocol)),
    ),
    ("type", Value::NetworkType),
    ("protocol", Value::NetworkProtocol),
    (
        "community_id",
        Value::Field(Field::Identity(Identity::CommunityId)),
    ),
    ("bytes", Value::Sum(SideTraffic::Bytes)),
    ("packets", Value::Sum(SideTraffic::Packets)),
];

const TLS: Rows = &[
    ("version", Value::Version),
    ("version_protocol", Value::VersionProtocol),
    (
        "cipher",
        Value::Field(Field::Negotiation(Negotiation::Cipher)),
    ),
    (
        "curve",
        Value::Field(Field::Negotiation(Negotiation::Curve)),
    ),
    (
        "established",
        Value::Field(Field::Lifecycle(Lifecycle::Established)),
    ),
    (
        "resumed",
        Value::Field(Field::Lifecycle(Lifecycle::Resumed)),
    ),
    (
        "next_protocol",
        Value::Field(Field::Negotiation(Negotiation::NextProtocol)),
    ),
];

const CLIENT: Rows = &[
    (
        "server_name",
        Value::Field(Field::Negotiation(Negotiation::ServerName)),
    ),
    ("ja3", Value::Field(Field::Fingerprint(Fingerprint::Ja3))),
    (
        "supported_ciphers",
        Value::Field(Field::Offer(Offer::Ciphers)),
    ),
    ("subject", Value::Certificate(CertificateField::Subject)),
    ("issuer", Value::Certificate(CertificateField::Issuer)),
    (
        "not_before",
        Value::Certificate(CertificateField::NotBefore),
    ),
    ("not_after", Value::Certificate(CertificateField::NotAfter)),
];

const SERVER: Rows = &[
    ("ja3s", Value::Field(Field::Fingerprint(Fingerprint::Ja3s))),
    ("subject", Value::Certificate(CertificateField::Subject)),
    ("issuer", Value::Certificate(CertificateField::Issuer)),
    (
        "not_before",
        Value::Certificate(CertificateField::NotBefore),
    ),
    ("not_after", Value::Certificate(CertificateField::NotAfter)),
];

const HASH: Rows = &[("sha1", Value::Sha1), ("sha256", Value::Sha256)];

const X509: Rows = &[
    (
        "version_number",
        Value::Certificate(CertificateField::Version),
    ),
    ("serial_number", Value::Uppercase(CertificateField::Serial)),
    (
        "not_before",
        Value::Certificate(CertificateField::NotBefore),
    ),
    ("not_after", Value::Certificate(CertificateField::NotAfter)),
    ("alternative_names", Value::AlternativeNames),
    (
        "public_key_algorithm",
        Value::Certificate(CertificateField::KeyAlgorithm),
    ),
    (
        "public_key_size",
        Value::Certificate(CertificateField::KeyLength),
    ),
    (
        "public_key_exponent",
        Value::Number(CertificateField::Exponent),
    ),
    (
        "public_key_curve",
        Value::Certificate(CertificateField::Curve),
    ),
    (
        "signature_algorithm",
        Value::Certificate(CertificateField::SignatureAlgorithm),
    ),
];

const SUBJECT: Rows = &[(
    "distinguished_name",
    Value::Certificate(CertificateField::Subject),
)];

const ISSUER: Rows = &[(
    "distinguished_name",
    Value::Certificate(CertificateField::Issuer),
)];

/// Fields for which the schema has no names.
const OWN: Rows = &[
    ("ja4", Value::Field(Field::Fingerprint(Fingerprint::Ja4))),
    (
        "outcome",
        Value::Field(Field::Lifecycle(Lifecycle::Outcome)),
    ),
    (
        "last_alert",
        Value::Field(Field::Negotiation(Negotiation::LastAlert)),
    ),
    ("gap", Value::Field(Field::Lifecycle(Lifecycle::Gap))),
];

/// The objects of an event, in their order.
static OBJECTS: &[(Path, Owner, Rows)] = &[
    (&[], Owner::Nobody, &[("@timestamp", Value::Start)]),
    (
        &["ecs"],
        Owner::Nobody,
        &[("version", Value::Constant(SCHEMA))],
    ),
    (&["event"], Owner::Nobody, EVENT),
    (&["source"], Owner::Nobody, SOURCE),
    (&["destination"], Owner::Nobody, DESTINATION),
    (&["network"], Owner::Nobody, NETWORK),
    (&["tls"], Owner::Nobody, TLS),
    (&["tls", "client"], Owner::Client, CLIENT),
    (&["tls", "client", "hash"], Owner::Client, HASH),
    (&["tls", "client", "x509"], Owner::Client, X509),
    (
        &["tls", "client", "x509", "subject"],
        Owner::Client,
        SUBJECT,
    ),
    (&["tls", "client", "x509", "issuer"], Owner::Client, ISSUER),
    (&["tls", "server"], Owner::Server, SERVER),
    (&["tls", "server", "hash"], Owner::Server, HASH),
    (&["tls", "server", "x509"], Owner::Server, X509),
    (
        &["tls", "server", "x509", "subject"],
        Owner::Server,
        SUBJECT,
    ),
    (&["tls", "server", "x509", "issuer"], Owner::Server, ISSUER),
    (&["tlslog"], Owner::Nobody, OWN),
];

/// Returns a field of the owner's certificate.
fn certificate_cell<'a>(
    context: &mut FieldContext<'a>,
    owner: Owner,
    field: CertificateField,
) -> Result<Option<Cell<'a>>, AllocError> {
    match owner {
        Owner::Nobody => Ok(None),
        Owner::Client => cell_of(context, &Field::ClientCertificate(field)),
        Owner::Server => cell_of(context, &Field::ServerCertificate(field)),
    }
}

/// Returns a hexadecimal field of the owner's certificate, in upper case.
fn uppercase_cell<'a>(
    context: &mut FieldContext<'_>,
    owner: Owner,
    field: CertificateField,
) -> Result<Option<Cell<'a>>, AllocError> {
    let alloc = context.alloc;
    match certificate_cell(context, owner, field)? {
        Some(Cell::Text(text)) => {
            some_text(text.to_string(alloc)?.as_str().to_ascii_uppercase(alloc))
        }
        _ => Ok(None),
    }
}

/// Returns a field of the owner's certificate as a number, if its text is one.
fn number_cell<'a>(
    context: &mut FieldContext<'_>,
    owner: Owner,
    field: CertificateField,
) -> Result<Option<Cell<'a>>, AllocError> {
    let alloc = context.alloc;
    let Some(Cell::Text(text)) = certificate_cell(context, owner, field)? else {
        return Ok(None);
    };
    match text.to_string(alloc)?.as_str().parse::<u64>() {
        Ok(number) => Ok(Some(Cell::Number(number))),
        Err(_) => Ok(None),
    }
}

/// The names in the client's certificate, by kind.
static CLIENT_NAMES: [Field; 4] = [
    Field::ClientCertificate(CertificateField::DnsNames),
    Field::ClientCertificate(CertificateField::Addresses),
    Field::ClientCertificate(CertificateField::Emails),
    Field::ClientCertificate(CertificateField::Uris),
];

/// The names in the server's certificate, by kind.
static SERVER_NAMES: [Field; 4] = [
    Field::ServerCertificate(CertificateField::DnsNames),
    Field::ServerCertificate(CertificateField::Addresses),
    Field::ServerCertificate(CertificateField::Emails),
    Field::ServerCertificate(CertificateField::Uris),
];

/// Returns the names in the owner's certificate.
fn alternative_names_cell<'a>(
    context: &mut FieldContext<'_>,
    owner: Owner,
) -> Result<Option<Cell<'a>>, AllocError> {
    match owner {
        Owner::Nobody => Ok(None),
        Owner::Client => joined_list_cell(context, &CLIENT_NAMES),
        Owner::Server => joined_list_cell(context, &SERVER_NAMES),
    }
}

/// Returns the SHA-1 of the owner's certificate, in upper case.
fn sha1_cell<'a>(context: &FieldContext<'_>, owner: Owner) -> Result<Option<Cell<'a>>, AllocError> {
    let own = match owner {
        Owner::Nobody => None,
        Owner::Client => context.handshake.client_certificate.as_deref(),
        Owner::Server => context.handshake.server_certificate.as_deref(),
    };
    match own {
        Some(bytes) => some_text(hex::encode_upper(context.alloc, &Sha1::digest(bytes))),
        None => Ok(None),
    }
}

/// Returns the SHA-256 of the owner's certificate, in upper case.
fn sha256_cell<'a>(
    context: &mut FieldContext<'_>,
    owner: Owner,
) -> Result<Option<Cell<'a>>, AllocError> {
    let alloc = context.alloc;
    let fingerprints = match owner {
        Owner::Nobody => return Ok(None),
        Owner::Client => Chain::ClientFingerprints,
        Owner::Server => Chain::ServerFingerprints,
    };
    let Some(Cell::Texts(Texts::Digests(chain))) = cell_of(context, &Field::Chain(fingerprints))?
    else {
        return Ok(None);
    };
    match chain.first() {
        Some(own) => some_text(hex::encode_upper(alloc, own.as_slice())),
        None => Ok(None),
    }
}

/// Returns a list of constant texts.
fn constants_cell<'a>(alloc: Global, texts: &[&str]) -> Result<Option<Cell<'a>>, AllocError> {
    let mut all = Vec::new(alloc);
    for text in texts {
        all.push(String::from_str(alloc, text)?)?;
    }
    Ok(some_texts(Texts::Owned(all)))
}

/// Returns the event's outcome: success for a complete handshake, failure for one that was broken
/// off.
fn outcome_name(summary: &Summary<'_>) -> &'static str {
    match summary.outcome {
        Outcome::Full | Outcome::Resumed | Outcome::Tls13 { .. } => "success",
        Outcome::BrokenOff => "failure",
        Outcome::Waiting | Outcome::Unknown | Outcome::NoHandshake => "unknown",
    }
}

fn network_type(summary: &Summary<'_>) -> &'static str {
    match summary.originator.end.address {
        IpAddr::V4(_) => "ipv4",
        IpAddr::V6(_) => "ipv6",
    }
}

fn network_protocol(protocol: Protocol) -> &'static str {
    match protocol {
        Protocol::Tcp => "tls",
        Protocol::Udp => "dtls",
    }
}

/// Returns a count of one side.
fn count_of(
    context: &mut FieldContext<'_>,
    side: Side,
    count: SideTraffic,
) -> Result<u64, AllocError> {
    match cell_of(context, &Field::SideTraffic(side, count))? {
        Some(Cell::Number(count)) => Ok(count),
        _ => Ok(0),
    }
}

/// Returns the sum of a count of both sides.
fn sum_cell<'a>(
    context: &mut FieldContext<'_>,
    count: SideTraffic,
) -> Result<Option<Cell<'a>>, AllocError> {
    let from_originator = count_of(context, Side::Originator, count)?;
    let from_responder = count_of(context, Side::Responder, count)?;
    Ok(Some(Cell::Number(from_originator.saturating_add(from_responder))))
}

/// Returns the version without the protocol's name, or its number.
fn version_cell<'a>(context: &FieldContext<'_>) -> Option<Cell<'a>> {
    let version = context.handshake.version()?;
    let name = ecs_version(version).map(|(_protocol, name)| name);
    Some(Cell::Text(name_or_number(name, version.0)))
}

/// Returns the protocol's name without the version.
fn version_protocol_cell<'a>(context: &FieldContext<'_>) -> Option<Cell<'a>> {
    let version = context.handshake.version()?;
    some_name(ecs_version(version).map(|(protocol, _name)| protocol))
}

/// Returns a value of the connection itself.
fn summary_cell<'a>(
    alloc: Global,
    summary: &Summary<'_>,
    value: Value,
) -> Result<Option<Cell<'a>>, AllocError> {
    match value {
        Value::Start => timestamp_cell(alloc, summary.first_time, ZONE),
        Value::End => timestamp_cell(alloc, summary.last_time, ZONE),
        Value::Duration => Ok(Some(Cell::Number(
            summary.last_time.saturating_sub(summary.first_time),
        ))),
        Value::Success => Ok(Some(name_cell(outcome_name(summary)))),
        Value::NetworkType => Ok(Some(name_cell(network_type(summary)))),
        Value::NetworkProtocol => Ok(Some(name_cell(network_protocol(summary.protocol)))),
        Value::Constant(text) => Ok(Some(name_cell(text))),
        Value::Constants(texts) => constants_cell(alloc, texts),
        _ => Ok(None),
    }
}

/// Returns a name's value, for a connection and the owner's certificate.
fn value_cell<'a>(
    context: &mut FieldContext<'a>,
    owner: Owner,
    value: Value,
) -> Result<Option<Cell<'a>>, AllocError> {
    match value {
        Value::Field(field) => cell_of(context, &field),
        Value::Certificate(field) => certificate_cell(context, owner, field),
        Value::Uppercase(field) => uppercase_cell(context, owner, field),
        Value::Number(field) => number_cell(context, owner, field),
        Value::AlternativeNames => alternative_names_cell(context, owner),
        Value::Sha1 => sha1_cell(context, owner),
        Value::Sha256 => sha256_cell(context, owner),
        Value::Sum(count) => sum_cell(context, count),
        Value::Version => Ok(version_cell(context)),
        Value::VersionProtocol => Ok(version_protocol_cell(context)),
        Value::Start
        | Value::End
        | Value::Duration
        | Value::Success
        | Value::NetworkType
        | Value::NetworkProtocol
        | Value::Constant(_)
        | Value::Constants(_) => summary_cell(context.alloc, context.summary, value),
    }
}

/// Returns the values of an object's names.
fn object_row<'a>(
    context: &mut FieldContext<'a>,
    owner: Owner,
    rows: Rows,
) -> Result<Row<'a>, AllocError> {
    let mut cells = Vec::with_capacity(context.alloc, rows.len())?;
    for (name, value) in rows {
        cells.push((*name, value_cell(context, owner, *value)?))?;
    }
    Ok(Row { cells })
}

/// Returns the event of a connection, without a line break.
pub fn line(context: FieldContext<'_>) -> Result<Vec<u8>, AllocError> {
    let alloc = context.alloc;
    let mut context = context;
    let mut rows = Vec::with_capacity(alloc, OBJECTS.len())?;
    for (path, owner, names) in OBJECTS {
        rows.push((*path, object_row(&mut context, *owner, names)?))?;
    }
    json_bytes(alloc, &Nested { rows }, LINE_LEN)
}
