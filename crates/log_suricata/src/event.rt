//! Events of type `tls` of Suricata's eve.json (docs.suricata.io, "EVE JSON Format", event type
//! TLS).
use base64::engine::general_purpose::STANDARD;
use connection_ids::flow_id;
use connections::{Protocol, Side};
use layouts::Items;
use log_certificates::CertificateField;
use log_fields::connection::{cell_of, identity_cell, microseconds};
use log_fields::context::{FieldContext, Moment, OwnCertificate};
use log_fields::fields::{Field, Fingerprint, Identity, Negotiation, Offer};
use log_fields::joined_lists::joined_list_cell;
use log_fields::summary::Summary;
use log_fields::timestamps::timestamp_cell;
use log_formats::cell::{Cell, PrintCell, Row};
use log_formats::lists::Texts;
use log_formats::objects::{LINE_LEN, json_bytes};
use log_formats::text::{
    Text, add_text, hexadecimal, name_cell, name_or_number, some_mark, some_text,
};
use log_formats::versions::suricata_version;
use serde::{Described, Serialize, Serializer};
use sha1::Sha1;
use std::alloc::{AllocError, Global};
use tls_hs::RawCertificate;
use tls_summary::HandshakeSummary;

/// The time zone of timestamps: UTC.
const ZONE: &str = "+0000";

/// A field of a side's own certificate.
#[derive(Clone, Copy)]
enum OwnField {
    Subject,
    Issuer,
    Serial,
    Fingerprint,
    NotBefore,
    NotAfter,
}

/// The value of a field of the object `tls` or `client`, by its source.
enum Value {
    /// A field of the connection's line.
    Field(Field),
    /// A field of a side's own certificate.
    OwnField(Side, OwnField),
    /// A side's own certificate, whole.
    Certificate(Side),
    /// All certificates that a side sent.
    Chain(Side),
    AlternativeNames,
    Version,
    Resumed,
    Ja3,
    Ja3s,
    NextProtocol,
}

/// The name of the field that has a side's own certificate.
const CERTIFICATE: &str = "certificate";

/// The name of the field that has all certificates of a side.
const CHAIN: &str = "chain";

/// The fields of the object `tls` before the object `client`, in order.
static TLS: &[(&str, Value)] = &[
    (
        "subject",
        Value::OwnField(Side::Responder, OwnField::Subject),
    ),
    (
        "issuerdn",
        Value::OwnField(Side::Responder, OwnField::Issuer),
    ),
    ("subjectaltname", Value::AlternativeNames),
    ("session_resumed", Value::Resumed),
    ("serial", Value::OwnField(Side::Responder, OwnField::Serial)),
    (
        "fingerprint",
        Value::OwnField(Side::Responder, OwnField::Fingerprint),
    ),
    (
        "sni",
        Value::Field(Field::Negotiation(Negotiation::ServerName)),
    ),
    ("version", Value::Version),
    (
        "notbefore",
        Value::OwnField(Side::Responder, OwnField::NotBefore),
    ),
    (
        "notafter",
        Value::OwnField(Side::Responder, OwnField::NotAfter),
    ),
    (CERTIFICATE, Value::Certificate(Side::Responder)),
    (CHAIN, Value::Chain(Side::Responder)),
    ("ja3", Value::Ja3),
    ("ja3s", Value::Ja3s),
    ("ja4", Value::Field(Field::Fingerprint(Fingerprint::Ja4))),
];

/// The fields of the object `tls` after the object `client`, in order.
static PROTOCOLS: &[(&str, Value)] = &[
    ("client_alpns", Value::Field(Field::Offer(Offer::Protocols))),
    ("server_alpns", Value::NextProtocol),
];

/// The fields of the object `client`, in order: those of the client's certificates.
static CLIENT: &[(&str, Value)] = &[
    (
        "subject",
        Value::OwnField(Side::Originator, OwnField::Subject),
    ),
    (
        "issuerdn",
        Value::OwnField(Side::Originator, OwnField::Issuer),
    ),
    (
        "fingerprint",
        Value::OwnField(Side::Originator, OwnField::Fingerprint),
    ),
    (
        "serial",
        Value::OwnField(Side::Originator, OwnField::Serial),
    ),
    (
        "notbefore",
        Value::OwnField(Side::Originator, OwnField::NotBefore),
    ),
    (
        "notafter",
        Value::OwnField(Side::Originator, OwnField::NotAfter),
    ),
    (CERTIFICATE, Value::Certificate(Side::Originator)),
    (CHAIN, Value::Chain(Side::Originator)),
];

/// An event: the fields that any event has, and the object `tls`. That contains the object
/// `client`, if the client sent a certificate.
#[derive(Drop)]
struct Event<'a> {
    common: Row<'static>,
    tls: Row<'a>,
    client: Option<Row<'a>>,
    protocols: Row<'a>,
}

impl Described for Event<'_> {}

impl Serialize for Event<'_> {
    fn serialize<S: Serializer>(&self, out: &mut S) -> Result<(), S::Error> {
        out.begin_map(None)?;
        self.common.serialize_fields(out)?;
        out.key("tls")?;
        out.begin_map(None)?;
        self.tls.serialize_fields(out)?;
        if let Some(client) = &self.client {
            out.key("client")?;
            client.serialize(out)?;
        }
        self.protocols.serialize_fields(out)?;
        out.end_map()?;
        out.end_map()
    }
}

fn version_cell<'a>(handshake: &HandshakeSummary) -> Option<Cell<'a>> {
    let version = handshake.version()?;
    let text = name_or_number(suricata_version(version), version.0);
    Some(Cell::Text(text))
}

/// Puts `:` between each two hexadecimal digits.
fn with_colons(alloc: Global, digits: &str) -> Result<String, AllocError> {
    let mut text = String::new(alloc);
    for (place, digit) in digits.as_bytes().iter().enumerate() {
        if place != 0 && place % 2 == 0 {
            text.push(':')?;
        }
        text.push(char::from(*digit))?;
    }
    Ok(text)
}

/// Returns the places of the separators in a name: of each `,` and `+` that isn't escaped.
fn separator_places(alloc: Global, text: &[u8]) -> Result<Vec<usize>, AllocError> {
    let mut places = Vec::new(alloc);
    let mut is_escaped = false;
    for (place, byte) in text.iter().enumerate() {
        if !is_escaped && matches!(*byte, b',' | b'+') {
            places.push(place)?;
        }
        is_escaped = !is_escaped && *byte == b'\\';
    }
    Ok(places)
}

/// Appends ASCII, if there is any.
fn add_ascii(text: &mut String, bytes: Option<&[u8]>) -> Result<(), AllocError> {
    for byte in bytes.unwrap_or(&[]) {
        text.push(char::from(*byte))?;
    }
    Ok(())
}

/// Reverses a name: RFC 4514 writes the last set of attributes first, Suricata the first.
fn forward_name(alloc: Global, text: &[u8]) -> Result<String, AllocError> {
    let mut forward = String::new(alloc);
    let places = separator_places(alloc, text)?;
    let mut end = text.len();
    for place in places.as_slice().iter().rev() {
        add_ascii(&mut forward, text.get(place.saturating_add(1)..end))?;
        let sign = if text.get(*place) == Some(&b'+') {
            " + "
        } else {
            ", "
        };
        forward.push_str(sign)?;
        end = *place;
    }
    add_ascii(&mut forward, text.get(..end))?;
    Ok(forward)
}

/// Returns the log's field for a side's certificate.
fn field_of(side: Side, field: CertificateField) -> Field {
    match side {
        Side::Originator => Field::ClientCertificate(field),
        Side::Responder => Field::ServerCertificate(field),
    }
}

/// Returns the DER of a side's own certificate, if it sent one.
fn own_bytes<'a>(handshake: &'a HandshakeSummary, side: Side) -> Option<&'a [u8]> {
    match side {
        Side::Originator => handshake.client_certificate.as_deref(),
        Side::Responder => handshake.server_certificate.as_deref(),
    }
}

/// Writes a name of a side's certificate.
fn name_cell_of<'a>(
    alloc: Global,
    context: &mut FieldContext<'_>,
    side: Side,
    field: CertificateField,
) -> Result<Option<Cell<'a>>, AllocError> {
    match cell_of(context, &field_of(side, field))? {
        Some(Cell::Text(Text::Owned(name))) => some_text(forward_name(alloc, name.as_bytes())),
        _ => Ok(None),
    }
}

/// The fields that make up `subjectaltname`: the server's DNS names, then its addresses.
static NAMES: [Field; 2] = [
    Field::ServerCertificate(CertificateField::DnsNames),
    Field::ServerCertificate(CertificateField::Addresses),
];

/// Writes the bytes of a certificate's serial number.
fn serial_cell<'a>(
    alloc: Global,
    own: &mut OwnCertificate<'_>,
) -> Result<Option<Cell<'a>>, AllocError> {
    let Some(certificate) = own.certificate() else {
        return Ok(None);
    };
    match certificate.serial_number() {
        Some(number) => {
            let digits = hex::encode_upper(alloc, number)?;
            some_text(with_colons(alloc, digits.as_str()))
        }
        None => Ok(None),
    }
}

/// Writes the SHA-1 of a certificate.
fn fingerprint_cell<'a>(
    alloc: Global,
    bytes: Option<&[u8]>,
) -> Result<Option<Cell<'a>>, AllocError> {
    match bytes {
        Some(bytes) => {
            let digits = hexadecimal(alloc, &Sha1::digest(bytes))?;
            some_text(with_colons(alloc, digits.as_str()))
        }
        None => Ok(None),
    }
}

/// Writes a time of a side's certificate, without its time zone, which is UTC.
fn date_cell<'a>(
    context: &mut FieldContext<'_>,
    side: Side,
    field: CertificateField,
) -> Result<Option<Cell<'a>>, AllocError> {
    match cell_of(context, &field_of(side, field))? {
        Some(Cell::Text(Text::Owned(mut text))) => {
            text.pop();
            Ok(Some(Cell::Text(Text::Owned(text))))
        }
        _ => Ok(None),
    }
}

/// Writes a certificate in base64 (RFC 4648, section 4); `None` if none was sent, or memory is
/// refused.
fn certificate_cell<'a>(alloc: Global, bytes: Option<&[u8]>) -> Option<Cell<'a>> {
    match STANDARD.encode(alloc, bytes?) {
        Ok(text) => Some(Cell::Text(Text::Owned(text))),
        Err(_) => None,
    }
}

/// Returns each certificate of a list in base64. In the list each follows its length of 3 bytes.
fn chain_texts(alloc: Global, list: &[u8]) -> Result<Vec<String>, AllocError> {
    let walk: Items<RawCertificate> = Items::new(list);
    let mut all = Vec::new(alloc);
    for certificate in walk {
        all.push(STANDARD.encode(alloc, certificate.bytes)?)?;
    }
    Ok(all)
}

/// Writes a chain in base64; `None` if none is kept, or memory is refused.
fn chain_cell<'a>(alloc: Global, list: &[u8]) -> Option<Cell<'a>> {
    match chain_texts(alloc, list) {
        Ok(texts) if !texts.is_empty() => Some(Cell::Texts(Texts::Owned(texts))),
        _ => None,
    }
}

/// Returns the certificates that a side sent, each after its length of 3 bytes.
fn chain_bytes<'a>(summary: &Summary<'a>, side: Side) -> &'a [u8] {
    match side {
        Side::Originator => summary.client_chain,
        Side::Responder => summary.server_chain,
    }
}

/// Writes a field of a side's own certificate.
fn own_cell<'a>(
    alloc: Global,
    context: &mut FieldContext<'_>,
    side: Side,
    field: OwnField,
) -> Result<Option<Cell<'a>>, AllocError> {
    match field {
        OwnField::Subject => name_cell_of(alloc, context, side, CertificateField::Subject),
        OwnField::Issuer => name_cell_of(alloc, context, side, CertificateField::Issuer),
        OwnField::Serial => match side {
            Side::Originator => serial_cell(alloc, &mut context.client),
            Side::Responder => serial_cell(alloc, &mut context.server),
        },
        OwnField::Fingerprint => fingerprint_cell(alloc, own_bytes(context.handshake, side)),
        OwnField::NotBefore => date_cell(context, side, CertificateField::NotBefore),
        OwnField::NotAfter => date_cell(context, side, CertificateField::NotAfter),
    }
}

/// Writes a fingerprint and the text that it is the digest of.
fn ja3_cell<'a>(
    alloc: Global,
    context: &mut FieldContext<'_>,
    hash: Fingerprint,
    string: Fingerprint,
) -> Result<Option<Cell<'a>>, AllocError> {
    let hash = cell_of(context, &Field::Fingerprint(hash))?;
    let string = cell_of(context, &Field::Fingerprint(string))?;
    match (hash, string) {
        (Some(Cell::Text(Text::Owned(hash))), Some(Cell::Text(Text::Owned(string)))) => {
            let fingerprint = Box::new(alloc, PrintCell { hash, string })?;
            Ok(Some(Cell::Print(fingerprint)))
        }
        _ => Ok(None),
    }
}

/// Writes the protocol that the server chose, as a list of one.
fn next_protocol_cell<'a>(
    alloc: Global,
    handshake: &HandshakeSummary,
) -> Result<Option<Cell<'a>>, AllocError> {
    let Some(protocol) = handshake.next_protocol() else {
        return Ok(None);
    };
    let mut all = Vec::new(alloc);
    add_text(&mut all, Text::Escaped(protocol).to_string(alloc))?;
    Ok(Some(Cell::Texts(Texts::Owned(all))))
}

/// Writes a field of the object `tls` or `client`.
fn value_cell<'a>(
    alloc: Global,
    context: &mut FieldContext<'a>,
    value: &Value,
) -> Result<Option<Cell<'a>>, AllocError> {
    let summary = context.summary;
    match value {
        Value::Field(field) => cell_of(context, field),
        Value::OwnField(side, field) => own_cell(alloc, context, *side, *field),
        Value::Certificate(side) => {
            Ok(certificate_cell(alloc, own_bytes(summary.handshake, *side)))
        }
        Value::Chain(side) => Ok(chain_cell(alloc, chain_bytes(summary, *side))),
        Value::AlternativeNames => joined_list_cell(context, &NAMES),
        Value::Version => Ok(version_cell(summary.handshake)),
        Value::Resumed => Ok(some_mark(summary.is_resumed)),
        Value::Ja3 => ja3_cell(alloc, context, Fingerprint::Ja3, Fingerprint::Ja3Text),
        Value::Ja3s => ja3_cell(alloc, context, Fingerprint::Ja3s, Fingerprint::Ja3sText),
        Value::NextProtocol => next_protocol_cell(alloc, summary.handshake),
    }
}

fn proto_name(protocol: Protocol) -> &'static str {
    match protocol {
        Protocol::Tcp => "TCP",
        Protocol::Udp => "UDP",
    }
}

/// Returns `flow_id`, which joins the events of a connection.
fn flow_number(summary: &Summary<'_>) -> u64 {
    flow_id(
        summary.protocol,
        summary.originator.end,
        summary.responder.end,
        microseconds(summary.first_time),
    )
}

/// Writes the fields that any event has.
fn common_row(alloc: Global, summary: &Summary<'_>) -> Result<Row<'static>, AllocError> {
    let time = summary.first_time;
    let moment = Moment {
        alloc,
        summary,
        time,
    };
    let mut cells = Vec::with_capacity(alloc, 9)?;
    cells.push(("timestamp", timestamp_cell(alloc, time, ZONE)?))?;
    cells.push(("flow_id", Some(Cell::Number(flow_number(summary)))))?;
    cells.push(("event_type", Some(name_cell("tls"))))?;
    for (name, field) in ADDRESSES {
        cells.push((*name, identity_cell(moment, field)?))?;
    }
    cells.push(("proto", Some(name_cell(proto_name(summary.protocol)))))?;
    let community_id = identity_cell(moment, &Identity::CommunityId)?;
    cells.push(("community_id", community_id))?;
    Ok(Row { cells })
}

/// The fields of a connection's addresses and ports.
static ADDRESSES: &[(&str, Identity)] = &[
    ("src_ip", Identity::Originator),
    ("src_port", Identity::OriginatorPort),
    ("dest_ip", Identity::Responder),
    ("dest_port", Identity::ResponderPort),
];

/// Writes these fields of the object `tls` or `client`.
fn tls_row<'a>(
    alloc: Global,
    context: &mut FieldContext<'a>,
    fields: &'static [(&'static str, Value)],
) -> Result<Row<'a>, AllocError> {
    let mut cells = Vec::with_capacity(alloc, fields.len())?;
    for (name, value) in fields {
        cells.push((*name, value_cell(alloc, context, value)?))?;
    }
    Ok(Row { cells })
}

/// Writes the object `client`, if the client sent a certificate.
fn client_row<'a>(
    alloc: Global,
    context: &mut FieldContext<'a>,
) -> Result<Option<Row<'a>>, AllocError> {
    if own_bytes(context.handshake, Side::Originator).is_none() {
        return Ok(None);
    }
    Ok(Some(tls_row(alloc, context, CLIENT)?))
}

/// Removes whole certificates from a row.
fn leave_out_certificates(row: &mut Row<'_>) {
    for (name, cell) in &mut row.cells {
        if *name == CERTIFICATE || *name == CHAIN {
            *cell = None;
        }
    }
}

/// Writes an event as JSON. If memory is refused for the certificates in it, they are left out.
fn event_bytes(alloc: Global, event: &mut Event<'_>) -> Result<Vec<u8>, AllocError> {
    if let Ok(line) = json_bytes(alloc, &*event, LINE_LEN) {
        return Ok(line);
    }
    leave_out_certificates(&mut event.tls);
    if let Some(client) = &mut event.client {
        leave_out_certificates(client);
    }
    json_bytes(alloc, &*event, LINE_LEN)
}

/// Returns the event of a connection, without a line break.
pub fn line(context: FieldContext<'_>) -> Result<Vec<u8>, AllocError> {
    let (alloc, summary) = (context.alloc, context.summary);
    let mut context = context;
    let mut event = Event {
        common: common_row(alloc, summary)?,
        tls: tls_row(alloc, &mut context, TLS)?,
        client: client_row(alloc, &mut context)?,
        protocols: tls_row(alloc, &mut context, PROTOCOLS)?,
    };
    event_bytes(alloc, &mut event)
}
