//! The fields of a message's line and of a certificate's.
use crate::fields::Identity;
use log_certificates::CertificateField;
use log_formats::column::{Column, Type};

/// A field of a message's line.
pub enum MessageField {
    Identity(Identity),
    Side,
    Place,
    ContentType,
    Name,
    Message,
}

/// A field of a certificate's line.
pub enum CertificateLineField {
    Identity(Identity),
    Side,
    Place,
    Fingerprint,
    Sha1,
    Length,
    Certificate(CertificateField),
    Expired,
    NotYetValid,
    IsServers,
    IsClients,
    Fault,
}

/// A table of fields. The comment before each row is its text in docs/TLSLOG.md, docs/tlslog.1 and
/// bindings/python; `docs/fields --write` puts it there.
///
/// The text comes first. On lines of their own may follow: the sections of RFCs, behind `RFC: `;
/// Zeek's field, behind `Zeek: `; and when a line doesn't have the field, behind `absent: `. `as
/// above` stands for the text of the row before.
macro_rules! columns {
    ($($(#[doc = $text:literal])+ $name:literal: $kind:ident = $field:expr;)*) => {
        &[$(($name, Type::$kind, $field)),*]
    };
}

/// The fields of a message's line, in their order.
pub static MESSAGE_FIELDS: &[Column<MessageField>] = columns! {
    /// the time of the packet that completed it, as above
    "ts": Time = MessageField::Identity(Identity::Time);
    /// that of the connection
    "uid": Text = MessageField::Identity(Identity::Uid);
    /// the connection, as above
    "id.orig_h": Address = MessageField::Identity(Identity::Originator);
    /// as above
    "id.orig_p": Port = MessageField::Identity(Identity::OriginatorPort);
    /// as above
    "id.resp_h": Address = MessageField::Identity(Identity::Responder);
    /// as above
    "id.resp_p": Port = MessageField::Identity(Identity::ResponderPort);
    /// as above
    "proto": Enum = MessageField::Identity(Identity::Protocol);
    /// the sender: `client`, `server`
    "side": Text = MessageField::Side;
    /// the number of messages of that side before it
    "place": Count = MessageField::Place;
    /// the type of its record: 20 a ChangeCipherSpec, 21 an alert, 22 a handshake message, 24 a
    /// heartbeat
    /// RFC: 8446, 5.1; 6520, 3
    "content_type": Count = MessageField::ContentType;
    /// the name of the handshake message, as `client_hello`; else `change_cipher_spec`, `alert`,
    /// `heartbeat`
    /// RFC: 8446, B.3; 5246, A.4
    /// absent: the handshake type has no name
    "name": Text = MessageField::Name;
    /// its fields, by the names in its RFC
    /// RFC: see below
    "message": Fields = MessageField::Message;
};

/// The fields of a certificate's line, in their order. They have the names in Zeek's x509.log where
/// that has the field.
pub static CERTIFICATE_FIELDS: &[Column<CertificateLineField>] = columns! {
    /// the time of the packet that completed the message
    /// Zeek: `ts`
    "ts": Time = CertificateLineField::Identity(Identity::Time);
    /// that of the connection
    "uid": Text = CertificateLineField::Identity(Identity::Uid);
    /// the connection, as above
    "id.orig_h": Address = CertificateLineField::Identity(Identity::Originator);
    /// as above
    "id.orig_p": Port = CertificateLineField::Identity(Identity::OriginatorPort);
    /// as above
    "id.resp_h": Address = CertificateLineField::Identity(Identity::Responder);
    /// as above
    "id.resp_p": Port = CertificateLineField::Identity(Identity::ResponderPort);
    /// as above
    "proto": Enum = CertificateLineField::Identity(Identity::Protocol);
    /// who sent it: `client`, `server`
    "side": Text = CertificateLineField::Side;
    /// its position in its chain, from 0
    /// RFC: 5246, 7.4.2
    "place": Count = CertificateLineField::Place;
    /// the SHA-256 of its bytes, as in `cert_chain_fps`, and their SHA-1
    /// Zeek: `fingerprint`
    "fingerprint": Text = CertificateLineField::Fingerprint;
    /// as above
    "fingerprint_sha1": Text = CertificateLineField::Sha1;
    /// its length in bytes
    "length": Count = CertificateLineField::Length;
    /// 1, 2, 3
    /// RFC: 5280, 4.1.2.1
    /// Zeek: the same
    /// absent: it isn't read (as for all up to `policies`)
    "certificate.version": Count = CertificateLineField::Certificate(CertificateField::Version);
    /// as `serial`, `subject`, `issuer` above
    /// RFC: 5280, 4.1.2
    /// Zeek: the same
    "certificate.serial": Text = CertificateLineField::Certificate(CertificateField::Serial);
    /// as above
    "certificate.subject": Text = CertificateLineField::Certificate(CertificateField::Subject);
    /// as above
    "certificate.issuer": Text = CertificateLineField::Certificate(CertificateField::Issuer);
    /// seconds since 1970-01-01 00:00 UTC
    /// RFC: 5280, 4.1.2.5
    /// Zeek: the same
    "certificate.not_valid_before": Time =
        CertificateLineField::Certificate(CertificateField::ValidFrom);
    /// as above
    "certificate.not_valid_after": Time =
        CertificateLineField::Certificate(CertificateField::ValidUntil);
    /// as in a connection's line
    "validity_days": Count = CertificateLineField::Certificate(CertificateField::ValidityDays);
    /// as above
    "expired_at_connection": Mark = CertificateLineField::Expired;
    /// as above
    "not_yet_valid": Mark = CertificateLineField::NotYetValid;
    /// as above
    "weak_key": Mark = CertificateLineField::Certificate(CertificateField::WeakKey);
    /// as above
    "weak_signature": Mark = CertificateLineField::Certificate(CertificateField::WeakSignature);
    /// as above
    "certificate.tbs_sig_alg": Text =
        CertificateLineField::Certificate(CertificateField::InnerSignatureAlgorithm);
    /// the algorithms of its key and of its signature, by OpenSSL's long names, or dotted
    /// RFC: 5280, 4.1.1.2
    /// Zeek: the same
    "certificate.key_alg": Text = CertificateLineField::Certificate(CertificateField::KeyAlgorithm);
    /// as above
    "certificate.sig_alg": Text =
        CertificateLineField::Certificate(CertificateField::SignatureAlgorithm);
    /// as `key_type`, `key_length` above
    /// Zeek: the same
    "certificate.key_type": Text = CertificateLineField::Certificate(CertificateField::KeyType);
    /// as above
    "certificate.key_length": Count =
        CertificateLineField::Certificate(CertificateField::KeyLength);
    /// RSA's public exponent, in decimal; from 2^64 on in hexadecimal, behind `0x`
    /// RFC: 8017, A.1.1
    /// Zeek: the same, always decimal
    /// absent: it has another key
    "certificate.exponent": Text = CertificateLineField::Certificate(CertificateField::Exponent);
    /// as `key_curve` above
    /// Zeek: the same
    "certificate.curve": Text = CertificateLineField::Certificate(CertificateField::Curve);
    /// the names of each kind in its subjectAltName, in order
    /// RFC: 5280, 4.2.1.6
    /// Zeek: the same
    /// absent: there are none
    "san.dns": Texts = CertificateLineField::Certificate(CertificateField::DnsNames);
    /// as above
    "san.uri": Texts = CertificateLineField::Certificate(CertificateField::Uris);
    /// as above
    "san.email": Texts = CertificateLineField::Certificate(CertificateField::Emails);
    /// as above
    "san.ip": Addresses = CertificateLineField::Certificate(CertificateField::Addresses);
    /// those of other kinds there
    /// absent: there are none
    "san.other": Texts = CertificateLineField::Certificate(CertificateField::OtherNames);
    /// userPrincipalNames, directoryNames
    /// absent: none
    "san.upn": Texts = CertificateLineField::Certificate(CertificateField::UserNames);
    /// as above
    "san.directory": Texts = CertificateLineField::Certificate(CertificateField::DirectoryNames);
    /// whether it may sign others
    /// RFC: 5280, 4.2.1.9
    /// Zeek: the same
    /// absent: it has no such extension
    "basic_constraints.ca": Mark = CertificateLineField::Certificate(CertificateField::MayBeCa);
    /// how many certificates may stand between it and the last one
    /// Zeek: the same
    /// absent: no limit
    "basic_constraints.path_len": Count =
        CertificateLineField::Certificate(CertificateField::PathLength);
    /// what its key may be used for, by the names of bits and purposes; empty if none is named
    /// RFC: 5280, 4.2.1.3, 4.2.1.12
    /// absent: it has no such extension
    "key_usage": Texts = CertificateLineField::Certificate(CertificateField::KeyUsage);
    /// as above
    "ext_key_usage": Texts = CertificateLineField::Certificate(CertificateField::Purposes);
    /// as `cert_scts`, .. in a connection's line
    /// RFC: 6962, 3.3
    /// absent: none
    "scts": Count = CertificateLineField::Certificate(CertificateField::Timestamps);
    /// as above
    "sct_logs": Texts = CertificateLineField::Certificate(CertificateField::TimestampLogs);
    /// as above
    "sct_times": Counts = CertificateLineField::Certificate(CertificateField::TimestampTimes);
    /// whether its subject is its issuer, byte for byte
    /// RFC: 5280, 3.2
    "self_issued": Mark = CertificateLineField::Certificate(CertificateField::SelfIssued);
    /// OCSP responders, issuer's certificates, policies
    /// RFC: 5280, 4.2.2.1, 4.2.1.4
    /// absent: none
    "aia.ocsp": Texts = CertificateLineField::Certificate(CertificateField::OcspResponders);
    /// as above
    "aia.ca_issuers": Texts = CertificateLineField::Certificate(CertificateField::CaIssuers);
    /// as above
    "policies": Texts = CertificateLineField::Certificate(CertificateField::Policies);
    /// `true`: it is the server's own, the client's own
    /// Zeek: the same
    /// absent: it is another
    "host_cert": Mark = CertificateLineField::IsServers;
    /// as above
    "client_cert": Mark = CertificateLineField::IsClients;
    /// which rule it breaks, as in `cert_error`
    /// RFC: 5280, 4.1
    /// absent: none
    "error": Text = CertificateLineField::Fault;
    /// as `cert_unread_fields`
    /// absent: all is read
    "unread_fields": Texts = CertificateLineField::Certificate(CertificateField::UnreadFields);
};

/// Returns [`MESSAGE_FIELDS`]. Call it instead of naming the table: the proof of a function that
/// names it reads all of its rows.
pub fn message_fields() -> &'static [Column<MessageField>] {
    MESSAGE_FIELDS
}

/// Returns [`CERTIFICATE_FIELDS`]. Call it instead of naming the table: the proof of a function
/// that names it reads all of its rows.
pub fn certificate_fields() -> &'static [Column<CertificateLineField>] {
    CERTIFICATE_FIELDS
}
