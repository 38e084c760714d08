//! Whether a certificate is for a host (RFC 9525, section 6.3).
#![tactic(auto, using(layouts::proofs::OneAnswerLemmas::read_allowed))]

ghost use Rattle.std.specs.Prelude.{◌≡◌, ◌<◌, ◌-◌, ◌||◌, ◌∷◌, [], length, slice_get, IfSome};
ghost use Rattle.layouts.specs.Items.{items_in};
ghost use Rattle.x509.specs.Certificate.{extension, view_certificate};
ghost use Rattle.x509.specs.GeneralName.{general_name};
ghost use Rattle.x509_text.specs.Host.{alt_names as alt_names_of, are_domain_labels as are_domain_labels_of, are_two, covers as covers_of, is_domain_label as is_domain_label_bytes, is_host as is_host_labels, is_hyphen, is_label as is_label_bytes, is_name_byte as is_name_code, is_number as is_number_bytes, is_plain as is_plain_bytes, labels, labels_left, matches_host as matches_host_by, names_host as names_host_by, same_label as same_label_by, same_labels, stands_for as stands_for_label, takes_wildcard as takes_wildcard_label};

use layouts::Items;
use x509::{
    Certificate, Extensions, GeneralName, GeneralNames, first_extension, oid, parse_general_names,
};

/// Whether a byte is allowed in a label: a letter, a digit, `-`, or `_`, which host names contain
/// although they shouldn't.
fn is_name_byte(byte: u8) -> bool
    ensures { result ≡ is_name_code byte }
{
    byte.is_ascii_alphanumeric() || byte == b'-' || byte == b'_'
}

/// Whether a label is one of a host name.
fn is_label(label: &[u8]) -> bool
    ensures { result ≡ is_label_bytes label.now }
{
    if label.is_empty() {
        return false;
    }
    for byte in label {
        if !is_name_byte(*byte) {
            return false;
        }
    }
    true
}

/// Whether a label consists of digits only.
fn is_number(label: &[u8]) -> bool
    ensures { result ≡ is_number_bytes label.now }
{
    for byte in label {
        if !byte.is_ascii_digit() {
            return false;
        }
    }
    true
}

/// The first label of a name, and the rest after its dot.
fn first_label(name: &[u8]) -> (&[u8], Option<&[u8]>)
    ensures split { labels name.now ≡ result.0.now ∷ labels_left result.1 }
    ensures shorter { IfSome result.1 (λ rest. length rest.now < length name.now) }
{
    for (at, byte) in name.iter().enumerate() {
        if *byte == b'.' {
            return (&name[..at], Some(&name[at + 1..]));
        }
    }
    (name, None)
}

/// Whether a name is a DNS host name, and not an address.
fn is_host(name: &[u8]) -> bool
    ensures { result ≡ is_host_labels (labels name.now) }
{
    let mut number = true;
    let mut rest = Some(name);
    while let Some(bytes) = rest {
        let (label, behind) = first_label(bytes);
        if !is_label(label) {
            return false;
        }
        number = is_number(label);
        rest = behind;
    }
    !number
}

/// Whether two labels are equal, ignoring case.
fn same_label(a: &[u8], b: &[u8]) -> bool
    ensures { result ≡ same_label_by a.now b.now }
{
    a.eq_ignore_ascii_case(b)
}

/// Whether two names have equal labels; a missing name has none.
#[tactic(auto, using(crate::proofs::HostLemmas::first_goes_on, crate::proofs::HostLemmas::second_goes_on))]
fn same_name(a: Option<&[u8]>, b: Option<&[u8]>) -> bool
    ensures { result ≡ same_labels (labels_left a.entry) (labels_left b.entry) }
{
    let mut a = a;
    let mut b = b;
    loop {
        match (a, b) {
            (Some(x), Some(y)) => {
                let (label, behind) = first_label(x);
                let (other, others) = first_label(y);
                if !same_label(label, other) {
                    return false;
                }
                a = behind;
                b = others;
            }
            (None, None) => return true,
            _ => return false,
        }
    }
}

/// Whether a label consists of letters, digits and `-`.
fn is_plain(label: &[u8]) -> bool
    ensures { result ≡ is_plain_bytes label.now }
{
    for byte in label {
        if !(byte.is_ascii_alphanumeric() || *byte == b'-') {
            return false;
        }
    }
    true
}

/// Whether a label begins or ends with `-`.
fn has_outer_hyphen(label: &[u8]) -> bool
    ensures { result ≡ (is_hyphen (slice_get label.now 0)
        || is_hyphen (slice_get label.now (length label.now - 1))) }
{
    if label.is_empty() {
        return false;
    }
    label[0] == b'-' || label[label.len() - 1] == b'-'
}

/// Whether a label is one of a domain name (RFC 1034, section 3.5).
fn is_domain_label(label: &[u8]) -> bool
    ensures { result ≡ is_domain_label_bytes label.now }
{
    is_plain(label) && !has_outer_hyphen(label)
}

/// Whether all labels of a name are those of a domain; a missing name has none.
fn are_domain_labels(name: Option<&[u8]>) -> bool
    ensures { result ≡ are_domain_labels_of (labels_left name.entry) }
{
    let mut rest = name;
    while let Some(bytes) = rest {
        let (label, behind) = first_label(bytes);
        if !is_domain_label(label) {
            return false;
        }
        rest = behind;
    }
    true
}

/// Whether a name has two labels or more; a missing name has none.
#[tactic(auto, using(crate::proofs::HostLemmas::two_left))]
fn has_two_labels(name: Option<&[u8]>) -> bool
    ensures { result ≡ are_two (labels_left name.entry) }
{
    match name {
        Some(bytes) => first_label(bytes).1.is_some(),
        None => false,
    }
}

/// Whether a wildcard may match a host's first label, with these labels behind it.
fn takes_wildcard(label: &[u8], behind: Option<&[u8]>) -> bool
    ensures { result ≡ takes_wildcard_label label.now (labels_left behind.entry) }
{
    is_plain(label) && has_two_labels(behind) && are_domain_labels(behind)
}

/// Whether the first label of a dNSName matches a host's; `behind` are the host's other labels.
fn stands_for(first: &[u8], label: &[u8], behind: Option<&[u8]>) -> bool
    ensures { result ≡ stands_for_label first.now label.now (labels_left behind.entry) }
{
    if first == b"*".as_slice() {
        return takes_wildcard(label, behind);
    }
    same_label(first, label)
}

/// Whether a dNSName matches a host.
fn covers(pattern: &[u8], host: &[u8]) -> bool
    ensures { result ≡ covers_of (labels pattern.now) (labels host.now) }
{
    let (first, others) = first_label(pattern);
    let (label, behind) = first_label(host);
    stands_for(first, label, behind) && same_name(others, behind)
}

/// Whether one of the names is a dNSName that matches a host.
fn any_covers(names: Items<GeneralNames>, host: &[u8]) -> bool
    ensures { result ≡ names_host_by (labels host.now)
        (items_in general_name names.entry.bytes.now) }
{
    for name in names {
        if let GeneralName::DnsName(pattern) = name {
            if covers(pattern, host) {
                return true;
            }
        }
    }
    false
}

/// An empty list of names.
fn no_names<'a>() -> Items<'a, GeneralNames>
    ensures { items_in general_name result.bytes.now ≡ [] }
{
    Items::new(&[])
}

/// The names in the first subjectAltName; none if it is missing or doesn't parse.
fn alt_names<'a>(extensions: Items<'a, Extensions>) -> Items<'a, GeneralNames>
    ensures { items_in general_name result.bytes.now ≡ alt_names_of
        (items_in extension extensions.entry.bytes.now) }
{
    let Some(extension) = first_extension(extensions, oid::SUBJECT_ALT_NAME) else {
        return no_names();
    };
    match parse_general_names(extension.extn_value) {
        Ok((_, names)) => names,
        Err(_) => no_names(),
    }
}

/// Whether a certificate is for a host, by the dNSNames in its subjectAltName (RFC 9525, section
/// 6.3). A dNSName matches if its labels are equal to the host's, ignoring case.
///
/// A first label `*` matches any one label of letters, digits and `-`, if two or more such labels
/// follow it, none with `-` at an end: so `*.com` and `*.a_b.example` match no host, as in OpenSSL.
///
/// `false` if the host isn't a DNS name, and so for every address: if a label is empty, as behind a
/// trailing dot (which RFC 6066, section 3, excludes from the server name), or has another byte
/// than letters, digits, `-` and `_`, or if the last label is a number. The subject's commonName is
/// ignored. Nothing is verified.
pub fn matches_host(certificate: &Certificate, host: &[u8]) -> bool
    ensures { result ≡ matches_host_by (view_certificate certificate.now) host.now }
{
    is_host(host) && any_covers(alt_names(certificate.tbs_certificate.extensions), host)
}
