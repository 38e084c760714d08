//! LDAP's StartTLS (RFC 4511, section 4.14).
ghost use Rattle.std.specs.Prelude.{◌≡◌};
ghost use Rattle.preambles.specs.Ldap.{behind_length as rest_of, content_next as behind_content, has_name as is_named, is_starttls as asks_for_tls, is_success as accepts, ldap_frame as frame_of_ldap, ldap_next as ldap, ldap_reads as ldap_side, length_next as behind_first_length, long_length as length_in, of_length as with_length, operation as operation_in, tag_of as tag};

use crate::phase::{Frame, LdapPhase, Outcome, Phase, Protocol, Role, Side};
use crate::words::begins;

/// The side that a phase of LDAP reads.
#[tactic(auto, unfolding(crate::specs::Ldap::ldap_reads))]
pub(crate) fn ldap_reads(role: Role) -> Side
    ensures { result ≡ ldap_side role }
{
    match role {
        Role::Request => Side::Client,
        Role::Answer(_) => Side::Server,
    }
}

/// How far a phase of LDAP reads.
#[tactic(auto, unfolding(crate::specs::Ldap::ldap_frame))]
pub(crate) fn ldap_frame(phase: LdapPhase) -> Frame
    ensures { result ≡ frame_of_ldap phase }
{
    match phase {
        LdapPhase::Tag | LdapPhase::Length => Frame::Count(1),
        LdapPhase::LongLength(count) => Frame::Count(u32::from(count)),
        LdapPhase::Content(length) => Frame::Count(length),
    }
}

/// The phase behind a message's length.
#[tactic(auto, unfolding(crate::specs::Ldap::of_length))]
fn of_length(role: Role, length: u32) -> Phase
    ensures { result ≡ with_length role length }
{
    if length == 0 {
        Phase::Over(Outcome::Unknown)
    } else {
        Phase::Ldap(role, LdapPhase::Content(length))
    }
}

/// The phase behind the first byte of a message's length.
#[tactic(auto, unfolding(crate::specs::Ldap::length_next))]
fn length_next(role: Role, front: &[u8]) -> Phase
    ensures { result ≡ behind_first_length role front.now }
{
    match front {
        [length, ..] if *length < 128 => of_length(role, u32::from(*length)),
        [count, ..] if *count > 128 && *count <= 132 => {
            Phase::Ldap(role, LdapPhase::LongLength(*count - 128))
        }
        _ => Phase::Over(Outcome::Unknown),
    }
}

/// A length of 1 to 4 bytes.
#[tactic(auto, unfolding(crate::specs::Ldap::long_length))]
fn long_length(front: &[u8]) -> u32
    ensures { result ≡ length_in front.now }
{
    match front {
        [a] => u32::from(*a),
        [a, b] => u32::from(*a) * 256 + u32::from(*b),
        [a, b, c] => u32::from(*a) * 65_536 + u32::from(*b) * 256 + u32::from(*c),
        [a, b, c, d] => {
            u32::from(*a) * 16_777_216
                + u32::from(*b) * 65_536
                + u32::from(*c) * 256
                + u32::from(*d)
        }
        _ => 0,
    }
}

/// A message's operation, behind its number.
#[tactic(auto, unfolding(crate::specs::Ldap::operation))]
fn operation(front: &[u8]) -> &[u8]
    ensures { result.now ≡ operation_in front.now }
{
    match front {
        [2, length, rest @ ..] if *length as usize <= rest.len() => &rest[*length as usize..],
        _ => &[],
    }
}

/// The content of an element, from its length on.
#[tactic(auto, unfolding(crate::specs::Ldap::behind_length))]
fn behind_length(bytes: &[u8]) -> &[u8]
    ensures { result.now ≡ rest_of bytes.now }
{
    match bytes {
        [length, rest @ ..] => {
            if *length < 128 {
                return rest;
            }
            let count = (*length - 128) as usize;
            if count <= rest.len() {
                &rest[count..]
            } else {
                &[]
            }
        }
        [] => &[],
    }
}

/// The tag of an operation; 0 if there is none.
#[tactic(auto, unfolding(crate::specs::Ldap::tag_of))]
fn tag_of(bytes: &[u8]) -> u8
    ensures { result ≡ tag bytes.now }
{
    match bytes {
        [tag, ..] => *tag,
        [] => 0,
    }
}

/// Whether an operation asks for StartTLS: an extended request of that name.
#[tactic(auto, unfolding(crate::specs::Ldap::is_starttls))]
fn is_starttls(operation: &[u8]) -> bool
    ensures { result ≡ asks_for_tls operation.now }
{
    match operation {
        [0x77, rest @ ..] => has_name(behind_length(rest)),
        _ => false,
    }
}

/// Whether the content of an extended request begins with StartTLS's name.
#[tactic(auto, unfolding(crate::specs::Ldap::has_name))]
fn has_name(content: &[u8]) -> bool
    ensures { result ≡ is_named content.now }
{
    match content {
        [0x80, rest @ ..] => begins(behind_length(rest), b"1.3.6.1.4.1.1466.20037"),
        _ => false,
    }
}

/// Whether an operation is an extended response with success.
#[tactic(auto, unfolding(crate::specs::Ldap::is_success))]
fn is_success(operation: &[u8]) -> bool
    ensures { result ≡ accepts operation.now }
{
    match operation {
        [0x78, rest @ ..] => begins(behind_length(rest), b"\x0a\x01\x00"),
        _ => false,
    }
}

/// The phase behind a message.
#[tactic(auto, unfolding(crate::specs::Ldap::content_next))]
fn content_next(role: Role, front: &[u8]) -> Phase
    ensures { result ≡ behind_content role front.now }
{
    let operation = operation(front);
    let tag = tag_of(operation);
    match role {
        Role::Request => {
            if tag == 0x42 || tag == 0x50 {
                Phase::Ldap(Role::Request, LdapPhase::Tag)
            } else {
                Phase::Ldap(Role::Answer(is_starttls(operation)), LdapPhase::Tag)
            }
        }
        Role::Answer(asked) => {
            if tag == 0x64 || tag == 0x73 || tag == 0x79 {
                Phase::Ldap(Role::Answer(asked), LdapPhase::Tag)
            } else if asked && is_success(operation) {
                Phase::Over(Outcome::Tls(Protocol::Ldap))
            } else {
                Phase::Ldap(Role::Request, LdapPhase::Tag)
            }
        }
    }
}

/// What follows a phase of LDAP.
#[tactic(auto, unfolding(crate::specs::Ldap::ldap_next))]
pub(crate) fn ldap_next(role: Role, phase: LdapPhase, front: &[u8]) -> Phase
    ensures { result ≡ ldap role phase front.now }
{
    match phase {
        LdapPhase::Tag => {
            if tag_of(front) == 0x30 {
                Phase::Ldap(role, LdapPhase::Length)
            } else {
                Phase::Over(Outcome::Unknown)
            }
        }
        LdapPhase::Length => length_next(role, front),
        LdapPhase::LongLength(_) => of_length(role, long_length(front)),
        LdapPhase::Content(_) => content_next(role, front),
    }
}
