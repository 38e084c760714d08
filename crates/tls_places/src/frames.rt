//! The last part of each kind of item: the content of an extension, the body of a message, a name,
//! a certificate.

use crate::frame::ContentItem;
use layouts::{Counted1, Counted2};
use tls_base::SNIType;
use tls_ext::{KeyShareEntry, OidFilter, RawExtension, ServerName};
use tls_hs::{RawCertificate, RawHandshake};

/// A name of an application protocol, without its length.
impl<'a> ContentItem<'a> for Counted1 {
    ghost content = { λ x. x.now };

    #[tactic(auto, using(crate::proofs::LastLemmas::counted_is_last))]
    #[inline(always)]
    fn content(read: &&'a [u8]) -> &'a [u8] {
        *read
    }
}

/// The bytes after a length of 2 bytes.
impl<'a> ContentItem<'a> for Counted2 {
    ghost content = { λ x. x.now };

    #[tactic(auto, using(crate::proofs::LastLemmas::counted_is_last))]
    #[inline(always)]
    fn content(read: &&'a [u8]) -> &'a [u8] {
        *read
    }
}

/// The content of an extension.
impl<'a> ContentItem<'a> for RawExtension<'a> {
    ghost content = { λ e. e.content.now };

    #[tactic(auto, using(crate::proofs::LastLemmas::frame_is_last))]
    #[inline(always)]
    fn content(read: &Self) -> &'a [u8] {
        read.content
    }
}

/// The body of a handshake message.
impl<'a> ContentItem<'a> for RawHandshake<'a> {
    ghost content = { λ m. m.body.now };

    #[tactic(auto, using(crate::proofs::LastLemmas::frame_is_last))]
    #[inline(always)]
    fn content(read: &Self) -> &'a [u8] {
        read.body
    }
}

/// The public value of a key share.
impl<'a> ContentItem<'a> for KeyShareEntry<'a> {
    ghost content = { λ s. s.kx.now };

    #[tactic(auto, using(crate::proofs::LastLemmas::frame_is_last))]
    #[inline(always)]
    fn content(read: &Self) -> &'a [u8] {
        read.kx
    }
}

/// A certificate, without its length.
impl<'a> ContentItem<'a> for RawCertificate<'a> {
    ghost content = { λ c. c.bytes.now };

    #[tactic(auto, using(crate::proofs::LastLemmas::counted_is_last))]
    #[inline(always)]
    fn content(read: &Self) -> &'a [u8] {
        read.bytes
    }
}

/// The host name, without its type and its length.
impl<'a> ContentItem<'a> for ServerName {
    ghost content = { λ n. n.1.now };

    #[tactic(auto, using(crate::proofs::LastLemmas::server_name_is_last))]
    #[inline(always)]
    fn content(read: &(SNIType, &'a [u8])) -> &'a [u8] {
        read.1
    }
}

/// The values of a filter, after its OID.
impl<'a> ContentItem<'a> for OidFilter<'a> {
    ghost content = { λ f. f.cert_ext_val.now };

    #[tactic(auto, using(crate::proofs::LastLemmas::oid_filter_is_last))]
    #[inline(always)]
    fn content(read: &Self) -> &'a [u8] {
        read.cert_ext_val
    }
}
