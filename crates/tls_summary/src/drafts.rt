//! Versions that stand for drafts of TLS 1.3.
ghost use Rattle.std.specs.Prelude.{◌≡◌};
ghost use Rattle.tls_summary.specs.Drafts.{draft_of as draft_by};

use tls_base::TlsVersion;

/// A draft of TLS 1.3, by who numbered its version.
#[derive(Clone, Copy, Debug, PartialEq, Eq)]
pub enum Draft {
    /// The draft of draft-ietf-tls-tls13 with this number; 28 is the last one.
    Ietf(u8),
    /// Facebook's form of the draft with this number.
    Facebook(u8),
    /// BoringSSL's experiment with this number.
    BoringSsl(u8),
}

/// The draft of TLS 1.3 that a version in supported_versions stands for (RFC 8446, section 4.2.1);
/// `None` for a version of an RFC, and for a number that isn't known.
pub fn draft_of(version: TlsVersion) -> Option<Draft>
    ensures { result ≡ draft_by version.0 }
{
    let number = version.0;
    if number >= 0x7f00 && number <= 0x7fff {
        return Some(Draft::Ietf((number - 0x7f00) as u8));
    }
    match number {
        0xfb17 => Some(Draft::Facebook(23)),
        0xfb1a => Some(Draft::Facebook(26)),
        0x7e01 => Some(Draft::BoringSsl(1)),
        0x7e02 => Some(Draft::BoringSsl(2)),
        0x7e03 => Some(Draft::BoringSsl(3)),
        _ => None,
    }
}
