//! What happens to a fragment.
ghost use Rattle.std.specs.Prelude.{◌≡◌};
ghost use Rattle.ip_fragments.specs.Waiting.{is_waiting as is_waiting_outcome};

use crate::waiting::ReassembledDatagram;

/// Why a fragment is refused.
#[derive(Clone, Copy, Debug, PartialEq, Eq)]
pub enum FragmentRefusal {
    /// The datagram would exceed 65,535 bytes. In IPv4, and where this fragment would complete it,
    /// the datagram is dropped; in IPv6 only the fragment is.
    TooLong,
    /// In IPv6 it isn't the last fragment, and its length isn't a multiple of 8. Its datagram
    /// doesn't change.
    Uneven,
    /// Its end contradicts other fragments: it is a last fragment that ends elsewhere than another,
    /// or before bytes that arrived, or it goes past the end. The datagram is dropped.
    OtherEnd,
    /// It has no bytes. The datagram is dropped.
    Empty,
    /// Some of its bytes arrived before, and others didn't. The datagram is dropped.
    Overlap,
    /// It completes a datagram whose fragments came partly with and partly without support of ECN
    /// (RFC 3168, section 5.3). The datagram is dropped, as in Linux.
    MixedEcn,
}

/// What happened to a fragment.
#[derive(Debug, PartialEq, Drop)]
pub enum FragmentOutcome {
    /// It completed its datagram.
    Whole(ReassembledDatagram),
    /// Its datagram waits for more fragments.
    Waits,
    /// It was refused.
    Refused(FragmentRefusal),
}

impl FragmentOutcome {
    /// Returns whether the datagram waits for more fragments.
    pub(crate) fn is_waiting(&self) -> bool
        ensures { result ≡ is_waiting_outcome self.now }
    {
        match self {
            FragmentOutcome::Waits => true,
            FragmentOutcome::Whole(_) | FragmentOutcome::Refused(_) => false,
        }
    }
}
