//! Unsupported link types in a capture.
ghost use Rattle.std.specs.Prelude.{◌≡◌, ◌<◌, length, is_some, IfSome};
ghost use Rattle.arrivals.specs.Counts.{is_supported, no_links, row_for, row_of as row_in, with_link_at};

use capture::parse_link;
use layouts::{Err, ErrorKind};
use std::fmt::{self, Display, Formatter};

/// How many of them are counted separately. Packets of further ones count as malformed.
const MOST: usize = 4;

/// Names of unsupported link types (LINKTYPE of tcpdump.org), in the order of their numbers.
static NAMES: [(u16, &str); 34] = [
    (6, "Token Ring"),
    (8, "SLIP"),
    (10, "FDDI"),
    (104, "Cisco HDLC"),
    (105, "IEEE 802.11"),
    (107, "Frame Relay"),
    (119, "IEEE 802.11 with Prism header"),
    (127, "IEEE 802.11 with radiotap header"),
    (138, "IP over IEEE 1394"),
    (143, "DOCSIS"),
    (163, "IEEE 802.11 with AVS header"),
    (166, "PPP with direction"),
    (187, "Bluetooth HCI"),
    (189, "USB"),
    (192, "PPI, mostly IEEE 802.11"),
    (195, "IEEE 802.15.4"),
    (197, "ERF"),
    (201, "Bluetooth HCI"),
    (204, "PPP with direction"),
    (220, "USB"),
    (226, "Solaris ipnet"),
    (227, "CAN bus"),
    (230, "IEEE 802.15.4"),
    (239, "Linux netfilter log"),
    (240, "Hilscher netANALYZER"),
    (242, "IP over InfiniBand"),
    (247, "InfiniBand"),
    (248, "SCTP"),
    (249, "USB"),
    (251, "Bluetooth Low Energy"),
    (253, "Linux netlink"),
    (256, "Bluetooth Low Energy"),
    (258, "Apple pktap"),
    (283, "IEEE 802.15.4"),
];

/// Displays a link type by its number, and its name if it has one here.
#[derive(Drop)]
pub(crate) struct LinkName(pub(crate) u16);

impl Display for LinkName {
    fn fmt<W: fmt::Write>(&self, f: &mut Formatter<W>) -> fmt::Result {
        match NAMES.iter().find(|row| row.0 == self.0) {
            Some(row) => write!(f, "{} ({})", self.0, row.1),
            None => write!(f, "{}", self.0),
        }
    }
}

/// Returns whether packets of this link type are supported.
fn is_read(link_type: u16) -> bool
    ensures { result ≡ is_supported link_type }
{
    match parse_link(&[], link_type) {
        Err(Err::Error(e)) => e.code != ErrorKind::Switch,
        _ => true,
    }
}

/// Unsupported link types with their packet counts.
#[derive(Clone, Copy)]
pub(crate) struct OtherLinks {
    rows: [(u16, u64); MOST],
}

impl OtherLinks {
    /// Returns a table without packets.
    pub(crate) fn new() -> OtherLinks
        ensures { result ≡ no_links }
    {
        OtherLinks {
            rows: [(0, 0); MOST],
        }
    }

    /// Returns the row of a link type, or else the first unused one; `None` if all are used.
    fn row_of(&self, link_type: u16) -> Option<usize>
        ensures is { result ≡ row_in link_type self.now }
        ensures within { IfSome result (λ place. place < length self.now.rows) }
    {
        for place in 0..MOST {
            let (kind, count) = self.rows[place];
            if count == 0 || kind == link_type {
                return Some(place);
            }
        }
        None
    }

    /// Counts a packet of this link type. Returns false if the type is supported, or there is no
    /// room for another one.
    pub(crate) fn add(&mut self, link_type: u16) -> bool
        ensures added { result ≡ is_some (row_for link_type self.old) }
        ensures rows { self.new ≡ with_link_at (row_for link_type self.old) link_type self.old }
    {
        if is_read(link_type) {
            return false;
        }
        match self.row_of(link_type) {
            Some(place) => {
                let (_, count) = self.rows[place];
                self.rows[place] = (link_type, count.saturating_add(1));
                true
            }
            None => false,
        }
    }

    /// Returns each link type with its packet count. A row without packets is unused.
    pub(crate) fn rows(&self) -> [(u16, u64); MOST]
        ensures { result ≡ self.now.rows }
    {
        self.rows
    }
}
