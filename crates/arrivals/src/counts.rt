//! Counts of what was read and found, and of what was left out.
ghost use Rattle.std.specs.Prelude.{◌≡◌, ◌∷◌, [], map};
ghost use Rattle.arrivals.specs.Counts.{nothing_counted, one_more, unexplained as unexplained_in, with_refusal, with_unread_packet};

use crate::links::{LinkName, OtherLinks};
use ip_fragments::FragmentRefusal;
use std::fmt::{self, Display, Formatter};
use std::io;

/// Counts of what was read and found in a capture, and of what was left out, by reason.
#[derive(Drop)]
pub struct Counts {
    /// All packets.
    pub packets: u64,
    /// TLS connections.
    pub tls: u64,
    /// DTLS connections.
    pub dtls: u64,
    /// Connections of both kinds whose handshake was ended by a fatal alert.
    pub broken_off: u64,
    /// Connections that ended before their handshake did.
    pub waiting: u64,
    /// Connections with a message that can't be parsed.
    pub unknown: u64,
    /// Connections whose messages are no handshake.
    pub no_handshake: u64,
    /// Packets that were truncated, or have a malformed header.
    pub unread: u64,
    /// Packets of unsupported link types.
    pub(crate) other_links: OtherLinks,
    /// Packets of unsupported protocols.
    pub other_protocols: u64,
    /// Packets that their receiver drops for a wrong checksum.
    pub damaged: u64,
    /// Packets of connections in another part than the logged one.
    pub other_parts: u64,
    /// Fragments of datagrams that would exceed 65,535 bytes.
    pub too_long: u64,
    /// Fragments other than the last whose length isn't a multiple of 8, in IPv6.
    pub uneven: u64,
    /// Fragments whose end contradicts that of others, or that go past their datagram's end.
    pub other_end: u64,
    /// Datagrams that were dropped for a fragment without bytes.
    pub empty: u64,
    /// Datagrams that were dropped for fragments that overlap.
    pub overlapping: u64,
    /// Datagrams that were dropped for fragments with and without support of ECN.
    pub mixed_ecn: u64,
    /// Datagrams that were dropped with fragments missing for 30 seconds, in IPv6 60.
    pub late: u64,
    /// Datagrams that were dropped with fragments missing, since there was no more room.
    pub evicted: u64,
    /// Datagrams with fragments missing at the end of the capture.
    pub cut_short: u64,
    /// Packets in more nested tunnels than are followed.
    pub in_too_many_tunnels: u64,
    /// TCP segments with data that belong to no open connection.
    pub stray_segments: u64,
    /// Connections that are neither TLS nor DTLS.
    pub other_connections: u64,
    /// TLS connections with missing bytes, on one side or both.
    pub gaps: u64,
    /// Connections that were ended early, when memory ran short.
    pub ended_early: u64,
}

/// A count, the noun in the singular, and why these were left out.
type LeftOut = (u64, &'static str, &'static str);

/// Returns the reason for connections without a line, if nothing else explains them.
fn neither(count: u64) -> &'static str {
    match count {
        1 => "that is neither TLS nor DTLS",
        _ => "that are neither TLS nor DTLS",
    }
}

/// A count and its noun in the singular.
#[derive(Drop)]
struct Counted(u64, &'static str);

impl Display for Counted {
    fn fmt<W: fmt::Write>(&self, f: &mut Formatter<W>) -> fmt::Result {
        let end = if self.0 == 1 { "" } else { "s" };
        write!(f, "{} {}{end}", self.0, self.1)
    }
}

/// Displays the connections that were found, and how many handshakes failed, by outcome.
#[derive(Drop)]
struct Found<'a> {
    counts: &'a Counts,
}

/// Writes the counts of TLS and DTLS connections.
fn write_kinds<W: fmt::Write>(f: &mut Formatter<W>, tls: u64, dtls: u64) -> fmt::Result {
    match (tls, dtls) {
        (0, 0) => f.write_str("no TLS connections"),
        (_, 0) => write!(f, "{}", Counted(tls, "TLS connection")),
        (0, _) => write!(f, "{}", Counted(dtls, "DTLS connection")),
        _ => write!(f, "{tls} TLS and {}", Counted(dtls, "DTLS connection")),
    }
}

impl Display for Found<'_> {
    fn fmt<W: fmt::Write>(&self, f: &mut Formatter<W>) -> fmt::Result {
        write_kinds(f, self.counts.tls, self.counts.dtls)?;
        let mut front = " (";
        for (count, outcome) in self.counts.without_success() {
            if count > 0 {
                write!(f, "{front}{count} {outcome}")?;
                front = ", ";
            }
        }
        f.write_str(if front == " (" { "" } else { ")" })
    }
}

/// Adds one to a count, which saturates at 2^64 - 1.
pub fn add_one(count: &mut u64)
    ensures { count.new ≡ one_more count.old }
{
    *count = count.saturating_add(1);
}

impl Counts {
    /// Returns the counts before anything is read.
    pub fn new() -> Counts
        ensures { result ≡ nothing_counted }
    {
        Counts {
            packets: 0,
            tls: 0,
            dtls: 0,
            broken_off: 0,
            waiting: 0,
            unknown: 0,
            no_handshake: 0,
            unread: 0,
            other_links: OtherLinks::new(),
            other_protocols: 0,
            damaged: 0,
            other_parts: 0,
            too_long: 0,
            uneven: 0,
            other_end: 0,
            empty: 0,
            overlapping: 0,
            mixed_ecn: 0,
            late: 0,
            evicted: 0,
            cut_short: 0,
            in_too_many_tunnels: 0,
            stray_segments: 0,
            other_connections: 0,
            gaps: 0,
            ended_early: 0,
        }
    }

    /// Counts a packet that can't be parsed, by its link type if that is unsupported.
    pub(crate) fn add_unread(&mut self, link_type: u16)
        ensures { self.new ≡ with_unread_packet link_type self.old }
    {
        if !self.other_links.add(link_type) {
            add_one(&mut self.unread);
        }
    }

    /// Counts a refused fragment by its reason.
    pub(crate) fn add_refused(&mut self, refusal: FragmentRefusal)
        ensures { self.new ≡ with_refusal refusal self.old }
    {
        match refusal {
            FragmentRefusal::TooLong => add_one(&mut self.too_long),
            FragmentRefusal::Uneven => add_one(&mut self.uneven),
            FragmentRefusal::OtherEnd => add_one(&mut self.other_end),
            FragmentRefusal::Empty => add_one(&mut self.empty),
            FragmentRefusal::Overlap => add_one(&mut self.overlapping),
            FragmentRefusal::MixedEcn => add_one(&mut self.mixed_ecn),
        }
    }

    /// Returns the counts of handshakes without success, by outcome.
    fn without_success(&self) -> [(u64, &'static str); 4]
        ensures { map (λ row. row.0) result ≡ self.now.broken_off ∷ self.now.waiting
            ∷ self.now.unknown ∷ self.now.no_handshake ∷ [] }
    {
        [
            (self.broken_off, "broken off"),
            (self.waiting, "waiting"),
            (self.unknown, "unknown"),
            (self.no_handshake, "no handshake"),
        ]
    }

    /// Returns how many connections to report as neither TLS nor DTLS: none if something else
    /// explains why there are no lines.
    fn unexplained(&self) -> u64
        ensures { result ≡ unexplained_in self.now }
    {
        if self.tls > 0 || self.dtls > 0 || self.damaged > 0 {
            0
        } else {
            self.other_connections
        }
    }

    /// Returns what was left out: the count, the noun and the reason.
    fn left_out(&self) -> [LeftOut; 18]
        ensures { map (λ row. row.0) result ≡ self.now.unread ∷ self.now.other_protocols
            ∷ self.now.damaged ∷ self.now.other_parts ∷ self.now.too_long ∷ self.now.uneven
            ∷ self.now.other_end ∷ self.now.empty ∷ self.now.overlapping ∷ self.now.mixed_ecn
            ∷ self.now.late ∷ self.now.evicted ∷ self.now.cut_short ∷ self.now.in_too_many_tunnels
            ∷ self.now.stray_segments ∷ self.now.gaps ∷ self.now.ended_early
            ∷ unexplained_in self.now ∷ [] }
    {
        [
            (
                self.unread,
                "packet",
                "truncated, or with a malformed header",
            ),
            (
                self.other_protocols,
                "packet",
                "of a protocol other than TCP and UDP",
            ),
            (self.damaged, "packet", "with a wrong checksum"),
            (self.other_parts, "packet", "of other parts"),
            (self.too_long, "fragment", "of datagrams above 65,535 bytes"),
            (
                self.uneven,
                "fragment",
                "with a length that isn't a multiple of 8",
            ),
            (
                self.other_end,
                "fragment",
                "that contradict their datagram's length",
            ),
            (self.empty, "datagram", "with an empty fragment"),
            (self.overlapping, "datagram", "with overlapping fragments"),
            (self.mixed_ecn, "datagram", "with contradictory ECN fields"),
            (self.late, "datagram", "that were incomplete too long"),
            (
                self.evicted,
                "datagram",
                "that were incomplete, with no room for them",
            ),
            (
                self.cut_short,
                "datagram",
                "that were incomplete at the end",
            ),
            (
                self.in_too_many_tunnels,
                "packet",
                "in more than 8 nested tunnels",
            ),
            (
                self.stray_segments,
                "segment",
                "with data, of no open connection",
            ),
            (self.gaps, "connection", "with missing bytes"),
            (
                self.ended_early,
                "connection",
                "that ended early, for lack of memory",
            ),
            (
                self.unexplained(),
                "connection",
                neither(self.unexplained()),
            ),
        ]
    }

    /// Writes what was found to standard error, and a line for each reason why something was left
    /// out.
    pub fn report<R: Eprint>(&self, rt: &R, name: &str) -> io::Result<()> {
        eprintln!(rt;
            "{name}: {}, {}",
            Found { counts: self },
            Counted(self.packets, "packet")
        )?;
        for (link_type, count) in self.other_links.rows() {
            if count > 0 {
                let what = Counted(count, "packet");
                eprintln!(rt;
                    "{name}: left out: {what} of link type {}, which is not supported",
                    LinkName(link_type)
                )?;
            }
        }
        for (count, noun, why) in self.left_out() {
            if count > 0 {
                let what = Counted(count, noun);
                eprintln!(rt; "{name}: left out: {what} {why}")?;
            }
        }
        Ok(())
    }
}
