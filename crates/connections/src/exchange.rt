//! UDP exchanges: connections whose packets have no sequence numbers.
ghost use Rattle.std.specs.Prelude.{◌≡◌, true};
ghost use Rattle.connections.specs.declared.five_tuple.Protocol.TheVariants.{Udp};
ghost use Rattle.connections.specs.declared.receiver.DropReason.TheVariants as reason;
ghost use Rattle.connections.specs.Connection.{begun_by_datagram, dropped_from, is_datagram_damaged, shows_damage as is_shown_damaged, side_of, with_datagram, IsAfter, TakesDatagramIn};

use crate::connection::{Attachment, Connection, Side};
use crate::datagram::Datagram;
use crate::five_tuple::Protocol;
use crate::host::Host;
use crate::receiver::{DropReason, is_damaged};
use std::alloc::Global;

impl<T: Attachment> Connection<T> {
    /// Returns an exchange that begins with this datagram.
    pub(crate) fn of_datagram(alloc: Global, datagram: &Datagram<'_>) -> Connection<T>
        ensures begun { result ≡ begun_by_datagram datagram.now result.attachment }
        ensures weight { result.weight ≡ 0 }
        ensures attached { T.IsBegun Udp result.attachment }
    {
        let mut exchange = Connection::new(
            alloc,
            Protocol::Udp,
            datagram.source,
            datagram.destination,
            datagram.time,
        );
        exchange.accept_datagram(datagram);
        exchange
    }

    /// Returns another exchange between the same ends, which this datagram begins. It isn't counted
    /// yet. What is known about both ends' checksums stays.
    pub(crate) fn after(&self, alloc: Global, datagram: &Datagram<'_>) -> Connection<T>
        ensures after { IsAfter datagram.now self.now result }
        ensures attached { T.IsBegun Udp result.attachment }
    {
        let (sender, receiver) = self.hosts_from(self.side_of(datagram.source));
        let mut exchange = Connection::new(
            alloc,
            Protocol::Udp,
            datagram.source,
            datagram.destination,
            datagram.time,
        );
        exchange.originator_host = Host::after(sender);
        exchange.responder_host = Host::after(receiver);
        exchange
    }

    /// Returns whether the datagram's checksum counts as wrong.
    pub fn is_damaged(&self, datagram: &Datagram<'_>) -> bool
        ensures { result ≡ is_datagram_damaged datagram.now self.now }
    {
        let (sender, receiver) = self.hosts_from(self.side_of(datagram.source));
        is_damaged(sender, receiver, datagram.checksum, datagram.payload.len())
    }

    /// Counts a datagram that its receiver drops for a wrong checksum.
    pub fn drop_datagram(&mut self, datagram: &Datagram<'_>)
        ensures { self.new ≡ dropped_from (side_of self.old datagram.now.source)
            reason.Checksum self.old }
    {
        self.count_dropped(self.side_of(datagram.source), DropReason::Checksum);
    }

    /// Counts the datagram, and notes its time.
    pub(crate) fn accept_datagram(&mut self, datagram: &Datagram<'_>)
        ensures counted { self.new ≡ with_datagram datagram.now self.old }
        ensures weight { self.new.weight ≡ self.old.weight }
        ensures attachment { self.new.attachment ≡ self.old.attachment }
    {
        self.last_time = datagram.time;
        match self.side_of(datagram.source) {
            Side::Originator => {
                let wrong = self.originator_host.note_checksum(datagram.checksum);
                self.originator_dropped.add_damaged(u64::from(wrong));
                self.originator_sent.add(datagram.payload);
            }
            Side::Responder => {
                let wrong = self.responder_host.note_checksum(datagram.checksum);
                self.responder_dropped.add_damaged(u64::from(wrong));
                self.responder_sent.add(datagram.payload);
            }
        }
    }

    /// Counts the datagram, and notes its time. If it shows that everything before it was damaged,
    /// the exchange restarts first.
    pub fn take_datagram(&mut self, alloc: Global, datagram: &Datagram<'_>)
        ensures taken { TakesDatagramIn datagram.now self.old self.new }
        ensures weight { self.new.weight ≡ self.old.weight }
        ensures attached { is_shown_damaged (side_of self.old datagram.now.source)
            datagram.now.checksum self.old ≡ true
            → T.IsBegun self.old.protocol self.new.attachment }
    {
        if self.shows_damage(self.side_of(datagram.source), datagram.checksum) {
            self.restart(alloc, datagram.time);
        }
        self.accept_datagram(datagram);
    }
}
