//! What a capture's UDP datagrams add to the log.
ghost use Rattle.std.specs.Prelude.{◌≡◌, None, IfErr, IfOk, OnErr, OnOk};
ghost use Rattle.std.specs.Option.{option_map};
ghost use Rattle.connections.specs.Datagram.{five_tuple_of_datagram};
ghost use Rattle.connections.specs.Memory.{IsAccounted};
ghost use Rattle.connections.specs.Segment.{is_refused};
ghost use Rattle.connections.specs.Table.{at};
ghost use Rattle.log_connections.specs.Analysis.{IsPrepared};
ghost use Rattle.log_connections.specs.Log.{AcceptsDatagram, BeginsUnless, AnalyzesFrom, IsDelivered, IsPreparedAt, IsReady, IsWeighedUnless, KeepsOthers, LogsDatagram, LogsExchange, LogsInAnother, RefusesDatagram, RefusesInNext, WhereDatagram, WhereDelivered, counting, damaged_if, is_damaged_in, with_datagram};
ghost use Rattle.log_connections.specs.declared.exchanges.Delivery.TheVariants as delivered;

use crate::analysis::{PieceCollector, PieceKind, TlsAnalysis};
use crate::log::{Log, Refused};
use arrivals::add_one;
use connections::{Checksum, Connection, Datagram};
use std::alloc::AllocError;
use tls_summary::CertificateCache;
use tunnels::Tunnels;

/// What happened to a datagram.
pub enum Delivery {
    /// Its exchange analyzed it.
    Received,
    /// It was counted for a wrong checksum.
    Damaged,
    /// It begins another exchange in place of the open one.
    BeginsAnother,
    /// It has no open exchange.
    NoneOpen,
}

/// Analyzes a datagram. Keeps the pieces if they are to be taken.
fn analyze_from<K: PieceCollector>(
    exchange: &mut Connection<TlsAnalysis<K>>,
    datagram: &Datagram<'_>,
    kept: Option<PieceKind>,
    tunnels: &Tunnels,
    known: &mut CertificateCache,
) -> Result<(), AllocError>
    ensures prepared { OnOk result
        (AnalyzesFrom (IsPrepared tunnels.now kept) datagram.now exchange.old exchange.new) }
    ensures analysis { OnOk result (AnalyzesFrom IsReady datagram.now exchange.old exchange.new) }
    ensures weight { exchange.new.weight ≡ exchange.old.weight }
{
    let side = exchange.side_of(datagram.source);
    let analysis = &mut exchange.attachment;
    analysis.prepare(tunnels, kept)?;
    analysis.analyze_datagram(side, datagram.payload, known)
}

impl<K: PieceCollector> Log<K> {
    /// Analyzes a datagram in its open exchange, unless it is damaged or begins another DTLS
    /// association. The exchange is looked up once.
    fn analyze_exchange(&mut self, datagram: &Datagram<'_>) -> Result<Delivery, AllocError>
        ensures logged { IfOk result
            (λ delivery. LogsExchange delivery datagram.now self.old.connections
            self.new.connections) }
        ensures prepared { IfOk result
            (λ delivery. IsPreparedAt delivery
            (IsPrepared self.old.arrivals.tunnels self.old.kept) datagram.now
            self.old.connections self.new.connections) }
        ensures delivered { IfOk result
            (λ delivery. IsDelivered delivery datagram.now self.old.connections) }
        ensures refused { OnErr result
            (IsDelivered delivered.Received datagram.now self.old.connections) }
        ensures others { KeepsOthers (five_tuple_of_datagram datagram.now) self.old.connections.live
            self.new.connections.live }
        ensures weighed { IfOk result (λ delivery. WhereDelivered delivery
            (IsWeighedUnless K.most_bytes self.new.is_unsettled
            (five_tuple_of_datagram datagram.now) self.new.connections)) }
        ensures accounted { IsAccounted self.old.connections
            → IsAccounted self.new.connections }
        ensures memory { self.new.memory ≡ self.old.memory }
        ensures kept { self.new.kept ≡ self.old.kept }
        ensures arrivals { self.new.arrivals ≡ self.old.arrivals }
    {
        let five_tuple = datagram.between();
        let Some(exchange) = self.connections.get_mut(&five_tuple) else {
            return Ok(Delivery::NoneOpen);
        };
        if exchange.is_damaged(datagram) {
            exchange.drop_datagram(datagram);
            return Ok(Delivery::Damaged);
        }
        let side = exchange.side_of(datagram.source);
        if exchange.attachment.begins_another(side, datagram.payload) {
            return Ok(Delivery::BeginsAnother);
        }
        exchange.take_datagram(self.alloc, datagram);
        analyze_from(
            exchange,
            datagram,
            self.kept,
            &self.arrivals.tunnels,
            &mut self.known,
        )?;
        self.is_unsettled = exchange.changed_weight().is_some();
        self.connections.promote(&five_tuple);
        Ok(Delivery::Received)
    }

    /// Analyzes a datagram in its exchange. Removes and returns the exchange that another one
    /// replaces.
    pub(crate) fn accept_user_datagram(
        &mut self,
        datagram: &Datagram<'_>,
    ) -> Result<Option<Box<Connection<TlsAnalysis<K>>>>, Refused<K>>
        ensures accepted { IfOk result (λ over. AcceptsDatagram datagram.now self.old.connections
            self.new.connections (option_map (λ b. b.value) over)) }
        ensures refused { IfErr result (λ refused. RefusesDatagram datagram.now
            self.old.connections self.new.connections (option_map (λ b. b.value) refused.over)) }
        ensures others { KeepsOthers (five_tuple_of_datagram datagram.now) self.old.connections.live
            self.new.connections.live }
        ensures weighed { OnOk result (WhereDatagram (is_damaged_in datagram.now
            self.old.connections) (IsWeighedUnless K.most_bytes self.new.is_unsettled
            (five_tuple_of_datagram datagram.now) self.new.connections)) }
        ensures accounted { IsAccounted self.old.connections
            → IsAccounted self.new.connections }
        ensures memory { self.new.memory ≡ self.old.memory }
        ensures kept { self.new.kept ≡ self.old.kept }
        ensures counted { self.new.arrivals ≡ counting (with_datagram
            (is_damaged_in datagram.now self.old.connections) (is_refused datagram.now.checksum))
            self.old.arrivals }
    {
        match self.analyze_exchange(datagram)? {
            Delivery::Received => Ok(None),
            Delivery::Damaged => {
                add_one(&mut self.arrivals.counts.damaged);
                Ok(None)
            }
            Delivery::NoneOpen => {
                self.begin_exchange(datagram)?;
                Ok(None)
            }
            Delivery::BeginsAnother => self.replace_exchange(datagram),
        }
    }

    /// Removes and returns the exchange of a datagram, which ends, and analyzes the datagram in
    /// another one.
    fn replace_exchange(
        &mut self,
        datagram: &Datagram<'_>,
    ) -> Result<Option<Box<Connection<TlsAnalysis<K>>>>, Refused<K>>
        ensures accepted { IfOk result (λ over. LogsInAnother datagram.now self.old.connections
            self.new.connections (option_map (λ b. b.value) over)) }
        ensures refused { IfErr result (λ refused. RefusesInNext datagram.now
            self.old.connections self.new.connections (option_map (λ b. b.value) refused.over)) }
        ensures others { KeepsOthers (five_tuple_of_datagram datagram.now) self.old.connections.live
            self.new.connections.live }
        ensures weighed { OnOk result (IsWeighedUnless K.most_bytes self.new.is_unsettled
            (five_tuple_of_datagram datagram.now) self.new.connections) }
        ensures accounted { IsAccounted self.old.connections
            → IsAccounted self.new.connections }
        ensures memory { self.new.memory ≡ self.old.memory }
        ensures kept { self.new.kept ≡ self.old.kept }
        ensures arrivals { self.new.arrivals ≡ self.old.arrivals }
    {
        let taken = self.connections.take_exchange(datagram)?;
        let over = self.with_last(taken);
        match self.accept_datagram(datagram) {
            Ok(()) => Ok(over),
            Err(_) => Err(Refused { over }),
        }
    }

    /// Begins an exchange with a datagram, or counts the datagram if its checksum is wrong.
    fn begin_exchange(&mut self, datagram: &Datagram<'_>) -> Result<(), AllocError>
        ensures begun { OnOk result (BeginsUnless (is_refused datagram.now.checksum) datagram.now
            self.old.connections self.new.connections) }
        ensures others { KeepsOthers (five_tuple_of_datagram datagram.now) self.old.connections.live
            self.new.connections.live }
        ensures weighed { OnOk result
            (at (five_tuple_of_datagram datagram.now) self.old.connections.live ≡ None
            → (IsWeighedUnless K.most_bytes self.new.is_unsettled
            (five_tuple_of_datagram datagram.now) self.new.connections)) }
        ensures accounted { IsAccounted self.old.connections
            → IsAccounted self.new.connections }
        ensures memory { self.new.memory ≡ self.old.memory }
        ensures kept { self.new.kept ≡ self.old.kept }
        ensures counted { self.new.arrivals
            ≡ counting (damaged_if (is_refused datagram.now.checksum)) self.old.arrivals }
    {
        if datagram.checksum == Checksum::Refused {
            add_one(&mut self.arrivals.counts.damaged);
            return Ok(());
        }
        self.accept_datagram(datagram)
    }

    /// Analyzes a datagram in its exchange, which it begins if there is none.
    fn accept_datagram(&mut self, datagram: &Datagram<'_>) -> Result<(), AllocError>
        ensures prepared { OnOk result
            (LogsDatagram (IsPrepared self.old.arrivals.tunnels self.old.kept) datagram.now
            self.old.connections self.new.connections) }
        ensures logged { OnOk result
            (LogsDatagram IsReady datagram.now self.old.connections self.new.connections) }
        ensures others { KeepsOthers (five_tuple_of_datagram datagram.now) self.old.connections.live
            self.new.connections.live }
        ensures weighed { OnOk result (IsWeighedUnless K.most_bytes self.new.is_unsettled
            (five_tuple_of_datagram datagram.now) self.new.connections) }
        ensures accounted { IsAccounted self.old.connections
            → IsAccounted self.new.connections }
        ensures memory { self.new.memory ≡ self.old.memory }
        ensures kept { self.new.kept ≡ self.old.kept }
        ensures arrivals { self.new.arrivals ≡ self.old.arrivals }
    {
        self.connections.accept_datagram(datagram)?;
        match self.connections.get_mut(&datagram.between()) {
            Some(exchange) => {
                analyze_from(
                    exchange,
                    datagram,
                    self.kept,
                    &self.arrivals.tunnels,
                    &mut self.known,
                )?;
                self.is_unsettled = exchange.changed_weight().is_some();
                Ok(())
            }
            None => Ok(()),
        }
    }
}
