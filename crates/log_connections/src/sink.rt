//! Who receives what a log finds.
ghost use Rattle.std.specs.Prelude.{◌≡◌, Bool, true, List, [], ◌∷◌, Option, None, IfErr, OnOk};
ghost use Rattle.connections.specs.declared.connection.Connection.{Connection};
ghost use Rattle.log_connections.specs.Sink.{Adds, IsOfSink, Receives, StaysSound, TakesPieces};
ghost use Rattle.log_connections.specs.declared.analysis.TlsAnalysis.{TlsAnalysis};

use crate::analysis::TlsAnalysis;
use connections::Connection;
use std::alloc::AllocError;

/// Receives the connections of a log.
pub trait Sink<K> {
    /// Why it takes no more.
    type Error;

    // Whether it is sound, if a contract needs that. It stays so unless it fails.
    ghost is_sound: { Self → Bool } = { λ _. true };

    // The connections that are over and that it received, first to last, if a contract needs them.
    ghost received: { Self → Option (List (Connection (TlsAnalysis K))) } = { λ _. None };

    // The open connections that it was lent, first to last, if a contract needs them.
    ghost lent: { Self → Option (List (Connection (TlsAnalysis K))) } = { λ _. None };

    /// Receives a connection that is over, with the pieces that weren't taken from its collector.
    /// `time` is the time of the packet that ended it, or of its last packet.
    fn connection(
        &mut self,
        over: Box<Connection<TlsAnalysis<K>>>,
        time: u64,
    ) -> Result<(), Self::Error>
        ensures received { Receives (received self.old) (received self.new) result over.value }
        ensures lent { Adds (lent self.old) (lent self.new) [] }
        ensures sound { is_sound self.old ≡ true → OnOk result (is_sound self.new ≡ true) };

    /// Receives an open connection after its packet of this time, if messages or certificates are
    /// kept. It takes the pieces from the collector, and changes nothing else.
    fn pieces(
        &mut self,
        open: &mut Connection<TlsAnalysis<K>>,
        time: u64,
    ) -> Result<(), Self::Error>
        ensures received { Adds (received self.old) (received self.new) [] }
        ensures lent { Adds (lent self.old) (lent self.new) (open.old ∷ []) }
        ensures taken { TakesPieces open.old open.new }
        ensures sound { is_sound self.old ≡ true → OnOk result (is_sound self.new ≡ true) };
}

/// Why a packet wasn't logged.
#[derive(Drop)]
pub enum LogError<E> {
    /// Memory ran out, and there is no connection to end.
    OutOfMemory,
    /// The sink failed.
    Sink(E),
}

impl<E> From<AllocError> for LogError<E> {
    ghost use Rattle.log_connections.specs.declared.sink.LogError.TheVariants.{OutOfMemory};

    ghost from_gives = { λ _ e. e ≡ OutOfMemory };

    fn from(_e: AllocError) -> LogError<E> {
        LogError::OutOfMemory
    }
}

/// Passes a connection that is over to the sink.
pub(crate) fn hand_over<K, S: Sink<K>>(
    over: Box<Connection<TlsAnalysis<K>>>,
    time: u64,
    sink: &mut S,
) -> Result<(), LogError<S::Error>>
    ensures received { Receives (S.received sink.old) (S.received sink.new) result over.value }
    ensures lent { Adds (S.lent sink.old) (S.lent sink.new) [] }
    ensures failed { IfErr result (λ error. IsOfSink error) }
    ensures sound { StaysSound (S.is_sound sink.old) (S.is_sound sink.new) result }
{
    match sink.connection(over, time) {
        Ok(()) => Ok(()),
        Err(e) => Err(LogError::Sink(e)),
    }
}

/// Passes the new pieces of an open connection to the sink.
pub(crate) fn hand_pieces<K, S: Sink<K>>(
    open: &mut Connection<TlsAnalysis<K>>,
    time: u64,
    sink: &mut S,
) -> Result<(), LogError<S::Error>>
    ensures received { Adds (S.received sink.old) (S.received sink.new) [] }
    ensures lent { Adds (S.lent sink.old) (S.lent sink.new) (open.old ∷ []) }
    ensures taken { TakesPieces open.old open.new }
    ensures failed { IfErr result (λ error. IsOfSink error) }
    ensures sound { StaysSound (S.is_sound sink.old) (S.is_sound sink.new) result }
{
    match sink.pieces(open, time) {
        Ok(()) => Ok(()),
        Err(e) => Err(LogError::Sink(e)),
    }
}
