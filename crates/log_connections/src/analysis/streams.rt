//! How the bytes of a stream are analyzed.
ghost use Rattle.std.specs.Prelude.{◌≡◌, ◌||◌, ◌∷◌, IfOk, OnErr, OnOk, Some, drop, false};
ghost use Rattle.std.specs.Option.{option_map};
ghost use Rattle.connections.specs.Stream.{is_cut_short, next_bytes};
ghost use Rattle.ssl2_hello.specs.ClientHello.{view_client_hello as view_ssl2_hello};
ghost use Rattle.log_connections.specs.Analysis.{AnalyzesAll, AnalyzesAt, AnalyzesBehindFirst, AnalyzesFurther, AnalyzesHello, AnalyzesNone, AnalyzesStream, AnalyzesTls, IsCut, IsCutIn, PassesOver, begins_in, begun_at, counting, direction_of as direction_by, is_done as is_done_in, is_over_in, seeing_client, turned};
ghost use Rattle.log_connections.specs.Fronts.{view_beginning};
ghost use Rattle.log_connections.specs.Tds.{tls_of as tls_by};

use crate::analysis::{
    PieceCollector, TlsAnalysis, TransportAnalyzer, behind, is_responder, stop_if, turned_by,
};
use crate::dialogue::HANDSHAKE;
use crate::fronts::{Beginning, begins_at};
use crate::piece_observer::PieceObserver;
use crate::tds::tls_of;
use connections::{Side, Stream};
use ssl2_hello::Ssl2ClientHello;
use std::alloc::{AllocError, Global};
use std::mem;
use tls_detection::first_message;
use tls_summary::CertificateCache;

/// Returns the first byte of a handshake record, and the bytes behind it.
fn with_first(alloc: Global, rest: &[u8]) -> Result<Vec<u8>, AllocError>
    ensures { IfOk result (λ v. v.items ≡ 22 ∷ rest.now) }
{
    let mut bytes = Vec::new(alloc);
    bytes.push(HANDSHAKE)?;
    bytes.extend_from_slice(rest)?;
    Ok(bytes)
}

impl<K: PieceCollector> TlsAnalysis<K> {
    /// Decides which side is the client, if the next bytes of a side's stream, behind the first
    /// `n`, are the first analyzed bytes of the connection, or the TLS that was taken out of them.
    fn see_client(
        &mut self,
        stream: &Stream,
        side: Side,
        n: usize,
        taken: &Option<Vec<u8>>,
        is_opened: bool,
    )
        ensures { self.new ≡ seeing_client side is_opened
            (tls_by (option_map (λ t. t.items) taken.now)
            (drop n (next_bytes stream.now stream.now.reading))) self.old }
    {
        if !self.are_silent() {
            return;
        }
        let bytes = tls_of(taken, behind(stream.available(), n));
        self.is_turned = turned_by(first_message(bytes), side, is_opened);
    }

    /// Decides which side is the client, if an SSL 2.0 ClientHello of this side is the first
    /// message of the connection.
    fn see_ssl2_client(&mut self, side: Side)
        ensures { self.new ≡ record self.old
            { is_turned = turned (Some 1) side false self.old.transport self.old.is_turned } }
    {
        if !self.are_silent() {
            return;
        }
        self.is_turned = is_responder(side);
    }

    /// Counts the records in a side's next bytes.
    pub(crate) fn count_records(&mut self, side: Side, bytes: &[u8])
        ensures { self.new ≡ counting side bytes.now self.old }
    {
        match side {
            Side::Originator => self.from_originator.add(bytes),
            Side::Responder => self.from_responder.add(bytes),
        }
    }

    /// Begins a side's TLS, which was found behind the next `n` bytes.
    fn begin_at(&mut self, side: Side, n: usize)
        ensures { self.new ≡ begun_at side n self.old }
    {
        let direction = self.direction(side);
        if let TransportAnalyzer::Stream(analyzer, preambles) = &mut self.transport {
            preambles.pass(side, n);
            analyzer.begin_tls(direction);
        }
    }

    /// Analyzes the next bytes of a side's stream behind the first `n`, or the TLS that was taken
    /// out of them, and reads them all. (Inlined: it runs for each segment before a side is over.)
    #[inline(always)]
    #[tactic(auto, unfolding(crate::specs::Analysis::AnalyzesTls))]
    fn analyze_behind(
        &mut self,
        stream: &mut Stream,
        side: Side,
        n: usize,
        taken: &Option<Vec<u8>>,
        known: &mut CertificateCache,
    ) -> Result<(), AllocError>
        ensures analysis { OnOk result
            (AnalyzesTls side (tls_by (option_map (λ t. t.items) taken.now)
            (drop n (next_bytes stream.old stream.old.reading))) stream.old stream.new self.old
            self.new) }
        ensures cut { OnErr result (IsCut stream.old stream.new self.old self.new) }
    {
        let all = stream.available();
        let bytes = tls_of(taken, behind(all, n));
        let direction = self.direction(side);
        let TransportAnalyzer::Stream(analyzer, _) = &mut self.transport else {
            return Ok(());
        };
        self.received = self.received.saturating_add(bytes.len());
        let mut observer = PieceObserver {
            collector: mem::replace(&mut self.collector, None),
            known,
        };
        let is_received = analyzer.analyze_with(self.alloc, direction, bytes, &mut observer);
        let PieceObserver {
            collector,
            known: _,
        } = observer;
        self.collector = collector;
        is_received?;
        let is_over = analyzer.is_over(direction);
        self.count_records(side, bytes);
        let len = all.len();
        stream.take(len);
        stop_if(stream, is_over);
        Ok(())
    }

    /// Analyzes a side's bytes from where its TLS was found, behind the next `n` bytes.
    fn analyze_at(
        &mut self,
        stream: &mut Stream,
        side: Side,
        is_opened: bool,
        n: usize,
        known: &mut CertificateCache,
    ) -> Result<(), AllocError>
        ensures analysis { OnOk result
            (AnalyzesAt side is_opened n stream.old stream.new self.old self.new) }
        ensures cut { OnErr result (IsCut stream.old stream.new self.old self.new) }
    {
        let taken: Option<Vec<u8>> = None;
        self.see_client(stream, side, n, &taken, is_opened);
        self.begin_at(side, n);
        self.analyze_behind(stream, side, n, &taken, known)
    }

    /// Analyzes a side's bytes behind the first one of its TLS, which isn't in the stream.
    fn analyze_behind_first(
        &mut self,
        stream: &mut Stream,
        side: Side,
        is_opened: bool,
        known: &mut CertificateCache,
    ) -> Result<(), AllocError>
        ensures analysis { OnOk result
            (AnalyzesBehindFirst side is_opened stream.old stream.new self.old self.new) }
        ensures cut { OnErr result (IsCut stream.old stream.new self.old self.new) }
    {
        let taken = Some(with_first(self.alloc, stream.available())?);
        self.see_client(stream, side, 0, &taken, is_opened);
        self.begin_at(side, 0);
        self.analyze_behind(stream, side, 0, &taken, known)
    }

    /// Analyzes all next bytes of a side whose TLS began, or begins with them, whatever they are.
    /// If its TLS comes in packets, it is taken out of them.
    fn analyze_all(
        &mut self,
        stream: &mut Stream,
        side: Side,
        is_opened: bool,
        known: &mut CertificateCache,
    ) -> Result<(), AllocError>
        ensures analysis { OnOk result
            (AnalyzesAll side is_opened stream.old stream.new self.old self.new) }
        ensures cut { OnErr result (IsCut stream.old stream.new self.old self.new) }
    {
        let taken = self.take_tls(side, stream.available())?;
        self.see_client(stream, side, 0, &taken, is_opened);
        self.analyze_behind(stream, side, 0, &taken, known)
    }

    /// Analyzes the SSL 2.0 ClientHello with which a side begins. What is behind it is analyzed
    /// with the next bytes.
    #[tactic(auto, unfolding(crate::specs::Analysis::AnalyzesHello))]
    fn analyze_ssl2(&mut self, side: Side, hello: &Ssl2ClientHello<'_>) -> Result<(), AllocError>
        ensures analysis { OnOk result
            (AnalyzesHello side (view_ssl2_hello hello.now) self.old self.new) }
        ensures cut { OnErr result (IsCutIn self.old self.new) }
    {
        self.see_ssl2_client(side);
        let direction = self.direction(side);
        let TransportAnalyzer::Stream(analyzer, _) = &mut self.transport else {
            return Ok(());
        };
        analyzer.analyze_ssl2(self.alloc, direction, hello)
    }

    /// Analyzes a side as one that doesn't speak TLS, and stops reading its stream.
    #[tactic(auto, unfolding(crate::specs::Analysis::AnalyzesNone))]
    fn skip_side(&mut self, stream: &mut Stream, side: Side)
        ensures { AnalyzesNone side stream.old stream.new self.old self.new }
    {
        let direction = self.direction(side);
        let TransportAnalyzer::Stream(analyzer, preambles) = &mut self.transport else {
            return;
        };
        preambles.clear(side);
        analyzer.skip_side(direction);
        stream.stop();
    }

    /// Skips bytes of a side before its TLS.
    #[tactic(auto, unfolding(crate::specs::Analysis::PassesOver))]
    fn pass_over(&mut self, stream: &mut Stream, side: Side, n: usize)
        ensures { PassesOver side n stream.old stream.new self.old self.new }
    {
        if let TransportAnalyzer::Stream(_, preambles) = &mut self.transport {
            preambles.pass(side, n);
            stream.take(n);
        }
    }

    /// Returns where a side's TLS begins in its next bytes. They are its last, or the last before
    /// an urgent byte, if they `are_last`.
    fn beginning<'b>(&self, bytes: &'b [u8], side: Side, are_last: bool) -> Beginning<'b>
        ensures { view_beginning result
            ≡ begins_in side (direction_by self.now.is_turned side) are_last self.now.transport
            bytes.now }
    {
        match &self.transport {
            TransportAnalyzer::Stream(analyzer, preambles) => begins_at(
                &preambles.dialogue,
                analyzer.is_unknown(self.direction(side)),
                analyzer.is_tls(),
                are_last,
                preambles.of(side),
                bytes,
            ),
            TransportAnalyzer::Datagrams(_) => Beginning::Waits,
        }
    }

    /// Returns whether a side is analyzed no further.
    fn is_over(&self, side: Side) -> bool
        ensures { result ≡ is_over_in (direction_by self.now.is_turned side) self.now.transport }
    {
        match &self.transport {
            TransportAnalyzer::Stream(analyzer, _) => analyzer.is_over(self.direction(side)),
            TransportAnalyzer::Datagrams(_) => false,
        }
    }

    /// Returns whether a side is over and has no next bytes.
    fn is_done(&self, stream: &Stream, side: Side) -> bool
        ensures { result ≡ is_done_in side stream.now self.now }
    {
        stream.available().is_empty() && self.is_over(side)
    }

    /// Analyzes the next bytes of a side's stream, from where its TLS begins, and skips those
    /// before. They are its last if they `are_last`. The connection's opening was captured if it
    /// `is_opened`.
    #[tactic(auto, unfolding(crate::specs::Analysis::AnalyzesStream))]
    pub(crate) fn analyze_stream(
        &mut self,
        stream: &mut Stream,
        side: Side,
        is_opened: bool,
        are_last: bool,
        known: &mut CertificateCache,
    ) -> Result<(), AllocError>
        ensures analysis { OnOk result
            (AnalyzesStream side is_opened (are_last || is_cut_short stream.old stream.old.reading)
            stream.old stream.new self.old self.new) }
        ensures cut { OnErr result (IsCut stream.old stream.new self.old self.new) }
        ensures undone { OnErr result (is_done_in side stream.old self.old ≡ false) }
    {
        // (most packets come after the whole handshake was analyzed)
        if self.is_done(stream, side) {
            stream.stop();
            return Ok(());
        }
        self.analyze_further(stream, side, is_opened, are_last, known)
    }

    /// Analyzes the next bytes of a side that has any, or may be analyzed further.
    #[tactic(auto, unfolding(crate::specs::Analysis::AnalyzesFurther))]
    fn analyze_further(
        &mut self,
        stream: &mut Stream,
        side: Side,
        is_opened: bool,
        are_last: bool,
        known: &mut CertificateCache,
    ) -> Result<(), AllocError>
        ensures analysis { OnOk result
            (AnalyzesFurther side is_opened (are_last || is_cut_short stream.old stream.old.reading)
            stream.old stream.new self.old self.new) }
        ensures cut { OnErr result (IsCut stream.old stream.new self.old self.new) }
    {
        let are_last = are_last || stream.is_cut();
        match self.beginning(stream.available(), side, are_last) {
            Beginning::Waits => Ok(()),
            Beginning::PassesOver(n) => {
                self.pass_over(stream, side, n);
                Ok(())
            }
            Beginning::At(n) => self.analyze_at(stream, side, is_opened, n, known),
            Beginning::BehindFirst => self.analyze_behind_first(stream, side, is_opened, known),
            Beginning::Next => self.analyze_all(stream, side, is_opened, known),
            Beginning::InSsl2(hello, n) => {
                self.analyze_ssl2(side, &hello)?;
                stream.take(n);
                Ok(())
            }
            Beginning::Nowhere => {
                self.skip_side(stream, side);
                Ok(())
            }
        }
    }
}
