//! Laws of whole runs. Each function's contract is one law; its body is empty.
ghost use Rattle.std.specs.Map.{values_of};
ghost use Rattle.std.specs.Prelude.{◌≡◌, ◌≤◌, ◌↔◌, ◌+◌, ℕ, true, false, List, [], Option, None, Some, drop, is_some, length};
ghost use Rattle.segments.specs.Cells.{Bytes};
ghost use Rattle.segments.specs.Law.{IsAmong, IsLongestFront};
ghost use Rattle.arrivals.specs.Arrival.{five_tuple_in, is_logged, time_of};
ghost use Rattle.arrivals.specs.Reader.{Reads};
ghost use Rattle.arrivals.specs.declared.arrival.Arrival.{Arrival};
ghost use Rattle.arrivals.specs.declared.reader.ArrivalReader.{ArrivalReader};
ghost use Rattle.connection_parts.specs.declared.part.Part.{Part};
ghost use Rattle.connections.specs.Stream.{empty_from, next_bytes};
ghost use Rattle.connections.specs.Table.{Table, at};
ghost use Rattle.connections.specs.declared.connection.Connection.{Connection};
ghost use Rattle.connections.specs.declared.five_tuple.End.{End};
ghost use Rattle.connections.specs.declared.five_tuple.FiveTuple.{FiveTuple};
ghost use Rattle.connections.specs.declared.five_tuple.Protocol.{Protocol};
ghost use Rattle.connections.specs.declared.stream.Reading.TheVariants.{Open};
ghost use Rattle.connections.specs.declared.stream.Stream.{Stream};
ghost use Rattle.connections.specs.declared.table.TheConstants.{IDLE_LIMIT, MAX_CONNECTIONS};
ghost use Rattle.packets.specs.Section.{Packet};
ghost use Rattle.log_connections.specs.declared.analysis.TlsAnalysis.{TlsAnalysis};
ghost use Rattle.log_runs.specs.Counting.{count_of, rest_of, times};
ghost use Rattle.log_connections.specs.Log.{Accepts};
ghost use Rattle.log_connections.specs.Packet.{Processes};
ghost use Rattle.log_connections.specs.Sink.{Adds};
ghost use Rattle.log_runs.specs.Dropped.{ChangesCountsAt, is_dropped};
ghost use Rattle.log_runs.specs.Parts.{are_of_other_parts, are_of_part, entries_of_part, is_of_part};
ghost use Rattle.log_runs.specs.Runs.{HandlesEach, IsRun, StaysOrComesOut, are_of_others, begun_over, log_of, outs_over, refused_over};
ghost use Rattle.log_runs.specs.Sharing.{arrivals_in, of_part, own, views, Behavior, Distinct, HasRoom, InTime, PlainRun};
ghost use Rattle.log_runs.specs.Streams.{Gets, in_order, read_of};

/// Each connection comes out of a run exactly once: for each five-tuple, as many come out as were
/// open before the run or began in it. The law covers runs without refused memory: no contract
/// states what happens to the connection of an arrival for which memory is refused.
pub fn each_connection_comes_out_once<K>()
    ensures { (M : K → ℕ) (limit : ℕ) (packets : List Packet) (reader : ArrivalReader)
        (old new : Table (TlsAnalysis K))
        (before after : Option (List (Connection (TlsAnalysis K))))
        (run : IsRun M limit packets reader old new before after) (e : FiveTuple)
        → refused_over run.handles ≡ []
        → count_of e (log_of run) ≡ count_of e old.live + times e (begun_over run.handles) }
{}

/// The sink receives the connections that come out of a run, in this order, and no other.
pub fn the_sink_receives_what_comes_out<K>()
    ensures { (M : K → ℕ) (limit : ℕ) (packets : List Packet) (reader : ArrivalReader)
        (old new : Table (TlsAnalysis K))
        (before after : Option (List (Connection (TlsAnalysis K))))
        (run : IsRun M limit packets reader old new before after)
        → Adds before after (values_of (log_of run)) }
{}

/// An arrival that its receiver drops, or that becomes pending, ends no connection. It changes no
/// connection's streams and no analysis: only pending segments, counts of dropped packets and
/// accounted memory.
pub fn dropped_arrivals_change_no_streams<K>()
    ensures { (M : K → ℕ) (a : Arrival) (old new : Table (TlsAnalysis K))
        (over : Option (Connection (TlsAnalysis K))) (accepts : Accepts M a old new over)
        → is_dropped a old accepts.mid over accepts.takes ≡ true
        → (over ≡ None) × ((e : FiveTuple) → ChangesCountsAt (at e old.live) (at e new.live)) }
{}

/// An arrival changes at most the connection of its five-tuple. The others and their order are
/// unchanged.
pub fn arrivals_change_only_their_own_connection<K>()
    ensures { (M : K → ℕ) (a : Arrival) (old new : Table (TlsAnalysis K))
        (over : Option (Connection (TlsAnalysis K))) → Accepts M a old new over
        → rest_of (five_tuple_in a) new.live ≡ rest_of (five_tuple_in a) old.live }
{}

/// However the bytes of a sender are cut into segments, and in whichever order those come or are
/// repeated, its stream has the same bytes in order: up to the first byte that didn't come. The
/// next bytes are those of them that weren't read, unless an urgent byte comes before.
pub fn segments_cut_otherwise_give_the_same_bytes()
    ensures same { (bytes : Bytes) (limit first : ℕ) (t u v : Stream)
        (got other : List (ℕ × Bytes)) → t.reading ≡ Open (empty_from limit first)
        → Gets bytes t got u → Gets bytes t other v
        → ((i : ℕ) → IsAmong got i ↔ IsAmong other i)
        → in_order bytes u.reading ≡ in_order bytes v.reading }
    ensures front { (bytes : Bytes) (limit first : ℕ) (t u : Stream) (got : List (ℕ × Bytes))
        → t.reading ≡ Open (empty_from limit first) → Gets bytes t got u
        → IsLongestFront bytes (IsAmong got) (in_order bytes u.reading) }
    ensures next { (bytes : Bytes) (limit first : ℕ) (t u : Stream) (got : List (ℕ × Bytes))
        → t.reading ≡ Open (empty_from limit first) → Gets bytes t got u → u.urgent ≡ None
        → next_bytes u u.reading ≡ drop (read_of u u.reading) (in_order bytes u.reading) }
{}

/// Each connection falls to exactly one of the parts that share a capture.
pub fn each_connection_falls_to_one_part()
    ensures some { (p : Protocol) (a b : End) (last : ℕ) → (n : ℕ) × (n ≤ last)
        × (is_logged (Some (record { number = n; last = last })) p a b ≡ true) }
    ensures one { (p : Protocol) (a b : End) (part other : Part) → part.last ≡ other.last
        → is_logged (Some part) p a b ≡ true → is_logged (Some other) p a b ≡ true
        → part.number ≡ other.number }
{}

/// Of the packets that aren't fragments, the reader of a part hands on exactly the arrivals whose
/// connections fall to it.
pub fn parts_hand_on_their_own_arrivals()
    ensures own { (part : Part) (p : Packet) (old new : ArrivalReader) (a : Arrival)
        → old.part ≡ Some part → Reads p old new (Some a)
        → is_of_part part (five_tuple_in a) ≡ true }
    ensures each { (part : Part) (p : Packet) (whole after mine behind : ArrivalReader)
        (a : Arrival) (o : Option Arrival) → mine.part ≡ Some part
        → Reads p whole after (Some a) → Reads p mine behind o
        → is_some o ≡ is_of_part part (five_tuple_in a) }
{}

/// The connections of a part follow from its own packets. Arrivals of other parts change none of
/// them, nor their order; and over packets of other parts each stays as it is or comes out. From
/// the part's own packets none of another part comes out, unless memory is refused.
pub fn parts_follow_from_their_own_packets<K>()
    ensures step { (M : K → ℕ) (part : Part) (a : Arrival) (old new : Table (TlsAnalysis K))
        (over : Option (Connection (TlsAnalysis K))) → Accepts M a old new over
        → is_of_part part (five_tuple_in a) ≡ false
        → entries_of_part part new.live ≡ entries_of_part part old.live }
    ensures others { (M : K → ℕ) (part : Part) (limit : ℕ) (packets : List Packet)
        (reader read : ArrivalReader) (old new : Table (TlsAnalysis K))
        (before after : Option (List (Connection (TlsAnalysis K))))
        (handles : HandlesEach M limit reader old before packets read new after) (e : FiveTuple)
        → is_of_part part e ≡ true → are_of_other_parts part handles ≡ true
        → StaysOrComesOut e (at e old.live) (at e new.live) (outs_over handles) }
    ensures alone { (M : K → ℕ) (part : Part) (limit : ℕ) (packets : List Packet)
        (reader : ArrivalReader) (old new : Table (TlsAnalysis K))
        (before after : Option (List (Connection (TlsAnalysis K))))
        (run : IsRun M limit packets reader old new before after) (e : FiveTuple)
        → refused_over run.handles ≡ [] → are_of_part part run.handles ≡ true
        → is_of_part part e ≡ false → count_of e (log_of run) ≡ count_of e old.live }
{}

/// Whatever comes of other five-tuples, a connection stays as it is or comes out, even if memory is
/// refused for the others. What it is follows from its own packets alone.
pub fn packets_of_others_leave_a_connection_as_it_is<K>()
    ensures { (M : K → ℕ) (limit : ℕ) (packets : List Packet) (reader read : ArrivalReader)
        (old new : Table (TlsAnalysis K))
        (before after : Option (List (Connection (TlsAnalysis K))))
        (handles : HandlesEach M limit reader old before packets read new after) (e : FiveTuple)
        → are_of_others e handles ≡ true
        → StaysOrComesOut e (at e old.live) (at e new.live) (outs_over handles) }
{}

/// Only idle connections time out: one with a packet in the last 300 seconds stays, unless there
/// are too many.
pub fn only_idle_connections_time_out<K>()
    ensures { (M : K → ℕ) (a : Arrival) (limit : ℕ) (old new : Table (TlsAnalysis K))
        (before after : Option (List (Connection (TlsAnalysis K))))
        (processes : Processes M a limit old new before after) (e : FiveTuple)
        (c : Connection (TlsAnalysis K)) → at e old.live ≡ Some c
        → time_of a ≤ c.last_time + IDLE_LIMIT → length old.live ≤ MAX_CONNECTIONS
        → at e processes.awake.live ≡ Some c }
{}

/// Where times don't run back, the connections stay in the order of their last packets, and each
/// that is idle is over before an arrival is accepted. This is where no limit is reached.
pub fn connections_stay_in_the_order_of_their_packets<K>()
    ensures order { (M : K → ℕ) (a : Arrival) (limit : ℕ) (old new : Table (TlsAnalysis K))
        (before after : Option (List (Connection (TlsAnalysis K))))
        (processes : Processes M a limit old new before after) (time : ℕ) → HasRoom processes
        → time ≤ time_of a → Distinct old.live → InTime time old.live
        → Distinct new.live × InTime (time_of a) new.live }
    ensures idle { (M : K → ℕ) (a : Arrival) (limit : ℕ) (old new : Table (TlsAnalysis K))
        (before after : Option (List (Connection (TlsAnalysis K))))
        (processes : Processes M a limit old new before after) (time : ℕ)
        → Distinct old.live → InTime time old.live → (e : FiveTuple)
        (c : Connection (TlsAnalysis K)) → at e processes.awake.live ≡ Some c
        → time_of a ≤ c.last_time + IDLE_LIMIT }
{}

/// What comes out under a five-tuple follows from its own arrivals, whatever comes between them, if
/// each connection behaves by itself: two runs with the same arrivals of it have the same.
pub fn connections_follow_from_their_own_arrivals<K, V, A>()
    ensures { (b : Behavior K V A) (M : K → ℕ) (one other : PlainRun b M) (e : FiveTuple)
        → own b e (arrivals_in b one) ≡ own b e (arrivals_in b other)
        → views b e (log_of one.run) ≡ views b e (log_of other.run) }
{}

/// The parts share the connections out. A run over the arrivals of a part has the same connections
/// of that part as the whole run, and none of others. This is where times don't run back, no limit
/// is reached, and each connection behaves by itself.
pub fn parts_share_the_connections_out<K, V, A>()
    ensures its { (b : Behavior K V A) (M : K → ℕ) (part : Part) (whole mine : PlainRun b M)
        (e : FiveTuple) → arrivals_in b mine ≡ of_part b part (arrivals_in b whole)
        → is_of_part part e ≡ true
        → views b e (log_of mine.run) ≡ views b e (log_of whole.run) }
    ensures others { (b : Behavior K V A) (M : K → ℕ) (part : Part) (whole mine : PlainRun b M)
        (e : FiveTuple) → arrivals_in b mine ≡ of_part b part (arrivals_in b whole)
        → is_of_part part e ≡ false → views b e (log_of mine.run) ≡ [] }
{}
