//! What the definitions mean.
ghost use Rattle.std.specs.Prelude.{◌≡◌, ℕ, ◌^◌, ◌<◌, ◌≤◌, ◌==◌, nat_lt, List, [], ◌∷◌, ◌++◌, IsTrue, Some, None, length, if◌then◌else◌};
ghost use Rattle.std.specs.List.{list_any};
ghost use Rattle.seq_circle.specs.Circle.{distance};
ghost use Rattle.dccp_options.specs.Vectors.{VectorReport};
ghost use Rattle.dccp_sum.specs.declared.pseudo_header.Pseudo.{Pseudo};
ghost use Rattle.dccp_endpoint.specs.End.{IsProper, last_taken};
ghost use Rattle.dccp_endpoint.specs.Receiving.{receives};
ghost use Rattle.dccp_endpoint.specs.declared.config.Config.{Config};
ghost use Rattle.dccp_endpoint.specs.Controlled.{with_control};
ghost use Rattle.dccp_endpoint.specs.Inputs.{Input, end_stepped};
ghost use Rattle.dccp_packets.specs.Outgoing.{Outgoing};
ghost use Rattle.data_dropped.specs.Buffering.{BufferedState, beside, buffers};
ghost use Rattle.data_dropped.specs.Drops.{HaveCodes, code_at, drop_bytes, drop_code, numbers_reached, tells_all};
ghost use Rattle.data_dropped.specs.EndHistory.{BufferedPast, EndCall, EndReceives, IsToldSo, buffered_now, is_end_stop, no_past, past_after, past_all};
ghost use Rattle.data_dropped.specs.Frames.{acknowledged_by};
ghost use Rattle.data_dropped.specs.History.{InboxCall, IsAccounted, history_after_all, is_stop, no_history};
ghost use Rattle.data_dropped.specs.Inbox.{InboxState};
ghost use Rattle.data_dropped.specs.Telling.{FrameTells, IsReadAsDrops, TellsItsDrops, report_in_packet};
ghost use Rattle.data_dropped.specs.declared.drops.DropEntry.{DropEntry};

use congestion_trait::Congestion;

/// Of several drops of a number the latest counts (own).
pub fn the_latest_drop_counts()
    ensures { (drops : List DropEntry) (d : DropEntry) (n : ℕ)
        → drop_code (drops ++ d ∷ []) n ≡ (if d.number == n then Some d.code else drop_code drops n) }
{}

/// A report of drops reads back: each number that it reaches has the code that was reported, if one was, and no number
/// below has one (`codes`). So a code of a number is read only if it is that number's (`only`); and if nothing was cut
/// off, every number of the 2,048 from the acknowledgement number down has its code (`all`; RFC 4340, section 11.7). It
/// reaches no further (`within`), and fits one option (`fits`; section 5.8).
pub fn a_report_of_drops_reads_back()
    ensures codes { (drops : List DropEntry) (ack n : ℕ) → HaveCodes drops → ack < 2 ^ 48 → n < 2 ^ 48
        → code_at ack (drop_bytes drops ack) n ≡ (if nat_lt (distance n ack) (numbers_reached drops ack) then drop_code drops n else None) }
    ensures only { (drops : List DropEntry) (ack n code : ℕ) → HaveCodes drops → ack < 2 ^ 48 → n < 2 ^ 48
        → code_at ack (drop_bytes drops ack) n ≡ Some code → drop_code drops n ≡ Some code }
    ensures all { (drops : List DropEntry) (ack n : ℕ) → HaveCodes drops → ack < 2 ^ 48 → n < 2 ^ 48
        → IsTrue (tells_all drops ack)
        → distance n ack < 2048 → code_at ack (drop_bytes drops ack) n ≡ drop_code drops n }
    ensures within { (drops : List DropEntry) (ack : ℕ) → HaveCodes drops → numbers_reached drops ack ≤ 2048 }
    ensures fits { (drops : List DropEntry) (ack : ℕ) → length (drop_bytes drops ack) ≤ 253 }
{}

/// Over every list of calls of an inbox, what was taken, followed by what is held, is what was kept: whole, once and in
/// order. No more is held than the capacity. The inbox is stopped exactly if a call stopped it. The drops that count
/// are the last 2,048 of all, each with a Drop Code of three bits (own).
pub fn what_is_kept_is_taken()
    ensures accounted { (capacity : ℕ) (calls : List InboxCall)
        → IsAccounted capacity (list_any is_stop calls) (history_after_all (no_history capacity) calls) }
    ensures codes { (capacity : ℕ) (calls : List InboxCall)
        → HaveCodes (history_after_all (no_history capacity) calls).held.drops }
{}

/// The same over every list of calls of an end with an inbox, whose packets are calls of its inbox if they deliver data
/// (`received`). What the end says about these data is what became of them (`told`).
pub fn what_an_end_keeps_is_taken<C: Congestion>()
    ensures received { (p : BufferedPast C) (bytes : List ℕ)
        → (buffers C.control (buffered_now p) bytes).after ≡ buffered_now (past_after C.control p (EndReceives bytes)) }
    ensures told { (p : BufferedPast C) (bytes : List ℕ)
        → IsToldSo (last_taken (receives p.end.state bytes).after) (buffers C.control (buffered_now p) bytes).arrival p.past (past_after C.control p (EndReceives bytes)).past }
    ensures accounted { (config : Config) (congestion : C) (capacity : ℕ) (calls : List EndCall)
        → IsAccounted capacity (list_any is_end_stop calls) (past_all C.control (no_past C.control config congestion capacity) calls).past }
    ensures codes { (config : Config) (congestion : C) (capacity : ℕ) (calls : List EndCall)
        → HaveCodes (past_all C.control (no_past C.control config congestion capacity) calls).past.held.drops }
{}

/// Each frame of an end with an inbox reports its drops. It is a packet, its checksum is right, and its numbers are the
/// end's. Besides the end's own options, its Data Dropped options are just the report of the inbox after the step, at
/// the number that it acknowledges, if that report has a byte and the packet has room for it; no other frame has one
/// (own; RFC 4340, section 11.7). This holds for every input of an end with any inbox (`calls`), and for bytes that
/// arrive, whose data go into the inbox (`tells`). If the end sends nothing, nothing goes out.
pub fn every_frame_tells_its_drops<C: Congestion>()
    ensures calls { (b : BufferedState C) (given : Input) (own : Outgoing) → IsProper b.end.state
        → (end_stepped b.end.state given).frame ≡ Some own
        → FrameTells (end_stepped b.end.state given).after.config.pseudo_out b.inbox own
        (beside b.inbox (with_control C.control b.end.congestion (end_stepped b.end.state given))).frame }
    ensures tells { (b : BufferedState C) (bytes : List ℕ) (own : Outgoing) → IsProper b.end.state
        → (receives b.end.state bytes).frame ≡ Some own
        → FrameTells (buffers C.control b bytes).after.end.state.config.pseudo_out (buffers C.control b bytes).after.inbox own (buffers C.control b bytes).frame }
    ensures silent { (b : BufferedState C) (bytes : List ℕ) → (receives b.end.state bytes).frame ≡ None
        → (buffers C.control b bytes).frame ≡ None }
{}

/// What is read from such a frame: a code of a number only if it is that number's, and every code if nothing was cut
/// off.
pub fn a_frame_is_read_as_its_drops()
    ensures { (pseudo : Pseudo) (held : InboxState) (own frame : Outgoing) (tells : TellsItsDrops pseudo held own frame) (ack : ℕ) (r : VectorReport)
        → acknowledged_by frame.ack tells.packet.header.kind ≡ Some ack → report_in_packet ack tells.packet ≡ Some r → HaveCodes held.drops → ack < 2 ^ 48
        → IsReadAsDrops held ack r }
{}
