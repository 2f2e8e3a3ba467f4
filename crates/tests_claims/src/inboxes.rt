//! What a caller can rely on for an inbox, and for two ends with inboxes.
ghost use Rattle.std.specs.Prelude.{◌≡◌, ◌<◌, ◌≤◌, ◌^◌, ◌-◌, ◌++◌, ◌∷◌, ℕ, List, [], IsTrue, None, Ok, Some, Contains, drop, length, slice_get, take};
ghost use Rattle.std.specs.List.{list_any};
ghost use Rattle.data_dropped.specs.Buffering.{buffers};
ghost use Rattle.data_dropped.specs.Drops.{HaveCodes, code_at, drop_bytes, drop_code, tells_all};
ghost use Rattle.data_dropped.specs.EndHistory.{BufferedPast, EndReceives, buffered_now, past_after};
ghost use Rattle.data_dropped.specs.Frames.{acknowledged_by};
ghost use Rattle.data_dropped.specs.History.{InboxCall, history_after_all, is_stop, no_history};
ghost use Rattle.data_dropped.specs.Inbox.{InboxState};
ghost use Rattle.data_dropped.specs.Telling.{TellsItsDrops, options_in_packet, report_in_packet};
ghost use Rattle.data_dropped.specs.declared.answers.Arrival.TheVariants as arrivals;
ghost use Rattle.data_dropped.specs.declared.drops.DropEntry.{DropEntry};
ghost use Rattle.dccp_endpoint.specs.End.{EndState, last_taken};
ghost use Rattle.dccp_endpoint.specs.Receiving.{receives};
ghost use Rattle.dccp_options.specs.Vectors.{VectorReport, report_of, state_at};
ghost use Rattle.dccp_states.specs.declared.outcome.Outcome.TheVariants as outcomes;
ghost use Rattle.dccp_states.specs.declared.outcome.Why.{Why};
ghost use Rattle.dccp_packets.specs.Grammar.{Parts, decoded};
ghost use Rattle.dccp_packets.specs.Outgoing.{Outgoing};
ghost use Rattle.dccp_sum.specs.declared.pseudo_header.Pseudo.{Pseudo};
ghost use Rattle.seq_circle.specs.Circle.{distance};
ghost use Rattle.tests_claims.specs.Inboxed.{ReachedWithInboxes};
ghost use Rattle.two_ends.specs.Reported.{processed_by};
ghost use Rattle.two_ends.specs.Safe.{Safe};
ghost use Rattle.two_ends.specs.World.{half_of};
ghost use Rattle.two_ends.specs.declared.frames.SentFrame.{SentFrame};
ghost use Rattle.two_inboxes.specs.Apart.{data_numbers};
ghost use Rattle.two_inboxes.specs.Inboxes.{InboxPair, inbox_at};
ghost use Rattle.world_events.specs.declared.event.Side.{Side};

use congestion_trait::Congestion;
use data_dropped::{
    a_frame_is_read_as_its_drops, a_report_of_drops_reads_back, what_an_end_keeps_is_taken,
    what_is_kept_is_taken,
};
use two_ends::every_run_is_safe;
use two_inboxes::{
    ends_with_inboxes_run_as_alone, frames_tell_of_what_was_taken, longer_frames_are_taken_alike,
};

/// After any calls of an inbox, the first of the data that were kept were taken, and it holds the others (`taken`,
/// `held`). It never holds more than it may (`within`). It is stopped exactly if a call stopped it (`stopped`), and the
/// drops that it reports are the last 2,048 (`drops`).
pub fn an_inbox_hands_over_what_it_kept()
    ensures taken { (capacity : ℕ) (calls : List InboxCall) → take (length (history_after_all (no_history capacity) calls).taken)
        (history_after_all (no_history capacity) calls).kept ≡ (history_after_all (no_history capacity) calls).taken }
    ensures held { (capacity : ℕ) (calls : List InboxCall) → drop (length (history_after_all (no_history capacity) calls).taken)
        (history_after_all (no_history capacity) calls).kept ≡ (history_after_all (no_history capacity) calls).held.items }
    ensures within { (capacity : ℕ) (calls : List InboxCall) → capacity < length (history_after_all (no_history capacity) calls).held.items → ⊥ }
    ensures stopped { (capacity : ℕ) (calls : List InboxCall) → (history_after_all (no_history capacity) calls).held.stopped ≡ list_any is_stop calls }
    ensures drops { (capacity : ℕ) (calls : List InboxCall) → (history_after_all (no_history capacity) calls).held.drops
        ≡ drop (length (history_after_all (no_history capacity) calls).dropped - 2048) (history_after_all (no_history capacity) calls).dropped }
{
    what_is_kept_is_taken();
}

/// What an end with an inbox says of the data of a packet is what became of them: it kept them under the packet's
/// number, or dropped them with that code (`kept`, `dropped`).
pub fn an_end_says_what_became_of_data<C: Congestion>()
    ensures kept { (p : BufferedPast C) (bytes : List ℕ) → (buffers C.control (buffered_now p) bytes).arrival ≡ Some arrivals.Kept
        → (payload : List ℕ) × ((past_after C.control p (EndReceives bytes)).past.kept
        ≡ p.past.kept ++ record { number = last_taken (receives p.end.state bytes).after; payload = payload } ∷ []) }
    ensures dropped { (p : BufferedPast C) (bytes : List ℕ) (code : ℕ) → (buffers C.control (buffered_now p) bytes).arrival ≡ Some (arrivals.Dropped code)
        → (past_after C.control p (EndReceives bytes)).past.dropped
        ≡ p.past.dropped ++ record { number = last_taken (receives p.end.state bytes).after; code = code } ∷ [] }
{
    what_an_end_keeps_is_taken::<C>();
}

/// What is read of the drops in a frame of an end with an inbox: only codes of data that were dropped, and, if the
/// report is whole, that of each drop among the 2,048 numbers from the acknowledgement number down (`only`, `all`).
pub fn a_frame_tells_the_drops()
    ensures only { (pseudo : Pseudo) (held : InboxState) (own frame : Outgoing) (tells : TellsItsDrops pseudo held own frame) (ack n code : ℕ) (r : VectorReport)
        → acknowledged_by frame.ack tells.packet.header.kind ≡ Some ack → report_in_packet ack tells.packet ≡ Some r → HaveCodes held.drops
        → ack < 2 ^ 48 → n < 2 ^ 48 → drop_code held.drops n ≡ None → code_at r.ack r.bytes n ≡ Some code → ⊥ }
    ensures all { (pseudo : Pseudo) (held : InboxState) (own frame : Outgoing) (tells : TellsItsDrops pseudo held own frame) (ack n code : ℕ) (r : VectorReport)
        → acknowledged_by frame.ack tells.packet.header.kind ≡ Some ack → report_in_packet ack tells.packet ≡ Some r → HaveCodes held.drops
        → ack < 2 ^ 48 → n < 2 ^ 48 → IsTrue (tells_all held.drops ack) → distance n ack ≤ 2047 → drop_code held.drops n ≡ Some code
        → code_at r.ack r.bytes n ≡ Some code }
{
    a_frame_is_read_as_its_drops();
}

/// In a report of drops a number has a code only if its data were dropped with that code (`only`). If the report is
/// whole, each drop among the 2,048 numbers from its acknowledgement number down is in it (`all`). It fits in one
/// option (`fits`).
pub fn a_report_tells_the_drops()
    ensures only { (drops : List DropEntry) (ack n code : ℕ) → HaveCodes drops → ack < 2 ^ 48 → n < 2 ^ 48 → drop_code drops n ≡ None
        → code_at ack (drop_bytes drops ack) n ≡ Some code → ⊥ }
    ensures all { (drops : List DropEntry) (ack n code : ℕ) → HaveCodes drops → ack < 2 ^ 48 → n < 2 ^ 48 → IsTrue (tells_all drops ack)
        → distance n ack ≤ 2047 → drop_code drops n ≡ Some code → code_at ack (drop_bytes drops ack) n ≡ Some code }
    ensures fits { (drops : List DropEntry) (ack : ℕ) → 253 < length (drop_bytes drops ack) → ⊥ }
{
    a_report_of_drops_reads_back();
}

/// An end that takes a frame that an inbox has lengthened changes as if it took the frame as it was, and answers with
/// the same frame (`alike`, `answered`). It drops one exactly if it drops the other (`dropped`), and takes data of both
/// or of none (`quiet`, `delivered`).
pub fn longer_frames_are_taken_as_shorter_ones()
    ensures alike { (e : EndState) (held : InboxState) (own frame : Outgoing) → TellsItsDrops e.config.pseudo_in held own frame
        → (receives e frame.bytes).after ≡ (receives e own.bytes).after }
    ensures answered { (e : EndState) (held : InboxState) (own frame : Outgoing) → TellsItsDrops e.config.pseudo_in held own frame
        → (receives e frame.bytes).frame ≡ (receives e own.bytes).frame }
    ensures dropped { (e : EndState) (held : InboxState) (own frame : Outgoing) (why : Why) → TellsItsDrops e.config.pseudo_in held own frame
        → (receives e own.bytes).answer ≡ outcomes.Dropped why → (receives e frame.bytes).answer ≡ outcomes.Dropped why }
    ensures quiet { (e : EndState) (held : InboxState) (own frame : Outgoing) → TellsItsDrops e.config.pseudo_in held own frame
        → (receives e own.bytes).answer ≡ outcomes.Took None → (receives e frame.bytes).answer ≡ outcomes.Took None }
    ensures delivered { (e : EndState) (held : InboxState) (own frame : Outgoing) (place : ℕ × ℕ) → TellsItsDrops e.config.pseudo_in held own frame
        → (receives e own.bytes).answer ≡ outcomes.Took (Some place)
        → (other : ℕ × ℕ) × ((receives e frame.bytes).answer ≡ outcomes.Took (Some other)) }
{
    longer_frames_are_taken_alike();
}

/// After every schedule two ends with inboxes are safe, as two ends without inboxes are.
pub fn ends_with_inboxes_are_safe<C: Congestion>()
    ensures { (w : InboxPair C) → ReachedWithInboxes C.control w → Safe C.control w.ends }
{
    every_run_is_safe::<C>();
    ends_with_inboxes_run_as_alone::<C>();
}

/// What an application took was processed (`processed`). No frame reports it as dropped, whenever that frame went out
/// (`dropped`), and no frame that went out after it was processed says that it is missing (`missing`).
pub fn frames_are_true_of_what_was_taken<C: Congestion>()
    ensures processed { (w : InboxPair C) → ReachedWithInboxes C.control w → (side : Side) (n : ℕ)
        → Contains (data_numbers (inbox_at w side).past.taken) n → Contains (half_of w.ends.world side).processed n }
    ensures dropped { (w : InboxPair C) → ReachedWithInboxes C.control w → (side : Side) (index ack n code : ℕ) (frame : SentFrame) (bytes : List ℕ)
        (packet : Parts) (report : VectorReport) → slice_get (half_of w.ends.world side).frames index ≡ Some frame → slice_get (inbox_at w side).said index ≡ Some bytes
        → decoded bytes ≡ Ok packet → frame.ack ≡ Some ack → ack < 2 ^ 48 → report_in_packet ack packet ≡ Some report → n < 2 ^ 48
        → code_at report.ack report.bytes n ≡ Some code → Contains (data_numbers (inbox_at w side).past.taken) n → ⊥ }
    ensures missing { (w : InboxPair C) → ReachedWithInboxes C.control w → (side : Side) (index ack n : ℕ) (frame : SentFrame) (bytes : List ℕ)
        (packet : Parts) (report : VectorReport) → slice_get (half_of w.ends.world side).frames index ≡ Some frame → slice_get (inbox_at w side).said index ≡ Some bytes
        → decoded bytes ≡ Ok packet → frame.ack ≡ Some ack → ack < 2 ^ 48 → report_of ack (options_in_packet packet) ≡ Some report
        → frame.floor < 2 ^ 48 → n < 2 ^ 48 → Contains (data_numbers (inbox_at w side).past.taken) n
        → Contains (processed_by (half_of w.ends.world side) frame) n → state_at report.ack report.bytes n ≡ Some 3 → ⊥ }
{
    every_run_is_safe::<C>();
    frames_tell_of_what_was_taken::<C>();
}
