//! The laws on a connection's two sides.
ghost use Rattle.std.specs.Prelude.{◌≡◌, ℕ, List, true};
ghost use Rattle.two_ends.specs.MarkView.{MarkFrame, MarkSide};
ghost use Rattle.two_ends.specs.MarkMoves.{MarkMoves, unmoved_side, AreReachable};
ghost use Rattle.two_ends.specs.MarkFacts.{AreSoundNumbers, IsHeeded};
ghost use Rattle.two_ends.specs.MarkLaws.{ArePlaces, ProcessesOnce, IsTruthful, IsTold, IsToldAlone, IsHeard};
ghost use Rattle.two_ends.specs.MarkExchange.{server_exchanged, client_exchanged};

/// Two sides are reachable at the start, and after each step of either that is a list of moves.
pub fn marking_stays_reachable()
    ensures joined { (there : List MarkFrame) (before middle after : MarkSide)
        → MarkMoves there before middle → MarkMoves there middle after → MarkMoves there before after }
    ensures start { AreReachable unmoved_side unmoved_side }
    ensures server_step { (server client after : MarkSide)
        → MarkMoves client.frames server after → AreReachable server client → AreReachable after client }
    ensures client_step { (server client after : MarkSide)
        → MarkMoves server.frames client after → AreReachable server client → AreReachable server after }
{}

/// Each side processes a frame once, and only if the other sent it. A frame's place is its position among those that
/// the side processed.
pub fn each_frame_is_processed_once()
    ensures servers { (server client : MarkSide) → AreReachable server client → ProcessesOnce server client.frames }
    ensures clients { (server client : MarkSide) → AreReachable server client → ProcessesOnce client server.frames }
    ensures servers_places { (server client : MarkSide) → AreReachable server client → ArePlaces server }
    ensures clients_places { (server client : MarkSide) → AreReachable server client → ArePlaces client }
{}

/// Each Ack Vector that was ever sent says just what its sender had processed (RFC 4340, section 11.4).
pub fn vectors_are_truthful()
    ensures servers { (server client : MarkSide) → AreReachable server client → IsTruthful server }
    ensures clients { (server client : MarkSide) → AreReachable server client → IsTruthful client }
{}

/// What falls below a side's floor lies more than 2,047 below a frame that it processed, or a whole vector reported it
/// to the peer (own; RFC 4340, section 11.4.2, lets a receiver forget what was acknowledged). For a side that sent no
/// vector, only the first is possible (`servers_alone`, `clients_alone`).
pub fn what_falls_below_the_floor_is_settled()
    ensures servers { (server client : MarkSide) → AreReachable server client → IsTold server client }
    ensures clients { (server client : MarkSide) → AreReachable server client → IsTold client server }
    ensures servers_alone { (server client : MarkSide) → AreReachable server client → IsToldAlone server }
    ensures clients_alone { (server client : MarkSide) → AreReachable server client → IsToldAlone client }
{}

/// What a side believes received, the other side processed.
pub fn what_is_reported_was_processed()
    ensures servers { (server client : MarkSide) → AreReachable server client → IsHeard server client }
    ensures clients { (server client : MarkSide) → AreReachable server client → IsHeard client server }
{}

/// A side's marks are what it processed, from its floor up, and none is above the greatest frame that it took. Before
/// the first one it has none and has sent no Ack.
pub fn marks_are_what_was_processed()
    ensures servers { (server client : MarkSide) → AreReachable server client → AreSoundNumbers server client.frames }
    ensures clients { (server client : MarkSide) → AreReachable server client → AreSoundNumbers client server.frames }
{}

/// An Ack or DataAck acknowledges a frame that its sender took, and processed if that is an Ack or DataAck itself. So
/// was the greatest frame that a side took, while its phase is not CLOSED.
pub fn acknowledged_frames_were_taken()
    ensures servers { (server client : MarkSide) → AreReachable server client → IsHeeded server client.frames }
    ensures clients { (server client : MarkSide) → AreReachable server client → IsHeeded client server.frames }
{}

/// Vectors do raise floors: a whole vector is heard, its frame is acknowledged, and the server's floor passes the two
/// frames that it reported. The client has learned that its Ack was received. This shows that the laws above are not
/// empty.
pub fn exchanges_tell()
    ensures reached { AreReachable server_exchanged client_exchanged }
    ensures first { server_exchanged.first ≡ 1 }
    ensures floor { server_exchanged.floor ≡ 3 }
    ensures reported { client_exchanged.reported 2 ≡ true }
{}
