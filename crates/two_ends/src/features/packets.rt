//! A newest packet and the frame of the same step are moves of each row.
ghost use Rattle.std.specs.Prelude.{◌≡◌, ◌≢◌, ℕ, ◌^◌, ◌<◌, Bool, None, List, length};
ghost use Rattle.feature_machine.specs.Rows.{RowEvent, Offers, Opens, row_step};
ghost use Rattle.feature_machine.specs.Sound.{IsSoundRow, IsSameRow};
ghost use Rattle.feature_machine.specs.Turns.{row_turned, reply_due};
ghost use Rattle.feature_machine.specs.declared.row.Row.{Row};
ghost use Rattle.feature_machine.specs.declared.stands.Stand.TheVariants.{Stable};
ghost use Rattle.two_ends.specs.FeatureView.{FeatureNews, with_frame};
ghost use Rattle.two_ends.specs.FeaturePackets.{IsHeardOf, IsRowPacket, LeadsTo, RowPacket, carried_reply, row_after};
ghost use Rattle.two_ends.specs.FeatureRows.{IsBegun, side_of, after_sending};

/// A newest packet is taken, from which the row hears nothing, a valid Change or a whole Confirm, and the end sends a
/// frame in the same step, or none. Together these are moves of the row, whatever it does with what it heard.
///
/// `replied`: the frame has the Confirm that is due, or nothing for the feature if none is. `silent`: there is no
/// frame, and no Confirm is due. `asks`: none is due and the frame has the row's Change. `offers`: none is due, the
/// row's offer opens and the frame has its Change.
pub fn taking_a_packet_is_moves()
    ensures replied { (packet : RowPacket) → IsRowPacket packet → LeadsTo packet
        (side_of packet.iss (row_after packet) packet.count
        (with_frame packet.frames (carried_reply packet.row.feature packet.count (reply_due packet.row packet.events)))) }
    ensures silent { (packet : RowPacket) → IsRowPacket packet → reply_due packet.row packet.events ≡ None
        → LeadsTo packet (side_of packet.iss (row_after packet) packet.count packet.frames) }
    ensures asks { (packet : RowPacket) → packet.iss < 2 ^ 48 → length packet.frames < 2 ^ 47
        → IsRowPacket packet → reply_due packet.row packet.events ≡ None → (row_after packet).stand ≢ Stable
        → LeadsTo packet (after_sending packet.iss (row_after packet) packet.count packet.frames) }
    ensures offers { (packet : RowPacket) (confirmed : Bool) → packet.iss < 2 ^ 48 → length packet.frames < 2 ^ 47
        → IsRowPacket packet → reply_due packet.row packet.events ≡ None
        → (row_step (row_after packet) (Offers confirmed)).answer ≡ Opens
        → LeadsTo packet (after_sending packet.iss (row_step (row_after packet) (Offers confirmed)).row packet.count packet.frames) }
{}

/// After what a row hears of a packet it is the same row, it is sound, and its last opening is one of its end's frames.
pub fn hearing_keeps_a_row()
    ensures same { (iss count : ℕ) (row : Row) (there : List FeatureNews) (events : List RowEvent)
        → IsHeardOf iss row there count events → IsSameRow row (row_turned row events) }
    ensures sound { (iss count : ℕ) (row : Row) (there : List FeatureNews) (events : List RowEvent)
        → IsHeardOf iss row there count events → IsSoundRow row → IsSoundRow (row_turned row events) }
    ensures begun { (iss count : ℕ) (row : Row) (there : List FeatureNews) (events : List RowEvent)
        → IsHeardOf iss row there count events → IsBegun iss row → IsBegun iss (row_turned row events) }
{}
