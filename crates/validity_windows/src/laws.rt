//! What the windows and the verdict mean in whole numbers.
ghost use Rattle.std.specs.Prelude.{◌≡◌, ◌≢◌, ℕ, ◌+◌, ◌-◌, ◌*◌, ◌/◌, ◌^◌, ◌<◌, ◌≤◌, ◌↔◌, max, Option};
ghost use Rattle.seq_circle.specs.Circle.{residue, open_end, IsWithin};
ghost use Rattle.dccp_packets.specs.declared.header.PacketType.{PacketType};
ghost use Rattle.validity_windows.specs.declared.marks.Marks.{Marks};
ghost use Rattle.validity_windows.specs.declared.verdict.Verdict.TheVariants as verdicts;
ghost use Rattle.validity_windows.specs.Windows.{InRange, sequence_low, sequence_high, ack_low, ack_high};
ghost use Rattle.validity_windows.specs.Verdict.{verdict, taken};
ghost use Rattle.validity_windows.specs.Beginning.{AreSoundMarks, AreNumbers, new_marks, begun};
ghost use Rattle.validity_windows.specs.Whole.{residues, IsWhole, unrolled, residue_of, HasValidNumbers, refusal, IsAckOfTurn, AckLies, whole_ack_low, whole_taken, whole_begun};

/// If each end has used fewer than 2^47 numbers since its first, the windows are intervals of whole numbers. Every
/// number of the circle is counted on from the first, within one turn. Just those between the two ends lie in a window
/// (RFC 4340, section 7.5.1). Just those after GSR and up to SWH are valid on what ends a connection, and just those
/// from GAR to AWH are acknowledged by it. Just those from SWL on, fewer than 2^47 of them, are valid on Sync and
/// SyncAck (section 7.5.3). So the wrap of the circle does not matter.
pub fn windows_are_intervals_of_counts()
    ensures sequence { (m : Marks) (isr gsr n : ℕ) → InRange m → m.isr ≡ residue isr → m.gsr ≡ residue gsr
        → isr ≤ gsr → gsr < isr + 2 ^ 47 → isr ≤ n → n < isr + 2 ^ 48
        → IsWithin (residue n) (sequence_low m) (sequence_high m)
        ↔ ((max (gsr + 1 - m.peer_w / 4) isr ≤ n) × (n ≤ gsr + (3 * m.peer_w + 3) / 4)) }
    ensures acknowledgement { (m : Marks) (iss gss n : ℕ) → InRange m → m.iss ≡ residue iss → m.gss ≡ residue gss
        → iss ≤ gss → gss < iss + 2 ^ 47 → iss ≤ n → n < iss + 2 ^ 48
        → IsWithin (residue n) (ack_low m) (ack_high m) ↔ ((max (gss + 1 - m.own_w) iss ≤ n) × (n ≤ gss)) }
    ensures after_greatest { (m : Marks) (isr gsr n : ℕ) → InRange m → m.gsr ≡ residue gsr
        → isr ≤ gsr → gsr < isr + 2 ^ 47 → isr ≤ n → n < isr + 2 ^ 48
        → IsWithin (residue n) (residue (m.gsr + 1)) (sequence_high m) ↔ ((gsr < n) × (n ≤ gsr + (3 * m.peer_w + 3) / 4)) }
    ensures from_greatest_acknowledged { (m : Marks) (iss gar gss n : ℕ) → m.gar ≡ residue gar → m.gss ≡ residue gss
        → iss ≤ gar → gar ≤ gss → gss < iss + 2 ^ 47 → iss ≤ n → n < iss + 2 ^ 48
        → IsWithin (residue n) m.gar (ack_high m) ↔ ((gar ≤ n) × (n ≤ gss)) }
    ensures no_upper_end { (m : Marks) (isr gsr n : ℕ) → InRange m → m.isr ≡ residue isr → m.gsr ≡ residue gsr
        → isr ≤ gsr → gsr < isr + 2 ^ 47 → isr ≤ n → n < isr + 2 ^ 48
        → IsWithin (residue n) (sequence_low m) (open_end (sequence_low m))
        ↔ ((max (gsr + 1 - m.peer_w / 4) isr ≤ n) × (n < max (gsr + 1 - m.peer_w / 4) isr + 2 ^ 47)) }
{}

/// The table of RFC 4340, section 7.5.3, over whole numbers: for sound marks a packet is valid exactly if its numbers
/// lie in the intervals of the plain order (`valid`), and what is not valid is answered as the table says
/// (`otherwise`). Each number of a packet is the residue of just one whole number within one turn from the first on, so
/// no packet is left out.
pub fn verdicts_are_those_of_whole_numbers()
    ensures valid { (w : Marks) (kind : PacketType) (n : ℕ) (ack : Option ℕ) → IsWhole w → InRange w → w.isr ≤ n
        → n < w.isr + 2 ^ 48
        → IsAckOfTurn w.iss ack → (verdict (residues w) kind (residue n) (residue_of ack) ≡ verdicts.Valid) ↔ HasValidNumbers w kind n ack }
    ensures otherwise { (m : Marks) (kind : PacketType) (number : ℕ) (ack : Option ℕ)
        → verdict m kind number ack ≢ verdicts.Valid
        → verdict m kind number ack ≡ refusal m kind number }
{}

/// Sound marks are the residues of whole ones, counted on from the first number of each end (`whole`, `same`), and the
/// residues of whole marks are sound (`sound`).
pub fn sound_marks_are_whole_numbers()
    ensures whole { (m : Marks) → AreSoundMarks m → AreNumbers m → IsWhole (unrolled m) }
    ensures same { (m : Marks) → AreNumbers m → residues (unrolled m) ≡ m }
    ensures sound { (w : Marks) → IsWhole w → AreSoundMarks (residues w) }
{}

/// If a valid packet's number is one of the first 2^47 of its sender, what it raises is a maximum of whole numbers
/// (`raised`), and the marks are whole ones again (`taken`). The first packet received does the same if it acknowledges
/// AWL to AWH (`begun`, `first`). So sound marks stay so, and they are sound from the first packet sent on (`sent`).
pub fn marks_stay_sound()
    ensures raised { (w : Marks) (kind : PacketType) (n : ℕ) (ack : Option ℕ) → IsWhole w → w.isr ≤ n
        → n < w.isr + 2 ^ 47
        → HasValidNumbers w kind n ack → taken (residues w) kind (residue n) (residue_of ack) ≡ residues (whole_taken w kind n ack) }
    ensures taken { (w : Marks) (kind : PacketType) (n : ℕ) (ack : Option ℕ) → IsWhole w → w.isr ≤ n
        → n < w.isr + 2 ^ 47
        → HasValidNumbers w kind n ack → IsWhole (whole_taken w kind n ack) }
    ensures begun { (w : Marks) (kind : PacketType) (n : ℕ) (ack : Option ℕ) → IsWhole w
        → AckLies (whole_ack_low w) w.gss ack
        → begun (residues w) kind (residue n) (residue_of ack) ≡ residues (whole_begun w kind n ack) }
    ensures first { (w : Marks) (kind : PacketType) (n : ℕ) (ack : Option ℕ) → IsWhole w
        → AckLies (whole_ack_low w) w.gss ack
        → IsWhole (whole_begun w kind n ack) }
    ensures sent { (iss width : ℕ) → iss < 2 ^ 48 → AreSoundMarks (record (new_marks iss width) { gss = iss }) }
{}
