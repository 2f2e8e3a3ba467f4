//! What the tables say together.
ghost use Rattle.std.specs.Prelude.{◌≡◌, ◌≢◌, ◌⊎◌};
ghost use Rattle.dccp_packets.specs.declared.header.PacketType.{PacketType};
ghost use Rattle.dccp_states.specs.declared.phase.Phase.{Phase};
ghost use Rattle.dccp_states.specs.declared.reply.Reply.{Reply};
ghost use Rattle.dccp_states.specs.Phases.{after};

/// A Reset that an end takes leads to TIMEWAIT from every phase, and no Reset answers it.
pub fn a_reset_tears_every_phase_down()
    ensures { (phase : Phase) → after phase PacketType.Reset ≡ (Phase.TimeWait, Reply.Torn) }
{}

/// A connection becomes open only from RESPOND or PARTOPEN.
pub fn opens_from_respond_and_part_open_alone()
    ensures { (phase : Phase) (kind : PacketType) → phase ≢ Phase.Open → (after phase kind).0 ≡ Phase.Open
        → (phase ≡ Phase.Respond) ⊎ (phase ≡ Phase.PartOpen) }
{}

/// If a packet of a type other than Reset is not answered, the phase is unchanged, or PARTOPEN becomes OPEN.
pub fn what_stays_silent_stays()
    ensures { (phase : Phase) (kind : PacketType) → (after phase kind).1 ≡ Reply.Nothing
        → ((after phase kind).0 ≡ phase) ⊎ (((after phase kind).0 ≡ Phase.Open) × (phase ≡ Phase.PartOpen)) }
{}
