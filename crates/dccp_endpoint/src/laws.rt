//! What holds of every end and of every frame, besides the contracts of the calls.
ghost use Rattle.std.specs.Prelude.{◌≡◌, ◌<◌, ◌^◌, ℕ, Bool, true};
ghost use Rattle.dccp_packets.specs.Forms.{may_be_short};
ghost use Rattle.dccp_packets.specs.Grammar.{KindFits, packet_type};
ghost use Rattle.dccp_packets.specs.Widths.{in_widths};
ghost use Rattle.dccp_endpoint.specs.declared.config.Config.{Config};
ghost use Rattle.dccp_endpoint.specs.Causes.{EveryStepHasOneEffect};
ghost use Rattle.dccp_endpoint.specs.Drafts.{Draft, Fits, IsSendable, ReadsAs, frame_of, own_header};
ghost use Rattle.dccp_endpoint.specs.InFull.{FramesAreReadInFull};
ghost use Rattle.dccp_endpoint.specs.NearWindows.{ValidNumbersAreNear};
ghost use Rattle.dccp_endpoint.specs.FirstFault.{ReadingGoesThrough, ReadingStopsAtTheFirstFault};
ghost use Rattle.dccp_endpoint.specs.Spelled.{FramesSpellWhatIsTold};
ghost use Rattle.dccp_endpoint.specs.Saying.{ConfirmsAreSingle, OwnPacketsSayOfARow, OwnPacketsSpeakOnce, RowsHearThePacket};

use validity_windows::verdicts_are_those_of_whole_numbers;

/// What an end writes is read as it was meant: each frame of a draft is a packet with the draft's type, options and
/// data under the end's ports and the number, with short numbers or with long ones, and its checksum is right (RFC
/// 4340, sections 5 and 9). If the fields of the configuration fit, it is read whole (`whole`). If numbers are too
/// large for their fields, their low bits are read, for any configuration (`in_widths`).
pub fn own_frames_are_read()
    ensures whole { (config : Config) (short : Bool) (number : ℕ) (draft : Draft) → Fits config → number < 2 ^ 48
        → KindFits draft.kind → IsSendable draft
        → (short ≡ true → may_be_short (packet_type draft.kind) ≡ true)
        → ReadsAs (own_header config short number draft.kind) config.pseudo_out draft (frame_of config short number draft) }
    ensures in_widths { (config : Config) (short : Bool) (number : ℕ) (draft : Draft) → IsSendable draft
        → (short ≡ true → may_be_short (packet_type draft.kind) ≡ true)
        → ReadsAs (in_widths (own_header config short number draft.kind)) config.pseudo_out draft (frame_of config short number draft) }
{}

/// An end reads from a frame of any end its type and its numbers in full, in whichever form they are (RFC 4340, section
/// 7.6). For a frame with short numbers, if they are taken, there is a premise: its number lies fewer than 2^23 from
/// GSR, and the one that it acknowledges fewer than 2^23 from GSS, up or down the circle.
pub fn frames_are_read_in_full()
    ensures { FramesAreReadInFull }
{}

/// If neither window is wider than the widest under which an end sends short numbers, every number that is valid on a
/// Data, an Ack or a DataAck lies fewer than 2^23 from GSR, and the one that it acknowledges fewer than 2^23 from GSS
/// (RFC 4340, sections 7.5.1 and 7.6; the width is own). So no packet that is in time is too far to be read.
pub fn valid_numbers_are_near()
    ensures { ValidNumbersAreNear }
{
    verdicts_are_those_of_whole_numbers();
}

/// Each step of an end has an effect, one for the whole step: a record of what becomes of each part of the end, of what
/// goes out, and why (own). The law says that there is one, and that the end after the step, its frame and its calls
/// are those of the effect. It does not say that there is no other such record. What two ends do to each other follows
/// from the effects of their steps.
pub fn every_step_has_one_effect()
    ensures { EveryStepHasOneEffect }
{}

/// The numbers that are returned with a frame are those that its bytes spell, over every step and every input: the
/// sequence number and the acknowledgement number, each in the width of the frame's form; and no acknowledgement number
/// is returned with a packet that has none (RFC 4340, sections 5.1 and 7.6).
pub fn told_numbers_are_spelled()
    ensures { FramesSpellWhatIsTold }
{}

/// The options of a packet are read in order, and the first that goes wrong is the fault: Mandatory with no option
/// after it, or with another Mandatory; an option that is not understood after Mandatory (RFC 4340, section 5.8.2); the
/// first Change for a feature by its letter, of the first 64 Changes, that its row cannot accept; or the first Confirm
/// for a feature by its letter that its row cannot accept (that only these count is own). All options before it were
/// read without a fault. If none goes wrong, they are read to their end.
pub fn reading_stops_at_the_first_fault()
    ensures stops { ReadingStopsAtTheFirstFault }
    ensures goes_through { ReadingGoesThrough }
{}

/// A packet of at most 64 Changes that is read whole says at most one thing to a row: what the first option for it
/// says, a Change or a Confirm (RFC 4340, sections 6.1 and 6.2; that only the first of several counts, and of Changes
/// only the first 64, is own). The row hears that and nothing else, and one Confirm for it is due exactly if its answer
/// is a Confirm.
pub fn packets_say_one_thing_to_a_row()
    ensures heard { RowsHearThePacket }
    ensures single { ConfirmsAreSingle }
{}

/// What an end's own packet says to the peer's row of the same feature: the Confirm for the row if there is one, or
/// else its Change if that goes out, or else nothing (RFC 4340, sections 6.1 and 6.2).
pub fn own_packets_say_one_thing_of_a_row()
    ensures { OwnPacketsSayOfARow }
{}

/// An end's own packet speaks to a row of the peer at most once: no row's Change goes out twice on a packet, nor
/// together with a Confirm for that row. RFC 4340 (section 6) allows more; the limit is own.
pub fn own_packets_speak_once()
    ensures { OwnPacketsSpeakOnce }
{}
