//! What the acknowledgements of an end with a bounded inbox say after their own options.
ghost use Rattle.std.specs.Prelude.{◌≡◌, ◌≤◌, [], length};
ghost use Rattle.std.specs.Bool.{OnFalse, OnTrue};
ghost use Rattle.data_dropped.specs.Drops.{HaveCodes};
ghost use Rattle.data_dropped.specs.Frames.{acknowledged_by, buffered, buffered_frame, drops_said, said};

use crate::drops::DropBytes;
use crate::inbox::BoundedInbox;
use arrayvec::ArrayVec;
use dccp_endpoint::lengthen;
use dccp_options::kinds::{DATA_DROPPED, SLOW_RECEIVER};
use dccp_packets::{Frame, Kind, Numbers, Outbox, decode};
use dccp_sum::Pseudo;
use seq_circle::Seq48;

// A full Data Dropped option and Slow Receiver.
type ReportBytes = ArrayVec<u8, 256>;

// The acknowledgement number that the end states for a frame that is an Ack or a DataAck.
fn acknowledged_by(kind: &Kind, told: &Option<Seq48>) -> Option<Seq48>
    ensures { result ≡ acknowledged_by told.now kind.now }
{
    match kind {
        Kind::Ack { .. } | Kind::DataAck { .. } => *told,
        Kind::Request { .. }
        | Kind::Response { .. }
        | Kind::Data
        | Kind::CloseReq { .. }
        | Kind::Close { .. }
        | Kind::Reset { .. }
        | Kind::Sync { .. }
        | Kind::SyncAck { .. } => None,
    }
}

// Writes the Data Dropped option of a report, if that has a byte.
fn put_drops(out: &mut ReportBytes, bytes: &[u8])
    requires empty { out.old.items ≡ [] }
    requires fits { length bytes.now ≤ 253 }
    ensures value { out.new.items ≡ drops_said bytes.now }
    ensures short { length out.new.items ≤ 255 }
{
    if bytes.is_empty() {
        return;
    }
    out.push(DATA_DROPPED);
    out.push((bytes.len() + 2) as u8);
    let _ = out.try_extend_from_slice(bytes);
}

// Writes what the inbox has to say at this acknowledgement number.
fn put_said<const MOST: usize>(out: &mut ReportBytes, inbox: &BoundedInbox<MOST>, ack: Seq48)
    requires { out.old.items ≡ [] }
    ensures { out.new.items ≡ said inbox.now ack }
{
    let mut bytes = DropBytes::new();
    let _whole = inbox.write(&mut bytes, ack);
    put_drops(out, bytes.as_slice());
    if inbox.slow() {
        out.push(SLOW_RECEIVER);
    }
}

// Writes a frame with what is to be said after its options, if there is anything and it has room. True exactly if it
// did.
fn write_buffered<const MOST: usize>(
    frame: &[u8],
    told: &Option<Seq48>,
    inbox: &BoundedInbox<MOST>,
    pseudo: &Pseudo,
    longer: &mut Frame,
) -> bool
    ensures longer { OnTrue result (longer.new ≡ buffered pseudo.now told.now inbox.now frame.now) }
    ensures same { OnFalse result (buffered pseudo.now told.now inbox.now frame.now ≡ frame.now) }
{
    let packet = match decode(frame) {
        Ok(packet) => packet,
        Err(_) => return false,
    };
    let Some(ack) = acknowledged_by(&packet.header.kind, told) else {
        return false;
    };
    let mut more = ReportBytes::new();
    put_said(&mut more, inbox, ack);
    lengthen(&packet, more.as_slice(), pseudo, longer)
}

// The same for the frame in the Outbox, which the longer one replaces. It is a separate function, since it takes room
// for a second frame, which is large, and there is mostly nothing to say.
#[inline(never)]
fn lengthen_sent<const MOST: usize>(out: &mut Outbox, inbox: &BoundedInbox<MOST>, pseudo: &Pseudo)
    ensures { out.new ≡ buffered_frame pseudo.now inbox.now out.old }
{
    let Some(sent) = out.sent() else {
        return;
    };
    let numbers = Numbers {
        number: sent.number,
        ack: sent.ack,
    };
    let mut longer = Frame::new();
    if write_buffered(sent.bytes, &numbers.ack, inbox, pseudo, &mut longer) {
        out.put(longer, numbers);
    }
}

/// The frame in the Outbox as it goes out: an Ack or a DataAck says after its options what the inbox has to say.
#[tactic(auto, using(crate::proofs::Silent::silent_same))]
pub(crate) fn buffer<const MOST: usize>(
    out: &mut Outbox,
    inbox: &BoundedInbox<MOST>,
    pseudo: &Pseudo,
)
    ensures says { out.new ≡ buffered_frame pseudo.now inbox.now out.old }
    ensures codes { HaveCodes inbox.now.drops }
{
    if inbox.is_silent() {
        return;
    }
    lengthen_sent(out, inbox, pseudo);
}
