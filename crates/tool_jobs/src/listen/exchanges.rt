//! What happens to a peer, and the lines for it.
ghost use Rattle.std.specs.Prelude.{◌≡◌, ◌≤◌, ◌++◌, [], Ok, IfOk, OnOk, length};
ghost use Rattle.dccp_listener.specs.Calls.{seen_if};
ghost use Rattle.dccp_listener.specs.Chain.{Arrives, Calls, call_of};
ghost use Rattle.dccp_listener.specs.Listens.{listening_after, listens};
ghost use Rattle.dccp_listener.specs.Runs.{Stepped, told_of};
ghost use Rattle.tool_jobs.specs.Calls.{SealsInFull};
ghost use Rattle.tool_jobs.specs.Listen.{deed_of, exchange_at, first_number, peer_addresses};
ghost use Rattle.tool_jobs.specs.Telling.{CanBeTold, exchange_text};

use crate::ends::arriving;
use crate::listen::calls::PeerCall;
use crate::listen::telling::{put_answer, put_frame, put_heard, put_whom};
use dccp_listener::{Act, Heard, Listener, NoFlow, Peer, Seen};
use dccp_packets::{Frame, Outbox};
use dccp_sum::Pseudo;
use schedule_text::payload_of;
use seq_circle::{NoMemory, Seq48};

/// The destination address of all datagrams.
pub(crate) const OWN_ADDRESS: [u8; 4] = [10, 0, 0, 2];

// The initial sequence number of each end.
fn first_number() -> Seq48
    ensures { result ≡ first_number }
{
    match Seq48::new(2000) {
        Some(number) => number,
        None => unreachable!(),
    }
}

// The addresses of a frame that a peer sends.
fn peer_addresses(peer: Peer) -> Pseudo
    ensures { result ≡ peer_addresses peer }
{
    let address = peer.address;
    Pseudo::V4 {
        from: address,
        to: OWN_ADDRESS,
    }
}

// The listener hears a datagram.
fn hear(
    listener: &mut Listener,
    peer: Peer,
    iss: Seq48,
    bytes: &[u8],
    out: &mut Outbox,
) -> Result<Heard, NoMemory>
    requires { length bytes.now ≤ 2044 }
    ensures after { OnOk result (listener.new ≡ listening_after listener.old peer (Arrives iss bytes.now)) }
    ensures sent { OnOk result (out.new ≡ (listens listener.old peer (Arrives iss bytes.now)).frame) }
    ensures told { IfOk result (λ heard. told_of (Ok heard) ≡ (listens listener.old peer (Arrives iss bytes.now)).told) }
    ensures tellable { IfOk result (λ heard. CanBeTold bytes.now (told_of (Ok heard))) }
{
    listener.arrive(peer, iss, bytes, out)
}

// The listener takes a call.
fn ask(listener: &mut Listener, peer: Peer, act: Act<'_>, out: &mut Outbox) -> Result<Seen, NoFlow>
    ensures after { listener.new ≡ listening_after listener.old peer (Calls (call_of act.entry)) }
    ensures sent { out.new ≡ (listens listener.old peer (Calls (call_of act.entry))).frame }
    ensures told { Stepped (seen_if result) ≡ (listens listener.old peer (Calls (call_of act.entry))).told }
    ensures tellable { CanBeTold [] (Stepped (seen_if result)) }
{
    listener.act(peer, act, out)
}

// Lets a frame of the peer arrive, and puts the lines for that.
fn arrive(
    listener: &mut Listener,
    number: u64,
    peer: Peer,
    frame: &Frame,
    text: &mut Vec<u8>,
) -> Result<(), NoMemory>
    ensures after { OnOk result (listener.new ≡ listening_after listener.old peer (Arrives first_number frame.now)) }
    ensures told { OnOk result (text.new.items ≡ text.old.items ++ exchange_text (exchange_at listener.old number peer (Arrives first_number frame.now))) }
{
    let mut out = Outbox::new();
    let bytes = frame.bytes();
    let Ok(heard) = hear(listener, peer, first_number(), bytes, &mut out) else {
        return Err(NoMemory);
    };
    put_whom(text, number, peer)?;
    put_heard(text, bytes, heard)?;
    put_frame(text, peer, &out)?;
    Ok(())
}

// Calls the peer's end, and puts the lines for that.
fn call(
    listener: &mut Listener,
    number: u64,
    peer: Peer,
    act: Act<'_>,
    text: &mut Vec<u8>,
) -> Result<(), NoMemory>
    ensures after { OnOk result (listener.new ≡ listening_after listener.old peer (Calls (call_of act.entry))) }
    ensures told { OnOk result (text.new.items ≡ text.old.items ++ exchange_text (exchange_at listener.old number peer (Calls (call_of act.entry)))) }
{
    let mut out = Outbox::new();
    let answer = ask(listener, peer, act, &mut out);
    put_whom(text, number, peer)?;
    put_answer(text, answer)?;
    put_frame(text, peer, &out)?;
    Ok(())
}

/// Does to the peer what the line with this number says, and puts the lines for that. NoMemory means that no memory was
/// left for an end of the peer or for the text.
pub(crate) fn exchange(
    listener: &mut Listener,
    number: u64,
    peer: Peer,
    said: &PeerCall<'_>,
    text: &mut Vec<u8>,
) -> Result<(), NoMemory>
    requires { SealsInFull said.now }
    ensures after { OnOk result (listener.new ≡ listening_after listener.old peer (deed_of peer said.now)) }
    ensures told { OnOk result (text.new.items ≡ text.old.items ++ exchange_text (exchange_at listener.old number peer (deed_of peer said.now))) }
{
    match said {
        PeerCall::Frame(said) => {
            let frame = arriving(&peer_addresses(peer), said);
            arrive(listener, number, peer, &frame, text)
        }
        PeerCall::Send(digits) => {
            let payload = payload_of(digits);
            call(listener, number, peer, Act::Send(payload.bytes()), text)
        }
        PeerCall::Timer(timer) => call(listener, number, peer, Act::Timer(*timer), text),
        PeerCall::Close => call(listener, number, peer, Act::Close, text),
        PeerCall::Abort => call(listener, number, peer, Act::Abort, text),
    }
}
