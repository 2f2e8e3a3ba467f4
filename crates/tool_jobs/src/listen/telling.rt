//! The lines of what happens to a peer.
ghost use Rattle.std.specs.Prelude.{◌≡◌, ◌++◌, [], codes, decimal, Ok, OnOk};
ghost use Rattle.dccp_listener.specs.Calls.{seen_if};
ghost use Rattle.dccp_listener.specs.Runs.{Stepped, told_of};
ghost use Rattle.tool_jobs.specs.Peers.{peer_text};
ghost use Rattle.tool_jobs.specs.Telling.{CanBeTold, answer_text, frame_to_peer};

use crate::listen::peers::put_peer;
use dccp_listener::{Heard, NoFlow, Peer, Seen};
use dccp_packets::Outbox;
use schedule_text::put_result;
use seq_circle::NoMemory;
use tool_text::{put, put_hex, put_number};

/// Puts the beginning of a line, up to the answer to the peer.
pub(crate) fn put_whom(text: &mut Vec<u8>, number: u64, peer: Peer) -> Result<(), NoMemory>
    ensures { OnOk result (text.new.items ≡ text.old.items ++ (decimal number ++ codes " " ++ peer_text peer)) }
{
    put_number(text, number)?;
    put(text, b" ")?;
    put_peer(text, peer)?;
    Ok(())
}

/// Puts the result of a datagram of these bytes.
pub(crate) fn put_heard(text: &mut Vec<u8>, bytes: &[u8], heard: Heard) -> Result<(), NoMemory>
    requires { CanBeTold bytes.now (told_of (Ok heard)) }
    ensures { OnOk result (text.new.items ≡ text.old.items ++ answer_text bytes.now (told_of (Ok heard))) }
{
    match heard {
        Heard::Flow(outcome) => put_result(text, bytes, &Seen::Received(outcome)),
        Heard::Busy => put(text, b": busy\n"),
    }
}

/// Puts the answer to a call.
pub(crate) fn put_answer(text: &mut Vec<u8>, answer: Result<Seen, NoFlow>) -> Result<(), NoMemory>
    requires { CanBeTold [] (Stepped (seen_if answer)) }
    ensures { OnOk result (text.new.items ≡ text.old.items ++ answer_text [] (Stepped (seen_if answer))) }
{
    match answer {
        Ok(seen) => put_result(text, &[], &seen),
        Err(_) => put(text, b": refused NoFlow\n"),
    }
}

/// Puts the line of the frame that goes to the peer, if one does.
pub(crate) fn put_frame(text: &mut Vec<u8>, peer: Peer, out: &Outbox) -> Result<(), NoMemory>
    ensures { OnOk result (text.new.items ≡ text.old.items ++ frame_to_peer peer out.now) }
{
    let Some(sent) = out.sent() else {
        return Ok(());
    };
    put(text, b"sent ")?;
    put_peer(text, peer)?;
    put(text, b" ")?;
    put_hex(text, sent.bytes)?;
    put(text, b"\n")?;
    Ok(())
}
