//! The lines of the flows that are at the end.
ghost use Rattle.std.specs.Prelude.{◌≡◌, ◌++◌, OnOk, flat_map, slice_get};
ghost use Rattle.tool_jobs.specs.Telling.{flow_line, flow_line_if, flow_lines, peer_in_phase};

use crate::ends::phase_name;
use crate::listen::peers::put_peer;
use dccp_endpoint::Phase;
use dccp_listener::{Listener, Peer};
use seq_circle::NoMemory;
use tool_text::{put, put_counted, put_named};

fn put_flow(text: &mut Vec<u8>, peer: Peer, phase: Phase) -> Result<(), NoMemory>
    ensures { OnOk result (text.new.items ≡ text.old.items ++ peer_in_phase peer phase) }
{
    put(text, b"flow ")?;
    put_peer(text, peer)?;
    put_named(text, b" ", phase_name(phase))?;
    put(text, b"\n")?;
    Ok(())
}

// Puts the line of the flow at this place, if there is one.
fn put_flow_at(text: &mut Vec<u8>, listener: &Listener, place: u16) -> Result<(), NoMemory>
    ensures { OnOk result (text.new.items ≡ text.old.items ++ flow_line_if (slice_get listener.now.flows place)) }
{
    let Some(peer) = listener.peer(place) else {
        return Ok(());
    };
    let Some(end) = listener.flow(peer) else {
        return Ok(());
    };
    put_flow(text, peer, end.phase())
}

fn put_each_flow(text: &mut Vec<u8>, listener: &Listener) -> Result<(), NoMemory>
    ensures { OnOk result (text.new.items ≡ text.old.items ++ flat_map flow_line listener.now.flows) }
{
    let count = listener.flows();
    let mut place = 0;
    while place < count {
        put_flow_at(text, listener, place)?;
        place += 1;
    }
    Ok(())
}

/// Puts how many flows there are, and each of them in the order of their peers.
pub(crate) fn put_flows(text: &mut Vec<u8>, listener: &Listener) -> Result<(), NoMemory>
    ensures { OnOk result (text.new.items ≡ text.old.items ++ flow_lines listener.now.flows) }
{
    put_counted(text, b"flows ", u64::from(listener.flows()))?;
    put(text, b"\n")?;
    put_each_flow(text, listener)?;
    Ok(())
}
