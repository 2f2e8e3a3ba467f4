//! The state of `listen`: one listener, and how much has happened.
ghost use Rattle.std.specs.Prelude.{◌≡◌, ◌≤◌, [], ◌∷◌, OnOk};
ghost use Rattle.tool_text.specs.Jobs.{Judges, most_events};
ghost use Rattle.tool_jobs.specs.Calls.{SealsInFull};
ghost use Rattle.tool_jobs.specs.Listen.{by_call, first_serving, listen_config, listen_job};
ghost use Rattle.tool_jobs.specs.Telling.{Exchange};

use crate::listen::calls::{PeerCall, read_call};
use crate::listen::exchanges::{OWN_ADDRESS, exchange};
use crate::listen::flow_lines::put_flows;
use arrayvec::ArrayVec;
use dccp_endpoint::Lists;
use dccp_listener::{ListenConfig, Listener, Peer};
use seq_circle::NoMemory;
use std::alloc::Global;
use tool_text::{LineError, LineJob, LineWhy, MOST_EVENTS, whole_line};

// The Service Codes that are served.
fn services() -> ArrayVec<u32, 16>
    ensures { result.items ≡ 42 ∷ 43 ∷ [] }
{
    let mut services = ArrayVec::new();
    services.push(42);
    services.push(43);
    services
}

// The configuration of the listener.
fn listen_config(most: u16) -> ListenConfig
    ensures { result ≡ listen_config most }
{
    ListenConfig {
        own_address: OWN_ADDRESS,
        own_port: 5001,
        services: services(),
        lists: Lists::usual(),
        most,
    }
}

/// The state of the lines.
#[derive(Drop)]
pub(crate) struct ListenLines {
    /// The listener that serves the peers.
    pub(crate) listener: Listener,
    /// How many lines so far made something happen.
    pub(crate) events: u32,
}

impl ListenLines {
    /// The state before the first line: there may be at most `most` flows, and there are none.
    pub(crate) fn new(alloc: Global, most: u16) -> ListenLines
        requires least { 1 ≤ most }
        requires most { most ≤ 1024 }
        ensures { result ≡ first_serving most }
    {
        ListenLines {
            listener: Listener::new(alloc, listen_config(most)),
            events: 0,
        }
    }

    // Does to the peer what the line with this number says, unless it is one line too many.
    fn say(
        &mut self,
        number: u64,
        peer: Peer,
        said: &PeerCall<'_>,
        text: &mut Vec<u8>,
    ) -> Result<(), LineError>
        requires seals { SealsInFull said.now }
        requires few { self.old.events ≤ most_events }
        ensures verdict { Judges listen_job (by_call self.old number peer said.now) text.old.items text.new.items self.new result }
        ensures few { OnOk result (self.new.events ≤ most_events) }
    {
        if MOST_EVENTS <= self.events {
            return Err(LineError::Refused(whole_line(LineWhy::TooManyEvents)));
        }
        exchange(&mut self.listener, number, peer, said, text)?;
        self.events += 1;
        Ok(())
    }
}

impl LineJob for ListenLines {
    ghost Deed = { Exchange };

    ghost job = { listen_job };

    ghost keeps = { λ serving number. serving.events ≤ most_events };

    #[tactic(auto, unfolding(crate::specs::Listen::peer_line_judged))]
    fn judge(
        &mut self,
        _alloc: Global,
        number: u64,
        line: &[u8],
        text: &mut Vec<u8>,
    ) -> Result<(), LineError> {
        match read_call(line) {
            Err(fault) => Err(LineError::Refused(fault)),
            Ok(None) => Ok(()),
            Ok(Some((peer, said))) => self.say(number, peer, &said, text),
        }
    }

    fn finish(&mut self, _alloc: Global, text: &mut Vec<u8>) -> Result<(), NoMemory> {
        put_flows(text, &self.listener)
    }
}
