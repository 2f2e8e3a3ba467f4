//! An end of a replay without a receive buffer.
ghost use Rattle.std.specs.Prelude.{◌≡◌, ◌≤◌, length, IfOk};
ghost use Rattle.ccid_two.specs.Kinds.{kinds_control};
ghost use Rattle.dccp_endpoint.specs.Controlled.{with_control};
ghost use Rattle.dccp_endpoint.specs.Receiving.{receives};
ghost use Rattle.schedule_text.specs.Results.{HasItsData};
ghost use Rattle.tool_jobs.specs.Bare.{bare_end};

use crate::replay::player::{ReplayEnd, put_open_line, replay_config};
use ccid_two::Kinds;
use dccp_endpoint::{Endpoint, Outcome};
use dccp_packets::Outbox;
use schedule_text::print_result;
use seq_circle::NoMemory;
use std::alloc::Global;
use world_events::{Seen, Side};

/// A new end of a side, with its offers or without.
pub(crate) fn bare_end(alloc: Global, side: Side, plain: bool) -> Result<Endpoint<Kinds>, NoMemory>
    ensures { IfOk result (λ end. end ≡ bare_end side plain) }
{
    let congestion = Kinds::new(alloc)?;
    Endpoint::new(alloc, replay_config(side, plain), congestion)
}

impl ReplayEnd for Endpoint<Kinds> {
    ghost use Rattle.tool_jobs.specs.Bare.{bare_acts};

    ghost acts = { bare_acts };

    fn begin(&mut self, out: &mut Outbox, text: &mut Vec<u8>) -> Result<(), NoMemory> {
        let answer = self.open(out);
        put_open_line(text, answer)
    }

    fn hear(
        &mut self,
        number: u64,
        bytes: &[u8],
        out: &mut Outbox,
        text: &mut Vec<u8>,
    ) -> Result<(), NoMemory> {
        let seen = Seen::Received(arrive(self, bytes, out));
        print_result(number, &seen, bytes, text)
    }

    fn is_own(_line: &[u8]) -> bool {
        false
    }

    fn heed(&mut self, _number: u64, _line: &[u8], _text: &mut Vec<u8>) -> Result<(), NoMemory> {
        Ok(())
    }

    fn standing(&self) -> &Endpoint<Kinds> {
        self
    }
}

// Only the step of the end. Data that it delivers are within the bytes.
fn arrive(end: &mut Endpoint<Kinds>, bytes: &[u8], out: &mut Outbox) -> Outcome
    requires { length bytes.now ≤ 2044 }
    ensures step { record { after = end.new; frame = out.new; answer = result } ≡ with_control kinds_control end.old.congestion (receives end.old.state bytes.now) }
    ensures told { HasItsData bytes.now result }
{
    end.receive(bytes, out)
}
