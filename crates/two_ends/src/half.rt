//! One side of the world: an end, the frames that it ever sent, and the numbers that it processed.
ghost use Rattle.std.specs.Prelude.{◌≡◌, ◌≤◌, ◌++◌, length, Some};
ghost use Rattle.dccp_endpoint.specs.Controlled.{after_calls, with_control};
ghost use Rattle.dccp_endpoint.specs.Inputs.{end_stepped};
ghost use Rattle.dccp_endpoint.specs.Receiving.{receives};
ghost use Rattle.two_ends.specs.Controlled.{said_by};
ghost use Rattle.dccp_endpoint.specs.UserCalls.{seen_of};
ghost use Rattle.two_ends.specs.World.{HasPlace, input_said, number_if};

use crate::frames::{keep_frame, take_memory};
use crate::{Seen, SentFrame};
use congestion_trait::Congestion;
use dccp_endpoint::{Config, Endpoint, Outcome, UserCall};
use dccp_packets::Outbox;
use seq_circle::{NoMemory, Seq48};
use std::alloc::Global;
use std::marker::Model;

// For so many frames there is room from the beginning. A longer run takes more memory as it goes on.
const USUAL_FRAMES: usize = 256;

#[derive(Drop)]
pub(crate) struct HalfWorld<C> {
    alloc: Global,
    end: Endpoint<C>,
    frames: Vec<SentFrame>,
    processed: Vec<u64>,
    // Empty, with room for a frame of any length during a step.
    spare: Vec<u8>,
    // Where the end leaves what it sends in a step.
    out: Outbox,
}

impl<C> Model for HalfWorld<C> {
    ghost use Rattle.std.specs.Prelude.{◌≡◌, []};
    ghost use Rattle.two_ends.specs.Controlled.{ControlledHalf};

    ghost Value = { ControlledHalf C };

    ghost view = { λ h. record { half = record { end = h.end.state; frames = h.frames.items; processed = h.processed.items }; congestion = h.end.congestion } };

    ghost invariant = { λ h. h.spare.items ≡ [] };
}

impl<C: Congestion + Drop> HalfWorld<C> {
    ghost use Rattle.std.specs.Prelude.{◌≡◌, IfOk, IsTrue};
    ghost use Rattle.two_ends.specs.Controlled.{half_begins};

    // A side before it has sent or received anything, in its block.
    pub(crate) fn new(
        alloc: Global,
        config: Config,
        congestion: C,
    ) -> Result<Box<HalfWorld<C>>, NoMemory>
        requires { IsTrue (C.control.is_known 2) }
        ensures { IfOk result (λ half. half.value ≡ half_begins C.control config congestion) }
    {
        let frames = Vec::with_capacity(alloc, USUAL_FRAMES)?;
        let processed = Vec::with_capacity(alloc, USUAL_FRAMES)?;
        let end = Endpoint::new(alloc, config, congestion)?;
        let half = HalfWorld {
            alloc,
            end,
            frames,
            processed,
            spare: Vec::new(alloc),
            out: Outbox::new(),
        };
        match Box::new(alloc, half) {
            Ok(half) => Ok(half),
            Err(_) => Err(NoMemory),
        }
    }
}

impl<C: Congestion> HalfWorld<C> {
    ghost use Rattle.std.specs.Prelude.{◌≡◌, ◌≤◌, length, IfOk, OnErr, Some, None};
    ghost use Rattle.dccp_endpoint.specs.Inputs.{Arrives};
    ghost use Rattle.two_ends.specs.Controlled.{controlled_half_steps, said_by};
    ghost use Rattle.two_ends.specs.World.{input_said};

    pub(crate) fn end(&self) -> &Endpoint<C>
        ensures state { result.now.state ≡ self.now.half.end }
        ensures congestion { result.now.congestion ≡ self.now.congestion }
    {
        &self.end
    }

    pub(crate) fn frames(&self) -> &[SentFrame]
        ensures { result.now ≡ self.now.half.frames }
    {
        &self.frames
    }

    pub(crate) fn processed(&self) -> &[u64]
        ensures { result.now ≡ self.now.half.processed }
    {
        &self.processed
    }

    // One call of the end, which processes no number. All memory that the step may need is taken before the end is
    // touched.
    #[tactic(auto, using(crate::proofs::OfWorlds::Processing::calls_process_nothing))]
    #[inline(always)]
    pub(crate) fn call(&mut self, call: UserCall<'_>) -> Result<Seen, NoMemory>
        ensures ok { IfOk result (λ seen. record { after = self.new; seen = seen } ≡ controlled_half_steps C.control self.old None (input_said call.entry (said_by C.control self.old.congestion))) }
        ensures err { OnErr result (self.new ≡ self.old) }
    {
        take_memory(&mut self.frames, &mut self.spare)?;
        let seen = act(&mut self.end, call, &mut self.out);
        let processed = self.processed.len() as u64;
        let floor = self.end.floor();
        keep_frame(
            self.alloc,
            &mut self.frames,
            &mut self.spare,
            &self.out,
            processed,
            floor,
        );
        Ok(seen)
    }

    // A frame of the other side arrives, whose number in full this is. All is inlined except the step of the end, so
    // that its outcome is not copied from call to call.
    #[inline(always)]
    pub(crate) fn receive(&mut self, bytes: &[u8], number: Seq48) -> Result<Seen, NoMemory>
        requires { length bytes.now ≤ 2044 }
        ensures ok { IfOk result (λ seen. record { after = self.new; seen = seen } ≡ controlled_half_steps C.control self.old (Some number) (Arrives bytes.now)) }
        ensures err { OnErr result (self.new ≡ self.old) }
    {
        take_memory(&mut self.frames, &mut self.spare)?;
        if self.processed.len() == self.processed.capacity() {
            self.processed.reserve(1)?;
        }
        let before = self.end.marked();
        let outcome = arrive(&mut self.end, bytes, &mut self.out);
        let taken = before < self.end.marked();
        keep_number(&mut self.processed, taken, number);
        let processed = self.processed.len() as u64;
        let floor = self.end.floor();
        keep_frame(
            self.alloc,
            &mut self.frames,
            &mut self.spare,
            &self.out,
            processed,
            floor,
        );
        Ok(Seen::Received(outcome))
    }
}

// Only the call of the end, with its answer.
fn act<C: Congestion>(end: &mut Endpoint<C>, call: UserCall<'_>, out: &mut Outbox) -> Seen
    ensures after { end.new.state ≡ (end_stepped end.old.state (input_said call.entry (said_by C.control end.old.congestion))).after }
    ensures called { end.new.congestion ≡ after_calls C.control end.old.congestion (end_stepped end.old.state (input_said call.entry (said_by C.control end.old.congestion))).calls }
    ensures sent { out.new ≡ (end_stepped end.old.state (input_said call.entry (said_by C.control end.old.congestion))).frame }
    ensures seen { result ≡ seen_of (end_stepped end.old.state (input_said call.entry (said_by C.control end.old.congestion))).answer }
{
    end.act(call, out)
}

// Keeps the number of a packet that was taken, in memory that was taken before.
#[tactic(auto, using(crate::proofs::OfWorlds::Processing::nothing_more))]
#[inline(always)]
fn keep_number(processed: &mut Vec<u64>, taken: bool, number: Seq48)
    requires { HasPlace processed.old }
    ensures { processed.new.items ≡ processed.old.items ++ number_if taken (Some number) }
{
    if !taken {
        return;
    }
    match processed.push(number.get()) {
        Ok(()) => {}
        Err(_) => unreachable!(),
    }
}

// Only the step of the end.
#[inline(always)]
fn arrive<C: Congestion>(end: &mut Endpoint<C>, bytes: &[u8], out: &mut Outbox) -> Outcome
    requires { length bytes.now ≤ 2044 }
    ensures { record { after = end.new; frame = out.new; answer = result } ≡ with_control C.control end.old.congestion (receives end.old.state bytes.now) }
{
    end.receive(bytes, out)
}
