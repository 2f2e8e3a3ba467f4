//! Where the data that an end delivers go.
use crate::answers::Arrival;
use crate::appending::buffer;
use crate::delivery::settle;
use crate::inbox::LongInbox;
use dccp_endpoint::{NoMemory, Outbox, Outcome, Pseudo, Seq48};
use std::alloc::Global;
use std::marker::Model;

/// Where the data that an end delivers go: to its owner at once, as a place in their datagram; or into an inbox with
/// items of up to 2,032 bytes, in which they wait until they are read (own). Contracts see the inbox, if there is one.
#[derive(Drop)]
pub struct Intake {
    inbox: Option<LongInbox>,
}

impl Model for Intake {
    ghost use Rattle.std.specs.Prelude.{Option};
    ghost use Rattle.data_dropped.specs.Inbox.{InboxState};

    ghost Value = { Option InboxState };

    ghost view = { λ i. i.inbox };
}

impl Intake {
    ghost use Rattle.std.specs.Prelude.{◌≡◌, ◌≤◌, ◌↔◌, IfOk, None, false};
    ghost use Rattle.data_dropped.specs.Intakes.{HasDataIfHeard, came_in, count_held, first_read, intake_of, most_said, read_over, spoken, without_first, without_listener};

    /// Data go to the owner at once.
    pub fn none() -> Intake
        ensures { result ≡ None }
    {
        Intake { inbox: None }
    }

    /// Data wait in an inbox for `capacity` packets, at most 1,024; if that is 0, they go to the owner at once.
    /// NoMemory if there is none for the inbox, which takes 2,048 bytes a packet and 32 KB. No other call takes any.
    pub fn new(alloc: Global, capacity: u16) -> Result<Intake, NoMemory>
        requires { capacity ≤ 1024 }
        ensures { IfOk result (λ intake. intake ≡ intake_of capacity) }
    {
        if capacity == 0 {
            return Ok(Intake::none());
        }
        let inbox = LongInbox::new(alloc, capacity)?;
        Ok(Intake { inbox: Some(inbox) })
    }

    /// A packet of this number arrived as these bytes, with this outcome, or was not heard. Its data go into the inbox,
    /// or are dropped. None if it delivers none, or if there is no inbox.
    pub fn settle(
        &mut self,
        number: Seq48,
        bytes: &[u8],
        heard: &Option<Outcome>,
    ) -> Option<Arrival>
        requires { HasDataIfHeard bytes.now heard.now }
        ensures { record { inbox = self.new; arrival = result } ≡ came_in self.old number bytes.now heard.now }
    {
        let Some(outcome) = heard else {
            return None;
        };
        match &mut self.inbox {
            Some(inbox) => settle(inbox, number, bytes, outcome),
            None => None,
        }
    }

    /// The frame in the Outbox as it goes out under this pseudo-header: if there is an inbox, an Ack or a DataAck says
    /// after its options what the inbox has to say.
    pub fn speak(&self, pseudo: &Pseudo, out: &mut Outbox)
        ensures says { out.new ≡ spoken pseudo.now self.now out.old }
        ensures silent { out.old ≡ None → out.new ≡ None }
    {
        if let Some(inbox) = &self.inbox {
            buffer(out, inbox, pseudo);
        }
    }

    /// Takes the data that have waited longest: writes them over the front of `into`, and returns their packet's number
    /// and their length. The rest of `into` stays. None if none wait; then nothing changes.
    pub fn read(&mut self, into: &mut [u8; 2032]) -> Option<(Seq48, usize)>
        ensures rest { self.new ≡ without_first self.old }
        ensures answer { result ≡ first_read self.old }
        ensures data { into.new ≡ read_over self.old into.old }
    {
        match &mut self.inbox {
            Some(inbox) => inbox.take(into),
            None => None,
        }
    }

    /// The application stops listening: data that arrive from now on are dropped, and this is reported to their sender
    /// (RFC 4340, section 11.7). False if there is no inbox; then nothing changes.
    pub fn stop(&mut self) -> bool
        ensures stops { self.new ≡ without_listener self.old }
        ensures no_inbox { (result ≡ false) ↔ (self.old ≡ None) }
    {
        match &mut self.inbox {
            Some(inbox) => {
                inbox.stop();
                true
            }
            None => false,
        }
    }

    /// The most bytes that it adds to an acknowledgement.
    pub fn most_said(&self) -> usize
        ensures { result ≡ most_said self.now }
    {
        match &self.inbox {
            Some(_) => 256,
            None => 0,
        }
    }

    /// How many packets' data wait to be read.
    pub fn held(&self) -> usize
        ensures { result ≡ count_held self.now }
    {
        match &self.inbox {
            Some(inbox) => inbox.held(),
            None => 0,
        }
    }
}
