//! A sender and a receiver, with what holds of every report after every list of events.
//!
//! The type's invariant is that some events lead to its state, so that `honest` is proved in only one place.
ghost use Rattle.std.specs.Prelude.{◌≡◌, ◌≤◌, ◌↔◌, IfOk, OnErr, IsNone, MatchOption, Ok, Err, Some, None, length, slice_get};
ghost use Rattle.dccp_ecn.specs.Run.{AreHonest};
ghost use Rattle.dccp_ecn.specs.World.{ecn_begins, ecn_step, happens_by, HasNoRoom, LacksIndex};

use crate::halves::Halves;
use crate::{EcnEvent, EcnFault, EcnSeen};
use seq_circle::{NoMemory, Seq48};
use std::alloc::Global;
use std::marker::Model;

/// An ECN-capable sender, an ECN-capable receiver, and every packet and every report that either ever sent (own).
/// [`EcnWorld::step`] lets one thing happen: a packet is sent or comes, the receiver reports, or the sender checks a
/// report. Packets come unmarked or marked, in any order, late, again or never. The first packet has the number 1.
///
/// After each step every report is honest, whatever came: the sender's check of it answers Unknown exactly if it
/// reports a packet before the last 4,096 as received unmarked, and otherwise Fits. With the other nonce the check
/// answers Unfit (RFC 4340, section 12.2).
#[derive(Drop)]
pub struct EcnWorld {
    halves: Halves,
}

impl Model for EcnWorld {
    ghost use Rattle.dccp_ecn.specs.World.{EcnState};
    ghost use Rattle.dccp_ecn.specs.Run.{IsRunOf};

    ghost Value = { EcnState };

    ghost view = { λ w. w.halves };

    ghost invariant = { λ w. IsRunOf w.halves };
}

impl EcnWorld {
    /// Nothing was sent yet. `NoMemory` comes if no memory was left.
    pub fn new(alloc: Global) -> Result<EcnWorld, NoMemory>
        ensures { IfOk result (λ world. world ≡ ecn_begins) }
    {
        let halves = Halves::new(alloc)?;
        Ok(EcnWorld { halves })
    }

    /// Lets one event happen: exactly what `happens_by` says of it. Refusals, in this order: `NoSuchFrame` exactly if
    /// an index is not below the number of packets, or of reports for `Check` and `Forge`; `Full` exactly for a `Send`
    /// after 2^46 packets, or a `Report` after 2^46 reports; `NoMemory`. Each changes nothing. A `Report` before any
    /// packet came keeps no report.
    ///
    /// After it, refused or not, every report is honest, as [`EcnWorld`] says.
    pub fn step(&mut self, event: EcnEvent) -> Result<EcnSeen, EcnFault>
        ensures ok { IfOk result (λ seen. happens_by self.old event ≡ Ok (ecn_step self.new seen)) }
        ensures no_such_frame { (result ≡ Err EcnFault.NoSuchFrame) ↔ (happens_by self.old event ≡ Err EcnFault.NoSuchFrame) }
        ensures full { (result ≡ Err EcnFault.Full) ↔ (happens_by self.old event ≡ Err EcnFault.Full) }
        ensures lacks { (result ≡ Err EcnFault.NoSuchFrame) ↔ LacksIndex self.old event }
        ensures filled { (result ≡ Err EcnFault.Full) ↔ HasNoRoom self.old event }
        ensures err { OnErr result (self.new ≡ self.old) }
        ensures honest { AreHonest self.new }
    {
        self.halves.step(event)
    }

    /// How many packets were sent.
    pub fn packet_count(&self) -> u64
        ensures { result ≡ length self.now.sent }
    {
        self.halves.packet_count()
    }

    /// How many reports were kept.
    pub fn report_count(&self) -> u64
        ensures { result ≡ length self.now.reports }
    {
        self.halves.reports().len() as u64
    }

    /// The report with this index, from 0: the number that it acknowledges, the type of its Ack Vector, and the
    /// vector's bytes. None exactly if the index is not below the number of reports.
    pub fn report(&self, index: u64) -> Option<(Seq48, u8, &[u8])>
        ensures value { MatchOption result (slice_get self.now.reports index ≡ None) (λ report. slice_get self.now.reports index ≡ Some (record { ack = report.0; kind = report.1; bytes = report.2.now })) }
        ensures none { IsNone result ↔ (length self.now.reports ≤ index) }
        ensures honest { AreHonest self.now }
    {
        match self.halves.reports().get(index as usize) {
            Some(report) => Some((report.ack(), report.kind(), report.bytes())),
            None => None,
        }
    }
}
