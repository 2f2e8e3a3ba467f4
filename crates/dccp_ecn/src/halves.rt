//! The two ends together, and what an event does to them.
ghost use Rattle.std.specs.Prelude.{◌≡◌, ◌≢◌, ◌≤◌, ◌^◌, ◌↔◌, ◌⊎◌, IfOk, OnErr, Ok, Err, Some, None, length, slice_get};
ghost use Rattle.run_list.specs.MarkedSet.{answer_to};
ghost use Rattle.dccp_ecn.specs.Arrivals.{arrival_of};
ghost use Rattle.dccp_ecn.specs.World.{receipt_step, ecn_begins, ecn_step, greatest_came, happens_by, is_checked, checks, checks_forged, packet_number, after_receipt};

use crate::report::Report;
use crate::{Arrived, EcnEvent, EcnFault, EcnReceived, EcnSeen, NonceLedger};
use seq_circle::{NoMemory, Seq48};
use std::alloc::Global;
use std::marker::Model;

// The number of the first packet (own).
const FIRST: u64 = 1;

// At most this many packets are sent, and this many reports kept (own).
const MOST: usize = 1 << 46;

#[derive(Drop)]
pub(crate) struct Halves {
    alloc: Global,
    sent: Vec<bool>,
    ledger: NonceLedger,
    received: EcnReceived,
    greatest: Option<Seq48>,
    reports: Vec<Report>,
}

impl Model for Halves {
    ghost use Rattle.dccp_ecn.specs.World.{EcnState, ecn_state};

    ghost Value = { EcnState };

    ghost view = { λ h. ecn_state h.sent.items h.ledger h.received h.greatest h.reports.items };
}

// The number of a packet by its index.
fn packet_number(index: u64) -> Seq48
    ensures { result ≡ packet_number index }
{
    match Seq48::new(FIRST) {
        Some(first) => first.add(index),
        None => unreachable!(),
    }
}

// The greatest number that came, with one more.
fn greatest_came(greatest: Option<Seq48>, n: Seq48) -> Option<Seq48>
    ensures { result ≡ greatest_came greatest n }
{
    match greatest {
        None => Some(n),
        Some(m) => Some(m.max_of(n)),
    }
}

impl Halves {
    /// Nothing was sent yet.
    pub(crate) fn new(alloc: Global) -> Result<Halves, NoMemory>
        ensures { IfOk result (λ halves. halves ≡ ecn_begins) }
    {
        let first = packet_number(0);
        let mut received = EcnReceived::new(alloc)?;
        received.start(first);
        Ok(Halves {
            alloc,
            sent: Vec::new(alloc),
            ledger: NonceLedger::new(first),
            received,
            greatest: None,
            reports: Vec::new(alloc),
        })
    }

    /// How many packets were sent.
    pub(crate) fn packet_count(&self) -> u64
        ensures { result ≡ length self.now.sent }
    {
        self.sent.len() as u64
    }

    /// The reports, in their order.
    pub(crate) fn reports(&self) -> &[Report]
        ensures { result.now ≡ self.now.reports }
    {
        &self.reports
    }

    /// One event: exactly what `happens_by` says, unless memory runs out.
    pub(crate) fn step(&mut self, event: EcnEvent) -> Result<EcnSeen, EcnFault>
        ensures ok { IfOk result (λ seen. happens_by self.old event ≡ Ok (ecn_step self.new seen)) }
        ensures no_such_frame { (result ≡ Err EcnFault.NoSuchFrame) ↔ (happens_by self.old event ≡ Err EcnFault.NoSuchFrame) }
        ensures full { (result ≡ Err EcnFault.Full) ↔ (happens_by self.old event ≡ Err EcnFault.Full) }
        ensures err { OnErr result (self.new ≡ self.old) }
    {
        match event {
            EcnEvent::Send(nonce) => self.send(nonce),
            EcnEvent::Deliver(index) => self.deliver(index),
            EcnEvent::Mark(index) => self.mark(index),
            EcnEvent::Report => self.report(),
            EcnEvent::Check(index) => self.check(index),
            EcnEvent::Forge(index) => self.forge(index),
        }
    }

    // A packet is sent.
    fn send(&mut self, nonce: bool) -> Result<EcnSeen, EcnFault>
        ensures ok { IfOk result (λ seen. happens_by self.old (EcnEvent.Send nonce) ≡ Ok (ecn_step self.new seen)) }
        ensures there { result ≢ Err EcnFault.NoSuchFrame }
        ensures full { (result ≡ Err EcnFault.Full) ↔ (happens_by self.old (EcnEvent.Send nonce) ≡ Err EcnFault.Full) }
        ensures err { OnErr result (self.new ≡ self.old) }
    {
        if MOST <= self.sent.len() {
            return Err(EcnFault::Full);
        }
        match self.sent.push(nonce) {
            Ok(()) => {
                let _number = self.ledger.sent(nonce);
                Ok(EcnSeen::Sent)
            }
            Err(_) => Err(EcnFault::NoMemory),
        }
    }

    // The packet of this number comes.
    fn receive(&mut self, n: Seq48, how: Arrived) -> EcnSeen
        ensures { ecn_step self.new result ≡ ecn_step (after_receipt self.old (arrival_of n how)) (EcnSeen.Took (answer_to self.old.received.set n)) }
    {
        let answer = self.received.took(n, how);
        self.greatest = greatest_came(self.greatest, n);
        EcnSeen::Took(answer)
    }

    // The nonce of a packet that was sent.
    fn nonce_of(&self, index: u64) -> Option<bool>
        ensures { result ≡ slice_get self.now.sent index }
    {
        self.sent.get(index as usize).copied()
    }

    // A packet comes unmarked.
    fn deliver(&mut self, index: u64) -> Result<EcnSeen, EcnFault>
        ensures ok { IfOk result (λ seen. happens_by self.old (EcnEvent.Deliver index) ≡ Ok (ecn_step self.new seen)) }
        ensures no_such_frame { (result ≡ Err EcnFault.NoSuchFrame) ↔ (happens_by self.old (EcnEvent.Deliver index) ≡ Err EcnFault.NoSuchFrame) }
        ensures room { happens_by self.old (EcnEvent.Deliver index) ≢ Err EcnFault.Full }
        ensures not_full { result ≢ Err EcnFault.Full }
        ensures err { OnErr result (self.new ≡ self.old) }
    {
        match self.nonce_of(index) {
            Some(nonce) => Ok(self.receive(packet_number(index), Arrived::Nonce(nonce))),
            None => Err(EcnFault::NoSuchFrame),
        }
    }

    // A packet comes marked.
    fn mark(&mut self, index: u64) -> Result<EcnSeen, EcnFault>
        ensures ok { IfOk result (λ seen. happens_by self.old (EcnEvent.Mark index) ≡ Ok (ecn_step self.new seen)) }
        ensures no_such_frame { (result ≡ Err EcnFault.NoSuchFrame) ↔ (happens_by self.old (EcnEvent.Mark index) ≡ Err EcnFault.NoSuchFrame) }
        ensures room { happens_by self.old (EcnEvent.Mark index) ≢ Err EcnFault.Full }
        ensures not_full { result ≢ Err EcnFault.Full }
        ensures err { OnErr result (self.new ≡ self.old) }
    {
        match self.nonce_of(index) {
            Some(_) => Ok(self.receive(packet_number(index), Arrived::Marked)),
            None => Err(EcnFault::NoSuchFrame),
        }
    }

    // The receiver reports.
    fn report(&mut self) -> Result<EcnSeen, EcnFault>
        ensures ok { IfOk result (λ seen. happens_by self.old EcnEvent.Report ≡ Ok (ecn_step self.new seen)) }
        ensures there { result ≢ Err EcnFault.NoSuchFrame }
        ensures full { (result ≡ Err EcnFault.Full) ↔ (happens_by self.old EcnEvent.Report ≡ Err EcnFault.Full) }
        ensures err { OnErr result (self.new ≡ self.old) }
    {
        let index = self.reports.len();
        if MOST <= index {
            return Err(EcnFault::Full);
        }
        let Some(ack) = self.greatest else {
            return Ok(EcnSeen::Reported(None));
        };
        let Ok(report) = Report::of(self.alloc, &self.received, ack) else {
            return Err(EcnFault::NoMemory);
        };
        match self.reports.push(report) {
            Ok(()) => Ok(EcnSeen::Reported(Some(index as u64))),
            Err(_) => Err(EcnFault::NoMemory),
        }
    }

    // The sender checks a report.
    fn check(&self, index: u64) -> Result<EcnSeen, EcnFault>
        ensures ok { IfOk result (λ seen. happens_by self.now (EcnEvent.Check index) ≡ Ok (ecn_step self.now seen)) }
        ensures no_such_frame { (result ≡ Err EcnFault.NoSuchFrame) ↔ (happens_by self.now (EcnEvent.Check index) ≡ Err EcnFault.NoSuchFrame) }
        ensures room { result ≢ Err EcnFault.Full }
    {
        match self.reports.get(index as usize) {
            Some(report) => Ok(EcnSeen::Checked(report.checked_by(&self.ledger))),
            None => Err(EcnFault::NoSuchFrame),
        }
    }

    // The sender checks a report with the other nonce.
    fn forge(&self, index: u64) -> Result<EcnSeen, EcnFault>
        ensures ok { IfOk result (λ seen. happens_by self.now (EcnEvent.Forge index) ≡ Ok (ecn_step self.now seen)) }
        ensures no_such_frame { (result ≡ Err EcnFault.NoSuchFrame) ↔ (happens_by self.now (EcnEvent.Forge index) ≡ Err EcnFault.NoSuchFrame) }
        ensures room { result ≢ Err EcnFault.Full }
    {
        match self.reports.get(index as usize) {
            Some(report) => Ok(EcnSeen::Checked(report.forged_by(&self.ledger))),
            None => Err(EcnFault::NoSuchFrame),
        }
    }
}
