//! What every congestion control does.
ghost use Rattle.std.specs.Prelude.{◌≡◌, ℕ, ◌<◌, ◌≤◌, ◌↔◌, IsTrue};
ghost use Rattle.dccp_options.specs.Vectors.{state_at};
ghost use Rattle.congestion_trait.specs.Flight.{Has, pipe_of};
ghost use Rattle.congestion_trait.specs.declared.flight.Standing.TheVariants.{Reported};
ghost use Rattle.congestion_trait.specs.Control.{Control, IsLawful, may_send};

use crate::flight::Standing;
use dccp_options::AckReport;
use seq_circle::Seq48;

/// How many packets a window has at most, of any kind (own).
pub const LARGEST_WINDOW: u32 = 1024;

/// The congestion control of one sender (RFC 4340, section 10). Every kind keeps a flight list. Each call changes the
/// list by the list's rules, and the rest of the state by the kind's rules. No call takes memory.
///
/// To write a kind, take a struct with a `Flight` and what else the kind keeps. Its model's Value is a record with the
/// list of entries in it. The laws are about every Value, even one that no value of the struct has. `control` names the
/// functions on that Value: the list and the window that it shows, the CCIDs that it knows, and what each call makes of
/// it. `lawful` says that the list keeps its own rules, and that no call closes the window (`KeepsWindow`).
/// `specs/Kind` makes both of the kind's rules for the rest (`control_by_rules`, `kind_is_lawful`). The bounds on the
/// window come from the struct's invariant. The module additive_window of dccp_uses is an example.
pub trait Congestion {
    // The kind's functions on its state, which only contracts see.
    ghost control: { Control Self };

    /// Whether this kind can be started with a CCID.
    fn knows(&self, ccid: u8) -> bool
        ensures { result ≡ control.is_known ccid };

    /// Starts afresh, with a CCID that it knows: nothing is in flight.
    fn start(&mut self, ccid: u8)
        requires { IsTrue (control.is_known ccid) }
        ensures { self.new ≡ control.started self.old ccid };

    /// How many packets may be in flight: 1 to 1,024.
    fn window(&self) -> u32
        ensures value { result ≡ control.window self.now }
        ensures low { 1 ≤ result }
        ensures high { result ≤ 1024 };

    /// How many packets are in flight: sent, and neither reported nor found lost.
    fn in_flight(&self) -> u32
        ensures { result ≡ pipe_of (control.flight self.now) };

    /// Whether the flight list has a data packet of this number that was reported.
    fn is_reported(&self, number: Seq48) -> bool
        ensures { IsTrue result ↔ Has (control.flight self.now) number Reported };

    /// Whether the flight list has a data packet of this number with this standing.
    fn stands(&self, number: Seq48, standing: Standing) -> bool
        ensures { IsTrue result ↔ Has (control.flight self.now) number standing };

    /// Whether a further data packet may be sent: fewer are in flight than the window.
    fn may_send(&self) -> bool
        ensures value { result ≡ may_send control self.now }
        ensures meaning { IsTrue result ↔ (pipe_of (control.flight self.now) < control.window self.now) };

    /// A data packet with this number was sent. `may_send` has to be true before.
    fn on_sent(&mut self, number: Seq48)
        requires { pipe_of (control.flight self.old) < control.window self.old }
        ensures { self.new ≡ control.with_sent self.old number };

    /// The Ack Vectors of a packet came, while the peer acknowledges every `ratio` data packets (RFC 4340, section
    /// 11.3).
    fn on_report(&mut self, report: &AckReport<'_>, ratio: u16)
        ensures { self.new ≡ control.with_report self.old (state_at report.now.ack report.now.bytes) ratio };

    /// The retransmission timer ran out: nothing is taken to be in flight any more.
    fn on_timeout(&mut self)
        ensures { self.new ≡ control.timed_out self.old };

    ghost lawful: { IsLawful control };
}
