//! What follows for every kind of congestion control.
ghost use Rattle.std.specs.Prelude.{◌≡◌, ℕ, ◌+◌, ◌≤◌, ◌⊎◌, ◌↔◌, IsTrue, map, List};
ghost use Rattle.congestion_trait.specs.declared.flight.FlightEntry.{FlightEntry};
ghost use Rattle.congestion_trait.specs.declared.flight.Standing.TheVariants.{Out, Reported};
ghost use Rattle.congestion_trait.specs.declared.flight.Standing.{Standing};
ghost use Rattle.std.specs.List.{list_any, Contains};
ghost use Rattle.congestion_trait.specs.Calls.{Call, after_call, call_sends, run, tells};
ghost use Rattle.congestion_trait.specs.Control.{may_send};
ghost use Rattle.dccp_options.specs.Vectors.{is_received};
ghost use Rattle.congestion_trait.specs.Flight.{States, Has, HasEntry, numbers_reported, after_report, leaving_count, pipe_of};

use crate::congestion::Congestion;

/// A number is Reported only if it was before, or if the report gives it state 0 or 1. No other call makes a number
/// Reported.
pub fn only_reports_report<C: Congestion>()
    ensures reports { (state : C) (states : States) (ratio number : ℕ)
        → Has (C.control.flight (C.control.with_report state states ratio)) number Reported
        → Has (C.control.flight state) number Reported ⊎ IsTrue (is_received (states number)) }
    ensures sending { (state : C) (next number : ℕ)
        → Has (C.control.flight (C.control.with_sent state next)) number Reported → Has (C.control.flight state) number Reported }
    ensures starting { (state : C) (ccid number : ℕ)
        → Has (C.control.flight (C.control.started state ccid)) number Reported → ⊥ }
    ensures timeouts { (state : C) (number : ℕ) → Has (C.control.flight (C.control.timed_out state)) number Reported
        → ⊥ }
{}

/// A number that is not Out, since it was reported or found lost, is never Out again, unless it is sent again.
pub fn only_sending_puts_out<C: Congestion>()
    ensures reports { (state : C) (states : States) (ratio number : ℕ)
        → Has (C.control.flight (C.control.with_report state states ratio)) number Out → Has (C.control.flight state) number Out }
    ensures sending { (state : C) (next number : ℕ)
        → Has (C.control.flight (C.control.with_sent state next)) number Out → Has (C.control.flight state) number Out ⊎ (number ≡ next) }
    ensures starting { (state : C) (ccid number : ℕ) → Has (C.control.flight (C.control.started state ccid)) number Out
        → ⊥ }
    ensures timeouts { (state : C) (number : ℕ) → Has (C.control.flight (C.control.timed_out state)) number Out → ⊥ }
{}

/// A report lowers what is in flight by one for each entry that was Out and is now Reported or Lost. An entry that was
/// Lost before lowers it no second time.
pub fn in_flight_falls_once<C: Congestion>()
    ensures { (state : C) (states : States) (ratio : ℕ)
        → pipe_of (C.control.flight (C.control.with_report state states ratio)) + leaving_count states (C.control.flight state)
        ≡ pipe_of (C.control.flight state) }
{}

/// After any calls a number is Out only if it was before them, or if one of them sends it: what was reported or found
/// lost is never Out again. It is Reported only if it was before them, or if one of them gives it state 0 or 1.
pub fn standings_after_calls<C: Congestion>()
    ensures out { (state : C) (calls : List Call) (number : ℕ)
        → Has (C.control.flight (run C.control state calls)) number Out
        → Has (C.control.flight state) number Out ⊎ IsTrue (list_any (call_sends number) calls) }
    ensures reported { (state : C) (calls : List Call) (number : ℕ)
        → Has (C.control.flight (run C.control state calls)) number Reported
        → Has (C.control.flight state) number Reported ⊎ IsTrue (list_any (tells number) calls) }
{}

/// Every entry's number was sent: after one call, and after any calls, a number is in the list only if it was there
/// before, or if a call sends it.
pub fn every_entry_was_sent<C: Congestion>()
    ensures call { (state : C) (call : Call) (number : ℕ)
        → HasEntry (C.control.flight (after_call C.control state call)) number
        → HasEntry (C.control.flight state) number ⊎ IsTrue (call_sends number call) }
    ensures calls { (state : C) (calls : List Call) (number : ℕ)
        → HasEntry (C.control.flight (run C.control state calls)) number
        → HasEntry (C.control.flight state) number ⊎ IsTrue (list_any (call_sends number) calls) }
{}

/// The window never closes: after a start or a timeout, and any calls after it, it is one packet at least.
pub fn windows_never_close<C: Congestion>()
    ensures starts { (state : C) (ccid : ℕ) (calls : List Call) → 1 ≤ C.control.window (run C.control (C.control.started state ccid) calls) }
    ensures timeouts { (state : C) (calls : List Call) → 1 ≤ C.control.window (run C.control (C.control.timed_out state) calls) }
{}

/// After a timeout a packet may be sent, whatever was in flight: the retransmission timer frees a sender whose
/// acknowledgements were all lost.
pub fn timeouts_let_send<C: Congestion>()
    ensures { (state : C) → IsTrue (may_send C.control (C.control.timed_out state)) }
{}

/// The list of the numbers that are Reported holds just those.
pub fn numbers_reported_are_reported()
    ensures { (entries : List FlightEntry) (number : ℕ)
        → Contains (numbers_reported entries) number ↔ Has entries number Reported }
{}
