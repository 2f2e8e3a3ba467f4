//! What follows for CCID 2 from its rules.
//!
//! Two laws together say that one mark halves once. One says, for every list of calls, what must be past the mark. The
//! other says that right after a halving nothing is, if numbers were sent in order, as an end sends them. The window's
//! bounds are also clauses of `window`, from the type's invariant: a law over all records would be false for records
//! that no value has.
ghost use Rattle.std.specs.Prelude.{◌≡◌, ℕ, ◌<◌, ◌≤◌, ◌⊎◌, ◌↔◌, List, IsTrue};
ghost use Rattle.congestion_trait.specs.Flight.{States, is_congested};
ghost use Rattle.congestion_trait.specs.Calls.{Call, run};
ghost use Rattle.ccid_two.specs.Window.{State, first_state, with_report, ccid_control};
ghost use Rattle.ccid_two.specs.Kinds.{kinds_control};
ghost use Rattle.ccid_two.specs.Mark.{IsInOrder, after_reports};

/// After any calls from the start the window lies in 1 to 1,024 and the threshold in 2 to 1,024.
pub fn window_stays_in_range()
    ensures low { (calls : List Call) → 1 ≤ (run ccid_control first_state calls).window }
    ensures high { (calls : List Call) → (run ccid_control first_state calls).window ≤ 1024 }
    ensures threshold_low { (calls : List Call) → 2 ≤ (run ccid_control first_state calls).threshold }
    ensures threshold_high { (calls : List Call) → (run ccid_control first_state calls).threshold ≤ 1024 }
{}

/// After any calls from the start a report lowers the window only if some entry past the recovery mark became Lost, or
/// Reported as marked: a loss at or before the mark never halves again.
pub fn only_losses_past_the_mark_halve()
    ensures { (calls : List Call) (states : States) (ratio : ℕ)
        → let state = run ccid_control first_state calls in
        (with_report state states ratio).window < state.window → IsTrue (is_congested states state.mark state.flight) }
{}

/// One window's losses halve once: after calls that send numbers in their order and a report that shows congestion, no
/// further report lowers the window until something is sent.
pub fn one_mark_one_halving()
    ensures { (calls : List Call) (states : States) (ratio : ℕ) (reports : List (States × ℕ))
        → let state = run ccid_control first_state calls in
        let after = with_report state states ratio in
        IsInOrder first_state calls → IsTrue (is_congested states state.mark state.flight)
        → after.window ≤ (after_reports after reports).window }
{}

/// The choice of kinds knows CCID 2 and CCID 248, and no other.
pub fn kinds_know_two_and_248()
    ensures { (ccid : ℕ) → IsTrue (kinds_control.is_known ccid) ↔ ((ccid ≡ 2) ⊎ (ccid ≡ 248)) }
{}
