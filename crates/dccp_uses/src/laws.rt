//! What the steps of an end with its timers mean.
ghost use Rattle.dccp_uses.specs.Classic.{ClassicIsTheSession};
ghost use Rattle.dccp_uses.specs.Inputs.{StepsAreInputs};

use congestion_trait::Congestion;

/// With any rules and times, each step of an end with its timers is one input of its end, or none: a call, a timer or a
/// datagram, as a schedule of two ends may have it. A datagram that is left out is like one that was lost. So each law
/// on all schedules holds of ends under these rules (own).
pub fn rules_are_inputs<C: Congestion>()
    ensures { StepsAreInputs C.control }
{}

/// If no rule is followed (`Pace::classic`), an end with its timers is a session with only the timers, which wait as
/// `Waits::classic` says: the same ends, timers, frames and answers, after any inputs at any times (own).
pub fn classic_is_the_session<C: Congestion>()
    ensures { ClassicIsTheSession C.control }
{}
