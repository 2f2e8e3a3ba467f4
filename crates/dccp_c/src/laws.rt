//! What the definitions of the calls mean.
ghost use Rattle.dccp_c.specs.Fitting.{LongestDataFit};
ghost use Rattle.dccp_c.specs.Ticking.{TicksAreATick};

/// Several ticks at one time do what one tick of a session does: each timer that has run out fires once, in its order,
/// and then one rule is followed. After seven ticks nothing is due (own).
pub fn ticks_are_a_tick()
    ensures { TicksAreATick }
{}

/// Data of at least one byte, and of at most as many as `dccp_longest_data` returns, are not refused as too long, and
/// their packet has at most the given number of bytes. This holds for an end that writes one Ack Vector option, as
/// those that are made here do (own).
pub fn longest_data_fit()
    ensures { LongestDataFit }
{}
