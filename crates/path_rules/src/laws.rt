//! What follows from the rules.
ghost use Rattle.path_rules.specs.AckRatio.{AckRatiosFit};
ghost use Rattle.path_rules.specs.Allowance.{AllowancesAreKept};
ghost use Rattle.path_rules.specs.Limits.{LimitsHold};
ghost use Rattle.path_rules.specs.RoundTrip.{TimeoutsAreBounded};

/// However many tokens are asked for, and at any times, no more are granted than the bucket held at first, plus what
/// came in since (own).
pub fn limits_hold()
    ensures { LimitsHold }
{}

/// A timeout is between 250 milliseconds and 64 seconds. It is at least 250 milliseconds longer than the round trip,
/// unless that would pass 64 seconds (own; RFC 6298, section 2).
pub fn timeouts_are_bounded()
    ensures { TimeoutsAreBounded }
{}

/// The Ack Ratio that a sender wants is one of 1, of 2, or of at most half its window (RFC 4341, section 6.1.2).
pub fn ack_ratios_fit_the_window()
    ensures { AckRatiosFit }
{}

/// An allowance never closes the window, a report never raises it, and acknowledgements raise it by at most one packet
/// (RFC 4341, section 5.2).
pub fn allowances_are_kept()
    ensures { AllowancesAreKept }
{}
