//! What a caller can rely on for the rules of a path: limits, timeouts, Ack Ratios and allowances.
ghost use Rattle.std.specs.Prelude.{◌≡◌, ◌<◌, ◌≤◌, ◌+◌, ◌-◌, ◌*◌, ◌/◌, ℕ, List, Option, Some};
ghost use Rattle.path_rules.specs.AckRatio.{ack_ratio_aim, half};
ghost use Rattle.path_rules.specs.Allowance.{allowed_after_acks, allowed_after_congestion, allowed_after_drops, window_within};
ghost use Rattle.path_rules.specs.Limits.{asked_last, granted};
ghost use Rattle.path_rules.specs.RoundTrip.{timeout};
ghost use Rattle.path_rules.specs.declared.allowance.Allowance.{Allowance};
ghost use Rattle.path_rules.specs.declared.limits.Bucket.{Bucket};
ghost use Rattle.path_rules.specs.declared.limits.Limit.{Limit};
ghost use Rattle.path_rules.specs.declared.round_trip.RoundTrip.{RoundTrip};

use path_rules::{
    ack_ratios_fit_the_window, allowances_are_kept, limits_hold, timeouts_are_bounded,
};

/// No more tokens are granted than a bucket held at first and got since.
pub fn no_more_pass_than_came_in()
    ensures { (limit : Limit) (bucket : Bucket) (times : List ℕ)
        → bucket.thousandths + limit.per_second * (asked_last bucket.since times - bucket.since) < 1000 * granted limit bucket times → ⊥ }
{
    limits_hold();
}

/// No timeout is below 250 milliseconds or above 64 seconds, and none ends before a report that comes 249 milliseconds
/// after the round trip.
pub fn no_timeout_comes_too_early_or_late()
    ensures early { (path : Option RoundTrip) → timeout path < 250 → ⊥ }
    ensures late { (path : Option RoundTrip) → 64000 < timeout path → ⊥ }
    ensures waits { (path : RoundTrip) → path.smoothed ≤ 63750000 → timeout (Some path) ≤ path.smoothed / 1000 + 249 → ⊥ }
{
    timeouts_are_bounded();
}

/// No Ack Ratio that is asked for is 0, and none above 2 is more than half the window.
pub fn no_ack_ratio_stops_the_acks()
    ensures some { (window used width : ℕ) → ack_ratio_aim window used width ≡ 0 → ⊥ }
    ensures half { (window used width : ℕ) → 2 < ack_ratio_aim window used width → half window < ack_ratio_aim window used width → ⊥ }
{
    ack_ratios_fit_the_window();
}

/// A report of drops neither closes nor raises an allowance, congestion halves it, and acknowledgements raise it by at
/// most one.
pub fn no_allowance_closes_or_leaps()
    ensures some { (it : Option Allowance) (window drops : ℕ) → (allowed_after_drops it window drops).most ≡ 0 → ⊥ }
    ensures falls { (it : Option Allowance) (window drops : ℕ) → 0 < window_within it window
        → window_within it window < (allowed_after_drops it window drops).most → ⊥ }
    ensures halves { (it : Option Allowance) (window : ℕ) → 1 < window_within it window
        → window_within it window < 2 * (allowed_after_congestion it window).most → ⊥ }
    ensures creeps { (it : Allowance) (window acked : ℕ) → 0 < it.most → it.most + 1 < (allowed_after_acks it window acked).most → ⊥ }
{
    allowances_are_kept();
}
