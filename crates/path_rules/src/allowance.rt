//! How far a sender limits itself for the application that reads its data.
ghost use Rattle.std.specs.Prelude.{◌≡◌};
ghost use Rattle.path_rules.specs.Allowance.{allowance_of, allowed_after_acks, allowed_after_congestion, allowed_after_drops, allowed_after_timeout, grown, is_within_round_trip, window_within};

use crate::round_trip::RoundTrip;

/// How many data packets may be in flight, as far as the application that reads them allows (RFC 4340, sections 11.6
/// and 11.7; own).
#[derive(Clone, Copy, Debug, PartialEq, Eq)]
pub struct Allowance {
    /// How many may be in flight, at least one.
    pub most: u32,
    /// How many were acknowledged since that number last changed.
    pub acked: u32,
}

/// The window of a sender: `window`, that of its congestion control, or its allowance if that is less.
pub fn window_within(allowance: Option<Allowance>, window: u32) -> u32
    ensures { result ≡ window_within allowance window }
{
    match allowance {
        Some(allowance) => allowance.most.min(window),
        None => window,
    }
}

fn allowance_of(packets: u32) -> Allowance
    ensures { result ≡ allowance_of packets }
{
    Allowance {
        most: packets.max(1),
        acked: 0,
    }
}

/// The allowance after a report that the receive buffer dropped `drops` packets, or of a slow receiver that dropped
/// none: that many less than the window, and at least one (RFC 4341, section 5.2; RFC 4340, section 11.6).
pub fn allowed_after_drops(allowance: Option<Allowance>, window: u32, drops: u32) -> Allowance
    ensures { result ≡ allowed_after_drops allowance window drops }
{
    allowance_of(window_within(allowance, window).saturating_sub(drops))
}

/// The allowance after congestion: half the window (RFC 4341, section 5).
pub fn allowed_after_congestion(allowance: Option<Allowance>, window: u32) -> Allowance
    ensures { result ≡ allowed_after_congestion allowance window }
{
    allowance_of(window_within(allowance, window) / 2)
}

/// The allowance after a timeout: slow start goes up to half of it, but at least up to two (RFC 4341, section 5).
pub fn allowed_after_timeout(allowance: &Allowance) -> Allowance
    ensures { result ≡ allowed_after_timeout allowance.now }
{
    allowance_of((allowance.most / 2).max(2))
}

/// The allowance once `acked` further packets were acknowledged: one packet more for each window of them, as long as
/// `window`, that of the congestion control, is above it (RFC 4341, section 5).
pub fn allowed_after_acks(allowance: &Allowance, window: u32, acked: u32) -> Allowance
    ensures { result ≡ allowed_after_acks allowance.now window acked }
{
    if window <= allowance.most {
        return *allowance;
    }
    let acked = u64::from(allowance.acked) + u64::from(acked);
    if u64::from(allowance.most) <= acked {
        return allowance_of(allowance.most + 1);
    }
    Allowance {
        most: allowance.most,
        acked: acked as u32,
    }
}

/// Whether less than a round trip has gone by (RFC 4340, section 11.6): `elapsed` milliseconds are less than it was
/// measured to take. Without a sample, `acked` says that what was in flight is acknowledged.
pub fn is_within_round_trip(path: Option<RoundTrip>, elapsed: u64, acked: bool) -> bool
    ensures { result ≡ is_within_round_trip path elapsed acked }
{
    match path {
        Some(path) => elapsed < (u64::from(path.smoothed) / 1_000).max(1),
        None => !acked,
    }
}
