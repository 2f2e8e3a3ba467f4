//! The Ack Ratio: for how many data packets the peer of a sender sends one Ack.
ghost use Rattle.std.specs.Prelude.{◌≡◌, ◌<◌, ◌^◌};
ghost use Rattle.path_rules.specs.AckRatio.{ack_ratio_aim, half, lowers_ratio, period, raises_ratio, shares, wants_ack_ratio};

use crate::round_trip::RoundTrip;

/// The Ack Ratio that a sender holds, and since when.
#[derive(Clone, Copy, Debug, PartialEq, Eq)]
pub struct AckRatio {
    /// Its value.
    pub held: u64,
    /// When it was last asked for, in milliseconds; None before the first time.
    pub asked: Option<u64>,
}

/// For how long a sender remembers what was in flight: a round trip, at least 200 milliseconds (own).
pub fn period(path: Option<RoundTrip>) -> u64
    ensures { result ≡ period path }
{
    match path {
        Some(path) => (u64::from(path.smoothed) / 1_000).max(200),
        None => 200,
    }
}

// How many parts of this size there are in that many packets, rounded up.
fn shares(packets: u64, part: u64) -> u64
    requires packets { packets < 2 ^ 40 }
    requires part { part < 2 ^ 48 }
    ensures { result ≡ shares packets part }
{
    let part = part.max(1);
    (packets + part - 1) / part
}

fn half(window: u32) -> u64
    ensures { result ≡ half window }
{
    (u64::from(window) + 1) / 2
}

/// The Ack Ratio that a sender wants (RFC 4341, section 6.1.2; own). With a window below 4 it is 1. Otherwise it gives
/// 32 Acks for the packets that the sender uses of its window, or fewer if a quarter of its peer's Sequence Window
/// allows no more. It is at least 2, and at most half the window, rounded up.
///
/// `used` is what the sender uses of its window, `width` the peer's Sequence Window, below 2^48.
pub fn ack_ratio_aim(window: u32, used: u32, width: u64) -> u64
    requires { width < 2 ^ 48 }
    ensures { result ≡ ack_ratio_aim window used width }
{
    if window < 4 {
        return 1;
    }
    let by_window = shares(u64::from(used), 32);
    let by_width = shares(4 * u64::from(used), width);
    by_window.max(by_width).min(half(window)).max(2)
}

fn lowers(held: u64, aim: u64, window: u32) -> bool
    ensures { result ≡ lowers_ratio held aim window }
{
    aim < held && (half(window) < held || aim <= held / 2)
}

// Whether the ratio is raised, if it was last asked for this long ago.
fn raises(held: u64, aim: u64, waited: Option<u64>, period: u64) -> bool
    ensures { result ≡ raises_ratio held aim waited period }
{
    if held < 2 {
        return held < aim && waited.is_none_or(|waited| 5_000 <= waited);
    }
    held <= aim / 2 && waited.is_none_or(|waited| period <= waited)
}

/// Whether a sender asks for the Ack Ratio that it wants (own; RFC 4341, section 6.1.2, says that it is doubled when
/// Acks are lost). It lowers the ratio at once if the present one is above half the window or at least twice what is
/// wanted. It raises the ratio from 1 five seconds after it last asked; otherwise it raises it at
/// least to twice its value, once a period.
pub fn wants_ack_ratio(ratio: &AckRatio, aim: u64, window: u32, period: u64, now: u64) -> bool
    ensures { result ≡ wants_ack_ratio ratio.now aim window period now }
{
    let waited = match ratio.asked {
        Some(asked) => Some(now.saturating_sub(asked)),
        None => None,
    };
    lowers(ratio.held, aim, window) || raises(ratio.held, aim, waited, period)
}
