//! How long the timers of an end wait.
ghost use Rattle.std.specs.Prelude.{◌≡◌, IsTrue};
ghost use Rattle.path_rules.specs.Waits.{ack_wait, wait_after, close_wait, negotiate_wait, probes_first, probing_wait, request_wait, rto_wait};

use crate::round_trip::{RoundTrip, timeout};

/// How long a timer waits: at first, and at most. Each wait is twice the one before it.
#[derive(Clone, Copy, Debug, PartialEq, Eq)]
pub struct Wait {
    /// The first wait, in milliseconds.
    pub first: u64,
    /// The longest wait, or the first if that is longer.
    pub most: u64,
}

impl Wait {
    /// The wait that comes after this one: twice as long, but no longer than the longest and no shorter than the first.
    pub fn after(&self, wait: u64) -> u64
        ensures { result ≡ wait_after self.now wait }
    {
        wait.min(self.most / 2).saturating_mul(2).max(self.first)
    }
}

/// Another Request: after a second, up to 64 (RFC 4340, section 8.1.1).
pub fn request_wait() -> Wait
    ensures { result ≡ request_wait }
{
    Wait {
        first: 1_000,
        most: 64_000,
    }
}

/// An Ack of an end that has nothing else to say: after 50 milliseconds, up to 20 seconds, so that routers between the
/// ends keep the connection in their tables (own; RFC 4340, section 8.1.5, has 200 milliseconds for the client in
/// PARTOPEN).
pub fn ack_wait() -> Wait
    ensures { result ≡ ack_wait }
{
    Wait {
        first: 50,
        most: 20_000,
    }
}

/// Changes that no Confirm has answered: after a timeout, up to 64 seconds (own; RFC 4340, section 6.6.3, leaves it
/// open).
pub fn negotiate_wait(path: Option<RoundTrip>) -> Wait
    ensures { result ≡ negotiate_wait path }
{
    Wait {
        first: timeout(path),
        most: 64_000,
    }
}

/// A report on what is in flight: after a timeout, which each further timeout doubles, up to 64 seconds (RFC 6298,
/// section 5.5).
pub fn rto_wait(path: Option<RoundTrip>) -> Wait
    ensures { result ≡ rto_wait path }
{
    Wait {
        first: timeout(path),
        most: 64_000,
    }
}

/// Changes that no Confirm has answered while a probe is out: at most two seconds (own).
pub fn probing_wait(path: Option<RoundTrip>) -> Wait
    ensures { result ≡ probing_wait path }
{
    Wait {
        first: timeout(path).min(2_000),
        most: 2_000,
    }
}

/// Another Close or CloseReq: after two round trips, together at least 100 milliseconds, up to 64 seconds (RFC 4340,
/// section 8.3); 400 milliseconds if there was no sample (own).
pub fn close_wait(path: Option<RoundTrip>) -> Wait
    ensures { result ≡ close_wait path }
{
    let first = match path {
        Some(path) => (2 * u64::from(path.smoothed) / 1_000).max(100),
        None => 400,
    };
    Wait {
        first,
        most: 64_000,
    }
}

/// Whether a sender with this window asks its peer for a sign of life before it counts what is in flight as lost: at 16
/// packets or more (own). A second timeout in a row would make the slow start end at a window of 2.
pub fn probes_first(window: u32) -> bool
    ensures { result ≡ probes_first window }
{
    16 <= window
}
