//! How long the timers of an end wait.
ghost use Rattle.std.specs.Prelude.{◌≡◌};
ghost use Rattle.dccp_uses.specs.Alarms.{classic_waits, timer_wait};

use dccp_endpoint::Timer;
use path_rules::Wait;

/// How long each timer of an end waits: at first, and at most.
#[derive(Clone, Copy, Debug, PartialEq, Eq)]
pub struct Waits {
    /// Until another Request.
    pub request: Wait,
    /// Until an Ack.
    pub ack: Wait,
    /// Until Changes that no Confirm answered go out again.
    pub negotiate: Wait,
    /// Until what is in flight is counted as lost.
    pub rto: Wait,
    /// Until another Close or CloseReq.
    pub close: Wait,
    /// Until TIMEWAIT is over.
    pub time_wait: Wait,
}

// The waits from this first one, doubled up to 64 seconds.
fn doubling(first: u64) -> Wait
    ensures { result ≡ record { first = first; most = 64000 } }
{
    Wait {
        first,
        most: 64_000,
    }
}

impl Waits {
    /// The waits of an end that knows nothing of its path (RFC 4340, sections 3.4, 8.1.1, 8.1.5 and 8.3; RFC 4341,
    /// section 5; own).
    pub fn classic() -> Waits
        ensures { result ≡ classic_waits }
    {
        Waits {
            request: doubling(1_000),
            ack: doubling(200),
            negotiate: doubling(1_000),
            rto: doubling(1_000),
            close: doubling(400),
            time_wait: doubling(240_000),
        }
    }

    /// The wait of a timer.
    pub fn of(&self, timer: Timer) -> Wait
        ensures { result ≡ timer_wait self.now timer }
    {
        match timer {
            Timer::Request => self.request,
            Timer::Ack => self.ack,
            Timer::Negotiate => self.negotiate,
            Timer::Rto => self.rto,
            Timer::Close => self.close,
            Timer::TimeWait => self.time_wait,
        }
    }
}
