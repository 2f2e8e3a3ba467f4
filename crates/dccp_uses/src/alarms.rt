//! When each timer of an end runs out. The times are those of its owner, in milliseconds since any moment.
ghost use Rattle.std.specs.Prelude.{◌≡◌};
ghost use Rattle.dccp_uses.specs.Alarms.{alarm_after, alarm_of, arranged_by, arranged_alarm_by, ack_hurried_by, first_again, has_run_out, is_idle, time_left, next_wait, no_alarms, progressed_by, rung_by, runs_in, set_back, sooner, starting_wait_by, with_alarm};
ghost use Rattle.dccp_uses.specs.Path.{path_waits};
ghost use Rattle.dccp_uses.specs.Upkeeps.{acks_now};

use crate::{Path, Waits};
use dccp_endpoint::{Phase, Timer, applies_in};
use path_rules::Wait;

/// A timer that runs: since when, and for how long.
#[derive(Clone, Copy, Debug, PartialEq, Eq)]
pub struct Alarm {
    /// When it began to run.
    pub since: u64,
    /// How long it runs, in milliseconds.
    pub wait: u64,
}

impl Alarm {
    /// How many milliseconds it still has to run. At 0 it has run out.
    pub fn left(&self, now: u64) -> u64
        ensures { result ≡ time_left self.now now }
    {
        self.wait.saturating_sub(now.saturating_sub(self.since))
    }
}

/// The condition of an end, by which its timers run.
#[derive(Clone, Copy)]
pub struct Condition {
    /// The phase of its connection.
    pub phase: Phase,
    /// Whether data packets are in flight.
    pub in_flight: bool,
}

/// The timers that run for an end, of the six that it has: six fields and not a list, so that a call takes no memory.
#[derive(Clone, Copy)]
pub struct Alarms {
    /// Another Request goes out.
    pub request: Option<Alarm>,
    /// An Ack goes out.
    pub ack: Option<Alarm>,
    /// The Changes that no Confirm has answered go out again, if there are any.
    pub negotiate: Option<Alarm>,
    /// What is in flight is counted as lost.
    pub rto: Option<Alarm>,
    /// Another Close or CloseReq goes out.
    pub close: Option<Alarm>,
    /// TIMEWAIT is over.
    pub time_wait: Option<Alarm>,
    /// The wait with which the timer rto begins. It doubles each time that rto runs out, up to 64 seconds. It is the
    /// first wait again once a packet arrives after which fewer packets are in flight.
    pub rto_wait: u64,
}

impl Alarms {
    ghost use Rattle.std.specs.Prelude.{◌≡◌};
    ghost use Rattle.dccp_uses.specs.Alarms.{IsNoSooner, until_first};

    /// No timer runs, and rto will begin with its first wait.
    pub fn none() -> Alarms
        ensures { result ≡ no_alarms }
    {
        Alarms {
            request: None,
            ack: None,
            negotiate: None,
            rto: None,
            close: None,
            time_wait: None,
            rto_wait: 1_000,
        }
    }

    /// The alarm of a timer, if it runs.
    pub fn of(&self, timer: Timer) -> Option<Alarm>
        ensures { result ≡ alarm_of self.now timer }
    {
        match timer {
            Timer::Request => self.request,
            Timer::Ack => self.ack,
            Timer::Negotiate => self.negotiate,
            Timer::Rto => self.rto,
            Timer::Close => self.close,
            Timer::TimeWait => self.time_wait,
        }
    }

    /// Whether a timer does not run, and this phase does not have it (own).
    pub fn is_idle(&self, timer: Timer, phase: Phase) -> bool
        ensures { result ≡ is_idle self.now timer phase }
    {
        self.of(timer).is_none() && !applies_in(timer, phase)
    }

    /// In how many milliseconds the first of them runs out, or None if none runs.
    pub fn until_first(&self, now: u64) -> Option<u64>
        ensures value { result ≡ until_first self.now now }
        ensures first { (timer : Timer) → IsNoSooner (alarm_of self.now timer) now result }
    {
        let left = sooner(None, self.request, now);
        let left = sooner(left, self.ack, now);
        let left = sooner(left, self.negotiate, now);
        let left = sooner(left, self.rto, now);
        let left = sooner(left, self.close, now);
        sooner(left, self.time_wait, now)
    }
}

/// The shorter of a wait and of what an alarm still has to run at `now`, in milliseconds (own).
pub fn sooner(left: Option<u64>, alarm: Option<Alarm>, now: u64) -> Option<u64>
    ensures { result ≡ sooner left alarm now }
{
    match (left, alarm) {
        (_, None) => left,
        (None, Some(alarm)) => Some(alarm.left(now)),
        (Some(left), Some(alarm)) => Some(left.min(alarm.left(now))),
    }
}

/// Whether an alarm has run out by `now`, in milliseconds since the same moment as its `since` (own).
pub fn has_run_out(alarm: Option<Alarm>, now: u64) -> bool
    ensures { result ≡ has_run_out alarm now }
{
    match alarm {
        Some(alarm) => alarm.left(now) == 0,
        None => false,
    }
}

// How long a timer waits after this wait: at least a millisecond.
fn next_wait(kind: &Wait, wait: u64) -> u64
    ensures { result ≡ next_wait kind.now wait }
{
    kind.after(wait).max(1)
}

/// The wait with which a timer begins, at least one millisecond (own). That of the timer rto stays as long as its
/// timeouts have made it (RFC 2988, section 5.5).
pub fn starting_wait(waits: &Waits, alarms: &Alarms, timer: Timer) -> u64
    ensures { result ≡ starting_wait_by waits.now alarms.now timer }
{
    let first = waits.of(timer).first.max(1);
    match timer {
        Timer::Rto => first.max(alarms.rto_wait),
        Timer::Request | Timer::Ack | Timer::Negotiate | Timer::Close | Timer::TimeWait => first,
    }
}

// Whether a timer runs.
fn runs_in(timer: Timer, condition: &Condition) -> bool
    ensures { result ≡ runs_in timer condition.now }
{
    let applies = applies_in(timer, condition.phase);
    match timer {
        Timer::Rto => applies && condition.in_flight,
        Timer::Request | Timer::Ack | Timer::Negotiate | Timer::Close | Timer::TimeWait => applies,
    }
}

// Starts, keeps or stops an alarm in place, since most go on.
pub(crate) fn arrange_alarm(alarm: &mut Option<Alarm>, runs: bool, wait: u64, now: u64)
    ensures { alarm.new ≡ alarm_after runs alarm.old wait now }
{
    if !runs {
        *alarm = None;
    } else if alarm.is_none() {
        *alarm = alarm_for(wait, now);
    }
}

// An alarm that runs for `wait` milliseconds from `now` on.
pub(crate) fn alarm_for(wait: u64, now: u64) -> Option<Alarm>
    ensures { result ≡ Some (record { since = now; wait = wait }) }
{
    Some(Alarm { since: now, wait })
}

// The alarm of a timer that has run out: it waits longer the next time.
fn set_back(kind: &Wait, alarm: Option<Alarm>, now: u64) -> Option<Alarm>
    ensures { result ≡ set_back kind.now alarm now }
{
    match alarm {
        Some(alarm) => Some(Alarm {
            since: now,
            wait: next_wait(kind, alarm.wait),
        }),
        None => None,
    }
}

// An alarm with a longer wait than its first is none from now on.
fn shorten(alarm: &mut Option<Alarm>, wait: u64)
    ensures { alarm.new ≡ first_again alarm.old wait }
{
    if alarm.is_some_and(|alarm| wait < alarm.wait) {
        *alarm = None;
    }
}

impl Alarms {
    // Sets or removes the alarm of a timer.
    fn set(&mut self, timer: Timer, alarm: Option<Alarm>)
        ensures { self.new ≡ with_alarm self.old timer alarm }
    {
        match timer {
            Timer::Request => self.request = alarm,
            Timer::Ack => self.ack = alarm,
            Timer::Negotiate => self.negotiate = alarm,
            Timer::Rto => self.rto = alarm,
            Timer::Close => self.close = alarm,
            Timer::TimeWait => self.time_wait = alarm,
        }
    }

    // Starts, keeps or stops a timer at `now`. Most go on, and the waits are worked out only for one that starts.
    #[inline(always)]
    fn arrange_timer(&mut self, path: &Path, timer: Timer, condition: &Condition, now: u64)
        ensures { self.new ≡ with_alarm self.old timer (arranged_alarm_by (path_waits path.now) self.old timer condition.now now) }
    {
        if !runs_in(timer, condition) {
            self.set(timer, None);
        } else if self.of(timer).is_none() {
            let wait = starting_wait(&path.waits(), self, timer);
            self.set(timer, alarm_for(wait, now));
        }
    }

    /// Starts, keeps or stops each timer at `now`, as an end in this condition needs it, with the waits of its path (own).
    /// Call it after each call of the end, and after `ring`, `note_packet` or `note_rule` if one of these was due.
    pub fn arrange(&mut self, path: &Path, condition: &Condition, now: u64)
        ensures { self.new ≡ arranged_by (path_waits path.now) self.old condition.now now }
    {
        self.arrange_timer(path, Timer::Request, condition, now);
        self.arrange_timer(path, Timer::Ack, condition, now);
        self.arrange_timer(path, Timer::Negotiate, condition, now);
        self.arrange_timer(path, Timer::Rto, condition, now);
        self.arrange_timer(path, Timer::Close, condition, now);
        self.arrange_timer(path, Timer::TimeWait, condition, now);
    }

    /// This timer has run out at `now`, in milliseconds, and the end was called for it (own). It waits twice as long
    /// the next time, up to its longest wait. The timer rto also begins with a longer wait from then on.
    pub fn ring(&mut self, waits: &Waits, timer: Timer, now: u64)
        ensures { self.new ≡ rung_by waits.now self.old timer now }
    {
        let again = set_back(&waits.of(timer), self.of(timer), now);
        match timer {
            Timer::Request => self.request = again,
            Timer::Ack => self.ack = again,
            Timer::Negotiate => self.negotiate = again,
            Timer::Rto => {
                self.rto = again;
                self.rto_wait = next_wait(&waits.rto, self.rto_wait);
            }
            Timer::Close => self.close = again,
            Timer::TimeWait => self.time_wait = again,
        }
    }

    // If `progress`, a packet that arrived took something out of flight: the timer rto starts again, with its first
    // wait.
    fn progress(&mut self, path: &Path, progress: bool)
        ensures { self.new ≡ progressed_by (path_waits path.now) self.old progress }
    {
        if progress {
            self.rto = None;
            self.rto_wait = path.waits().rto.first;
        }
    }

    // If data were delivered, an Ack goes out no later than after its timer's first wait.
    fn hurry_ack(&mut self, path: &Path, delivered: bool)
        ensures { self.new ≡ ack_hurried_by (path_waits path.now) self.old delivered }
    {
        if delivered {
            shorten(&mut self.ack, path.waits().ack.first);
        }
    }

    // If there is a hole before the data, an Ack goes out at once.
    fn ack_at_once(&mut self, hole: bool, now: u64)
        ensures { self.new ≡ acks_now self.old hole now }
    {
        if hole {
            self.ack = alarm_for(0, now);
        }
    }

    /// The end has heard a packet at `now` (own). If it took something out of flight, the timer rto starts again. If it
    /// delivered data, an Ack goes out no later than after its timer's first wait, and at once if there is a hole
    /// before the data.
    pub fn note_packet(
        &mut self,
        path: &Path,
        progress: bool,
        delivered: bool,
        hole: bool,
        now: u64,
    )
        ensures { self.new ≡ acks_now (ack_hurried_by (path_waits path.now) (progressed_by (path_waits path.now) self.old progress) delivered) hole now }
    {
        self.progress(path, progress);
        self.hurry_ack(path, delivered);
        self.ack_at_once(hole, now);
    }
}
