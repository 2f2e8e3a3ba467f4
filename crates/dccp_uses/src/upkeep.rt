//! What the owner of an end keeps for it.
ghost use Rattle.std.specs.Prelude.{◌≡◌};
ghost use Rattle.dccp_uses.specs.Upkeeps.{alarm_end, earlier, heard_so, is_hole, ruled_condition, upkeep_moment};

use crate::alarms::{Alarm, Alarms, Condition, has_run_out, starting_wait};
use crate::news::{is_delivery, is_taken};
use crate::{Due, Pace, Path, Rule, Sight};
use dccp_endpoint::{Congestion, Endpoint, Outcome, Timer};
use path_rules::Moment;

/// A datagram that an end has heard.
#[derive(Clone, Copy)]
pub struct HeardDatagram {
    /// What the rules saw of the end before.
    pub was: Sight,
    /// The packet was taken.
    pub taken: bool,
    /// It has brought data.
    pub delivered: bool,
    /// Nothing went out for it.
    pub silent: bool,
}

impl HeardDatagram {
    /// The datagram had this outcome (own). `was` is what the rules saw of the end before, and `silent` says that nothing
    /// went out.
    pub fn new(was: Sight, outcome: &Outcome, silent: bool) -> HeardDatagram
        ensures { result ≡ heard_so was outcome.now silent }
    {
        HeardDatagram {
            was,
            taken: is_taken(outcome),
            delivered: is_delivery(outcome),
            silent,
        }
    }
}

/// What the owner of an end keeps for it (own): its timers, and what is known of its path. After each call that the end
/// took, call the one that says so, with the end and the time, in milliseconds since any moment.
#[derive(Clone, Copy)]
pub struct Upkeep {
    /// The timers that run.
    pub alarms: Alarms,
    /// The path, and the rules that are followed there.
    pub path: Path,
}

// The condition by which the timers run: rto does not run while a question comes first.
fn ruled_condition(path: &Path, sight: &Sight) -> Condition
    ensures { result ≡ ruled_condition path.now sight.now }
{
    Condition {
        phase: sight.phase,
        in_flight: 0 < sight.in_flight && !path.is_probing(sight),
    }
}

// Whether data came with a hole before them that no answer has reported. `is` is what the rules now see of the end.
fn is_hole(path: &Path, heard: &HeardDatagram, is: &Sight) -> bool
    ensures { result ≡ is_hole path.now heard.now.was is.now heard.now.delivered heard.now.silent }
{
    let far = 1 < heard.was.gsr.distance(is.gsr);
    path.pace.acks_soon && heard.delivered && heard.silent && far
}

// When an alarm runs out, if that is within a clock of 64 bits.
fn alarm_end(alarm: Option<Alarm>) -> Option<u64>
    ensures { result ≡ alarm_end alarm }
{
    let Some(alarm) = alarm else {
        return None;
    };
    if alarm.wait == 0 {
        return Some(0);
    }
    alarm.since.checked_add(alarm.wait)
}

fn earlier(time: Option<u64>, other: Option<u64>) -> Option<u64>
    ensures { result ≡ earlier time other }
{
    match (time, other) {
        (None, _) => other,
        (Some(_), None) => time,
        (Some(time), Some(other)) => Some(time.min(other)),
    }
}

impl Upkeep {
    ghost use Rattle.dccp_states.specs.declared.calls.Timer.TheVariants as timers;
    ghost use Rattle.dccp_uses.specs.Alarms.{has_run_out, starting_wait_by};
    ghost use Rattle.dccp_uses.specs.Path.{path_waits};
    ghost use Rattle.dccp_uses.specs.Upkeeps.{due_alarm, every_due, first_due, first_end, kept_called, kept_closed, kept_heard, kept_opened, kept_preferred, kept_ruled, kept_rung, kept_seen, kept_sent, upkeep_begins};

    /// No timer runs, and nothing is known of the path, on which these rules are followed.
    pub fn begins(pace: Pace) -> Upkeep
        ensures { result ≡ upkeep_begins pace }
    {
        Upkeep {
            alarms: Alarms::none(),
            path: Path::new(pace),
        }
    }

    /// How long the sender waits for a report from now on, in milliseconds (RFC 6298).
    pub fn timeout(&self) -> u64
        ensures { result ≡ starting_wait_by (path_waits self.now.path) self.now.alarms timers.Rto }
    {
        starting_wait(&self.path.waits(), &self.alarms, Timer::Rto)
    }

    // The alarm of what may be due.
    fn alarm(&self, due: Due) -> Option<Alarm>
        ensures { result ≡ due_alarm self.now due }
    {
        match due {
            Due::Timer(timer) => self.alarms.of(timer),
            Due::Rules => self.path.rules,
        }
    }

    /// Whether a timer, or a rule, is due at this time.
    pub fn is_due(&self, due: Due, now: u64) -> bool
        ensures { result ≡ has_run_out (due_alarm self.now due) now }
    {
        has_run_out(self.alarm(due), now)
    }

    /// The first of what is due: the six timers come before the rules.
    pub fn first_due(&self, now: u64) -> Option<Due>
        ensures { result ≡ first_due self.now now every_due }
    {
        if self.is_due(Due::Timer(Timer::Request), now) {
            return Some(Due::Timer(Timer::Request));
        }
        if self.is_due(Due::Timer(Timer::Ack), now) {
            return Some(Due::Timer(Timer::Ack));
        }
        if self.is_due(Due::Timer(Timer::Negotiate), now) {
            return Some(Due::Timer(Timer::Negotiate));
        }
        if self.is_due(Due::Timer(Timer::Rto), now) {
            return Some(Due::Timer(Timer::Rto));
        }
        if self.is_due(Due::Timer(Timer::Close), now) {
            return Some(Due::Timer(Timer::Close));
        }
        if self.is_due(Due::Timer(Timer::TimeWait), now) {
            return Some(Due::Timer(Timer::TimeWait));
        }
        if self.is_due(Due::Rules, now) {
            return Some(Due::Rules);
        }
        None
    }

    // When something is first due.
    fn first_end(&self) -> Option<u64>
        ensures { result ≡ first_end self.now every_due }
    {
        let rules = alarm_end(self.path.rules);
        let end = earlier(alarm_end(self.alarms.time_wait), rules);
        let end = earlier(alarm_end(self.alarms.close), end);
        let end = earlier(alarm_end(self.alarms.rto), end);
        let end = earlier(alarm_end(self.alarms.negotiate), end);
        let end = earlier(alarm_end(self.alarms.ack), end);
        earlier(alarm_end(self.alarms.request), end)
    }

    // The timers and the rules go on, by what the rules see of the end; no rule is due before `least` milliseconds have
    // gone by.
    fn go_on_seen(&mut self, sight: &Sight, least: u64, now: u64)
        ensures { self.new ≡ kept_seen now least self.old.alarms self.old.path sight.now }
    {
        let condition = ruled_condition(&self.path, sight);
        self.alarms.arrange(&self.path, &condition, now);
        self.path.arrange(&self.alarms, sight, least, now);
    }

    /// The end took a call that changes only its phase: the timers and the rules go on.
    pub fn go_on<C: Congestion>(&mut self, end: &Endpoint<C>, now: u64)
        ensures { self.new ≡ kept_called C.control now self.old end.now }
    {
        let sight = Sight::of(end);
        self.go_on_seen(&sight, 0, now);
    }

    /// The end has sent the first packet of its handshake.
    pub fn open<C: Congestion>(&mut self, end: &Endpoint<C>, now: u64)
        ensures { self.new ≡ kept_opened C.control now self.old end.now }
    {
        self.path.time_handshake(end.marks().gss, now);
        self.go_on(end, now);
    }

    /// It has sent data.
    pub fn send<C: Congestion>(&mut self, end: &Endpoint<C>, now: u64)
        ensures { self.new ≡ kept_sent C.control now self.old end.now }
    {
        self.path.time_data(end.marks().gss, now);
        self.path.note_flight(end.in_flight(), now);
        self.go_on(end, now);
    }

    /// It took a wish for a feature.
    pub fn prefer<C: Congestion>(&mut self, end: &Endpoint<C>, now: u64)
        ensures { self.new ≡ kept_preferred C.control now self.old end.now }
    {
        self.alarms.negotiate = None;
        self.go_on(end, now);
    }

    /// It began to close.
    pub fn close<C: Congestion>(&mut self, end: &Endpoint<C>, now: u64)
        ensures { self.new ≡ kept_closed C.control now self.old end.now }
    {
        self.path.give_up = None;
        self.go_on(end, now);
    }

    /// It has heard a datagram.
    pub fn hear<C: Congestion>(&mut self, heard: &HeardDatagram, end: &Endpoint<C>, now: u64)
        ensures { self.new ≡ kept_heard C.control now self.old heard.now end.now }
    {
        let is = Sight::of(end);
        let hole = is_hole(&self.path, heard, &is);
        self.path.hear(&heard.was, &is, heard.taken, now);
        let progress = is.in_flight < heard.was.in_flight;
        self.alarms
            .note_packet(&self.path, progress, heard.delivered, hole, now);
        self.go_on_seen(&is, 0, now);
    }

    /// It was called for a timer that has run out. If that does not run, and the phase does not have it, nothing changes.
    pub fn ring<C: Congestion>(&mut self, timer: Timer, end: &Endpoint<C>, now: u64)
        ensures { self.new ≡ kept_rung C.control now self.old timer end.now }
    {
        if self.alarms.is_idle(timer, end.phase()) {
            return;
        }
        let waits = self.path.waits();
        let sight = Sight::of(end);
        self.alarms.ring(&waits, timer, now);
        self.path.note_timer(timer, &sight, now);
        self.go_on_seen(&sight, 0, now);
    }

    /// A rule of its path made it do something.
    pub fn follow<C: Congestion>(&mut self, rule: Rule, end: &Endpoint<C>, now: u64)
        ensures { self.new ≡ kept_ruled C.control now self.old rule end.now }
    {
        let waits = self.path.waits();
        let sight = Sight::of(end);
        self.alarms.note_rule(&waits, rule, now);
        self.path.note_rule(rule, &sight, now);
        self.go_on_seen(&sight, 1, now);
    }
}

impl Moment for Upkeep {
    ghost moment_of = { upkeep_moment };

    fn moment(&self) -> Option<(u8, u64)> {
        match self.first_end() {
            Some(time) => Some((0, time)),
            None => None,
        }
    }
}
