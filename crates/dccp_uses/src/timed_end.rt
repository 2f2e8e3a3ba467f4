//! An end with its timers and the rules of its path, for an owner that carries its frames.
ghost use Rattle.std.specs.Prelude.{◌≡◌, not, is_some};

use crate::alarms::{Alarms, sooner};
use crate::reader::restraint_of;
use crate::rule::{due_rule, obey};
use crate::syncs::admit;
use crate::{HeardDatagram, Pace, Path, Restraint, Rule, SendRefusal, Sight, Upkeep};
use dccp_endpoint::{
    AbortFault, CloseFault, Config, Congestion, DecodedDatagram, Endpoint, Feature, NoMemory,
    OpenFault, Outbox, Outcome, Place, PreferFault, SendFault, Timer,
};
use std::alloc::Global;
use std::marker::Model;

/// What is due of an end: one of its timers has run out, or a rule of its path has something to do.
#[derive(Clone, Copy, Debug, PartialEq, Eq)]
pub enum Due {
    /// This timer has run out.
    Timer(Timer),
    /// A rule has something to do.
    Rules,
}

/// An end with its timers and the rules of its path. Its calls are those of `Endpoint`, with the time, in milliseconds
/// since any moment: each leaves a frame in the Outbox, or none. `tell` does what is `due`; ask for that after every
/// other call, and again once `until_first` has passed.
#[derive(Drop)]
pub struct TimedEnd<C> {
    end: Endpoint<C>,
    upkeep: Upkeep,
}

impl<C> Model for TimedEnd<C> {
    ghost use Rattle.dccp_uses.specs.Timed.{TimedState};

    ghost Value = { TimedState C };

    ghost view = { λ s. record { end = s.end; upkeep = s.upkeep } };
}

/// Whether no frame waits here (own).
pub fn is_silent(out: &Outbox) -> bool
    ensures { result ≡ not (is_some out.now) }
{
    out.frame().is_none()
}

impl<C: Congestion + Drop> TimedEnd<C> {
    ghost use Rattle.std.specs.Prelude.{◌≡◌, IfOk, IsTrue};
    ghost use Rattle.dccp_uses.specs.Timed.{timed_begins};

    /// An end that has sent and received nothing, under these rules. The congestion control has to know CCID 2.
    pub fn new(
        alloc: Global,
        config: Config,
        congestion: C,
        pace: Pace,
    ) -> Result<TimedEnd<C>, NoMemory>
        requires { IsTrue (C.control.is_known 2) }
        ensures { IfOk result (λ s. s ≡ timed_begins C.control config congestion pace) }
    {
        let end = Endpoint::new(alloc, config, congestion)?;
        Ok(TimedEnd {
            end,
            upkeep: Upkeep::begins(pace),
        })
    }
}

impl<C: Congestion> TimedEnd<C> {
    ghost use Rattle.std.specs.Prelude.{◌≡◌, ◌≤◌, ◌↔◌, Err, IfSome, OnErr, None, Some, length};
    ghost use Rattle.dccp_endpoint.specs.Controlled.{in_flight_of};
    ghost use Rattle.dccp_endpoint.specs.Outcomes.{HasCause};
    ghost use Rattle.dccp_states.specs.declared.calls.Timer.TheVariants as timers;
    ghost use Rattle.dccp_uses.specs.Alarms.{has_run_out, starting_wait_by};
    ghost use Rattle.dccp_uses.specs.Path.{path_waits};
    ghost use Rattle.dccp_uses.specs.Reader.{restraint_of};
    ghost use Rattle.dccp_uses.specs.Timed.{due_told, first_wait_left, obeys, timed_aborts, timed_closes, timed_fires, timed_hands, timed_hears, timed_opens, timed_prefers, timed_sends, timed_takes, tells_rules};
    ghost use Rattle.dccp_uses.specs.Upkeeps.{due_alarm, every_due, first_due};

    /// The end, to be read.
    pub fn end(&self) -> &Endpoint<C>
        ensures { result.now ≡ self.now.end }
    {
        &self.end
    }

    /// The timers that run.
    pub fn alarms(&self) -> &Alarms
        ensures { result.now ≡ self.now.upkeep.alarms }
    {
        &self.upkeep.alarms
    }

    /// What is kept of its path.
    pub fn path(&self) -> &Path
        ensures { result.now ≡ self.now.upkeep.path }
    {
        &self.upkeep.path
    }

    /// How long the sender waits for a report from now on, in milliseconds (RFC 6298).
    pub fn timeout(&self) -> u64
        ensures { result ≡ starting_wait_by (path_waits self.now.upkeep.path) self.now.upkeep.alarms timers.Rto }
    {
        self.upkeep.timeout()
    }

    /// A client asks for its service, once. Refused as `Endpoint::open` is; then nothing has changed and there is no
    /// frame.
    pub fn open(&mut self, now: u64, out: &mut Outbox) -> Result<(), OpenFault>
        ensures step { record { timed = self.new; frame = out.new; answer = result } ≡ timed_opens C.control now self.old }
        ensures refused { OnErr result (self.new ≡ self.old) }
        ensures sends_nothing { OnErr result (out.new ≡ None) }
    {
        self.end.open(out)?;
        self.upkeep.open(&self.end, now);
        Ok(())
    }

    /// Why data have to wait for the application that reads them, or None if they need not (RFC 4340, sections 11.6 and
    /// 11.7).
    pub fn restraint(&self) -> Option<Restraint>
        ensures { result ≡ restraint_of self.now.upkeep.path.reader (in_flight_of C.control self.now.end.congestion) }
    {
        restraint_of(&self.upkeep.path.reader, self.end.in_flight())
    }

    /// Sends data, at most 1,024 bytes. Refused with `Held` exactly if there is a `restraint`; otherwise refused as
    /// `Endpoint::send_soon` is. Then nothing has changed and there is no frame.
    pub fn send(&mut self, payload: &[u8], now: u64, out: &mut Outbox) -> Result<(), SendRefusal>
        ensures step { record { timed = self.new; frame = out.new; answer = result } ≡ timed_sends C.control now self.old payload.now }
        ensures held { (why : Restraint) → (result ≡ Err (SendRefusal.Held why)) ↔ (restraint_of self.old.upkeep.path.reader (in_flight_of C.control self.old.end.congestion) ≡ Some why) }
        ensures refused { OnErr result (self.new ≡ self.old) }
        ensures sends_nothing { OnErr result (out.new ≡ None) }
    {
        if let Some(why) = self.restraint() {
            out.clear();
            return Err(SendRefusal::Held(why));
        }
        match self.hand(payload, now, out) {
            Ok(()) => Ok(()),
            Err(fault) => Err(SendRefusal::Refused(fault)),
        }
    }

    // Data go to the end.
    fn hand(&mut self, payload: &[u8], now: u64, out: &mut Outbox) -> Result<(), SendFault>
        ensures step { record { timed = self.new; frame = out.new; answer = result } ≡ timed_hands C.control now self.old payload.now }
        ensures refused { OnErr result (self.new ≡ self.old) }
        ensures sends_nothing { OnErr result (out.new ≡ None) }
    {
        self.end.send_soon(payload, out)?;
        self.upkeep.send(&self.end, now);
        Ok(())
    }

    /// Asks for these values of a feature, best first. Refused as `Endpoint::prefer` is; then nothing has changed and
    /// there is no frame.
    pub fn prefer(
        &mut self,
        feature: Feature,
        place: Place,
        values: &[u64],
        now: u64,
        out: &mut Outbox,
    ) -> Result<(), PreferFault>
        ensures step { record { timed = self.new; frame = out.new; answer = result } ≡ timed_prefers C.control now self.old feature place values.now }
        ensures refused { OnErr result (self.new ≡ self.old) }
        ensures sends_nothing { OnErr result (out.new ≡ None) }
    {
        self.end.prefer(feature, place, values, out)?;
        self.upkeep.prefer(&self.end, now);
        Ok(())
    }

    /// Ends the connection in order. Refused as `Endpoint::close` is; then nothing has changed and there is no frame.
    pub fn close(&mut self, now: u64, out: &mut Outbox) -> Result<(), CloseFault>
        ensures step { record { timed = self.new; frame = out.new; answer = result } ≡ timed_closes C.control now self.old }
        ensures refused { OnErr result (self.new ≡ self.old) }
        ensures sends_nothing { OnErr result (out.new ≡ None) }
    {
        self.end.close(out)?;
        self.upkeep.close(&self.end, now);
        Ok(())
    }

    /// Gives the connection up. Refused as `Endpoint::abort` is; then nothing has changed and there is no frame.
    pub fn abort(&mut self, now: u64, out: &mut Outbox) -> Result<(), AbortFault>
        ensures step { record { timed = self.new; frame = out.new; answer = result } ≡ timed_aborts C.control now self.old }
        ensures refused { OnErr result (self.new ≡ self.old) }
        ensures sends_nothing { OnErr result (out.new ≡ None) }
    {
        self.end.abort(out)?;
        self.upkeep.go_on(&self.end, now);
        Ok(())
    }

    /// Takes a datagram of at most 2,044 bytes from the peer. None if it is left out, since it would be answered by one
    /// Sync too many: then only that limit has changed.
    pub fn receive(
        &mut self,
        datagram: &DecodedDatagram<'_>,
        now: u64,
        out: &mut Outbox,
    ) -> Option<Outcome>
        requires { length datagram.now ≤ 2044 }
        ensures step { record { timed = self.new; frame = out.new; answer = result } ≡ timed_takes C.control now self.old datagram.now }
        ensures cause { IfSome result (λ outcome. HasCause self.old.end.state datagram.now outcome) }
    {
        let heard = admit(&self.end, &mut self.upkeep.path, datagram, now);
        if !heard {
            out.clear();
            return None;
        }
        Some(self.hear(datagram, now, out))
    }

    // The end hears a datagram.
    fn hear(&mut self, datagram: &DecodedDatagram<'_>, now: u64, out: &mut Outbox) -> Outcome
        requires { length datagram.now ≤ 2044 }
        ensures step { record { timed = self.new; frame = out.new; answer = result } ≡ timed_hears C.control now self.old datagram.now }
        ensures cause { HasCause self.old.end.state datagram.now result }
    {
        let was = Sight::of(&self.end);
        let outcome = datagram.reach(&mut self.end, out);
        let heard = HeardDatagram::new(was, &outcome, is_silent(out));
        self.upkeep.hear(&heard, &self.end, now);
        outcome
    }

    /// A timer has run out: the end's own, or one that its owner keeps. False if it has nothing to do. If it does not run,
    /// and the phase afterwards does not have it, no timer and no rule changes.
    pub fn timer(&mut self, timer: Timer, now: u64, out: &mut Outbox) -> bool
        ensures { record { timed = self.new; frame = out.new; answer = result } ≡ timed_fires C.control now self.old timer }
    {
        let applies = self.end.timer(timer, out);
        self.upkeep.ring(timer, &self.end, now);
        applies
    }

    // The first rule that is due makes its end do something. False if none does.
    fn obey_rules(&mut self, now: u64, out: &mut Outbox) -> bool
        ensures { record { timed = self.new; frame = out.new; answer = result } ≡ tells_rules C.control now self.old }
    {
        let rule = due_rule(&self.upkeep.path, now);
        self.obey_rule(rule, now, out)
    }

    // This rule makes its end do something.
    fn obey_rule(&mut self, rule: Rule, now: u64, out: &mut Outbox) -> bool
        ensures { record { timed = self.new; frame = out.new; answer = result } ≡ obeys C.control now self.old rule }
    {
        let did = obey(&mut self.end, rule, self.upkeep.path.aim, out);
        self.upkeep.follow(rule, &self.end, now);
        did
    }

    /// Whether a timer, or a rule, is due at this time.
    pub fn is_due(&self, due: Due, now: u64) -> bool
        ensures { result ≡ has_run_out (due_alarm self.now.upkeep due) now }
    {
        self.upkeep.is_due(due, now)
    }

    /// Does what is due: a timer, or what a rule makes the end do. Returns whether the end had something to do.
    pub fn tell(&mut self, due: Due, now: u64, out: &mut Outbox) -> bool
        ensures { record { timed = self.new; frame = out.new; answer = result } ≡ due_told C.control now self.old due }
    {
        match due {
            Due::Timer(timer) => self.timer(timer, now, out),
            Due::Rules => self.obey_rules(now, out),
        }
    }

    /// In how many milliseconds something is due, or None if nothing will be.
    pub fn until_first(&self, now: u64) -> Option<u64>
        ensures { result ≡ first_wait_left self.now now }
    {
        sooner(
            self.upkeep.alarms.until_first(now),
            self.upkeep.path.rules,
            now,
        )
    }

    /// The first of what is due, in a session's order: the six timers, and then the rules.
    pub fn due(&self, now: u64) -> Option<Due>
        ensures { result ≡ first_due self.now.upkeep now every_due }
    {
        self.upkeep.first_due(now)
    }
}
