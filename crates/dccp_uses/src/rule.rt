//! What a rule of a path makes its end do.
ghost use Rattle.std.specs.Prelude.{◌≡◌};
ghost use Rattle.dccp_uses.specs.Rules.{alarms_by_rule, asks_ratio, due_rule, path_by_rule, probe_rule, rule_does};

use crate::alarms::{Alarms, alarm_for, has_run_out};
use crate::{Path, Sight, Waits};
use dccp_endpoint::{Congestion, Endpoint, Feature, Outbox, Place, Seq48, Timer};

/// What a rule of a path makes its end do.
#[derive(Clone, Copy, Debug, PartialEq, Eq)]
pub enum Rule {
    /// Nothing: none is due.
    Nothing,
    /// The connection is given up.
    GiveUp,
    /// What is in flight is counted as lost.
    TimeOut,
    /// The peer is asked for a sign of life before what is in flight is counted as lost.
    Probe,
    /// A silent peer is asked for a sign of life.
    Ask,
    /// The Ack Ratio is asked for.
    Ratio,
}

// The rule of a probe: the question goes out, or has been out for long enough.
fn probe_rule(probe: Option<Seq48>) -> Rule
    ensures { result ≡ probe_rule probe }
{
    match probe {
        Some(_) => Rule::TimeOut,
        None => Rule::Probe,
    }
}

/// The first rule that is due at `now` (own).
pub fn due_rule(path: &Path, now: u64) -> Rule
    ensures { result ≡ due_rule path.now now }
{
    if has_run_out(path.give_up, now) {
        return Rule::GiveUp;
    }
    if has_run_out(path.probing, now) {
        return probe_rule(path.probe);
    }
    if has_run_out(path.silence, now) {
        return Rule::Ask;
    }
    if has_run_out(path.ratio, now) {
        return Rule::Ratio;
    }
    Rule::Nothing
}

// Asks for this Ack Ratio.
fn ask<C: Congestion>(end: &mut Endpoint<C>, ratio: u64, out: &mut Outbox) -> bool
    ensures { record { after = end.new; frame = out.new; answer = result } ≡ asks_ratio C.control end.old ratio }
{
    end.prefer(Feature::AckRatio, Place::Here, &[ratio], out)
        .is_ok()
}

/// The end does what the rule says, with an Ack Ratio of `aim` if it asks for one (own). Returns whether it did
/// something: also false if the end refused the call, which then has changed nothing.
pub fn obey<C: Congestion>(end: &mut Endpoint<C>, rule: Rule, aim: u64, out: &mut Outbox) -> bool
    ensures { record { after = end.new; frame = out.new; answer = result } ≡ rule_does C.control end.old rule aim }
{
    match rule {
        Rule::Nothing => {
            out.clear();
            false
        }
        Rule::GiveUp => end.abort(out).is_ok(),
        Rule::TimeOut => end.timer(Timer::Rto, out),
        Rule::Probe | Rule::Ask => {
            let held = end.held(Feature::AckRatio, Place::Here).value;
            ask(end, held, out)
        }
        Rule::Ratio => ask(end, aim, out),
    }
}

impl Alarms {
    /// A rule made the end do something at `now` (own). With a wish, the timer negotiate starts again.
    pub fn note_rule(&mut self, waits: &Waits, rule: Rule, now: u64)
        ensures { self.new ≡ alarms_by_rule waits.now self.old rule now }
    {
        match rule {
            Rule::Nothing | Rule::GiveUp => {}
            Rule::TimeOut => self.ring(waits, Timer::Rto, now),
            Rule::Probe | Rule::Ask | Rule::Ratio => self.negotiate = None,
        }
    }
}

impl Path {
    /// A rule made the end do something at `now`; `sight` is what the rules see of it afterwards (own).
    pub fn note_rule(&mut self, rule: Rule, sight: &Sight, now: u64)
        ensures { self.new ≡ path_by_rule self.old rule sight.now now }
    {
        match rule {
            Rule::Nothing => {}
            Rule::GiveUp => self.give_up = None,
            Rule::TimeOut => {
                self.probe = None;
                self.probing = None;
                self.time_out(sight.gss);
                self.aim_ratio(sight, now);
            }
            Rule::Probe => {
                self.probe = Some(sight.gss);
                self.probing = alarm_for(60_000, now);
            }
            Rule::Ask => self.silence = alarm_for(10_000, now),
            Rule::Ratio => {
                self.ratio = None;
                self.asked = Some(now);
            }
        }
    }
}
