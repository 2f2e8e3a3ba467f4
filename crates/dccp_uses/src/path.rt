//! What the owner of an end keeps of its path, and how the rules change it.
ghost use Rattle.std.specs.Prelude.{◌≡◌};
ghost use Rattle.dccp_uses.specs.Alarms.{alarm_after, starting_wait_by};
ghost use Rattle.dccp_uses.specs.Path.{acked_sample, aim_of, aimed, answered_probe, arranged_path, arranged_rules, by_rule, data_timed, either_of, fell, first_sent, flown, handshake_over, handshake_timed, heard_from, notice_heeded, is_answered, is_probing, kept_if, measured, path_begins, path_heard, path_waits, patience, patient_alarm, rules_alarm, rules_left, ruled_patience, sampled_if, sent_unless, since_sent, timed_out_path, told_timer, none_timed, used_window, wants_aim, window_left, with_flight};

use crate::alarms::{Alarm, Alarms, alarm_for, arrange_alarm, sooner, starting_wait};
use crate::sight::{is_handshake, is_open, is_stand_stable};
use crate::{Notice, Pace, Reader, Sight, Waits};
use dccp_endpoint::{Phase, Seq48, Timer};
use path_rules::{
    AckRatio, Bucket, RoundTrip, Wait, ack_ratio_aim, ack_wait, close_wait, far_syncs, near_syncs,
    negotiate_wait, period, probes_first, probing_wait, request_wait, rto_wait, wants_ack_ratio,
    window_within, with_sample,
};

/// A packet that was sent, and when.
#[derive(Clone, Copy)]
pub struct TimedPacket {
    /// Its number.
    pub number: Seq48,
    /// When it was sent, in milliseconds.
    pub at: u64,
}

/// What the owner of an end keeps of its path. The fields of a rule that it does not follow do not change.
#[derive(Clone, Copy)]
pub struct Path {
    /// The rules that are followed.
    pub pace: Pace,
    /// The round trip by its samples.
    pub round_trip: Option<RoundTrip>,
    /// The first packet of the handshake.
    pub first: Option<TimedPacket>,
    /// The packet whose acknowledgement gives the next sample.
    pub timed: Option<TimedPacket>,
    /// The most data packets that were in flight in this period.
    pub most: u32,
    /// The most of the previous period.
    pub before: u32,
    /// When this period began.
    pub period: u64,
    /// When the Ack Ratio was last asked for.
    pub asked: Option<u64>,
    /// The Ack Ratio that is wanted.
    pub aim: u64,
    /// The number of the question that comes before a timeout, once it was asked.
    pub probe: Option<Seq48>,
    /// The limit of Syncs for numbers near the greatest received.
    pub near: Bucket,
    /// The limit of Syncs for all other numbers.
    pub far: Bucket,
    /// The peer is asked for a sign of life; once it was asked, what is in flight is counted as lost.
    pub probing: Option<Alarm>,
    /// The Ack Ratio is asked for.
    pub ratio: Option<Alarm>,
    /// A silent peer is asked for a sign of life.
    pub silence: Option<Alarm>,
    /// The connection is given up.
    pub give_up: Option<Alarm>,
    /// The first of these four has run out.
    pub rules: Option<Alarm>,
    /// What is known of the application that reads the end's data.
    pub reader: Reader,
    /// What the datagram that was admitted last says about it.
    pub notice: Notice,
}

// A rule's wait, or the usual one if the rule is not followed.
fn by_rule(follows: bool, ruled: Wait, classic: Wait) -> Wait
    ensures { result ≡ by_rule follows ruled classic }
{
    if follows { ruled } else { classic }
}

impl Path {
    /// A path of which nothing is known, under these rules.
    pub fn new(pace: Pace) -> Path
        ensures { result ≡ path_begins pace }
    {
        Path {
            pace,
            round_trip: None,
            first: None,
            timed: None,
            most: 0,
            before: 0,
            period: 0,
            asked: None,
            aim: 2,
            probe: None,
            near: Bucket::full(&near_syncs(), 0),
            far: Bucket::full(&far_syncs(), 0),
            probing: None,
            ratio: None,
            silence: None,
            give_up: None,
            rules: None,
            reader: Reader::begins(),
            notice: Notice::none(),
        }
    }

    /// How long the timers wait by what is known of the path.
    pub fn waits(&self) -> Waits
        ensures { result ≡ path_waits self.now }
    {
        let classic = Waits::classic();
        let measures = self.pace.measures;
        let trip = self.round_trip;
        let negotiate = by_rule(
            self.probe.is_some(),
            probing_wait(trip),
            negotiate_wait(trip),
        );
        Waits {
            request: request_wait(),
            ack: by_rule(self.pace.acks_soon, ack_wait(), classic.ack),
            negotiate: by_rule(measures, negotiate, classic.negotiate),
            rto: by_rule(measures, rto_wait(trip), classic.rto),
            close: by_rule(measures, close_wait(trip), classic.close),
            time_wait: classic.time_wait,
        }
    }
}

fn first_sent(old: Option<TimedPacket>, sent: TimedPacket) -> Option<TimedPacket>
    ensures { result ≡ first_sent old sent }
{
    match old {
        Some(old) => Some(old),
        None => Some(sent),
    }
}

// How long ago this packet was sent, if it is the one that is acknowledged.
fn since_sent(timed: Option<TimedPacket>, gar: Seq48, now: u64) -> Option<u64>
    ensures { result ≡ since_sent timed gar now }
{
    match timed {
        Some(timed) if timed.number == gar => Some(now.saturating_sub(timed.at)),
        Some(_) | None => None,
    }
}

fn either_of(one: Option<u64>, other: Option<u64>) -> Option<u64>
    ensures { result ≡ either_of one other }
{
    match one {
        Some(one) => Some(one),
        None => other,
    }
}

// What the round trip is measured by.
impl Path {
    /// A packet of the handshake with this number was sent at `now`. Of these the first and the last are timed (own).
    pub fn time_handshake(&mut self, number: Seq48, now: u64)
        ensures { self.new ≡ handshake_timed self.old number now }
    {
        if !self.pace.measures {
            return;
        }
        self.first = first_sent(self.first, TimedPacket { number, at: now });
        self.timed = Some(TimedPacket { number, at: now });
    }

    /// Data with this number were sent at `now`. One packet at a time is timed (RFC 6298, section 3).
    pub fn time_data(&mut self, number: Seq48, now: u64)
        ensures { self.new ≡ data_timed self.old number now }
    {
        if self.pace.measures {
            self.timed = first_sent(self.timed, TimedPacket { number, at: now });
        }
    }

    // No packet is timed any more, and this sample counts, if there is one.
    fn take_sample(&mut self, sample: Option<u64>)
        ensures { self.new ≡ sampled_if (none_timed self.old) sample }
    {
        self.first = None;
        self.timed = None;
        if let Some(sample) = sample {
            self.round_trip = Some(with_sample(self.round_trip, sample));
        }
    }

    fn end_handshake(&mut self, gar: Seq48, now: u64)
        ensures { self.new ≡ handshake_over self.old gar now }
    {
        let first = since_sent(self.first, gar, now);
        let last = since_sent(self.timed, gar, now);
        self.take_sample(either_of(first, last));
    }

    fn take_acknowledged(&mut self, gar: Seq48, now: u64)
        ensures { self.new ≡ acked_sample self.old self.old.timed gar now }
    {
        match self.timed {
            Some(timed) if gar.is_from(timed.number) => {
                self.take_sample(Some(now.saturating_sub(timed.at)));
            }
            Some(_) | None => {}
        }
    }

    fn time_handshake_unless(&mut self, none: bool, number: Seq48, now: u64)
        ensures { self.new ≡ sent_unless none self.old number now }
    {
        if !none {
            self.time_handshake(number, now);
        }
    }

    // What a packet that was heard says about the round trip.
    fn measure(&mut self, old: &Sight, new: &Sight, now: u64)
        ensures { self.new ≡ measured self.old old.now new.now now }
    {
        if !self.pace.measures {
            return;
        }
        if is_handshake(new.phase) {
            self.time_handshake_unless(old.gss == new.gss, new.gss, now);
        } else if is_handshake(old.phase) {
            self.end_handshake(new.gar, now);
        } else {
            self.take_acknowledged(new.gar, now);
        }
    }
}

// What was in flight, and the Ack Ratio that is wanted for it.
impl Path {
    fn count_flight(&mut self, in_flight: u32, now: u64)
        ensures { self.new ≡ flown self.old in_flight now }
    {
        if period(self.round_trip) <= now.saturating_sub(self.period) {
            self.before = self.most;
            self.most = in_flight;
            self.period = now;
        } else {
            self.most = self.most.max(in_flight);
        }
    }

    /// `in_flight` data packets are in flight at `now` (own). The most of a period, which is at least a round trip, is
    /// kept.
    pub fn note_flight(&mut self, in_flight: u32, now: u64)
        ensures { self.new ≡ with_flight self.old in_flight now }
    {
        if self.pace.moves_ratio {
            self.count_flight(in_flight, now);
        }
    }

    // What the sender uses of its window.
    fn used_window(&self, window: u32) -> u32
        ensures { result ≡ used_window self.now window }
    {
        let most = u64::from(self.most.max(self.before));
        u64::from(window).min(2 * most) as u32
    }

    // The window of the sender: as much of the congestion control's window as the application that reads the data
    // leaves.
    fn window_left(&self, sight: &Sight) -> u32
        ensures { result ≡ window_left self.now sight.now }
    {
        window_within(self.reader.allowance, sight.window)
    }

    fn aim_of(&self, sight: &Sight) -> u64
        ensures { result ≡ aim_of self.now sight.now }
    {
        let window = self.window_left(sight);
        let used = self.used_window(window);
        ack_ratio_aim(window, used, sight.width.min(1 << 40))
    }

    fn wants_aim(&self, sight: &Sight, now: u64) -> bool
        ensures { result ≡ wants_aim self.now sight.now now }
    {
        if !self.pace.moves_ratio
            || sight.ccid != 2
            || !is_open(sight.phase)
            || !is_stand_stable(sight.ratio.stand)
        {
            return false;
        }
        let ratio = AckRatio {
            held: sight.ratio.value,
            asked: self.asked,
        };
        let aim = self.aim_of(sight);
        let window = self.window_left(sight);
        wants_ack_ratio(&ratio, aim, window, period(self.round_trip), now)
    }

    /// The Ack Ratio is asked for at once, if the one that is wanted differs enough from the present one (RFC 4341,
    /// section 6.1.2; own).
    pub fn aim_ratio(&mut self, sight: &Sight, now: u64)
        ensures { self.new ≡ aimed self.old sight.now now }
    {
        if self.wants_aim(sight, now) {
            self.aim = self.aim_of(sight);
            self.ratio = alarm_for(0, now);
        } else {
            self.ratio = None;
        }
    }
}

fn is_answered(probe: Option<Seq48>, gar: Seq48) -> bool
    ensures { result ≡ is_answered probe gar }
{
    match probe {
        Some(probe) => gar.is_from(probe),
        None => false,
    }
}

// What a packet that the end has heard says.
impl Path {
    fn answer_probe(&mut self, gar: Seq48, now: u64)
        ensures { self.new ≡ answered_probe self.old gar now }
    {
        if is_answered(self.probe, gar) {
            self.probing = alarm_for(0, now);
        }
    }

    fn note_taken(&mut self, taken: bool)
        ensures { self.new ≡ heard_from self.old taken }
    {
        if taken {
            self.silence = None;
            self.give_up = None;
        }
    }

    fn note_progress(&mut self, progress: bool)
        ensures { self.new ≡ fell self.old progress }
    {
        if progress && self.probe.is_none() {
            self.probing = None;
        }
    }

    // What the packet says about the application that reads the end's data counts.
    fn heed_notice(&mut self, old: &Sight, new: &Sight, taken: bool, now: u64)
        ensures { self.new ≡ notice_heeded self.old old.now new.now taken now }
    {
        if !self.pace.heeds {
            return;
        }
        if taken {
            self.reader
                .hear(self.round_trip, &self.notice, old, new, now);
        }
        self.notice = Notice::none();
    }

    /// The end has heard a packet at `now` (own). `old` and `new` are what the rules saw of the end before and after
    /// it; `taken` says whether the packet was taken.
    pub fn hear(&mut self, old: &Sight, new: &Sight, taken: bool, now: u64)
        ensures { self.new ≡ path_heard self.old old.now new.now taken now }
    {
        self.heed_notice(old, new, taken, now);
        self.measure(old, new, now);
        self.note_taken(taken);
        self.note_progress(new.in_flight < old.in_flight);
        self.note_flight(new.in_flight, now);
        self.aim_ratio(new, now);
        self.answer_probe(new.gar, now);
    }
}

// How long an end waits for its peer in this phase before it is given up.
fn patience(phase: Phase) -> Option<u64>
    ensures { result ≡ patience phase }
{
    match phase {
        Phase::Request => Some(180_000),
        Phase::Respond => Some(240_000),
        Phase::PartOpen | Phase::Open => Some(180_000),
        Phase::CloseReq | Phase::Closing => Some(120_000),
        Phase::Closed | Phase::Listen | Phase::TimeWait => None,
    }
}

fn ruled_patience(pace: &Pace, phase: Phase) -> Option<u64>
    ensures { result ≡ ruled_patience pace.now phase }
{
    if pace.gives_up { patience(phase) } else { None }
}

fn arrange_patience(alarm: &mut Option<Alarm>, patience: Option<u64>, now: u64)
    ensures { alarm.new ≡ patient_alarm patience alarm.old now }
{
    match patience {
        Some(wait) => arrange_alarm(alarm, true, wait, now),
        None => *alarm = None,
    }
}

fn rules_alarm(left: Option<u64>, least: u64, now: u64) -> Option<Alarm>
    ensures { result ≡ rules_alarm left least now }
{
    match left {
        Some(left) => Some(Alarm {
            since: now,
            wait: left.max(least),
        }),
        None => None,
    }
}

// Timers that have run out, and how the rules go on.
impl Path {
    ghost use Rattle.dccp_states.specs.declared.calls.Timer.TheVariants as timers;

    // After a timeout, at this GSS.
    pub(crate) fn time_out(&mut self, gss: Seq48)
        ensures { self.new ≡ timed_out_path self.old gss }
    {
        self.timed = None;
        if self.pace.heeds {
            self.reader.time_out(gss);
        }
    }

    /// The end was called at `now` for a timer that has run out; `sight` is what the rules see of it afterwards (own).
    /// After a timeout no packet is timed.
    pub fn note_timer(&mut self, timer: Timer, sight: &Sight, now: u64)
        ensures { self.new ≡ told_timer self.old timer sight.now now }
    {
        match timer {
            Timer::Request => self.time_handshake(sight.gss, now),
            Timer::Rto => {
                self.time_out(sight.gss);
                self.aim_ratio(sight, now);
            }
            Timer::Ack | Timer::Negotiate | Timer::Close | Timer::TimeWait => {}
        }
    }

    /// Whether the peer is asked for a sign of life before what is in flight is counted as lost, or was asked already
    /// (own). Meanwhile the timer rto does not run.
    pub fn is_probing(&self, sight: &Sight) -> bool
        ensures { result ≡ is_probing self.now sight.now }
    {
        self.pace.probes
            && is_open(sight.phase)
            && 0 < sight.in_flight
            && (probes_first(sight.window) || self.probe.is_some())
    }

    // The peer is asked, or is to be asked, for a sign of life exactly if `probing`: first after the wait with which the
    // timer rto would begin.
    fn arrange_probing(&mut self, probing: bool, alarms: &Alarms, now: u64)
        ensures { self.new ≡ record self.old {
          probe = kept_if probing self.old.probe;
          probing = alarm_after probing self.old.probing (starting_wait_by (path_waits self.old) alarms.now timers.Rto) now;
        } }
    {
        if !probing {
            self.probe = None;
            self.probing = None;
        } else if self.probing.is_none() {
            self.probing = alarm_for(starting_wait(&self.waits(), alarms, Timer::Rto), now);
        }
    }

    fn arrange_rules(&mut self, alarms: &Alarms, sight: &Sight, now: u64)
        ensures { self.new ≡ arranged_rules self.old (starting_wait_by (path_waits self.old) alarms.now timers.Rto) sight.now now }
    {
        let probing = self.is_probing(sight);
        let silent = self.pace.gives_up && is_open(sight.phase);
        let patience = ruled_patience(&self.pace, sight.phase);
        self.arrange_probing(probing, alarms, now);
        arrange_alarm(&mut self.silence, silent, 60_000, now);
        arrange_patience(&mut self.give_up, patience, now);
    }

    // In how many milliseconds a rule has something to do.
    fn rules_left(&self, now: u64) -> Option<u64>
        ensures { result ≡ rules_left self.now now }
    {
        let left = sooner(None, self.give_up, now);
        let left = sooner(left, self.probing, now);
        let left = sooner(left, self.silence, now);
        sooner(left, self.ratio, now)
    }

    /// The rules go on from `now` for an end with these timers, of which they see `sight` (own). No rule is due before
    /// `least` milliseconds have gone by: 1 after a rule made the end do something, otherwise 0.
    pub fn arrange(&mut self, alarms: &Alarms, sight: &Sight, least: u64, now: u64)
        ensures { self.new ≡ arranged_path self.old (starting_wait_by (path_waits self.old) alarms.now timers.Rto) sight.now least now }
    {
        self.arrange_rules(alarms, sight, now);
        self.rules = rules_alarm(self.rules_left(now), least, now);
    }
}
