//! The run of a seed.
ghost use Rattle.std.specs.Prelude.{◌≡◌, ℕ, ◌+◌, ◌*◌, ◌^◌, ◌<◌, ◌≤◌, IfOk, OnOk};
ghost use Rattle.dccp_endpoint.specs.ShortForm.{is_stable};
ghost use Rattle.fault_campaign.specs.Reports.{is_settled, settled_at, settles, size};
ghost use Rattle.fault_campaign.specs.Draws.{after_two, after_one, drawn, drawn_delivery, ending, generator, preference, sending, word};
ghost use Rattle.fault_campaign.specs.Seeded.{begun_run, frames_of, goes_on, goes_on_for, next_event, played, run_report, seeded_report, usual_from};
ghost use Rattle.two_ends.specs.Pairs.{place_at};

use crate::Report;
use crate::draws::{
    become_preference, become_sending, drawn, drawn_index, drawn_timer, ending, generator,
    initial_number, next_word,
};
use ccid_two::Kinds;
use dccp_endpoint::{Config, Feature, Place, Role, Stand, Timer};
use rand_pcg::Pcg32;
use seq_circle::{NoMemory, Seq48};
use std::alloc::Global;
use std::marker::Model;
use two_ends::{Event, Side, World, WorldFault};

/// The run of a seed in progress, for users of its single events (own). `run_seed` makes a whole run.
#[derive(Drop)]
pub struct OngoingRun {
    words: Pcg32,
    world: World<Kinds>,
    report: Report,
}

impl Model for OngoingRun {
    ghost use Rattle.fault_campaign.specs.Draws.{after_two};
    ghost use Rattle.fault_campaign.specs.Seeded.{RunState};

    ghost Value = { RunState };

    ghost view = { λ r. record { words = r.words; world = r.world; report = r.report } };
}

impl OngoingRun {
    /// The run of a seed before its first event, which opens the connection (own). It takes the memory of two ends;
    /// NoMemory if there is none.
    #[tactic(auto, unfolding(crate::specs::Seeded::begun_run))]
    pub fn of_seed(alloc: Global, seed: u64) -> Result<OngoingRun, NoMemory>
        ensures { IfOk result (λ run. run ≡ begun_run (generator seed)) }
    {
        let mut words = generator(seed);
        let client = usual_from(Role::Client, initial_number(&mut words));
        let server = usual_from(Role::Server, initial_number(&mut words));
        let for_client = Kinds::new(alloc)?;
        let for_server = Kinds::new(alloc)?;
        let world = World::new(alloc, client, server, for_client, for_server)?;
        Ok(OngoingRun {
            words,
            world,
            report: Report::nothing(),
        })
    }

    /// Draws the next event, which depends on how many frames there are (own). It has not happened yet.
    pub fn draw(&mut self) -> Event
        ensures event { result ≡ next_event self.old }
        ensures rest { self.new ≡ record self.old { words = after_two self.old.words } }
    {
        let (a, b) = self.next_words();
        drawn(a, b, self.frames(Side::Client), self.frames(Side::Server))
    }

    /// Lets an event happen, and counts it (own); one that cannot happen changes nothing. NoMemory comes if there is
    /// none for a frame, and then nothing is promised about the run. The counts have room for 2^61 events.
    #[tactic(auto, unfolding(crate::specs::Seeded::played))]
    #[inline(always)]
    pub fn play(&mut self, event: &Event) -> Result<(), NoMemory>
        requires { size self.old.report < 2 ^ 62 }
        ensures { OnOk result (self.new ≡ played self.old event.now) }
    {
        match self.world.step(event) {
            Ok(seen) => self.report.count(seen),
            Err(WorldFault::NoMemory) => return Err(NoMemory),
            Err(_) => {}
        }
        Ok(())
    }

    fn frames(&self, side: Side) -> u64
        ensures { result ≡ frames_of self.now side }
    {
        self.world.frames(side).len() as u64
    }

    // The next two words.
    fn next_words(&mut self) -> (u32, u32)
        ensures first { result.0 ≡ word self.old.words }
        ensures second { result.1 ≡ word (after_one self.old.words) }
        ensures rest { self.new ≡ record self.old { words = after_two self.old.words } }
    {
        (next_word(&mut self.words), next_word(&mut self.words))
    }

    // Plays the next event. `play` is inlined, so that no kind of event is told from the others twice.
    fn go_on(&mut self, again: &mut EventKit) -> Result<(), NoMemory>
        requires { size self.old.report < 2 ^ 62 }
        ensures { OnOk result (self.new ≡ goes_on self.old) }
    {
        let (a, b) = self.next_words();
        let (clients, servers) = (self.frames(Side::Client), self.frames(Side::Server));
        self.play(again.drawn(a, b, clients, servers))
    }

    // Plays `more` further events.
    fn go_on_with(&mut self, again: &mut EventKit, more: u32) -> Result<(), NoMemory>
        requires { size self.old.report + 2 * more < 2 ^ 62 }
        ensures { OnOk result (self.new ≡ goes_on_for more self.old) }
    {
        for _ in 0..more {
            self.go_on(again)?;
        }
        Ok(())
    }

    // All events of a run that has just begun.
    fn play_all(&mut self, again: &mut EventKit, events: u32) -> Result<Report, NoMemory>
        requires some { 1 ≤ events }
        requires few { size self.old.report + 2 * events < 2 ^ 62 }
        ensures { (seed : ℕ) → self.old ≡ begun_run (generator seed)
            → IfOk result (λ report. report ≡ seeded_report seed events) }
    {
        self.play(&Event::Open)?;
        self.go_on_with(again, events - 1)?;
        Ok(self.report(events))
    }

    fn report(&self, events: u32) -> Report
        ensures { result ≡ run_report self.now events }
    {
        Report {
            seeds: 1,
            events: u64::from(events),
            client_frames: self.frames(Side::Client),
            server_frames: self.frames(Side::Server),
            settled: settled_at(&self.world, Side::Client) + settled_at(&self.world, Side::Server),
            ..self.report
        }
    }
}

// An event of each kind, which is drawn again and again with other parts, in one run after another. An event is large,
// since it has room for data, and a new one would clear that room.
#[derive(Drop)]
pub(crate) struct EventKit {
    delivery: Event,
    timer: Event,
    sending: Event,
    preference: Event,
    ending: Event,
}

impl EventKit {
    pub(crate) fn new() -> EventKit {
        EventKit {
            delivery: Event::Open,
            timer: Event::Open,
            sending: Event::Open,
            preference: Event::Open,
            ending: Event::Open,
        }
    }

    // The event of two words, if the client and the server have sent these numbers of frames. It is changed in place,
    // since it would move with its room for data.
    #[tactic(auto, unfolding(crate::specs::Draws::drawn))]
    fn drawn(&mut self, a: u32, b: u32, clients: u64, servers: u64) -> &Event
        ensures { result.now ≡ drawn a b clients servers }
    {
        match a % 32 {
            0..=11 => self.delivery(Side::Client, clients, b),
            12..=23 => self.delivery(Side::Server, servers, b),
            24 => self.sending(Side::Client, b),
            25 => self.sending(Side::Server, b),
            26 => self.preference(Side::Client, b % 8, b / 8),
            27 => self.preference(Side::Server, b % 8, b / 8),
            28 => self.timer(Side::Client, drawn_timer(b % 6)),
            29 => self.timer(Side::Server, drawn_timer(b % 6)),
            30 => self.ending(b % 512),
            _ => self.timer(Side::Server, Timer::Negotiate),
        }
    }

    // A frame of this side arrives; if there is none, the client's timer runs out.
    fn delivery(&mut self, from: Side, frames: u64, b: u32) -> &Event
        ensures { result.now ≡ drawn_delivery from frames b }
    {
        if frames == 0 {
            return self.timer(Side::Client, Timer::Request);
        }
        self.delivery
            .become_delivery(from, drawn_index(u64::from(b), frames));
        &self.delivery
    }

    fn sending(&mut self, side: Side, b: u32) -> &Event
        ensures { result.now ≡ sending side b }
    {
        become_sending(&mut self.sending, side, b);
        &self.sending
    }

    fn preference(&mut self, side: Side, which: u32, rest: u32) -> &Event
        ensures { result.now ≡ preference side which rest }
    {
        become_preference(&mut self.preference, side, which, rest);
        &self.preference
    }

    fn timer(&mut self, side: Side, timer: Timer) -> &Event
        ensures { result.now ≡ Event.Timer side timer }
    {
        self.timer.become_timer(side, timer);
        &self.timer
    }

    // The connection ends seldom, and then the event is made anew.
    fn ending(&mut self, which: u32) -> &Event
        ensures { result.now ≡ ending which }
    {
        match which {
            0..=3 => {
                self.ending = ending(which);
                &self.ending
            }
            _ => self.timer(Side::Client, Timer::Negotiate),
        }
    }
}

// The usual end with another initial number.
fn usual_from(role: Role, number: Seq48) -> Config
    ensures { result ≡ usual_from role number }
{
    let mut config = Config::usual(role);
    config.iss = number;
    config
}

fn is_stable(stand: Stand) -> bool
    ensures { result ≡ is_stable stand }
{
    match stand {
        Stand::Stable => true,
        Stand::Changing | Stand::Unstable => false,
    }
}

fn place_at(side: Side, location: Side) -> Place
    ensures { result ≡ place_at side location }
{
    if side == location {
        return Place::Here;
    }
    Place::There
}

// Whether both ends call the feature at this side settled.
fn is_settled(world: &World<Kinds>, location: Side, feature: Feature) -> bool
    ensures { result ≡ is_settled world.now.world (record { feature = feature; location = location }) }
{
    let clients = world
        .end(Side::Client)
        .held(feature, place_at(Side::Client, location));
    let servers = world
        .end(Side::Server)
        .held(feature, place_at(Side::Server, location));
    is_stable(clients.stand) && is_stable(servers.stand)
}

// 1 if it is so, otherwise 0.
fn settles(world: &World<Kinds>, location: Side, feature: Feature) -> u64
    ensures value { result ≡ settles world.now.world location feature }
    ensures few { result ≤ 1 }
{
    if is_settled(world, location, feature) {
        1
    } else {
        0
    }
}

fn settled_at(world: &World<Kinds>, location: Side) -> u64
    ensures value { result ≡ settled_at world.now.world location }
    ensures few { result ≤ 9 }
{
    settles(world, location, Feature::Ccid)
        + settles(world, location, Feature::ShortSeqnos)
        + settles(world, location, Feature::SequenceWindow)
        + settles(world, location, Feature::EcnIncapable)
        + settles(world, location, Feature::AckRatio)
        + settles(world, location, Feature::SendAckVector)
        + settles(world, location, Feature::SendNdpCount)
        + settles(world, location, Feature::MinCsCov)
        + settles(world, location, Feature::CheckDataChecksum)
}

/// Runs a seed (own), with this many events, and returns what was counted. The ends are the usual ones, with initial
/// sequence numbers that are drawn; the first event opens the connection, and all others are drawn: most deliver one of
/// the frames that were sent last, or sometimes an older one; others send data, prefer other values, let timers run
/// out, or end the connection. The two ends take their memory once; each event takes that of a frame.
pub fn run_seed(alloc: Global, seed: u64, events: u32) -> Result<Report, NoMemory>
    requires events { 1 ≤ events × events ≤ 4096 }
    ensures value { IfOk result (λ report. report ≡ seeded_report seed events) }
{
    run_seed_with(alloc, &mut EventKit::new(), seed, events)
}

// The same with events that earlier runs have used.
pub(crate) fn run_seed_with(
    alloc: Global,
    again: &mut EventKit,
    seed: u64,
    events: u32,
) -> Result<Report, NoMemory>
    requires events { 1 ≤ events × events ≤ 4096 }
    ensures value { IfOk result (λ report. report ≡ seeded_report seed events) }
{
    let mut run = OngoingRun::of_seed(alloc, seed)?;
    run.play_all(again, events)
}
