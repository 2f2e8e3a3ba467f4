//! A schedule while it is played.
ghost use Rattle.std.specs.Prelude.{◌≡◌, ◌++◌, ℕ, List, is_some, if◌then◌else◌, IfOk, OnErr, OnOk, Some, Ok, Err};
ghost use Rattle.tool_jobs.specs.WorldLines.{end_lines};
ghost use Rattle.tool_text.specs.Jobs.{Judges, most_events};
ghost use Rattle.tool_text.specs.Refusals.{whole_line};
ghost use Rattle.tool_jobs.specs.Ends.{config_without_offers};
ghost use Rattle.tool_jobs.specs.Transcript.{first_play, starts, world_of, ArePeers, IsPlayable, SentFew, ShowsEvent, event_shown, by_line, run_job};
ghost use Rattle.tool_jobs.specs.Transcript.{with_header, configures, says_plain, says_version, vectors_of, with_iss, with_set, with_offered, wishing, offering, in_place, says_event, no_such_frame};
ghost use Rattle.dccp_endpoint.specs.Drafts.{Fits};
ghost use Rattle.feature_lists.specs.Wishes.{wish_of};
ghost use Rattle.feature_machine.specs.Lists.{IsLists};

use crate::run::world_lines::{arrived, put_end_lines, put_sent_line};
use ack_vectors::Vectors;
use ccid_two::Kinds;
use dccp_endpoint::{Config, Role};
use feature_lists::{Feature, Place};
use schedule_text::{Line, print_seen};
use seq_circle::{NoMemory, Seq48};
use std::alloc::Global;
use tool_text::{LineError, LineFault, LineWhy, MOST_EVENTS, whole_line};
use two_ends::{Event, Side, World, WorldFault};

/// The state of a schedule.
#[derive(Drop)]
pub(crate) struct Play {
    /// How many events took place.
    pub(crate) events: u32,
    /// Whether a line that has to come before all events was accepted.
    pub(crate) is_configured: bool,
    /// The configuration of the client.
    pub(crate) client: Config,
    /// The configuration of the server.
    pub(crate) server: Config,
    /// The two ends, from the first event on.
    pub(crate) world: Option<World<Kinds>>,
}

impl Play {
    /// The state before the first line: the two usual ends are configured, and no event took place.
    pub(crate) fn new() -> Play
        ensures { result ≡ first_play }
    {
        Play {
            events: 0,
            is_configured: false,
            client: Config::usual(Role::Client),
            server: Config::usual(Role::Server),
            world: None,
        }
    }

    /// Plays the line with this number, as it was read, or answers why it is refused. Faults that depend on more than
    /// the line are judged here, each at its place among those of the line: whether it has to come before all events
    /// (judged before the wish), the limit of events, and whether a frame was sent.
    pub(crate) fn say(
        &mut self,
        alloc: Global,
        number: u64,
        said: &Line,
        text: &mut Vec<u8>,
    ) -> Result<(), LineError>
        requires { IsPlayable self.old }
        ensures verdict { Judges run_job (by_line self.old number (Ok said.now)) text.old.items text.new.items self.new result }
        ensures playable { OnOk result (IsPlayable self.new) }
    {
        match said {
            Line::Nothing => Ok(()),
            Line::Version { number } => self.say_version(*number),
            Line::Plain => self.say_plain(),
            Line::Iss { side, number } => self.say_iss(*side, *number),
            Line::Set {
                side,
                place,
                feature,
                values,
            } => self.say_set(*side, *feature, *place, values.numbers()),
            Line::Offer {
                side,
                place,
                feature,
                mandatory,
            } => self.say_offer(*side, *feature, *place, *mandatory),
            Line::Event(event) => self.say_event(alloc, number, event, text),
        }
    }

    /// Judges what an end may not wish, once its line is known to come before all events.
    pub(crate) fn in_place(&self, fault: LineFault) -> LineFault
        ensures { result ≡ in_place self.now fault }
    {
        match fault.why {
            LineWhy::BadList | LineWhy::NotOurs if self.world.is_some() => {
                whole_line(LineWhy::HeaderLate)
            }
            _ => fault,
        }
    }

    // A line that has to come before all events is refused after the first.
    fn begin_header(&mut self) -> Result<(), LineFault>
        ensures answer { result ≡ (if is_some self.old.world then Err (whole_line LineWhy.HeaderLate) else Ok tt) }
        ensures accepted { OnOk result (self.new ≡ with_header self.old) }
        ensures refused { OnErr result (self.new ≡ self.old) }
    {
        if self.world.is_some() {
            return Err(whole_line(LineWhy::HeaderLate));
        }
        self.is_configured = true;
        Ok(())
    }

    // A version has to come before every other line that says something.
    fn check_first(&self) -> Result<(), LineFault>
        ensures { result ≡ (if self.now.is_configured then Err (whole_line LineWhy.HeaderLate) else Ok tt) }
    {
        if self.is_configured {
            Err(whole_line(LineWhy::HeaderLate))
        } else {
            Ok(())
        }
    }

    fn say_version(&mut self, number: u8) -> Result<(), LineError>
        requires { IsPlayable self.old }
        ensures verdict { (text : List ℕ) → Judges run_job (says_version self.old number) text text self.new result }
        ensures playable { IsPlayable self.new }
    {
        self.check_first()?;
        self.begin_header()?;
        let vectors = vectors_of(number);
        self.client.vectors = vectors;
        self.server.vectors = vectors;
        Ok(())
    }

    fn say_plain(&mut self) -> Result<(), LineError>
        requires { IsPlayable self.old }
        ensures verdict { (text : List ℕ) → Judges run_job (configures self.old says_plain) text text self.new result }
        ensures playable { IsPlayable self.new }
    {
        self.begin_header()?;
        offer_nothing(&mut self.client);
        offer_nothing(&mut self.server);
        Ok(())
    }

    fn say_iss(&mut self, side: Side, number: Seq48) -> Result<(), LineError>
        requires { IsPlayable self.old }
        ensures verdict { (text : List ℕ)
            → Judges run_job (configures self.old (with_iss side number)) text text self.new result }
        ensures playable { IsPlayable self.new }
    {
        self.begin_header()?;
        // Reading the number gives the prover that it fits.
        let _ = number.get();
        match side {
            Side::Client => self.client.iss = number,
            Side::Server => self.server.iss = number,
        }
        Ok(())
    }

    #[tactic(auto, unfolding(crate::specs::Transcript::with_set))]
    fn say_set(
        &mut self,
        side: Side,
        feature: Feature,
        place: Place,
        values: &[u64],
    ) -> Result<(), LineError>
        requires { IsPlayable self.old }
        ensures verdict { (text : List ℕ)
            → Judges run_job (configures self.old (with_set side feature place values.now)) text text self.new result }
        ensures playable { IsPlayable self.new }
    {
        self.begin_header()?;
        match side {
            Side::Client => wish_for(&mut self.client, feature, place, values),
            Side::Server => wish_for(&mut self.server, feature, place, values),
        }
        Ok(())
    }

    fn say_offer(
        &mut self,
        side: Side,
        feature: Feature,
        place: Place,
        mandatory: bool,
    ) -> Result<(), LineError>
        requires { IsPlayable self.old }
        ensures verdict { (text : List ℕ)
            → Judges run_job (configures self.old (with_offered side feature place mandatory)) text text self.new result }
        ensures playable { IsPlayable self.new }
    {
        self.begin_header()?;
        match side {
            Side::Client => offer(&mut self.client, feature, place, mandatory),
            Side::Server => offer(&mut self.server, feature, place, mandatory),
        }
        Ok(())
    }

    fn say_event(
        &mut self,
        alloc: Global,
        number: u64,
        event: &Event,
        text: &mut Vec<u8>,
    ) -> Result<(), LineError>
        requires { IsPlayable self.old }
        ensures verdict { Judges run_job (says_event self.old number event.now) text.old.items text.new.items self.new result }
        ensures playable { OnOk result (IsPlayable self.new) }
    {
        if MOST_EVENTS <= self.events {
            return Err(LineError::Refused(whole_line(LineWhy::TooManyEvents)));
        }
        self.make_world(alloc)?;
        let Some(world) = &mut self.world else {
            unreachable!()
        };
        show_event(world, number, event, text)?;
        self.events += 1;
        Ok(())
    }

    // Makes the world of the two configurations, if there is none yet.
    fn make_world(&mut self, alloc: Global) -> Result<(), NoMemory>
        requires { ArePeers self.old.client self.old.server }
        ensures { OnOk result (self.new ≡ record self.old { world = Some (world_of self.old) }) }
    {
        if self.world.is_some() {
            return Ok(());
        }
        self.begin_world(alloc)
    }

    // Not in `make_world`, which each event calls, since this takes room for a world.
    #[inline(never)]
    fn begin_world(&mut self, alloc: Global) -> Result<(), NoMemory>
        requires peers { ArePeers self.old.client self.old.server }
        requires fresh { self.old.world ≡ None }
        ensures { OnOk result (self.new ≡ record self.old { world = Some (world_of self.old) }) }
    {
        self.world = Some(first_world(alloc, self.client, self.server)?);
        Ok(())
    }

    /// Puts the two lines at a schedule's end.
    pub(crate) fn finish(&mut self, alloc: Global, text: &mut Vec<u8>) -> Result<(), NoMemory>
        requires { ArePeers self.old.client self.old.server }
        ensures { OnOk result (text.new.items ≡ text.old.items ++ end_lines (world_of self.old)) }
    {
        self.make_world(alloc)?;
        match &self.world {
            Some(world) => put_end_lines(text, world),
            None => unreachable!(),
        }
    }
}

// How many options the Ack Vectors of a version's packets have at most.
fn vectors_of(version: u8) -> Vectors
    ensures { result ≡ vectors_of version }
{
    if version == 2 {
        Vectors::Two
    } else {
        Vectors::One
    }
}

// A configuration that offers nothing.
fn offer_nothing(config: &mut Config)
    requires { Fits config.old }
    ensures plain { config.new ≡ config_without_offers config.old }
    ensures fits { Fits config.new }
{
    config.plain();
    lists_fit(config);
}

// Sets a wish. `read_line` refuses the lines of wishes that an end may not have.
fn wish_for(config: &mut Config, feature: Feature, place: Place, values: &[u64])
    requires { Fits config.old }
    ensures wish { config.new ≡ wishing config.old feature place (wish_of feature place values.now) }
    ensures fits { Fits config.new }
    ensures role { config.new.role ≡ config.old.role }
{
    let _ = config.set(feature, place, values);
    lists_fit(config);
}

// Adds an offer. `read_line` refuses the lines of offers that an end may not make.
fn offer(config: &mut Config, feature: Feature, place: Place, mandatory: bool)
    requires { Fits config.old }
    ensures offer { config.new ≡ offering config.old feature place mandatory }
    ensures fits { Fits config.new }
    ensures role { config.new.role ≡ config.old.role }
{
    let _ = config.offer(feature, place, mandatory);
    lists_fit(config);
}

// Reading the lists gives the prover that they are in order.
fn lists_fit(config: &Config)
    ensures { IsLists config.now.lists }
{
    let _ = config.lists.wish(Feature::Ccid, Place::Here);
}

// The world of two configurations, to which nothing has happened. Each end may use CCID 2 and 248.
fn first_world(alloc: Global, client: Config, server: Config) -> Result<World<Kinds>, NoMemory>
    requires { ArePeers client server }
    ensures { IfOk result (λ world. world ≡ starts client server) }
{
    let for_client = Kinds::new(alloc)?;
    let for_server = Kinds::new(alloc)?;
    World::new(alloc, client, server, for_client, for_server)
}

// Lets an event happen and puts its lines, or answers why its line is refused.
#[tactic(auto, using(crate::proofs::EventTelling::event_is_told, crate::proofs::Room::few_clients, crate::proofs::Room::few_servers))]
fn show_event(
    world: &mut World<Kinds>,
    number: u64,
    event: &Event,
    text: &mut Vec<u8>,
) -> Result<(), LineError>
    requires { SentFew world.old most_events }
    ensures { ShowsEvent (event_shown number world.old event.now) text.old.items text.new.items world.new result }
{
    let actor = event.actor();
    let before = world.frames(actor).len();
    match world.step(event) {
        Ok(seen) => {
            let bytes = arrived(world, event);
            print_seen(number, event, &seen, bytes, text)?;
            put_sent_line(text, world, actor, before)?;
            Ok(())
        }
        Err(WorldFault::NoSuchFrame) => Err(LineError::Refused(no_such_frame())),
        // An event sends at most one frame, and there are few events.
        Err(WorldFault::Full) => unreachable!(),
        Err(WorldFault::FarShort) => unreachable!(),
        Err(WorldFault::NoMemory) => Err(LineError::NoMemory),
    }
}

// The name of a frame follows `deliver `.
fn no_such_frame() -> LineFault
    ensures { result ≡ no_such_frame }
{
    LineFault {
        column: 9,
        why: LineWhy::NoSuchFrame,
    }
}
