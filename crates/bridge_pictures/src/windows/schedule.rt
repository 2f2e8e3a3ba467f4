//! `windows`: a job over a schedule's lines, which plays them as `run` does.
ghost use Rattle.std.specs.Prelude.{◌≡◌, ◌++◌, ℕ, List, OnOk, Some};
ghost use Rattle.dccp_io.specs.Counts.{Rose};
ghost use Rattle.tool_jobs.specs.Transcript.{IsPlayable};
ghost use Rattle.tool_text.specs.Ends.{Answers, IsAnswered, EndsForCause, SinkFails, StopsWithin};
ghost use Rattle.bridge_pictures.specs.Played as spec;
ghost use Rattle.bridge_pictures.specs.Played.{windows_accepted, windows_refusal, windows_refused, windows_text};

use crate::windows::graph::Graph;
use crate::windows::trace::{Trace, counts_of};
use ccid_two::Kinds;
use dccp_io::{Sink, Source};
use seq_circle::NoMemory;
use std::alloc::Global;
use std::marker::Model;
use tool_jobs::Schedule;
use tool_text::{LineError, LineJob, LinesEnd, run_lines_apart};
use two_ends::World;
use world_events::Side;

// What is noted below the charts.
const HEADING: &[u8] =
    b"event, end, and its features as number=Here/There, * in CHANGING, ! in UNSTABLE";

/// The windows of a world while they are drawn.
#[derive(Drop)]
pub(crate) struct WorldWindows {
    alloc: Global,
    graph: Graph,
    client: Trace,
    server: Trace,
}

impl Model for WorldWindows {
    ghost use Rattle.bridge_pictures.specs.Played.{WorldDrawing};

    ghost Value = { WorldDrawing };

    ghost view = { λ d. record { graph = d.graph; client = d.client; server = d.server } };
}

impl WorldWindows {
    // Before the first event.
    fn new(alloc: Global) -> WorldWindows
        ensures { result ≡ spec.first_world_drawing }
    {
        WorldWindows {
            alloc,
            graph: Graph::new(alloc),
            client: Trace::new(alloc),
            server: Trace::new(alloc),
        }
    }

    // Draws the column of an event that left this world.
    #[tactic(auto, unfolding(crate::specs::Played::world_drawn))]
    fn draw(&mut self, world: &World<Kinds>, said: &[u8]) -> Result<(), NoMemory>
        ensures { OnOk result (self.new ≡ spec.world_drawn self.old world.now said.now) }
    {
        let client = counts_of(world.end(Side::Client));
        let server = counts_of(world.end(Side::Server));
        self.graph.draw(client, server, said)?;
        self.client
            .watch(self.alloc, &mut self.graph, Side::Client, world)?;
        self.server
            .watch(self.alloc, &mut self.graph, Side::Server, world)
    }

    // Puts the picture after the last event, which left this world.
    #[tactic(auto, unfolding(crate::specs::Played::world_picture))]
    fn put_picture(&self, text: &mut Vec<u8>, world: &World<Kinds>) -> Result<(), NoMemory>
        ensures { OnOk result (text.new.items ≡ text.old.items ++ spec.world_picture self.now world.now) }
    {
        let mut client = Vec::new(self.alloc);
        self.client
            .put_losses(&mut client, world.processed(Side::Server))?;
        let mut server = Vec::new(self.alloc);
        self.server
            .put_losses(&mut server, world.processed(Side::Client))?;
        self.graph.put_picture(text, HEADING, &client, &server)
    }
}

/// A schedule while it is played and its windows are drawn.
#[derive(Drop)]
pub(crate) struct PlayedWindows {
    schedule: Schedule,
    drawn: WorldWindows,
}

impl Model for PlayedWindows {
    ghost use Rattle.bridge_pictures.specs.Played.{PlayState};

    ghost Value = { PlayState };

    ghost view = { λ p. record { play = p.schedule; drawn = p.drawn } };
}

impl PlayedWindows {
    // Before the first line.
    fn new(alloc: Global) -> PlayedWindows
        ensures value { result ≡ spec.first_played }
        ensures playable { IsPlayable result.play }
    {
        PlayedWindows {
            schedule: Schedule::new(),
            drawn: WorldWindows::new(alloc),
        }
    }

    // Draws what a line said: an event that took place has a column.
    #[tactic(auto, unfolding(crate::specs::Played::event_drawn))]
    fn draw(&mut self, said: &[u8]) -> Result<(), NoMemory>
        ensures drawn { OnOk result (self.new ≡ spec.event_drawn self.old said.now) }
        ensures play { OnOk result (self.new.play ≡ self.old.play) }
    {
        if said.is_empty() {
            return Ok(());
        }
        match self.schedule.world() {
            Some(world) => self.drawn.draw(world, said),
            None => Ok(()),
        }
    }
}

impl LineJob for PlayedWindows {
    ghost use Rattle.std.specs.Prelude.{ℕ};
    ghost use Rattle.tool_jobs.specs.Transcript.{IsPlayable};
    ghost use Rattle.bridge_pictures.specs.Played.{windows_job};

    ghost Deed = { Unit {0} };

    ghost job = { windows_job };

    ghost keeps = { λ played number. IsPlayable played.play };

    #[tactic(auto, using(crate::proofs::Playing::refused_so, crate::proofs::Playing::accepted_so))]
    fn judge(
        &mut self,
        alloc: Global,
        number: u64,
        line: &[u8],
        _text: &mut Vec<u8>,
    ) -> Result<(), LineError> {
        let mut said = Vec::new(alloc);
        match self.schedule.judge(alloc, number, line, &mut said) {
            Err(error) => Err(error),
            Ok(()) => {
                self.draw(&said)?;
                Ok(())
            }
        }
    }

    #[tactic(auto, unfolding(crate::specs::Played::played_picture))]
    fn finish(&mut self, _alloc: Global, text: &mut Vec<u8>) -> Result<(), NoMemory> {
        let played = &*self;
        match played.schedule.world() {
            Some(world) => played.drawn.put_picture(text, world),
            None => played.drawn.graph.put_picture(text, HEADING, b"", b""),
        }
    }
}

/// Draws the windows of a schedule (own): it reads its lines as `run` does, plays them on the same two ends, and writes
/// a picture, one SVG file. Each event has a column in two charts, one for each end: how many packets of data its
/// congestion control allows in flight, how many are in flight, and where the window fell. A mark below a chart is in
/// the column in which a frame was sent that the other end never processed. Below both charts are the values of an
/// end's features, at the first event and at each change.
///
/// If a line is refused, nothing is written, and its refusal is returned. With status 0 or 1 the output is that of the
/// whole input, with another a prefix of it. Read means that the source failed, Write that the sink did, and Memory
/// that no memory was left.
pub fn windows_of_schedule<S: Source, K: Sink>(
    alloc: Global,
    input: &mut S,
    output: &mut K,
) -> LinesEnd
    ensures drawn { (bytes : List ℕ) → S.left input.old ≡ Some bytes
        → Answers (windows_text bytes) (windows_refused bytes) result.end (S.left input.new) (K.taken output.old) (K.taken output.new) }
    ensures past { (bytes : List ℕ) → S.left input.old ≡ Some bytes
        → StopsWithin 16384 (windows_accepted bytes) bytes result.end (S.left input.new) }
    ensures refused { (bytes : List ℕ) → S.left input.old ≡ Some bytes → IsAnswered result.end → result.refusal ≡ windows_refusal bytes }
    ensures cause { EndsForCause result.end (Rose (S.faults input.old) (S.faults input.new)) (SinkFails K.faults K.empty_takes output.old output.new) }
{
    let mut windows = PlayedWindows::new(alloc);
    let mut text = Vec::new(alloc);
    run_lines_apart(alloc, &mut windows, &mut text, input, output)
}
