//! A replay while it is played: an end of some kind, at which frames arrive.
ghost use Rattle.std.specs.Prelude.{◌≡◌, ℕ, ◌++◌, ◌+◌, ◌^◌, ◌<◌, ◌≤◌, List, Some, is_some, length, IfOk, OnOk};
ghost use Rattle.dccp_endpoint.specs.Usual.{usual};
ghost use Rattle.dccp_io.specs.Counts.{Rose};
ghost use Rattle.tool_text.specs.Ends.{Answers, SinkFails, StopsWithin, EndsForCause};
ghost use Rattle.tool_jobs.specs.Ends.{CanBeSealed, arriving, role_of};
ghost use Rattle.tool_jobs.specs.Replay.{Acts, Performs, Heeds, act_lines, after_act, begun_from, begun_replay, count, first_replay, opened_line, replay_config, replay_job, replay_of_input, text_of_replay, reply_line};

use crate::ends::{put_arriving, put_end_line, put_frame_line, role_of};
use ccid_two::Kinds;
use dccp_endpoint::{Config, Endpoint, OpenFault};
use dccp_io::{Sink, Source};
use dccp_packets::{MOST_FRAME_BYTES, Outbox};
use dccp_sum::Pseudo;
use schedule_text::{FrameLine, read_frame};
use seq_circle::NoMemory;
use std::alloc::Global;
use std::marker::Model;
use tool_text::{JobEnd, LineError, LineJob, put, run_lines};
use world_events::Side;

const CLIENT: [u8; 4] = [10, 0, 0, 1];

const SERVER: [u8; 4] = [10, 0, 0, 2];

/// An end at which the frames of a replay arrive. NoMemory from a call that puts a line means that the text could not
/// grow.
pub(crate) trait ReplayEnd {
    // What it does.
    ghost acts: { Acts Self };

    /// Opens the connection, and puts the line for that.
    fn begin(&mut self, out: &mut Outbox, text: &mut Vec<u8>) -> Result<(), NoMemory>
        ensures { OnOk result (Performs (acts.opening self.old) self.new out.new text.old.items text.new.items) };

    /// Receives bytes that arrive by the line with this number, and puts the line for that.
    fn hear(
        &mut self,
        number: u64,
        bytes: &[u8],
        out: &mut Outbox,
        text: &mut Vec<u8>,
    ) -> Result<(), NoMemory>
        requires { length bytes.now ≤ 2044 }
        ensures { OnOk result (Performs (acts.hearing self.old number bytes.now) self.new out.new text.old.items text.new.items) };

    /// Whether the line has no frame, but says what the end should do.
    fn is_own(line: &[u8]) -> bool
        ensures { result ≡ acts.is_own line.now };

    /// Does what such a line says, and puts the line for that.
    fn heed(&mut self, number: u64, line: &[u8], text: &mut Vec<u8>) -> Result<(), NoMemory>
        ensures { OnOk result (Heeds (acts.heeding self.old number line.now) self.new text.old.items text.new.items) };

    /// The end whose line comes last.
    fn standing(&self) -> &Endpoint<Kinds>
        ensures { result.now ≡ acts.standing self.now };
}

/// The state of a replay, with room that is made once for all frames: for the one that arrives, and for the one that
/// the end sends. Contracts see only the state.
#[derive(Drop)]
pub(crate) struct Replay<E> {
    sent: u64,
    side: Side,
    end: E,
    room: [u8; MOST_FRAME_BYTES],
    out: Outbox,
}

impl<E> Model for Replay<E> {
    ghost use Rattle.tool_jobs.specs.Replay.{ReplayState};

    ghost Value = { ReplayState E };

    ghost view = { λ r. record { sent = r.sent; side = r.side; end = r.end } };
}

impl<E: ReplayEnd> Replay<E> {
    // The state before anything happened: the end has sent nothing.
    fn new(side: Side, end: E) -> Replay<E>
        ensures { result ≡ first_replay side end }
    {
        Replay {
            sent: 0,
            side,
            end,
            room: [0; MOST_FRAME_BYTES],
            out: Outbox::new(),
        }
    }

    // Opens the end, and puts the lines for that.
    fn open(&mut self, text: &mut Vec<u8>) -> Result<(), NoMemory>
        requires { self.old.sent + 1 < 2 ^ 64 }
        ensures value { OnOk result (self.new ≡ (begun_from E.acts self.old Side.Client).replay) }
        ensures text { OnOk result (text.new.items ≡ text.old.items ++ (begun_from E.acts self.old Side.Client).text) }
    {
        self.end.begin(&mut self.out, text)?;
        put_sent(text, self.side, &mut self.sent, &self.out)
    }

    // Lets the frame in the line with this number arrive, and puts the lines for that.
    fn hear(
        &mut self,
        number: u64,
        said: &FrameLine<'_>,
        text: &mut Vec<u8>,
    ) -> Result<(), NoMemory>
        requires seals { CanBeSealed said.now }
        requires sent { self.old.sent ≤ number }
        requires number { number ≤ 16777217 }
        ensures value { OnOk result (self.new ≡ after_act self.old (E.acts.hearing self.old.end number (arriving (usual (role_of self.old.side)).pseudo_in said.now))) }
        ensures text { OnOk result (text.new.items ≡ text.old.items ++ act_lines self.old (E.acts.hearing self.old.end number (arriving (usual (role_of self.old.side)).pseudo_in said.now))) }
        ensures sent { OnOk result (self.new.sent ≤ number + 1) }
    {
        let side = self.side;
        let addresses = addresses(side);
        hear_said(
            &mut self.end,
            &mut self.room,
            &mut self.out,
            &addresses,
            number,
            said,
            text,
        )?;
        put_sent(text, side, &mut self.sent, &self.out)
    }
}

impl<E: ReplayEnd + Drop> Replay<E> {
    // The state of a replay before its first line: a client has opened, and the lines for that were put.
    fn begin(side: Side, end: E, text: &mut Vec<u8>) -> Result<Replay<E>, NoMemory>
        ensures value { IfOk result (λ replay. replay ≡ (begun_replay E.acts side end).replay) }
        ensures text { OnOk result (text.new.items ≡ text.old.items ++ (begun_replay E.acts side end).text) }
    {
        let mut replay = Replay::new(side, end);
        if side == Side::Client {
            replay.open(text)?;
        }
        Ok(replay)
    }
}

impl<E: ReplayEnd> LineJob for Replay<E> {
    ghost use Rattle.tool_jobs.specs.Replay.{replay_job};

    ghost Deed = { List ℕ };

    ghost job = { replay_job E.acts };

    ghost keeps = { λ replay number. replay.sent ≤ number };

    #[tactic(auto, unfolding(crate::specs::Replay::replay_judged))]
    fn judge(
        &mut self,
        _alloc: Global,
        number: u64,
        line: &[u8],
        text: &mut Vec<u8>,
    ) -> Result<(), LineError> {
        if E::is_own(line) {
            self.end.heed(number, line, text)?;
            return Ok(());
        }
        match read_frame(line) {
            Err(fault) => Err(LineError::Refused(fault)),
            Ok(None) => Ok(()),
            Ok(Some(said)) => {
                self.hear(number, &said, text)?;
                Ok(())
            }
        }
    }

    fn finish(&mut self, _alloc: Global, text: &mut Vec<u8>) -> Result<(), NoMemory> {
        put_end_line(text, self.side, self.end.standing())
    }
}

// Lets the frame of a line arrive at an end, and puts the line for that.
fn hear_said<E: ReplayEnd>(
    end: &mut E,
    room: &mut [u8; MOST_FRAME_BYTES],
    out: &mut Outbox,
    addresses: &Pseudo,
    number: u64,
    said: &FrameLine<'_>,
    text: &mut Vec<u8>,
) -> Result<(), NoMemory>
    requires { CanBeSealed said.now }
    ensures { OnOk result (Performs (E.acts.hearing end.old number (arriving addresses.now said.now)) end.new out.new text.old.items text.new.items) }
{
    let bytes = &mut room[..said.bytes.len()];
    put_arriving(bytes, addresses, said);
    end.hear(number, bytes, out, text)
}

// Puts the line of the frame that a step sent, if it sent one, and counts the frame.
fn put_sent(text: &mut Vec<u8>, side: Side, sent: &mut u64, out: &Outbox) -> Result<(), NoMemory>
    requires { sent.old + 1 < 2 ^ 64 }
    ensures value { OnOk result (sent.new ≡ sent.old + count out.now) }
    ensures few { OnOk result (sent.new ≤ sent.old + 1) }
    ensures text { OnOk result (text.new.items ≡ text.old.items ++ reply_line side sent.old out.now) }
{
    let Some(frame) = out.sent() else {
        return Ok(());
    };
    put_frame_line(text, side, *sent, frame.bytes)?;
    *sent += 1;
    Ok(())
}

/// Puts the line of the call `open`.
pub(crate) fn put_open_line(
    text: &mut Vec<u8>,
    answer: Result<(), OpenFault>,
) -> Result<(), NoMemory>
    ensures { OnOk result (text.new.items ≡ text.old.items ++ opened_line answer) }
{
    match answer {
        Ok(()) => put(text, b"open: ok\n"),
        Err(OpenFault::NotFresh) => put(text, b"open: refused NotFresh\n"),
    }
}

/// The usual end of a side, with its offers or without.
pub(crate) fn replay_config(side: Side, plain: bool) -> Config
    ensures { result ≡ replay_config side plain }
{
    let mut config = Config::usual(role_of(side));
    if plain {
        config.plain();
    }
    config
}

// The addresses of the frames that arrive at the end of a side. They are those of its usual end, and are computed
// without a whole configuration for each frame.
fn addresses(side: Side) -> Pseudo
    ensures { result ≡ (usual (role_of side)).pseudo_in }
{
    match side {
        Side::Client => Pseudo::V4 {
            from: SERVER,
            to: CLIENT,
        },
        Side::Server => Pseudo::V4 {
            from: CLIENT,
            to: SERVER,
        },
    }
}

/// Hands the frames of an input to a new end of this side.
pub(crate) fn replay_at<E: ReplayEnd + Drop, S: Source, K: Sink>(
    alloc: Global,
    side: Side,
    end: E,
    input: &mut S,
    output: &mut K,
) -> JobEnd
    ensures replayed { (bytes : List ℕ) → S.left input.old ≡ Some bytes
        → Answers (text_of_replay E.acts side end bytes) (is_some (replay_of_input E.acts side end bytes).refusal) result (S.left input.new) (K.taken output.old) (K.taken output.new) }
    ensures past { (bytes : List ℕ) → S.left input.old ≡ Some bytes
        → StopsWithin 16384 (replay_of_input E.acts side end bytes).accepted bytes result (S.left input.new) }
    ensures cause { EndsForCause result (Rose (S.faults input.old) (S.faults input.new)) (SinkFails K.faults K.empty_takes output.old output.new) }
{
    let mut text = Vec::new(alloc);
    let Ok(mut replay) = Replay::begin(side, end, &mut text) else {
        return JobEnd::Memory;
    };
    run_lines(alloc, &mut replay, &mut text, input, output)
}
