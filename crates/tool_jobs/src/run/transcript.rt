//! `run`: a job over a schedule's lines.
ghost use Rattle.std.specs.Prelude.{◌≡◌, ℕ, List, MatchOption, None, Some, OnOk};
ghost use Rattle.dccp_io.specs.Counts.{Rose};
ghost use Rattle.tool_text.specs.Ends.{IsAnswered, Answers, SinkFails, StopsWithin, EndsForCause};
ghost use Rattle.tool_text.specs.Jobs.{Judges};
ghost use Rattle.tool_jobs.specs.Transcript.{IsPlayable, first_play, judged_line, run_job, transcript, is_refused, accepted_bytes, SafeThroughout};

use crate::run::play::Play;
use ccid_two::Kinds;
use dccp_io::{Sink, Source};
use schedule_text::{Line, read_line_into};
use seq_circle::NoMemory;
use std::alloc::Global;
use std::marker::Model;
use tool_text::{JobEnd, LineError, LineJob, run_lines};
use two_ends::{World, every_run_is_safe};

/// A schedule while it is played (own), with room for what one line says. Each kind of line that is frequent has its
/// own room, since reading a line as another kind clears it together with its room for data. Contracts see the state of
/// the schedule.
#[derive(Drop)]
pub struct Schedule {
    play: Play,
    delivery: Line,
    timer: Line,
    sending: Line,
    wish: Line,
    other: Line,
}

impl Model for Schedule {
    ghost use Rattle.tool_jobs.specs.declared.run.play.Play.{Play};

    ghost Value = { Play };

    ghost view = { λ s. s.play };
}

impl Schedule {
    /// The state before the first line: the two usual ends are configured, and no event took place.
    #[tactic(auto, using(crate::proofs::SchedulesRunning::playable_at_first))]
    pub fn new() -> Schedule
        ensures value { result ≡ first_play }
        ensures playable { IsPlayable result }
    {
        Schedule {
            play: Play::new(),
            delivery: Line::Nothing,
            timer: Line::Nothing,
            sending: Line::Nothing,
            wish: Line::Nothing,
            other: Line::Nothing,
        }
    }

    /// The two ends, from the first event on.
    pub fn world(&self) -> Option<&World<Kinds>>
        ensures { MatchOption result (self.now.world ≡ None) (λ w. self.now.world ≡ Some w.now) }
    {
        match &self.play.world {
            Some(world) => Some(world),
            None => None,
        }
    }
}

impl LineJob for Schedule {
    ghost use Rattle.std.specs.Prelude.{◌≡◌, ℕ, OnOk};
    ghost use Rattle.tool_jobs.specs.Scenes.{Scene};
    ghost use Rattle.tool_jobs.specs.Transcript.{IsPlayable, run_job};

    ghost Deed = { Scene };

    ghost job = { run_job };

    ghost keeps = { λ play number. IsPlayable play };

    fn judge(
        &mut self,
        alloc: Global,
        number: u64,
        line: &[u8],
        text: &mut Vec<u8>,
    ) -> Result<(), LineError> {
        // The choice of the room for a line changes no result.
        match line {
            [b'd', ..] => {
                judge_into(
                    &mut self.delivery,
                    &mut self.play,
                    alloc,
                    number,
                    line,
                    text,
                )
            }
            [b't', ..] => judge_into(&mut self.timer, &mut self.play, alloc, number, line, text),
            [b's', b'e', b'n', ..] => {
                judge_into(&mut self.sending, &mut self.play, alloc, number, line, text)
            }
            [b'p', b'r', ..] => judge_into(
                &mut self.wish,
                &mut self.play,
                alloc,
                number,
                line,
                text,
            ),
            _ => judge_into(&mut self.other, &mut self.play, alloc, number, line, text),
        }
    }

    fn finish(&mut self, alloc: Global, text: &mut Vec<u8>) -> Result<(), NoMemory> {
        self.play.finish(alloc, text)
    }
}

// Judges a line by what it says, which it leaves in `said`.
#[tactic(auto, unfolding(crate::specs::Transcript::judged_line))]
fn judge_into(
    said: &mut Line,
    play: &mut Play,
    alloc: Global,
    number: u64,
    line: &[u8],
    text: &mut Vec<u8>,
) -> Result<(), LineError>
    requires { IsPlayable play.old }
    ensures verdict { Judges run_job (judged_line play.old number line.now) text.old.items text.new.items play.new result }
    ensures keeps_on { OnOk result (IsPlayable play.new) }
{
    match read_line_into(line, said) {
        Err(fault) => Err(LineError::Refused(play.in_place(fault))),
        Ok(()) => play.say(alloc, number, said, text),
    }
}

/// Plays a schedule (own): it reads the lines of `input` one by one, and writes to `output` a line for each event and
/// for each frame that was sent, and at the end the state of both ends or the line of the first refusal. With status 0
/// or 1 the output is the text of the whole input, and each event took place in a safe world and left a safe one; with
/// another status it is a prefix of that text. Read means that the source failed, Write that the sink did, and Memory
/// that no memory was left.
pub fn run_schedule<S: Source, K: Sink>(alloc: Global, input: &mut S, output: &mut K) -> JobEnd
    ensures transcript { (bytes : List ℕ) → S.left input.old ≡ Some bytes
        → Answers (transcript bytes) (is_refused bytes) result (S.left input.new) (K.taken output.old) (K.taken output.new) }
    ensures safe { (bytes : List ℕ) → S.left input.old ≡ Some bytes → IsAnswered result → SafeThroughout bytes }
    ensures past { (bytes : List ℕ) → S.left input.old ≡ Some bytes
        → StopsWithin 16384 (accepted_bytes bytes) bytes result (S.left input.new) }
    ensures cause { EndsForCause result (Rose (S.faults input.old) (S.faults input.new)) (SinkFails K.faults K.empty_takes output.old output.new) }
{
    // The law from which `safe` follows.
    every_run_is_safe::<Kinds>();
    let mut schedule = Schedule::new();
    let mut text = Vec::new(alloc);
    run_lines(alloc, &mut schedule, &mut text, input, output)
}
