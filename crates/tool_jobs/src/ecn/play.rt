//! An input while it is played: the two ends, between which events take place.
ghost use Rattle.std.specs.Prelude.{◌≡◌, ℕ, ◌≤◌, List, length, IfOk};
ghost use Rattle.tool_text.specs.Jobs.{Judges};
ghost use Rattle.tool_jobs.specs.Play.{by_ecn_event, ecn_job, first_ecn_play, lacking_index};

use crate::ecn::reading::read_ecn_line;
use crate::ecn::seen_text::{put_ending, put_event_line};
use dccp_ecn::{EcnEvent, EcnFault, EcnWorld};
use seq_circle::NoMemory;
use std::alloc::Global;
use tool_text::{LineError, LineFault, LineJob, LineWhy, MOST_EVENTS, Words, whole_line};

/// The state of an input while it is played.
#[derive(Drop)]
pub(crate) struct EcnPlay {
    /// How many events took place.
    pub(crate) events: u32,
    /// The two ends.
    pub(crate) world: EcnWorld,
}

// The fault of a line whose packet or report does not exist.
fn lacking_index(line: &[u8]) -> LineFault
    requires { length line.now ≤ 4096 }
    ensures { result ≡ lacking_index line.now }
{
    LineFault {
        column: Words::of(line).column_of(1),
        why: LineWhy::NoSuchFrame,
    }
}

impl EcnPlay {
    /// The state before any line: nothing was sent.
    pub(crate) fn new(alloc: Global) -> Result<EcnPlay, NoMemory>
        ensures { IfOk result (λ play. play ≡ first_ecn_play) }
    {
        let world = EcnWorld::new(alloc)?;
        Ok(EcnPlay { events: 0, world })
    }

    // The event of the line of this number takes place, if it can.
    fn play(
        &mut self,
        number: u64,
        line: &[u8],
        event: EcnEvent,
        text: &mut Vec<u8>,
    ) -> Result<(), LineError>
        requires { length line.now ≤ 4096 }
        ensures { Judges ecn_job (by_ecn_event self.old number line.now event) text.old.items text.new.items self.new result }
    {
        if MOST_EVENTS <= self.events {
            return Err(LineError::Refused(whole_line(LineWhy::TooManyEvents)));
        }
        match self.world.step(event) {
            Ok(seen) => {
                self.events += 1;
                put_event_line(text, number, line, &self.world, seen)?;
                Ok(())
            }
            Err(EcnFault::NoSuchFrame) => Err(LineError::Refused(lacking_index(line))),
            Err(EcnFault::Full) => Err(LineError::Refused(whole_line(LineWhy::TooManyEvents))),
            Err(EcnFault::NoMemory) => Err(LineError::NoMemory),
        }
    }
}

impl LineJob for EcnPlay {
    ghost Deed = { List ℕ };

    ghost job = { ecn_job };

    ghost keeps = { λ play number. Unit {0} };

    #[tactic(auto, unfolding(crate::specs::Play::ecn_judged))]
    fn judge(
        &mut self,
        _alloc: Global,
        number: u64,
        line: &[u8],
        text: &mut Vec<u8>,
    ) -> Result<(), LineError> {
        match read_ecn_line(line) {
            Err(fault) => Err(LineError::Refused(fault)),
            Ok(None) => Ok(()),
            Ok(Some(event)) => self.play(number, line, event, text),
        }
    }

    fn finish(&mut self, _alloc: Global, text: &mut Vec<u8>) -> Result<(), NoMemory> {
        put_ending(text, &self.world)
    }
}
