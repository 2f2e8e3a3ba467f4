//! The stages of a flow, and since when it has been in one.
ghost use Rattle.std.specs.Prelude.{◌≡◌};
ghost use Rattle.server_peers.specs.Rules.{class_of, life_moment, since_in};

use crate::life::Life;
use dccp_endpoint::Phase;
use path_rules::Moment;

/// The stage of a flow, as far as a server's rules use it (own).
#[derive(Clone, Copy)]
pub enum Stage {
    /// It has answered a Request and heard nothing since: RESPOND.
    HalfOpen,
    /// It carries data: PARTOPEN and OPEN.
    Live,
    /// It waits for its peer to close: CLOSEREQ and CLOSING.
    Ending,
    /// It only keeps its numbers: TIMEWAIT.
    Lingering,
}

/// The stages as numbers.
pub(crate) fn class_of(stage: Stage) -> u8
    ensures { result ≡ class_of stage }
{
    match stage {
        Stage::HalfOpen => 0,
        Stage::Live => 1,
        Stage::Ending => 2,
        Stage::Lingering => 3,
    }
}

fn since_in(life: &Life, phase: Phase) -> Option<(Stage, u64)>
    ensures { result ≡ since_in life.now phase }
{
    match phase {
        Phase::Respond => Some((Stage::HalfOpen, life.since)),
        Phase::PartOpen | Phase::Open => Some((Stage::Live, life.taken)),
        Phase::CloseReq | Phase::Closing => Some((Stage::Ending, life.since)),
        Phase::TimeWait => Some((Stage::Lingering, life.since)),
        Phase::Closed | Phase::Listen | Phase::Request => None,
    }
}

impl Moment for Life {
    ghost moment_of = { life_moment };

    fn moment(&self) -> Option<(u8, u64)> {
        match since_in(self, self.phase) {
            Some((stage, since)) => Some((class_of(stage), since)),
            None => None,
        }
    }
}
