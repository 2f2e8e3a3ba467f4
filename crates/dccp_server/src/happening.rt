//! What may happen to a flow's end, as far as it concerns its timers and its path.
ghost use Rattle.std.specs.Prelude.{◌≡◌, Ok};
ghost use Rattle.dccp_listener.specs.Chain.{asked};
ghost use Rattle.dccp_listener.specs.Calls.{seen_if};
ghost use Rattle.dccp_listener.specs.Runs.{Stepped, told_of};
ghost use Rattle.dccp_server.specs.Serving.{is_refusal};
ghost use Rattle.dccp_server.specs.Upkeeps.{arrived_so, called_so, call_happening, next_upkeep};

use ccid_two::Kinds;
use dccp_endpoint::{Endpoint, Seen, Timer, UserCall};
use dccp_listener::{Heard, NoFlow};
use dccp_uses::{HeardDatagram, Pace, Rule, Sight, Upkeep};

/// What happened to a flow's end.
#[derive(Clone, Copy)]
pub enum FlowHappening {
    /// It was made, and has answered a Request.
    Opened,
    /// It has heard a datagram.
    Heard(HeardDatagram),
    /// Data went out.
    Sent,
    /// This timer has fired.
    Rang(Timer),
    /// It began to close.
    Closed,
    /// It took a call that changes only its phase.
    Called,
    /// It took a wish for a feature.
    Preferred,
    /// It refused a call.
    Refused,
    /// A rule of its path made it do something.
    Ruled(Rule),
}

/// A datagram was heard, by an end of which the rules saw `was` before, if there was one. `silent` says whether nothing
/// went out.
pub(crate) fn arrived_so(was: Option<Sight>, heard: &Heard, silent: bool) -> FlowHappening
    ensures { result ≡ arrived_so was (told_of (Ok heard.now)) silent }
{
    let Some(was) = was else {
        return FlowHappening::Opened;
    };
    FlowHappening::Heard(match heard {
        Heard::Flow(outcome) => HeardDatagram::new(was, outcome, silent),
        Heard::Busy => HeardDatagram {
            was,
            taken: false,
            delivered: false,
            silent,
        },
    })
}

// A call that was not refused.
fn call_happening(call: UserCall<'_>) -> FlowHappening
    ensures { result ≡ call_happening (asked call.entry) }
{
    match call {
        UserCall::Send(_) | UserCall::SendEarly(_) => FlowHappening::Sent,
        UserCall::Timer(timer) => FlowHappening::Rang(timer),
        UserCall::Close => FlowHappening::Closed,
        UserCall::Prefer { .. } => FlowHappening::Preferred,
        UserCall::Open | UserCall::Abort => FlowHappening::Called,
    }
}

fn is_refusal(answer: &Result<Seen, NoFlow>) -> bool
    ensures { result ≡ is_refusal (Stepped (seen_if answer.now)) }
{
    match answer {
        Ok(Seen::Called(Err(_))) | Err(NoFlow) => true,
        Ok(Seen::Called(Ok(())) | Seen::Fired(_) | Seen::Received(_)) => false,
    }
}

/// A call with this answer.
pub(crate) fn called_so(call: UserCall<'_>, answer: &Result<Seen, NoFlow>) -> FlowHappening
    ensures { result ≡ called_so (asked call.entry) (is_refusal (Stepped (seen_if answer.now))) }
{
    if is_refusal(answer) {
        return FlowHappening::Refused;
    }
    call_happening(call)
}

impl FlowHappening {
    /// What is kept of the flow goes on with its end.
    pub(crate) fn tell(&self, upkeep: &mut Upkeep, end: &Endpoint<Kinds>, pace: Pace, now: u64)
        ensures { upkeep.new ≡ next_upkeep now pace upkeep.old self.now end.now }
    {
        match self {
            FlowHappening::Opened => {
                *upkeep = Upkeep::begins(pace);
                upkeep.open(end, now);
            }
            FlowHappening::Heard(heard) => upkeep.hear(heard, end, now),
            FlowHappening::Sent => upkeep.send(end, now),
            FlowHappening::Rang(timer) => upkeep.ring(*timer, end, now),
            FlowHappening::Closed => upkeep.close(end, now),
            FlowHappening::Called => upkeep.go_on(end, now),
            FlowHappening::Preferred => upkeep.prefer(end, now),
            FlowHappening::Refused => {}
            FlowHappening::Ruled(rule) => upkeep.follow(*rule, end, now),
        }
    }
}
