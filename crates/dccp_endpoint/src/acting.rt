//! Any call of the end, handed in as one value.
ghost use Rattle.std.specs.Prelude.{◌≡◌};
ghost use Rattle.dccp_endpoint.specs.UserCalls.{call_step};

use crate::{Endpoint, Outbox, Refusal, Seen, UserCall};
use congestion_trait::Congestion;

impl<C: Congestion> Endpoint<C> {
    /// Makes the call that a value names, exactly as that call does (own). The answer says whether a timer applied, or
    /// whether the call was refused and for which fault. So an owner that reads calls, keeps them or hands them on
    /// needs no match over them.
    pub fn act(&mut self, call: UserCall<'_>, out: &mut Outbox) -> Seen
        ensures { record { after = self.new; frame = out.new; answer = result } ≡ call_step C.control self.old call.entry }
    {
        match call {
            UserCall::Open => Seen::Called(self.open(out).map_err(|_| Refusal::NotFresh)),
            UserCall::Send(payload) => Seen::Called(
                self.send(payload, out)
                    .map_err(|fault| Refusal::from(fault)),
            ),
            UserCall::SendEarly(payload) => Seen::Called(
                self.send_early(payload, out)
                    .map_err(|fault| Refusal::from(fault)),
            ),
            UserCall::Prefer {
                feature,
                place,
                values,
            } => Seen::Called(
                self.prefer(feature, place, values, out)
                    .map_err(|fault| Refusal::from(fault)),
            ),
            UserCall::Close => Seen::Called(self.close(out).map_err(|_| Refusal::NotOpen)),
            UserCall::Abort => Seen::Called(self.abort(out).map_err(|_| Refusal::NotLive)),
            UserCall::Timer(timer) => Seen::Fired(self.timer(timer, out)),
        }
    }
}
