//! What becomes of an inbox by the data that its end delivers.
ghost use Rattle.std.specs.Prelude.{◌≡◌, Some};
ghost use Rattle.data_dropped.specs.Buffering.{HasDataWithin, delivery_by, delivered_data};

use crate::answers::Arrival;
use crate::inbox::BoundedInbox;
use dccp_endpoint::{Outcome, Seq48};

// Data were delivered.
fn deliver<const MOST: usize>(
    inbox: &mut BoundedInbox<MOST>,
    number: Seq48,
    payload: &[u8],
) -> Arrival
    ensures { record { inbox = inbox.new; arrival = Some result } ≡ delivered_data inbox.old number payload.now }
{
    if inbox.most() < payload.len() {
        inbox.too_long(number)
    } else {
        inbox.arrived(number, payload)
    }
}

/// What the outcome of a packet of this number means for the inbox.
pub(crate) fn settle<const MOST: usize>(
    inbox: &mut BoundedInbox<MOST>,
    number: Seq48,
    bytes: &[u8],
    outcome: &Outcome,
) -> Option<Arrival>
    requires { HasDataWithin bytes.now outcome.now }
    ensures { record { inbox = inbox.new; arrival = result } ≡ delivery_by inbox.old number bytes.now outcome.now }
{
    match *outcome {
        Outcome::Took {
            delivered: Some((first, past)),
        } => Some(deliver(inbox, number, &bytes[first..past])),
        _ => None,
    }
}
