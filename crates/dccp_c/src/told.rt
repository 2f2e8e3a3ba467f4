//! What C is told of a datagram.
ghost use Rattle.std.specs.Prelude.{◌≡◌, None};
ghost use Rattle.dccp_c.specs.Outcomes.{cause_code, told_arrival, told_heard, told_outcome, told_reading};
ghost use Rattle.dccp_states.specs.declared.outcome.Outcome.TheVariants.{Took};

use data_dropped::Arrival;
use dccp_endpoint::{Malformed, Outcome, SumFault, Why};
use dccp_uses::Reading;

/// What became of a datagram. Fields that do not belong to its kind are 0.
#[repr(C)]
#[derive(Clone, Copy)]
pub struct Told {
    /// 0 taken, 1 taken with data, 2 dropped, 3 answered with a Sync, 4 a Reset, 5 answered with a Reset, 6 taken with
    /// data that wait in the inbox, 7 taken with data that the inbox dropped.
    pub kind: u32,
    /// Why it was dropped, from 1 on.
    pub cause: u32,
    /// The place of the first byte of its data in the datagram.
    pub first: usize,
    /// The place past the last byte of its data.
    pub past: usize,
    /// The number that the Sync acknowledges.
    pub number: u64,
    /// The code of the Reset, or the Drop Code of the data (RFC 4340, section 11.7).
    pub code: u8,
    /// The bytes Data 1 to 3 of the Reset that answers it.
    pub detail: [u8; 3],
}

fn cause_code(why: &Why) -> u32
    ensures { result ≡ cause_code why.now }
{
    match *why {
        Why::Malformed(Malformed::Short) => 1,
        Why::Malformed(Malformed::ReservedType) => 2,
        Why::Malformed(Malformed::OffsetSmall) => 3,
        Why::Malformed(Malformed::OffsetLarge) => 4,
        Why::Malformed(Malformed::ShortNumbers) => 5,
        Why::Sum(SumFault::CoverageTooLarge) => 6,
        Why::Sum(SumFault::Wrong) => 7,
        Why::OtherFlow => 8,
        Why::StrayReset => 9,
        Why::ShortOff => 10,
        Why::BadSync => 11,
    }
}

// Taken, without data.
fn quiet() -> Told
    ensures { result ≡ told_outcome (Took None) }
{
    Told {
        kind: 0,
        cause: 0,
        first: 0,
        past: 0,
        number: 0,
        code: 0,
        detail: [0, 0, 0],
    }
}

/// What C is told of an outcome.
pub(crate) fn told_outcome(outcome: &Outcome) -> Told
    ensures { result ≡ told_outcome outcome.now }
{
    match *outcome {
        Outcome::Took { delivered: None } => quiet(),
        Outcome::Took {
            delivered: Some((first, past)),
        } => Told {
            kind: 1,
            first,
            past,
            ..quiet()
        },
        Outcome::Dropped(why) => Told {
            kind: 2,
            cause: cause_code(&why),
            ..quiet()
        },
        Outcome::Synced(number) => Told {
            kind: 3,
            number: number.get(),
            ..quiet()
        },
        Outcome::WasReset(code) => Told {
            kind: 4,
            code,
            ..quiet()
        },
        Outcome::SentReset { code, detail } => Told {
            kind: 5,
            code,
            detail,
            ..quiet()
        },
    }
}

/// What C is told about a datagram that was heard, or left out.
pub(crate) fn told_heard(outcome: Option<Outcome>) -> Told
    ensures { result ≡ told_heard outcome }
{
    match outcome {
        Some(outcome) => told_outcome(&outcome),
        None => Told {
            kind: 2,
            cause: 12,
            ..quiet()
        },
    }
}

/// What C is told about data that came into an inbox, or what it was told about their datagram.
pub(crate) fn told_arrival(arrival: Option<Arrival>, told: Told) -> Told
    ensures { result ≡ told_arrival arrival told }
{
    match arrival {
        Some(Arrival::Kept) => Told { kind: 6, ..quiet() },
        Some(Arrival::Dropped(code)) => Told {
            kind: 7,
            code,
            ..quiet()
        },
        None => told,
    }
}

/// What C is told of a datagram and of its data.
pub(crate) fn told_reading(reading: &Reading) -> Told
    ensures { result ≡ told_reading reading.now }
{
    told_arrival(reading.arrival, told_heard(reading.heard))
}
