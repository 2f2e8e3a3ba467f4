//! The counts of runs.
//!
//! No sum of a campaign passes 2^62, since a run counts at most five for each event and nineteen more
//! (`reports_count_little`). So no `+` overflows.
ghost use Rattle.std.specs.Prelude.{◌≡◌, ◌+◌, ◌<◌, ◌^◌};
ghost use Rattle.fault_campaign.specs.Reports.{nothing, plus, size, with_outcome, with_seen};

use dccp_endpoint::Outcome;
use two_ends::Seen;

/// The counts of one run or of many (own).
#[derive(Clone, Copy, PartialEq, Eq)]
pub struct Report {
    /// The seeds that were run.
    pub seeds: u64,
    /// The events that happened.
    pub events: u64,
    /// The frames that clients sent.
    pub client_frames: u64,
    /// The frames that servers sent.
    pub server_frames: u64,
    /// The frames that arrived and were taken.
    pub took: u64,
    /// Those of them whose data were delivered.
    pub delivered: u64,
    /// The frames that were dropped.
    pub dropped: u64,
    /// The frames that were answered with a Sync.
    pub synced: u64,
    /// The valid Resets that arrived.
    pub was_reset: u64,
    /// The frames that were answered with a Reset.
    pub sent_reset: u64,
    /// The calls that were refused.
    pub refused: u64,
    /// The features at either end, 18 a seed, that both ends call settled after the run.
    pub settled: u64,
}

impl Report {
    /// A report of nothing.
    pub(crate) fn nothing() -> Report
        ensures { result ≡ nothing }
    {
        Report {
            seeds: 0,
            events: 0,
            client_frames: 0,
            server_frames: 0,
            took: 0,
            delivered: 0,
            dropped: 0,
            synced: 0,
            was_reset: 0,
            sent_reset: 0,
            refused: 0,
            settled: 0,
        }
    }

    /// Both reports in one.
    pub(crate) fn plus(&self, other: &Report) -> Report
        requires { size self.now + size other.now < 2 ^ 64 }
        ensures { result ≡ plus self.now other.now }
    {
        Report {
            seeds: self.seeds + other.seeds,
            events: self.events + other.events,
            client_frames: self.client_frames + other.client_frames,
            server_frames: self.server_frames + other.server_frames,
            took: self.took + other.took,
            delivered: self.delivered + other.delivered,
            dropped: self.dropped + other.dropped,
            synced: self.synced + other.synced,
            was_reset: self.was_reset + other.was_reset,
            sent_reset: self.sent_reset + other.sent_reset,
            refused: self.refused + other.refused,
            settled: self.settled + other.settled,
        }
    }

    /// Counts the result of an event.
    pub(crate) fn count(&mut self, seen: Seen)
        requires { size self.old < 2 ^ 62 }
        ensures { self.new ≡ with_seen self.old seen }
    {
        match seen {
            Seen::Called(Err(_)) => self.refused += 1,
            Seen::Called(Ok(())) | Seen::Fired(_) => {}
            Seen::Received(outcome) => self.count_packet(outcome),
        }
    }

    fn count_packet(&mut self, outcome: Outcome)
        requires { size self.old < 2 ^ 62 }
        ensures { self.new ≡ with_outcome self.old outcome }
    {
        match outcome {
            Outcome::Took { delivered: None } => self.took += 1,
            Outcome::Took { delivered: Some(_) } => {
                self.took += 1;
                self.delivered += 1;
            }
            Outcome::Dropped(_) => self.dropped += 1,
            Outcome::Synced(_) => self.synced += 1,
            Outcome::WasReset(_) => self.was_reset += 1,
            Outcome::SentReset { .. } => self.sent_reset += 1,
        }
    }
}
