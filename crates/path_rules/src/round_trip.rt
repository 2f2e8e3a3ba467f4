//! How long a round trip takes, and how long a sender waits for a report.
ghost use Rattle.std.specs.Prelude.{◌≡◌};
ghost use Rattle.path_rules.specs.RoundTrip.{cut, first_round_trip, further_round_trip, longest_timeout, single_timeout, timeout, with_sample};

/// The round trip by its samples (RFC 6298, section 2).
#[derive(Clone, Copy, Debug, PartialEq, Eq)]
pub struct RoundTrip {
    /// SRTT, in microseconds.
    pub smoothed: u32,
    /// RTTVAR, in microseconds.
    pub variance: u32,
}

/// The longest timeout: 64 seconds (RFC 6298, section 2.5; RFC 4340, section 8.1.1, has it for Requests).
pub fn longest_timeout() -> u64
    ensures { result ≡ longest_timeout }
{
    64_000
}

// A sample in microseconds. One that is longer than the longest timeout counts as that.
fn cut(sample: u64) -> u32
    ensures { result ≡ cut sample }
{
    sample.min(64_000) as u32 * 1_000
}

fn first_of(sample: u32) -> RoundTrip
    ensures { result ≡ first_round_trip sample }
{
    RoundTrip {
        smoothed: sample,
        variance: sample / 2,
    }
}

fn further(old: &RoundTrip, sample: u32) -> RoundTrip
    ensures { result ≡ further_round_trip old.now sample }
{
    let off = u64::from(old.smoothed.abs_diff(sample));
    RoundTrip {
        smoothed: ((7 * u64::from(old.smoothed) + u64::from(sample)) / 8) as u32,
        variance: ((3 * u64::from(old.variance) + off) / 4) as u32,
    }
}

/// The round trip after a further sample, in milliseconds (RFC 6298, sections 2.2 and 2.3).
pub fn with_sample(old: Option<RoundTrip>, sample: u64) -> RoundTrip
    ensures { result ≡ with_sample old sample }
{
    match old {
        Some(old) => further(&old, cut(sample)),
        None => first_of(cut(sample)),
    }
}

// How long a sender waits for a report before any timeout.
fn single_timeout(path: &RoundTrip) -> u64
    ensures { result ≡ single_timeout path.now }
{
    let variance = (4 * u64::from(path.variance)).max(250_000);
    (u64::from(path.smoothed) + variance) / 1_000
}

/// RTO, in milliseconds: how long a sender waits for a report before any timeout (RFC 6298, section 2). A second if
/// there was no sample. The minimum of 250 milliseconds is that of the variance's part, and not of the whole, since the
/// peer may hold back an Ack for up to 200 (own). Each timeout doubles it, as `Wait::after` of `rto_wait` says.
pub fn timeout(path: Option<RoundTrip>) -> u64
    ensures { result ≡ timeout path }
{
    match path {
        Some(path) => single_timeout(&path).min(64_000),
        None => 1_000,
    }
}
