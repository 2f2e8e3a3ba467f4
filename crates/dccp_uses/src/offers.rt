//! What an end offers for the sake of its path.
ghost use Rattle.std.specs.Prelude.{◌≡◌};
ghost use Rattle.dccp_uses.specs.Path.{wide_offered, wide_wished, widened};

use dccp_endpoint::{Config, Feature, Place};

fn wide_wished(config: Config) -> Config
    ensures { result ≡ wide_wished config }
{
    let mut config = config;
    match config.set(Feature::SequenceWindow, Place::Here, &[10_000]) {
        Ok(()) => config,
        Err(_) => unreachable!(),
    }
}

fn wide_offered(config: Config) -> Config
    ensures { result ≡ wide_offered config }
{
    let mut config = config;
    match config.offer(Feature::SequenceWindow, Place::Here, false) {
        Ok(()) => config,
        Err(_) => unreachable!(),
    }
}

/// The configuration with an offer of a Sequence Window of 10,000 for this end, in place of an earlier wish (RFC 4340,
/// section 7.5.2, advises five times the packets of a round trip; own). Then acknowledgements are valid for windows of
/// up to 1,024 packets. A guessed number lies in the Sequence Window once in 2^48 / 10,000 times.
pub fn widened(config: Config) -> Config
    ensures { result ≡ widened config }
{
    wide_offered(wide_wished(config))
}
