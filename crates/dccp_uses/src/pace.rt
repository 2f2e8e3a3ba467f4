//! Which rules of a path an end's owner follows.
ghost use Rattle.std.specs.Prelude.{◌≡◌};
ghost use Rattle.dccp_uses.specs.Path.{classic_pace, usual_pace};

/// Which rules of a path an end's owner follows (own; the rules are those of path_rules).
#[derive(Clone, Copy, Debug, PartialEq, Eq)]
pub struct Pace {
    /// The round trip is measured, and the waits of the timers rto, negotiate and close depend on it.
    pub measures: bool,
    /// Acks go out after 50 milliseconds, at once if data show a hole, and at least every 20 seconds.
    pub acks_soon: bool,
    /// The Ack Ratio of this end's data follows its window, under CCID 2 (RFC 4341, section 6.1.2).
    pub moves_ratio: bool,
    /// With a window of 16 or more the peer is asked for a sign of life before what is in flight is counted as lost.
    pub probes: bool,
    /// Datagrams that would be answered by a Sync are left out if there were too many.
    pub limits_syncs: bool,
    /// An end that hears nothing asks its peer, and is given up.
    pub gives_up: bool,
    /// Data wait for the application that reads them: if it is slow, if its buffer is full, or if it no longer listens
    /// (RFC 4340, sections 11.6 and 11.7; RFC 4341, section 5.2).
    pub heeds: bool,
}

impl Pace {
    /// All rules.
    pub fn usual() -> Pace
        ensures { result ≡ usual_pace }
    {
        Pace {
            measures: true,
            acks_soon: true,
            moves_ratio: true,
            probes: true,
            limits_syncs: true,
            gives_up: true,
            heeds: true,
        }
    }

    /// No rule: the timers wait as `Waits::classic` says, and the owner does what the rules would do.
    pub fn classic() -> Pace
        ensures { result ≡ classic_pace }
    {
        Pace {
            measures: false,
            acks_soon: false,
            moves_ratio: false,
            probes: false,
            limits_syncs: false,
            gives_up: false,
            heeds: false,
        }
    }
}
