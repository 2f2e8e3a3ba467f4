//! Each call is made once. `examples/` has the sums of campaigns.
use fault_campaign::{OpenGate, Report, campaign, run_seed};
use std::test::Fail;

// Seed 1: open; a preference and data, both refused outside a connection; the Request again; its delivery; the Response
// six times; and a timer of the server that has nothing to do. The events were drawn separately, by a second generator
// over a plain model of both ends. 16 features a seed are settled from the opening on, because the client asks for its
// own ECN Incapable and for the server's Send Ack Vector.
const SEED_ONE: Report = Report {
    seeds: 1,
    events: 12,
    client_frames: 8,
    server_frames: 1,
    took: 7,
    delivered: 0,
    dropped: 0,
    synced: 0,
    was_reset: 0,
    sent_reset: 0,
    refused: 2,
    settled: 16,
};

#[test]
fn twelve_events_of_seed_one(rt: HostRuntime) -> Result<(), Fail> {
    assert!(rt; run_seed(rt.alloc(), 1, 12)? == SEED_ONE, "by itself");
    let total = campaign(&rt, rt.alloc(), &OpenGate, 1, 1, 12, 1)?;
    assert!(rt; total == SEED_ONE, "as a campaign");
    Ok(())
}
