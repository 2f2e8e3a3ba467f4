//! Workers that run at the same time.
use crate::calls::{Tool, end_of};
use crate::gates::HoldFirst;
use crate::words::{FOUR_SEEDS, UNREAD};
use dccp_command::Status;
use std::alloc::Global;
use std::test::Fail;
use std::thread::Threads;

// Whether this campaign has its result though its first seed is held until the other three have begun, and whether they
// did.
fn held<R: Threads + Sync>(rt: &R, alloc: Global) -> Result<(bool, bool), Fail> {
    let gate = HoldFirst::new();
    let words = "campaign,--first,5,--seeds,4,--events,120,--workers,2";
    let call = (Tool::Dccp, words, "".as_bytes());
    let ended = end_of(rt, alloc, &gate, &UNREAD, call, (FOUR_SEEDS.as_bytes(), ""))?;
    Ok((ended.is(Status::Done), gate.has_met()))
}

// Two workers run at the same time and claim seeds as they go. A single worker, or two with two fixed seeds each, would
// leave the first seed held.
#[test]
fn a_held_seed_holds_no_other(rt: HostRuntime) -> Result<(), Fail> {
    let (comes, met) = held(&rt, rt.alloc())?;
    assert!(rt; met, "the other three began meanwhile");
    assert!(rt; comes);
    Ok(())
}
