//! The calls of a receiver, of a ledger of nonces, and of both in a world. What they return for other values is in
//! worked rows.
use ack_vectors::VectorBytes;
use dccp_ecn::{Arrived, Check, EcnEvent, EcnFault, EcnReceived, EcnSeen, EcnWorld, NonceLedger};
use run_list::Marked;
use seq_circle::Seq48;
use std::test::Fail;

// Whether the vector of one packet with nonce 1 fits the ledger of it.
fn fits(received: &mut EcnReceived) -> Option<bool> {
    let number = Seq48::new(1)?;
    received.start(number);
    let _answer = received.took(number, Arrived::Nonce(true));
    let mut out = VectorBytes::new();
    let vector = received.write(&mut out, received.floor());
    let mut ledger = NonceLedger::new(number);
    let sent = ledger.sent(true);
    Some(ledger.check(sent, vector.kind, out.as_slice()) == Check::Fits)
}

#[test]
fn nonces_run(rt: HostRuntime) -> Result<(), Fail> {
    let fitting = fits(&mut EcnReceived::new(rt.alloc())?);
    assert!(rt; fitting == Some(true));
    Ok(())
}

// What may happen, and what is seen of it: packets with nonces 1, 0 and 1, where the second comes marked and the third
// does not come. A report before anything came says nothing.
const STORY: [(EcnEvent, Result<EcnSeen, EcnFault>); 14] = [
    (EcnEvent::Report, Ok(EcnSeen::Reported(None))),
    (EcnEvent::Deliver(0), Err(EcnFault::NoSuchFrame)),
    (EcnEvent::Send(true), Ok(EcnSeen::Sent)),
    (EcnEvent::Send(false), Ok(EcnSeen::Sent)),
    (EcnEvent::Send(true), Ok(EcnSeen::Sent)),
    (EcnEvent::Deliver(0), Ok(EcnSeen::Took(Marked::New))),
    (EcnEvent::Mark(1), Ok(EcnSeen::Took(Marked::New))),
    (EcnEvent::Deliver(1), Ok(EcnSeen::Took(Marked::Again))),
    (EcnEvent::Mark(3), Err(EcnFault::NoSuchFrame)),
    (EcnEvent::Report, Ok(EcnSeen::Reported(Some(0)))),
    (EcnEvent::Check(0), Ok(EcnSeen::Checked(Check::Fits))),
    (EcnEvent::Forge(0), Ok(EcnSeen::Checked(Check::Unfit))),
    (EcnEvent::Check(1), Err(EcnFault::NoSuchFrame)),
    (EcnEvent::Forge(1), Err(EcnFault::NoSuchFrame)),
];

fn comes(world: &mut EcnWorld, event: EcnEvent, seen: Result<EcnSeen, EcnFault>) -> bool {
    world.step(event) == seen
}

fn plays(world: &mut EcnWorld) -> Result<(), Fail> {
    for (place, (event, seen)) in STORY.iter().enumerate() {
        if !comes(world, *event, *seen) {
            return Err(Fail::new(format_args!("event {place}")));
        }
    }
    if world.packet_count() != 3 || world.report_count() != 1 {
        return Err(Fail::from("the counts"));
    }
    Ok(())
}

#[test]
fn a_world_of_nonces(rt: HostRuntime) -> Result<(), Fail> {
    plays(&mut EcnWorld::new(rt.alloc())?)
}
