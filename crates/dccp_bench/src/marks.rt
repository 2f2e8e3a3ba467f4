//! Calls of the set of received numbers and of congestion control, over and over, for a count of what they allocate.

use crate::figures::no_memory;
use crate::ratios::zero;
use ack_vectors::{Received, VectorBytes, Vectors};
use ccid_two::Ccid2;
use congestion_trait::{Congestion, FixedWindow};
use dccp_options::{AckReport, options};
use seq_circle::{NoMemory, Seq48};
use std::alloc::Global;
use std::io;

// This many rounds, and the set is started again. In the second half of them the peer acknowledges nothing, so that
// vectors are cut and the floor is pushed.
const PHASE: u32 = 4096;

// Three received, one missing and 64 received.
const REPORT: [u8; 5] = [38, 5, 0x02, 0xc0, 0x3f];

// Marks a number twice, and sometimes the missing one before it; writes the vector down from it and records the packet.
// Now and then the peer acknowledges that packet.
fn mark(received: &mut Received, out: &mut VectorBytes, newest: Seq48, round: u32) -> u64 {
    let phase = round % PHASE;
    if phase == 0 {
        received.start(newest);
    }
    let _ = received.took(newest);
    let _ = received.took(newest);
    if round % 16 == 3 {
        let _ = received.took(newest.sub(1));
    }
    let whole = received.write(out, newest, Vectors::One);
    received.sent(newest, newest, whole);
    if phase < PHASE / 2 && round % 256 == 255 && received.peer_acked(newest) {
        return received.floor().get();
    }
    out.len() as u64
}

// One number in five is missing.
fn marks(received: &mut Received, rounds: u32) -> u64 {
    let mut out = VectorBytes::new();
    let mut newest = zero();
    let mut sum = 0u64;
    for round in 0..rounds {
        newest = newest.add(if round % 4 == 3 { 2 } else { 1 });
        sum = sum.wrapping_add(mark(received, &mut out, newest, round));
    }
    sum
}

// Hands a report to congestion control.
fn report<C: Congestion>(control: &mut C, ack: Seq48) {
    if let Some(report) = AckReport::of(ack, options(&REPORT, false)) {
        control.on_report(&report, 2);
    }
}

// Sends a packet where it may; reports come for every eighth round, and a timeout now and then.
fn sends<C: Congestion>(control: &mut C, ccid: u8, rounds: u32) -> u64 {
    if control.knows(ccid) {
        control.start(ccid);
    }
    let mut newest = zero();
    let mut sum = 0u64;
    for round in 0..rounds {
        if control.may_send() {
            newest = newest.next();
            control.on_sent(newest);
        }
        if round % 8 == 7 {
            report(control, newest);
        }
        if round % 1024 == 1023 {
            control.on_timeout();
        }
        sum = sum.wrapping_add(u64::from(control.window()));
    }
    sum
}

// This many rounds of each call.
fn rounds_of_each(alloc: Global, rounds: u32) -> Result<u64, NoMemory> {
    let mut received = Received::new(alloc)?;
    let mut two = Ccid2::new(alloc)?;
    let mut fixed = FixedWindow::new(alloc)?;
    let marked = marks(&mut received, rounds);
    let sent = sends(&mut two, 2, rounds).wrapping_add(sends(&mut fixed, 248, rounds));
    Ok(marked.wrapping_add(sent))
}

/// Prints the sum of what every call answered, over this many rounds of each.
pub(crate) fn all(rt: &HostRuntime, rounds: u32) -> io::Result<()> {
    match rounds_of_each(rt.alloc(), rounds) {
        Ok(sum) => println!(rt; "marks {}", sum),
        Err(_) => Err(no_memory()),
    }
}
