//! The calls of a bounded inbox: the report of a quarter of the drops that count and of all, over as many numbers as a
//! report reaches; and data that are taken and arrive where the inbox is full, at 1 packet and at 1,024.

ghost use Rattle.std.specs.Prelude.{◌≤◌};

use crate::figures::{ended, no_memory};
use crate::ratios::zero;
use data_dropped::{Arrival, DropBytes, Inbox};
use seq_circle::Seq48;
use std::alloc::Global;
use std::io;
use std::time::Instant;

// How many numbers a report reaches.
const REACH: u32 = 2048;

const PAYLOAD: [u8; 64] = [0xaa; 64];

// An inbox for this many packets, to which as many came.
fn filled(alloc: Global, capacity: u16) -> io::Result<Inbox>
    requires some { 1 ≤ capacity }
    requires few { capacity ≤ 1024 }
{
    let Ok(mut inbox) = Inbox::new(alloc, capacity) else {
        return Err(no_memory());
    };
    for _ in 0..capacity {
        let _ = inbox.arrived(zero(), &PAYLOAD);
    }
    Ok(inbox)
}

// This many data are dropped, evenly over the numbers up to 2,048.
fn drop_evenly(inbox: &mut Inbox, drops: u32) {
    let mut number = zero();
    for _ in 0..drops {
        number = number.add(u64::from(REACH / drops.max(1)));
        let _ = inbox.arrived(number, &PAYLOAD);
    }
}

// This many reports are written, of all numbers.
fn writes(inbox: &Inbox, rounds: u32) -> u64 {
    let mut out = DropBytes::new();
    let ack = zero().add(u64::from(REACH));
    let mut sum = 0u64;
    for _ in 0..rounds {
        let _ = inbox.write(&mut out, ack);
        sum = sum.wrapping_add(out.len() as u64);
    }
    sum
}

// The first item is taken and another arrives, this many times.
fn turns(inbox: &mut Inbox, rounds: u32) -> u64 {
    let mut into = [0; 1024];
    let mut sum = 0u64;
    for _ in 0..rounds {
        let _ = inbox.take(&mut into);
        if inbox.arrived(zero(), &PAYLOAD) == Arrival::Kept {
            sum = sum.wrapping_add(1);
        }
    }
    sum
}

// Times the report of this many drops.
fn measure_report(rt: &HostRuntime, drops: u32, rounds: u32) -> io::Result<()> {
    let mut inbox = filled(rt.alloc(), 1)?;
    drop_evenly(&mut inbox, drops);
    let start = Instant::now(rt)?;
    let sum = writes(&inbox, rounds);
    ended(rt, ("report", drops), start, u64::from(rounds), sum)
}

// Times what comes and goes in a full inbox of this capacity.
fn measure_turn(rt: &HostRuntime, capacity: u16, rounds: u32) -> io::Result<()>
    requires some { 1 ≤ capacity }
    requires few { capacity ≤ 1024 }
{
    let mut inbox = filled(rt.alloc(), capacity)?;
    let start = Instant::now(rt)?;
    let sum = turns(&mut inbox, rounds);
    ended(
        rt,
        ("turn", u32::from(capacity)),
        start,
        u64::from(rounds),
        sum,
    )
}

/// Prints the nanoseconds of this many calls of each.
pub(crate) fn all(rt: &HostRuntime, rounds: u32) -> io::Result<()> {
    measure_report(rt, REACH / 4, rounds)?;
    measure_report(rt, REACH, rounds)?;
    measure_turn(rt, 1, rounds)?;
    measure_turn(rt, 1024, rounds)
}
