//! The calls of an ECN-capable receiver and sender: marks in a full window, the writing of a vector and its check, at
//! the sizes at which `ratios` times those of received numbers alone.

use crate::figures::{ended, no_memory};
use crate::ratios::{SIZES, WINDOW, newest, zero};
use ack_vectors::VectorBytes;
use dccp_ecn::{Arrived, EcnReceived, NonceLedger};
use run_list::Marked;
use seq_circle::Seq48;
use std::io;
use std::time::Instant;

// The nonce of each packet: its number's lowest bit.
fn nonce_of(number: Seq48) -> bool {
    number.get() % 2 == 1
}

// The window is filled this many times, in order.
fn fills(received: &mut EcnReceived, rounds: u32) -> u64 {
    let mut sum = 0u64;
    for _ in 0..rounds {
        received.start(zero());
        let mut number = zero();
        for _ in 0..WINDOW {
            if received.took(number, Arrived::Nonce(nonce_of(number))) == Marked::New {
                sum = sum.wrapping_add(1);
            }
            number = number.next();
        }
    }
    sum
}

// Takes every second number from 1 to the newest.
fn take_every_second(received: &mut EcnReceived, runs: u32) {
    received.start(zero());
    let mut number = zero().next();
    for _ in 0..runs {
        let _ = received.took(number, Arrived::Nonce(nonce_of(number)));
        number = number.add(2);
    }
}

// A ledger that has sent every number from 0 to the newest.
fn sent_all(runs: u32) -> NonceLedger {
    let mut ledger = NonceLedger::new(zero());
    let mut number = zero();
    for _ in 0..u64::from(runs) * 2 {
        number = ledger.sent(nonce_of(number)).next();
    }
    ledger
}

// This many vectors are written.
fn writes(received: &EcnReceived, out: &mut VectorBytes, ack: Seq48, rounds: u32) -> u64 {
    let mut sum = 0u64;
    for _ in 0..rounds {
        let vector = received.write(out, ack);
        sum = sum.wrapping_add(u64::from(vector.kind));
    }
    sum
}

// A vector is checked this many times.
fn checks(ledger: &NonceLedger, ack: Seq48, bytes: &[u8], rounds: u32) -> u64 {
    let mut sum = 0u64;
    for _ in 0..rounds {
        sum = sum.wrapping_add(ledger.check(ack, 38, bytes) as u64);
    }
    sum
}

// Times this many writes, at one size.
fn time_writes(
    rt: &HostRuntime,
    received: &EcnReceived,
    out: &mut VectorBytes,
    runs: u32,
    rounds: u32,
) -> io::Result<()> {
    let start = Instant::now(rt)?;
    let sum = writes(received, out, newest(runs), rounds);
    ended(rt, ("write-ecn", runs), start, u64::from(rounds), sum)
}

// Times this many checks of what was written, at one size.
fn time_checks(rt: &HostRuntime, bytes: &[u8], runs: u32, rounds: u32) -> io::Result<()> {
    let ledger = sent_all(runs);
    let start = Instant::now(rt)?;
    let sum = checks(&ledger, newest(runs), bytes, rounds);
    ended(rt, ("check", runs), start, u64::from(rounds), sum)
}

fn measure(rt: &HostRuntime, received: &mut EcnReceived, runs: u32, rounds: u32) -> io::Result<()> {
    take_every_second(received, runs);
    let mut out = VectorBytes::new();
    time_writes(rt, received, &mut out, runs, rounds)?;
    time_checks(rt, out.as_slice(), runs, rounds)
}

fn time_fills(rt: &HostRuntime, received: &mut EcnReceived, rounds: u32) -> io::Result<()> {
    let start = Instant::now(rt)?;
    let sum = fills(received, rounds);
    let calls = u64::from(rounds) * u64::from(WINDOW);
    ended(rt, ("in-order-ecn", WINDOW), start, calls, sum)
}

fn measure_all(rt: &HostRuntime, received: &mut EcnReceived, rounds: u32) -> io::Result<()> {
    time_fills(rt, received, rounds / 64)?;
    for runs in &SIZES {
        measure(rt, received, *runs, rounds)?;
    }
    Ok(())
}

/// Prints the nanoseconds of marking all numbers of a window, and of this many writes and checks at each size.
pub(crate) fn all(rt: &HostRuntime, rounds: u32) -> io::Result<()> {
    let Ok(mut received) = EcnReceived::new(rt.alloc()) else {
        return Err(no_memory());
    };
    measure_all(rt, &mut received, rounds)
}
