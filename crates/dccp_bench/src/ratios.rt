//! Marks in a full window, and the writing of a vector and the taking of a report at some sizes: what is linear takes
//! four times as long at the second as at the first.

use crate::figures::{ended, no_memory, since, told};
use ack_vectors::{Received, VectorBytes, Vectors};
use congestion_trait::Flight;
use dccp_options::{AckReport, OptWriter, options};
use run_list::Marked;
use seq_circle::{NoMemory, Seq48};
use std::alloc::Global;
use std::io;
use std::time::Instant;

/// How many runs there are: a vector holds the first two whole, and the last fill the window.
pub(crate) const SIZES: [u32; 3] = [30, 120, 1024];

// How many lists take a report between two looks at the clock.
const LISTS: u32 = 32;

// Three received.
const SMALL: [u8; 3] = [38, 3, 0x02];

/// How many successive numbers are marked.
pub(crate) const WINDOW: u32 = 2048;

// The factor by which the next place follows from the one before, plus 1, where places come scattered. With one that
// leaves 1 when divided by 4, each place comes once.
const SCATTERED: u32 = 1229;

/// The lowest number.
pub(crate) fn zero() -> Seq48 {
    let Some(zero) = Seq48::new(0) else {
        unreachable!()
    };
    zero
}

/// The newest of the numbers from 0 on that this many runs and the gaps below them have.
pub(crate) fn newest(runs: u32) -> Seq48 {
    zero().add(u64::from(runs) * 2).sub(1)
}

// Takes every second number from 1 to the newest.
fn take_every_second(received: &mut Received, runs: u32) {
    let mut number = zero().next();
    for _ in 0..runs {
        let _ = received.took(number);
        number = number.add(2);
    }
}

// Takes every number from 0 to the newest but 1.
fn take_all_but_one(received: &mut Received, runs: u32) {
    let mut number = zero();
    let _ = received.took(number);
    for _ in 2..u64::from(runs) * 2 {
        number = number.next();
        let _ = received.took(number.next());
    }
}

// Every number from 0 to the newest was sent, and no report has come.
fn send_all(flight: &mut Flight, runs: u32) {
    flight.clear();
    let mut number = zero();
    for _ in 0..u64::from(runs) * 2 {
        flight.sent(number);
        number = number.next();
    }
}

// This many lists.
fn lists(alloc: Global, count: u32) -> Result<Vec<Flight>, NoMemory> {
    let mut flights = Vec::new(alloc);
    for _ in 0..count {
        add_list(alloc, &mut flights)?;
    }
    Ok(flights)
}

fn add_list(alloc: Global, flights: &mut Vec<Flight>) -> Result<(), NoMemory> {
    let flight = Flight::new(alloc)?;
    Ok(flights.push(flight)?)
}

// This many vectors are written.
fn writes(received: &Received, out: &mut VectorBytes, ack: Seq48, rounds: u32) -> u64 {
    let mut sum = 0u64;
    for _ in 0..rounds {
        let _ = received.write(out, ack, Vectors::One);
        sum = sum.wrapping_add(out.len() as u64);
    }
    sum
}

// A list takes the report; gives what it acknowledged and what is still in flight.
fn take(flight: &mut Flight, report: &AckReport<'_>) -> u64 {
    let news = flight.report(report, None);
    u64::from(news.acked).wrapping_add(u64::from(flight.out()))
}

// One list takes the report this many times.
fn again_and_again(flight: &mut Flight, report: &AckReport<'_>, rounds: u32) -> u64 {
    let mut sum = 0u64;
    for _ in 0..rounds {
        sum = sum.wrapping_add(take(flight, report));
    }
    sum
}

// Each list takes the report once.
fn each_once(flights: &mut [Flight], report: &AckReport<'_>) -> u64 {
    let mut sum = 0u64;
    for flight in flights {
        sum = sum.wrapping_add(take(flight, report));
    }
    sum
}

// The window is filled this many times, in the order that the factor gives.
fn fills(received: &mut Received, factor: u32, rounds: u32) -> u64 {
    let mut sum = 0u64;
    for _ in 0..rounds {
        received.start(zero());
        let mut place = 0u32;
        for _ in 0..WINDOW {
            place = place.wrapping_mul(factor).wrapping_add(1) % WINDOW;
            if received.took(zero().add(u64::from(place))) == Marked::New {
                sum = sum.wrapping_add(1);
            }
        }
    }
    sum
}

fn time_fills(
    rt: &HostRuntime,
    received: &mut Received,
    order: (&str, u32),
    rounds: u32,
) -> io::Result<()> {
    let start = Instant::now(rt)?;
    let sum = fills(received, order.1, rounds);
    let calls = u64::from(rounds) * u64::from(WINDOW);
    ended(rt, (order.0, WINDOW), start, calls, sum)
}

// Prints the nanoseconds of marking all numbers of a window, in order and scattered, this many times.
fn time_marks(rt: &HostRuntime, rounds: u32) -> io::Result<()> {
    let Ok(mut received) = Received::new(rt.alloc()) else {
        return Err(no_memory());
    };
    time_fills(rt, &mut received, ("in-order", 1), rounds)?;
    time_fills(rt, &mut received, ("scattered", SCATTERED), rounds)
}

// Each list takes the report, of which nothing was reported before: so each changes all that it speaks of. Gives the
// nanoseconds and the sum.
fn take_anew(
    rt: &HostRuntime,
    flights: &mut [Flight],
    report: &AckReport<'_>,
    runs: u32,
) -> io::Result<(u64, u64)> {
    for flight in flights.iter_mut() {
        send_all(flight, runs);
    }
    let start = Instant::now(rt)?;
    let sum = each_once(flights, report);
    Ok((since(rt, start)?, sum))
}

fn time_reports(
    rt: &HostRuntime,
    flights: &mut [Flight],
    report: &AckReport<'_>,
    runs: u32,
    turns: u32,
) -> io::Result<()> {
    let mut spent = 0u64;
    let mut sum = 0u64;
    for _ in 0..turns {
        let (taken, acked) = take_anew(rt, flights, report, runs)?;
        spent = spent.saturating_add(taken);
        sum = sum.wrapping_add(acked);
    }
    let calls = u64::from(turns) * u64::from(LISTS);
    told(rt, ("report", runs), spent, calls, sum)
}

// Prints the nanoseconds of this many reports of this vector.
fn news(rt: &HostRuntime, runs: u32, vector: &[u8], rounds: u32) -> io::Result<()> {
    if vector.len() > 253 {
        return Err(io::Error::other("more than one option"));
    }
    let mut writer = OptWriter::new();
    let _ = writer.put(false, 38, vector);
    let Some(report) = AckReport::of(newest(runs), options(writer.bytes(), false)) else {
        return Err(io::Error::other("no vector"));
    };
    let Ok(mut flights) = lists(rt.alloc(), LISTS) else {
        return Err(no_memory());
    };
    time_reports(rt, &mut flights, &report, runs, rounds / LISTS)
}

fn time_writes(
    rt: &HostRuntime,
    received: &Received,
    out: &mut VectorBytes,
    runs: u32,
    rounds: u32,
) -> io::Result<()> {
    let start = Instant::now(rt)?;
    let sum = writes(received, out, newest(runs), rounds);
    ended(rt, ("write", runs), start, u64::from(rounds), sum)
}

// Prints the nanoseconds of this many writes and of this many reports, at one size.
fn measure(rt: &HostRuntime, runs: u32, rounds: u32) -> io::Result<()> {
    let Ok(mut received) = Received::new(rt.alloc()) else {
        return Err(no_memory());
    };
    take_every_second(&mut received, runs);
    let mut out = VectorBytes::new();
    time_writes(rt, &received, &mut out, runs, rounds)?;
    news(rt, runs, &out, rounds)
}

// A list whose second entry was lost and whose others are all Reported takes a small vector this many times.
fn time_old_loss(
    rt: &HostRuntime,
    flight: &mut Flight,
    runs: u32,
    rounds: u32,
    acked: u32,
) -> io::Result<()> {
    let Some(report) = AckReport::of(newest(runs), options(&SMALL, false)) else {
        return Err(io::Error::other("no vector"));
    };
    let start = Instant::now(rt)?;
    let sum = again_and_again(flight, &report, rounds).wrapping_add(u64::from(acked));
    ended(rt, ("old-loss", runs), start, u64::from(rounds), sum)
}

// Makes such a list by a report; gives how many packets that acknowledged.
fn lose_one(flight: &mut Flight, received: &mut Received, runs: u32) -> Option<u32> {
    send_all(flight, runs);
    take_all_but_one(received, runs);
    let mut out = VectorBytes::new();
    let _ = received.write(&mut out, newest(runs), Vectors::One);
    let mut writer = OptWriter::new();
    let _ = writer.put(false, 38, &out);
    let report = AckReport::of(newest(runs), options(writer.bytes(), false))?;
    Some(flight.report(&report, None).acked)
}

// Prints the nanoseconds of this many reports to such a list.
fn measure_after_a_loss(rt: &HostRuntime, runs: u32, rounds: u32) -> io::Result<()> {
    let Ok(mut flight) = Flight::new(rt.alloc()) else {
        return Err(no_memory());
    };
    let Ok(mut received) = Received::new(rt.alloc()) else {
        return Err(no_memory());
    };
    let Some(acked) = lose_one(&mut flight, &mut received, runs) else {
        return Err(io::Error::other("no vector"));
    };
    time_old_loss(rt, &mut flight, runs, rounds, acked)
}

/// Prints the nanoseconds of marks, and those of writes and reports at each size.
pub(crate) fn all(rt: &HostRuntime, rounds: u32) -> io::Result<()> {
    time_marks(rt, rounds / 64)?;
    for runs in &SIZES {
        measure(rt, *runs, rounds)?;
        measure_after_a_loss(rt, *runs, rounds)?;
    }
    Ok(())
}
