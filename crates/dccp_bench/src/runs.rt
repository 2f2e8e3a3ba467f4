//! Marks of a set of runs in several orders, over linked runs and over a plain row of them.

use crate::figures::{no_memory, since, told_of};
use crate::ratios::zero;
use run_list::{Marked, PlainRuns, RunList, Runs};
use std::io;
use std::time::Instant;

// How many successive numbers a full window has.
const WINDOW: u32 = 2048;

// This many marks: the next place follows from the one before by a factor and a step. With a factor that leaves 1 when
// divided by 4 and a step of 1, each place of the window comes once.
#[derive(Clone, Copy)]
struct Order {
    name: &'static str,
    first: u32,
    factor: u32,
    step: u32,
    count: u32,
    // Whether every second number is there before.
    gaps: bool,
}

const EVERY_SECOND: Order = Order {
    name: "every-second",
    first: 0,
    factor: 1,
    step: 2,
    count: 1024,
    gaps: false,
};

const ORDERS: [Order; 5] = [
    Order {
        name: "in-order",
        first: 0,
        factor: 1,
        step: 1,
        count: WINDOW,
        gaps: false,
    },
    Order {
        name: "scattered",
        first: 0,
        factor: 1229,
        step: 1,
        count: WINDOW,
        gaps: false,
    },
    EVERY_SECOND,
    Order {
        name: "gaps-up",
        first: 1,
        factor: 1,
        step: 2,
        count: 1024,
        gaps: true,
    },
    Order {
        name: "gaps-down",
        first: 2047,
        factor: 1,
        step: 2046,
        count: 1024,
        gaps: true,
    },
];

// Makes the marks of an order; gives how many are New.
fn marks<R: Runs>(runs: &mut R, order: Order) -> u64 {
    let mut sum = 0u64;
    let mut place = order.first;
    for _ in 0..order.count {
        if runs.mark(zero().add(u64::from(place))) == Marked::New {
            sum = sum.wrapping_add(1);
        }
        place = place.wrapping_mul(order.factor).wrapping_add(order.step) % WINDOW;
    }
    sum
}

// Makes the marks of an order in a new set. Returns the nanoseconds and how many are New.
fn time_marks<R: Runs>(rt: &HostRuntime, runs: &mut R, order: Order) -> io::Result<(u64, u64)> {
    runs.start(zero());
    let before = if order.gaps {
        marks(runs, EVERY_SECOND)
    } else {
        0
    };
    let start = Instant::now(rt)?;
    let new = marks(runs, order);
    Ok((since(rt, start)?, before.wrapping_add(new)))
}

// Prints what kind of set it is and the order, the nanoseconds of the marks of this many rounds, the marks and the sum.
fn measure<R: Runs>(
    rt: &HostRuntime,
    kind: &str,
    runs: &mut R,
    order: Order,
    rounds: u32,
) -> io::Result<()> {
    let mut spent = 0u64;
    let mut sum = 0u64;
    for _ in 0..rounds {
        let (taken, new) = time_marks(rt, runs, order)?;
        spent = spent.saturating_add(taken);
        sum = sum.wrapping_add(new);
    }
    let calls = u64::from(rounds) * u64::from(order.count);
    told_of(rt, (kind, order.name), spent, calls, sum)
}

fn measure_each<R: Runs>(
    rt: &HostRuntime,
    kind: &str,
    runs: &mut R,
    rounds: u32,
) -> io::Result<()> {
    for order in &ORDERS {
        measure(rt, kind, runs, *order, rounds)?;
    }
    Ok(())
}

/// Prints the nanoseconds of the marks of each order, this many times, over both kinds.
pub(crate) fn all(rt: &HostRuntime, rounds: u32) -> io::Result<()> {
    let Ok(mut linked) = RunList::new(rt.alloc()) else {
        return Err(no_memory());
    };
    measure_each(rt, "linked", &mut linked, rounds)?;
    let Ok(mut plain) = PlainRuns::new(rt.alloc()) else {
        return Err(no_memory());
    };
    measure_each(rt, "plain", &mut plain, rounds)
}
