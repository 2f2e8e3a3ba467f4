//! What is done with each frame, over frames of worked runs and over a full frame.

use crate::figures::{since, told_of};
use crate::frames::{PSEUDO, WORKED, full_frame};
use dccp_options::options;
use dccp_packets::decode;
use dccp_sum::check;
use std::io;
use std::time::Instant;

// One of the things that are measured.
#[derive(Clone, Copy)]
enum Pass {
    /// The bytes are summed in a plain loop: the yardstick.
    Plain,
    /// The packet is decoded.
    Decode,
    /// It is decoded, and its options are listed.
    Options,
    /// Its checksum is checked.
    Check,
    /// All three.
    All,
}

// Each with its name in the figures.
const PASSES: [(&str, Pass); 5] = [
    ("plain", Pass::Plain),
    ("decode", Pass::Decode),
    ("decode+options", Pass::Options),
    ("check", Pass::Check),
    ("decode+options+check", Pass::All),
];

const MOST_OPTIONS: usize = 1008;

fn plain(frame: &[u8]) -> u64 {
    let mut sum = 0u64;
    for byte in frame {
        sum = sum.wrapping_add(u64::from(*byte));
    }
    sum
}

fn decoded(frame: &[u8]) -> u64 {
    match decode(frame) {
        Ok(packet) => packet.payload.len() as u64,
        Err(_) => 0,
    }
}

fn listed(frame: &[u8]) -> u64 {
    let Ok(packet) = decode(frame) else {
        return 0;
    };
    if packet.options.len() > MOST_OPTIONS {
        return 0;
    }
    let mut places = 0u64;
    for option in options(packet.options, false) {
        match option {
            Ok(option) => places = places.wrapping_add(u64::from(option.place)),
            Err(_) => places = places.wrapping_add(1),
        }
    }
    places
}

fn checked(frame: &[u8]) -> u64 {
    if frame.len() < 8 || frame.len() > 65_535 {
        return 0;
    }
    u64::from(check(&PSEUDO, frame).is_ok())
}

fn one(pass: Pass, frame: &[u8]) -> u64 {
    match pass {
        Pass::Plain => plain(frame),
        Pass::Decode => decoded(frame),
        Pass::Options => listed(frame),
        Pass::Check => checked(frame),
        Pass::All => listed(frame).wrapping_add(checked(frame)),
    }
}

// Does it with each frame; the sum goes from round to round, so that no round can be left out.
fn over(pass: Pass, frames: &[&[u8]], sum: u64) -> u64 {
    let mut sum = sum;
    for frame in frames {
        sum = sum.wrapping_add(one(pass, frame));
    }
    sum
}

// Prints a pass and its frames, the nanoseconds and packets of all rounds, and the sum, so that none is left out.
fn measure(
    rt: &HostRuntime,
    call: (&str, &str),
    pass: Pass,
    frames: &[&[u8]],
    rounds: u32,
) -> io::Result<()> {
    let start = Instant::now(rt)?;
    let mut sum = 0;
    for _ in 0..rounds {
        sum = over(pass, frames, sum);
    }
    let packets = u64::from(rounds).saturating_mul(frames.len() as u64);
    told_of(rt, call, since(rt, start)?, packets, sum)
}

fn measure_each(rt: &HostRuntime, name: &str, frames: &[&[u8]], rounds: u32) -> io::Result<()> {
    for (what, pass) in &PASSES {
        measure(rt, (what, name), *pass, frames, rounds)?;
    }
    Ok(())
}

/// Reads packets this many times, in each pass.
pub(crate) fn all(rt: &HostRuntime, rounds: u32) -> io::Result<()> {
    measure_each(rt, "worked", &WORKED, rounds)?;
    measure_each(rt, "full", &[full_frame().bytes()], rounds)
}
