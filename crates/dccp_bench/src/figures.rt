//! The clock, and the lines that say what took how long.

use std::io;
use std::time::Instant;

/// The answer where a block of memory is not to be had.
pub(crate) fn no_memory() -> io::Error {
    io::Error::other("no memory")
}

/// The nanoseconds since the start.
pub(crate) fn since(rt: &HostRuntime, start: Instant) -> io::Result<u64> {
    Ok(u64::try_from(start.elapsed(rt)?.as_nanos()).unwrap_or(u64::MAX))
}

/// Prints what was called and at which size, the nanoseconds, the calls and the sum, so that none is left out.
pub(crate) fn told(
    rt: &HostRuntime,
    call: (&str, u32),
    spent: u64,
    calls: u64,
    sum: u64,
) -> io::Result<()> {
    eprintln!(rt; "{} {} {} {} {}", call.0, call.1, spent, calls, sum)
}

/// The same, of two words and not of a size.
pub(crate) fn told_of(
    rt: &HostRuntime,
    call: (&str, &str),
    spent: u64,
    calls: u64,
    sum: u64,
) -> io::Result<()> {
    eprintln!(rt; "{} {} {} {} {}", call.0, call.1, spent, calls, sum)
}

/// Prints calls that began at the start and have just ended.
pub(crate) fn ended(
    rt: &HostRuntime,
    call: (&str, u32),
    start: Instant,
    calls: u64,
    sum: u64,
) -> io::Result<()> {
    told(rt, call, since(rt, start)?, calls, sum)
}
