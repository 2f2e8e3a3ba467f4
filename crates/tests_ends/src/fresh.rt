//! Ends and sessions, as tests begin with them, each in a box: a proof follows every field of what a function owns
//! through each of its steps.
ghost use Rattle.std.specs.Prelude.{◌≡◌, ◌≤◌};

use ccid_two::Kinds;
use data_dropped::BufferedEnd;
use dccp_endpoint::{Config, Endpoint, NoMemory, Role};
use dccp_uses::{Pace, Session};
use std::alloc::Global;

/// The configuration of an end that offers nothing.
pub(crate) fn plain(role: Role) -> Config
    ensures { result.role ≡ role }
{
    let mut config = Config::usual(role);
    config.plain();
    config
}

/// Puts a value into a box.
pub(crate) fn boxed<T: Drop>(alloc: Global, value: T) -> Result<Box<T>, NoMemory> {
    match Box::new(alloc, value) {
        Ok(value) => Ok(value),
        Err(_) => Err(NoMemory),
    }
}

/// An end that is new.
pub(crate) fn end(alloc: Global, config: Config) -> Result<Box<Endpoint<Kinds>>, NoMemory> {
    let congestion = Kinds::new(alloc)?;
    boxed(alloc, Endpoint::new(alloc, config, congestion)?)
}

/// An end whose inbox has room for this many packets, 1 to 1,024.
pub(crate) fn buffered_end(
    alloc: Global,
    config: Config,
    capacity: u16,
) -> Result<Box<BufferedEnd<Kinds>>, NoMemory>
    requires some { 1 ≤ capacity }
    requires few { capacity ≤ 1024 }
{
    let congestion = Kinds::new(alloc)?;
    boxed(
        alloc,
        BufferedEnd::new(alloc, config, congestion, capacity)?,
    )
}

/// A session that is new.
pub(crate) fn session(
    alloc: Global,
    config: Config,
    pace: Pace,
) -> Result<Box<Session<Kinds>>, NoMemory> {
    let congestion = Kinds::new(alloc)?;
    boxed(alloc, Session::new(alloc, config, congestion, pace)?)
}
