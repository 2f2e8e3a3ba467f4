//! Where bytes come from and where they go: sources and sinks, which may fail, and which count their failures in counts
//! that never fall (own).
//!
//! Nothing here knows packets, or what a line says. Contracts of crates above are about a source whose bytes are known,
//! and a sink that shows what it took. Of the adapters over standard input and output, only their counts are known.
//! Lines, blocks that are read ahead and a sink in memory take all memory when they are made; a text that is read whole
//! takes memory as it grows.
#![tactic(auto)]

mod calls;
mod laws;
mod lines;
mod memory;
mod read_ahead;
mod standard;
mod streams;
mod sure;
mod whole;

pub use crate::laws::{lines_follow_one_another, the_first_line_stands_next};
pub use crate::lines::{LineRead, Lines, LinesFault, Stop};
pub use crate::memory::{MemorySink, MemorySource};
pub use crate::read_ahead::ReadAhead;
pub use crate::standard::{StdSink, StdSource};
pub use crate::streams::{Failed, Sink, Source};
pub use crate::sure::{SureSink, SureSource};
pub use crate::whole::{InputFault, read_all, write_all};
