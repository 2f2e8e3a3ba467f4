//! The one loop for jobs that read an input in pieces whose lengths they know beforehand (own): the headers, blocks and
//! records of a capture. The pieces are judged one by one, what they do is written, and the first that is refused ends
//! the job.
//!
//! A job says how long the next piece is, what it does, and what is written at the end. The loop does the rest: the
//! limit of inputs, reading, and text that is written in blocks and before each read.

mod fault;
mod job;
mod loops;
mod turns;

pub(crate) use crate::pieces::fault::PieceError;
pub use crate::pieces::fault::PieceFault;
pub(crate) use crate::pieces::job::PieceJob;
pub(crate) use crate::pieces::loops::run_pieces;
