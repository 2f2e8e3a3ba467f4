//! What was sent and received: runs of numbers, Ack Vectors, nonces, flights and windows.
mod calls;
mod controls;
mod nonces;
mod runs;
mod vectors;
