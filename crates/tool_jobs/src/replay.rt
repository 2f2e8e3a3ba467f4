//! `replay`: an input's frames, handed to one end, and the lines of what the end did (own).

mod bare;
mod buffered;
mod player;
mod replaying;

pub use crate::replay::replaying::{replay_at_buffer, replay_frames};
