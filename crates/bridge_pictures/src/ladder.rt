//! The ladder: two ends as lines from the top to the bottom, and each packet as an arrow between them (own).

mod flow;
mod lines;
mod peers;
mod phases;
mod places;
mod scene;
mod transcript;

pub use crate::ladder::flow::ladder_of_flow;
pub use crate::ladder::lines::without_colon;
pub use crate::ladder::transcript::ladder_of_transcript;
