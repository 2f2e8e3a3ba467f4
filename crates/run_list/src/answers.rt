//! What a mark answers.

/// What became of a number that was marked.
#[derive(Clone, Copy, Debug, PartialEq, Eq)]
pub enum Marked {
    /// It was not in the set, and is now.
    New,
    /// It was in the set before.
    Again,
    /// It lies below the floor, and nothing changed.
    BelowFloor,
}
