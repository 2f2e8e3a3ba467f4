//! Numbers below a limit, claimed by any number of threads from one shared word: each number is claimed once (own).
//!
//! `make_claims` makes the word and its first claimer. A claimer can draw the next number, split itself in two for
//! another thread, and take another claimer back. A claimer that has all others back closes the claims, and then knows
//! that its numbers are those below the lesser of the limit and the word. Nothing here starts a thread or knows what
//! the numbers are for, only a `Gate` may wait, and no claim is made about which claimer gets which number. Only
//! `make_claims` takes memory.
//!
//! A claimer's share of 2^62 is its right to claim. At every moment all shares together are 2^62. So the word does not
//! wrap, a claimer with all shares has joined all others, and `close` needs no condition on who is left. Shares and
//! numbers exist only in contracts; at run time a claimer is the limit, and the claims are one word. The limit is at
//! most 100,000, so that a worker that claims to the end stays far below any share that it may have.
#![tactic(auto)]

mod claims;
mod gate;
mod laws;
mod rule;

pub use crate::claims::{Claimer, Claims, make_claims};
pub use crate::gate::{Gate, OpenGate};
pub use crate::laws::{a_claim_in_vain_ends_the_numbers, numbers_once_add_up};
pub use crate::rule::View;
