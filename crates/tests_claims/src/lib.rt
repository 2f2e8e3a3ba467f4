//! What README claims, and what the rules of a path do, in a caller's words (own). Each function here follows from the
//! calls and the laws that it names, and would no longer be proved if one of their clauses said less. Nothing here
//! runs.
#![tactic(auto)]

pub mod cookies;
pub mod ends;
pub mod facts;
pub mod inboxes;
pub mod paths;
pub mod tables;
pub mod tool;
pub mod ways;
pub mod worlds;
