//! The tests of the crates of an end, on their public calls: feature_lists, feature_machine, dccp_endpoint and
//! two_ends, with worked examples that no schedule or replay of examples/ can say; and the crates for the owner of an
//! end, data_dropped and dccp_uses. What a definition gives is a worked row of proofs/, computed from the definitions.
//! The tests that run are each public call that no program makes, once, and what only many calls show. They are in a
//! separate crate because a crate with tests is proved twice, with them and without; and all except those of a server
//! (tests_server) are in one crate, because each crate over an end loads its statements again. Their values come from
//! the standard, or were worked out by hand or by a second implementation, and never by this program.
#![tactic(auto)]

#[cfg(test)]
mod buffered;
#[cfg(test)]
mod cookies;
#[cfg(test)]
mod every_call;
#[cfg(test)]
mod features;
#[cfg(test)]
mod fresh;
#[cfg(test)]
mod inboxes;
#[cfg(test)]
mod listeners;
#[cfg(test)]
mod repeated;
#[cfg(test)]
mod rooms;
#[cfg(test)]
mod rows;
#[cfg(test)]
mod shortened;
#[cfg(test)]
mod uses;
#[cfg(test)]
mod vectors;
