//! The tests of the crates below an end, on their public calls. `once` tests seq_circle, dccp_sum, dccp_states,
//! dccp_packets, dccp_options and validity_windows; `marks` tests run_list, ack_vectors, dccp_ecn, congestion_trait and
//! ccid_two; `streams` tests dccp_io, capture_reader, packet_show and schedule_text. Tables of values are worked rows
//! in `proofs/`, computed from the definitions; cases that `docs/CASES.md` names are tests, too. The tests are in a
//! separate crate because a crate with tests is proved twice, with them and without; and they are in one crate because
//! each crate loads its statements again.
#![tactic(auto)]

#[cfg(test)]
mod marks;
#[cfg(test)]
mod once;
#[cfg(test)]
mod rows;
#[cfg(test)]
mod streams;
