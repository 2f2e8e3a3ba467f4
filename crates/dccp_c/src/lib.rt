//! DCCP for programs in C (own; the ends are those of RFC 4340): a static library, whose functions `include/dccp.h`
//! declares, over `Endpoint<Kinds>` with the timers of a session, and over `EventServer`, a listener with those of its
//! flows.
//!
//! C holds an [`End`] or a [`ListenerHandle`], which points to an end or a listener with its timers and the place where
//! it leaves its frame. Each function does one step and returns a code of [`codes`](crate::codes). Its contract is that
//! step: for an end a step of `Session`, and for a listener one of dccp_server. None requires anything of its caller
//! except what the types say: pointers to what they name, `bool`s that are 0 or 1, and one call at a time for a handle.
//! A wrong value is answered with a code, and a handle that holds nothing with `NOT_MADE`.
//!
//! Another static library is made in the same way: a line with `staticlib` in `crates.txt`, `rt lib` in its folder,
//! which leaves an archive in `out/`, and exports as those of `calls`. Numbers, `bool`s, slices (in C a pointer and a
//! length) and structs with `#[repr(C)]` cross. An end or a listener does not, nor does a `Box` of one: a struct owns
//! the box by ghost data (`EndBox`, `ListenerBox`), and its proof is in part written by hand. For a parameter
//! `alloc: Global` C passes nothing.
#![tactic(auto)]

mod calls;
mod codes;
mod cookie_calls;
mod end;
mod fates;
mod flow_events;
mod flow_fates;
mod flow_features;
mod flow_names;
mod flow_numbers;
mod flow_reading;
mod flow_requests;
mod flow_rules;
mod founding;
mod frame;
mod held;
mod kept;
mod kept_listener;
mod last_sync;
mod laws;
mod listener;
mod listener_calls;
mod making;
mod peer;
mod readers;
mod reading;
mod refusing;
mod serving;
mod sizes;
mod steps;
mod told;
mod version;

pub use crate::cookie_calls::KeyPair;
pub use crate::end::End;
pub use crate::flow_events::EventView;
pub use crate::flow_numbers::Key;
pub use crate::flow_rules::{FlowLife, FlowRules};
pub use crate::frame::Frame;
pub use crate::last_sync::LastSync;
pub use crate::laws::{longest_data_fit, ticks_are_a_tick};
pub use crate::listener::ListenerHandle;
pub use crate::making::{Settings, Wish};
pub use crate::peer::PeerAddress;
pub use crate::readers::{FeatureState, RoundTripView, View};
pub use crate::reading::ReadData;
pub use crate::told::Told;
