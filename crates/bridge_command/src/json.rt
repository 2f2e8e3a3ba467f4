//! `json`: the records of a capture, classic or pcapng, as objects of JSON, one a line (RFC 8259; the members' names
//! are own).
//!
//! `json` writes what is on the wire of each packet of DCCP, and why a record holds none. Objects are built and written
//! by `serde_json`, whose members are in the order of their names.

mod judging;
mod laws;
mod objects;
mod options;
mod packets;
mod skips;
mod telling;

pub use crate::json::laws::{
    each_record_is_told, each_record_told_is_unwrapped, what_show_shows_is_told,
};
pub(crate) use crate::json::objects::Object;
pub(crate) use crate::json::telling::json_records;
