//! The rules by which the owner of an end adapts to its path: round trips and timeouts, the waits of timers, the Ack
//! Ratio, what a slow reader leaves of the window, limits of answers, and when an end is given up (RFC 4340; RFC 4341;
//! RFC 6298; where these leave it open, own).
//!
//! All are functions of plain numbers, which take no memory and know no clock; [`Moment`] is a trait of what is due at a
//! time. Times are in milliseconds since any moment. A time that lies before an earlier one counts as the earlier one.
//! The owner of an end calls them (dccp_uses).
#![tactic(auto)]

mod ack_ratio;
mod allowance;
mod giving_up;
mod laws;
mod limits;
mod moment;
mod round_trip;
mod waits;

pub use crate::ack_ratio::{AckRatio, ack_ratio_aim, period, wants_ack_ratio};
pub use crate::allowance::{
    Allowance, allowed_after_acks, allowed_after_congestion, allowed_after_drops,
    allowed_after_timeout, is_within_round_trip, window_within,
};
pub use crate::giving_up::{GIVES_UP_ASKING, GIVES_UP_ENDING, GIVES_UP_SILENT, asks_after_silence};
pub use crate::laws::{
    ack_ratios_fit_the_window, allowances_are_kept, limits_hold, timeouts_are_bounded,
};
pub use crate::limits::{
    Bucket, Limit, TokenGrant, far_syncs, is_near_greatest, near_syncs, resets_to_strangers,
};
pub use crate::moment::Moment;
pub use crate::round_trip::{RoundTrip, longest_timeout, timeout, with_sample};
pub use crate::waits::{
    Wait, ack_wait, close_wait, negotiate_wait, probes_first, probing_wait, request_wait, rto_wait,
};
