//! The sizes of the structs that may grow, in bytes. Each struct begins with its size as its caller knows it, so that
//! one of another header is refused, and never misread.

/// The size of [`Settings`](crate::Settings).
pub const SETTINGS_BYTES: usize = 80;

/// The size of [`View`](crate::View).
pub const VIEW_BYTES: usize = 72;

/// The size of [`RoundTripView`](crate::RoundTripView).
pub const ROUND_TRIP_VIEW_BYTES: usize = 24;

/// The size of [`FlowRules`](crate::FlowRules).
pub const FLOW_RULES_BYTES: usize = 48;

/// The size of [`FlowLife`](crate::FlowLife).
pub const FLOW_LIFE_BYTES: usize = 32;

/// The size of [`EventView`](crate::EventView).
pub const EVENT_VIEW_BYTES: usize = 48;
