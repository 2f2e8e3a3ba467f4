//! What C may read of an end.
ghost use Rattle.std.specs.Prelude.{◌≡◌};
ghost use Rattle.dccp_c.specs.Seeing.{seen, seen_feature, seen_path, seen_within, trip_seen};

use crate::codes::stand_code;
use crate::sizes::{ROUND_TRIP_VIEW_BYTES, VIEW_BYTES};
use ccid_two::Kinds;
use dccp_endpoint::{Endpoint, Feature, Place};
use dccp_uses::TimedEnd;
use path_rules::{Allowance, RoundTrip, window_within};
use server_peers::rank_of;

/// An end as C may read it.
#[repr(C)]
#[derive(Clone, Copy)]
pub struct View {
    /// How many bytes this struct has, as its caller knows it.
    pub size: usize,
    /// The first number sent.
    pub iss: u64,
    /// The greatest number sent.
    pub gss: u64,
    /// The greatest acknowledgement number received.
    pub gar: u64,
    /// The first number received.
    pub isr: u64,
    /// The greatest number received.
    pub gsr: u64,
    /// How many packets were taken.
    pub marked: u64,
    /// The phase of the connection.
    pub phase: u32,
    /// How many data packets may be in flight, as far as the congestion control and the application that reads them
    /// allow.
    pub window: u32,
    /// How many data packets are in flight.
    pub in_flight: u32,
    /// The Service Code that it asks for or serves.
    pub service: u32,
}

/// What an end has measured of its path.
#[repr(C)]
#[derive(Clone, Copy)]
pub struct RoundTripView {
    /// How many bytes this struct has, as its caller knows it.
    pub size: usize,
    /// How long the sender waits for a report, in milliseconds.
    pub timeout: u64,
    /// The round trip, in microseconds; 0 before a sample.
    pub smoothed: u32,
    /// Its variance, in microseconds; 0 before a sample.
    pub variance: u32,
}

/// What an end holds for a feature.
#[repr(C)]
#[derive(Clone, Copy)]
pub struct FeatureState {
    /// The value that holds.
    pub value: u64,
    /// The stand of its negotiation.
    pub stand: u32,
}

// The view of an end by itself.
fn seen_alone(end: &Endpoint<Kinds>) -> View
    ensures { result ≡ seen end.now }
{
    let marks = end.marks();
    View {
        size: VIEW_BYTES,
        iss: marks.iss.get(),
        gss: marks.gss.get(),
        gar: marks.gar.get(),
        isr: marks.isr.get(),
        gsr: marks.gsr.get(),
        marked: end.marked(),
        phase: u32::from(rank_of(end.phase())),
        window: end.window(),
        in_flight: end.in_flight(),
        service: end.service(),
    }
}

/// The view of an end whose sender has this allowance from the application that reads its data.
pub(crate) fn seen(end: &Endpoint<Kinds>, allowance: Option<Allowance>) -> View
    ensures { result ≡ seen_within allowance end.now }
{
    View {
        window: window_within(allowance, end.window()),
        ..seen_alone(end)
    }
}

pub(crate) fn seen_feature(end: &Endpoint<Kinds>, feature: Feature, place: Place) -> FeatureState
    ensures { result ≡ seen_feature feature place end.now }
{
    let held = end.held(feature, place);
    FeatureState {
        value: held.value,
        stand: stand_code(held.stand),
    }
}

pub(crate) fn trip_seen(trip: Option<RoundTrip>, timeout: u64) -> RoundTripView
    ensures { result ≡ trip_seen trip timeout }
{
    match trip {
        Some(trip) => RoundTripView {
            size: ROUND_TRIP_VIEW_BYTES,
            timeout,
            smoothed: trip.smoothed,
            variance: trip.variance,
        },
        None => RoundTripView {
            size: ROUND_TRIP_VIEW_BYTES,
            timeout,
            smoothed: 0,
            variance: 0,
        },
    }
}

pub(crate) fn seen_path(timed: &TimedEnd<Kinds>) -> RoundTripView
    ensures { result ≡ seen_path timed.now }
{
    trip_seen(timed.path().round_trip, timed.timeout())
}
