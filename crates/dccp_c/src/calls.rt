//! The functions that C calls: each does one step of the end that its handle holds, and of its timers.
ghost use Rattle.std.specs.Prelude.{◌≡◌, ◌==◌, ◌≤◌, None, Ok};
ghost use Rattle.std.specs.Option.{option_map};
ghost use Rattle.dccp_listener.specs.Chain.{Aborts, Closes, Fires, Opens, Prefers, Sends, asked};
ghost use Rattle.feature_lists.specs.Features.{feature_numbered};
ghost use Rattle.dccp_c.specs.Framing.{handed_in};
ghost use Rattle.dccp_c.specs.Codes.{place_by, timer_code, timer_coded};
ghost use Rattle.dccp_c.specs.Accepting.{AcceptsCode, accepted_end, as_server, accept_step, step_frame, step_told};
ghost use Rattle.dccp_c.specs.Doing.{CallsEnd, CallsEndIfKnown, c_ticks, c_waits, code_after, drops_in, end_in, frame_after, kept_after};
ghost use Rattle.dccp_c.specs.Making.{MakesCode, care_by, configured_by, made_of};
ghost use Rattle.dccp_c.specs.Seeing.{path_after, feature_after, feature_code, if_sized, look_code, sized_code, view_after};
ghost use Rattle.dccp_c.specs.Telling.{drops_heard, hear_code, hear_frame, hear_told, hears_if_short};

use crate::codes::{
    DONE, NO_CONNECTION, NO_FEATURE, NO_MEMORY, NO_TIMER, NOT_MADE, NOTHING_DUE, OTHER_SIZE,
    TOO_LONG, feature_of, place_of, timer_of,
};
use crate::end::End;
use crate::frame::Frame;
use crate::making::{Care, as_server, care_by, configured_by};
use crate::readers::{seen, seen_feature, seen_path};
use crate::sizes::{ROUND_TRIP_VIEW_BYTES, VIEW_BYTES};
use crate::steps::{act, is_listening, new_end, receive, tell_due};
use crate::told::{Told, told_reading};
use crate::{FeatureState, RoundTripView, Settings, View, Wish};
use dccp_endpoint::{Config, MOST_FRAME_BYTES, UserCall};
use std::alloc::Global;

/// Makes an end, in place of what the handle held, which is freed first. Refused with OTHER_SIZE if the settings begin
/// with another size, with NO_NUMBER if the first number is not below 2^48, as `Config::set` refuses a wish, with
/// NO_FEATURE if a wish names no feature, and with NO_MEMORY. Then the handle holds nothing.
#[unsafe(no_mangle)]
pub extern "C" fn dccp_make(
    end: &mut End,
    alloc: Global,
    settings: &Settings,
    wishes: &[Wish],
) -> u32
    ensures end { end_in end.new.kept.value ≡ made_of result (care_by settings.now) (configured_by settings.now wishes.now) }
    ensures code { MakesCode (configured_by settings.now wishes.now) result }
{
    *end = End::none(alloc);
    let config = match configured_by(settings, wishes) {
        Ok(config) => config,
        Err(code) => return code,
    };
    match new_end(alloc, config, &care_by(settings)) {
        Ok(held) => {
            end.put(held);
            DONE
        }
        Err(_) => NO_MEMORY,
    }
}

/// Makes a server's end from the first datagram of a peer, in place of what the handle held, which is freed first.
/// Refused as `dccp_make` is, and with TOO_LONG. NO_CONNECTION if the datagram opens none; then the frame answers it.
/// In all these cases the handle holds nothing.
#[unsafe(no_mangle)]
pub extern "C" fn dccp_accept(
    end: &mut End,
    alloc: Global,
    settings: &Settings,
    wishes: &[Wish],
    datagram: &[u8],
    now: u64,
    frame: &mut Frame,
    told: &mut Told,
) -> u32
    ensures end { end_in end.new.kept.value ≡ accepted_end datagram.now now (care_by settings.now) result (configured_by (as_server settings.now) wishes.now) }
    ensures frame { handed_in frame.new ≡ step_frame (accept_step datagram.now now (care_by settings.now) result (configured_by (as_server settings.now) wishes.now)) }
    ensures told { told.new ≡ step_told (accept_step datagram.now now (care_by settings.now) result (configured_by (as_server settings.now) wishes.now)) told.old }
    ensures code { AcceptsCode datagram.now now (care_by settings.now) (configured_by (as_server settings.now) wishes.now) result }
{
    match configured_by(&as_server(settings), wishes) {
        Ok(config) => {
            let care = care_by(settings);
            accept(end, alloc, config, &care, datagram, now, frame, told)
        }
        Err(code) => {
            *end = End::none(alloc);
            frame.clear();
            code
        }
    }
}

// The same for a configuration that was not refused.
fn accept(
    end: &mut End,
    alloc: Global,
    config: Config,
    care: &Care,
    datagram: &[u8],
    now: u64,
    frame: &mut Frame,
    told: &mut Told,
) -> u32
    requires few { care.now.most_held ≤ 1024 }
    ensures end { end_in end.new.kept.value ≡ accepted_end datagram.now now care.now result (Ok config) }
    ensures frame { handed_in frame.new ≡ step_frame (accept_step datagram.now now care.now result (Ok config)) }
    ensures told { told.new ≡ step_told (accept_step datagram.now now care.now result (Ok config)) told.old }
    ensures code { AcceptsCode datagram.now now care.now (Ok config) result }
{
    *end = End::none(alloc);
    frame.clear();
    if MOST_FRAME_BYTES < datagram.len() {
        return TOO_LONG;
    }
    let Ok(mut held) = new_end(alloc, config, care) else {
        return NO_MEMORY;
    };
    *told = told_reading(&receive(&mut held, datagram, now));
    frame.fill(&held.out);
    if is_listening(&held) {
        return NO_CONNECTION;
    }
    end.put(held);
    DONE
}

/// Frees what the handle holds, if anything.
#[unsafe(no_mangle)]
pub extern "C" fn dccp_free(end: &mut End, alloc: Global)
    ensures { end.new.kept.value ≡ None }
{
    *end = End::none(alloc);
}

// A call of an end by its owner, for C.
fn call(end: &mut End, alloc: Global, call: UserCall<'_>, now: u64, frame: &mut Frame) -> u32
    ensures step { CallsEnd now (end_in end.old.kept.value) (end_in end.new.kept.value) (asked call.entry) (handed_in frame.new) result }
    ensures drops { drops_in end.new.kept.value ≡ drops_in end.old.kept.value }
{
    frame.clear();
    let Some(mut held) = end.take(alloc) else {
        return NOT_MADE;
    };
    let code = act(&mut held, call, now);
    frame.fill(&held.out);
    end.put(held);
    code
}

/// `Session::open` at `now`, in milliseconds as in each call. Returns DONE, NOT_MADE or NOT_FRESH.
#[unsafe(no_mangle)]
pub extern "C" fn dccp_open(end: &mut End, alloc: Global, now: u64, frame: &mut Frame) -> u32
    ensures step { CallsEnd now (end_in end.old.kept.value) (end_in end.new.kept.value) Opens (handed_in frame.new) result }
    ensures drops { drops_in end.new.kept.value ≡ drops_in end.old.kept.value }
{
    call(end, alloc, UserCall::Open, now, frame)
}

/// `Session::send`. Returns DONE, NOT_MADE, NOT_LISTENING, NOT_OPEN, TOO_LONG, NOT_NEGOTIATED or WINDOW_FULL.
#[unsafe(no_mangle)]
pub extern "C" fn dccp_send(
    end: &mut End,
    alloc: Global,
    payload: &[u8],
    now: u64,
    frame: &mut Frame,
) -> u32
    ensures step { CallsEnd now (end_in end.old.kept.value) (end_in end.new.kept.value) (Sends payload.now) (handed_in frame.new) result }
    ensures drops { drops_in end.new.kept.value ≡ drops_in end.old.kept.value }
{
    call(end, alloc, UserCall::Send(payload), now, frame)
}

/// `Session::close`. Returns DONE, NOT_MADE or NOT_OPEN.
#[unsafe(no_mangle)]
pub extern "C" fn dccp_close(end: &mut End, alloc: Global, now: u64, frame: &mut Frame) -> u32
    ensures step { CallsEnd now (end_in end.old.kept.value) (end_in end.new.kept.value) Closes (handed_in frame.new) result }
    ensures drops { drops_in end.new.kept.value ≡ drops_in end.old.kept.value }
{
    call(end, alloc, UserCall::Close, now, frame)
}

/// `Session::abort`. Returns DONE, NOT_MADE or NOT_LIVE.
#[unsafe(no_mangle)]
pub extern "C" fn dccp_abort(end: &mut End, alloc: Global, now: u64, frame: &mut Frame) -> u32
    ensures step { CallsEnd now (end_in end.old.kept.value) (end_in end.new.kept.value) Aborts (handed_in frame.new) result }
    ensures drops { drops_in end.new.kept.value ≡ drops_in end.old.kept.value }
{
    call(end, alloc, UserCall::Abort, now, frame)
}

/// `Session::prefer`, for the feature with this number at the peer or here. NO_FEATURE if no feature has this number.
#[unsafe(no_mangle)]
pub extern "C" fn dccp_prefer(
    end: &mut End,
    alloc: Global,
    feature: u32,
    at_peer: bool,
    values: &[u64],
    now: u64,
    frame: &mut Frame,
) -> u32
    ensures step { CallsEndIfKnown now (end_in end.old.kept.value) (end_in end.new.kept.value) 11 (option_map (λ it. Prefers it (place_by at_peer) values.now) (feature_numbered feature)) (handed_in frame.new) result }
    ensures drops { drops_in end.new.kept.value ≡ drops_in end.old.kept.value }
{
    frame.clear();
    let Some(feature) = feature_of(feature) else {
        return NO_FEATURE;
    };
    let wish = UserCall::Prefer {
        feature,
        place: place_of(at_peer),
        values,
    };
    call(end, alloc, wish, now, frame)
}

/// The timer with this number, which the caller keeps, has run out. NO_TIMER if no timer has this number, and
/// NOTHING_DUE if it has nothing to do.
#[unsafe(no_mangle)]
pub extern "C" fn dccp_timer(
    end: &mut End,
    alloc: Global,
    timer: u32,
    now: u64,
    frame: &mut Frame,
) -> u32
    ensures step { CallsEndIfKnown now (end_in end.old.kept.value) (end_in end.new.kept.value) 16 (option_map Fires (timer_coded timer)) (handed_in frame.new) result }
    ensures drops { drops_in end.new.kept.value ≡ drops_in end.old.kept.value }
{
    frame.clear();
    let Some(timer) = timer_of(timer) else {
        return NO_TIMER;
    };
    call(end, alloc, UserCall::Timer(timer), now, frame)
}

/// Fires the first timer that has run out, or else does what the rules of the path ask for. NOTHING_DUE if nothing is
/// due.
#[unsafe(no_mangle)]
pub extern "C" fn dccp_tick(end: &mut End, alloc: Global, now: u64, frame: &mut Frame) -> u32
    ensures end { end_in end.new.kept.value ≡ kept_after (c_ticks now) (end_in end.old.kept.value) }
    ensures drops { drops_in end.new.kept.value ≡ drops_in end.old.kept.value }
    ensures frame { handed_in frame.new ≡ frame_after (c_ticks now) (end_in end.old.kept.value) }
    ensures code { result ≡ code_after timer_code (c_ticks now) (end_in end.old.kept.value) }
{
    frame.clear();
    let Some(mut held) = end.take(alloc) else {
        return NOT_MADE;
    };
    let Some(due) = held.timed.due(now) else {
        end.put(held);
        return NOTHING_DUE;
    };
    let _ = tell_due(&mut held, due, now);
    frame.fill(&held.out);
    end.put(held);
    DONE
}

/// In how many milliseconds `dccp_tick` has something to do; 2^64 - 1 if no timer runs.
#[unsafe(no_mangle)]
pub extern "C" fn dccp_until_first(end: &mut End, alloc: Global, now: u64) -> u64
    ensures end { end.new.kept.value ≡ end.old.kept.value }
    ensures wait { result ≡ c_waits now (end_in end.old.kept.value) }
{
    let Some(held) = end.take(alloc) else {
        return u64::MAX;
    };
    let left = held.timed.until_first(now);
    end.put(held);
    left.unwrap_or(u64::MAX)
}

/// `Session::arrived`, which returns the outcome. A datagram of more than 2,044 bytes is refused with TOO_LONG, and
/// changes nothing.
#[unsafe(no_mangle)]
pub extern "C" fn dccp_receive(
    end: &mut End,
    alloc: Global,
    datagram: &[u8],
    now: u64,
    frame: &mut Frame,
    told: &mut Told,
) -> u32
    ensures end { end_in end.new.kept.value ≡ hears_if_short datagram.now now (end_in end.old.kept.value) }
    ensures drops { drops_in end.new.kept.value ≡ drops_heard datagram.now now (end_in end.old.kept.value) (drops_in end.old.kept.value) }
    ensures frame { handed_in frame.new ≡ hear_frame datagram.now now (end_in end.old.kept.value) }
    ensures told { told.new ≡ hear_told datagram.now now (end_in end.old.kept.value) told.old }
    ensures code { result ≡ hear_code datagram.now now (end_in end.old.kept.value) }
{
    frame.clear();
    if MOST_FRAME_BYTES < datagram.len() {
        return TOO_LONG;
    }
    let Some(mut held) = end.take(alloc) else {
        return NOT_MADE;
    };
    *told = told_reading(&receive(&mut held, datagram, now));
    frame.fill(&held.out);
    end.put(held);
    DONE
}

/// The numbers of an end, its phase and its window. Returns DONE, OTHER_SIZE or NOT_MADE.
#[unsafe(no_mangle)]
pub extern "C" fn dccp_look(end: &mut End, alloc: Global, view: &mut View) -> u32
    ensures end { end.new.kept.value ≡ end.old.kept.value }
    ensures view { view.new ≡ if_sized (view.old.size == 72) (view_after (end_in end.old.kept.value) view.old) view.old }
    ensures code { result ≡ sized_code (view.old.size == 72) (look_code (end_in end.old.kept.value)) }
{
    if view.size != VIEW_BYTES {
        return OTHER_SIZE;
    }
    let Some(held) = end.take(alloc) else {
        return NOT_MADE;
    };
    *view = seen(held.timed.end(), held.timed.path().reader.allowance);
    end.put(held);
    DONE
}

/// What an end has measured of its path. Returns DONE, OTHER_SIZE or NOT_MADE.
#[unsafe(no_mangle)]
pub extern "C" fn dccp_look_path(end: &mut End, alloc: Global, trip: &mut RoundTripView) -> u32
    ensures end { end.new.kept.value ≡ end.old.kept.value }
    ensures trip { trip.new ≡ if_sized (trip.old.size == 24) (path_after (end_in end.old.kept.value) trip.old) trip.old }
    ensures code { result ≡ sized_code (trip.old.size == 24) (look_code (end_in end.old.kept.value)) }
{
    if trip.size != ROUND_TRIP_VIEW_BYTES {
        return OTHER_SIZE;
    }
    let Some(held) = end.take(alloc) else {
        return NOT_MADE;
    };
    *trip = seen_path(&held.timed);
    end.put(held);
    DONE
}

/// What an end holds for the feature with this number at the peer or here. NO_FEATURE if no feature has this number.
#[unsafe(no_mangle)]
pub extern "C" fn dccp_feature(
    end: &mut End,
    alloc: Global,
    feature: u32,
    at_peer: bool,
    state: &mut FeatureState,
) -> u32
    ensures end { end.new.kept.value ≡ end.old.kept.value }
    ensures state { state.new ≡ feature_after (feature_numbered feature) (place_by at_peer) (end_in end.old.kept.value) state.old }
    ensures code { result ≡ feature_code (feature_numbered feature) (end_in end.old.kept.value) }
{
    let Some(feature) = feature_of(feature) else {
        return NO_FEATURE;
    };
    let Some(held) = end.take(alloc) else {
        return NOT_MADE;
    };
    *state = seen_feature(held.timed.end(), feature, place_of(at_peer));
    end.put(held);
    DONE
}
