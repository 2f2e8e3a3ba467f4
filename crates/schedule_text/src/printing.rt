//! Events and their results, printed.
#![tactic(auto, using(tool_text::proofs::Keeping::keeps_itself, tool_text::proofs::Keeping::keeps_on))]

ghost use Rattle.std.specs.Prelude.{◌≡◌, ◌++◌, ◌∷◌, codes, decimal, flat_map, OnOk, OnErr};
ghost use Rattle.schedule_text.specs.Names.{side_name, place_name, timer_name};
ghost use Rattle.tool_text.specs.Text.{Keeps, SameText, hex_or_dash};
ghost use Rattle.schedule_text.specs.Printing.{side_letter, values_text, event_text};
ghost use Rattle.schedule_text.specs.Results as spec;

use crate::{Event, Refusal, Seen, Timer};
use dccp_states::{Outcome, Why};
use dccp_sum::SumFault;
use feature_lists::{Feature, Place};
use seq_circle::NoMemory;
use tool_text::{malformed_name, put, put_counted, put_hex_or_dash, put_named, put_number};
use world_events::Side;

/// The word for a side (own).
pub fn side_name(side: Side) -> &'static [u8]
    ensures { result.now ≡ side_name side }
{
    match side {
        Side::Client => b"client",
        Side::Server => b"server",
    }
}

/// The letter of a side's frames (own).
pub fn side_letter(side: Side) -> &'static [u8]
    ensures { result.now ≡ side_letter side }
{
    match side {
        Side::Client => b"c",
        Side::Server => b"s",
    }
}

fn place_name(place: Place) -> &'static [u8]
    ensures { result.now ≡ place_name place }
{
    match place {
        Place::Here => b"here",
        Place::There => b"there",
    }
}

fn timer_name(timer: Timer) -> &'static [u8]
    ensures { result.now ≡ timer_name timer }
{
    match timer {
        Timer::Request => b"request",
        Timer::Ack => b"ack",
        Timer::Negotiate => b"negotiate",
        Timer::Rto => b"rto",
        Timer::Close => b"close",
        Timer::TimeWait => b"timewait",
    }
}

fn refusal_name(fault: Refusal) -> &'static [u8]
    ensures { result.now ≡ spec.refusal_name fault }
{
    match fault {
        Refusal::NotFresh => b"NotFresh",
        Refusal::NotOpen => b"NotOpen",
        Refusal::TooLong => b"TooLong",
        Refusal::NotNegotiated => b"NotNegotiated",
        Refusal::WindowFull => b"WindowFull",
        Refusal::BadList => b"BadList",
        Refusal::NotOurs => b"NotOurs",
        Refusal::NotLive => b"NotLive",
    }
}

fn sum_word(fault: SumFault) -> &'static [u8]
    ensures { result.now ≡ spec.sum_word fault }
{
    match fault {
        SumFault::CoverageTooLarge => b"CoverageTooLarge",
        SumFault::Wrong => b"Wrong",
    }
}

fn why_name(why: Why) -> &'static [u8]
    ensures { result.now ≡ spec.why_name why }
{
    match why {
        Why::Malformed(fault) => malformed_name(fault),
        Why::Sum(fault) => sum_word(fault),
        Why::OtherFlow => b"OtherFlow",
        Why::StrayReset => b"StrayReset",
        Why::ShortOff => b"ShortOff",
        Why::BadSync => b"BadSync",
    }
}

fn put_delivery(text: &mut Vec<u8>, from: Side, index: u64) -> Result<(), NoMemory>
    ensures ok { OnOk result (text.new.items ≡ text.old.items ++ event_text (Event.Deliver from index)) }
    ensures front { Keeps text.old.items text.new.items }
{
    put(text, b"deliver ")?;
    put(text, side_letter(from))?;
    put_number(text, index)
}

// Puts a side and data after this word.
fn put_sending(text: &mut Vec<u8>, word: &[u8], side: Side, payload: &[u8]) -> Result<(), NoMemory>
    ensures ok { OnOk result (text.new.items ≡ text.old.items ++ (word.now ++ (side_name side ++ (codes " " ++ hex_or_dash payload.now)))) }
    ensures front { Keeps text.old.items text.new.items }
{
    put_named(text, word, side_name(side))?;
    put(text, b" ")?;
    put_hex_or_dash(text, payload)
}

#[tactic(auto, using(tool_text::proofs::Keeping::keeps_itself, tool_text::proofs::Keeping::keeps_on, tool_text::proofs::Keeping::keeps_more, tool_text::proofs::Keeping::keeps_through))]
fn put_more_values(text: &mut Vec<u8>, values: &[u64]) -> Result<(), NoMemory>
    ensures ok { OnOk result (text.new.items ≡ text.old.items ++ flat_map (λ value. 44 ∷ decimal value) values.now) }
    ensures front { Keeps text.old.items text.new.items }
{
    for value in values {
        put_counted(text, b",", *value)?;
    }
    Ok(())
}

fn put_values(text: &mut Vec<u8>, values: &[u64]) -> Result<(), NoMemory>
    ensures ok { OnOk result (text.new.items ≡ text.old.items ++ values_text values.now) }
    ensures front { Keeps text.old.items text.new.items }
{
    let Some((first, others)) = values.split_first() else {
        return Ok(());
    };
    put_number(text, *first)?;
    put_more_values(text, others)?;
    Ok(())
}

fn put_preference(
    text: &mut Vec<u8>,
    side: Side,
    place: Place,
    feature: Feature,
    values: &[u64],
) -> Result<(), NoMemory>
    ensures ok { OnOk result (text.new.items ≡ text.old.items ++ event_text (Event.Prefer side feature place values.now)) }
    ensures front { Keeps text.old.items text.new.items }
{
    put_named(text, b"prefer ", side_name(side))?;
    put_named(text, b" ", place_name(place))?;
    put_counted(text, b" ", u64::from(feature.number()))?;
    put(text, b" ")?;
    put_values(text, values)
}

fn put_timer(text: &mut Vec<u8>, side: Side, timer: Timer) -> Result<(), NoMemory>
    ensures ok { OnOk result (text.new.items ≡ text.old.items ++ event_text (Event.Timer side timer)) }
    ensures front { Keeps text.old.items text.new.items }
{
    put_named(text, b"timer ", side_name(side))?;
    put_named(text, b" ", timer_name(timer))
}

fn put_event(text: &mut Vec<u8>, event: &Event) -> Result<(), NoMemory>
    ensures ok { OnOk result (text.new.items ≡ text.old.items ++ event_text event.now) }
    ensures front { Keeps text.old.items text.new.items }
{
    match event {
        Event::Open => put(text, b"open"),
        Event::Deliver { from, index } => put_delivery(text, *from, *index),
        Event::Send { side, payload } => put_sending(text, b"send ", *side, payload.bytes()),
        // Early data have no line in a schedule: this is for people to read.
        Event::SendEarly { side, payload } => {
            put_sending(text, b"early ", *side, payload.bytes())
        }
        Event::Prefer {
            side,
            feature,
            place,
            values,
        } => put_preference(text, *side, *place, *feature, values.numbers()),
        Event::Timer { side, timer } => put_timer(text, *side, *timer),
        Event::Close { side } => put_named(text, b"close ", side_name(*side)),
        Event::Abort { side } => put_named(text, b"abort ", side_name(*side)),
    }
}

#[tactic(auto, using(tool_text::proofs::Keeping::keeps_itself, tool_text::proofs::Keeping::keeps_on, tool_text::proofs::Keeping::keeps_more, tool_text::proofs::Keeping::keeps_through))]
fn put_detail(text: &mut Vec<u8>, detail: &[u8; 3]) -> Result<(), NoMemory>
    ensures ok { OnOk result (text.new.items ≡ text.old.items ++ flat_map spec.decimal_byte detail.now) }
    ensures front { Keeps text.old.items text.new.items }
{
    for byte in detail {
        put_counted(text, b" ", u64::from(*byte))?;
    }
    Ok(())
}

fn put_reset(text: &mut Vec<u8>, code: u8, detail: &[u8; 3]) -> Result<(), NoMemory>
    ensures ok { OnOk result (text.new.items ≡ text.old.items ++ spec.reset_text code detail.now) }
    ensures front { Keeps text.old.items text.new.items }
{
    put_counted(text, b"sent reset ", u64::from(code))?;
    put_detail(text, detail)
}

fn put_data(text: &mut Vec<u8>, bytes: &[u8]) -> Result<(), NoMemory>
    ensures ok { OnOk result (text.new.items ≡ text.old.items ++ spec.data_text bytes.now) }
    ensures front { Keeps text.old.items text.new.items }
{
    put(text, b"took data ")?;
    put_hex_or_dash(text, bytes)
}

fn put_taken(
    text: &mut Vec<u8>,
    input: &[u8],
    delivered: Option<(usize, usize)>,
) -> Result<(), NoMemory>
    requires { spec.IsPlaceIn input.now delivered }
    ensures ok { OnOk result (text.new.items ≡ text.old.items ++ spec.taken_text input.now delivered) }
    ensures front { Keeps text.old.items text.new.items }
{
    match delivered {
        None => put(text, b"took"),
        Some((first, past)) => put_data(text, &input[first..past]),
    }
}

fn put_outcome(text: &mut Vec<u8>, input: &[u8], outcome: &Outcome) -> Result<(), NoMemory>
    requires { spec.HasItsData input.now outcome.now }
    ensures ok { OnOk result (text.new.items ≡ text.old.items ++ spec.outcome_text input.now outcome.now) }
    ensures front { Keeps text.old.items text.new.items }
{
    match *outcome {
        Outcome::Took { delivered } => put_taken(text, input, delivered),
        Outcome::Dropped(why) => put_named(text, b"dropped ", why_name(why)),
        Outcome::Synced(number) => put_counted(text, b"synced ", number.get()),
        Outcome::WasReset(code) => put_counted(text, b"was reset ", u64::from(code)),
        Outcome::SentReset { code, detail } => put_reset(text, code, &detail),
    }
}

fn put_seen(text: &mut Vec<u8>, input: &[u8], seen: &Seen) -> Result<(), NoMemory>
    requires { spec.IsSeenOf input.now seen.now }
    ensures ok { OnOk result (text.new.items ≡ text.old.items ++ spec.seen_text input.now seen.now) }
    ensures front { Keeps text.old.items text.new.items }
{
    match seen {
        Seen::Called(Ok(())) => put(text, b"ok"),
        Seen::Called(Err(fault)) => put_named(text, b"refused ", refusal_name(*fault)),
        Seen::Fired(true) => put(text, b"fired"),
        Seen::Fired(false) => put(text, b"idle"),
        Seen::Received(outcome) => put_outcome(text, input, outcome),
    }
}

fn put_told(text: &mut Vec<u8>, line: u64, event: &Event) -> Result<(), NoMemory>
    ensures ok { OnOk result (text.new.items ≡ text.old.items ++ spec.told_text line event.now) }
    ensures front { Keeps text.old.items text.new.items }
{
    put_number(text, line)?;
    put(text, b" ")?;
    put_event(text, event)
}

/// Puts `: RESULT`, what was seen, and the line's end (own). `input` is the bytes of the frame that arrived, and is
/// empty if none did. NoMemory comes if the text could not grow; then a prefix of it may be there.
pub fn put_result(text: &mut Vec<u8>, input: &[u8], seen: &Seen) -> Result<(), NoMemory>
    requires { spec.IsSeenOf input.now seen.now }
    ensures ok { OnOk result (text.new.items ≡ text.old.items ++ spec.result_text input.now seen.now) }
    ensures front { Keeps text.old.items text.new.items }
{
    put(text, b": ")?;
    put_seen(text, input, seen)?;
    put(text, b"\n")
}

fn put_line(
    text: &mut Vec<u8>,
    line: u64,
    event: &Event,
    seen: &Seen,
    input: &[u8],
) -> Result<(), NoMemory>
    requires { spec.IsSeenOf input.now seen.now }
    ensures ok { OnOk result (text.new.items ≡ text.old.items ++ spec.seen_line line event.now seen.now input.now) }
    ensures front { Keeps text.old.items text.new.items }
{
    put_told(text, line, event)?;
    put_result(text, input, seen)
}

/// Appends an event as it is in its line, without a newline (own). Early data, which have no line, get the word
/// `early`. After NoMemory the text is as before.
pub fn print_event(event: &Event, to: &mut Vec<u8>) -> Result<(), NoMemory>
    ensures ok { OnOk result (to.new.items ≡ to.old.items ++ event_text event.now) }
    ensures err { OnErr result (SameText to.old to.new) }
{
    let before = to.len();
    let printed = put_event(to, event);
    if printed.is_err() {
        to.truncate(before);
    }
    printed
}

/// Appends the line `K EVENT: RESULT` of an event that took place, under the number K of its line in the input, and a
/// newline (own). `input` is the bytes of the frame that arrived, which contain delivered data, and is empty for any
/// other event. After NoMemory the text is as before.
pub fn print_seen(
    line: u64,
    event: &Event,
    seen: &Seen,
    input: &[u8],
    to: &mut Vec<u8>,
) -> Result<(), NoMemory>
    requires { spec.IsSeenOf input.now seen.now }
    ensures ok { OnOk result (to.new.items ≡ to.old.items ++ spec.seen_line line event.now seen.now input.now) }
    ensures err { OnErr result (SameText to.old to.new) }
{
    let before = to.len();
    let printed = put_line(to, line, event, seen, input);
    if printed.is_err() {
        to.truncate(before);
    }
    printed
}

fn put_numbered(text: &mut Vec<u8>, line: u64, seen: &Seen, input: &[u8]) -> Result<(), NoMemory>
    requires { spec.IsSeenOf input.now seen.now }
    ensures ok { OnOk result (text.new.items ≡ text.old.items ++ spec.result_line line seen.now input.now) }
    ensures front { Keeps text.old.items text.new.items }
{
    put_number(text, line)?;
    put_result(text, input, seen)
}

/// Appends the line `K: RESULT` of a replay's frame, under the number K of its line in the input, and a newline (own).
/// `input` is the bytes of the frame. After NoMemory the text is as before.
pub fn print_result(line: u64, seen: &Seen, input: &[u8], to: &mut Vec<u8>) -> Result<(), NoMemory>
    requires { spec.IsSeenOf input.now seen.now }
    ensures ok { OnOk result (to.new.items ≡ to.old.items ++ spec.result_line line seen.now input.now) }
    ensures err { OnErr result (SameText to.old to.new) }
{
    let before = to.len();
    let printed = put_numbered(to, line, seen, input);
    if printed.is_err() {
        to.truncate(before);
    }
    printed
}
