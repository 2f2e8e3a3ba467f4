//! The words of the tool's lines.
ghost use Rattle.std.specs.Prelude.{◌≡◌};
ghost use Rattle.schedule_text.specs.Names.{form_named, side_named, place_named, timer_of};

use crate::Timer;
use feature_lists::Place;
use tool_text::is_text;
use world_events::Side;

/// A line's form, by its first word (own).
#[derive(Clone, Copy)]
pub(crate) enum Form {
    Version,
    Plain,
    Iss,
    Set,
    Offer,
    Open,
    Deliver,
    Send,
    Prefer,
    Timer,
    Close,
    Abort,
}

/// The form that begins with the word.
pub(crate) fn form_named(word: &[u8]) -> Option<Form>
    ensures { result ≡ form_named word.now }
{
    if is_text(word, b"version") {
        Some(Form::Version)
    } else if is_text(word, b"plain") {
        Some(Form::Plain)
    } else if is_text(word, b"iss") {
        Some(Form::Iss)
    } else if is_text(word, b"set") {
        Some(Form::Set)
    } else if is_text(word, b"offer") {
        Some(Form::Offer)
    } else if is_text(word, b"open") {
        Some(Form::Open)
    } else if is_text(word, b"deliver") {
        Some(Form::Deliver)
    } else if is_text(word, b"send") {
        Some(Form::Send)
    } else if is_text(word, b"prefer") {
        Some(Form::Prefer)
    } else if is_text(word, b"timer") {
        Some(Form::Timer)
    } else if is_text(word, b"close") {
        Some(Form::Close)
    } else if is_text(word, b"abort") {
        Some(Form::Abort)
    } else {
        None
    }
}

/// The side of this name.
pub(crate) fn side_named(word: &[u8]) -> Option<Side>
    ensures { result ≡ side_named word.now }
{
    if is_text(word, b"client") {
        Some(Side::Client)
    } else if is_text(word, b"server") {
        Some(Side::Server)
    } else {
        None
    }
}

/// The place of this name.
pub(crate) fn place_named(word: &[u8]) -> Option<Place>
    ensures { result ≡ place_named word.now }
{
    if is_text(word, b"here") {
        Some(Place::Here)
    } else if is_text(word, b"there") {
        Some(Place::There)
    } else {
        None
    }
}

/// The timer of this name.
pub(crate) fn timer_of(word: &[u8]) -> Option<Timer>
    ensures { result ≡ timer_of word.now }
{
    if is_text(word, b"request") {
        Some(Timer::Request)
    } else if is_text(word, b"ack") {
        Some(Timer::Ack)
    } else if is_text(word, b"negotiate") {
        Some(Timer::Negotiate)
    } else if is_text(word, b"rto") {
        Some(Timer::Rto)
    } else if is_text(word, b"close") {
        Some(Timer::Close)
    } else if is_text(word, b"timewait") {
        Some(Timer::TimeWait)
    } else {
        None
    }
}
