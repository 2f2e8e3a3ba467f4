//! Lines of schedules, read.
ghost use Rattle.std.specs.Prelude.{◌≡◌, ◌≤◌, length, OnErr, MatchResult, if◌then◌else◌, None, Some, Ok, Err};
ghost use Rattle.tool_text.specs.Left.{left_of};
ghost use Rattle.tool_text.specs.Words.{word_at};
ghost use Rattle.tool_text.specs.Rows.{allowed};
ghost use Rattle.tool_text.specs.declared.words.faults.LineWhy.TheVariants as why;
ghost use Rattle.schedule_text.specs.Reading as spec;
ghost use Rattle.feature_lists.specs.Wishes.{is_ours, wish_of};

use crate::kinds::{
    FeatureWord, FormWord, FrameNameWord, Mandatory, NumberWord, PlaceWord, SideWord, SomeValues,
    TimerWord, VersionWord,
};
use crate::names::Form;
use crate::{Event, Line, LineFault, LineWhy, Payload, Timer, Values};
use feature_lists::{Feature, Place, PreferFault, usual, wish};
use tool_text::{Digits, HexOrDash, MaybeFlag, WordRow, Words, clean, read_word, says_nothing};
use world_events::Side;

fn wish_fault(fault: PreferFault) -> LineWhy
    ensures { result ≡ spec.wish_fault fault }
{
    match fault {
        PreferFault::BadList => LineWhy::BadList,
        PreferFault::NotOurs | PreferFault::NotOpen => LineWhy::NotOurs,
    }
}

// Why an end may not wish for these values.
fn wish_cause(feature: Feature, place: Place, values: &Values) -> Option<LineWhy>
    ensures { result ≡ spec.wish_cause (wish_of feature place values.now) }
{
    match wish(feature, place, values.numbers()) {
        Ok(_) => None,
        Err(fault) => Some(wish_fault(fault)),
    }
}

// Why an end may not offer the feature.
fn offer_cause(feature: Feature, place: Place) -> Option<LineWhy>
    ensures { result ≡ (if is_ours feature place then None else Some why.NotOurs) }
{
    match usual(feature, place) {
        Some(_) => None,
        None => Some(LineWhy::NotOurs),
    }
}

// The words' fault at this place, if there is a cause for one.
fn allow(words: &Words<'_>, place: usize, cause: Option<LineWhy>) -> Result<(), LineFault>
    ensures { result ≡ allowed (word_at place (left_of words.now)).column tt cause }
{
    match cause {
        None => Ok(()),
        Some(why) => Err(LineFault {
            column: words.column_of(place),
            why,
        }),
    }
}

fn version(words: &mut Words<'_>, said: &mut Line) -> Result<(), LineFault>
    ensures value { MatchResult result
        (λ done. (spec.rows Form.Version).said (left_of words.old) ≡ Ok said.new)
        (λ fault. (spec.rows Form.Version).said (left_of words.old) ≡ Err fault) }
    ensures kept { OnErr result (said.new ≡ said.old) }
{
    let (number, ()) = <(VersionWord, ())>::read(words)?;
    *said = Line::Version { number };
    Ok(())
}

fn plain(words: &mut Words<'_>, said: &mut Line) -> Result<(), LineFault>
    ensures value { MatchResult result
        (λ done. (spec.rows Form.Plain).said (left_of words.old) ≡ Ok said.new)
        (λ fault. (spec.rows Form.Plain).said (left_of words.old) ≡ Err fault) }
    ensures kept { OnErr result (said.new ≡ said.old) }
{
    <() as WordRow>::read(words)?;
    *said = Line::Plain;
    Ok(())
}

fn iss(words: &mut Words<'_>, said: &mut Line) -> Result<(), LineFault>
    ensures value { MatchResult result
        (λ done. (spec.rows Form.Iss).said (left_of words.old) ≡ Ok said.new)
        (λ fault. (spec.rows Form.Iss).said (left_of words.old) ≡ Err fault) }
    ensures kept { OnErr result (said.new ≡ said.old) }
{
    let (side, (number, ())) = <(SideWord, (NumberWord, ()))>::read(words)?;
    *said = Line::Iss { side, number };
    Ok(())
}

// A list of values for a feature, as `set` and `prefer` have it.
type ListWord = (SideWord, (PlaceWord, (FeatureWord, (SomeValues, ()))));

// A feature with or without Mandatory, as `offer` has it.
type OfferWord = (SideWord, (PlaceWord, (FeatureWord, MaybeFlag<Mandatory>)));

fn set(words: &mut Words<'_>, said: &mut Line) -> Result<(), LineFault>
    ensures value { MatchResult result
        (λ done. (spec.rows Form.Set).said (left_of words.old) ≡ Ok said.new)
        (λ fault. (spec.rows Form.Set).said (left_of words.old) ≡ Err fault) }
    ensures kept { OnErr result (said.new ≡ said.old) }
{
    let all = *words;
    let (side, (place, (feature, (values, ())))) = <ListWord>::read(words)?;
    allow(&all, 3, wish_cause(feature, place, &values))?;
    *said = Line::Set {
        side,
        place,
        feature,
        values,
    };
    Ok(())
}

fn offer(words: &mut Words<'_>, said: &mut Line) -> Result<(), LineFault>
    ensures value { MatchResult result
        (λ done. (spec.rows Form.Offer).said (left_of words.old) ≡ Ok said.new)
        (λ fault. (spec.rows Form.Offer).said (left_of words.old) ≡ Err fault) }
    ensures kept { OnErr result (said.new ≡ said.old) }
{
    let all = *words;
    let (side, (place, (feature, mandatory))) = <OfferWord>::read(words)?;
    allow(&all, 2, offer_cause(feature, place))?;
    *said = Line::Offer {
        side,
        place,
        feature,
        mandatory,
    };
    Ok(())
}

fn open(words: &mut Words<'_>, said: &mut Line) -> Result<(), LineFault>
    ensures value { MatchResult result
        (λ done. (spec.rows Form.Open).said (left_of words.old) ≡ Ok said.new)
        (λ fault. (spec.rows Form.Open).said (left_of words.old) ≡ Err fault) }
    ensures kept { OnErr result (said.new ≡ said.old) }
{
    <() as WordRow>::read(words)?;
    *said = Line::Event(Event::Open);
    Ok(())
}

fn say_delivery(said: &mut Line, from: Side, index: u64)
    ensures { said.new ≡ Line.Event (Event.Deliver from index) }
{
    if let Line::Event(event) = said {
        event.become_delivery(from, index);
    } else {
        *said = Line::Event(Event::Deliver { from, index });
    }
}

fn deliver(words: &mut Words<'_>, said: &mut Line) -> Result<(), LineFault>
    ensures value { MatchResult result
        (λ done. (spec.rows Form.Deliver).said (left_of words.old) ≡ Ok said.new)
        (λ fault. (spec.rows Form.Deliver).said (left_of words.old) ≡ Err fault) }
    ensures kept { OnErr result (said.new ≡ said.old) }
{
    let ((from, index), ()) = <(FrameNameWord, ())>::read(words)?;
    say_delivery(said, from, index);
    Ok(())
}

// Decodes the bytes in the payload's place.
fn put_payload(payload: &mut Payload, digits: &Digits<'_>)
    ensures { payload.new ≡ digits.now }
{
    payload.resize(digits.len());
    let bytes = payload.bytes_mut();
    digits.put(bytes);
}

/// The bytes as a payload, which has room for as many as one line has digits for (own).
pub fn payload_of(digits: &Digits<'_>) -> Payload
    ensures { result ≡ digits.now }
{
    let mut payload = Payload::new();
    put_payload(&mut payload, digits);
    payload
}

// Making an event clears its room for data, so one that sends is changed in place.
fn be_sending(event: &mut Event, whose: Side, digits: &Digits<'_>)
    ensures { event.new ≡ Event.Send whose digits.now }
{
    if let Event::Send { side, payload } = event {
        *side = whose;
        put_payload(payload, digits);
    } else {
        *event = Event::Send {
            side: whose,
            payload: payload_of(digits),
        };
    }
}

fn say_sending(said: &mut Line, side: Side, digits: &Digits<'_>)
    ensures { said.new ≡ Line.Event (Event.Send side digits.now) }
{
    if let Line::Event(event) = said {
        be_sending(event, side, digits);
    } else {
        let payload = payload_of(digits);
        *said = Line::Event(Event::Send { side, payload });
    }
}

fn send(words: &mut Words<'_>, said: &mut Line) -> Result<(), LineFault>
    ensures value { MatchResult result
        (λ done. (spec.rows Form.Send).said (left_of words.old) ≡ Ok said.new)
        (λ fault. (spec.rows Form.Send).said (left_of words.old) ≡ Err fault) }
    ensures kept { OnErr result (said.new ≡ said.old) }
{
    let (side, (digits, ())) = <(SideWord, (HexOrDash, ()))>::read(words)?;
    say_sending(said, side, &digits);
    Ok(())
}

// Turns a line that says no event into a wish. It clears the event's room, so it is not part of `say_wish`.
fn begin_with_wish(said: &mut Line, side: Side, feature: Feature, place: Place, values: Values)
    ensures { said.new ≡ Line.Event (Event.Prefer side feature place values) }
{
    *said = Line::Event(Event::Prefer {
        side,
        feature,
        place,
        values,
    });
}

fn say_wish(said: &mut Line, side: Side, feature: Feature, place: Place, values: Values)
    ensures { said.new ≡ Line.Event (Event.Prefer side feature place values) }
{
    if let Line::Event(event) = said {
        event.become_wish(side, feature, place, values);
    } else {
        begin_with_wish(said, side, feature, place, values);
    }
}

fn prefer(words: &mut Words<'_>, said: &mut Line) -> Result<(), LineFault>
    ensures value { MatchResult result
        (λ done. (spec.rows Form.Prefer).said (left_of words.old) ≡ Ok said.new)
        (λ fault. (spec.rows Form.Prefer).said (left_of words.old) ≡ Err fault) }
    ensures kept { OnErr result (said.new ≡ said.old) }
{
    let (side, (place, (feature, (values, ())))) = <ListWord>::read(words)?;
    say_wish(said, side, feature, place, values);
    Ok(())
}

fn say_timer(said: &mut Line, side: Side, timer: Timer)
    ensures { said.new ≡ Line.Event (Event.Timer side timer) }
{
    if let Line::Event(event) = said {
        event.become_timer(side, timer);
    } else {
        *said = Line::Event(Event::Timer { side, timer });
    }
}

fn timer(words: &mut Words<'_>, said: &mut Line) -> Result<(), LineFault>
    ensures value { MatchResult result
        (λ done. (spec.rows Form.Timer).said (left_of words.old) ≡ Ok said.new)
        (λ fault. (spec.rows Form.Timer).said (left_of words.old) ≡ Err fault) }
    ensures kept { OnErr result (said.new ≡ said.old) }
{
    let (side, (timer, ())) = <(SideWord, (TimerWord, ()))>::read(words)?;
    say_timer(said, side, timer);
    Ok(())
}

fn close(words: &mut Words<'_>, said: &mut Line) -> Result<(), LineFault>
    ensures value { MatchResult result
        (λ done. (spec.rows Form.Close).said (left_of words.old) ≡ Ok said.new)
        (λ fault. (spec.rows Form.Close).said (left_of words.old) ≡ Err fault) }
    ensures kept { OnErr result (said.new ≡ said.old) }
{
    let (side, ()) = <(SideWord, ())>::read(words)?;
    *said = Line::Event(Event::Close { side });
    Ok(())
}

fn abort(words: &mut Words<'_>, said: &mut Line) -> Result<(), LineFault>
    ensures value { MatchResult result
        (λ done. (spec.rows Form.Abort).said (left_of words.old) ≡ Ok said.new)
        (λ fault. (spec.rows Form.Abort).said (left_of words.old) ≡ Err fault) }
    ensures kept { OnErr result (said.new ≡ said.old) }
{
    let (side, ()) = <(SideWord, ())>::read(words)?;
    *said = Line::Event(Event::Abort { side });
    Ok(())
}

// What the words after the first say in a line of this form.
fn read_row(form: Form, words: &mut Words<'_>, said: &mut Line) -> Result<(), LineFault>
    ensures value { MatchResult result
        (λ done. (spec.rows form).said (left_of words.old) ≡ Ok said.new)
        (λ fault. (spec.rows form).said (left_of words.old) ≡ Err fault) }
    ensures kept { OnErr result (said.new ≡ said.old) }
{
    match form {
        Form::Version => version(words, said),
        Form::Plain => plain(words, said),
        Form::Iss => iss(words, said),
        Form::Set => set(words, said),
        Form::Offer => offer(words, said),
        Form::Open => open(words, said),
        Form::Deliver => deliver(words, said),
        Form::Send => send(words, said),
        Form::Prefer => prefer(words, said),
        Form::Timer => timer(words, said),
        Form::Close => close(words, said),
        Form::Abort => abort(words, said),
    }
}

/// What a line of a schedule says, or the first of its faults in the order of `LineWhy`, with its column (own). The
/// line comes without its newline.
///
/// It never answers TooMuchInput, HeaderLate, TooManyEvents or NoSuchFrame, which depend on more than the line, nor
/// FrameTooLong or SealShort, which are faults of frames.
pub fn read_line(line: &[u8]) -> Result<Line, LineFault>
    ensures { result ≡ spec.read_line line.now }
{
    let mut said = Line::Nothing;
    read_line_into(line, &mut said)?;
    Ok(said)
}

/// The same as [`read_line`], but what the line says is left in `said`, which a fault leaves as it is (own). So a line,
/// which has room for data, is not moved.
pub fn read_line_into(line: &[u8], said: &mut Line) -> Result<(), LineFault>
    ensures value { MatchResult result
        (λ done. spec.read_line line.now ≡ Ok said.new)
        (λ fault. spec.read_line line.now ≡ Err fault) }
    ensures kept { OnErr result (said.new ≡ said.old) }
{
    clean(line)?;
    if says_nothing(line) {
        *said = Line::Nothing;
        return Ok(());
    }
    let mut words = Words::of(line);
    let form = read_word::<FormWord>(words.next_word())?;
    read_row(form, &mut words, said)
}
