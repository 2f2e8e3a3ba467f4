//! The kinds of words that lines of schedules have.
ghost use Rattle.std.specs.Prelude.{◌≡◌, ◌≤◌, length, IfErr};
ghost use Rattle.schedule_text.specs.Kinds.{feature_kind, form_kind, frame_kind, frame_sent_by, place_kind, sequence_kind, side_kind, timer_kind, values_kind, version_kind};

use crate::names::{Form, form_named, place_named, side_named, timer_of};
use crate::numbers::{feature_of, frame_index, schedule_version, sequence_number_of, values_of};
use crate::{LineWhy, Timer, Values};
use feature_lists::{Feature, Place};
use seq_circle::Seq48;
use tool_text::{Flag, Flaw, WordKind, found_or, is_text};
use world_events::Side;

/// The first word of a line.
pub(crate) struct FormWord;

impl<'a> WordKind<'a> for FormWord {
    type Read = Form;

    ghost reads = { form_kind.reads };

    fn read(word: &'a [u8]) -> Result<Form, Flaw> {
        found_or(LineWhy::UnknownWord, form_named(word))
    }
}

/// The word for a side.
pub(crate) struct SideWord;

impl<'a> WordKind<'a> for SideWord {
    type Read = Side;

    ghost reads = { side_kind.reads };

    fn read(word: &'a [u8]) -> Result<Side, Flaw> {
        found_or(LineWhy::UnknownWord, side_named(word))
    }
}

/// The word for where a feature is located.
pub(crate) struct PlaceWord;

impl<'a> WordKind<'a> for PlaceWord {
    type Read = Place;

    ghost reads = { place_kind.reads };

    fn read(word: &'a [u8]) -> Result<Place, Flaw> {
        found_or(LineWhy::UnknownWord, place_named(word))
    }
}

/// The word for a timer (own): `request`, `ack`, `negotiate`, `rto`, `close` or `timewait`; every other word is
/// UnknownWord.
pub struct TimerWord;

impl<'a> WordKind<'a> for TimerWord {
    type Read = Timer;

    ghost reads = { timer_kind.reads };

    fn read(word: &'a [u8]) -> Result<Timer, Flaw> {
        found_or(LineWhy::UnknownWord, timer_of(word))
    }
}

/// A sequence number.
pub(crate) struct NumberWord;

impl<'a> WordKind<'a> for NumberWord {
    type Read = Seq48;

    ghost reads = { sequence_kind.reads };

    fn read(word: &'a [u8]) -> Result<Seq48, Flaw> {
        found_or(LineWhy::BadNumber, sequence_number_of(word))
    }
}

/// A feature by its number.
pub(crate) struct FeatureWord;

impl<'a> WordKind<'a> for FeatureWord {
    type Read = Feature;

    ghost reads = { feature_kind.reads };

    fn read(word: &'a [u8]) -> Result<Feature, Flaw> {
        found_or(LineWhy::BadNumber, feature_of(word))
    }
}

/// The version of a schedule.
pub(crate) struct VersionWord;

impl<'a> WordKind<'a> for VersionWord {
    type Read = u8;

    ghost reads = { version_kind.reads };

    fn read(word: &'a [u8]) -> Result<u8, Flaw> {
        found_or(LineWhy::BadNumber, schedule_version(word))
    }
}

/// One to nine values.
pub(crate) struct SomeValues;

impl<'a> WordKind<'a> for SomeValues {
    type Read = Values;

    ghost reads = { values_kind.reads };

    fn read(word: &'a [u8]) -> Result<Values, Flaw> {
        found_or(LineWhy::BadNumber, values_of(word))
    }
}

// The frame of this sender with this index.
fn sent_by(from: Side, index: &[u8]) -> Result<(Side, u64), Flaw>
    ensures value { result ≡ frame_sent_by from index.now }
    ensures within { IfErr result (λ flaw. flaw.place ≡ 0) }
{
    let index = found_or(LineWhy::BadNumber, frame_index(index))?;
    Ok((from, index))
}

/// A frame's name: its sender and its index.
pub(crate) struct FrameNameWord;

impl<'a> WordKind<'a> for FrameNameWord {
    type Read = (Side, u64);

    ghost reads = { frame_kind.reads };

    fn read(word: &'a [u8]) -> Result<(Side, u64), Flaw> {
        match word {
            [b'c', index @ ..] => sent_by(Side::Client, index),
            [b's', index @ ..] => sent_by(Side::Server, index),
            _ => Err(Flaw {
                place: 0,
                why: LineWhy::UnknownWord,
            }),
        }
    }
}

/// The word `mandatory`.
pub(crate) struct Mandatory;

impl Flag for Mandatory {
    ghost use Rattle.std.specs.Prelude.{codes};

    ghost name = { codes "mandatory" };

    fn is_name(word: &[u8]) -> bool {
        is_text(word, b"mandatory")
    }
}
