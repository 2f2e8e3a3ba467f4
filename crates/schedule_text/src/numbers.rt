//! Numbers as a line has them.
ghost use Rattle.std.specs.Prelude.{◌≡◌, ◌<◌, IfSome};
ghost use Rattle.schedule_text.specs.Numbers.{sequence_numbers, indices, values_of, feature_of, schedule_version};
ghost use Rattle.tool_text.specs.Numbers.{number_below};

use crate::Values;
use feature_lists::Feature;
use seq_circle::Seq48;
use tool_text::{first_piece, number_up_to};

/// Sequence numbers and values are below this (RFC 4340, section 3.1).
const SEQUENCE_NUMBERS: u64 = 1 << 48;

/// A side's frames are numbered below this (own).
const INDICES: u64 = 1 << 47;

/// Features are numbered below this (RFC 4340, section 6.4, without the CCID's own).
const FEATURES: u64 = 10;

/// Versions of schedules are numbered from 1 and below this (own).
const VERSIONS: u64 = 3;

// A decimal number below the limit, without sign or leading zero.
fn number_below(limit: u64, word: &[u8]) -> Option<u64>
    requires some { 0 < limit }
    ensures value { result ≡ number_below limit word.now }
    ensures below { IfSome result (λ number. number < limit) }
{
    number_up_to(limit - 1, word)
}

/// A sequence number.
pub(crate) fn sequence_number_of(word: &[u8]) -> Option<Seq48>
    ensures { result ≡ number_below sequence_numbers word.now }
{
    let number = number_below(SEQUENCE_NUMBERS, word)?;
    Seq48::new(number)
}

/// A frame's index.
pub(crate) fn frame_index(word: &[u8]) -> Option<u64>
    ensures { result ≡ number_below indices word.now }
{
    number_below(INDICES, word)
}

/// The feature of this number.
pub(crate) fn feature_of(word: &[u8]) -> Option<Feature>
    ensures { result ≡ feature_of word.now }
{
    let number = number_below(FEATURES, word)?;
    Feature::of(number as u8)
}

/// The version of this number: 1 or 2.
pub(crate) fn schedule_version(word: &[u8]) -> Option<u8>
    ensures { result ≡ schedule_version word.now }
{
    let number = number_below(VERSIONS, word)?;
    if number == 0 {
        return None;
    }
    Some(number as u8)
}

/// One to nine numbers, separated by commas.
pub(crate) fn values_of(word: &[u8]) -> Option<Values>
    ensures { result ≡ values_of word.now }
{
    let mut values = Values::new();
    let mut rest = Some(word);
    while let Some(text) = rest {
        let (piece, after) = first_piece(b',', text);
        let number = number_below(SEQUENCE_NUMBERS, piece)?;
        if !values.push(number) {
            return None;
        }
        rest = after;
    }
    Some(values)
}
