//! What the Data Dropped options of a packet report.
ghost use Rattle.std.specs.Prelude.{◌≡◌, ◌+◌, ◌↔◌, [], ◌∷◌, IsNone, MatchOption, MatchResult, Some, length, slice_get};
ghost use Rattle.ack_vectors.specs.Coding.{states_of};
ghost use Rattle.data_dropped.specs.Drops.{code_at, drop_coding};
ghost use Rattle.data_dropped.specs.Reports.{drop_options, drop_report};

use crate::blocks::{code_in, numbers_in};
use dccp_options::OptList;
use dccp_options::kinds::DATA_DROPPED;
use seq_circle::Seq48;
use std::marker::Model;

/// What a packet's Data Dropped options say of the numbers from its acknowledgement number downwards; several options
/// continue each other (RFC 4340, section 11.7). Contracts see the acknowledgement number and the options' bytes.
#[derive(Drop)]
pub struct DropReport<'a> {
    ack: Seq48,
    options: OptList<'a>,
}

impl<'a> Model for DropReport<'a> {
    ghost use Rattle.dccp_options.specs.Vectors.{VectorReport};
    ghost use Rattle.data_dropped.specs.Reports.{drop_data};

    ghost Value = { VectorReport };

    ghost view = { λ report. record { ack = report.ack; bytes = drop_data report.options } };
}

// The data of the first Data Dropped option among these; the options then go on after it.
fn next_drops<'a>(options: &mut OptList<'a>) -> Option<&'a [u8]>
    ensures { MatchOption result
        ((drop_options options.old ≡ []) × (drop_options options.new ≡ []))
        (λ body. drop_options options.old ≡ body.now ∷ drop_options options.new) }
{
    while let Some(item) = options.next() {
        match item {
            Ok(option) if option.kind == DATA_DROPPED => return Some(option.body),
            _ => {}
        }
    }
    None
}

// The code of the number that is `below` steps below the first that these bytes cover; or how far it is below the last
// that they cover.
fn code_below(bytes: &[u8], below: u64) -> Result<Option<u8>, u64>
    ensures { MatchResult result
        (λ code. slice_get (states_of drop_coding bytes.now) below ≡ Some code)
        (λ left. length (states_of drop_coding bytes.now) + left ≡ below) }
{
    let mut left = below;
    for byte in bytes {
        let count = numbers_in(*byte);
        if left < count {
            return Ok(code_in(*byte));
        }
        left -= count;
    }
    Err(left)
}

impl<'a> DropReport<'a> {
    /// What the Data Dropped options among the options of a packet report, if `ack` is its acknowledgement number. None
    /// exactly if there is no Data Dropped option.
    pub fn of(ack: Seq48, options: OptList<'a>) -> Option<DropReport<'a>>
        ensures none { IsNone result ↔ (drop_options options.entry ≡ []) }
        ensures value { result ≡ drop_report ack options.entry }
    {
        let mut others = options.again();
        let _first = next_drops(&mut others)?;
        Some(DropReport { ack, options })
    }

    /// The Drop Code of the number, 0 to 7, or None if its data were not dropped or the options do not reach it.
    pub fn code(&self, n: Seq48) -> Option<u8>
        ensures { result ≡ code_at self.now.ack self.now.bytes n }
    {
        let mut options = self.options.again();
        let mut below = n.distance(self.ack);
        while let Some(body) = next_drops(&mut options) {
            match code_below(body, below) {
                Ok(code) => return code,
                Err(left) => below = left,
            }
        }
        None
    }
}
