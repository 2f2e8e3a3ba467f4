//! The value of a feature that is not negotiated, as bytes.
ghost use Rattle.std.specs.Prelude.{◌≡◌, ◌<◌, ◌≤◌, ◌^◌, ◌++◌};
ghost use Rattle.arrayvec.specs.ArrayVec.{array_vec_len};
ghost use Rattle.byteorder.specs.Endian.{big_bytes};
ghost use Rattle.feature_lists.specs.Features.{IsNonNegotiable, described};

use arrayvec::ArrayVec;
use byteorder::{BigEndian, ByteOrder};
use feature_lists::Feature;

/// Writes a value of a non-negotiable feature in as many bytes as the feature has, after what is there: at most one
/// byte (RFC 4340, sections 6.3.2, 7.5.2 and 11.3).
pub fn put_value(body: &mut ArrayVec<u8, 9>, feature: Feature, value: u64)
    requires negotiable { IsNonNegotiable feature }
    requires fits { value < 256 ^ (described feature).width }
    requires room { array_vec_len body.old ≤ 1 }
    ensures { body.new.items ≡ body.old.items ++ big_bytes (described feature).width value }
{
    match feature {
        Feature::SequenceWindow => {
            let mut six = [0; 6];
            BigEndian::write_u48(&mut six, value);
            let _ = body.try_extend_from_slice(&six);
        }
        Feature::AckRatio => {
            let mut two = [0; 2];
            BigEndian::write_u16(&mut two, value as u16);
            let _ = body.try_extend_from_slice(&two);
        }
        Feature::Ccid
        | Feature::ShortSeqnos
        | Feature::EcnIncapable
        | Feature::SendAckVector
        | Feature::SendNdpCount
        | Feature::MinCsCov
        | Feature::CheckDataChecksum => unreachable!(),
    }
}
