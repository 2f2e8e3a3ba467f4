//! What the definition of a capture's records says about whole inputs.
ghost use Rattle.std.specs.Prelude.{◌≡◌, ◌↔◌, ℕ, List, Option, Some, None};
ghost use Rattle.capture_reader.specs.declared.fault.CaptureFault.{CaptureFault};
ghost use Rattle.capture_reader.specs.declared.fault.CaptureFault.TheVariants.{CutShort, TooLarge};
ghost use Rattle.capture_reader.specs.Records.{RecordParts, captured, missing};
ghost use Rattle.capture_reader.specs.Capture.{IsCapture};

/// Each input has one list of records and one end, which is a fault or none, and these are the ones that are read. The
/// records have a header and its captured bytes, and follow each other, within the limits, until the input ends or the
/// first fault comes.
pub fn a_capture_has_one_list_of_records()
    ensures { (bytes : List ℕ) (records : List RecordParts) (end : Option CaptureFault)
        → IsCapture bytes records end ↔ (captured bytes ≡ record { records = records; end = end }) }
{}

/// A needed byte that is not there is reported before one that is beyond the limit (own), shown by values. The first of
/// three numbers is how many bytes are needed, the second how many are within the limit, and the third how many are
/// there.
pub fn cut_short_comes_before_too_large()
    ensures whole { missing 16 4294967272 16 ≡ None }
    ensures cut { missing 16 4294967272 15 ≡ Some CutShort }
    ensures all_count { missing 16 16 16 ≡ None }
    ensures both { missing 16 15 14 ≡ Some CutShort }
    ensures one_more { missing 16 15 15 ≡ Some TooLarge }
    ensures far { missing 16 15 400 ≡ Some TooLarge }
    ensures none_counts { missing 16 0 1 ≡ Some TooLarge }
    ensures nothing { missing 0 0 0 ≡ None }
    ensures body { missing 100 4 4 ≡ Some TooLarge }
    ensures short_body { missing 100 4 3 ≡ Some CutShort }
{}
