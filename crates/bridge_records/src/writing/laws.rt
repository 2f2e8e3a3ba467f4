//! What is written is read again.
ghost use Rattle.std.specs.Prelude.{◌≡◌, ◌≤◌, ◌^◌, List, Bool, All, length, None};
ghost use Rattle.capture_reader.specs.Records.{captured};
ghost use Rattle.bridge_records.specs.Writing.{FitsHeader, RawRecord, capture_of, raw_entries};

/// In what is written of records, a reader of captures finds these records, in their order, whole and with their times,
/// and nothing else, if none has more than 262,144 bytes (the savefile format of libpcap).
pub fn what_is_written_is_read()
    ensures { (nanos : Bool) (records : List RawRecord) → All FitsHeader records
        → length (capture_of nanos records) ≤ 2 ^ 32
        → captured (capture_of nanos records) ≡ record { records = raw_entries nanos 0 records; end = None } }
{}
