//! One byte of Data Dropped: a block of numbers whose data were not dropped, or were dropped for one reason (RFC 4340,
//! section 11.7).
ghost use Rattle.std.specs.Prelude.{◌≡◌, ◌≤◌};
ghost use Rattle.data_dropped.specs.Drops.{code_in, drop_byte, most_numbers, numbers_in, same_code};

// How many numbers a Normal Block and a Drop Block cover at most.
const MOST_WITHOUT: usize = 128;

const MOST_WITH: usize = 16;

// The upper bit, which a Drop Block has.
const DROP_BLOCK: u8 = 128;

// The place and the width of its Drop Code.
const CODE_UNIT: u8 = 16;

const CODES: u8 = 8;

/// Whether the data of two numbers were dropped for the same reason, or neither were dropped.
pub(crate) fn is_same(one: Option<u8>, other: Option<u8>) -> bool
    ensures { result ≡ same_code one other }
{
    match (one, other) {
        (None, None) => true,
        (Some(one), Some(other)) => one == other,
        _ => false,
    }
}

/// How many numbers a byte covers at most.
pub(crate) fn most_numbers(code: Option<u8>) -> usize
    ensures value { result ≡ most_numbers code }
    ensures some { 1 ≤ result }
    ensures few { result ≤ 128 }
{
    match code {
        None => MOST_WITHOUT,
        Some(_) => MOST_WITH,
    }
}

/// The byte of `count` numbers whose data were dropped for this reason, or were not dropped.
pub(crate) fn drop_byte(code: Option<u8>, count: usize) -> u8
    requires some { 1 ≤ count }
    requires few { count ≤ most_numbers code }
    ensures { result ≡ drop_byte code count }
{
    let more = count - 1;
    match code {
        None => more as u8,
        Some(code) => DROP_BLOCK + CODE_UNIT * (code % CODES) + more as u8,
    }
}

/// The code that a byte gives its numbers.
pub(crate) fn code_in(byte: u8) -> Option<u8>
    ensures { result ≡ code_in byte }
{
    if byte < DROP_BLOCK {
        None
    } else {
        Some(byte / CODE_UNIT % CODES)
    }
}

/// How many numbers a byte covers.
pub(crate) fn numbers_in(byte: u8) -> u64
    ensures { result ≡ numbers_in byte }
{
    if byte < DROP_BLOCK {
        u64::from(byte) + 1
    } else {
        u64::from(byte % CODE_UNIT) + 1
    }
}
