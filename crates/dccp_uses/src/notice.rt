//! What a packet says about the application that reads an end's data.
ghost use Rattle.std.specs.Prelude.{◌≡◌, ◌<◌, ◌≤◌, [], false};
ghost use Rattle.std.specs.List.{list_any};
ghost use Rattle.congestion_trait.specs.Flight.{is_past};
ghost use Rattle.data_dropped.specs.Reports.{drop_options};
ghost use Rattle.dccp_uses.specs.Notice.{drops_told, is_as_marked, is_code, is_slow_option, new_reach, no_drops, no_notice, notice_of, drops_with_code};

use crate::Reader;
use data_dropped::{DROP_BUFFER_FULL, DROP_NOT_LISTENING, DropReport};
use dccp_endpoint::Seq48;
use dccp_options::OptList;
use dccp_options::kinds::{DATA_DROPPED, SLOW_RECEIVER};

/// For how many numbers a first report of drops is read, from its acknowledgement number down (own).
const MOST_NUMBERS: u64 = 2048;

// Further Drop Codes (RFC 4340, section 11.7): the protocol allowed no data there; and the first of those that count as
// ECN marks.
const PROTOCOL: u8 = 0;

const CORRUPT: u8 = 3;

/// What a report of drops is the first to name (RFC 4340, sections 11.7 and 11.7.2).
#[derive(Clone, Copy, PartialEq, Eq)]
pub struct Drops {
    /// How many packets the receive buffer had no room for: Drop Code 2.
    pub full: u32,
    /// Data were dropped because of the protocol: Drop Code 0.
    pub refused: bool,
    /// No application listens any more: Drop Code 1.
    pub stopped: bool,
    /// A packet past the recovery mark was dropped for a reason that counts as an ECN mark: Drop Codes 3 to 7.
    pub marked: bool,
}

/// What a packet says about the application that reads an end's data.
#[derive(Clone, Copy, PartialEq, Eq)]
pub struct Notice {
    /// It is slow (RFC 4340, section 11.6).
    pub slow: bool,
    /// What its report of drops is the first to name.
    pub drops: Drops,
    /// The number from which that report goes down, if the packet has one.
    pub ack: Option<Seq48>,
}

impl Notice {
    /// A notice that says nothing.
    pub fn none() -> Notice
        ensures { result ≡ no_notice }
    {
        Notice {
            slow: false,
            drops: Drops::none(),
            ack: None,
        }
    }
}

impl Drops {
    fn none() -> Drops
        ensures { result ≡ no_drops }
    {
        Drops {
            full: 0,
            refused: false,
            stopped: false,
            marked: false,
        }
    }
}

fn is_code(code: u8, found: Option<u8>) -> bool
    ensures { result ≡ is_code code found }
{
    match found {
        Some(found) => found == code,
        None => false,
    }
}

fn is_as_marked(found: Option<u8>) -> bool
    ensures { result ≡ is_as_marked found }
{
    match found {
        Some(found) => CORRUPT <= found,
        None => false,
    }
}

fn is_past(mark: Option<Seq48>, number: Seq48) -> bool
    ensures { result ≡ is_past mark number }
{
    match mark {
        Some(mark) => mark.before(number),
        None => true,
    }
}

/// How many numbers, from an acknowledgement number down, no report of drops has reached before, if `counted` is the
/// last that one has reached: at most 2,048 (own).
pub fn new_reach(counted: Option<Seq48>, ack: Seq48) -> u64
    ensures value { result ≡ new_reach counted ack }
    ensures few { result ≤ 2048 }
{
    match counted {
        None => MOST_NUMBERS,
        Some(counted) if counted.before(ack) => counted.distance(ack).min(MOST_NUMBERS),
        Some(_) => 0,
    }
}

impl Drops {
    // The drops with the code of one more number, which is past the recovery mark or not.
    fn with_code(&self, past: bool, code: Option<u8>) -> Drops
        requires { self.now.full < 2048 }
        ensures { result ≡ drops_with_code self.now past code }
    {
        Drops {
            full: self.full + u32::from(is_code(DROP_BUFFER_FULL, code)),
            refused: self.refused || is_code(PROTOCOL, code),
            stopped: self.stopped || is_code(DROP_NOT_LISTENING, code),
            marked: self.marked || past && is_as_marked(code),
        }
    }
}

// The result of the codes of the numbers that no report has reached before.
fn drops_told(reader: &Reader, ack: Seq48, report: &DropReport<'_>) -> Drops
    requires { report.now.ack ≡ ack }
    ensures { result ≡ drops_told reader.now report.now }
{
    let mut drops = Drops::none();
    let mut number = ack;
    let mut left = new_reach(reader.counted, ack);
    while 0 < left {
        drops = drops.with_code(is_past(reader.mark, number), report.code(number));
        number = number.sub(1);
        left -= 1;
    }
    drops
}

// Whether a Slow Receiver is among these options.
fn is_slow(options: &mut OptList<'_>) -> bool
    ensures { result ≡ list_any is_slow_option options.old }
{
    while let Some(item) = options.next() {
        match item {
            Ok(option) if option.kind == SLOW_RECEIVER => return true,
            _ => {}
        }
    }
    false
}

// Whether these options say anything, which few packets do: whether one is a Slow Receiver or a Data Dropped.
fn say_anything(options: &mut OptList<'_>) -> bool
    ensures slow { result ≡ false → list_any is_slow_option options.old ≡ false }
    ensures drops { result ≡ false → drop_options options.old ≡ [] }
{
    while let Some(item) = options.next() {
        match item {
            Ok(option) if option.kind == SLOW_RECEIVER || option.kind == DATA_DROPPED =>
                return true,
            _ => {}
        }
    }
    false
}

/// What these options say, if they report from this number downwards.
pub(crate) fn notice_of(reader: &Reader, base: Option<Seq48>, options: OptList<'_>) -> Notice
    ensures { result ≡ notice_of reader.now base options.entry }
{
    if !say_anything(&mut options.again()) {
        return Notice::none();
    }
    let slow = is_slow(&mut options.again());
    let Some(ack) = base else {
        return Notice {
            slow,
            drops: Drops::none(),
            ack: None,
        };
    };
    match DropReport::of(ack, options) {
        Some(report) => Notice {
            slow,
            drops: drops_told(reader, ack, &report),
            ack: Some(ack),
        },
        None => Notice {
            slow,
            drops: Drops::none(),
            ack: None,
        },
    }
}
