//! The event that two words of the generator give.
ghost use Rattle.std.specs.Prelude.{◌≡◌, ◌<◌, ◌≤◌, length};
ghost use Rattle.world_events.specs.declared.event.Event.{Event};
ghost use Rattle.fault_campaign.specs.Draws.{after_two, after_one, drawn, drawn_delivery, drawn_index, drawn_timer, ending, generator, initial_number, preference, sending, word};

use dccp_endpoint::Timer;
use feature_lists::{Feature, Place};
use rand_core::SeedableRng;
use rand_core::utils::NextWord;
use rand_pcg::Pcg32;
use seq_circle::Seq48;
use two_ends::{Event, Side, Values};

/// The generator of a seed.
#[tactic(auto, unfolding(crate::specs::Draws::generator))]
pub(crate) fn generator(seed: u64) -> Pcg32
    ensures { result ≡ generator seed }
{
    Pcg32::seed_from_u64(seed)
}

/// Its next word.
#[tactic(auto, unfolding(crate::specs::Draws::word, crate::specs::Draws::after_one))]
pub(crate) fn next_word(words: &mut Pcg32) -> u32
    ensures value { result ≡ word words.old }
    ensures rest { words.new ≡ after_one words.old }
{
    words.next_word()
}

/// An initial sequence number, from the next two words.
pub(crate) fn initial_number(words: &mut Pcg32) -> Seq48
    ensures value { result ≡ initial_number words.old }
    ensures rest { words.new ≡ after_two words.old }
{
    let high = u64::from(next_word(words));
    let low = u64::from(next_word(words));
    match Seq48::new(high % 65536 * 4_294_967_296 + low) {
        Some(number) => number,
        None => unreachable!(),
    }
}

/// Which of `frames` frames arrives: sometimes any, mostly one of the last eight.
pub(crate) fn drawn_index(b: u64, frames: u64) -> u64
    requires { 0 < frames }
    ensures { result ≡ drawn_index b frames }
{
    if b / 256 % 16 == 0 {
        b / 4096 % frames
    } else {
        frames - 1 - b % frames.min(8)
    }
}

// A frame of this side arrives; if there is none, the client's timer runs out.
fn delivery(from: Side, frames: u64, b: u32) -> Event
    ensures { result ≡ drawn_delivery from frames b }
{
    if frames == 0 {
        return Event::Timer {
            side: Side::Client,
            timer: Timer::Request,
        };
    }
    Event::Deliver {
        from,
        index: drawn_index(u64::from(b), frames),
    }
}

/// Turns the event into the sending of the bytes of a word by a side.
pub(crate) fn become_sending(event: &mut Event, side: Side, b: u32)
    ensures { event.new ≡ sending side b }
{
    event.become_sending(side, &b.to_be_bytes());
}

fn sending(side: Side, b: u32) -> Event
    ensures { result ≡ sending side b }
{
    let mut event = Event::Open;
    become_sending(&mut event, side, b);
    event
}

/// Turns the event into a preference of a side, by a number below 8. The value of a non-negotiable feature is drawn
/// from the rest of the word.
pub(crate) fn become_preference(event: &mut Event, side: Side, which: u32, rest: u32)
    ensures { event.new ≡ preference side which rest }
{
    match which {
        0 => prefer(event, side, Feature::Ccid, Place::Here, &[2, 248]),
        1 => prefer(event, side, Feature::Ccid, Place::Here, &[248, 2]),
        2 => prefer(event, side, Feature::Ccid, Place::There, &[248]),
        3 => prefer(event, side, Feature::MinCsCov, Place::Here, &[1, 2, 3]),
        4 => prefer(event, side, Feature::MinCsCov, Place::There, &[3, 1]),
        5 => prefer(event, side, Feature::MinCsCov, Place::There, &[2]),
        6 => {
            let window = 100 + u64::from(rest % 1000);
            prefer(event, side, Feature::SequenceWindow, Place::Here, &[window]);
        }
        _ => {
            let ratio = 1 + u64::from(rest % 4);
            prefer(event, side, Feature::AckRatio, Place::Here, &[ratio]);
        }
    }
}

fn prefer(event: &mut Event, side: Side, feature: Feature, place: Place, numbers: &[u64])
    requires { length numbers.now ≤ 9 }
    ensures { event.new ≡ Event.Prefer side feature place numbers.now }
{
    let mut values = Values::new();
    for number in numbers {
        let _ = values.push(*number);
    }
    event.become_wish(side, feature, place, values);
}

fn preference(side: Side, which: u32, rest: u32) -> Event
    ensures { result ≡ preference side which rest }
{
    let mut event = Event::Open;
    become_preference(&mut event, side, which, rest);
    event
}

/// A timer, by a number below 6.
pub(crate) fn drawn_timer(which: u32) -> Timer
    ensures { result ≡ drawn_timer which }
{
    match which {
        0 => Timer::Request,
        1 => Timer::Ack,
        2 => Timer::Negotiate,
        3 => Timer::Rto,
        4 => Timer::Close,
        _ => Timer::TimeWait,
    }
}

/// A rare event that ends the connection, or another, by a number below 512.
pub(crate) fn ending(which: u32) -> Event
    ensures { result ≡ ending which }
{
    match which {
        0 => Event::Close { side: Side::Client },
        1 => Event::Close { side: Side::Server },
        2 => Event::Abort { side: Side::Client },
        3 => Event::Abort { side: Side::Server },
        _ => Event::Timer {
            side: Side::Client,
            timer: Timer::Negotiate,
        },
    }
}

/// The event of two words, if the client and the server have sent these numbers of frames. `EventKit::drawn`
/// follows the same definition, and does not call this, since an event would move there with its room for data.
#[tactic(auto, unfolding(crate::specs::Draws::drawn))]
pub(crate) fn drawn(a: u32, b: u32, clients: u64, servers: u64) -> Event
    ensures { result ≡ drawn a b clients servers }
{
    match a % 32 {
        0..=11 => delivery(Side::Client, clients, b),
        12..=23 => delivery(Side::Server, servers, b),
        24 => sending(Side::Client, b),
        25 => sending(Side::Server, b),
        26 => preference(Side::Client, b % 8, b / 8),
        27 => preference(Side::Server, b % 8, b / 8),
        28 => Event::Timer {
            side: Side::Client,
            timer: drawn_timer(b % 6),
        },
        29 => Event::Timer {
            side: Side::Server,
            timer: drawn_timer(b % 6),
        },
        30 => ending(b % 512),
        _ => Event::Timer {
            side: Side::Server,
            timer: Timer::Negotiate,
        },
    }
}

/// The initial sequence numbers that a seed draws, the client's first (own).
pub fn initial_numbers(seed: u64) -> (Seq48, Seq48)
    ensures client { result.0 ≡ initial_number (generator seed) }
    ensures server { result.1 ≡ initial_number (after_two (generator seed)) }
{
    let mut words = generator(seed);
    let client = initial_number(&mut words);
    (client, initial_number(&mut words))
}
