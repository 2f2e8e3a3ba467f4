//! Sessions over wires in memory. The tests look at what an owner sees: phases, news, data and the values of features.
//!
//! A story is a function that borrows its pair. A test holds no pair: the proof of a loop that holds one takes many
//! times as long.
use crate::uses::pair::Pair;
use dccp_endpoint::{Feature, Held, NoMemory, Phase, Role, Stand, Timer};
use std::alloc::Global;

#[derive(Clone, Copy)]
enum Story {
    Opening,
    Data,
    Closing(Role),
    Renegotiation,
}

fn stays_open(pair: &mut Pair) -> bool {
    pair.go_on(20) && pair.are(Phase::Open)
}

// Sixty payloads are offered while the turns go by, each of one byte with its number; returns how many went out.
fn sends_sixty(pair: &mut Pair) -> Option<u8> {
    let mut next = 0u8;
    for _ in 0..200 {
        if next < 60 {
            match pair.send(&[next]) {
                Some(true) => next += 1,
                Some(false) => {}
                None => return None,
            }
        }
        if !pair.go_on(1) {
            return None;
        }
    }
    Some(next)
}

fn times_in(got: &[u8], number: u8) -> usize {
    got.iter().filter(|other| **other == number).count()
}

// No payload comes twice, and none that was not sent. Three of four frames get through.
fn are_once(got: &[u8], sent: u8) -> bool {
    for number in got {
        if sent <= *number || times_in(got, *number) != 1 {
            return false;
        }
    }
    5 < got.len()
}

fn delivers_once(pair: &mut Pair) -> bool {
    match sends_sixty(pair) {
        Some(sent) => are_once(&pair.got, sent),
        None => false,
    }
}

// If the Reset that answers the client's Close is lost, the next Close finds no connection: code 3.
fn has_ended(pair: &Pair) -> bool {
    matches!(pair.client_ended, Some(1 | 3)) && matches!(pair.server_ended, Some(1))
}

// TIMEWAIT ends after two lifetimes of a segment.
fn closes(pair: &mut Pair, role: Role) -> bool {
    pair.close(role)
        && pair.go_on(300)
        && has_ended(pair)
        && pair.pass(240_000)
        && pair.are(Phase::Closed)
        && pair.wait_of(role, Timer::TimeWait).is_none()
}

fn is_four(held: Held) -> bool {
    held.value == 4 && held.stand == Stand::Stable
}

// The client asks for an Ack for every fourth data packet.
fn settles(pair: &mut Pair) -> bool {
    pair.prefer(Feature::AckRatio, &[4])
        && pair.go_on(200)
        && is_four(pair.held(Feature::AckRatio))
        && pair.told(Feature::AckRatio).is_some_and(is_four)
}

fn holds(pair: &mut Pair, story: Story) -> bool {
    pair.asks()
        && pair.opens()
        && match story {
            Story::Opening => stays_open(pair),
            Story::Data => delivers_once(pair),
            Story::Closing(role) => closes(pair, role),
            Story::Renegotiation => settles(pair),
        }
}

// Only this function owns a pair.
fn is_true(alloc: Global, seed: u64, story: Story) -> bool {
    match Pair::new(alloc, seed) {
        Ok(mut pair) => holds(&mut pair, story),
        Err(NoMemory) => false,
    }
}

const STORIES: [(&str, Story); 5] = [
    ("both ends open", Story::Opening),
    ("data come once at most", Story::Data),
    ("the client closes", Story::Closing(Role::Client)),
    ("the server closes", Story::Closing(Role::Server)),
    ("a feature is renegotiated", Story::Renegotiation),
];

// The first story that fails over wires with draws from this number.
fn first_amiss(alloc: Global, seed: u64) -> Option<&'static str> {
    for (name, story) in &STORIES {
        if !is_true(alloc, seed, *story) {
            return Some(*name);
        }
    }
    None
}

#[test]
fn stories_over_a_wire_that_loses(rt: HostRuntime) {
    for seed in 0..5 {
        let amiss = first_amiss(rt.alloc(), seed);
        assert!(rt; amiss.is_none(), "seed {seed}: {amiss:?}");
    }
}
