//! Sessions over a network that loses a number of frames in a row in each direction, and then none: when each goal is
//! reached, in milliseconds.
//!
//! The times are worked out by hand from the waits under `Pace::classic()`, each of which is twice the one before:
//! 1,000 for a Request, a Change and a report, 200 for an Ack, 400 for a Close. A turn takes 50. What arrives at the
//! server in a turn and is answered arrives at the client in the same turn. Both are OPEN two turns after a Request
//! that arrives and whose Response arrives; the client's timers ack and negotiate run from the first of these turns,
//! the server's from the second.
use crate::uses::pair::Pair;
use dccp_endpoint::{Feature, Held, NoMemory, Phase, Role, Stand};
use std::alloc::Global;

#[derive(Clone, Copy)]
enum Goal {
    Opened,
    Settled,
    Delivered,
    Closed(Role),
}

// Opened: with k lost, the first Request that arrives is the k+1st, and then as many Responses are lost. So the 2k+1st
// Request opens, after waits of 1,000, 2,000 and so on, up to 64,000.
//
// Settled: the Change goes out at once, and again 1,000, 2,000 and 4,000 later, since `prefer` begins the timer negotiate
// anew. Acks of the timers are lost, too. With 1 and 2 lost the second Change and its Confirm arrive. With 5 lost the
// third arrives, but its Confirm is the server's fifth frame; so the fourth settles.
//
// Delivered: a packet goes out each turn. With 5 lost four packets fill the window, and the fifth frame is an Ack. After
// 1,000 the timer rto empties it, and the next packet arrives.
//
// Closed: the k+1st Close arrives, after 400, 800 and so on. By then k Acks of the other end's timer are lost, so its
// answer arrives. A server's CloseReq is answered by a Close, which takes a turn more.
//
// Each row is a goal, how many frames are lost in a row in each direction, and when the goal is reached.
const STORIES: [(Goal, usize, u64); 15] = [
    (Goal::Opened, 1, 3_100),
    (Goal::Opened, 2, 15_100),
    (Goal::Opened, 5, 319_100),
    (Goal::Settled, 1, 1_050),
    (Goal::Settled, 2, 1_050),
    (Goal::Settled, 5, 7_050),
    (Goal::Delivered, 1, 100),
    (Goal::Delivered, 2, 150),
    (Goal::Delivered, 5, 1_050),
    (Goal::Closed(Role::Client), 1, 450),
    (Goal::Closed(Role::Client), 2, 1_250),
    (Goal::Closed(Role::Client), 5, 12_450),
    (Goal::Closed(Role::Server), 1, 500),
    (Goal::Closed(Role::Server), 2, 1_300),
    (Goal::Closed(Role::Server), 5, 12_500),
];

fn is_four(held: Held) -> bool {
    held.value == 4 && held.stand == Stand::Stable
}

fn is_settled(pair: &Pair) -> bool {
    is_four(pair.held(Feature::AckRatio)) && pair.told(Feature::AckRatio).is_some_and(is_four)
}

fn is_reached(pair: &Pair, goal: Goal) -> bool {
    match goal {
        Goal::Opened => pair.are(Phase::Open),
        Goal::Settled => is_settled(pair),
        Goal::Delivered => !pair.got.is_empty(),
        Goal::Closed(_) => pair.is_over(),
    }
}

// What an owner first does for its goal, over wires that lose frames from then on.
fn begins(pair: &mut Pair, goal: Goal, lost: usize) -> bool {
    match goal {
        Goal::Opened => {
            pair.lose(lost);
            pair.asks()
        }
        Goal::Settled => {
            let opened = pair.asks() && pair.opens();
            pair.lose(lost);
            opened && pair.prefer(Feature::AckRatio, &[4])
        }
        Goal::Delivered => {
            let opened = pair.asks() && pair.opens();
            pair.lose(lost);
            opened
        }
        Goal::Closed(role) => {
            let opened = pair.asks() && pair.opens();
            pair.lose(lost);
            opened && pair.close(role)
        }
    }
}

// A turn. Before it, data are offered if they are the goal.
fn goes_on(pair: &mut Pair, goal: Goal) -> bool {
    match goal {
        Goal::Delivered => pair.send(&[7]).is_some() && pair.turn(),
        Goal::Opened | Goal::Settled | Goal::Closed(_) => pair.turn(),
    }
}

// How long the goal takes from the beginning on.
fn time_of(pair: &mut Pair, goal: Goal, lost: usize) -> Option<u64> {
    let start = pair.now();
    if !begins(pair, goal, lost) {
        return None;
    }
    let start = match goal {
        Goal::Opened => start,
        Goal::Settled | Goal::Delivered | Goal::Closed(_) => pair.now(),
    };
    for _ in 0..8_000 {
        if is_reached(pair, goal) {
            return Some(pair.now().saturating_sub(start));
        }
        if !goes_on(pair, goal) {
            return None;
        }
    }
    None
}

// Only this function owns a pair.
fn measured(alloc: Global, goal: Goal, lost: usize) -> Option<u64> {
    match Pair::whole(alloc) {
        Ok(mut pair) => time_of(&mut pair, goal, lost),
        Err(NoMemory) => None,
    }
}

#[test]
fn goals_are_reached_in_counted_time(rt: HostRuntime) {
    for (place, (goal, lost, time)) in STORIES.iter().enumerate() {
        let reached = measured(rt.alloc(), *goal, *lost);
        assert!(rt; reached == Some(*time), "story {place}: {reached:?}");
    }
}
