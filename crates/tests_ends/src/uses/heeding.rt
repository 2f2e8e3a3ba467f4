//! A sender that heeds what its peer's receive buffer reports, in counted time. A turn of 50 milliseconds is a round trip.
//! The peer holds eight packets; its owner reads none, or two a turn, or listens no more.
use crate::fresh::{boxed, buffered_end};
use crate::uses::wire::Wire;
use ccid_two::Kinds;
use data_dropped::BufferedEnd;
use dccp_endpoint::{Config, DecodedDatagram, NoMemory, Outbox, Phase, Role, Timer};
use dccp_uses::{Network, Pace, Restraint, SendRefusal, TimedEnd};
use std::alloc::Global;

// How many milliseconds a turn takes.
const TURN: u64 = 50;

// How many packets the peer's inbox holds.
const CAPACITY: u16 = 8;

// The sender, its peer, a wire to each, and how many packets the peer's owner has read.
#[derive(Drop)]
struct Pair {
    now: u64,
    sender: Box<TimedEnd<Kinds>>,
    reader: Box<BufferedEnd<Kinds>>,
    to_sender: Wire,
    to_reader: Wire,
    read: u32,
}

// The frame that a step has left goes onto its wire.
fn post(out: &Outbox, wire: &mut Wire) {
    if let Some(frame) = out.frame() {
        wire.send(frame.bytes());
    }
}

fn sender(alloc: Global) -> Result<Box<TimedEnd<Kinds>>, NoMemory> {
    let congestion = Kinds::new(alloc)?;
    let config = Config::usual(Role::Client);
    boxed(
        alloc,
        TimedEnd::new(alloc, config, congestion, Pace::usual())?,
    )
}

impl Pair {
    fn new(alloc: Global) -> Result<Pair, NoMemory> {
        let sender = sender(alloc)?;
        let reader = buffered_end(alloc, Config::usual(Role::Server), CAPACITY)?;
        Ok(Pair {
            now: 5_000,
            sender,
            reader,
            to_sender: Wire::whole(alloc),
            to_reader: Wire::whole(alloc),
            read: 0,
        })
    }

    // The next frame of the reader arrives, if there is one.
    fn hear_reader(&mut self) {
        let mut out = Outbox::new();
        if let Some(datagram) = self.to_sender.take()
            && datagram.len() <= 2_044
        {
            let decoded = DecodedDatagram::new(&datagram);
            let _ = self.sender.receive(&decoded, self.now, &mut out);
            post(&out, &mut self.to_reader);
        }
    }

    fn hear_sender(&mut self) {
        let mut out = Outbox::new();
        if let Some(datagram) = self.to_reader.take()
            && datagram.len() <= 2_044
        {
            let _ = self.reader.receive(&datagram, &mut out);
            post(&out, &mut self.to_sender);
        }
    }

    fn tick(&mut self) {
        let mut out = Outbox::new();
        for _ in 0..7 {
            if let Some(due) = self.sender.due(self.now) {
                let _ = self.sender.tell(due, self.now, &mut out);
                post(&out, &mut self.to_reader);
            }
        }
    }

    // The reader's timer Ack, which it has told each turn.
    fn acknowledge(&mut self) {
        let mut out = Outbox::new();
        let _ = self.reader.timer(Timer::Ack, &mut out);
        post(&out, &mut self.to_sender);
    }

    // A turn goes by: what was on its way arrives, and both are told what is due.
    fn turn(&mut self) {
        self.now = self.now.saturating_add(TURN);
        for _ in 0..80 {
            self.hear_sender();
        }
        for _ in 0..80 {
            self.hear_reader();
        }
        self.acknowledge();
        self.tick();
    }

    // The sender opens the connection, and asks for its peer's Ack Vectors.
    fn open(&mut self) -> bool {
        let mut out = Outbox::new();
        let opened = self.sender.open(self.now, &mut out).is_ok();
        post(&out, &mut self.to_reader);
        for _ in 0..8 {
            self.turn();
        }
        opened && self.sender.end().phase() == Phase::Open
    }

    fn send(&mut self) -> Result<(), SendRefusal> {
        let mut out = Outbox::new();
        let answer = self.sender.send(&[7], self.now, &mut out);
        post(&out, &mut self.to_reader);
        answer
    }

    // Turns go by in each of which the sender offers up to 64 packets, and its peer's owner reads so many.
    fn stream(&mut self, turns: u32, reads: u32) {
        let mut into = [0; 1_024];
        for _ in 0..turns {
            for _ in 0..64 {
                if self.send().is_err() {
                    break;
                }
            }
            self.turn();
            for _ in 0..reads {
                if self.reader.take(&mut into).is_some() {
                    self.read = self.read.saturating_add(1);
                }
            }
        }
    }

    fn most(&self) -> Option<u32> {
        match self.sender.path().reader.allowance {
            Some(allowance) => Some(allowance.most),
            None => None,
        }
    }
}

// Nobody reads: eight packets are held, and each further one is dropped and narrows the window, down to one packet.
fn narrows(pair: &mut Pair) -> bool {
    pair.stream(40, 0);
    matches!(pair.most(), Some(1))
}

// The owner reads two packets a turn: nearly each turn brings them, and the window is two packets wide, or a few.
fn follows(pair: &mut Pair) -> bool {
    let before = pair.read;
    pair.stream(400, 2);
    let read = pair.read.saturating_sub(before);
    700 <= read && pair.most().is_some_and(|most| (2..=8).contains(&most))
}

// The owner listens no more: the next packet that it drops is the last that goes out.
fn ends(pair: &mut Pair) -> bool {
    pair.reader.stop();
    pair.stream(40, 0);
    matches!(pair.send(), Err(SendRefusal::Held(Restraint::NotListening)))
}

// The first of these that does not hold.
fn first_amiss(pair: &mut Pair) -> Option<&'static str> {
    if !pair.open() {
        return Some("it opens");
    }
    if !narrows(pair) {
        return Some("its window narrows");
    }
    if !follows(pair) {
        return Some("its window follows");
    }
    if !ends(pair) {
        return Some("it ends");
    }
    None
}

fn amiss(alloc: Global) -> Option<&'static str> {
    match Pair::new(alloc) {
        Ok(mut pair) => first_amiss(&mut pair),
        Err(NoMemory) => Some("memory"),
    }
}

#[test]
fn a_sender_heeds_its_reader(rt: HostRuntime) {
    let amiss = amiss(rt.alloc());
    assert!(rt; amiss.is_none(), "{amiss:?}");
}
