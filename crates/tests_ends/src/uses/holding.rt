//! Sessions, one of which holds what arrives in an inbox, in counted time. A turn of 50 milliseconds is a round trip.
//! The inbox has room for eight packets; its owner reads none, or two a turn, or no longer listens, and closes at the
//! end.
use crate::fresh::{boxed, session};
use crate::uses::wire::Wire;
use ccid_two::Kinds;
use data_dropped::Intake;
use dccp_endpoint::{Config, NoMemory, Phase, Role};
use dccp_uses::{News, Pace, Restraint, SendRefusal, Session};
use std::alloc::Global;

// How many milliseconds a turn takes.
const TURN: u64 = 50;

// How many packets the inbox holds.
const CAPACITY: u16 = 8;

// What the reader's owner was told: how many packets wait or waited, how many were dropped and the code of the last
// drop, how many came in another way, and the code with which the connection has ended.
#[derive(Clone, Copy)]
struct ReaderNews {
    waited: u32,
    dropped: u32,
    code: u8,
    others: u32,
    ended: Option<u8>,
}

// Two sessions, a wire to each, and what the reader's owner was told and has read.
#[derive(Drop)]
struct Pair {
    now: u64,
    sender: Box<Session<Kinds>>,
    reader: Box<Session<Kinds>>,
    to_sender: Wire,
    to_reader: Wire,
    told: ReaderNews,
    sent: u8,
    read: u32,
}

fn told_of(told: &ReaderNews, news: News) -> ReaderNews {
    let mut told = *told;
    match news {
        News::Waits => told.waited = told.waited.saturating_add(1),
        News::Dropped { code } => {
            told.dropped = told.dropped.saturating_add(1);
            told.code = code;
        }
        News::Data { .. } | News::TooLong => told.others = told.others.saturating_add(1),
        News::Ended { code } => told.ended = Some(code),
        News::Quiet => {}
    }
    told
}

// A server's session with an inbox.
fn reader(alloc: Global) -> Result<Box<Session<Kinds>>, NoMemory> {
    let intake = Intake::new(alloc, CAPACITY)?;
    let congestion = Kinds::new(alloc)?;
    let config = Config::usual(Role::Server);
    let session = Session::new(alloc, config, congestion, Pace::usual())?;
    boxed(alloc, session.holding(intake))
}

impl Pair {
    fn new(alloc: Global) -> Result<Pair, NoMemory> {
        let reader = reader(alloc)?;
        let sender = session(alloc, Config::usual(Role::Client), Pace::usual())?;
        Ok(Pair {
            now: 5_000,
            sender,
            reader,
            to_sender: Wire::whole(alloc),
            to_reader: Wire::whole(alloc),
            told: ReaderNews {
                waited: 0,
                dropped: 0,
                code: 0,
                others: 0,
                ended: None,
            },
            sent: 0,
            read: 0,
        })
    }

    // The next frame of the sender arrives, if there is one.
    fn hear_sender(&mut self) {
        if let Some(datagram) = self.to_reader.take() {
            let news = self
                .reader
                .arrived(&datagram, self.now, &mut self.to_sender);
            self.told = told_of(&self.told, news);
        }
    }

    fn hear_reader(&mut self) {
        if let Some(datagram) = self.to_sender.take() {
            let _ = self
                .sender
                .arrived(&datagram, self.now, &mut self.to_reader);
        }
    }

    fn tick(&mut self) {
        self.reader.tick(self.now, &mut self.to_sender);
        self.sender.tick(self.now, &mut self.to_reader);
    }

    // A turn goes by: what is on its way arrives, and both sides are given what is due.
    fn turn(&mut self) {
        self.now = self.now.saturating_add(TURN);
        for _ in 0..80 {
            self.hear_sender();
        }
        for _ in 0..80 {
            self.hear_reader();
        }
        self.tick();
    }

    fn turns(&mut self, count: u32) {
        for _ in 0..count {
            self.turn();
        }
    }

    fn opens(&mut self) -> bool {
        let opened = self.sender.open(self.now, &mut self.to_reader).is_ok();
        self.turns(8);
        opened && self.sender.end().phase() == Phase::Open
    }

    // One packet with one byte, which counts the packets.
    fn send(&mut self) -> Result<(), SendRefusal> {
        let payload = [self.sent];
        self.sender.send(&payload, self.now, &mut self.to_reader)?;
        self.sent = self.sent.wrapping_add(1);
        Ok(())
    }

    // The first byte of what waits first, and its length.
    fn take(&mut self) -> Option<(u8, usize)> {
        let mut into = [0; 2_032];
        let (_, length) = self.reader.read(&mut into)?;
        self.read = self.read.saturating_add(1);
        Some((into[0], length))
    }

    // Turns go by. In each, the sender offers up to 64 packets, and its peer's owner reads this many.
    fn stream(&mut self, turns: u32, reads: u32) {
        for _ in 0..turns {
            for _ in 0..64 {
                if self.send().is_err() {
                    break;
                }
            }
            self.turn();
            for _ in 0..reads {
                let _ = self.take();
            }
        }
    }

    fn most(&self) -> Option<u32> {
        match self.sender.path().reader.allowance {
            Some(allowance) => Some(allowance.most),
            None => None,
        }
    }
}

// Nobody reads: the first eight packets wait, each further one is dropped for lack of room (RFC 4340, section 11.7,
// code 2), and the sender's window goes down to one.
fn fills(pair: &mut Pair) -> bool {
    pair.stream(40, 0);
    pair.told.waited == 8
        && (0 < pair.told.dropped && pair.told.code == 2)
        && (pair.reader.held() == 8 && matches!(pair.most(), Some(1)))
}

// These are read whole, in their order, and then none.
fn reads(pair: &mut Pair) -> bool {
    for number in 0..8 {
        if pair.take() != Some((number, 1)) {
            return false;
        }
    }
    pair.take().is_none() && pair.reader.held() == 0
}

// The owner reads two packets a turn: nearly each turn brings them, and the window is a few packets wide.
fn follows(pair: &mut Pair) -> bool {
    let before = pair.read;
    pair.stream(400, 2);
    let read = pair.read.saturating_sub(before);
    700 <= read && pair.most().is_some_and(|most| (2..=8).contains(&most))
}

// The owner no longer listens: what arrives is dropped with code 1, and the sender stops sending.
fn stops(pair: &mut Pair) -> bool {
    pair.stream(4, 0);
    let stopped = pair.reader.stop();
    pair.stream(40, 0);
    stopped
        && pair.told.code == 1
        && matches!(pair.send(), Err(SendRefusal::Held(Restraint::NotListening)))
}

// The sender closes properly, and what waits is read after the end. Nothing came in another way.
fn closes(pair: &mut Pair) -> bool {
    let held = pair.reader.held();
    let closed = pair.sender.close(pair.now, &mut pair.to_reader).is_ok();
    pair.turns(8);
    let mut read = 0_usize;
    for _ in 0..16 {
        if pair.take().is_some() {
            read = read.saturating_add(1);
        }
    }
    closed
        && matches!(pair.told.ended, Some(1))
        && (0 < held && read == held)
        && pair.told.others == 0
}

// The first of these that does not hold.
fn first_amiss(pair: &mut Pair) -> Option<&'static str> {
    if !pair.opens() {
        return Some("it opens");
    }
    if !fills(pair) {
        return Some("its inbox fills");
    }
    if !reads(pair) {
        return Some("its owner reads");
    }
    if !follows(pair) {
        return Some("the window follows");
    }
    if !stops(pair) {
        return Some("it stops");
    }
    if !closes(pair) {
        return Some("it closes");
    }
    None
}

fn amiss(alloc: Global) -> Option<&'static str> {
    match Pair::new(alloc) {
        Ok(mut pair) => first_amiss(&mut pair),
        Err(NoMemory) => Some("memory"),
    }
}

#[test]
fn a_session_holds_what_arrives(rt: HostRuntime) {
    let amiss = amiss(rt.alloc());
    assert!(rt; amiss.is_none(), "{amiss:?}");
}
