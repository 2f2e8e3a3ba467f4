//! A client and a server with a wire in each direction, as their two owners drive them. If a call returns a bool, it
//! says whether the step had its expected result.
use crate::fresh::{boxed, session};
use crate::uses::wire::Wire;
use ccid_two::Kinds;
use dccp_endpoint::{Config, Feature, Held, NoMemory, Phase, Place, Role, SendFault, Timer};
use dccp_uses::{Alarms, News, Pace, Restraint, SendRefusal, Session, accept};
use std::alloc::Global;

// How many milliseconds a turn takes.
const TURN: u64 = 50;

// A client, the server's session if there is one, the code with which each was told that the connection has ended, and
// what was delivered to the server.
#[derive(Drop)]
pub(crate) struct Pair {
    alloc: Global,
    now: u64,
    client: Box<Session<Kinds>>,
    server: Option<Box<Session<Kinds>>>,
    to_server: Wire,
    to_client: Wire,
    pub(crate) client_ended: Option<u8>,
    pub(crate) server_ended: Option<u8>,
    pub(crate) got: Vec<u8>,
}

// A server's session, if a stranger's datagram opens a connection.
fn accepted(
    alloc: Global,
    datagram: &[u8],
    now: u64,
    wire: &mut Wire,
) -> Option<Box<Session<Kinds>>> {
    let Ok(congestion) = Kinds::new(alloc) else {
        return None;
    };
    match accept(
        alloc,
        Config::usual(Role::Server),
        congestion,
        Pace::classic(),
        datagram,
        now,
        wire,
    ) {
        Ok(Some(session)) => boxed(alloc, session).ok(),
        Ok(None) | Err(NoMemory) => None,
    }
}

fn is_ended(phase: Phase) -> bool {
    matches!(phase, Phase::Closed | Phase::TimeWait)
}

fn wait_in(alarms: &Alarms, timer: Timer) -> Option<u64> {
    match alarms.of(timer) {
        Some(alarm) => Some(alarm.wait),
        None => None,
    }
}

impl Pair {
    /// A client, and a wire in each direction that loses frames by draws from this number.
    pub(crate) fn new(alloc: Global, seed: u64) -> Result<Pair, NoMemory> {
        let client = session(alloc, Config::usual(Role::Client), Pace::classic())?;
        let to_server = Wire::drawn(alloc, seed);
        let to_client = Wire::drawn(alloc, seed.wrapping_add(1_000));
        Ok(Pair::over(alloc, client, to_server, to_client))
    }

    /// A client, and a wire in each direction that loses nothing.
    pub(crate) fn whole(alloc: Global) -> Result<Pair, NoMemory> {
        let client = session(alloc, Config::usual(Role::Client), Pace::classic())?;
        Ok(Pair::over(alloc, client, Wire::whole(alloc), Wire::whole(alloc)))
    }

    fn over(alloc: Global, client: Box<Session<Kinds>>, to_server: Wire, to_client: Wire) -> Pair {
        Pair {
            alloc,
            now: 5_000,
            client,
            server: None,
            to_server,
            to_client,
            client_ended: None,
            server_ended: None,
            got: Vec::new(alloc),
        }
    }

    /// From now on each wire loses this many frames in a row, and then none.
    pub(crate) fn lose(&mut self, frames: usize) {
        self.to_server.lose(frames);
        self.to_client.lose(frames);
    }

    /// The time in milliseconds.
    pub(crate) fn now(&self) -> u64 {
        self.now
    }

    /// A turn goes by.
    pub(crate) fn turn(&mut self) -> bool {
        self.pass(TURN)
    }

    /// Each end is in CLOSED or in TIMEWAIT.
    pub(crate) fn is_over(&self) -> bool {
        is_ended(self.client.end().phase()) && is_ended(self.serving())
    }

    /// The client asks for its service.
    pub(crate) fn asks(&mut self) -> bool {
        self.client.open(self.now, &mut self.to_server).is_ok()
    }

    /// Turns go by until both ends are open.
    pub(crate) fn opens(&mut self) -> bool {
        for _ in 0..2_000 {
            if self.are(Phase::Open) {
                return true;
            }
            if !self.pass(TURN) {
                return false;
            }
        }
        false
    }

    // The server's phase.
    fn serving(&self) -> Phase {
        match &self.server {
            Some(server) => server.end().phase(),
            None => Phase::Listen,
        }
    }

    /// Both are in this phase.
    pub(crate) fn are(&self, phase: Phase) -> bool {
        self.client.end().phase() == phase && self.serving() == phase
    }

    /// This many turns go by.
    pub(crate) fn go_on(&mut self, turns: usize) -> bool {
        for _ in 0..turns {
            if !self.pass(TURN) {
                return false;
            }
        }
        true
    }

    /// This many milliseconds go by in one turn: a frame arrives at each side, if there is one, and the timers get the
    /// time.
    pub(crate) fn pass(&mut self, time: u64) -> bool {
        self.now = self.now.saturating_add(time);
        if !self.server_takes() {
            return false;
        }
        self.client_takes();
        self.tick();
        true
    }

    fn tick(&mut self) {
        self.client.tick(self.now, &mut self.to_server);
        if let Some(server) = &mut self.server {
            server.tick(self.now, &mut self.to_client);
        }
    }

    fn server_takes(&mut self) -> bool {
        match self.to_server.take() {
            Some(datagram) => self.server_hears(&datagram),
            None => true,
        }
    }

    // The server's owner: a datagram belongs to the connection, or may open one.
    fn server_hears(&mut self, datagram: &[u8]) -> bool {
        if self.server.is_some() {
            return self.serve(datagram);
        }
        self.server = accepted(self.alloc, datagram, self.now, &mut self.to_client);
        true
    }

    // A datagram of the connection.
    fn serve(&mut self, datagram: &[u8]) -> bool {
        let Some(server) = &mut self.server else {
            return true;
        };
        let news = server.arrived(datagram, self.now, &mut self.to_client);
        self.note(news, datagram)
    }

    // What the server is told of a datagram.
    fn note(&mut self, news: News, datagram: &[u8]) -> bool {
        match news {
            News::Data { first, past } => match datagram.get(first..past) {
                Some(data) => self.got.extend_from_slice(data).is_ok(),
                None => false,
            },
            News::Ended { code } => {
                self.server_ended = Some(code);
                true
            }
            News::Waits | News::Dropped { .. } | News::Quiet | News::TooLong => true,
        }
    }

    // The client's owner.
    fn client_takes(&mut self) {
        if let Some(datagram) = self.to_client.take()
            && let News::Ended { code } = self
                .client
                .arrived(&datagram, self.now, &mut self.to_server)
        {
            self.client_ended = Some(code);
        }
    }

    /// The client sends data if there is room, and returns whether they went out. None means that they may not be sent
    /// at all.
    pub(crate) fn send(&mut self, payload: &[u8]) -> Option<bool> {
        match self.client.send(payload, self.now, &mut self.to_server) {
            Ok(()) => Some(true),
            Err(SendRefusal::Held(Restraint::Full)) => Some(false),
            Err(SendRefusal::Held(Restraint::NotListening)) => None,
            Err(SendRefusal::Refused(SendFault::WindowFull | SendFault::NotNegotiated)) => {
                Some(false)
            }
            Err(SendRefusal::Refused(SendFault::NotOpen | SendFault::TooLong)) => None,
        }
    }

    /// How long a timer of this side still waits, if it runs.
    pub(crate) fn wait_of(&self, role: Role, timer: Timer) -> Option<u64> {
        match (role, &self.server) {
            (Role::Client, _) => wait_in(self.client.alarms(), timer),
            (Role::Server, Some(server)) => wait_in(server.alarms(), timer),
            (Role::Server, None) => None,
        }
    }

    pub(crate) fn close(&mut self, role: Role) -> bool {
        match (role, &mut self.server) {
            (Role::Server, Some(server)) => server.close(self.now, &mut self.to_client).is_ok(),
            (Role::Server, None) => false,
            (Role::Client, _) => self.client.close(self.now, &mut self.to_server).is_ok(),
        }
    }

    /// The client asks for a value of its own feature.
    pub(crate) fn prefer(&mut self, feature: Feature, values: &[u64]) -> bool {
        self.client
            .prefer(feature, Place::Here, values, self.now, &mut self.to_server)
            .is_ok()
    }

    /// What the client holds for its own feature.
    pub(crate) fn held(&self, feature: Feature) -> Held {
        self.client.end().held(feature, Place::Here)
    }

    /// What the server holds for it.
    pub(crate) fn told(&self, feature: Feature) -> Option<Held> {
        match &self.server {
            Some(server) => Some(server.end().held(feature, Place::There)),
            None => None,
        }
    }
}
