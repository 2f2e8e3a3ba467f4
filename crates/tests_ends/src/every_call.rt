//! Public calls of dccp_endpoint, dccp_uses and data_dropped, each once with ample memory, that neither the program nor
//! another test makes.
use crate::fresh::{boxed, end};
use ccid_two::Kinds;
use data_dropped::DropReport;
use dccp_endpoint::{
    Config, Congestion, Endpoint, Frame, NoMemory, Ports, Pseudo, Role, Seq48, Standing, feed,
};
use dccp_options::{AckReport, options};
use dccp_uses::{AdditiveWindow, Network, OneAtATime, Pace, Session};
use std::alloc::Global;
use std::slice::from_ref;

// A Request of the usual client.
const REQUEST: [u8; 20] = [
    0x9c, 0x40, 0x13, 0x89, 5, 0, 0x31, 0xec, 1, 0, 0, 0, 0, 0, 0x03, 0xe8, 0, 0, 0, 42,
];

// The configuration of the usual client.
fn client() -> Option<Config> {
    let addresses = Pseudo::V4 {
        from: [10, 0, 0, 1],
        to: [10, 0, 0, 2],
    };
    let ports = Ports {
        own: 40000,
        peer: 5001,
    };
    let iss = Seq48::new(1000)?;
    Some(Config::client(addresses, ports, 42, iss))
}

// Whether an end has taken a Request, and knows nothing about a number that it did not send.
fn takes(end: &mut Endpoint<Kinds>) -> Option<bool> {
    let frame = Frame::of(&REQUEST)?;
    let taken = feed(end, from_ref(&frame));
    let number = Seq48::new(1000)?;
    Some(taken == 1 && !end.is_reported(number) && !end.stands(number, Standing::Out))
}

fn is_fed(alloc: Global) -> Result<Option<bool>, NoMemory> {
    let mut end = end(alloc, Config::usual(Role::Server))?;
    Ok(takes(&mut end))
}

#[test]
fn an_end_is_fed(rt: HostRuntime) {
    assert!(rt; matches!(is_fed(rt.alloc()), Ok(Some(true))));
}

// Counts the frames that it is handed.
#[derive(Drop)]
struct Count(u64);

impl Network for Count {
    ghost sends = { λ _ _ _. Unit {0} };

    fn send(&mut self, _frame: &[u8]) {
        self.0 = self.0.saturating_add(1);
    }
}

// A client that opens, shows its room and its first wait, and aborts.
fn opens_and_aborts(session: &mut Session<OneAtATime>) -> bool {
    let mut network = Count(0);
    session.open(0, &mut network).is_ok()
        && session.room() == 1
        && matches!(session.until_first(400), Some(600))
        && session.alarms().request.is_some()
        && session.abort(500, &mut network).is_ok()
        && network.0 == 1
}

fn session(alloc: Global, config: Config) -> Result<Box<Session<OneAtATime>>, NoMemory> {
    let congestion = OneAtATime::new(alloc)?;
    boxed(
        alloc,
        Session::new(alloc, config, congestion, Pace::classic())?,
    )
}

fn is_aborted(alloc: Global) -> Option<bool> {
    match session(alloc, client()?) {
        Ok(mut session) => Some(opens_and_aborts(&mut session)),
        Err(NoMemory) => None,
    }
}

#[test]
fn a_session_is_aborted(rt: HostRuntime) {
    assert!(rt; is_aborted(rt.alloc()) == Some(true));
}

// Sends a packet, and is told that the number 1 was received.
fn hears(kind: &mut AdditiveWindow) -> Option<bool> {
    if !kind.may_send() {
        return None;
    }
    let number = Seq48::new(1)?;
    kind.on_sent(number);
    let report = AckReport::of(number, options(&[38, 3, 0x00], false))?;
    kind.on_report(&report, 2);
    Some(kind.window() == 2 && kind.in_flight() == 0)
}

fn starts_anew(kind: &mut AdditiveWindow) -> bool {
    kind.on_timeout();
    kind.start(249);
    kind.knows(249) && kind.window() == 1
}

fn grows(kind: &mut AdditiveWindow) -> Option<bool> {
    Some(hears(kind)? && starts_anew(kind))
}

fn grows_anew(alloc: Global) -> Result<Option<bool>, NoMemory> {
    Ok(grows(&mut AdditiveWindow::new(alloc)?))
}

#[test]
fn an_own_window_grows(rt: HostRuntime) {
    assert!(rt; matches!(grows_anew(rt.alloc()), Ok(Some(true))));
}

fn code() -> Option<u8> {
    let number = Seq48::new(20)?;
    DropReport::of(number, options(&[40, 3, 0xa0], false))?.code(number)
}

#[test]
fn a_report_of_drops_is_read(rt: HostRuntime) {
    assert!(rt; code() == Some(2));
}
