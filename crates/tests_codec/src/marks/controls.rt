//! Calls of congestion control: how the window of CCID 2 opens and is halved, a fixed window, a change of the kind, and
//! a single flight list. The values are worked out by hand from RFC 4341, section 5.
use crate::marks::calls::{CallTarget, all_come};
use ccid_two::{Ccid2, Kinds};
use congestion_trait::{Congestion, FixedWindow, Flight, Standing};
use dccp_options::{AckReport, options};
use seq_circle::Seq48;
use std::test::Fail;

// A call of a control, and its expected result.
enum Call {
    Start(u8),
    // Sends each number from the first up to the second.
    Send(u64, u64),
    // Hands over an Ack Vector of a byte at this number, at Ack Ratio 2.
    Tell(u64, u8),
    Timeout,
    MaySend(bool),
    Window(u32),
    InFlight(u32),
    // The threshold, which only Ccid2 has.
    Threshold(u32),
}

fn start<C: Congestion>(control: &mut C, ccid: u8) -> Option<bool> {
    if !control.knows(ccid) {
        return None;
    }
    control.start(ccid);
    Some(true)
}

fn send<C: Congestion>(control: &mut C, number: u64) -> Option<bool> {
    if !control.may_send() {
        return None;
    }
    control.on_sent(Seq48::new(number)?);
    Some(true)
}

fn send_each<C: Congestion>(control: &mut C, first: u64, past: u64) -> Option<bool> {
    for number in first..past {
        if send(control, number).is_none() {
            return None;
        }
    }
    Some(true)
}

fn tell<C: Congestion>(control: &mut C, ack: u64, byte: u8) -> Option<bool> {
    let area = [38, 3, byte];
    let number = Seq48::new(ack)?;
    let report = AckReport::of(number, options(&area, false))?;
    control.on_report(&report, 2);
    Some(control.is_reported(number))
}

fn time_out<C: Congestion>(control: &mut C) -> Option<bool> {
    control.on_timeout();
    Some(true)
}

// Whether a call has its expected result. None means that not every control has one, or that the call may not be made.
fn holds<C: Congestion>(control: &mut C, call: &Call) -> Option<bool> {
    match *call {
        Call::Start(ccid) => start(control, ccid),
        Call::Send(first, past) => send_each(control, first, past),
        Call::Tell(ack, byte) => tell(control, ack, byte),
        Call::Timeout => time_out(control),
        Call::MaySend(more) => Some(control.may_send() == more),
        Call::Window(window) => Some(control.window() == window),
        Call::InFlight(count) => Some(control.in_flight() == count),
        Call::Threshold(_) => None,
    }
}

impl CallTarget<Call> for Ccid2 {
    fn holds(&mut self, call: &Call) -> Option<bool> {
        match *call {
            Call::Threshold(threshold) => Some(self.threshold() == threshold),
            _ => holds(self, call),
        }
    }
}

impl CallTarget<Call> for Kinds {
    fn holds(&mut self, call: &Call) -> Option<bool> {
        holds(self, call)
    }
}

impl CallTarget<Call> for FixedWindow {
    fn holds(&mut self, call: &Call) -> Option<bool> {
        holds(self, call)
    }
}

// At 8 the lost 5 halves the window, and at 12 the lost 9 does not halve it again.
const OF_CCID_TWO: [Call; 34] = [
    Call::Window(4),
    Call::Threshold(1024),
    Call::Send(1, 5),
    Call::MaySend(false),
    Call::Tell(4, 0x03),
    Call::Window(5),
    Call::InFlight(0),
    Call::Send(5, 10),
    Call::MaySend(false),
    Call::Tell(8, 0x02),
    Call::Window(2),
    Call::Threshold(2),
    Call::InFlight(1),
    Call::Send(10, 11),
    Call::MaySend(false),
    Call::Tell(10, 0x00),
    Call::Window(2),
    Call::InFlight(1),
    Call::Send(11, 12),
    Call::MaySend(false),
    Call::Tell(11, 0x00),
    Call::Window(3),
    Call::InFlight(1),
    Call::Send(12, 13),
    Call::MaySend(true),
    Call::Tell(12, 0x00),
    Call::Window(3),
    Call::Threshold(2),
    Call::InFlight(0),
    Call::Timeout,
    Call::Window(1),
    Call::Threshold(2),
    Call::InFlight(0),
    Call::MaySend(true),
];

#[test]
fn window_of_ccid_two_by_calls(rt: HostRuntime) -> Result<(), Fail> {
    let mut control = Ccid2::new(rt.alloc())?;
    all_come(&mut control, "CCID 2", &OF_CCID_TWO)
}

// The numbers of CCID 2 above, and its reports: the window stays.
const OF_EIGHT: [Call; 26] = [
    Call::Window(8),
    Call::Send(1, 5),
    Call::MaySend(true),
    Call::Tell(4, 0x03),
    Call::Window(8),
    Call::InFlight(0),
    Call::Send(5, 10),
    Call::Tell(8, 0x02),
    Call::Window(8),
    Call::InFlight(1),
    Call::Send(10, 11),
    Call::Tell(10, 0x00),
    Call::Window(8),
    Call::Send(11, 12),
    Call::Tell(11, 0x00),
    Call::Window(8),
    Call::Send(12, 13),
    Call::Tell(12, 0x00),
    Call::Window(8),
    Call::InFlight(0),
    Call::Send(13, 21),
    Call::MaySend(false),
    Call::Timeout,
    Call::Window(8),
    Call::InFlight(0),
    Call::MaySend(true),
];

#[test]
fn fixed_window_by_calls(rt: HostRuntime) -> Result<(), Fail> {
    all_come(&mut FixedWindow::new(rt.alloc())?, "eight", &OF_EIGHT)
}

const OF_KINDS: [Call; 8] = [
    Call::Window(4),
    Call::Start(248),
    Call::Window(8),
    Call::Send(1, 2),
    Call::Tell(1, 0x00),
    Call::InFlight(0),
    Call::Start(2),
    Call::Window(4),
];

#[test]
fn kinds_by_calls(rt: HostRuntime) -> Result<(), Fail> {
    all_come(&mut Kinds::new(rt.alloc())?, "both", &OF_KINDS)
}

// Whether all of four sent numbers are out.
fn sends_four(flight: &mut Flight, first: Seq48) -> bool {
    for ahead in 0..4 {
        flight.sent(first.add(ahead));
    }
    flight.out() == 4 && flight.stands(first, Standing::Out)
}

// Whether the last three of them are acknowledged, so that the first is lost.
fn loses_the_first(flight: &mut Flight, first: Seq48) -> Option<bool> {
    let report = AckReport::of(first.add(3), options(&[38, 3, 0x02], false))?;
    let news = flight.report(&report, None);
    let settled = flight.stands(first, Standing::Lost) && flight.is_reported(first.add(1));
    Some(news.acked == 3 && news.congested && flight.out() == 0 && settled)
}

fn flies(flight: &mut Flight) -> Option<bool> {
    let first = Seq48::new(281_474_976_710_654)?;
    Some(sends_four(flight, first) && loses_the_first(flight, first)?)
}

#[test]
fn a_flight_by_calls(rt: HostRuntime) -> Result<(), Fail> {
    let flown = flies(&mut Flight::new(rt.alloc())?);
    assert!(rt; flown == Some(true));
    Ok(())
}
