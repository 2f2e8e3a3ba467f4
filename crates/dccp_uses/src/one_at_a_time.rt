//! An example of a user's congestion control, as small as possible: one packet in flight at a time.
ghost use Rattle.std.specs.Prelude.{◌≡◌, [], IfOk};

use congestion_trait::{Flight, Standing};
use dccp_endpoint::{Congestion, NoMemory, Seq48};
use dccp_options::AckReport;
use std::alloc::Global;
use std::marker::Model;

const CCID: u8 = 2;

const WINDOW: u32 = 1;

/// A window of one packet, in place of CCID 2: the next packet goes out once the last one was reported, or counted as
/// lost. It never sends faster than CCID 2, whose window is at least one packet (RFC 4341, section 5).
#[derive(Drop)]
pub struct OneAtATime {
    flight: Flight,
}

impl Model for OneAtATime {
    ghost use Rattle.congestion_trait.specs.Kind.{KindState};

    ghost Value = { KindState (Unit {0}) };

    ghost view = { λ w. record { flight = w.flight; rest = tt } };
}

impl OneAtATime {
    /// Nothing is in flight. NoMemory if there is no block for the flight list.
    pub fn new(alloc: Global) -> Result<OneAtATime, NoMemory>
        ensures { IfOk result (λ made. made ≡ record { flight = []; rest = tt }) }
    {
        let flight = Flight::new(alloc)?;
        Ok(OneAtATime { flight })
    }
}

impl Congestion for OneAtATime {
    ghost use Rattle.congestion_trait.specs.Kind.{control_by_rules, kind_is_lawful};
    ghost use Rattle.dccp_uses.specs.OneAtATime.{one_at_a_time, one_packet_stays};

    ghost control = { control_by_rules one_at_a_time };

    ghost lawful = { kind_is_lawful one_at_a_time one_packet_stays };

    fn knows(&self, ccid: u8) -> bool {
        ccid == CCID
    }

    fn start(&mut self, _ccid: u8) {
        self.flight.clear();
    }

    fn window(&self) -> u32 {
        WINDOW
    }

    fn in_flight(&self) -> u32 {
        self.flight.out()
    }

    fn is_reported(&self, number: Seq48) -> bool {
        self.flight.is_reported(number)
    }

    fn stands(&self, number: Seq48, standing: Standing) -> bool {
        self.flight.stands(number, standing)
    }

    fn may_send(&self) -> bool {
        self.flight.out() < WINDOW
    }

    fn on_sent(&mut self, number: Seq48) {
        self.flight.sent(number);
    }

    fn on_report(&mut self, report: &AckReport<'_>, _ratio: u16) {
        let _news = self.flight.report(report, None);
    }

    fn on_timeout(&mut self) {
        self.flight.clear();
    }
}
