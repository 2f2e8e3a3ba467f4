//! An example of a user's kind of congestion control, with a window that moves. It begins with one packet, grows by one
//! for each report of something received, and is halved by each report of a loss or of a marked packet (own; CCIDs from
//! 248 are for experiments, RFC 4340, section 10).
ghost use Rattle.std.specs.Prelude.{IfOk, [], ◌≡◌};

use congestion_trait::{Flight, LARGEST_WINDOW, Standing};
use dccp_endpoint::{Congestion, NoMemory, Seq48};
use dccp_options::AckReport;
use std::alloc::Global;
use std::marker::Model;

const CCID: u8 = 249;

/// A window that grows by one packet and is halved.
#[derive(Drop)]
pub struct AdditiveWindow {
    flight: Flight,
    window: u32,
}

impl Model for AdditiveWindow {
    ghost use Rattle.std.specs.Prelude.{ℕ, ◌≤◌};
    ghost use Rattle.congestion_trait.specs.Kind.{KindState};

    ghost Value = { KindState ℕ };

    ghost view = { λ w. record { flight = w.flight; rest = w.window } };

    ghost invariant = { λ w. (1 ≤ w.window) × (w.window ≤ 1024) };
}

impl AdditiveWindow {
    /// A window of one packet with nothing in flight. NoMemory if there is no block for the flight list.
    pub fn new(alloc: Global) -> Result<AdditiveWindow, NoMemory>
        ensures { IfOk result (λ made. made ≡ record { flight = []; rest = 1 }) }
    {
        let flight = Flight::new(alloc)?;
        Ok(AdditiveWindow { flight, window: 1 })
    }
}

impl Congestion for AdditiveWindow {
    ghost use Rattle.congestion_trait.specs.Kind.{control_by_rules, kind_is_lawful};
    ghost use Rattle.dccp_uses.specs.Additive.{additive, additive_window_stays};

    ghost control = { control_by_rules additive };

    ghost lawful = { kind_is_lawful additive additive_window_stays };

    fn knows(&self, ccid: u8) -> bool {
        ccid == CCID
    }

    fn start(&mut self, _ccid: u8) {
        self.flight.clear();
        self.window = 1;
    }

    fn window(&self) -> u32 {
        self.window
    }

    fn in_flight(&self) -> u32 {
        self.flight.out()
    }

    fn is_reported(&self, number: Seq48) -> bool {
        self.flight.is_reported(number)
    }

    fn stands(&self, number: Seq48, standing: Standing) -> bool {
        self.flight.stands(number, standing)
    }

    fn may_send(&self) -> bool {
        self.flight.out() < self.window
    }

    fn on_sent(&mut self, number: Seq48) {
        self.flight.sent(number);
    }

    fn on_report(&mut self, report: &AckReport<'_>, _ratio: u16) {
        let news = self.flight.report(report, None);
        if news.congested {
            self.window = (self.window / 2).max(1);
        } else if news.acked > 0 && self.window < LARGEST_WINDOW {
            self.window += 1;
        }
    }

    fn on_timeout(&mut self) {
        self.flight.clear();
        self.window = 1;
    }
}
