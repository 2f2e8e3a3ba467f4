//! A congestion control whose window never changes.
ghost use Rattle.std.specs.Prelude.{◌≡◌, [], IfOk};
ghost use Rattle.congestion_trait.specs.Fixed.{fixed_control};

use crate::congestion::Congestion;
use crate::flight::{Flight, Standing};
use dccp_options::AckReport;
use seq_circle::{NoMemory, Seq48};
use std::alloc::Global;
use std::marker::Model;

const CCID: u8 = 248;

const WINDOW: u32 = 8;

/// CCID 248: a window of 8 packets, whatever is reported (own).
#[derive(Drop)]
pub struct FixedWindow {
    flight: Flight,
}

impl Model for FixedWindow {
    ghost use Rattle.std.specs.Prelude.{List};
    ghost use Rattle.congestion_trait.specs.declared.flight.FlightEntry.{FlightEntry};

    ghost Value = { List FlightEntry };

    ghost view = { λ w. w.flight };
}

impl FixedWindow {
    /// A fixed window with nothing in flight. NoMemory if there is no block for the flight list.
    pub fn new(alloc: Global) -> Result<FixedWindow, NoMemory>
        ensures { IfOk result (λ window. window ≡ []) }
    {
        let flight = Flight::new(alloc)?;
        Ok(FixedWindow { flight })
    }
}

impl Congestion for FixedWindow {
    ghost use Rattle.std.specs.Prelude.{refl};
    ghost use Rattle.congestion_trait.specs.Fixed.{fixed_window_stays};

    ghost control = { fixed_control };

    ghost lawful = { record {
      start_empties = λ _ _. refl;
      sending_adds = λ _ _. refl;
      report_settles = λ _ _ _. refl;
      timeout_empties = λ _. refl;
      keeps_window = fixed_window_stays;
    } };

    fn knows(&self, ccid: u8) -> bool {
        ccid == CCID
    }

    fn start(&mut self, _ccid: u8) {
        self.flight.clear();
    }

    fn window(&self) -> u32 {
        WINDOW
    }

    fn in_flight(&self) -> u32 {
        self.flight.out()
    }

    fn is_reported(&self, number: Seq48) -> bool {
        self.flight.is_reported(number)
    }

    fn stands(&self, number: Seq48, standing: Standing) -> bool {
        self.flight.stands(number, standing)
    }

    fn may_send(&self) -> bool {
        self.in_flight() < WINDOW
    }

    fn on_sent(&mut self, number: Seq48) {
        self.flight.sent(number);
    }

    fn on_report(&mut self, report: &AckReport<'_>, _ratio: u16) {
        let _news = self.flight.report(report, None);
    }

    fn on_timeout(&mut self) {
        self.flight.clear();
    }
}
