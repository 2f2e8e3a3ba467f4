//! The window of CCID 2.
ghost use Rattle.std.specs.Prelude.{◌≡◌, ℕ, ◌≤◌, IfOk};
ghost use Rattle.ccid_two.specs.Window.{first_state, halved, grown_in_slow_start, grown_in_avoidance, capped, ccid_control};

use congestion_trait::{Congestion, Flight, LARGEST_WINDOW, Standing};
use dccp_options::AckReport;
use seq_circle::{NoMemory, Seq48};
use std::alloc::Global;
use std::marker::Model;

const CCID: u8 = 2;

const INITIAL_WINDOW: u32 = 4;

/// TCP-like congestion control (RFC 4341, section 5): the window doubles in a round trip until it reaches the
/// threshold, then grows by a packet in each, is halved once for all losses of a window, and falls to one packet at a
/// timeout. An Ack Ratio of 0 counts as 1.
#[derive(Drop)]
pub struct Ccid2 {
    flight: Flight,
    window: u32,
    threshold: u32,
    credit: u32,
    mark: Option<Seq48>,
    last: Option<Seq48>,
}

impl Model for Ccid2 {
    ghost use Rattle.ccid_two.specs.Window.{State, IsInRange};

    ghost Value = { State };

    ghost view = { λ c. record {
      flight = c.flight;
      window = c.window;
      threshold = c.threshold;
      credit = c.credit;
      mark = c.mark;
      last = c.last;
    } };

    ghost invariant = { λ c. IsInRange c.window c.threshold c.credit };
}

impl Ccid2 {
    /// CCID 2 with nothing sent: a window of 4 packets and a threshold of 1,024. NoMemory if there is no block for the
    /// flight list.
    pub fn new(alloc: Global) -> Result<Ccid2, NoMemory>
        ensures { IfOk result (λ ccid. ccid ≡ first_state) }
    {
        let flight = Flight::new(alloc)?;
        Ok(Ccid2 {
            flight,
            window: INITIAL_WINDOW,
            threshold: LARGEST_WINDOW,
            credit: 0,
            mark: None,
            last: None,
        })
    }

    /// The slow-start threshold in packets: 2 to 1,024. Below it the window grows quickly.
    pub fn threshold(&self) -> u32
        ensures value { result ≡ self.now.threshold }
        ensures low { 2 ≤ result }
        ensures high { result ≤ 1024 }
    {
        self.threshold
    }

    fn halve(&mut self)
        ensures { self.new ≡ capped (halved self.old) }
    {
        self.window = (self.window / 2).max(1);
        self.threshold = self.window.max(2);
        self.credit = 0;
        self.mark = self.last;
    }

    fn grow_in_slow_start(&mut self, acked: u32, ratio: u16)
        requires { acked ≤ 2048 }
        ensures { self.new ≡ capped (grown_in_slow_start self.old acked ratio) }
    {
        let credit = self.credit + acked;
        let most = (u32::from(ratio) / 2).max(1);
        self.window = (self.window + (credit / 2).min(most)).min(LARGEST_WINDOW);
        self.credit = credit % 2;
    }

    fn grow_in_avoidance(&mut self, acked: u32)
        requires { acked ≤ 2048 }
        ensures { self.new ≡ capped (grown_in_avoidance self.old acked) }
    {
        let credit = self.credit + acked;
        if credit >= self.window {
            self.window = (self.window + 1).min(LARGEST_WINDOW);
            self.credit = 0;
        } else {
            self.credit = credit;
        }
    }
}

impl Congestion for Ccid2 {
    ghost use Rattle.std.specs.Prelude.{refl};
    ghost use Rattle.ccid_two.specs.Keeping.{ccid_window_stays};

    ghost control = { ccid_control };

    ghost lawful = { record {
      start_empties = λ _ _. refl;
      sending_adds = λ _ _. refl;
      report_settles = λ _ _ _. refl;
      timeout_empties = λ _. refl;
      keeps_window = ccid_window_stays;
    } };

    fn knows(&self, ccid: u8) -> bool {
        ccid == CCID
    }

    fn start(&mut self, _ccid: u8) {
        self.flight.clear();
        self.window = INITIAL_WINDOW;
        self.threshold = LARGEST_WINDOW;
        self.credit = 0;
        self.mark = None;
        self.last = None;
    }

    fn window(&self) -> u32 {
        self.window
    }

    fn in_flight(&self) -> u32 {
        self.flight.out()
    }

    fn is_reported(&self, number: Seq48) -> bool {
        self.flight.is_reported(number)
    }

    fn stands(&self, number: Seq48, standing: Standing) -> bool {
        self.flight.stands(number, standing)
    }

    fn may_send(&self) -> bool {
        self.flight.out() < self.window
    }

    fn on_sent(&mut self, number: Seq48) {
        self.flight.sent(number);
        self.last = Some(number);
    }

    fn on_report(&mut self, report: &AckReport<'_>, ratio: u16) {
        let news = self.flight.report(report, self.mark);
        if news.congested {
            self.halve();
        } else if self.window < self.threshold {
            self.grow_in_slow_start(news.acked, ratio);
        } else {
            self.grow_in_avoidance(news.acked);
        }
    }

    fn on_timeout(&mut self) {
        self.flight.clear();
        self.threshold = (self.window / 2).max(2);
        self.window = 1;
        self.credit = 0;
        self.mark = self.last;
    }
}
