//! The choice between the kinds.
ghost use Rattle.std.specs.Prelude.{◌≡◌, IfOk};
ghost use Rattle.ccid_two.specs.Kinds.{at_first, kinds_control};

use crate::window::Ccid2;
use congestion_trait::{Congestion, FixedWindow, Standing};
use dccp_options::AckReport;
use seq_circle::{NoMemory, Seq48};
use std::alloc::Global;
use std::marker::Model;

const CCID_TWO: u8 = 2;

const CCID_FIXED: u8 = 248;

/// Which kind of congestion control is in force.
#[derive(Clone, Copy, Debug, PartialEq, Eq)]
pub enum ControlKind {
    /// CCID 2 (RFC 4341).
    CcidTwo,
    /// CCID 248: the fixed window (own).
    Fixed,
}

/// CCID 2 and CCID 248 in one: `start` chooses which is in force. It begins with CCID 2.
#[derive(Drop)]
pub struct Kinds {
    kind: ControlKind,
    ccid_two: Ccid2,
    fixed: FixedWindow,
}

impl Model for Kinds {
    ghost use Rattle.ccid_two.specs.Kinds.{Both};

    ghost Value = { Both };

    ghost view = { λ k. record { kind = k.kind; ccid_two = k.ccid_two; fixed = k.fixed } };
}

impl Kinds {
    /// Both kinds with nothing sent, and CCID 2 in force. NoMemory if there is no memory for their flight lists.
    pub fn new(alloc: Global) -> Result<Kinds, NoMemory>
        ensures { IfOk result (λ kinds. kinds ≡ at_first) }
    {
        let ccid_two = Ccid2::new(alloc)?;
        let fixed = FixedWindow::new(alloc)?;
        Ok(Kinds {
            kind: ControlKind::CcidTwo,
            ccid_two,
            fixed,
        })
    }
}

impl Congestion for Kinds {
    ghost control = { kinds_control };

    fn knows(&self, ccid: u8) -> bool {
        ccid == CCID_TWO || ccid == CCID_FIXED
    }

    fn start(&mut self, ccid: u8) {
        if ccid == CCID_FIXED {
            self.kind = ControlKind::Fixed;
            self.fixed.start(ccid);
        } else {
            self.kind = ControlKind::CcidTwo;
            self.ccid_two.start(ccid);
        }
    }

    fn window(&self) -> u32 {
        match self.kind {
            ControlKind::CcidTwo => self.ccid_two.window(),
            ControlKind::Fixed => self.fixed.window(),
        }
    }

    fn in_flight(&self) -> u32 {
        match self.kind {
            ControlKind::CcidTwo => self.ccid_two.in_flight(),
            ControlKind::Fixed => self.fixed.in_flight(),
        }
    }

    fn is_reported(&self, number: Seq48) -> bool {
        match self.kind {
            ControlKind::CcidTwo => self.ccid_two.is_reported(number),
            ControlKind::Fixed => self.fixed.is_reported(number),
        }
    }

    fn stands(&self, number: Seq48, standing: Standing) -> bool {
        match self.kind {
            ControlKind::CcidTwo => self.ccid_two.stands(number, standing),
            ControlKind::Fixed => self.fixed.stands(number, standing),
        }
    }

    fn may_send(&self) -> bool {
        match self.kind {
            ControlKind::CcidTwo => self.ccid_two.may_send(),
            ControlKind::Fixed => self.fixed.may_send(),
        }
    }

    fn on_sent(&mut self, number: Seq48) {
        match self.kind {
            ControlKind::CcidTwo => self.ccid_two.on_sent(number),
            ControlKind::Fixed => self.fixed.on_sent(number),
        }
    }

    fn on_report(&mut self, report: &AckReport<'_>, ratio: u16) {
        match self.kind {
            ControlKind::CcidTwo => self.ccid_two.on_report(report, ratio),
            ControlKind::Fixed => self.fixed.on_report(report, ratio),
        }
    }

    fn on_timeout(&mut self) {
        match self.kind {
            ControlKind::CcidTwo => self.ccid_two.on_timeout(),
            ControlKind::Fixed => self.fixed.on_timeout(),
        }
    }

    ghost use Rattle.ccid_two.specs.Lawful.{kinds_lawful};

    ghost lawful = { kinds_lawful };
}
