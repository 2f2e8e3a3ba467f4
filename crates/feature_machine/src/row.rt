//! One row: a feature at one place, as one end has it.
//!
//! ```text
//!             prefer, offer                     prefer
//!   STABLE -------------------> CHANGING -------------------> UNSTABLE
//!     ^                          |    ^                          |
//!     |   its Confirm comes      |    |     its Change is sent   |
//!     +--------------------------+    +--------------------------+
//! ```
//!
//! A Change of the peer changes no stand: a row in CHANGING answers it, takes its value and still waits for its own
//! Confirm. If it went to STABLE there, the Confirm under way could have another value than the peer then holds.
ghost use Rattle.std.specs.Prelude.{◌≡◌, ◌≢◌, ◌++◌, ◌∷◌, [], ℕ, length, true, false};
ghost use Rattle.feature_lists.specs.Wishes.{is_wish};
ghost use Rattle.feature_machine.specs.Rows.{row_step, Change, Confirm, Prefers, Offers, Sends, confirm_body};
ghost use Rattle.feature_machine.specs.Answers.{reply_of, settling_of, opening_of, is_opening};
ghost use Rattle.feature_machine.specs.Negotiating.{first_row, is_due, is_quiet};
ghost use Rattle.feature_machine.specs.Sound.{IsSoundRow, is_lawful};
ghost use Rattle.feature_machine.specs.declared.offers.Offer.TheVariants.{Nothing};
ghost use Rattle.feature_machine.specs.declared.stands.Stand.TheVariants.{Stable};

use crate::judging::{Confirmation, Proposal};
use crate::offers::{Offer, RowSetup};
use crate::values::put_value;
use crate::{Opening, Role2, Settling, Stand};
use arrayvec::ArrayVec;
use feature_lists::{Feature, Place, Wanted, initial};
use seq_circle::Seq48;

/// A feature at one place, as one end has it.
#[derive(Clone, Copy)]
pub struct Row {
    /// Which end it is.
    pub role: Role2,
    pub feature: Feature,
    pub place: Place,
    pub stand: Stand,
    /// The offer that was not yet made.
    pub offer: Offer,
    /// Whether the Change of the active wish carries Mandatory.
    pub mandatory: bool,
    pub value: u64,
    /// What the row last sent, or its configured wish before that; None for a non-negotiable feature at the peer.
    pub active: Option<Wanted>,
    /// What it sends next, if it is UNSTABLE.
    pub pending: Option<Wanted>,
    /// The number of the packet with the last opening's first Change, once it was sent (FGSS of RFC 4340, section
    /// 6.6.4).
    pub opened: Option<Seq48>,
}

/// What a row replies to a Change.
#[derive(Drop)]
pub enum RowReply {
    /// A Confirm with this data after the feature number.
    Confirm(ArrayVec<u8, 9>),
    Ignored,
    /// Reset 6.
    Fatal,
}

impl Row {
    // A row before anything was negotiated.
    pub(crate) fn first(role: Role2, listed: &RowSetup) -> Row
        ensures { result ≡ first_row role listed.now }
    {
        Row {
            role,
            feature: listed.feature,
            place: listed.place,
            value: initial(listed.feature),
            stand: Stand::Stable,
            active: listed.wish,
            pending: None,
            opened: None,
            offer: listed.offer,
            mandatory: false,
        }
    }

    // Whether a Change of the row is due.
    pub(crate) fn is_due(&self) -> bool
        ensures { result ≡ is_due self.now }
    {
        match self.stand {
            Stand::Stable => false,
            Stand::Changing | Stand::Unstable => true,
        }
    }

    // Whether the row has nothing to say by itself: its offer was made or there is none, and no Change is due.
    pub(crate) fn is_quiet(&self) -> bool
        ensures { result ≡ is_quiet self.now }
    {
        match self.offer {
            Offer::Nothing => !self.is_due(),
            Offer::Plain | Offer::Mandatory => false,
        }
    }

    // A Confirm's data: the row's value, and for a server-priority feature its active list.
    fn confirm_body(&self) -> ArrayVec<u8, 9>
        requires { is_lawful self.now.feature self.now.place self.now.value ≡ true }
        ensures { result.items ≡ confirm_body self.now }
    {
        let mut body = ArrayVec::new();
        if self.feature.is_server_priority() {
            body.push(self.value as u8);
            let _ = body.try_extend_from_slice(self.entries());
        } else {
            put_value(&mut body, self.feature, self.value);
        }
        body
    }

    // A Change comes.
    pub(crate) fn change(&mut self, body: &[u8], mandatory: bool) -> RowReply
        requires { IsSoundRow self.old }
        ensures row { self.new ≡ (row_step self.old (Change body.now mandatory)).row }
        ensures reply { reply_of result ≡ (row_step self.old (Change body.now mandatory)).answer }
    {
        let proposal = self.proposal(body);
        match (proposal, self.stand) {
            (Proposal::Invalid, _) => {
                if mandatory {
                    RowReply::Fatal
                } else {
                    RowReply::Confirm(ArrayVec::new())
                }
            }
            (Proposal::Shared(_) | Proposal::Unshared | Proposal::Told(_), Stand::Unstable) =>
                RowReply::Ignored,
            (Proposal::Shared(value), Stand::Stable | Stand::Changing) => {
                self.value = u64::from(value);
                RowReply::Confirm(self.confirm_body())
            }
            (Proposal::Unshared, Stand::Stable | Stand::Changing) => {
                if mandatory {
                    RowReply::Fatal
                } else {
                    RowReply::Confirm(self.confirm_body())
                }
            }
            (Proposal::Told(value), Stand::Stable | Stand::Changing) => {
                self.value = value;
                RowReply::Confirm(self.confirm_body())
            }
        }
    }

    fn settle(&mut self, value: u64) -> Settling
        ensures row { self.new ≡ record self.old { value = value; stand = Stable } }
        ensures settled { result ≡ Settling.Settled }
    {
        self.value = value;
        self.stand = Stand::Stable;
        Settling::Settled
    }

    // A Confirm comes.
    pub(crate) fn confirm(&mut self, body: &[u8], ack: &Option<Seq48>) -> Settling
        ensures row { self.new ≡ (row_step self.old (Confirm body.now ack.now)).row }
        ensures settling { result ≡ settling_of (row_step self.old (Confirm body.now ack.now)).answer }
    {
        if !matches!(self.stand, Stand::Changing) {
            return Settling::Ignored;
        }
        match self.confirmation(body, ack) {
            Confirmation::Late => Settling::Ignored,
            Confirmation::Empty => {
                if self.feature.is_required() {
                    Settling::Fatal
                } else {
                    self.settle(self.value)
                }
            }
            Confirmation::Shared(value) => self.settle(u64::from(value)),
            Confirmation::Held => self.settle(self.value),
            Confirmation::Alone(value) => self.settle(u64::from(value)),
            Confirmation::Told(value) => self.settle(value),
            Confirmation::Wrong => Settling::Fatal,
        }
    }

    // The end has a new wish.
    pub(crate) fn prefer(&mut self, wish: Wanted) -> Opening
        ensures row { self.new ≡ (row_step self.old (Prefers wish)).row }
        ensures opening { result ≡ opening_of (row_step self.old (Prefers wish)).answer }
    {
        if matches!(self.stand, Stand::Stable) {
            self.stand = Stand::Changing;
            self.active = Some(wish);
            self.opened = None;
            self.mandatory = false;
            Opening::Now
        } else {
            self.stand = Stand::Unstable;
            self.pending = Some(wish);
            Opening::Later
        }
    }

    // Drops the row's offer, and opens the row with it if the packet carries no Confirm of the row. Returns whether it
    // did.
    pub(crate) fn open_offer(&mut self, confirmed: bool) -> bool
        requires { self.old.stand ≡ Stable }
        ensures row { self.new ≡ (row_step self.old (Offers confirmed)).row }
        ensures opening { result ≡ is_opening (row_step self.old (Offers confirmed)).answer }
    {
        let offer = self.offer;
        self.offer = Offer::Nothing;
        if matches!(offer, Offer::Nothing) || confirmed {
            return false;
        }
        self.stand = Stand::Changing;
        self.opened = None;
        self.mandatory = matches!(offer, Offer::Mandatory);
        true
    }

    // A packet with the row's Change goes out.
    pub(crate) fn sent(&mut self, number: Seq48)
        ensures { self.new ≡ (row_step self.old (Sends number)).row }
    {
        match self.stand {
            Stand::Stable => {}
            Stand::Changing => {
                if self.opened.is_none() {
                    self.opened = Some(number);
                }
            }
            Stand::Unstable => {
                self.stand = Stand::Changing;
                self.active = self.pending;
                self.pending = None;
                self.opened = Some(number);
                self.mandatory = false;
            }
        }
    }
}
