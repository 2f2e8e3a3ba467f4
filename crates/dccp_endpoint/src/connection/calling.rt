//! The calls and timers of an end (RFC 4340, sections 8.1 to 8.3). Each call empties the Outbox first.
ghost use Rattle.std.specs.Prelude.{◌≡◌};
ghost use Rattle.dccp_endpoint.specs.Calling.{applies_in};

use super::classes::{is_connected, is_open};
use super::{Connection, fit};
use crate::speaking::asking;
use crate::{AbortFault, CloseFault, OpenFault, SendFault, Timer};
use dccp_packets::{Kind, Outbox, ResetCode};
use dccp_states::{Phase, Role};
use feature_lists::{Feature, Place, PreferFault, Wanted, wish};
use feature_machine::Opening;

/// Whether a timer has something to do in a phase: Request in REQUEST; Ack and Negotiate in PARTOPEN and OPEN; Rto in
/// OPEN; Close in CLOSEREQ and CLOSING; TimeWait in TIMEWAIT. Negotiate also needs a row that asks, and Rto something
/// in flight (RFC 4340, sections 8.1.1, 8.1.5, 6.6.3 and 8.3; RFC 4341, section 5).
pub fn applies_in(timer: Timer, phase: Phase) -> bool
    ensures { result ≡ applies_in timer phase }
{
    match timer {
        Timer::Request => matches!(phase, Phase::Request),
        Timer::Ack | Timer::Negotiate => is_connected(phase),
        Timer::Rto => is_open(phase),
        Timer::Close => matches!(phase, Phase::CloseReq | Phase::Closing),
        Timer::TimeWait => matches!(phase, Phase::TimeWait),
    }
}

/// The most bytes of data of a packet (own).
pub const MOST_DATA_BYTES: usize = 1024;

impl Connection {
    ghost use Rattle.std.specs.Prelude.{◌≡◌, ◌≢◌, ◌↔◌, ◌⊎◌, ◌≤◌, ◌<◌, Bool, [], None, Ok, Err, OnErr, true, false, length};
    ghost use Rattle.dccp_states.specs.declared.phase.Role.TheVariants as role;
    ghost use Rattle.dccp_endpoint.specs.Calling.{aborts, aborts_now, asks_all, asks_now, closes, closes_now, closing_again, fault_where, fires};
    ghost use Rattle.dccp_endpoint.specs.Calling.{is_asking_now, lacks_vectors, opens, opens_as, preferring, prefers, prefers_wish, requests, send_fault};
    ghost use Rattle.dccp_endpoint.specs.End.{is_connected};
    ghost use Rattle.dccp_endpoint.specs.Speaking.{AreDue};
    ghost use Rattle.feature_lists.specs.Wishes.{is_wish, wish_of};
    ghost use Rattle.feature_lists.specs.declared.wishes.PreferFault.TheVariants as prefer;
    ghost use Rattle.feature_machine.specs.Negotiating.{IsNegotiation, due_keys};
    ghost use Rattle.dccp_endpoint.specs.Drafts.{alone};
    ghost use Rattle.dccp_packets.specs.declared.header.Kind.TheVariants as kind;
    ghost use Rattle.dccp_packets.specs.declared.header.Number.TheVariants.{Long};
    ghost use Rattle.dccp_endpoint.specs.Reporting.{sends_ack};
    ghost use Rattle.dccp_endpoint.specs.Steps.{sends};

    /// The client sends its Request.
    #[tactic(auto, unfolding(crate::specs::Calling::opens))]
    pub(crate) fn open(&mut self, out: &mut Outbox) -> Result<(), OpenFault>
        ensures step { record { after = self.new; frame = out.new; calls = []; answer = result } ≡ opens self.old }
        ensures not_fresh { (result ≡ Err OpenFault.NotFresh) ↔ ((self.old.config.role ≡ Role.Server) ⊎ (self.old.opened ≡ true)) }
        ensures refused { OnErr result (self.new ≡ self.old) }
        ensures sends_nothing { OnErr result (out.new ≡ None) }
    {
        out.clear();
        match (self.config.role, self.opened) {
            (Role::Client, false) => {
                self.request(out);
                Ok(())
            }
            (Role::Client, true) | (Role::Server, _) => Err(OpenFault::NotFresh),
        }
    }

    fn request(&mut self, out: &mut Outbox)
        requires { self.old.config.role ≡ Role.Client }
        ensures { record { after = self.new; frame = out.new; calls = []; answer = Ok (tt {0}) } ≡ opens_as self.old role.Client false }
    {
        self.opened = true;
        self.phase = Phase::Request;
        self.send_request(out);
    }

    // A Request opens the offered rows, and carries the Changes of these and of all others that ask.
    fn send_request(&mut self, out: &mut Outbox)
        ensures after { self.new ≡ (requests self.old (tt {0})).after }
        ensures frame { out.new ≡ (requests self.old (tt {0})).frame }
    {
        let service = self.config.service;
        self.send_offering(Kind::Request { service }, &[], out);
    }

    /// Ends the connection in order.
    #[tactic(auto, unfolding(crate::specs::Calling::closes))]
    pub(crate) fn close(&mut self, out: &mut Outbox) -> Result<(), CloseFault>
        ensures step { record { after = self.new; frame = out.new; calls = []; answer = result } ≡ closes self.old }
        ensures not_open { (result ≡ Err CloseFault.NotOpen) ↔ ((self.old.phase ≢ Phase.PartOpen) × (self.old.phase ≢ Phase.Open)) }
        ensures refused { OnErr result (self.new ≡ self.old) }
        ensures sends_nothing { OnErr result (out.new ≡ None) }
    {
        out.clear();
        if !is_connected(self.phase) {
            return Err(CloseFault::NotOpen);
        }
        self.begin_closing(out);
        Ok(())
    }

    fn begin_closing(&mut self, out: &mut Outbox)
        ensures { record { after = self.new; frame = out.new; calls = []; answer = Ok (tt {0}) } ≡ closes_now self.old self.old.config.role }
    {
        let ack = self.marks.gsr;
        match self.config.role {
            Role::Client => {
                self.phase = Phase::Closing;
                self.send(Kind::Close { ack }, out);
            }
            Role::Server => {
                self.phase = Phase::CloseReq;
                self.send(Kind::CloseReq { ack }, out);
            }
        }
    }

    /// Ends the connection at once.
    #[tactic(auto, unfolding(crate::specs::Calling::aborts))]
    pub(crate) fn abort(&mut self, out: &mut Outbox) -> Result<(), AbortFault>
        ensures step { record { after = self.new; frame = out.new; calls = []; answer = result } ≡ aborts self.old }
        ensures not_live { (result ≡ Err AbortFault.NotLive) ↔ ((self.old.phase ≡ Phase.Closed) ⊎ (self.old.phase ≡ Phase.Listen) ⊎ (self.old.phase ≡ Phase.TimeWait)) }
        ensures refused { OnErr result (self.new ≡ self.old) }
        ensures sends_nothing { OnErr result (out.new ≡ None) }
    {
        out.clear();
        match self.phase {
            Phase::Closed | Phase::Listen | Phase::TimeWait => Err(AbortFault::NotLive),
            Phase::Request => {
                self.phase = Phase::Closed;
                Ok(())
            }
            Phase::Respond | Phase::PartOpen | Phase::Open | Phase::CloseReq | Phase::Closing => {
                self.send_abort(out);
                Ok(())
            }
        }
    }

    fn send_abort(&mut self, out: &mut Outbox)
        ensures { record { after = self.new; frame = out.new; calls = []; answer = Ok (tt {0}) } ≡ aborts_now self.old }
    {
        self.phase = Phase::Closed;
        let ack = self.marks.gsr;
        let code = ResetCode::Aborted.number();
        let detail = [0, 0, 0];
        self.send(Kind::Reset { ack, code, detail }, out);
    }

    /// The end wants these values for a feature at a place.
    #[tactic(auto, unfolding(crate::specs::Calling::prefers))]
    pub(crate) fn prefer(
        &mut self,
        feature: Feature,
        place: Place,
        values: &[u64],
        out: &mut Outbox,
    ) -> Result<(), PreferFault>
        ensures step { record { after = self.new; frame = out.new; calls = []; answer = result } ≡ prefers self.old (feature, place) values.now }
        ensures not_open { (result ≡ Err PreferFault.NotOpen) ↔ ((self.old.phase ≢ Phase.PartOpen) × (self.old.phase ≢ Phase.Open)) }
        ensures bad_list { (result ≡ Err PreferFault.BadList) ↔ ((is_connected self.old.phase ≡ true) × (wish_of feature place values.now ≡ Err prefer.BadList)) }
        ensures not_ours { (result ≡ Err PreferFault.NotOurs) ↔ ((is_connected self.old.phase ≡ true) × (wish_of feature place values.now ≡ Err prefer.NotOurs)) }
        ensures refused { OnErr result (self.new ≡ self.old) }
        ensures sends_nothing { OnErr result (out.new ≡ None) }
    {
        out.clear();
        if !is_connected(self.phase) {
            return Err(PreferFault::NotOpen);
        }
        let wish = wish(feature, place, values)?;
        self.prefer_wish(feature, place, wish, out);
        Ok(())
    }

    fn prefer_wish(&mut self, feature: Feature, place: Place, wish: Wanted, out: &mut Outbox)
        requires empty { out.old ≡ None }
        requires wish { is_wish feature place wish ≡ true }
        ensures { record { after = self.new; frame = out.new; calls = []; answer = Ok (tt {0}) } ≡ prefers_wish self.old (feature, place) (Ok wish) }
    {
        if self.want(feature, place, wish) {
            self.ask_now(&[(feature, place)], out);
        }
    }

    // The row has this wish from now on, and the windows stay as wide as the rows say. Returns whether the row asks at
    // once.
    fn want(&mut self, feature: Feature, place: Place, wish: Wanted) -> bool
        requires { is_wish feature place wish ≡ true }
        ensures wish { self.new ≡ preferring self.old (feature, place) wish }
        ensures asks { result ≡ is_asking_now self.old (feature, place) wish }
        ensures sound { IsNegotiation self.old.rows }
    {
        let opening = self.rows.prefer(feature, place, wish);
        fit(&mut self.marks, &self.rows);
        matches!(opening, Opening::Now)
    }

    // An Ack with the Changes of these rows, which ask.
    fn ask_now(&mut self, keys: &[(Feature, Place)], out: &mut Outbox)
        requires rows { length keys.now ≤ 18 }
        requires due { AreDue self.old.rows keys.now }
        ensures after { self.new ≡ (asks_now self.old keys.now (tt {0})).after }
        ensures frame { out.new ≡ (asks_now self.old keys.now (tt {0})).frame }
    {
        self.ask(keys);
        self.send_ack_asking(keys, out);
    }

    /// A timer has run out, other than that of the congestion control. True exactly if it has something to do in this
    /// phase.
    #[tactic(auto, unfolding(crate::specs::Calling::fires))]
    pub(crate) fn timer(&mut self, timer: Timer, out: &mut Outbox) -> bool
        requires { timer ≢ Timer.Rto }
        ensures { (in_flight : Bool)
            → record { after = self.new; frame = out.new; calls = []; answer = result } ≡ fires self.old timer in_flight }
    {
        out.clear();
        if !applies_in(timer, self.phase) {
            return false;
        }
        match timer {
            Timer::Request => {
                self.send_request(out);
                true
            }
            Timer::Ack => {
                self.acknowledge_now(out);
                true
            }
            Timer::Negotiate => self.ask_all(out),
            Timer::Close => self.close_again(out),
            Timer::TimeWait => {
                self.phase = Phase::Closed;
                true
            }
            Timer::Rto => unreachable!(),
        }
    }

    /// Why data are not sent, or None if they are.
    pub(crate) fn send_fault(&self, payload: &[u8], may_send: bool) -> Option<SendFault>
        ensures { result ≡ send_fault self.now payload.now may_send }
    {
        self.fault_where(is_open(self.phase), payload, may_send)
    }

    // Why data are not sent, or None if they are, by whether they may go in this phase.
    pub(crate) fn fault_where(
        &self,
        fits_phase: bool,
        payload: &[u8],
        may_send: bool,
    ) -> Option<SendFault>
        ensures { result ≡ fault_where fits_phase self.now.rows payload.now may_send }
    {
        if !fits_phase {
            Some(SendFault::NotOpen)
        } else if MOST_DATA_BYTES < payload.len() {
            Some(SendFault::TooLong)
        } else if self.lacks_vectors() {
            Some(SendFault::NotNegotiated)
        } else if !may_send {
            Some(SendFault::WindowFull)
        } else {
            None
        }
    }

    // CCID 2 needs the Ack Vectors of the peer.
    fn lacks_vectors(&self) -> bool
        ensures { result ≡ lacks_vectors self.now.rows }
    {
        self.rows.held(Feature::Ccid, Place::Here).value == 2
            && self.rows.held(Feature::SendAckVector, Place::There).value != 1
    }

    // Sends an Ack, whether or not one is owed.
    fn acknowledge_now(&mut self, out: &mut Outbox)
        ensures { record { after = self.new; frame = out.new; calls = []; answer = true } ≡ sends_ack self.old (alone (kind.Ack (Long self.old.marks.gsr))) true }
    {
        self.send_ack(&[], out);
    }

    // The Changes of all rows that ask go out again.
    #[tactic(auto, using(crate::proofs::Asking::unconfirmed_all))]
    fn ask_all(&mut self, out: &mut Outbox) -> bool
        requires { out.old ≡ None }
        ensures { record { after = self.new; frame = out.new; calls = []; answer = result } ≡ asks_all self.old (due_keys self.old.rows) }
    {
        let keys = asking(self.rows(), &[]);
        let keys = keys.as_slice();
        if keys.is_empty() {
            return false;
        }
        self.ask_now(keys, out);
        true
    }

    // The CloseReq or the Close goes out again.
    fn close_again(&mut self, out: &mut Outbox) -> bool
        ensures { record { after = self.new; frame = out.new; calls = []; answer = result }
            ≡ sends self.old (alone (closing_again self.old.phase self.old.marks.gsr)) true }
    {
        let ack = self.marks.gsr;
        if matches!(self.phase, Phase::CloseReq) {
            self.send(Kind::CloseReq { ack }, out);
        } else {
            self.send(Kind::Close { ack }, out);
        }
        true
    }
}
