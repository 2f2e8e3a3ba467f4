//! What is known of the application that reads an end's data, and what that leaves of the window.
ghost use Rattle.std.specs.Prelude.{◌≡◌, ℕ, Option, true};
ghost use Rattle.path_rules.specs.declared.round_trip.RoundTrip.{RoundTrip};
ghost use Rattle.dccp_uses.specs.Reader.{asks_slower, counted_after, counted_up_to, halved_if_any, is_used_up, is_held, narrows, opened_if_any, reader_begins, reader_congested, reader_heard, reader_moved, reader_opened, reader_slowed, reader_timed_out, reader_told, restraint_of, shrunk_if_any};

use crate::{Notice, Sight, TimedPacket};
use dccp_endpoint::{SendFault, Seq48};
use path_rules::{
    Allowance, RoundTrip, allowed_after_acks, allowed_after_congestion, allowed_after_drops,
    allowed_after_timeout, is_within_round_trip,
};

/// What is known of the application that reads an end's data (RFC 4340, sections 11.6 and 11.7; RFC 4341, section 5.2).
#[derive(Clone, Copy)]
pub struct Reader {
    /// The number up to which reports of drops were counted. A packet that the peer takes after a later one was
    /// reported is not counted (own).
    pub counted: Option<Seq48>,
    /// What its reports leave of the window.
    pub allowance: Option<Allowance>,
    /// GSS when the sender last had to go slower: for a round trip it goes no faster.
    pub hold: Option<TimedPacket>,
    /// GSS when the window was last halved: packets sent by then do not halve it again.
    pub mark: Option<Seq48>,
    /// Data were dropped because of the protocol: Drop Code 0.
    pub refused: bool,
    /// No application listens any more: Drop Code 1.
    pub stopped: bool,
}

/// Why data have to wait for the application that reads them.
#[derive(Clone, Copy, Debug, PartialEq, Eq)]
pub enum Restraint {
    /// It no longer listens: no further data will reach it (RFC 4340, section 11.7.2).
    NotListening,
    /// As many packets are in flight as its reports allow.
    Full,
}

/// Why data were not sent.
#[derive(Clone, Copy, Debug, PartialEq, Eq)]
pub enum SendRefusal {
    /// They have to wait for the application that reads them.
    Held(Restraint),
    /// The end has refused them.
    Refused(SendFault),
}

fn counted_up_to(counted: Option<Seq48>, ack: Seq48) -> Seq48
    ensures { result ≡ counted_up_to counted ack }
{
    match counted {
        Some(counted) => counted.max_of(ack),
        None => ack,
    }
}

fn counted_after(counted: Option<Seq48>, ack: Option<Seq48>) -> Option<Seq48>
    ensures { result ≡ counted_after counted ack }
{
    match ack {
        Some(ack) => Some(counted_up_to(counted, ack)),
        None => counted,
    }
}

fn asks_slower(notice: &Notice) -> bool
    ensures { result ≡ asks_slower notice.now }
{
    notice.slow || 0 < notice.drops.full
}

fn narrows(old: &Sight, new: &Sight) -> bool
    ensures { result ≡ narrows old.now new.now }
{
    new.window < old.window
}

fn halved_if_any(allowance: Option<Allowance>, window: u32) -> Option<Allowance>
    ensures { result ≡ halved_if_any allowance window }
{
    match allowance {
        Some(it) => Some(allowed_after_congestion(Some(it), window)),
        None => None,
    }
}

fn is_held(trip: Option<RoundTrip>, hold: Option<TimedPacket>, gar: Seq48, now: u64) -> bool
    ensures { result ≡ is_held trip hold gar now }
{
    match hold {
        Some(hold) => {
            is_within_round_trip(trip, now.saturating_sub(hold.at), gar.is_from(hold.number))
        }
        None => false,
    }
}

fn opened_if_any(allowance: Option<Allowance>, window: u32, acked: u32) -> Option<Allowance>
    ensures { result ≡ opened_if_any allowance window acked }
{
    match allowance {
        Some(it) => Some(allowed_after_acks(&it, window, acked)),
        None => None,
    }
}

impl Reader {
    /// Nothing is known of it.
    pub fn begins() -> Reader
        ensures { result ≡ reader_begins }
    {
        Reader {
            counted: None,
            allowance: None,
            hold: None,
            mark: None,
            refused: false,
            stopped: false,
        }
    }
}

fn shrunk_if_any(allowance: Option<Allowance>) -> Option<Allowance>
    ensures { result ≡ shrunk_if_any allowance }
{
    match allowance {
        Some(it) => Some(allowed_after_timeout(&it)),
        None => None,
    }
}

impl Reader {
    fn note_congestion(&mut self, notice: &Notice, old: &Sight, new: &Sight)
        ensures { self.new ≡ reader_congested self.old notice.now old.now new.now }
    {
        if narrows(old, new) {
            self.allowance = halved_if_any(self.allowance, old.window);
            self.mark = Some(new.gss);
        } else if notice.drops.marked {
            self.allowance = Some(allowed_after_congestion(self.allowance, old.window));
            self.mark = Some(new.gss);
        }
    }

    fn slow_down(&mut self, notice: &Notice, old: &Sight, new: &Sight, now: u64)
        ensures { self.new ≡ reader_slowed self.old notice.now old.now new.now now }
    {
        let allowance = allowed_after_drops(self.allowance, old.window, notice.drops.full);
        self.allowance = Some(allowance);
        self.hold = Some(TimedPacket {
            number: new.gss,
            at: now,
        });
    }

    fn open_up(&mut self, still: bool, old: &Sight, new: &Sight)
        ensures { self.new ≡ reader_opened self.old still old.now new.now }
    {
        if !still {
            let acked = old.in_flight.saturating_sub(new.in_flight);
            self.allowance = opened_if_any(self.allowance, new.window, acked);
        }
    }

    fn move_allowance(
        &mut self,
        trip: Option<RoundTrip>,
        notice: &Notice,
        old: &Sight,
        new: &Sight,
        now: u64,
    )
        ensures { self.new ≡ reader_moved trip self.old notice.now old.now new.now now }
    {
        let held = is_held(trip, self.hold, new.gar, now);
        self.note_congestion(notice, old, new);
        if asks_slower(notice) {
            self.slow_down(notice, old, new, now);
        } else {
            self.open_up(narrows(old, new) || notice.drops.marked || held, old, new);
        }
    }

    fn note_told(&mut self, notice: &Notice)
        ensures { self.new ≡ reader_told self.old notice.now }
    {
        self.counted = counted_after(self.counted, notice.ack);
        self.refused = self.refused || notice.drops.refused;
        self.stopped = self.stopped || notice.drops.stopped;
    }

    // Whether a packet with this notice leaves all as it is, as most do: it says nothing, the window is no narrower, and
    // no allowance may open.
    fn stays(&self, notice: &Notice, old: &Sight, new: &Sight) -> bool
        ensures { result ≡ true → (trip : Option RoundTrip) (now : ℕ) → reader_heard trip self.now notice.now old.now new.now now ≡ self.now }
    {
        self.allowance.is_none() && !narrows(old, new) && *notice == Notice::none()
    }

    /// A packet with this notice was taken at `now` (RFC 4340, sections 11.6, 11.7.1 and 11.7.2; RFC 4341, section
    /// 5.2). `trip` is the measured round trip; `old` and `new` are what the rules saw of the end before and after the
    /// packet.
    pub fn hear(
        &mut self,
        trip: Option<RoundTrip>,
        notice: &Notice,
        old: &Sight,
        new: &Sight,
        now: u64,
    )
        ensures { self.new ≡ reader_heard trip self.old notice.now old.now new.now now }
    {
        if self.stays(notice, old, new) {
            return;
        }
        self.move_allowance(trip, notice, old, new, now);
        self.note_told(notice);
    }

    /// After a timeout, at this GSS (RFC 4341, section 5).
    pub fn time_out(&mut self, gss: Seq48)
        ensures { self.new ≡ reader_timed_out self.old gss }
    {
        self.allowance = shrunk_if_any(self.allowance);
        self.mark = Some(gss);
    }
}

fn is_used_up(allowance: Option<Allowance>, in_flight: u32) -> bool
    ensures { result ≡ is_used_up allowance in_flight }
{
    match allowance {
        Some(it) => it.most <= in_flight,
        None => false,
    }
}

/// Why data have to wait while `in_flight` packets are in flight, or None if they need not (RFC 4340, section 11.7.2;
/// own).
pub fn restraint_of(reader: &Reader, in_flight: u32) -> Option<Restraint>
    ensures { result ≡ restraint_of reader.now in_flight }
{
    if reader.stopped {
        return Some(Restraint::NotListening);
    }
    if is_used_up(reader.allowance, in_flight) {
        return Some(Restraint::Full);
    }
    None
}
