//! The frames that an end sends, in which form of numbers, and what they say of features. One test, the value of Send
//! Ack Vector, decides on the Ack Vector of an Ack or DataAck and on its record, so neither is without the other.
ghost use Rattle.std.specs.Prelude.{◌≡◌, ◌≤◌, ◌+◌, ◌++◌, ◌||◌, ◌&&◌, ◌<◌, not, Some, None, true, false, if◌then◌else◌, length, map, take, drop};
ghost use Rattle.ack_vectors.specs.Vector.{option_data};
ghost use Rattle.dccp_options.specs.Written.{spelled, written};
ghost use Rattle.dccp_endpoint.specs.Reporting.{vector_item};
ghost use Rattle.dccp_endpoint.specs.Calling.{has_keys};
ghost use Rattle.dccp_endpoint.specs.ShortForm.{is_settled_on_one};
ghost use Rattle.dccp_endpoint.specs.Speaking.{has_confirms};

use super::classes::is_open;
use super::{Connection, fit};
use crate::outgoing::{begin_frame, end_frame, numbers, put_alone, put_frame};
use crate::speaking::{
    DueConfirm, asking, open_offers, put_changes, put_confirms, put_option, send_all,
};
use ack_vectors::{VectorBytes, Vectors};
use dccp_options::MOST_OPTION_BYTES;
use dccp_options::kinds::ACK_VECTOR_0;
use dccp_packets::{Frame, Kind, Number, Outbox};
use feature_lists::{Feature, Place};
use feature_machine::{Held, Stand};
use seq_circle::Seq48;

// The widest window under which short numbers go out, so that no valid number of a packet is far.
const WIDEST_SHORT: u64 = 4_194_304;

// Nothing is under way for the row, and its value is 1.
fn is_settled_on_one(held: &Held) -> bool
    ensures { result ≡ is_settled_on_one held.now }
{
    matches!(held.stand, Stand::Stable) && held.value == 1
}

// Writes a full option of an Ack Vector, and a second with what is left.
fn put_two(frame: &mut Frame, bytes: &[u8])
    requires long { 253 < length bytes.now }
    requires fits { length bytes.now ≤ 506 }
    requires room { length frame.old + 512 ≤ 2044 }
    ensures bytes { frame.new ≡ frame.old ++ (spelled false 38 (take 253 bytes.now) ++ spelled false 38 (drop 253 bytes.now)) }
    ensures short { length frame.new ≤ length frame.old + 510 }
{
    let (first, second) = bytes.split_at(MOST_OPTION_BYTES);
    put_option(frame, false, ACK_VECTOR_0, first);
    put_option(frame, false, ACK_VECTOR_0, second);
}

// Writes the options of an Ack Vector with these bytes: one if it has room for them, otherwise a full one and a second.
fn put_options(frame: &mut Frame, bytes: &[u8])
    requires fits { length bytes.now ≤ 506 }
    requires room { length frame.old + 512 ≤ 2044 }
    ensures bytes { frame.new ≡ frame.old ++ written (map vector_item (option_data bytes.now)) }
    ensures short { length frame.new ≤ length frame.old + 510 }
{
    if bytes.len() <= MOST_OPTION_BYTES {
        put_option(frame, false, ACK_VECTOR_0, bytes);
    } else {
        put_two(frame, bytes);
    }
}

impl Connection {
    ghost use Rattle.std.specs.Prelude.{◌+◌, ◌++◌, [], Ok, true, false, None, Some, if◌then◌else◌};
    ghost use Rattle.ack_vectors.specs.Vector.{is_whole_under};
    ghost use Rattle.ack_vectors.specs.declared.room.Vectors.TheVariants.{One};
    ghost use Rattle.dccp_options.specs.Written.{written};
    ghost use Rattle.run_list.specs.MarkedSet.{has};
    ghost use Rattle.dccp_endpoint.specs.Reporting.{acknowledged, recorded_by, reporting, sends_vectors, vector_items};
    ghost use Rattle.dccp_packets.specs.Forms.{may_be_short};
    ghost use Rattle.dccp_packets.specs.Grammar.{has_forms, packet_type};
    ghost use Rattle.dccp_endpoint.specs.Drafts.{alone, carrying};
    ghost use Rattle.dccp_endpoint.specs.ShortForm.{allows_short};
    ghost use Rattle.dccp_endpoint.specs.Calling.{sends_data};
    ghost use Rattle.dccp_packets.specs.declared.header.Kind.TheVariants as kind;
    ghost use Rattle.dccp_packets.specs.declared.header.Number.TheVariants.{Long};
    ghost use Rattle.dccp_endpoint.specs.Speaking.{HaveRoom, AreChanging, AreDue, asking, asking_frame, asks, confirming, offers, saying};
    ghost use Rattle.dccp_endpoint.specs.Steps.{next_frame, next_number, with_next_number};

    // Sends a packet without options and data under the next number; its type has only long numbers.
    pub(crate) fn send(&mut self, kind: Kind, out: &mut Outbox)
        requires { may_be_short (packet_type kind) ≡ false }
        ensures counted { self.new ≡ with_next_number self.old }
        ensures sent { out.new ≡ Some (next_frame self.old (alone kind)) }
    {
        let number = self.take_number();
        put_alone(&self.config, number, kind, out);
    }

    // Sends a packet with only Confirms under the next number.
    pub(crate) fn send_confirming(&mut self, kind: Kind, confirms: &[DueConfirm], out: &mut Outbox)
        requires form { may_be_short (packet_type kind) ≡ false }
        requires room { HaveRoom confirms.now }
        ensures counted { self.new ≡ with_next_number self.old }
        ensures sent { out.new ≡ Some (next_frame self.old (confirming kind confirms.now)) }
    {
        if confirms.is_empty() {
            return self.send(kind, out);
        }
        let number = self.take_number();
        let frame = out.begin(numbers(number, &kind));
        begin_frame(&self.config, number, false, &kind, frame);
        put_confirms(frame, confirms);
        end_frame(&self.config, &[], frame);
    }

    // Sends a packet that says all that is due: the Confirms, and the Changes of these rows, which are in CHANGING.
    fn send_saying(
        &mut self,
        kind: Kind,
        confirms: &[DueConfirm],
        keys: &[(Feature, Place)],
        out: &mut Outbox,
    )
        requires form { may_be_short (packet_type kind) ≡ false }
        requires room { HaveRoom confirms.now }
        requires rows { length keys.now ≤ 18 }
        requires changing { AreChanging self.old.rows keys.now }
        ensures counted { self.new ≡ with_next_number self.old }
        ensures sent { out.new ≡ Some (next_frame self.old (saying kind confirms.now self.old.rows keys.now)) }
    {
        if confirms.is_empty() && keys.is_empty() {
            return self.send(kind, out);
        }
        let number = self.take_number();
        let frame = out.begin(numbers(number, &kind));
        begin_frame(&self.config, number, false, &kind, frame);
        put_confirms(frame, confirms);
        put_changes(frame, &self.rows, keys);
        end_frame(&self.config, &[], frame);
    }

    // The end may send short numbers: in OPEN, where the feature is settled here, with windows that are not too wide.
    fn allows_short(&self) -> bool
        ensures { result ≡ allows_short self.now }
    {
        is_open(self.phase)
            && is_settled_on_one(&self.rows.held(Feature::ShortSeqnos, Place::Here))
            && self.marks.own_w <= WIDEST_SHORT
            && self.marks.peer_w <= WIDEST_SHORT
    }

    // Whether a packet goes out with short numbers, if all that it says of features is these Confirms and the Changes
    // of these rows.
    fn goes_short(&self, confirms: &[DueConfirm], keys: &[(Feature, Place)]) -> bool
        ensures { result ≡ (allows_short self.now && not (has_confirms confirms.now || has_keys keys.now)) }
    {
        self.allows_short() && confirms.is_empty() && keys.is_empty()
    }

    // Whether Ack Vectors go out.
    fn sends_vectors(&self) -> bool
        ensures { result ≡ sends_vectors self.now.rows }
    {
        self.rows.held(Feature::SendAckVector, Place::Here).value == 1
    }

    // Writes the Ack Vector of the greatest number received as one option; true if it holds all of it.
    fn put_one_vector(&self, frame: &mut Frame) -> bool
        requires one { self.now.config.vectors ≡ One }
        requires room { length frame.old + 510 ≤ 2044 }
        ensures bytes { frame.new ≡ frame.old ++ written (vector_items true self.now.config.vectors self.now.received.set self.now.marks.gsr) }
        ensures short { length frame.new ≤ length frame.old + 510 }
        ensures whole { result ≡ is_whole_under (has self.now.received.set.numbers) self.now.received.set.floor self.now.marks.gsr self.now.config.vectors }
    {
        self.received
            .append_option(frame.vector_mut(), self.marks.gsr)
    }

    // Writes it into as many options as it takes up; true if they hold all of it.
    fn put_vector(&self, frame: &mut Frame) -> bool
        requires room { length frame.old + 512 ≤ 2044 }
        ensures bytes { frame.new ≡ frame.old ++ written (vector_items true self.now.config.vectors self.now.received.set self.now.marks.gsr) }
        ensures short { length frame.new ≤ length frame.old + 510 }
        ensures whole { result ≡ is_whole_under (has self.now.received.set.numbers) self.now.received.set.floor self.now.marks.gsr self.now.config.vectors }
    {
        let mut bytes = VectorBytes::new();
        let whole = self
            .received
            .write(&mut bytes, self.marks.gsr, self.config.vectors);
        put_options(frame, bytes.as_slice());
        whole
    }

    // Writes the Ack Vector if one goes out, and then returns whether it is whole.
    fn report(&self, frame: &mut Frame) -> Option<bool>
        requires room { length frame.old + 512 ≤ 2044 }
        ensures bytes { frame.new ≡ frame.old ++ written (vector_items (sends_vectors self.now.rows) self.now.config.vectors self.now.received.set self.now.marks.gsr) }
        ensures short { length frame.new ≤ length frame.old + 510 }
        ensures whole { result ≡ (if sends_vectors self.now.rows then Some (is_whole_under (has self.now.received.set.numbers) self.now.received.set.floor self.now.marks.gsr self.now.config.vectors) else None) }
    {
        if !self.sends_vectors() {
            return None;
        }
        Some(match self.config.vectors {
            Vectors::One => self.put_one_vector(frame),
            Vectors::Two => self.put_vector(frame),
        })
    }

    // An Ack or a DataAck went out: its Ack Vector, if it had one, is recorded, and nothing is owed.
    fn record(&mut self, whole: Option<bool>)
        requires { whole ≡ (if sends_vectors self.old.rows then Some (is_whole_under (has self.old.received.set.numbers) self.old.received.set.floor self.old.marks.gsr self.old.config.vectors) else None) }
        ensures { self.new ≡ record self.old { received = recorded_by (sends_vectors self.old.rows) self.old.config.vectors self.old.received self.old.marks.gss self.old.marks.gsr; owed = false; unacked = 0 } }
    {
        if let Some(whole) = whole {
            self.received.sent(self.marks.gss, self.marks.gsr, whole);
        }
        self.owed = false;
        self.unacked = 0;
    }

    // Sends an Ack with its Ack Vector, then the Confirms. With these there is no room for the Changes of all rows.
    #[inline(never)]
    pub(crate) fn send_ack(&mut self, confirms: &[DueConfirm], out: &mut Outbox)
        requires { HaveRoom confirms.now }
        ensures counted { self.new ≡ acknowledged self.old }
        ensures sent { out.new ≡ Some (next_frame self.old (reporting self.old (saying (kind.Ack (Long self.old.marks.gsr)) confirms.now self.old.rows []))) }
    {
        let ack = Number::Long(self.marks.gsr);
        let kind = Kind::Ack { ack };
        let short = self.goes_short(confirms, &[]);
        let number = self.take_number();
        let frame = out.begin(numbers(number, &kind));
        begin_frame(&self.config, number, short, &kind, frame);
        let whole = self.report(frame);
        put_confirms(frame, confirms);
        end_frame(&self.config, &[], frame);
        self.record(whole);
    }

    // Sends an Ack with its Ack Vector, then the Changes of these rows, which are in CHANGING.
    pub(crate) fn send_ack_asking(&mut self, keys: &[(Feature, Place)], out: &mut Outbox)
        requires rows { length keys.now ≤ 18 }
        requires changing { AreChanging self.old.rows keys.now }
        ensures counted { self.new ≡ acknowledged self.old }
        ensures sent { out.new ≡ Some (next_frame self.old (reporting self.old (saying (kind.Ack (Long self.old.marks.gsr)) [] self.old.rows keys.now))) }
    {
        let ack = Number::Long(self.marks.gsr);
        let kind = Kind::Ack { ack };
        let short = self.goes_short(&[], keys);
        let number = self.take_number();
        let frame = out.begin(numbers(number, &kind));
        begin_frame(&self.config, number, short, &kind, frame);
        let whole = self.report(frame);
        put_changes(frame, &self.rows, keys);
        end_frame(&self.config, &[], frame);
        self.record(whole);
    }

    // Sends a DataAck, which has no options except its Ack Vector.
    pub(crate) fn send_data_ack(&mut self, payload: &[u8], out: &mut Outbox)
        requires { length payload.now ≤ 1024 }
        ensures counted { self.new ≡ acknowledged self.old }
        ensures sent { out.new ≡ Some (next_frame self.old (reporting self.old (carrying (kind.DataAck (Long self.old.marks.gsr)) payload.now))) }
    {
        let ack = Number::Long(self.marks.gsr);
        let kind = Kind::DataAck { ack };
        let short = self.allows_short();
        let number = self.take_number();
        let frame = out.begin(numbers(number, &kind));
        begin_frame(&self.config, number, short, &kind, frame);
        let whole = self.report(frame);
        end_frame(&self.config, payload, frame);
        self.record(whole);
    }

    // Sends a Data, which has no options.
    #[tactic(auto, using(crate::proofs::Short::short_data))]
    fn send_plain_data(&mut self, payload: &[u8], out: &mut Outbox)
        requires { length payload.now ≤ 1024 }
        ensures counted { self.new ≡ with_next_number self.old }
        ensures sent { out.new ≡ Some (next_frame self.old (carrying kind.Data payload.now)) }
    {
        let short = self.allows_short();
        let number = self.take_number();
        put_frame(&self.config, number, short, Kind::Data, payload, out);
    }

    /// Sends data, and returns the number of their packet: a DataAck if an acknowledgement is owed, else a Data.
    pub(crate) fn send_data(&mut self, payload: &[u8], out: &mut Outbox) -> Seq48
        requires { length payload.now ≤ 1024 }
        ensures step { record { after = self.new; frame = out.new; calls = []; answer = Ok (tt {0}) } ≡ sends_data self.old payload.now self.old.owed }
        ensures number { result ≡ next_number self.old }
    {
        if self.owed {
            self.send_data_ack(payload, out);
        } else {
            self.send_plain_data(payload, out);
        }
        self.marks.gss
    }

    // These rows' Changes go out on the next packet.
    pub(crate) fn ask(&mut self, keys: &[(Feature, Place)])
        requires { AreDue self.old.rows keys.now }
        ensures asks { self.new ≡ asks self.old keys.now }
        ensures changing { AreChanging self.new.rows keys.now }
    {
        send_all(&mut self.rows, keys, self.marks.gss.next());
        fit(&mut self.marks, &self.rows);
    }

    // Sends a packet with the Changes of these rows, which ask, and with these Confirms.
    pub(crate) fn send_asking(
        &mut self,
        kind: Kind,
        confirms: &[DueConfirm],
        keys: &[(Feature, Place)],
        out: &mut Outbox,
    )
        requires form { may_be_short (packet_type kind) ≡ false }
        requires room { HaveRoom confirms.now }
        requires rows { length keys.now ≤ 18 }
        requires due { AreDue self.old.rows keys.now }
        ensures counted { self.new ≡ with_next_number (asks self.old keys.now) }
        ensures sent { out.new ≡ Some (asking_frame self.old kind confirms.now keys.now) }
    {
        self.ask(keys);
        self.send_saying(kind, confirms, keys, out);
    }

    // Makes all offers that were not made yet; those of rows that have a Confirm on the packet are dropped.
    fn offer(&mut self, confirms: &[DueConfirm])
        ensures { self.new ≡ offers self.old confirms.now }
    {
        open_offers(&mut self.rows, confirms);
        fit(&mut self.marks, &self.rows);
    }

    // Makes all offers, and then sends a packet with these Confirms, and with the Changes of all rows that ask and have
    // no Confirm in it.
    pub(crate) fn send_offering(&mut self, kind: Kind, confirms: &[DueConfirm], out: &mut Outbox)
        requires form { may_be_short (packet_type kind) ≡ false }
        requires room { HaveRoom confirms.now }
        ensures counted { self.new ≡ with_next_number (asks (offers self.old confirms.now) (asking (offers self.old confirms.now).rows confirms.now)) }
        ensures sent { out.new ≡ Some (asking_frame (offers self.old confirms.now) kind confirms.now
            (asking (offers self.old confirms.now).rows confirms.now)) }
    {
        // As is usual: no offer is left and no row asks.
        if self.rows().is_quiet() {
            return self.send_confirming(kind, confirms, out);
        }
        self.offer(confirms);
        let keys = asking(self.rows(), confirms);
        self.send_asking(kind, confirms, keys.as_slice(), out);
    }

    // The next number, which is then the greatest sent.
    pub(crate) fn take_number(&mut self) -> Seq48
        ensures counted { self.new ≡ with_next_number self.old }
        ensures number { result ≡ next_number self.old }
    {
        let number = self.marks.gss.next();
        self.marks.gss = number;
        number
    }
}
