//! What an end says about features on its packets (RFC 4340, section 6).
//!
//! The lengths show that all that is due fits into a packet. A vector takes at most 510 bytes, and 18 Changes take 12
//! each. There are at most 64 Confirms, of which only those for a known feature can take more than 3 bytes, at most one
//! for each of the 18 rows: 354 bytes. If each were counted as 12, they would not fit together with a vector.
ghost use Rattle.std.specs.Prelude.{◌≡◌, ◌+◌, ◌*◌, ◌<◌, ◌≤◌, ◌++◌, [], ◌∷◌, length, true, false, Some};
ghost use Rattle.arrayvec.specs.ArrayVec.{array_vec_len};
ghost use Rattle.dccp_options.specs.Written.{spelled, written};
ghost use Rattle.feature_lists.specs.Wishes.{is_wish};
ghost use Rattle.feature_machine.specs.Negotiating.{IsNegotiation, every_place, row_at};
ghost use Rattle.feature_machine.specs.Turns.{turned};
ghost use Rattle.feature_machine.specs.declared.stands.Stand.TheVariants.{Changing};
ghost use Rattle.dccp_endpoint.specs.Speaking.{AreChanging, AreDue, asking, change_item, change_items, change_type, confirm_item, confirm_items, confirm_type, is_confirmed, is_for, is_of_place, wish_bytes};
ghost use Rattle.dccp_endpoint.specs.Turns.{offerings, sendings};

use arrayvec::ArrayVec;
use dccp_options::kinds::{CHANGE_L, CHANGE_R, CONFIRM_L, CONFIRM_R, MANDATORY};
use dccp_packets::Frame;
use feature_lists::{Feature, Place, Wanted};
use feature_machine::{ConfirmOut, Negotiation, Stand, put_value};
use seq_circle::Seq48;
use std::marker::Model;

// All features at all places, by features, Here before There.
fn every_place() -> [(Feature, Place); 18]
    ensures { result ≡ every_place }
{
    [
        (Feature::Ccid, Place::Here),
        (Feature::Ccid, Place::There),
        (Feature::ShortSeqnos, Place::Here),
        (Feature::ShortSeqnos, Place::There),
        (Feature::SequenceWindow, Place::Here),
        (Feature::SequenceWindow, Place::There),
        (Feature::EcnIncapable, Place::Here),
        (Feature::EcnIncapable, Place::There),
        (Feature::AckRatio, Place::Here),
        (Feature::AckRatio, Place::There),
        (Feature::SendAckVector, Place::Here),
        (Feature::SendAckVector, Place::There),
        (Feature::SendNdpCount, Place::Here),
        (Feature::SendNdpCount, Place::There),
        (Feature::MinCsCov, Place::Here),
        (Feature::MinCsCov, Place::There),
        (Feature::CheckDataChecksum, Place::Here),
        (Feature::CheckDataChecksum, Place::There),
    ]
}

/// Rows by their features and places, at most eighteen.
#[derive(Drop)]
pub(crate) struct Keys {
    places: [(Feature, Place); 18],
    count: usize,
}

impl Model for Keys {
    ghost use Rattle.std.specs.Prelude.{List, ◌≤◌, take};
    ghost use Rattle.dccp_endpoint.specs.Turns.{Key};

    ghost Value = { List Key };

    ghost view = { λ k. take k.count k.places };

    ghost invariant = { λ k. k.count ≤ 18 };
}

impl Keys {
    fn none() -> Keys
        ensures { result ≡ [] }
    {
        Keys {
            places: every_place(),
            count: 0,
        }
    }

    fn push(&mut self, feature: Feature, place: Place)
        requires { length self.old < 18 }
        ensures { self.new ≡ self.old ++ (feature, place) ∷ [] }
    {
        self.places[self.count] = (feature, place);
        self.count += 1;
    }

    pub(crate) fn as_slice(&self) -> &[(Feature, Place)]
        ensures keys { result.now ≡ self.now }
        ensures few { length result.now ≤ 18 }
    {
        &self.places[..self.count]
    }
}

/// A Confirm that is due, in twelve bytes, since an end has room for 64. Contracts see its data as a list.
#[derive(Default, Drop)]
pub(crate) struct DueConfirm {
    left: bool,
    number: u8,
    count: u8,
    bytes: [u8; 9],
}

impl Model for DueConfirm {
    ghost use Rattle.std.specs.Prelude.{◌≤◌, take};
    ghost use Rattle.dccp_endpoint.specs.Heeding.{DueConfirm};

    ghost Value = { DueConfirm };

    ghost view = { λ c. record { left = c.left; number = c.number; body = take c.count c.bytes } };

    ghost invariant = { λ c. c.count ≤ 9 };
}

impl DueConfirm {
    ghost use Rattle.dccp_endpoint.specs.Heeding.{due_of};

    /// A Confirm that the rows answer.
    pub(crate) fn of(out: &ConfirmOut) -> DueConfirm
        ensures { result ≡ due_of out.now }
    {
        let body = out.body.as_slice();
        let mut bytes = [0; 9];
        bytes[..body.len()].copy_from_slice(body);
        DueConfirm {
            left: out.left,
            number: out.feature,
            count: body.len() as u8,
            bytes,
        }
    }
}

// Change L speaks of a feature here, Change R of one at the peer.
fn change_type(place: Place) -> u8
    ensures { result ≡ change_type place }
{
    match place {
        Place::Here => CHANGE_L,
        Place::There => CHANGE_R,
    }
}

fn confirm_type(left: bool) -> u8
    ensures { result ≡ confirm_type left }
{
    if left { CONFIRM_L } else { CONFIRM_R }
}

// Confirm L speaks of a feature here, Confirm R of one at the peer.
fn is_of_place(left: bool, place: Place) -> bool
    ensures { result ≡ is_of_place left place }
{
    left == (place == Place::Here)
}

// A Confirm is for the row.
fn is_for(feature: Feature, place: Place, confirm: &DueConfirm) -> bool
    ensures { result ≡ is_for (feature, place) confirm.now }
{
    confirm.number == feature.number() && is_of_place(confirm.left, place)
}

// One of the Confirms is for the row.
fn is_confirmed(confirms: &[DueConfirm], feature: Feature, place: Place) -> bool
    ensures { result ≡ is_confirmed confirms.now (feature, place) }
{
    for confirm in confirms {
        if is_for(feature, place, confirm) {
            return true;
        }
    }
    false
}

// Makes the offer of a row, unless the row asks already.
fn open_offer(rows: &mut Negotiation, feature: Feature, place: Place, confirmed: bool)
    ensures { rows.new ≡ turned rows.old (offerings (λ k. confirmed) ((feature, place) ∷ [])) }
{
    if matches!(rows.held(feature, place).stand, Stand::Stable) {
        rows.open_offer(feature, place, confirmed);
    }
}

/// Makes all offers that were not made yet; those of rows that have one of these Confirms are dropped.
pub(crate) fn open_offers(rows: &mut Negotiation, confirms: &[DueConfirm])
    ensures { rows.new ≡ turned rows.old (offerings (is_confirmed confirms.now) every_place) }
{
    let places = every_place();
    for (feature, place) in &places {
        let confirmed = is_confirmed(confirms, *feature, *place);
        open_offer(rows, *feature, *place, confirmed);
    }
}

/// The rows whose Change is due and that have none of these Confirms.
pub(crate) fn asking(rows: &Negotiation, confirms: &[DueConfirm]) -> Keys
    requires { IsNegotiation rows.now }
    ensures keys { result ≡ asking rows.now confirms.now }
    ensures due { AreDue rows.now result }
{
    let mut keys = Keys::none();
    for (feature, place) in rows.due() {
        if !is_confirmed(confirms, feature, place) {
            keys.push(feature, place);
        }
    }
    keys
}

/// The Changes of these rows go out under this number.
pub(crate) fn send_all(rows: &mut Negotiation, keys: &[(Feature, Place)], number: Seq48)
    requires sound { IsNegotiation rows.old }
    requires due { AreDue rows.old keys.now }
    ensures rows { rows.new ≡ turned rows.old (sendings number keys.now) }
    ensures changing { AreChanging rows.new keys.now }
{
    for (feature, place) in keys {
        rows.sent(*feature, *place, number);
    }
}

// Writes the bytes of a wish: the list, or the one value in as many bytes as the feature has.
fn put_wish(body: &mut ArrayVec<u8, 9>, feature: Feature, place: Place, wish: Wanted)
    requires wish { is_wish feature place wish ≡ true }
    requires room { array_vec_len body.old ≤ 1 }
    ensures { body.new.items ≡ body.old.items ++ wish_bytes feature (Some wish) }
{
    match wish {
        Wanted::List(list) => {
            let _ = body.try_extend_from_slice(list.bytes());
        }
        Wanted::Number(number) => put_value(body, feature, number),
    }
}

// The data of a row's Change: its feature's number, and the bytes of its active wish.
fn change_body(rows: &Negotiation, feature: Feature, place: Place) -> ArrayVec<u8, 9>
    ensures { result.items ≡ (change_item (feature, place) (row_at rows.now feature place)).body }
{
    let mut body = ArrayVec::new();
    body.push(feature.number());
    if let Some(wish) = rows.active(feature, place) {
        put_wish(&mut body, feature, place, wish);
    }
    body
}

/// Appends an option of a type from 32 on: a Mandatory before it if it is to be marked, its type, its length and its
/// data (RFC 4340, section 5.8).
pub(crate) fn put_option(frame: &mut Frame, mandatory: bool, kind: u8, body: &[u8])
    requires fits { length body.now ≤ 253 }
    requires room { length frame.old + length body.now + 3 ≤ 2044 }
    ensures bytes { frame.new ≡ frame.old ++ spelled mandatory kind body.now }
    ensures long { length frame.new ≡ length frame.old + length (spelled mandatory kind body.now) }
{
    if mandatory {
        frame.append(&[MANDATORY]);
    }
    frame.append(&[kind, (body.len() + 2) as u8]);
    frame.append(body);
}

// Writes the Change of a row that is in CHANGING.
fn put_change(frame: &mut Frame, rows: &Negotiation, feature: Feature, place: Place)
    requires room { length frame.old + 12 ≤ 2044 }
    requires changing { (row_at rows.now feature place).stand ≡ Changing }
    ensures bytes { frame.new ≡ frame.old ++ written (change_item (feature, place) (row_at rows.now feature place) ∷ []) }
    ensures short { length frame.new ≤ length frame.old + 12 }
{
    let body = change_body(rows, feature, place);
    let mandatory = rows.mandatory(feature, place);
    put_option(frame, mandatory, change_type(place), body.as_slice());
}

/// Writes the Changes of rows that are in CHANGING.
pub(crate) fn put_changes(frame: &mut Frame, rows: &Negotiation, keys: &[(Feature, Place)])
    requires room { length frame.old + 12 * length keys.now ≤ 2044 }
    requires changing { AreChanging rows.now keys.now }
    ensures bytes { frame.new ≡ frame.old ++ written (change_items rows.now keys.now) }
    ensures short { length frame.new ≤ length frame.old + 12 * length keys.now }
{
    for (feature, place) in keys {
        put_change(frame, rows, *feature, *place);
    }
}

fn put_confirm(frame: &mut Frame, confirm: &DueConfirm)
    requires room { length frame.old + length (written (confirm_item confirm.now ∷ [])) ≤ 2044 }
    ensures { frame.new ≡ frame.old ++ written (confirm_item confirm.now ∷ []) }
{
    let kind = confirm_type(confirm.left);
    frame.append(&[kind, confirm.count + 3, confirm.number]);
    frame.append(&confirm.bytes[..usize::from(confirm.count)]);
}

/// Writes Confirms.
pub(crate) fn put_confirms(frame: &mut Frame, confirms: &[DueConfirm])
    requires room { length frame.old + length (written (confirm_items confirms.now)) ≤ 2044 }
    ensures bytes { frame.new ≡ frame.old ++ written (confirm_items confirms.now) }
    ensures long { length frame.new ≡ length frame.old + length (written (confirm_items confirms.now)) }
{
    for confirm in confirms {
        put_confirm(frame, confirm);
    }
}
