//! The eighteen rows of an end.
ghost use Rattle.std.specs.Prelude.{◌≡◌, ◌≢◌, ◌↔◌, ◌⊎◌, ◌<◌, ◌≤◌, ◌+◌, ℕ, Bool, true, false, [], IsNone, IfSome, length};
ghost use Rattle.feature_lists.specs.Features.{described, feature_number};
ghost use Rattle.feature_lists.specs.Wishes.{IsNotOurs, is_wish};
ghost use Rattle.feature_lists.specs.declared.features.Feature.{Feature};
ghost use Rattle.feature_lists.specs.declared.features.Place.{Place};
ghost use Rattle.feature_machine.specs.Answers.{reply_of, shown, answered, Ignoring, Failing, settling_of, opening_of, is_opening};
ghost use Rattle.feature_machine.specs.Lists.{index_of};
ghost use Rattle.feature_machine.specs.Negotiating.{AreRowsOf, IsDue, IsNegotiation, RestStays, are_quiet, changes, confirmed, due_keys, first_rows, held_by, is_due, is_next_mandatory, loud_of, loud_rows, place_of, put, row_at, stepped};
ghost use Rattle.feature_machine.specs.Rows.{Change, Confirm, Prefers, Offers, Sends};
ghost use Rattle.feature_machine.specs.Sound.{IsRowOf, IsRefusal};
ghost use Rattle.feature_machine.specs.declared.stands.Stand.TheVariants.{Stable};
ghost use Rattle.feature_machine.specs.declared.answers.Settling.TheVariants.{Fatal, Ignored, Settled};

use crate::due::DueRows;
use crate::offers::{Offer, RowSetup};
use crate::row::{Row, RowReply};
use crate::{Answer, ConfirmOut, Held, Lists, Opening, Role2, Settling, Stand};
use arrayvec::ArrayVec;
use feature_lists::{Feature, Place, Wanted};
use seq_circle::Seq48;
use std::marker::Model;

/// The negotiation of all features at one end: a row for each feature at each place. Contracts see the rows in the
/// order of the features, Here before There.
///
/// `held`, `active`, `mandatory` and `due` read; `on_change` and `on_confirm` take the options of a newest packet, one
/// whose number is after all that were taken before. Hand in no options of older packets: they would bring back values
/// that both ends have left. `prefer` and `open_offer` open a row, whose Change is then due, and `sent` notes that it
/// went out. Each call changes only the row that it names.
///
/// A Confirm that `on_change` answers has to go out in the same step, in a packet that acknowledges that of the Change:
/// otherwise the end would hold a value that none of its packets has stated. To write a Change, first call `sent` with
/// the number of its packet, and then take the list or value from `active` and Mandatory from `mandatory`: before
/// `sent` an UNSTABLE row still has its old list there.
#[derive(Clone, Copy)]
pub struct Negotiation {
    rows: [Row; 18],
    // How many of them have something to say by themselves: mostly none, which is asked for each Response.
    loud: u8,
}

impl Model for Negotiation {
    ghost use Rattle.std.specs.Prelude.{List};
    ghost use Rattle.feature_machine.specs.declared.row.Row.{Row};

    ghost Value = { List Row };

    ghost use Rattle.std.specs.Prelude.{◌≡◌};
    ghost use Rattle.feature_machine.specs.Counted.{counted_again};
    ghost use Rattle.feature_machine.specs.Negotiating.{IsNegotiation, loud_rows};

    ghost view = { λ n. n.rows };

    ghost invariant = { λ n. IsNegotiation n.rows × (n.loud ≡ loud_rows n.rows) };

    ghost inverse = { λ rows. record { rows = rows; loud = loud_rows rows } };

    ghost inverse_ok = { counted_again };
}

// The place of a row among the eighteen.
pub(crate) fn index_of(feature: Feature, place: Place) -> usize
    ensures value { result ≡ index_of feature place }
    ensures fits { result < 18 }
{
    let here = 2 * (usize::from(feature.number()) - 1);
    match place {
        Place::Here => here,
        Place::There => here + 1,
    }
}

// Change L and Confirm L speak of a feature at the peer.
fn place_of(left: bool) -> Place
    ensures { result ≡ place_of left }
{
    if left { Place::There } else { Place::Here }
}

// Fills each row with its feature's initial value and what is listed for it.
fn fill(rows: &mut [Row], role: Role2, listed: &[RowSetup])
    requires { length rows.old ≡ length listed.now }
    ensures { rows.new ≡ first_rows role listed.now }
{
    for (index, one) in listed.iter().enumerate() {
        rows[index] = Row::first(role, one);
    }
}

// 1 for a row that has something to say by itself, and else 0.
fn loud_of(row: &Row) -> u8
    ensures { result ≡ loud_of row.now }
{
    if row.is_quiet() { 0 } else { 1 }
}

// How many of the rows have something to say by themselves.
fn loud_rows(rows: &[Row]) -> u8
    requires { length rows.now ≤ 18 }
    ensures { result ≡ loud_rows rows.now }
{
    let mut loud = 0;
    for row in rows {
        loud += loud_of(row);
    }
    loud
}

// How many have, of `loud` rows, once one of all rows is another.
fn loud_after(loud: u8, old: &Row, new: &Row) -> u8
    requires some { loud_of old.now ≤ loud }
    requires few { loud ≤ 18 }
    ensures { result + loud_of old.now ≡ loud + loud_of new.now }
{
    loud - loud_of(old) + loud_of(new)
}

impl Negotiation {
    /// The rows of an end before anything was negotiated: each is STABLE with its feature's initial value.
    pub fn new(role: Role2, lists: &Lists) -> Negotiation
        ensures rows { result ≡ first_rows role lists.now }
        ensures sound { IsNegotiation result }
        ensures role { AreRowsOf role result }
    {
        let listed = lists.all();
        let mut rows = [Row::first(role, &listed[0]); 18];
        fill(&mut rows, role, listed);
        let loud = loud_rows(&rows);
        Negotiation { rows, loud }
    }

    fn row(&self, feature: Feature, place: Place) -> Row
        ensures value { result ≡ row_at self.now feature place }
        ensures its { IsRowOf feature place result }
        ensures sound { IsNegotiation self.now }
    {
        self.rows[index_of(feature, place)]
    }

    // The offer of a row, without a copy of the row.
    fn offer(&self, feature: Feature, place: Place) -> Offer
        ensures { result ≡ (row_at self.now feature place).offer }
    {
        self.rows[index_of(feature, place)].offer
    }

    fn put(&mut self, feature: Feature, place: Place, row: Row)
        requires { IsRowOf feature place row }
        ensures { self.new ≡ put self.old feature place row }
    {
        let index = index_of(feature, place);
        self.loud = loud_after(self.loud, &self.rows[index], &row);
        self.rows[index] = row;
    }

    fn change(&mut self, feature: Feature, place: Place, body: &[u8], mandatory: bool) -> RowReply
        ensures rows { self.new ≡ (stepped self.old feature place (Change body.now mandatory)).rows }
        ensures reply { reply_of result ≡ (stepped self.old feature place (Change body.now mandatory)).answer }
        ensures stays { IsRefusal (reply_of result) → self.new ≡ self.old }
    {
        let mut row = self.row(feature, place);
        let reply = row.change(body, mandatory);
        self.put(feature, place, row);
        reply
    }

    fn confirm(
        &mut self,
        feature: Feature,
        place: Place,
        body: &[u8],
        ack: &Option<Seq48>,
    ) -> Settling
        ensures rows { self.new ≡ (stepped self.old feature place (Confirm body.now ack.now)).rows }
        ensures settling { result ≡ settling_of (stepped self.old feature place (Confirm body.now ack.now)).answer }
        ensures stays { result ≢ Settled → self.new ≡ self.old }
    {
        let mut row = self.row(feature, place);
        let settling = row.confirm(body, ack);
        self.put(feature, place, row);
        settling
    }

    /// The value that the end holds for a feature at a place, and the stand of its negotiation.
    pub fn held(&self, feature: Feature, place: Place) -> Held
        ensures value { result ≡ held_by (row_at self.now feature place) }
        ensures its { IsRowOf feature place (row_at self.now feature place) }
        ensures sound { IsNegotiation self.now }
    {
        let row = self.row(feature, place);
        Held {
            value: row.value,
            stand: row.stand,
        }
    }

    /// The list or value that the row last sent, or its configured one before that; None exactly for a non-negotiable
    /// feature at There.
    pub fn active(&self, feature: Feature, place: Place) -> Option<Wanted>
        ensures value { result ≡ (row_at self.now feature place).active }
        ensures none { IsNone result ↔ IsNotOurs feature place }
        ensures wish { IfSome result (λ wish. is_wish feature place wish ≡ true) }
    {
        let row = self.row(feature, place);
        row.active
    }

    /// The rows whose Change is due: those in CHANGING or UNSTABLE, in the order of the features, Here before There.
    pub fn due(&self) -> DueRows<'_>
        ensures { result ≡ due_keys self.now }
    {
        DueRows::of(&self.rows)
    }

    /// Whether the rows have nothing to send by themselves: no offer is left and no row asks, so `open_offer` would
    /// change nothing, and no Change is due. This is usual once the connection has started.
    pub fn is_quiet(&self) -> bool
        ensures value { result ≡ are_quiet self.now }
        ensures offers { result ≡ true → (feature : Feature) (place : Place) (confirmed : Bool)
            → (stepped self.now feature place (Offers confirmed)).rows ≡ self.now }
        ensures due { result ≡ true → due_keys self.now ≡ [] }
    {
        self.loud == 0
    }

    /// A Change L (`left`) or Change R of a newest packet comes, with its data after the feature number.
    ///
    /// It answers the Confirm that is due, or Ignored, or Fatal for Reset 6, by the negotiation table. A Change that is
    /// not valid, or that is for an unknown feature, gets an empty Confirm, or Reset 6 after Mandatory.
    pub fn on_change(&mut self, left: bool, feature: u8, body: &[u8], mandatory: bool) -> Answer
        ensures rows { self.new ≡ (changes self.old left feature body.now mandatory).rows }
        ensures answer { shown result ≡ answered left feature (changes self.old left feature body.now mandatory).answer }
        ensures ignored { shown result ≡ Ignoring → self.new ≡ self.old }
        ensures fatal { shown result ≡ Failing → self.new ≡ self.old }
        ensures others { (other : Feature) (there : Place) → (feature_number other ≢ feature) ⊎ (there ≢ place_of left)
            → row_at self.new other there ≡ row_at self.old other there }
    {
        let Some(known) = Feature::of(feature) else {
            if mandatory {
                return Answer::Fatal;
            }
            return Answer::Confirm(ConfirmOut {
                left: !left,
                feature,
                body: ArrayVec::new(),
            });
        };
        match self.change(known, place_of(left), body, mandatory) {
            RowReply::Confirm(body) => Answer::Confirm(ConfirmOut {
                left: !left,
                feature,
                body,
            }),
            RowReply::Ignored => Answer::Ignored,
            RowReply::Fatal => Answer::Fatal,
        }
    }

    /// A Confirm L (`left`) or Confirm R of a newest packet comes, with its data after the feature number and the
    /// packet's acknowledgement number.
    ///
    /// It answers Settled, Ignored, or Fatal for Reset 5, by the negotiation table.
    pub fn on_confirm(
        &mut self,
        left: bool,
        feature: u8,
        body: &[u8],
        ack: Option<Seq48>,
    ) -> Settling
        ensures rows { self.new ≡ (confirmed self.old left feature body.now ack).rows }
        ensures settling { result ≡ settling_of (confirmed self.old left feature body.now ack).answer }
        ensures ignored { result ≡ Ignored → self.new ≡ self.old }
        ensures fatal { result ≡ Fatal → self.new ≡ self.old }
        ensures others { (other : Feature) (there : Place) → (feature_number other ≢ feature) ⊎ (there ≢ place_of left)
            → row_at self.new other there ≡ row_at self.old other there }
    {
        match Feature::of(feature) {
            Some(known) => self.confirm(known, place_of(left), body, &ack),
            None => Settling::Ignored,
        }
    }

    /// The end has a new wish for a feature at a place, which has to be an answer of `wish`. Now means that the row was
    /// STABLE and its Change is due in this step. Later means that a Change of the row is under way, and the new wish
    /// goes out with a later one. An end prefers only once its offers were made; a row whose offer was not yet made
    /// would keep it.
    pub fn prefer(&mut self, feature: Feature, place: Place, wish: Wanted) -> Opening
        requires { is_wish feature place wish ≡ true }
        ensures rows { self.new ≡ (stepped self.old feature place (Prefers wish)).rows }
        ensures opening { result ≡ opening_of (stepped self.old feature place (Prefers wish)).answer }
        ensures others { RestStays self.old self.new feature place }
    {
        let mut row = self.row(feature, place);
        let opening = row.prefer(wish);
        self.put(feature, place, row);
        opening
    }

    /// Makes the offer of a row, which has to be STABLE; an offer is made only once. True exactly if there was one and
    /// no Confirm of the row goes out on the same packet (`confirmed`). Then the row is in CHANGING with its active
    /// list, which is the configured one unless the end preferred another before, and its Change is due.
    pub fn open_offer(&mut self, feature: Feature, place: Place, confirmed: bool) -> bool
        requires { (row_at self.old feature place).stand ≡ Stable }
        ensures rows { self.new ≡ (stepped self.old feature place (Offers confirmed)).rows }
        ensures opening { result ≡ is_opening (stepped self.old feature place (Offers confirmed)).answer }
        ensures others { RestStays self.old self.new feature place }
    {
        if matches!(self.offer(feature, place), Offer::Nothing) {
            return false;
        }
        let mut row = self.row(feature, place);
        let opening = row.open_offer(confirmed);
        self.put(feature, place, row);
        opening
    }

    /// Whether the next Change of a due row, in CHANGING or UNSTABLE, carries Mandatory: that of an offer, until a new
    /// list of the row is sent.
    pub fn mandatory(&self, feature: Feature, place: Place) -> bool
        requires { IsDue self.now feature place }
        ensures { result ≡ is_next_mandatory (row_at self.now feature place).stand (row_at self.now feature place) }
    {
        let row = self.row(feature, place);
        matches!(row.stand, Stand::Changing) && row.mandatory
    }

    /// A packet with the Change of a due row, in CHANGING or UNSTABLE, goes out under this number. An UNSTABLE row's
    /// new wish is its active one from then on.
    pub fn sent(&mut self, feature: Feature, place: Place, number: Seq48)
        requires { IsDue self.old feature place }
        ensures rows { self.new ≡ (stepped self.old feature place (Sends number)).rows }
        ensures others { RestStays self.old self.new feature place }
    {
        let mut row = self.row(feature, place);
        row.sent(number);
        self.put(feature, place, row);
    }
}
