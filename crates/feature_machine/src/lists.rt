//! The wishes and offers that an end starts with.
ghost use Rattle.std.specs.Prelude.{◌≡◌, ◌↔◌, Err, Ok, true, OnOk, OnErr, IsOk, IsNone, IfSome, MatchResult, map, IfOk};
ghost use Rattle.feature_lists.specs.Wishes.{IsNotOurs, IsOurs, is_allowed, is_wish, wish_of};
ghost use Rattle.feature_lists.specs.declared.features.Feature.{Feature};
ghost use Rattle.feature_lists.specs.declared.features.Place.{Place};
ghost use Rattle.feature_lists.specs.declared.wishes.PreferFault.TheVariants.{BadList, NotOurs};
ghost use Rattle.feature_machine.specs.Lists.{usual_listed, usual_offer, usual_lists, listed_at, list_put, with_wish, with_offer, without_offers, offer_of, IsListedFor, IsLists};

use crate::negotiation::index_of;
use crate::offers::{Offer, RowSetup};
use feature_lists::{Feature, Place, PreferFault, Wanted, usual, wish};
use std::marker::Model;

/// What an end wants for each feature at each place when the connection starts, and which of these it offers by itself.
/// Contracts see what is listed for the rows in their order.
#[derive(Clone, Copy, Debug)]
pub struct Lists {
    listed: [RowSetup; 18],
}

impl Model for Lists {
    ghost use Rattle.std.specs.Prelude.{List};
    ghost use Rattle.feature_machine.specs.declared.offers.RowSetup.{RowSetup};

    ghost Value = { List RowSetup };

    ghost use Rattle.feature_machine.specs.Lists.{IsLists};

    ghost view = { λ l. l.listed };

    ghost invariant = { λ l. IsLists l.listed };

    ghost inverse = { λ listed. record { listed = listed } };
}

fn usual_listed(feature: Feature, place: Place) -> RowSetup
    ensures { result ≡ usual_listed feature place }
{
    let offer = match (feature, place) {
        (Feature::EcnIncapable, Place::Here) => Offer::Mandatory,
        (Feature::SendAckVector, Place::There) => Offer::Mandatory,
        _ => Offer::Nothing,
    };
    RowSetup {
        feature,
        place,
        wish: usual(feature, place),
        offer,
    }
}

fn all_usual() -> [RowSetup; 18]
    ensures { result ≡ usual_lists }
{
    [
        usual_listed(Feature::Ccid, Place::Here),
        usual_listed(Feature::Ccid, Place::There),
        usual_listed(Feature::ShortSeqnos, Place::Here),
        usual_listed(Feature::ShortSeqnos, Place::There),
        usual_listed(Feature::SequenceWindow, Place::Here),
        usual_listed(Feature::SequenceWindow, Place::There),
        usual_listed(Feature::EcnIncapable, Place::Here),
        usual_listed(Feature::EcnIncapable, Place::There),
        usual_listed(Feature::AckRatio, Place::Here),
        usual_listed(Feature::AckRatio, Place::There),
        usual_listed(Feature::SendAckVector, Place::Here),
        usual_listed(Feature::SendAckVector, Place::There),
        usual_listed(Feature::SendNdpCount, Place::Here),
        usual_listed(Feature::SendNdpCount, Place::There),
        usual_listed(Feature::MinCsCov, Place::Here),
        usual_listed(Feature::MinCsCov, Place::There),
        usual_listed(Feature::CheckDataChecksum, Place::Here),
        usual_listed(Feature::CheckDataChecksum, Place::There),
    ]
}

// Removes the offers.
fn unoffer(listed: &mut [RowSetup])
    ensures { listed.new ≡ without_offers listed.old }
{
    for one in listed.iter_mut() {
        one.offer = Offer::Nothing;
    }
}

impl Lists {
    /// The default lists of an end. It offers ECN Incapable here and Send Ack Vector at the peer, each after Mandatory
    /// (own).
    pub fn usual() -> Lists
        ensures { result ≡ usual_lists }
    {
        Lists {
            listed: all_usual(),
        }
    }

    /// The end's wish for the feature at this place when the connection starts; None exactly for a non-negotiable
    /// feature at There.
    pub fn wish(&self, feature: Feature, place: Place) -> Option<Wanted>
        ensures value { result ≡ (listed_at self.now feature place).wish }
        ensures none { IsNone result ↔ IsNotOurs feature place }
        ensures wish { IfSome result (λ wish. is_wish feature place wish ≡ true) }
        ensures lists { IsLists self.now }
    {
        self.at(feature, place).wish
    }

    // What is listed for a row.
    pub(crate) fn at(&self, feature: Feature, place: Place) -> RowSetup
        ensures value { result ≡ listed_at self.now feature place }
        ensures its { IsListedFor feature place result }
        ensures lists { IsLists self.now }
    {
        self.listed[index_of(feature, place)]
    }

    // All of it, in the order of the rows.
    pub(crate) fn all(&self) -> &[RowSetup; 18]
        ensures value { result.now ≡ self.now }
        ensures lists { IsLists self.now }
    {
        &self.listed
    }

    fn put(&mut self, feature: Feature, place: Place, listed: RowSetup)
        requires { IsListedFor feature place listed }
        ensures { self.new ≡ list_put self.old feature place listed }
    {
        self.listed[index_of(feature, place)] = listed;
    }

    /// Sets the wish for the feature at this place to these values, best first, in place of an earlier wish.
    ///
    /// Refused, with nothing changed, as `wish` refuses: BadList, then NotOurs.
    pub fn set(&mut self, feature: Feature, place: Place, values: &[u64]) -> Result<(), PreferFault>
        ensures ok { IsOk result ↔ IsOk (wish_of feature place values.now) }
        ensures wish { IfOk (wish_of feature place values.now) (λ wish. self.new ≡ with_wish self.old feature place wish) }
        ensures bad_list { (result ≡ Err PreferFault.BadList) ↔ (wish_of feature place values.now ≡ Err BadList) }
        ensures not_ours { (result ≡ Err PreferFault.NotOurs) ↔ (wish_of feature place values.now ≡ Err NotOurs) }
        ensures refused { OnErr result (self.new ≡ self.old) }
    {
        let wish = wish(feature, place, values)?;
        let mut listed = self.at(feature, place);
        listed.wish = Some(wish);
        self.put(feature, place, listed);
        Ok(())
    }

    /// Offers the wish for the feature at this place at the start, in place of what was offered there.
    ///
    /// Refused with NotOurs, with nothing changed, exactly for a non-negotiable feature at There.
    pub fn offer(
        &mut self,
        feature: Feature,
        place: Place,
        mandatory: bool,
    ) -> Result<(), PreferFault>
        ensures ok { OnOk result (self.new ≡ with_offer self.old feature place mandatory) }
        ensures not_ours { (result ≡ Err PreferFault.NotOurs) ↔ IsNotOurs feature place }
        ensures other { IsOk result ↔ IsOurs feature place }
        ensures refused { OnErr result (self.new ≡ self.old) }
    {
        let mut listed = self.at(feature, place);
        if listed.wish.is_none() {
            return Err(PreferFault::NotOurs);
        }
        listed.offer = if mandatory {
            Offer::Mandatory
        } else {
            Offer::Plain
        };
        self.put(feature, place, listed);
        Ok(())
    }

    /// Removes all offers, and keeps the wishes.
    pub fn plain(&mut self)
        ensures { self.new ≡ without_offers self.old }
    {
        unoffer(&mut self.listed);
    }
}
