//! What a Change or a Confirm means to a row.
ghost use Rattle.std.specs.Prelude.{◌≡◌, false, ◌||◌, ◌==◌, ◌≤◌, length};
ghost use Rattle.byteorder.specs.Endian.{big_number};
ghost use Rattle.feature_lists.specs.Features.{described};
ghost use Rattle.feature_lists.specs.Lists.{has_entry};
ghost use Rattle.feature_machine.specs.Rows.{entries, is_number, reconciled_by, tells_value, proposal, list_proposal, confirmation, timely_confirmation, is_acceptable, list_confirmation, agreed_confirmation, number_confirmation, answers_opening};
ghost use Rattle.feature_machine.specs.Sound.{IsSoundRow, IsLawfulProposal};

use crate::Role2;
use crate::row::Row;
use byteorder::{BigEndian, ByteOrder};
use feature_lists::{Feature, Place, Wanted, reconcile};
use seq_circle::Seq48;

/// What a Change means to a row.
#[derive(Clone, Copy)]
pub enum Proposal {
    /// It is not valid for the feature.
    Invalid,
    /// The reconciliation of its list with the row's is this value.
    Shared(u8),
    /// Its list shares nothing with the row's.
    Unshared,
    /// It has this value of a non-negotiable feature.
    Told(u64),
}

/// What a Confirm means to a row in CHANGING.
#[derive(Clone, Copy)]
pub enum Confirmation {
    /// It has no acknowledgement number, or one from before the row's last opening. As everywhere, a number at exactly
    /// half the circle is not before: a Confirm that acknowledges such a number is taken. No end meets one, since it
    /// uses fewer than 2^47 numbers.
    Late,
    /// It has only the feature number.
    Empty,
    /// It confirms the reconciliation of its list with the row's.
    Shared(u8),
    /// It confirms the value that the row holds, and its list shares nothing with the row's.
    Held,
    /// It confirms without a list a value that is in the row's list, or that the row holds.
    Alone(u8),
    /// It confirms the value that the row sent.
    Told(u64),
    /// It is none of these.
    Wrong,
}

fn number_of_bytes(feature: Feature, bytes: &[u8]) -> u64
    requires { length bytes.now ≡ (described feature).width }
    ensures { result ≡ big_number (described feature).width bytes.now }
{
    match feature {
        Feature::SequenceWindow => BigEndian::read_u48(bytes),
        Feature::AckRatio => u64::from(BigEndian::read_u16(bytes)),
        Feature::Ccid
        | Feature::ShortSeqnos
        | Feature::EcnIncapable
        | Feature::SendAckVector
        | Feature::SendNdpCount
        | Feature::MinCsCov
        | Feature::CheckDataChecksum => u64::from(bytes[0]),
    }
}

impl Row {
    // The entries of the active list.
    pub(crate) fn entries(&self) -> &[u8]
        ensures value { result.now ≡ entries self.now.active }
        ensures few { length (entries self.now.active) ≤ 8 }
    {
        match &self.active {
            Some(Wanted::List(list)) => list.bytes(),
            Some(Wanted::Number(_)) | None => &[],
        }
    }

    fn reconciled(&self, peers: &[u8]) -> Option<u8>
        ensures { result ≡ reconciled_by self.now.role (entries self.now.active) peers.now }
    {
        match self.role {
            Role2::Server => reconcile(self.entries(), peers),
            Role2::Client => reconcile(peers, self.entries()),
        }
    }

    fn is_number(&self, value: u64) -> bool
        ensures { result ≡ is_number self.now.active value }
    {
        match &self.active {
            Some(Wanted::Number(number)) => *number == value,
            Some(Wanted::List(_)) | None => false,
        }
    }

    // A Change of a server-priority feature: a list.
    fn list_proposal(&self, body: &[u8]) -> Proposal
        ensures { result ≡ list_proposal self.now body.now }
    {
        match body {
            [] => Proposal::Invalid,
            [_, ..] => match self.reconciled(body) {
                Some(value) => Proposal::Shared(value),
                None => Proposal::Unshared,
            },
        }
    }

    // What a Change with this data after the feature number is to the row.
    pub(crate) fn proposal(&self, body: &[u8]) -> Proposal
        requires { IsSoundRow self.now }
        ensures value { result ≡ proposal self.now body.now }
        ensures lawful { IsLawfulProposal self.now result }
    {
        if self.feature.is_server_priority() {
            return self.list_proposal(body);
        }
        if matches!(self.place, Place::Here) || body.len() != self.feature.width() {
            return Proposal::Invalid;
        }
        let value = number_of_bytes(self.feature, body);
        if self.feature.is_permitted(self.place, value) {
            Proposal::Told(value)
        } else {
            Proposal::Invalid
        }
    }

    // A Confirm with a list after its value, by what that list and the row's settle on.
    fn agreed_confirmation(&self, value: u8, agreed: Option<u8>) -> Confirmation
        ensures { result ≡ agreed_confirmation self.now value agreed }
    {
        match agreed {
            Some(agreed) if agreed == value => Confirmation::Shared(value),
            None if u64::from(value) == self.value => Confirmation::Held,
            _ => Confirmation::Wrong,
        }
    }

    // The value is in the active list, or is the one that the row holds.
    fn is_acceptable(&self, value: u8) -> bool
        ensures { result ≡ is_acceptable self.now value }
    {
        self.entries().contains(&value) || u64::from(value) == self.value
    }

    // A Confirm of a server-priority feature: a value, and a list after it or none.
    fn list_confirmation(&self, value: u8, list: &[u8]) -> Confirmation
        ensures { result ≡ list_confirmation self.now value list.now }
    {
        match list {
            [] => {
                if self.is_acceptable(value) {
                    Confirmation::Alone(value)
                } else {
                    Confirmation::Wrong
                }
            }
            [_, ..] => self.agreed_confirmation(value, self.reconciled(list)),
        }
    }

    // A Confirm of a non-negotiable feature: a value alone.
    fn number_confirmation(&self, body: &[u8]) -> Confirmation
        ensures { result ≡ number_confirmation self.now body.now }
    {
        if body.len() != self.feature.width() {
            return Confirmation::Wrong;
        }
        let value = number_of_bytes(self.feature, body);
        if self.is_number(value) {
            Confirmation::Told(value)
        } else {
            Confirmation::Wrong
        }
    }

    // A Confirm that answers the row's last opening.
    fn timely_confirmation(&self, body: &[u8]) -> Confirmation
        ensures { result ≡ timely_confirmation self.now body.now }
    {
        match body {
            [] => Confirmation::Empty,
            [value, list @ ..] => {
                if self.feature.is_server_priority() {
                    self.list_confirmation(*value, list)
                } else {
                    self.number_confirmation(body)
                }
            }
        }
    }

    // What a Confirm with this data after the feature number, on a packet with this acknowledgement number, is to a
    // row in CHANGING.
    pub(crate) fn confirmation(&self, body: &[u8], ack: &Option<Seq48>) -> Confirmation
        ensures { result ≡ confirmation self.now body.now ack.now }
    {
        if !self.answers_opening(ack) {
            return Confirmation::Late;
        }
        self.timely_confirmation(body)
    }

    fn answers_opening(&self, ack: &Option<Seq48>) -> bool
        ensures { result ≡ answers_opening self.now.opened ack.now }
    {
        match (&self.opened, ack) {
            (Some(opened), Some(ack)) => !ack.before(*opened),
            (None, _) | (Some(_), None) => false,
        }
    }
}
