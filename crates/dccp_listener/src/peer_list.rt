//! A list of what is kept of peers, in their order.
ghost use Rattle.std.specs.Prelude.{◌≡◌, ◌≤◌, ◌+◌, OnErr, OnOk, length};
ghost use Rattle.std.specs.List.{insert};

use crate::Peer;
use dccp_endpoint::NoMemory;
use std::alloc::Global;
use std::cmp::Ordering;
use std::marker::Model;

/// A peer and what is kept of it, which is in a separate block, so that it stays where it is as peers come and go.
#[derive(Drop)]
pub(crate) struct PeerEntry<V: Drop> {
    pub(crate) peer: Peer,
    pub(crate) value: Box<V>,
}

impl<V: Drop> Model for PeerEntry<V> {
    ghost use Rattle.dccp_listener.specs.declared.peer.Peer.{Peer};

    ghost Value = { Peer × V };

    ghost view = { λ e. (e.peer, e.value.value) };
}

// Inserts an entry at a place. The compiler makes one `memmove` of this form, but not of `Vec::insert`.
fn insert_at<V: Drop>(
    entries: &mut Vec<PeerEntry<V>>,
    place: usize,
    entry: PeerEntry<V>,
) -> Result<(), NoMemory>
    requires { place ≤ length entries.old.items }
    ensures inserted { OnOk result (entries.new.items ≡ insert entries.old.items place entry) }
    ensures unchanged { OnErr result (entries.new.items ≡ entries.old.items) }
    ensures count { length entries.new.items ≤ length entries.old.items + 1 }
{
    let Ok(()) = entries.push(entry) else {
        return Err(NoMemory);
    };
    entries[place..].rotate_right(1);
    Ok(())
}

/// What is kept of peers, in their order (own). A binary search finds a peer, and the place of the last one is kept.
/// Contracts see it as a list of pairs.
#[derive(Drop)]
pub struct PeerList<V: Drop> {
    pub(crate) entries: Vec<PeerEntry<V>>,
    /// The place where `seek` last found a peer, so that a datagram searches for its peer only once.
    at_hand: usize,
}

impl<V: Drop> Model for PeerList<V> {
    ghost use Rattle.std.specs.Prelude.{List};
    ghost use Rattle.std.specs.List.Sorted.{IsStrictlySortedBy};
    ghost use Rattle.std.specs.Map.{keys_of};
    ghost use Rattle.dccp_listener.specs.Peers.{peer_cmp};
    ghost use Rattle.dccp_listener.specs.declared.peer.Peer.{Peer};

    ghost Value = { List (Peer × V) };

    ghost view = { λ l. l.entries.items };

    ghost invariant = { λ l. IsStrictlySortedBy peer_cmp (keys_of l.entries.items) };
}

impl<V: Drop> PeerList<V> {
    ghost use Rattle.std.specs.Prelude.{◌≡◌, ◌≤◌, ◌<◌, ◌+◌, ◌^◌, [], None, Some, MatchOption, OnOk, OnErr, length, slice_get};
    ghost use Rattle.std.specs.BTreeMap.{insert_entry};
    ghost use Rattle.std.specs.List.Sorted.{IsBinarySearchResult, IsSearchInRange, IsStrictlySortedBy};
    ghost use Rattle.std.specs.Map.{keys_of, lookup, remove_entry};
    ghost use Rattle.dccp_listener.specs.Peers.{is_peer, peer_after, peer_cmp};
    ghost use Rattle.dccp_listener.specs.declared.peer.Peer.{Peer};

    /// Nothing is kept. It takes no memory.
    pub fn new(alloc: Global) -> PeerList<V>
        ensures { result ≡ [] }
    {
        PeerList {
            entries: Vec::new(alloc),
            at_hand: 0,
        }
    }

    /// For how many peers something is kept.
    pub fn len(&self) -> usize
        ensures { result ≡ length self.now }
    {
        self.entries.len()
    }

    // The place of a peer, or where it would be.
    fn search(&self, peer: Peer) -> Result<usize, usize>
        ensures fits { length self.now < 2 ^ 64 }
        ensures bound { IsSearchInRange result (length self.now) }
        ensures position { IsBinarySearchResult (λ entry. peer_cmp entry.0 peer) self.now result }
    {
        self.entries.binary_search_by_key(&peer, |entry| entry.peer)
    }

    // The same; most often the peer is at hand.
    pub(crate) fn place_of(&self, peer: Peer) -> Result<usize, usize>
        ensures bound { IsSearchInRange result (length self.now) }
        ensures position { IsBinarySearchResult (λ entry. peer_cmp entry.0 peer) self.now result }
    {
        match self.entries.get(self.at_hand) {
            Some(entry) => match entry.peer.cmp(&peer) {
                Ordering::Equal => Ok(self.at_hand),
                Ordering::Less | Ordering::Greater => self.search(peer),
            },
            None => self.search(peer),
        }
    }

    /// The peer is at hand from now on, and found without a search.
    pub fn seek(&mut self, peer: Peer)
        ensures { self.new ≡ self.old }
    {
        self.at_hand = match self.place_of(peer) {
            Ok(place) | Err(place) => place,
        };
    }

    /// What is kept of a peer, if something is.
    pub fn get(&self, peer: Peer) -> Option<&V>
        ensures { MatchOption result (lookup (is_peer peer) self.now ≡ None) (λ value. lookup (is_peer peer) self.now ≡ Some value.now) }
    {
        match self.place_of(peer) {
            Ok(place) => Some(&self.entries[place].value),
            Err(_) => None,
        }
    }

    /// The peer at a place, if there is one. The peers are in their order.
    pub fn peer(&self, place: usize) -> Option<Peer>
        ensures value { result ≡ slice_get (keys_of self.now) place }
        ensures ordered { IsStrictlySortedBy peer_cmp (keys_of self.now) }
    {
        match self.entries.get(place) {
            Some(entry) => Some(entry.peer),
            None => None,
        }
    }

    /// The first peer that comes after this one.
    pub fn peer_after(&self, peer: Peer) -> Option<Peer>
        ensures { result ≡ peer_after peer (keys_of self.now) }
    {
        match self.search(peer) {
            Ok(place) => self.peer(place + 1),
            Err(place) => self.peer(place),
        }
    }

    /// The peer, which is not in the list, has this from now on. NoMemory if there is none for it, and then nothing
    /// changes.
    pub fn insert(&mut self, alloc: Global, peer: Peer, value: V) -> Result<(), NoMemory>
        requires { lookup (is_peer peer) self.old ≡ None }
        ensures entries { OnOk result (self.new ≡ insert_entry peer_cmp self.old peer value) }
        ensures ordered { IsStrictlySortedBy peer_cmp (keys_of self.old) }
        ensures unchanged { OnErr result (self.new ≡ self.old) }
        ensures count { length self.new ≤ length self.old + 1 }
    {
        let Err(place) = self.search(peer) else {
            // It is not there.
            unreachable!();
        };
        let Ok(value) = Box::new(alloc, value) else {
            return Err(NoMemory);
        };
        insert_at(&mut self.entries, place, PeerEntry { peer, value })?;
        Ok(())
    }

    /// What is kept of the peer goes, if something is.
    pub fn remove(&mut self, peer: Peer)
        ensures entries { self.new ≡ remove_entry (is_peer peer) self.old }
        ensures ordered { IsStrictlySortedBy peer_cmp (keys_of self.old) }
        ensures count { length self.new ≤ length self.old }
    {
        if let Ok(place) = self.place_of(peer) {
            let _ = self.entries.remove(place);
        }
    }
}

impl<V: Copy> PeerList<V> {
    ghost use Rattle.std.specs.Prelude.{◌≡◌, IsSome};
    ghost use Rattle.std.specs.Map.{lookup, set_value};
    ghost use Rattle.dccp_listener.specs.Peers.{is_peer};

    /// The peer, which is in the list, has this from now on.
    pub fn set(&mut self, peer: Peer, value: &V)
        requires { IsSome (lookup (is_peer peer) self.old) }
        ensures { self.new ≡ set_value (is_peer peer) self.old value.now }
    {
        let Ok(place) = self.place_of(peer) else {
            // It is there.
            unreachable!();
        };
        *self.entries[place].value = *value;
    }
}
