//! What is kept of each peer that has a flow, and the order in which something is due for it.
ghost use Rattle.std.specs.Prelude.{◌≡◌};
ghost use Rattle.std.specs.Map.{lookup};
ghost use Rattle.dccp_listener.specs.Peers.{is_peer};
ghost use Rattle.server_peers.specs.Queues.{moment_if};

use crate::queue::{Ticket, count_in, first_in, is_one_moment, requeue};
use dccp_endpoint::NoMemory;
use dccp_listener::{Peer, PeerList};
use path_rules::Moment;
use std::alloc::Global;
use std::cmp::Ordering;
use std::collections::VecDeque;
use std::marker::Model;

/// What is kept of each peer that has a flow. Contracts see it as a list, in the order of peers.
#[derive(Drop)]
pub struct Register<V: Moment> {
    alloc: Global,
    entries: PeerList<V>,
    /// The tickets, as numbers.
    tickets: VecDeque<u128>,
}

impl<V: Moment> Model for Register<V> {
    ghost use Rattle.std.specs.Prelude.{List};
    ghost use Rattle.std.specs.VecDeque.{deque_capacity};
    ghost use Rattle.dccp_listener.specs.declared.peer.Peer.{Peer};
    ghost use Rattle.server_peers.specs.Queues.{IsQueued, tickets_at};

    ghost Value = { List (Peer × V) };

    ghost view = { λ r. r.entries };

    ghost invariant = { λ r. IsQueued V.moment_of r.entries (tickets_at r.tickets.items) (deque_capacity r.tickets) };
}

// The moment at which what is kept of a peer is due.
fn moment_of<V: Moment>(entries: &PeerList<V>, peer: Peer) -> Option<(u8, u64)>
    ensures { result ≡ moment_if V.moment_of (lookup (is_peer peer) entries.now) }
{
    match entries.get(peer) {
        Some(value) => value.moment(),
        None => None,
    }
}

/// Whether two peers are the same.
pub fn is_peer(one: Peer, other: Peer) -> bool
    ensures { result ≡ is_peer one other }
{
    matches!(one.cmp(&other), Ordering::Equal)
}

impl<V: Moment> Register<V> {
    ghost use Rattle.std.specs.Prelude.{◌≡◌, [], None, Some, MatchOption, IfOk, OnOk, OnErr, IsSome, is_some, length, slice_get, if◌then◌else◌};
    ghost use Rattle.std.specs.BTreeMap.{insert_entry};
    ghost use Rattle.std.specs.Map.{keys_of, lookup, remove_entry};
    ghost use Rattle.dccp_listener.specs.Peers.{is_peer, peer_cmp};
    ghost use Rattle.server_peers.specs.Places.{IsPlaced, peer_after};
    ghost use Rattle.server_peers.specs.Queues.{count_in, first_in, queue_of};

    /// Nothing is kept. It takes no memory.
    pub fn new(alloc: Global) -> Register<V>
        ensures { result ≡ [] }
    {
        Register {
            alloc,
            entries: PeerList::new(alloc),
            tickets: VecDeque::new(alloc),
        }
    }

    /// What is kept of a peer is at hand from now on, and found without a search.
    pub fn seek(&mut self, peer: Peer)
        ensures { self.new ≡ self.old }
    {
        self.entries.seek(peer);
    }

    /// What is kept of a peer, if something is.
    pub fn get(&self, peer: Peer) -> Option<&V>
        ensures { MatchOption result (lookup (is_peer peer) self.now ≡ None) (λ value. lookup (is_peer peer) self.now ≡ Some value.now) }
    {
        self.entries.get(peer)
    }

    /// Whether something is kept of a peer.
    pub fn has(&self, peer: Peer) -> bool
        ensures { result ≡ is_some (lookup (is_peer peer) self.now) }
    {
        self.get(peer).is_some()
    }

    /// The peer has a place from now on. Returns whether it had one before.
    pub fn place_for(&mut self, peer: Peer, fresh: V) -> Result<bool, NoMemory>
        ensures placed { IfOk result (λ had. IsPlaced fresh had self.old self.new peer) }
        ensures there { OnOk result (IsSome (lookup (is_peer peer) self.new)) }
        ensures unchanged { OnErr result (self.new ≡ self.old) }
        ensures absent { OnErr result (lookup (is_peer peer) self.old ≡ None) }
    {
        if self.has(peer) {
            return Ok(true);
        }
        // Twice the places: a ring that is full moves every ticket when it is made one slice.
        let more = self.entries.len() + 2;
        let Ok(()) = self.tickets.try_reserve(more) else {
            return Err(NoMemory);
        };
        self.entries.insert(self.alloc, peer, fresh)?;
        requeue(&mut self.tickets, peer, None, fresh.moment());
        Ok(false)
    }

    /// Removes the peer's place again, unless it had one before.
    pub fn take_back(&mut self, peer: Peer, had: bool)
        ensures { self.new ≡ (if had then self.old else remove_entry (is_peer peer) self.old) }
    {
        if !had {
            self.remove(peer);
        }
    }

    /// Puts this into the peer's place, which it has.
    pub fn put(&mut self, peer: Peer, value: &V)
        requires { IsSome (lookup (is_peer peer) self.old) }
        ensures { self.new ≡ insert_entry peer_cmp self.old peer value.now }
    {
        let from = moment_of(&self.entries, peer);
        let to = value.moment();
        self.entries.set(peer, value);
        if !is_one_moment(from, to) {
            requeue(&mut self.tickets, peer, from, to);
        }
    }

    /// Removes the peer's place, if it has one.
    pub fn remove(&mut self, peer: Peer)
        ensures { self.new ≡ remove_entry (is_peer peer) self.old }
    {
        let from = moment_of(&self.entries, peer);
        self.entries.remove(peer);
        requeue(&mut self.tickets, peer, from, None);
    }

    /// The first peer of which something is kept.
    pub fn first_peer(&self) -> Option<Peer>
        ensures { result ≡ slice_get (keys_of self.now) 0 }
    {
        self.entries.peer(0)
    }

    /// The first one after this.
    pub fn peer_after(&self, peer: Peer) -> Option<Peer>
        ensures { result ≡ peer_after peer (keys_of self.now) }
    {
        self.entries.peer_after(peer)
    }

    /// For how many peers something is kept.
    pub fn len(&self) -> usize
        ensures { result ≡ length self.now }
    {
        self.entries.len()
    }

    /// The first ticket of a class.
    pub fn first_in(&self, class: u8) -> Option<Ticket>
        ensures { result ≡ first_in class (queue_of V.moment_of self.now) }
    {
        first_in(&self.tickets, class)
    }

    /// How many tickets of a class there are.
    pub fn count_in(&self, class: u8) -> usize
        ensures { result ≡ count_in class (queue_of V.moment_of self.now) }
    {
        count_in(&self.tickets, class)
    }
}
