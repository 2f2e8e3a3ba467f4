//! The tickets of peers: the order in which something is due for what is kept of them.
ghost use Rattle.std.specs.Prelude.{◌≡◌, ◌<◌, ◌≤◌, ◌∷◌, OnSome, get_or, length, true};
ghost use Rattle.std.specs.BTreeSet.{insert_key};
ghost use Rattle.std.specs.List.{insert, remove};
ghost use Rattle.std.specs.List.Sorted.{IsBinarySearchResult, IsSearchInRange};
ghost use Rattle.std.specs.Ordering.{nat_cmp};
ghost use Rattle.std.specs.VecDeque.{deque_capacity};
ghost use Rattle.dccp_listener.specs.Numbers.{AreDigits};
ghost use Rattle.server_peers.specs.Queues.{AreTicketsInOrder, BeginsAt, count_in, first_in, of_class, queued, ticket, ticket_at, ticket_cmp, tickets_at, unqueued, without};

use dccp_listener::Peer;
use std::collections::VecDeque;

/// The ticket of a peer: the time at which something of this class is due (own). Tickets are ordered by class, then by
/// time, then by peer.
#[derive(Clone, Copy)]
pub struct Ticket {
    /// The time, in milliseconds.
    pub time: u64,
    /// The peer of the ticket.
    pub peer: Peer,
    /// What is due.
    pub class: u8,
}

// How many peers there are, by address and port.
const PEERS: u128 = 0x1_0000_0000_0000;
// How many times there are.
const TIMES: u128 = 0x1_0000_0000_0000_0000;

// The ticket of a peer as one number. Numbers are in the order of tickets.
fn number_of(moment: (u8, u64), peer: Peer) -> u128
    ensures digits { AreDigits peer.address peer.port }
    ensures ticket { ticket_at result ≡ ticket moment peer }
{
    let (class, time) = moment;
    let address = u32::from_be_bytes(peer.address);
    let place = address as u128 * 65_536 + peer.port as u128;
    (class as u128 * TIMES + time as u128) * PEERS + place
}

// The ticket of a number, if it is of a class.
fn of_class(number: u128, class: u8) -> Option<Ticket>
    ensures { result ≡ of_class class (ticket_at number) }
{
    let moment = number / PEERS;
    if moment / TIMES != class as u128 {
        return None;
    }
    let place = number % PEERS;
    Some(Ticket {
        time: (moment % TIMES) as u64,
        peer: Peer {
            address: ((place / 65_536) as u32).to_be_bytes(),
            port: (place % 65_536) as u16,
        },
        class,
    })
}

// The place of a ticket, or where it would be. Most often one goes that is the first, and one comes after the last.
fn place_of(tickets: &VecDeque<u128>, ticket: u128) -> Result<usize, usize>
    requires { AreTicketsInOrder (tickets_at tickets.now.items) }
    ensures bound { IsSearchInRange result (length tickets.now.items) }
    ensures position { IsBinarySearchResult (λ n. nat_cmp n ticket) tickets.now.items result }
{
    let count = tickets.len();
    if count == 0 {
        return Err(0);
    }
    if tickets[0] == ticket {
        return Ok(0);
    }
    if tickets[count - 1] < ticket {
        return Err(count);
    }
    tickets.binary_search(&ticket)
}

// The number at a place comes to the front, and those before it move up.
fn to_front(numbers: &mut [u128], at: usize)
    requires { at < length numbers.old }
    ensures { numbers.new ≡ get_or numbers.old at 0 ∷ remove numbers.old at }
{
    numbers[..at + 1].rotate_right(1);
}

// Inserts a ticket at a place: those on the shorter side make way. For those after the place the compiler makes one
// `memmove` of this form, but not of `VecDeque::insert`.
fn insert_at(tickets: &mut VecDeque<u128>, at: usize, ticket: u128)
    requires within { at ≤ length tickets.old.items }
    requires room { length tickets.old.items < deque_capacity tickets.old }
    ensures inserted { tickets.new.items ≡ insert tickets.old.items at ticket }
    ensures room { deque_capacity tickets.old ≤ deque_capacity tickets.new }
{
    if at < tickets.len() / 2 {
        let _ = tickets.insert(at, ticket);
    } else {
        tickets.push_back_reserved(ticket);
        tickets.make_contiguous()[at..].rotate_right(1);
    }
}

// Removes the ticket at a place: those on the shorter side fill it, and for those before it there is one `memmove`.
fn remove_at(tickets: &mut VecDeque<u128>, at: usize)
    requires { at < length tickets.old.items }
    ensures removed { tickets.new.items ≡ remove tickets.old.items at }
    ensures room { deque_capacity tickets.new ≡ deque_capacity tickets.old }
{
    if at < tickets.len() / 2 {
        to_front(tickets.make_contiguous(), at);
        let _ = tickets.pop_front();
    } else {
        let _ = tickets.remove(at);
    }
}

// Puts a ticket in its place, unless it is there.
fn put(tickets: &mut VecDeque<u128>, ticket: u128)
    requires order { AreTicketsInOrder (tickets_at tickets.old.items) }
    requires room { length (tickets_at tickets.old.items) < deque_capacity tickets.old }
    ensures put { tickets_at tickets.new.items ≡ insert_key ticket_cmp (tickets_at tickets.old.items) (ticket_at ticket) }
    ensures room { deque_capacity tickets.old ≤ deque_capacity tickets.new }
{
    if let Err(at) = place_of(tickets, ticket) {
        insert_at(tickets, at, ticket);
    }
}

// Removes a ticket, if it is there.
fn take(tickets: &mut VecDeque<u128>, ticket: u128)
    requires { AreTicketsInOrder (tickets_at tickets.old.items) }
    ensures taken { tickets_at tickets.new.items ≡ without (ticket_at ticket) (tickets_at tickets.old.items) }
    ensures room { deque_capacity tickets.old ≤ deque_capacity tickets.new }
{
    if let Ok(at) = place_of(tickets, ticket) {
        remove_at(tickets, at);
    }
}

/// Whether two moments are equal, so that a ticket need not move.
pub(crate) fn is_one_moment(from: Option<(u8, u64)>, to: Option<(u8, u64)>) -> bool
    ensures { result ≡ true → from ≡ to }
{
    match (from, to) {
        (None, None) => true,
        (Some(from), Some(to)) => from.0 == to.0 && from.1 == to.1,
        (None, Some(_)) | (Some(_), None) => false,
    }
}

/// Moves the ticket of a peer from one moment to another, if it had one and has one.
pub(crate) fn requeue(
    tickets: &mut VecDeque<u128>,
    peer: Peer,
    was: Option<(u8, u64)>,
    next: Option<(u8, u64)>,
)
    requires order { AreTicketsInOrder (tickets_at tickets.old.items) }
    requires room { OnSome next (length (tickets_at tickets.old.items) < deque_capacity tickets.old) }
    ensures moved { tickets_at tickets.new.items ≡ queued next peer (unqueued was peer (tickets_at tickets.old.items)) }
    ensures room { deque_capacity tickets.old ≤ deque_capacity tickets.new }
{
    match (was, next) {
        (Some(from), Some(to)) => {
            take(tickets, number_of(from, peer));
            put(tickets, number_of(to, peer));
        }
        (Some(from), None) => take(tickets, number_of(from, peer)),
        (None, Some(to)) => put(tickets, number_of(to, peer)),
        (None, None) => {}
    }
}

// How many tickets come before those of a class. Most often all tickets are of one class, which the first and the last
// of the queue show.
fn front(tickets: &VecDeque<u128>, class: u16) -> usize
    requires { AreTicketsInOrder (tickets_at tickets.now.items) }
    ensures begins { BeginsAt class (tickets_at tickets.now.items) result }
    ensures within { result ≤ length tickets.now.items }
{
    let least = class as u128 * TIMES * PEERS;
    let count = tickets.len();
    if count == 0 {
        return 0;
    }
    if least <= tickets[0] {
        return 0;
    }
    if tickets[count - 1] < least {
        return count;
    }
    tickets.partition_point(|ticket| *ticket < least)
}

/// The first ticket of a class.
pub(crate) fn first_in(tickets: &VecDeque<u128>, class: u8) -> Option<Ticket>
    requires { AreTicketsInOrder (tickets_at tickets.now.items) }
    ensures { result ≡ first_in class (tickets_at tickets.now.items) }
{
    let at = front(tickets, class as u16);
    match tickets.get(at) {
        Some(ticket) => of_class(*ticket, class),
        None => None,
    }
}

/// How many tickets of a class there are.
pub(crate) fn count_in(tickets: &VecDeque<u128>, class: u8) -> usize
    requires { AreTicketsInOrder (tickets_at tickets.now.items) }
    ensures { result ≡ count_in class (tickets_at tickets.now.items) }
{
    let class = class as u16;
    let first = front(tickets, class);
    front(tickets, class + 1).saturating_sub(first)
}
