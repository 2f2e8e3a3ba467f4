//! The peers of a listener.
ghost use Rattle.std.specs.Prelude.{◌≡◌, ◌+◌, ◌*◌};
ghost use Rattle.std.proofs.Common.{rules};
ghost use Rattle.std.specs.Cmp.{partial_order_from_own_ties};
ghost use Rattle.std.specs.Cmp.Lexicographic.{slice_cmp};
ghost use Rattle.std.specs.Cmp.Rules.{comparing};
ghost use Rattle.std.specs.Int.{from_be_bytes, w32};
ghost use Rattle.std.specs.Ordering.{as_partial_cmp, nat_cmp, on, then_cmp};
ghost use Rattle.dccp_listener.specs.Numbers.{AreDigits};

use std::cmp::Ordering;

/// Where a datagram came from: an IPv4 address and a port. Peers are ordered by address, then by port.
#[derive(Clone, Copy, Debug, PartialEq, Eq)]
pub struct Peer {
    /// The address that the datagram came from.
    pub address: [u8; 4],
    /// The source port.
    pub port: u16,
}

// An address and a port as one number, which is in the order of peers.
#[inline(always)]
fn number_of(address: [u8; 4], port: u16) -> u64
    ensures value { result ≡ from_be_bytes w32 address * 65536 + port }
    ensures digits { AreDigits address port }
{
    u32::from_be_bytes(address) as u64 * 65_536 + port as u64
}

// Whether the first is greater is asked first, as a search in a map does, so that it takes one comparison.
#[inline(always)]
fn compare(number: u64, other: u64) -> Ordering
    ensures { result ≡ nat_cmp number other }
{
    if other < number {
        Ordering::Greater
    } else if number == other {
        Ordering::Equal
    } else {
        Ordering::Less
    }
}

#[inline(always)]
fn order(one: Peer, other: Peer) -> Ordering
    ensures { result ≡ then_cmp (on (λ p. p.address) (slice_cmp nat_cmp)) (on (λ p. p.port) nat_cmp) one other }
{
    let Peer { address, port } = one;
    let (second, second_port) = (other.address, other.port);
    compare(number_of(address, port), number_of(second, second_port))
}

impl Ord for Peer {
    ghost cmp = { then_cmp (on (λ p. p.address) (slice_cmp nat_cmp)) (on (λ p. p.port) nat_cmp) };

    ghost total = { Prim.search (comparing, rules) };

    ghost matches_partial_cmp = { Prim.search (comparing, rules) };

    ghost matches_eq = { Prim.search (comparing, rules) };

    #[inline(always)]
    fn cmp(&self, other: &Peer) -> Ordering {
        order(*self, *other)
    }
}

impl PartialOrd for Peer {
    ghost partial_cmp = { as_partial_cmp (then_cmp (on (λ p. p.address) (slice_cmp nat_cmp)) (on (λ p. p.port) nat_cmp)) };

    ghost laws = { partial_order_from_own_ties (Prim.search (comparing, rules)) (Prim.search (comparing, rules)) };

    fn partial_cmp(&self, other: &Peer) -> Option<Ordering> {
        Some(self.cmp(other))
    }
}
