//! Flows after the first 4,096, and the key under which each is found.
ghost use Rattle.std.specs.Prelude.{◌≡◌, ◌%◌, ◌^◌, ◌<◌, ◌++◌, ◌∷◌, length, [], None, OnOk, OnErr};
ghost use Rattle.packet_show.specs.Flows.{blended, first_further, key_of, mixed, flow_number_from};

use crate::flows::Flow;
use seq_circle::NoMemory;
use std::alloc::Global;
use std::collections::BTreeMap;
use std::marker::Model;

// The key under which a flow is found: its mixed number, both ports and the version, and both addresses.
type FlowKey = (u64, (u16, u16, u8), (u128, u128));

// Odd numbers without a pattern: the fractions of the golden ratio and of the square root of two, times 2^64.
const GOLDEN: u64 = 0x9e37_79b9_7f4a_7c15;

const ROOT_OF_TWO: u64 = 0x6a09_e667_f3bc_c909;

const PORTS: u64 = 65_536;

// The number of the first flow here.
const FIRST: u64 = 4_097;

/// The flows past the first 4,096, in the order in which they were first seen (own). Contracts see the list of them.
///
/// A look-up compares a flow with a number of others that grows with the logarithm of how many there are. So an
/// attacker who chooses the ends cannot make it slow, as in a table with a public hash. The key begins with a number
/// that is mixed from both ends, which mostly decides at once. If ends were chosen so that it does not, the rest of the
/// key decides.
#[derive(Drop)]
pub(crate) struct FurtherFlows {
    seen: Vec<Flow>,
    numbers: BTreeMap<FlowKey, u64>,
}

impl Model for FurtherFlows {
    ghost use Rattle.std.specs.Prelude.{List};
    ghost use Rattle.packet_show.specs.Flows.{Flow, HasNumbers};

    ghost Value = { List Flow };

    ghost view = { λ f. f.seen.items };

    ghost invariant = { λ f. HasNumbers f.numbers.entries f.seen.items };
}

// The low 64 bits of a number.
fn low(number: u128) -> u64
    ensures { result ≡ number % 2 ^ 64 }
{
    (number % (1 << 64)) as u64
}

fn blended(number: u64, factor: u64, more: u64) -> u64
    ensures { result ≡ blended number factor more }
{
    number.wrapping_mul(factor).wrapping_add(more)
}

// A number that is seldom the same for two flows.
fn mixed(flow: &Flow) -> u64
    ensures { result ≡ mixed flow.now }
{
    let ports = blended(u64::from(flow.1.1), PORTS, u64::from(flow.2.1));
    let other = blended(low(flow.2.0), ROOT_OF_TWO, ports);
    blended(low(flow.1.0), GOLDEN, other)
}

fn key_of(flow: &Flow) -> FlowKey
    ensures { result ≡ key_of flow.now }
{
    (
        mixed(flow),
        (flow.1.1, flow.2.1, flow.0),
        (flow.1.0, flow.2.0),
    )
}

impl FurtherFlows {
    /// No flow yet. It takes no memory.
    pub(crate) fn new(alloc: Global) -> FurtherFlows
        ensures { result ≡ [] }
    {
        FurtherFlows {
            seen: Vec::new(alloc),
            numbers: BTreeMap::new(alloc),
        }
    }

    /// How many there are.
    pub(crate) fn len(&self) -> u64
        ensures value { result ≡ length self.now }
        ensures fits { result < 2 ^ 63 }
    {
        self.seen.len() as u64
    }

    /// The number of a flow that was seen: the first has 4,097.
    pub(crate) fn number_if_seen(&self, flow: &Flow) -> Option<u64>
        ensures { result ≡ flow_number_from first_further flow.now self.now }
    {
        match self.numbers.get(&key_of(flow)) {
            Some(number) => Some(*number),
            None => None,
        }
    }

    /// Notes a flow that was not seen before. After NoMemory they are as before.
    pub(crate) fn add(&mut self, flow: Flow) -> Result<(), NoMemory>
        requires { flow_number_from first_further flow self.old ≡ None }
        ensures ok { OnOk result (self.new ≡ self.old ++ flow ∷ []) }
        ensures unchanged { OnErr result (self.new ≡ self.old) }
    {
        let number = self.seen.len() as u64 + FIRST;
        self.seen.reserve(1)?;
        match self.numbers.insert(key_of(&flow), number) {
            Ok(_) => {}
            Err(_) => return Err(NoMemory),
        }
        match self.seen.push(flow) {
            Ok(()) => Ok(()),
            Err(_) => unreachable!(),
        }
    }
}
