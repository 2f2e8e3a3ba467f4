//! What an end is made from.
ghost use Rattle.std.specs.Prelude.{◌≡◌, ◌<◌, ◌^◌};

use ack_vectors::Vectors;
use dccp_states::Role;
use dccp_sum::Pseudo;
use feature_lists::{Feature, Place, PreferFault};
use feature_machine::Lists;
use seq_circle::Seq48;

// A sequence number that is known to be one.
pub(crate) fn number(n: u64) -> Seq48
    requires { n < 2 ^ 48 }
    ensures { result ≡ n }
{
    match Seq48::new(n) {
        Some(number) => number,
        None => unreachable!(),
    }
}

/// The ports of a connection, as one of its ends sees them.
#[derive(Clone, Copy, Debug, PartialEq, Eq)]
pub struct Ports {
    /// The end's own port.
    pub own: u16,
    /// The peer's port.
    pub peer: u16,
}

/// One end's side of a connection: who it is, between which addresses and ports, and its first sequence number.
#[derive(Clone, Copy, Debug)]
pub struct Config {
    /// Which of the two ends it is.
    pub role: Role,
    /// The addresses of the packets that it sends.
    pub pseudo_out: Pseudo,
    /// The addresses of the packets that it receives.
    pub pseudo_in: Pseudo,
    /// The source port of the packets that it sends.
    pub own_port: u16,
    /// The source port of the packets that it receives.
    pub peer_port: u16,
    /// The Service Code that the client asks for and the server offers (RFC 4340, section 8.1.2).
    pub service: u32,
    /// The sequence number of its first packet (RFC 4340, section 7.2).
    pub iss: Seq48,
    /// Its wish for each feature at each place, and which of these it offers by itself (RFC 4340, section 6).
    pub lists: Lists,
    /// How many Ack Vector options its packets carry at most (own). The usual ends carry one.
    pub vectors: Vectors,
}

impl Config {
    ghost use Rattle.std.specs.Prelude.{◌≡◌, ◌↔◌, Err, IfOk, IsOk, OnErr, OnOk, true, false};
    ghost use Rattle.feature_lists.specs.Wishes.{is_ours, wish_of};
    ghost use Rattle.feature_lists.specs.declared.wishes.PreferFault.TheVariants.{BadList, NotOurs};
    ghost use Rattle.feature_machine.specs.Lists.{IsLists, with_offer, with_wish, without_offers};
    ghost use Rattle.dccp_endpoint.specs.Configured.{configured};
    ghost use Rattle.dccp_endpoint.specs.Usual.{usual};
    ghost use Rattle.dccp_states.specs.declared.phase.Role.TheVariants.{Client, Server};

    /// A client that asks for a service, by its Service Code (RFC 4340, section 8.1.2). The addresses are those of the
    /// packets that it sends, its own first. `iss` is the number of its first packet: take one that nobody can guess
    /// (section 7.2).
    ///
    /// Its wishes and offers are those of `Lists::usual`, which are enough for data under CCID 2. `set`, `offer` and
    /// `plain` change them.
    pub fn client(addresses: Pseudo, ports: Ports, service: u32, iss: Seq48) -> Config
        ensures { result ≡ configured Client addresses ports service iss }
    {
        Config::of_role(Role::Client, addresses, ports, service, iss)
    }

    /// A server's end for one peer, which offers a service: all as in `client`, seen from the server.
    pub fn server(addresses: Pseudo, ports: Ports, service: u32, iss: Seq48) -> Config
        ensures { result ≡ configured Server addresses ports service iss }
    {
        Config::of_role(Role::Server, addresses, ports, service, iss)
    }

    fn of_role(role: Role, addresses: Pseudo, ports: Ports, service: u32, iss: Seq48) -> Config
        ensures { result ≡ configured role addresses ports service iss }
    {
        let pseudo_in = addresses.reversed();
        Config {
            role,
            pseudo_out: addresses,
            pseudo_in,
            own_port: ports.own,
            peer_port: ports.peer,
            service,
            iss,
            lists: Lists::usual(),
            vectors: Vectors::One,
        }
    }

    /// The ends that a schedule begins with (own): the client at 10.0.0.1, port 40000, with the initial sequence number
    /// 1000; the server at 10.0.0.2, port 5001, with 2000; Service Code 42.
    pub fn usual(role: Role) -> Config
        ensures { result ≡ usual role }
    {
        let to_server = Pseudo::V4 {
            from: [10, 0, 0, 1],
            to: [10, 0, 0, 2],
        };
        let to_client = Pseudo::V4 {
            from: [10, 0, 0, 2],
            to: [10, 0, 0, 1],
        };
        match role {
            Role::Client => Config {
                role,
                pseudo_out: to_server,
                pseudo_in: to_client,
                own_port: 40000,
                peer_port: 5001,
                service: 42,
                iss: number(1000),
                lists: Lists::usual(),
                vectors: Vectors::One,
            },
            Role::Server => Config {
                role,
                pseudo_out: to_client,
                pseudo_in: to_server,
                own_port: 5001,
                peer_port: 40000,
                service: 42,
                iss: number(2000),
                lists: Lists::usual(),
                vectors: Vectors::One,
            },
        }
    }

    // Reading a list gives the prover what lists keep.
    pub(crate) fn shows_lists(&self)
        ensures { IsLists self.now.lists }
    {
        let _wish = self.lists.wish(Feature::Ccid, Place::Here);
    }

    /// Makes these values, best first, the end's wish for the feature at this place when the connection starts, in
    /// place of an earlier wish.
    ///
    /// Refused, with nothing changed, as `feature_lists::wish` refuses: BadList, then NotOurs.
    pub fn set(&mut self, feature: Feature, place: Place, values: &[u64]) -> Result<(), PreferFault>
        ensures ok { IsOk result ↔ IsOk (wish_of feature place values.now) }
        ensures wish { IfOk (wish_of feature place values.now) (λ wish. self.new ≡ record self.old { lists = with_wish self.old.lists feature place wish }) }
        ensures bad_list { (result ≡ Err PreferFault.BadList) ↔ (wish_of feature place values.now ≡ Err BadList) }
        ensures not_ours { (result ≡ Err PreferFault.NotOurs) ↔ (wish_of feature place values.now ≡ Err NotOurs) }
        ensures refused { OnErr result (self.new ≡ self.old) }
    {
        self.lists.set(feature, place, values)
    }

    /// Offers the wish for the feature at this place at the start, in place of what was offered there.
    ///
    /// Refused with NotOurs, with nothing changed, exactly for a non-negotiable feature at There.
    pub fn offer(
        &mut self,
        feature: Feature,
        place: Place,
        mandatory: bool,
    ) -> Result<(), PreferFault>
        ensures ok { OnOk result (self.new ≡ record self.old { lists = with_offer self.old.lists feature place mandatory }) }
        ensures not_ours { (result ≡ Err PreferFault.NotOurs) ↔ (is_ours feature place ≡ false) }
        ensures other { IsOk result ↔ (is_ours feature place ≡ true) }
        ensures refused { OnErr result (self.new ≡ self.old) }
    {
        self.lists.offer(feature, place, mandatory)
    }

    /// Removes all offers, and keeps the wishes.
    pub fn plain(&mut self)
        ensures { self.new ≡ record self.old { lists = without_offers self.old.lists } }
    {
        self.lists.plain();
    }
}
