//! What the definitions of a listener mean.
ghost use Rattle.dccp_listener.specs.Calls.{BusyAnswersRequests};
ghost use Rattle.dccp_listener.specs.Greeting.{GreetingsOpen};
ghost use Rattle.dccp_listener.specs.Listens.{PeersAtPlaces, WhatIsComputedIsARun};
ghost use Rattle.dccp_listener.specs.Runs.{EachPeerHasItsChain};
ghost use Rattle.dccp_listener.specs.Standing.{ChainsStand};

/// Over every list of calls, each peer's answers and frames are the chain of only that peer's calls: what a server for
/// it alone would have given it. Its calls that were answered Busy or NoMemory are left out (own).
pub fn each_peer_has_its_own_chain()
    ensures { EachPeerHasItsChain }
{}

/// What is computed for a list of calls, if there is memory, is a run: each call is a step of its peer's chain and
/// leaves the other peers as they were, or finds the listener busy and changes nothing (own).
pub fn what_is_computed_is_a_run()
    ensures { WhatIsComputedIsARun }
{}

/// After each step of its chain, a peer has no end, or one that was made for it and is neither CLOSED nor in LISTEN: an
/// end never goes back to LISTEN (RFC 4340, section 8.5).
pub fn ends_of_peers_stand()
    ensures { ChainsStand }
{}

/// A peer that finds the listener busy has sent a Request, and the Reset that answers acknowledges it (RFC 4340,
/// section 5.6).
pub fn busy_answers_requests()
    ensures { BusyAnswersRequests }
{}

/// The peer at a place has the end that is there (own).
pub fn peers_are_found_at_their_places()
    ensures { PeersAtPlaces }
{}

/// A fresh end that hears a datagram and goes sends what the peer's flow sends if that datagram opens one, and the flow
/// then has that end (own).
pub fn what_is_greeted_is_opened()
    ensures { GreetingsOpen }
{}
