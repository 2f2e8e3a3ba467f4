//! What has to be done as time goes by.
use dccp_endpoint::Timer;
use dccp_listener::Peer;
use dccp_uses::Rule;

/// What has to be done as time goes by (own).
#[derive(Clone, Copy, Debug)]
pub enum Duty {
    /// A timer of the peer's end has run out, and fires.
    Ring(Peer, Timer),
    /// A rule of the peer's path makes its end do something.
    Follow(Peer, Rule),
    /// The peer's flow has been in its phase or silent for too long, and is given up: its end aborts.
    GiveUp(Peer),
}

impl Duty {
    ghost use Rattle.std.specs.Prelude.{◌≡◌};
    ghost use Rattle.dccp_server.specs.Rooms.{duty_peer};

    /// The peer of the duty.
    pub fn peer(self) -> Peer
        ensures { result ≡ duty_peer self }
    {
        match self {
            Duty::Ring(peer, _) | Duty::Follow(peer, _) | Duty::GiveUp(peer) => peer,
        }
    }
}
