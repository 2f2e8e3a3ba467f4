//! The lives of the peers that have a flow.
ghost use Rattle.std.specs.Prelude.{◌≡◌, ◌↔◌, None, IsErr};
ghost use Rattle.dccp_listener.specs.Peers.{end_of_peer};
ghost use Rattle.server_peers.specs.Lives.{life_of, life_then, user_written};
ghost use Rattle.server_peers.specs.Places.{HasPlaceIf};

use crate::timed_listener::TimedListener;
use dccp_listener::{NoFlow, Peer};
use server_peers::{Life, Register, Signs, lives_on};

/// The life of a peer's flow, or one that has not begun if it has none.
pub(crate) fn life_of(lives: &Register<Life>, peer: Peer) -> Life
    ensures { result ≡ life_of lives.now peer }
{
    match lives.get(peer) {
        Some(life) => *life,
        None => Life::none(),
    }
}

/// The peer's life goes on from this one with its end, and ends with it.
pub(crate) fn go_on(
    timed: &TimedListener,
    lives: &mut Register<Life>,
    peer: Peer,
    life: &Life,
    signs: Signs,
    now: u64,
)
    requires { HasPlaceIf (end_of_peer timed.now.listening.flows peer) lives.old peer }
    ensures { lives.new ≡ life_then now lives.old peer (end_of_peer timed.now.listening.flows peer) signs life.now }
{
    match timed.flow(peer) {
        Some(end) => {
            let next = lives_on(life, end, signs, now);
            lives.put(peer, &next);
        }
        None => {
            lives.remove(peer);
        }
    }
}

/// Sets the owner's number for a peer's flow. NoFlow comes exactly if the peer has none.
pub(crate) fn write_user(
    timed: &TimedListener,
    lives: &mut Register<Life>,
    peer: Peer,
    user: u64,
) -> Result<(), NoFlow>
    requires { HasPlaceIf (end_of_peer timed.now.listening.flows peer) lives.old peer }
    ensures written { lives.new ≡ user_written user lives.old peer (end_of_peer timed.now.listening.flows peer) }
    ensures no_flow { IsErr result ↔ (end_of_peer timed.now.listening.flows peer ≡ None) }
{
    match timed.flow(peer) {
        Some(_) => {
            let mut life = life_of(lives, peer);
            life.user = user;
            lives.put(peer, &life);
            Ok(())
        }
        None => Err(NoFlow),
    }
}
