//! The first number of a listener's flow, drawn from a key.
ghost use Rattle.std.specs.Prelude.{◌≡◌, ◌==◌};
ghost use Rattle.dccp_c.specs.FlowNumbers.{number_by};
ghost use Rattle.dccp_c.specs.Seeing.{if_sized, sized_code};

use crate::codes::{DONE, OTHER_SIZE};
use crate::making::first_four;
use crate::peer::peer_named;
use crate::sizes::SETTINGS_BYTES;
use crate::{PeerAddress, Settings};
use server_peers::keyed_number;

/// The key from which a first number is drawn: 32 bytes that nobody can guess.
#[repr(C)]
#[derive(Drop)]
pub struct Key {
    /// Its bytes.
    pub bytes: [u8; 32],
}

fn number_by(listener: &Settings, key: &Key, peer: &PeerAddress, now: u64) -> u64
    ensures { result ≡ number_by listener.now key.now peer.now now }
{
    let own = first_four(&listener.own_address);
    keyed_number(&key.bytes, own, listener.own_port, peer_named(peer), now).get()
}

/// The first number of a flow of this peer that begins now, at a listener of these settings, drawn from a key (RFC
/// 4340, section 7.2; own). Returns DONE, or OTHER_SIZE for settings of another size.
#[unsafe(no_mangle)]
pub extern "C" fn dccp_listener_number(
    listener: &Settings,
    key: &Key,
    peer: &PeerAddress,
    now: u64,
    number: &mut u64,
) -> u32
    ensures number { number.new ≡ if_sized (listener.now.size == 80) (number_by listener.now key.now peer.now now) number.old }
    ensures code { result ≡ sized_code (listener.now.size == 80) 0 }
{
    if listener.size != SETTINGS_BYTES {
        return OTHER_SIZE;
    }
    *number = number_by(listener, key, peer, now);
    DONE
}
