//! The name under which a listener knows a peer whose packets travel between other addresses.
ghost use Rattle.std.specs.Prelude.{◌≡◌};
ghost use Rattle.dccp_c.specs.FlowNames.{are_sized, name_by};
ghost use Rattle.dccp_c.specs.Seeing.{if_sized, sized_code};

use crate::codes::{DONE, OTHER_SIZE};
use crate::making::{first_four, pseudo_of};
use crate::peer::address_of;
use crate::sizes::SETTINGS_BYTES;
use crate::{PeerAddress, Settings};
use server_peers::stand_in;

fn name_by(listener: &Settings, path: &Settings, turn: u16) -> PeerAddress
    ensures { result ≡ name_by listener.now path.now turn }
{
    let own = first_four(&listener.own_address);
    address_of(stand_in(own, &pseudo_of(path), path.peer_port, turn))
}

/// The name under which a listener of these settings knows the peer of a path: one of IPv6, or of addresses and a port
/// on which both ends have agreed. Each turn gives another name. Returns DONE, or OTHER_SIZE for settings of another
/// size.
#[unsafe(no_mangle)]
pub extern "C" fn dccp_listener_name(
    listener: &Settings,
    path: &Settings,
    turn: u16,
    peer: &mut PeerAddress,
) -> u32
    ensures peer { peer.new ≡ if_sized (are_sized listener.now path.now) (name_by listener.now path.now turn) peer.old }
    ensures code { result ≡ sized_code (are_sized listener.now path.now) 0 }
{
    if listener.size != SETTINGS_BYTES || path.size != SETTINGS_BYTES {
        return OTHER_SIZE;
    }
    *peer = name_by(listener, path, turn);
    DONE
}
