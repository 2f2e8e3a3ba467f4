//! When a peer connects again while its old flow is there.
ghost use Rattle.std.specs.Prelude.{◌≡◌};
ghost use Rattle.dccp_server.specs.Anew.{begins_anew, refuses_last_sync, signs_noted};

use dccp_endpoint::DecodedDatagram;
use dccp_uses::{refuses_sync, sync_refused};
use server_peers::{Life, Rules, Signs};

/// Whether the datagram is the Reset with which a client in REQUEST refuses the last Sync of its old flow.
pub(crate) fn refuses_last_sync(rules: &Rules, life: &Life, datagram: &DecodedDatagram<'_>) -> bool
    ensures { result ≡ refuses_last_sync rules.now life.now datagram.now }
{
    rules.ends_old_flows && refuses_sync(life.sync, datagram)
}

/// Whether the peer has connected again, by its life before the datagram and by the signs in the datagram.
pub(crate) fn begins_anew(
    rules: &Rules,
    life: &Life,
    datagram: &DecodedDatagram<'_>,
    signs: Signs,
) -> bool
    ensures { result ≡ begins_anew rules.now life.now datagram.now signs }
{
    signs.synced && refuses_last_sync(rules, life, datagram)
}

/// What a datagram says about its peer, as far as it is kept.
pub(crate) fn signs_noted(datagram: &DecodedDatagram<'_>, signs: Signs) -> Signs
    ensures { result ≡ signs_noted datagram.now signs }
{
    Signs {
        taken: signs.taken,
        synced: signs.synced && sync_refused(datagram).is_none(),
    }
}
