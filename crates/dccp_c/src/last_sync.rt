//! How C learns that the client of an end connects again.
ghost use Rattle.std.specs.Prelude.{◌≡◌};
ghost use Rattle.dccp_uses.specs.Anew.{refuses_sync};
ghost use Rattle.dccp_c.specs.LastSyncs.{client_began_anew, sync_kept, sync_noted, was_left_out, was_synced};

use crate::frame::Frame;
use crate::told::Told;
use dccp_endpoint::DecodedDatagram;
use dccp_uses::sync_refused;

/// The last Sync of a server's end, as its owner keeps it: all zeros at first.
#[repr(C)]
#[derive(Clone, Copy)]
pub struct LastSync {
    /// Its number.
    pub number: u64,
    /// Whether there was one.
    pub is_there: bool,
}

fn was_synced(told: &Told) -> bool
    ensures { result ≡ was_synced told.now }
{
    told.kind == 3
}

fn was_left_out(told: &Told) -> bool
    ensures { result ≡ was_left_out told.now }
{
    told.kind == 2 && told.cause == 12
}

// Whether a datagram refuses this Sync.
fn is_refused(last: &LastSync, datagram: &DecodedDatagram<'_>) -> bool
    ensures { result ≡ refuses_sync (sync_kept last.now) datagram.now }
{
    if !last.is_there {
        return false;
    }
    match sync_refused(datagram) {
        Some(number) => last.number == number.get(),
        None => false,
    }
}

// A datagram was heard, and this frame answers it.
fn note(last: &mut LastSync, datagram: &DecodedDatagram<'_>, told: &Told, frame: &Frame)
    ensures { sync_kept last.new ≡ sync_noted (sync_kept last.old) datagram.now told.now frame.now.number }
{
    if was_synced(told) && sync_refused(datagram).is_none() {
        *last = LastSync {
            number: frame.number,
            is_there: true,
        };
    }
}

/// Whether the client of a server's end has connected again from its port, by what `dccp_receive` has said about its
/// datagram, and by the end's last Sync, which its owner keeps. This call updates the last Sync.
#[unsafe(no_mangle)]
pub extern "C" fn dccp_begins_anew(
    last: &mut LastSync,
    datagram: &[u8],
    told: &Told,
    frame: &Frame,
) -> bool
    ensures anew { result ≡ client_began_anew (sync_kept last.old) datagram.now told.now }
    ensures last { sync_kept last.new ≡ sync_noted (sync_kept last.old) datagram.now told.now frame.now.number }
{
    if !was_synced(told) && !was_left_out(told) {
        return false;
    }
    let decoded = DecodedDatagram::new(datagram);
    let begins = is_refused(last, &decoded);
    note(last, &decoded, told, frame);
    begins
}
