//! Which datagrams an end does not hear, since it has sent too many Syncs.
ghost use Rattle.std.specs.Prelude.{◌≡◌};
ghost use Rattle.dccp_uses.specs.Syncs.{admitted, admitted_by, admitted_within, sync_bucketed};

use crate::judgement::judge;
use crate::{Notice, Path};
use dccp_endpoint::{Congestion, DecodedDatagram, Endpoint, Seq48};
use path_rules::{far_syncs, is_near_greatest, near_syncs};

// Takes a token for a Sync, if there is one. Returns whether there was.
fn take_token(path: &mut Path, near: bool, now: u64) -> bool
    ensures heard { result ≡ (sync_bucketed path.old near now).heard }
    ensures path { path.new ≡ (sync_bucketed path.old near now).path }
{
    if near {
        let taking = path.near.take(&near_syncs(), now);
        path.near = taking.bucket;
        return taking.granted;
    }
    let taking = path.far.take(&far_syncs(), now);
    path.far = taking.bucket;
    taking.granted
}

fn admit_by(path: &mut Path, number: Option<Seq48>, gsr: Seq48, now: u64) -> bool
    ensures heard { result ≡ (admitted_by path.old number gsr now).heard }
    ensures path { path.new ≡ (admitted_by path.old number gsr now).path }
{
    match number {
        Some(number) => take_token(path, is_near_greatest(number, gsr), now),
        None => true,
    }
}

// Whether a datagram with this number is heard, by the limits of Syncs.
fn admit_within(path: &mut Path, number: Option<Seq48>, gsr: Seq48, now: u64) -> bool
    ensures heard { result ≡ (admitted_within path.old number gsr now).heard }
    ensures path { path.new ≡ (admitted_within path.old number gsr now).path }
{
    if path.pace.limits_syncs {
        admit_by(path, number, gsr, now)
    } else {
        true
    }
}

/// Whether a datagram is heard: one whose numbers would bring a Sync is heard if there is a token for that (own; RFC
/// 4340, section 7.5.4, limits the Syncs). What it says about the application that reads the end's data is noted, for
/// `Path::hear`. Its checksum and ports are not checked here: if they are wrong, it is dropped in any case.
pub fn admit<C: Congestion>(
    end: &Endpoint<C>,
    path: &mut Path,
    datagram: &DecodedDatagram<'_>,
    now: u64,
) -> bool
    ensures heard { result ≡ (admitted end.now.state path.old datagram.now now).heard }
    ensures path { path.new ≡ (admitted end.now.state path.old datagram.now now).path }
{
    let heeds = path.pace.heeds;
    if !path.pace.limits_syncs && !heeds {
        return true;
    }
    let judgement = judge(end, &path.reader, datagram);
    let heard = admit_within(path, judgement.number, end.marks().gsr, now);
    if heeds {
        path.notice = if heard {
            judgement.notice
        } else {
            Notice::none()
        };
    }
    heard
}
