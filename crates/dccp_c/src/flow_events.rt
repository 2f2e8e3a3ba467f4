//! The events that C gets about the flows of a listener, and the number that it may set for each flow.
ghost use Rattle.std.specs.Prelude.{◌≡◌, ◌==◌, unwrap_or};
ghost use Rattle.std.specs.Option.{option_map};
ghost use Rattle.dccp_c.specs.FlowEvents.{cause_number, event_after, event_code, event_kind, event_seen, next_event_in, plain_event, user_code, user_set_in};
ghost use Rattle.dccp_c.specs.Listening.{holding_in, inboxes_in, peer_named, watched_in};
ghost use Rattle.dccp_c.specs.Seeing.{if_sized, sized_code};

use crate::codes::{DONE, NO_EVENT, NOT_MADE, OTHER_SIZE};
use crate::listener_calls::{had_code, has_flow};
use crate::peer::{address_of, peer_named};
use crate::sizes::EVENT_VIEW_BYTES;
use crate::{ListenerHandle, PeerAddress};
use dccp_server::{EndCause, EndReason, EventKind, FlowEvent, event_kept};
use std::alloc::Global;

/// An event of a flow, as C may read it. Fields that do not belong to its kind are 0.
#[repr(C)]
#[derive(Clone, Copy)]
pub struct EventView {
    /// How many bytes this struct has, as its caller knows it.
    pub size: usize,
    /// The number that the owner has set for the flow.
    pub user: u64,
    /// The place of the first byte of its data in the datagram.
    pub first: usize,
    /// The place past the last byte of its data.
    pub past: usize,
    /// 0 opened, 1 data, 2 room, 3 ended, 4 data that wait in the inbox, 5 data that the inbox dropped.
    pub kind: u32,
    /// Why it has ended.
    pub cause: u32,
    /// The peer of the flow.
    pub peer: PeerAddress,
    /// The Reset Code by which it has ended, or 0 if no Reset was sent or received. For data, their Drop Code (RFC
    /// 4340, section 11.7).
    pub code: u8,
}

fn cause_number(cause: EndCause) -> u32
    ensures { result ≡ cause_number cause }
{
    match cause {
        EndCause::Peer => 0,
        EndCause::Own => 1,
        EndCause::Silent => 2,
        EndCause::Evicted => 3,
        EndCause::Fault => 4,
        EndCause::Anew => 5,
    }
}

// The event of a handshake that is complete.
fn plain_event(peer: PeerAddress, user: u64) -> EventView
    ensures { result ≡ plain_event peer user }
{
    EventView {
        size: EVENT_VIEW_BYTES,
        user,
        first: 0,
        past: 0,
        kind: 0,
        cause: 0,
        peer,
        code: 0,
    }
}

fn event_kind(kind: EventKind, plain: EventView) -> EventView
    ensures { result ≡ event_kind kind plain }
{
    match kind {
        EventKind::Opened => plain,
        EventKind::Data { first, past } => EventView {
            kind: 1,
            first,
            past,
            ..plain
        },
        EventKind::Waits => EventView { kind: 4, ..plain },
        EventKind::Dropped { code } => EventView {
            kind: 5,
            code,
            ..plain
        },
        EventKind::Room => EventView { kind: 2, ..plain },
        EventKind::Ended(EndReason { cause, code }) => EventView {
            kind: 3,
            cause: cause_number(cause),
            code: code.unwrap_or(0),
            ..plain
        },
    }
}

fn event_seen(event: &FlowEvent) -> EventView
    ensures { result ≡ event_seen event.now }
{
    event_kind(event.kind, plain_event(address_of(event.peer), event.user))
}

/// `EventServer::next_event`. Returns DONE, OTHER_SIZE, NOT_MADE, or NO_EVENT if there are no more events.
#[unsafe(no_mangle)]
pub extern "C" fn dccp_listener_event(
    listener: &mut ListenerHandle,
    alloc: Global,
    event: &mut EventView,
) -> u32
    ensures listener { watched_in listener.new.kept.value ≡ if_sized (event.old.size == 48) (event_after (watched_in listener.old.kept.value)) (watched_in listener.old.kept.value) }
    ensures inboxes { inboxes_in listener.new.kept.value ≡ inboxes_in listener.old.kept.value }
    ensures event { event.new ≡ if_sized (event.old.size == 48) (unwrap_or (option_map event_seen (next_event_in (holding_in listener.old.kept.value))) event.old) event.old }
    ensures code { result ≡ sized_code (event.old.size == 48) (event_code (watched_in listener.old.kept.value)) }
{
    if event.size != EVENT_VIEW_BYTES {
        return OTHER_SIZE;
    }
    let Some(mut serving) = listener.take(alloc) else {
        return NOT_MADE;
    };
    let next = serving.server.next_event();
    let arrival = serving.arrival;
    listener.put(serving);
    match next {
        Some(next) => {
            *event = event_seen(&event_kept(next, arrival));
            DONE
        }
        None => NO_EVENT,
    }
}

/// Sets a number for a peer's flow, which its events carry, and which is dropped with it. Returns DONE, NOT_MADE or
/// NO_FLOW.
#[unsafe(no_mangle)]
pub extern "C" fn dccp_listener_set_user(
    listener: &mut ListenerHandle,
    alloc: Global,
    peer: &PeerAddress,
    user: u64,
) -> u32
    ensures listener { watched_in listener.new.kept.value ≡ user_set_in user (watched_in listener.old.kept.value) (peer_named peer.now) }
    ensures inboxes { inboxes_in listener.new.kept.value ≡ inboxes_in listener.old.kept.value }
    ensures code { result ≡ user_code (watched_in listener.old.kept.value) (peer_named peer.now) }
{
    let Some(mut serving) = listener.take(alloc) else {
        return NOT_MADE;
    };
    let peer = peer_named(peer);
    let had = has_flow(serving.server.server(), peer);
    let _ = serving.server.set_user(peer, user);
    listener.put(serving);
    had_code(had)
}
