//! The functions of a listener that C calls: each does one thing with the listener that its handle holds.
ghost use Rattle.std.specs.Prelude.{◌≡◌, ◌==◌, ◌≤◌, IfErr, IfOk, None, Ok, Some, OnErr, OnOk, false, if◌then◌else◌, is_some, length, true, unwrap_or};
ghost use Rattle.dccp_listener.specs.Calls.{seen_if};
ghost use Rattle.dccp_listener.specs.Chain.{Aborts, Calls, Closes, Fires, Sends, asked};
ghost use Rattle.dccp_listener.specs.Listens.{listens};
ghost use Rattle.dccp_listener.specs.Runs.{Stepped};
ghost use Rattle.std.specs.Option.{option_map};
ghost use Rattle.dccp_c.specs.Framing.{handed_in, handed_of};
ghost use Rattle.dccp_c.specs.Making.{MakesCode, care_by};
ghost use Rattle.dccp_c.specs.Founding.{founded_of, listening_by};
ghost use Rattle.dccp_listener.specs.Peers.{end_of_peer};
ghost use Rattle.dccp_packets.specs.ResetCodes.{number_of_code};
ghost use Rattle.dccp_packets.specs.declared.reset_code.ResetCode.TheVariants as codes;
ghost use Rattle.dccp_server.specs.Events.{ends_old, entry_at, heard_on, is_shut_out, room_maker, shut_out};
ghost use Rattle.dccp_server.specs.FlowDrops.{flow_record_after};
ghost use Rattle.dccp_server.specs.FlowInboxes.{flow_speaks};
ghost use Rattle.server_peers.specs.Lives.{life_of};
ghost use Rattle.dccp_server.specs.Refusals.{refused_frame};
ghost use Rattle.dccp_server.specs.Meeting.{IsMet, may_meet};
ghost use Rattle.dccp_server.specs.Rooms.{duty_frame, duty_in};
ghost use Rattle.dccp_server.specs.Serving.{flow_restraint};
ghost use Rattle.server_peers.specs.Strangers.{told_of_arrival};
ghost use Rattle.dccp_c.specs.Seeing.{if_sized, sized_code};
ghost use Rattle.dccp_c.specs.Codes.{timer_coded};
ghost use Rattle.dccp_c.specs.Listening.{Forgets, HandsHeard, HasTakenIn, HearsDatagram, HearsIfOpen, MayDeliver, SendsUnheld, Serves, ServesIfKnown, Ticks, address_of, arrival_code, arrival_told, cookies_of, counted_of, datagram_refusal, duty_address, duty_code, duty_left, evicted_in, first_peer_in, flow_code, flow_in, flows_in, holding_in, holding_of, holds_called, holds_done, holds_forgotten, holds_on, holds_ticked, inboxes_in, known_of, life_in, listen_code, listener_waits, made_code, next_peer_in, peer_named, rekeyed_in, restraint_in, ruled_by, rules_of, served_in, watched_in, way_in, way_number};

use crate::codes::{
    BUSY, DONE, GAVE_UP, NO_FLOW, NO_MEMORY, NO_NUMBER, NO_TIMER, NOT_MADE, NOTHING_DUE,
    OTHER_SIZE, REFUSED, TOO_LONG, refusal_code, restraint_code, timer_code, timer_of,
};
use crate::flow_rules::{cookies_of, known_of, rules_of};
use crate::founding::listening_by;
use crate::frame::Frame;
use crate::making::care_by;
use crate::peer::{address_of, peer_named};
use crate::readers::seen;
use crate::serving::OwnedServer;
use crate::sizes::{FLOW_LIFE_BYTES, FLOW_RULES_BYTES, VIEW_BYTES};
use crate::told::{Told, told_arrival, told_heard, told_outcome};
use crate::{FlowLife, FlowRules, Key, ListenerHandle, PeerAddress, Settings, View, Wish};
use dccp_endpoint::{DecodedDatagram, MOST_FRAME_BYTES, NoMemory, Outbox, Seen, Seq48, UserCall};
use dccp_listener::{Heard, NoFlow, Peer};
use dccp_server::{
    Duty, EventServer, FlowDropRecord, FlowInboxes, Meeting, NoNewFlows, Rules, Server, Way,
    room_maker,
};
use dccp_uses::{Restraint, Rule};
use std::alloc::Global;

fn call_code(answer: &Result<Seen, NoFlow>) -> u32
    ensures { result ≡ listen_code (Stepped (seen_if answer.now)) }
{
    match *answer {
        Ok(Seen::Called(Ok(())) | Seen::Received(_)) => DONE,
        Ok(Seen::Called(Err(refusal))) => refusal_code(refusal),
        Ok(Seen::Fired(applies)) => timer_code(applies),
        Err(NoFlow) => NO_FLOW,
    }
}

// Tells C what became of a datagram, which may have been left out.
fn tell_arrival(heard: Option<Heard>, told: &mut Told) -> u32
    ensures told { told.new ≡ arrival_told (told_of_arrival (Ok heard)) told.old }
    ensures code { result ≡ arrival_code (told_of_arrival (Ok heard)) }
{
    match heard {
        Some(Heard::Flow(outcome)) => {
            *told = told_outcome(&outcome);
            DONE
        }
        Some(Heard::Busy) => BUSY,
        None => {
            *told = told_heard(None);
            DONE
        }
    }
}

// What is read of a peer's end, if it has one.
fn view_of(server: &Server, peer: Peer) -> Option<View>
    ensures { result ≡ flow_in (Some server.now) peer }
{
    let end = server.flow(peer)?;
    Some(seen(end, server.upkeep(peer).path.reader.allowance))
}

fn address_if(peer: Option<Peer>) -> Option<PeerAddress>
    ensures { result ≡ option_map address_of peer }
{
    Some(address_of(peer?))
}

/// Writes what was found of a flow, or its peer, into this place. Returns DONE, or NO_FLOW if nothing was found.
pub(crate) fn hand_found<T: Copy>(found: Option<T>, place: &mut T) -> u32
    ensures place { place.new ≡ unwrap_or found place.old }
    ensures code { result ≡ (if is_some found then 0 else 15) }
{
    match found {
        Some(found) => {
            *place = found;
            DONE
        }
        None => NO_FLOW,
    }
}

/// Makes a listener, in place of what the handle held, which is freed first. It serves the settings' own address and
/// port, by IPv4, and these Service Codes, or if none are given, that of the settings. It has at most `most` flows at a
/// time, 1 to 1,024. Refused as `dccp_make` is, and with NO_SUCH_LISTENER for IPv6, for another `most`, and for more
/// than 16 Service Codes or two equal ones. Then the handle holds nothing.
#[unsafe(no_mangle)]
pub extern "C" fn dccp_listener_make(
    listener: &mut ListenerHandle,
    alloc: Global,
    settings: &Settings,
    services: &[u32],
    wishes: &[Wish],
    most: u16,
) -> u32
    ensures listener { holding_in listener.new.kept.value ≡ founded_of result (care_by settings.now) (listening_by settings.now services.now wishes.now most) }
    ensures code { MakesCode (listening_by settings.now services.now wishes.now most) result }
{
    *listener = ListenerHandle::none(alloc);
    let config = match listening_by(settings, services, wishes, most) {
        Ok(config) => config,
        Err(code) => return code,
    };
    let care = care_by(settings);
    let inboxes = FlowInboxes::new(alloc, care.most_held, config.most);
    let server = EventServer::new(alloc, config, care.pace, Rules::usual());
    let Ok(drops) = FlowDropRecord::new(alloc) else {
        return NO_MEMORY;
    };
    let serving = OwnedServer {
        server,
        out: Outbox::new(),
        evicted: None,
        way: Way::Plain,
        drops,
        inboxes,
        arrival: None,
    };
    match Box::new(alloc, serving) {
        Ok(serving) => {
            listener.put(serving);
            DONE
        }
        Err(_) => NO_MEMORY,
    }
}

/// Frees what the handle holds, if anything.
#[unsafe(no_mangle)]
pub extern "C" fn dccp_listener_free(listener: &mut ListenerHandle, alloc: Global)
    ensures { listener.new.kept.value ≡ None }
{
    *listener = ListenerHandle::none(alloc);
}

// A datagram that is short enough, at a server.
fn hear(
    serving: &mut OwnedServer,
    peer: Peer,
    iss: Seq48,
    datagram: &DecodedDatagram<'_>,
    now: u64,
) -> Result<Meeting, NoNewFlows>
    requires { length datagram.now ≤ 2044 }
    ensures taken { OnOk result (is_shut_out serving.old.server peer datagram.now ≡ false) }
    ensures shut { OnErr result ((is_shut_out serving.old.server peer datagram.now ≡ true) × (serving.new.server ≡ shut_out now serving.old.server peer datagram.now)
        × (serving.new.out ≡ refused_frame now serving.old.server.server peer datagram.now (number_of_code codes.ConnectionRefused))) }
    ensures met { IfOk result (λ it. IsMet now serving.old.server.server serving.new.server.server peer iss datagram.now serving.new.out it.arrival.heard it.arrival.evicted it.arrival.anew it.made_room it.way) }
    ensures may { IfOk result (λ it. may_meet (entry_at now serving.old.server peer iss datagram.now) it.way ≡ true) }
    ensures told { IfOk result (λ it. serving.new.server ≡ heard_on now serving.old.server serving.new.server.server peer datagram.now (told_of_arrival it.arrival.heard) (room_maker it.made_room it.arrival.evicted) (ends_old it.arrival.anew it.way)) }
    ensures evicted { IfOk result (λ it. serving.new.evicted ≡ room_maker it.made_room it.arrival.evicted) }
    ensures way { IfOk result (λ it. serving.new.way ≡ it.way) }
    ensures drops { OnOk result (serving.new.drops ≡ flow_record_after peer (counted_of serving.old.server.server peer) (counted_of serving.new.server.server peer) datagram.now serving.old.drops) }
    ensures none_dropped { OnErr result (serving.new.drops ≡ serving.old.drops) }
    ensures inboxes { serving.new.inboxes ≡ serving.old.inboxes }
    ensures arrival { serving.new.arrival ≡ serving.old.arrival }
{
    serving.evicted = None;
    serving.way = Way::Plain;
    let before = serving.server.server().reader(peer);
    let meeting = serving
        .server
        .arrive(peer, iss, datagram, now, &mut serving.out)?;
    serving.evicted = room_maker(meeting.made_room, meeting.arrival.evicted);
    serving.way = meeting.way;
    let after = serving.server.server().reader(peer);
    serving.drops.heard(peer, &before, &after, datagram);
    Ok(meeting)
}

// The data of a datagram come into the peer's inbox, unless there is no memory for it.
fn settle(
    serving: &mut OwnedServer,
    peer: Peer,
    datagram: &DecodedDatagram<'_>,
    heard: &Result<Option<Heard>, NoMemory>,
)
    ensures came { MayDeliver serving.old.inboxes serving.old.server.server peer datagram.now (told_of_arrival heard.now) (record { inboxes = serving.new.inboxes; arrival = serving.new.arrival }) }
    ensures server { serving.new.server ≡ serving.old.server }
    ensures sent { serving.new.out ≡ serving.old.out }
    ensures evicted { serving.new.evicted ≡ serving.old.evicted }
    ensures way { serving.new.way ≡ serving.old.way }
    ensures drops { serving.new.drops ≡ serving.old.drops }
{
    let server = serving.server.server();
    serving.arrival = match serving
        .inboxes
        .settle(server, peer, datagram.bytes(), heard)
    {
        Ok(kept) => kept,
        Err(NoMemory) => None,
    };
}

// The same for a datagram that was heard; `had` says whether its peer had a flow before. What the peer's inbox has to
// say is added to the frame for the peer.
fn take_in(
    serving: &mut OwnedServer,
    peer: Peer,
    had: bool,
    datagram: &DecodedDatagram<'_>,
    meeting: &Meeting,
)
    ensures taken { HasTakenIn (holding_of serving.old) (holding_of serving.new) peer had datagram.now (told_of_arrival meeting.now.arrival.heard) meeting.now.made_room meeting.now.arrival.evicted }
    ensures sent { serving.new.out ≡ flow_speaks serving.new.inboxes serving.new.server.server peer serving.old.out }
    ensures server { serving.new.server ≡ serving.old.server }
    ensures evicted { serving.new.evicted ≡ serving.old.evicted }
    ensures way { serving.new.way ≡ serving.old.way }
    ensures drops { serving.new.drops ≡ serving.old.drops }
{
    serving.inboxes.begin(serving.server.server(), peer, had);
    settle(serving, peer, datagram, &meeting.arrival.heard);
    let server = serving.server.server();
    serving.inboxes.tidy(server, peer);
    serving.inboxes.tidy_if(server, meeting.made_room);
    serving.inboxes.tidy_if(server, meeting.arrival.evicted);
    serving.inboxes.speak(server, peer, &mut serving.out);
}

// What C gets for a datagram and its data: the frame, what became of it, and the code.
fn hand(
    heard: &Result<Option<Heard>, NoMemory>,
    kept: Option<data_dropped::Arrival>,
    out: &Outbox,
    frame: &mut Frame,
    told: &mut Told,
) -> u32
    ensures { HandsHeard heard.now kept out.now (handed_in frame.new) result told.old told.new }
{
    match heard {
        Ok(heard) => {
            frame.fill(out);
            let code = tell_arrival(*heard, told);
            *told = told_arrival(kept, *told);
            code
        }
        Err(NoMemory) => {
            frame.clear();
            NO_MEMORY
        }
    }
}

// A datagram that is short enough, at a server, for C, with one search for what is kept of the peer.
fn serve_decoded(
    serving: &mut OwnedServer,
    peer: Peer,
    iss: Seq48,
    datagram: &DecodedDatagram<'_>,
    now: u64,
    frame: &mut Frame,
    told: &mut Told,
) -> u32
    requires { length datagram.now ≤ 2044 }
    ensures { HearsIfOpen now (holding_of serving.old) (holding_of serving.new) peer iss datagram.now (is_shut_out serving.old.server peer datagram.now) (handed_in frame.new) serving.new.evicted serving.new.way result told.old told.new }
{
    serving.server.seek(peer);
    let had = has_flow(serving.server.server(), peer);
    match hear(serving, peer, iss, datagram, now) {
        Ok(meeting) => {
            take_in(serving, peer, had, datagram, &meeting);
            hand(
                &meeting.arrival.heard,
                serving.arrival,
                &serving.out,
                frame,
                told,
            )
        }
        Err(NoNewFlows) => {
            frame.fill(&serving.out);
            REFUSED
        }
    }
}

// The same for its bytes.
fn serve(
    serving: &mut OwnedServer,
    peer: Peer,
    iss: Seq48,
    datagram: &[u8],
    now: u64,
    frame: &mut Frame,
    told: &mut Told,
) -> u32
    requires { length datagram.now ≤ 2044 }
    ensures { HearsIfOpen now (holding_of serving.old) (holding_of serving.new) peer iss datagram.now (is_shut_out serving.old.server peer datagram.now) (handed_in frame.new) serving.new.evicted serving.new.way result told.old told.new }
{
    let decoded = DecodedDatagram::new(datagram);
    serve_decoded(serving, peer, iss, &decoded, now, frame, told)
}

/// `EventServer::arrive`. BUSY if it answers Busy, and REFUSED if no new flows are taken and the datagram would open
/// one. NO_NUMBER if the first number is not below 2^48, and TOO_LONG if the datagram is too long; then nothing
/// changes, nor with NOT_MADE. With NO_MEMORY nothing changes, except that a flow may have made room. C is told what
/// became of the datagram only if the code is DONE.
#[unsafe(no_mangle)]
pub extern "C" fn dccp_listener_arrive(
    listener: &mut ListenerHandle,
    alloc: Global,
    peer: &PeerAddress,
    first_number: u64,
    datagram: &[u8],
    now: u64,
    frame: &mut Frame,
    told: &mut Told,
) -> u32
    ensures { HearsDatagram now (holding_in listener.old.kept.value) (holding_in listener.new.kept.value) (peer_named peer.now) first_number datagram.now (datagram_refusal first_number datagram.now) (handed_in frame.new) (evicted_in listener.new.kept.value) (way_in listener.new.kept.value) result told.old told.new }
{
    frame.clear();
    let Some(iss) = Seq48::new(first_number) else {
        return NO_NUMBER;
    };
    if MOST_FRAME_BYTES < datagram.len() {
        return TOO_LONG;
    }
    let Some(mut serving) = listener.take(alloc) else {
        return NOT_MADE;
    };
    let code = serve(
        &mut serving,
        peer_named(peer),
        iss,
        datagram,
        now,
        frame,
        told,
    );
    listener.put(serving);
    code
}

/// The peer whose flow made room for the last datagram. Returns DONE, NOT_MADE, or NO_FLOW if none did.
#[unsafe(no_mangle)]
pub extern "C" fn dccp_listener_evicted(
    listener: &mut ListenerHandle,
    alloc: Global,
    peer: &mut PeerAddress,
) -> u32
    ensures listener { listener.new.kept.value ≡ listener.old.kept.value }
    ensures peer { peer.new ≡ unwrap_or (option_map address_of (evicted_in listener.old.kept.value)) peer.old }
    ensures code { result ≡ flow_code (served_in listener.old.kept.value) (evicted_in listener.old.kept.value) }
{
    let Some(serving) = listener.take(alloc) else {
        return NOT_MADE;
    };
    let found = serving.evicted;
    listener.put(serving);
    hand_found(address_if(found), peer)
}

/// How the last datagram was met. 0: it was served as usual. 1: it was a Request, and was answered with an Init Cookie,
/// without a flow. 2: it was a Request, and was left out. 3: its Init Cookie opened its flow. 4: it had a valid Init
/// Cookie, but no flow could be opened.
#[unsafe(no_mangle)]
pub extern "C" fn dccp_listener_way(listener: &mut ListenerHandle, alloc: Global) -> u32
    ensures listener { listener.new.kept.value ≡ listener.old.kept.value }
    ensures way { result ≡ way_number (way_in listener.old.kept.value) }
{
    let Some(serving) = listener.take(alloc) else {
        return 0;
    };
    let way = serving.way;
    listener.put(serving);
    way_number(way)
}

fn way_number(way: Way) -> u32
    ensures { result ≡ way_number way }
{
    match way {
        Way::Plain => 0,
        Way::Greeted => 1,
        Way::Unanswered => 2,
        Way::Reopened => 3,
        Way::Unopened => 4,
    }
}

/// How many flows there are; 0 if there is no listener.
#[unsafe(no_mangle)]
pub extern "C" fn dccp_listener_flows(listener: &mut ListenerHandle, alloc: Global) -> u16
    ensures listener { listener.new.kept.value ≡ listener.old.kept.value }
    ensures flows { result ≡ flows_in (served_in listener.old.kept.value) }
{
    let Some(serving) = listener.take(alloc) else {
        return 0;
    };
    let flows = serving.server.server().flows();
    listener.put(serving);
    flows
}

// A peer's flow has done something. Its inbox goes with it, unless data wait there. What the inbox has to say is added
// to its frame.
fn go_on(serving: &mut OwnedServer, peer: Peer)
    ensures after { holding_of serving.new ≡ holds_on (holding_of serving.old) peer serving.old.server }
    ensures sent { serving.new.out ≡ flow_speaks serving.new.inboxes serving.new.server.server peer serving.old.out }
{
    let server = serving.server.server();
    serving.inboxes.tidy(server, peer);
    serving.inboxes.speak(server, peer, &mut serving.out);
}

// A call of a peer's end, at a server.
fn ask(serving: &mut OwnedServer, peer: Peer, call: UserCall<'_>, now: u64) -> Result<Seen, NoFlow>
    ensures after { holding_of serving.new ≡ holds_called now (holding_of serving.old) peer (asked call.entry) }
    ensures sent { serving.new.out ≡ flow_speaks serving.new.inboxes serving.new.server.server peer (listens serving.old.server.server.room.served.listening peer (Calls (asked call.entry))).frame }
    ensures told { Stepped (seen_if result) ≡ (listens serving.old.server.server.room.served.listening peer (Calls (asked call.entry))).told }
{
    serving.server.seek(peer);
    let answer = serving.server.ask(peer, call, now, &mut serving.out);
    go_on(serving, peer);
    answer
}

/// A call of a peer's end, for C.
pub(crate) fn call(
    listener: &mut ListenerHandle,
    alloc: Global,
    peer: Peer,
    call: UserCall<'_>,
    now: u64,
    frame: &mut Frame,
) -> u32
    ensures { Serves now (holding_in listener.old.kept.value) (holding_in listener.new.kept.value) peer (asked call.entry) (handed_in frame.new) result }
{
    frame.clear();
    let Some(mut serving) = listener.take(alloc) else {
        return NOT_MADE;
    };
    let answer = ask(&mut serving, peer, call, now);
    frame.fill(&serving.out);
    listener.put(serving);
    call_code(&answer)
}

// Data to a peer, at a server.
fn send(
    serving: &mut OwnedServer,
    peer: Peer,
    payload: &[u8],
    now: u64,
) -> Result<Result<Seen, NoFlow>, Restraint>
    ensures held { IfErr result (λ why. flow_restraint serving.old.server.server.room.served peer ≡ Some why) }
    ensures unchanged { OnErr result ((holding_of serving.new ≡ holding_of serving.old) × (serving.new.out ≡ None)) }
    ensures free { OnOk result (flow_restraint serving.old.server.server.room.served peer ≡ None) }
    ensures after { OnOk result (holding_of serving.new ≡ holds_called now (holding_of serving.old) peer (Sends payload.now)) }
    ensures sent { OnOk result (serving.new.out ≡ flow_speaks serving.new.inboxes serving.new.server.server peer (listens serving.old.server.server.room.served.listening peer (Calls (Sends payload.now))).frame) }
    ensures told { IfOk result (λ answer. Stepped (seen_if answer) ≡ (listens serving.old.server.server.room.served.listening peer (Calls (Sends payload.now))).told) }
{
    serving.server.seek(peer);
    let answer = serving.server.send(peer, payload, now, &mut serving.out)?;
    go_on(serving, peer);
    Ok(answer)
}

/// `Server::send`. Returns DONE, NOT_MADE,
/// NOT_LISTENING, NO_FLOW, NOT_OPEN, TOO_LONG, NOT_NEGOTIATED or WINDOW_FULL.
#[unsafe(no_mangle)]
pub extern "C" fn dccp_listener_send(
    listener: &mut ListenerHandle,
    alloc: Global,
    peer: &PeerAddress,
    payload: &[u8],
    now: u64,
    frame: &mut Frame,
) -> u32
    ensures { SendsUnheld now (holding_in listener.old.kept.value) (holding_in listener.new.kept.value) (peer_named peer.now) payload.now (handed_in frame.new) result (restraint_in (served_in listener.old.kept.value) (peer_named peer.now)) }
{
    let peer = peer_named(peer);
    frame.clear();
    let Some(mut serving) = listener.take(alloc) else {
        return NOT_MADE;
    };
    let answer = send(&mut serving, peer, payload, now);
    frame.fill(&serving.out);
    listener.put(serving);
    match answer {
        Ok(answer) => call_code(&answer),
        Err(why) => restraint_code(&why),
    }
}

/// `Server::ask` with `UserCall::Close`. Returns DONE, NOT_MADE, NO_FLOW or NOT_OPEN.
#[unsafe(no_mangle)]
pub extern "C" fn dccp_listener_close(
    listener: &mut ListenerHandle,
    alloc: Global,
    peer: &PeerAddress,
    now: u64,
    frame: &mut Frame,
) -> u32
    ensures { Serves now (holding_in listener.old.kept.value) (holding_in listener.new.kept.value) (peer_named peer.now) Closes (handed_in frame.new) result }
{
    let peer = peer_named(peer);
    call(listener, alloc, peer, UserCall::Close, now, frame)
}

/// `Server::ask` with `UserCall::Abort`. Returns DONE, NOT_MADE, NO_FLOW or NOT_LIVE.
#[unsafe(no_mangle)]
pub extern "C" fn dccp_listener_abort(
    listener: &mut ListenerHandle,
    alloc: Global,
    peer: &PeerAddress,
    now: u64,
    frame: &mut Frame,
) -> u32
    ensures { Serves now (holding_in listener.old.kept.value) (holding_in listener.new.kept.value) (peer_named peer.now) Aborts (handed_in frame.new) result }
{
    let peer = peer_named(peer);
    call(listener, alloc, peer, UserCall::Abort, now, frame)
}

/// `Server::ask` with `UserCall::Timer`, for the timer with this number: for an owner that keeps the timers of a flow
/// itself. Returns DONE, NOT_MADE, NO_FLOW, NOTHING_DUE, or NO_TIMER if no timer has this number; then nothing changes.
#[unsafe(no_mangle)]
pub extern "C" fn dccp_listener_timer(
    listener: &mut ListenerHandle,
    alloc: Global,
    peer: &PeerAddress,
    timer: u32,
    now: u64,
    frame: &mut Frame,
) -> u32
    ensures { ServesIfKnown now (holding_in listener.old.kept.value) (holding_in listener.new.kept.value) (peer_named peer.now) 16 (option_map Fires (timer_coded timer)) (handed_in frame.new) result }
{
    frame.clear();
    let Some(timer) = timer_of(timer) else {
        return NO_TIMER;
    };
    let peer = peer_named(peer);
    call(listener, alloc, peer, UserCall::Timer(timer), now, frame)
}

fn duty_code(duty: Option<Duty>) -> u32
    ensures { result ≡ duty_code duty }
{
    match duty {
        None => NOTHING_DUE,
        Some(Duty::GiveUp(_) | Duty::Follow(_, Rule::GiveUp)) => GAVE_UP,
        Some(
            Duty::Ring(_, _)
            | Duty::Follow(
                _,
                Rule::Nothing | Rule::TimeOut | Rule::Probe | Rule::Ask | Rule::Ratio,
            ),
        ) => DONE,
    }
}

fn duty_address(duty: Option<Duty>, old: PeerAddress) -> PeerAddress
    ensures { result ≡ duty_address duty old }
{
    match duty {
        None => old,
        Some(Duty::Ring(peer, _) | Duty::Follow(peer, _) | Duty::GiveUp(peer)) => address_of(peer),
    }
}

// The flow of a duty goes on, if there was one.
fn go_on_if(serving: &mut OwnedServer, duty: Option<Duty>)
    ensures after { holding_of serving.new ≡ holds_done (holding_of serving.old) serving.old.server duty }
    ensures sent { handed_of serving.new.out ≡ duty_left (holding_of serving.new) duty serving.old.out }
{
    if let Some(duty) = duty {
        go_on(serving, duty.peer());
    }
}

// A tick of a server.
fn do_duty(serving: &mut OwnedServer, now: u64) -> Option<Duty>
    ensures duty { result ≡ duty_in now serving.old.server.server.rules serving.old.server.server.room }
    ensures after { holding_of serving.new ≡ holds_ticked now (holding_of serving.old) result }
    ensures sent { handed_of serving.new.out ≡ duty_left (holding_of serving.new) result (duty_frame now serving.old.server.server.room result) }
{
    let duty = serving.server.tick(now, &mut serving.out);
    go_on_if(serving, duty);
    duty
}

/// Does what is due at a flow: fires a timer, or follows a rule of its path. If nothing is due, gives up a flow that
/// has been in its phase or silent for too long, by aborting it. C gets the peer. Returns DONE, GAVE_UP, NOT_MADE, or
/// NOTHING_DUE if there is nothing to do.
#[unsafe(no_mangle)]
pub extern "C" fn dccp_listener_tick(
    listener: &mut ListenerHandle,
    alloc: Global,
    now: u64,
    peer: &mut PeerAddress,
    frame: &mut Frame,
) -> u32
    ensures { Ticks now (holding_in listener.old.kept.value) (holding_in listener.new.kept.value) (handed_in frame.new) peer.old peer.new result }
{
    frame.clear();
    let Some(mut serving) = listener.take(alloc) else {
        return NOT_MADE;
    };
    let duty = do_duty(&mut serving, now);
    *peer = duty_address(duty, *peer);
    frame.fill(&serving.out);
    listener.put(serving);
    duty_code(duty)
}

/// In how many milliseconds `dccp_listener_tick` has something to do; 2^64 - 1 if no timer runs.
#[unsafe(no_mangle)]
pub extern "C" fn dccp_listener_until_first(
    listener: &mut ListenerHandle,
    alloc: Global,
    now: u64,
) -> u64
    ensures listener { listener.new.kept.value ≡ listener.old.kept.value }
    ensures wait { result ≡ listener_waits now (served_in listener.old.kept.value) }
{
    let Some(serving) = listener.take(alloc) else {
        return u64::MAX;
    };
    let left = serving.server.server().until_first(now);
    listener.put(serving);
    left
}

/// The numbers of a peer's end, its phase and its window. Returns DONE, OTHER_SIZE, NOT_MADE or NO_FLOW.
#[unsafe(no_mangle)]
pub extern "C" fn dccp_listener_look(
    listener: &mut ListenerHandle,
    alloc: Global,
    peer: &PeerAddress,
    view: &mut View,
) -> u32
    ensures listener { listener.new.kept.value ≡ listener.old.kept.value }
    ensures view { view.new ≡ if_sized (view.old.size == 72) (unwrap_or (flow_in (served_in listener.old.kept.value) (peer_named peer.now)) view.old) view.old }
    ensures code { result ≡ sized_code (view.old.size == 72) (flow_code (served_in listener.old.kept.value) (flow_in (served_in listener.old.kept.value) (peer_named peer.now))) }
{
    if view.size != VIEW_BYTES {
        return OTHER_SIZE;
    }
    let Some(serving) = listener.take(alloc) else {
        return NOT_MADE;
    };
    let found = view_of(serving.server.server(), peer_named(peer));
    listener.put(serving);
    hand_found(found, view)
}

/// The first peer that has a flow, in the order of their addresses and ports. Returns DONE, NOT_MADE, or NO_FLOW if
/// none has one; then `peer` is unchanged.
#[unsafe(no_mangle)]
pub extern "C" fn dccp_listener_first_peer(
    listener: &mut ListenerHandle,
    alloc: Global,
    peer: &mut PeerAddress,
) -> u32
    ensures listener { listener.new.kept.value ≡ listener.old.kept.value }
    ensures peer { peer.new ≡ unwrap_or (first_peer_in (served_in listener.old.kept.value)) peer.old }
    ensures code { result ≡ flow_code (served_in listener.old.kept.value) (first_peer_in (served_in listener.old.kept.value)) }
{
    let Some(serving) = listener.take(alloc) else {
        return NOT_MADE;
    };
    let found = serving.server.server().first_peer();
    listener.put(serving);
    hand_found(address_if(found), peer)
}

/// Replaces a peer, with or without a flow, by the first one after it that has a flow. Returns DONE, NOT_MADE, or
/// NO_FLOW after the last; then `peer` is unchanged.
#[unsafe(no_mangle)]
pub extern "C" fn dccp_listener_next_peer(
    listener: &mut ListenerHandle,
    alloc: Global,
    peer: &mut PeerAddress,
) -> u32
    ensures listener { listener.new.kept.value ≡ listener.old.kept.value }
    ensures peer { peer.new ≡ unwrap_or (next_peer_in (served_in listener.old.kept.value) (peer_named peer.old)) peer.old }
    ensures code { result ≡ flow_code (served_in listener.old.kept.value) (next_peer_in (served_in listener.old.kept.value) (peer_named peer.old)) }
{
    let Some(serving) = listener.take(alloc) else {
        return NOT_MADE;
    };
    let found = serving.server.server().peer_after(peer_named(peer));
    listener.put(serving);
    hand_found(address_if(found), peer)
}

/// The code of a call of a flow, by whether there was one.
pub(crate) fn had_code(had: bool) -> u32
    ensures { result ≡ (if had then 0 else 15) }
{
    if had { DONE } else { NO_FLOW }
}

// A server forgets a peer's flow, and the data of it that wait.
fn let_go(serving: &mut OwnedServer, peer: Peer, now: u64)
    ensures { holding_of serving.new ≡ holds_forgotten now (holding_of serving.old) peer }
{
    serving.server.forget(peer, now, &mut serving.out);
    serving.inboxes.forget(peer);
}

/// Whether a peer has a flow.
pub(crate) fn has_flow(server: &Server, peer: Peer) -> bool
    ensures { result ≡ is_some (end_of_peer server.now.room.served.listening.flows peer) }
{
    server.has_flow(peer)
}

/// A peer's flow goes at once, whatever its phase, with the data of it that wait, and nothing is sent. Returns DONE,
/// NOT_MADE or NO_FLOW.
#[unsafe(no_mangle)]
pub extern "C" fn dccp_listener_forget(
    listener: &mut ListenerHandle,
    alloc: Global,
    peer: &PeerAddress,
    now: u64,
) -> u32
    ensures { Forgets now (holding_in listener.old.kept.value) (holding_in listener.new.kept.value) (peer_named peer.now) result }
{
    let Some(mut serving) = listener.take(alloc) else {
        return NOT_MADE;
    };
    let peer = peer_named(peer);
    let had = has_flow(serving.server.server(), peer);
    let_go(&mut serving, peer, now);
    listener.put(serving);
    had_code(had)
}

/// The listener follows these rules from now on. Returns DONE, OTHER_SIZE or NOT_MADE.
#[unsafe(no_mangle)]
pub extern "C" fn dccp_listener_rules(
    listener: &mut ListenerHandle,
    alloc: Global,
    rules: &FlowRules,
) -> u32
    ensures listener { watched_in listener.new.kept.value ≡ if_sized (rules.now.size == 48) (ruled_by (rules_of rules.now) (cookies_of rules.now.cookies) (watched_in listener.old.kept.value)) (watched_in listener.old.kept.value) }
    ensures inboxes { inboxes_in listener.new.kept.value ≡ inboxes_in listener.old.kept.value }
    ensures code { result ≡ sized_code (rules.now.size == 48) (made_code (watched_in listener.old.kept.value)) }
{
    if rules.size != FLOW_RULES_BYTES {
        return OTHER_SIZE;
    }
    let Some(mut serving) = listener.take(alloc) else {
        return NOT_MADE;
    };
    serving.server.set_rules(rules_of(rules));
    serving.server.set_cookies(cookies_of(rules));
    listener.put(serving);
    DONE
}

/// The listener's Init Cookies are written with this key from now on; those of the key before it stay valid for their
/// two minutes. Without a key none is given. Returns DONE or NOT_MADE.
#[unsafe(no_mangle)]
pub extern "C" fn dccp_listener_rekey(
    listener: &mut ListenerHandle,
    alloc: Global,
    key: &Key,
    now: u64,
) -> u32
    ensures listener { watched_in listener.new.kept.value ≡ rekeyed_in key.now.bytes now (watched_in listener.old.kept.value) }
    ensures inboxes { inboxes_in listener.new.kept.value ≡ inboxes_in listener.old.kept.value }
    ensures code { result ≡ made_code (watched_in listener.old.kept.value) }
{
    let Some(mut serving) = listener.take(alloc) else {
        return NOT_MADE;
    };
    serving.server.rekey(key.bytes, now);
    listener.put(serving);
    DONE
}

fn life_of(server: &Server, peer: Peer) -> Option<FlowLife>
    ensures { result ≡ option_map (λ e. known_of (life_of server.now.room.lives peer)) (end_of_peer server.now.room.served.listening.flows peer) }
{
    let _ = server.flow(peer)?;
    Some(known_of(&server.life(peer)))
}

/// Since when a peer's flow has been in its phase, and when it last took a packet. Returns DONE, OTHER_SIZE, NOT_MADE
/// or NO_FLOW.
#[unsafe(no_mangle)]
pub extern "C" fn dccp_listener_life(
    listener: &mut ListenerHandle,
    alloc: Global,
    peer: &PeerAddress,
    life: &mut FlowLife,
) -> u32
    ensures listener { listener.new.kept.value ≡ listener.old.kept.value }
    ensures life { life.new ≡ if_sized (life.old.size == 32) (unwrap_or (life_in (served_in listener.old.kept.value) (peer_named peer.now)) life.old) life.old }
    ensures code { result ≡ sized_code (life.old.size == 32) (flow_code (served_in listener.old.kept.value) (life_in (served_in listener.old.kept.value) (peer_named peer.now))) }
{
    if life.size != FLOW_LIFE_BYTES {
        return OTHER_SIZE;
    }
    let Some(serving) = listener.take(alloc) else {
        return NOT_MADE;
    };
    let found = life_of(serving.server.server(), peer_named(peer));
    listener.put(serving);
    hand_found(found, life)
}
