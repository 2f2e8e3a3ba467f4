//! The functions by which a server in C that has an end for each peer answers Requests without an end, by Init Cookies.
ghost use Rattle.std.specs.Prelude.{◌≡◌, ◌≤◌, length};
ghost use Rattle.init_cookies.specs.Openings.{request_bytes};
ghost use Rattle.dccp_c.specs.Accepting.{as_server, first_heard};
ghost use Rattle.dccp_c.specs.CookieCalls.{Greets, GreetsAsked, GreetsBy, is_heard_so, keys_of, opening_brought, recall_code, recalled_code, request_handed, route_by};
ghost use Rattle.dccp_c.specs.Doing.{c_end};
ghost use Rattle.dccp_c.specs.Framing.{handed_in};
ghost use Rattle.dccp_c.specs.Making.{care_by, configured_by};
ghost use Rattle.dccp_c.specs.Stepping.{c_receives};

use crate::codes::{DONE, NO_CONNECTION, NO_MEMORY, OTHER_SIZE, TOO_LONG};
use crate::frame::Frame;
use crate::held::OwnedEnd;
use crate::making::{Care, as_server, care_by, configured_by, pseudo_of};
use crate::sizes::SETTINGS_BYTES;
use crate::steps::{new_end, receive};
use crate::{Key, Settings, Wish};
use dccp_endpoint::{Config, DecodedDatagram, MOST_FRAME_BYTES, Outcome};
use dccp_uses::is_taken;
use init_cookies::{CookieKeys, FirstRequest, Route, put_request};
use server_peers::{DatagramRequest, append_cookie, asking_of, opening_of};
use std::alloc::Global;

/// The keys of a server's Init Cookies. Times are in milliseconds, as in each call.
#[repr(C)]
#[derive(Drop)]
pub struct KeyPair {
    /// The key with which they are written.
    pub key: Key,
    /// The key before it, whose cookies stay valid for their two minutes.
    pub before: Key,
    /// Since when they are written with the first.
    pub since: u64,
}

fn keys_of(pair: &KeyPair) -> CookieKeys
    ensures { result ≡ keys_of pair.now }
{
    let mut keys = CookieKeys::new(pair.before.bytes, pair.since);
    keys.change(pair.key.bytes, pair.since);
    keys
}

fn route_by(settings: &Settings) -> Route
    ensures { result ≡ route_by settings.now }
{
    Route {
        pseudo: pseudo_of(settings).reversed(),
        from: settings.peer_port,
        to: settings.own_port,
    }
}

fn is_heard_so(heard: &Option<Outcome>) -> bool
    ensures { result ≡ is_heard_so heard.now }
{
    match heard {
        Some(outcome) => is_taken(outcome),
        None => false,
    }
}

// A new end hears the Request of an opening.
fn hear_request(
    held: &mut OwnedEnd,
    keys: &CookieKeys,
    route: &Route,
    opening: &FirstRequest,
    now: u64,
    frame: &mut Frame,
) -> u32
    ensures { GreetsBy keys.now route.now opening.now (c_receives (request_bytes route.now opening.now) now (c_end held.old)) (handed_in frame.new) result }
{
    let mut request = dccp_packets::Frame::new();
    put_request(route, opening, &mut request);
    let reading = receive(held, request.bytes(), now);
    if is_heard_so(&reading.heard) {
        append_cookie(keys, route, opening, &mut held.out);
        frame.fill(&held.out);
        return DONE;
    }
    frame.fill(&held.out);
    NO_CONNECTION
}

// The same with a new end of this configuration.
fn greet(
    alloc: Global,
    config: Config,
    care: &Care,
    keys: &CookieKeys,
    route: &Route,
    opening: &FirstRequest,
    now: u64,
    frame: &mut Frame,
) -> u32
    requires { care.now.most_held ≤ 1024 }
    ensures { GreetsBy keys.now route.now opening.now (first_heard (request_bytes route.now opening.now) now care.now config) (handed_in frame.new) result }
{
    frame.clear();
    let Ok(mut held) = new_end(alloc, config, care) else {
        return NO_MEMORY;
    };
    hear_request(&mut held, keys, route, opening, now, frame)
}

// The same by what the datagram asks for.
fn greet_asked(
    alloc: Global,
    config: Config,
    care: &Care,
    keys: &CookieKeys,
    route: &Route,
    asking: DatagramRequest,
    now: u64,
    frame: &mut Frame,
) -> u32
    requires { care.now.most_held ≤ 1024 }
    ensures { GreetsAsked keys.now route.now now care.now config asking (handed_in frame.new) result }
{
    frame.clear();
    match asking {
        DatagramRequest::Nothing => NO_CONNECTION,
        DatagramRequest::TooLong => TOO_LONG,
        DatagramRequest::This(opening) => greet(
            alloc, config, care, keys, route, &opening, now, frame,
        ),
    }
}

/// Answers a Request by a Response with an Init Cookie, without an end that stays: `dccp_recall` gives the Request back
/// once the cookie comes. Returns DONE; NO_CONNECTION if the datagram is no Request that the server of these settings
/// takes, and then the frame has the answer, if there is one; TOO_LONG for a datagram that is too long, or for options
/// that are too long for a cookie; NO_MEMORY; or a code of `dccp_make`.
#[unsafe(no_mangle)]
pub extern "C" fn dccp_greet(
    alloc: Global,
    settings: &Settings,
    wishes: &[Wish],
    keys: &KeyPair,
    datagram: &[u8],
    now: u64,
    frame: &mut Frame,
) -> u32
    ensures { Greets (keys_of keys.now) (route_by settings.now) now (care_by settings.now) (configured_by (as_server settings.now) wishes.now) datagram.now (handed_in frame.new) result }
{
    frame.clear();
    let config = match configured_by(&as_server(settings), wishes) {
        Ok(config) => config,
        Err(code) => return code,
    };
    if MOST_FRAME_BYTES < datagram.len() {
        return TOO_LONG;
    }
    let (route, care, keys) = (route_by(settings), care_by(settings), keys_of(keys));
    let asking = asking_of(now, config.iss, &route, &DecodedDatagram::new(datagram));
    greet_asked(alloc, config, &care, &keys, &route, asking, now, frame)
}

// The opening that a datagram brings back, if it brings one.
fn opening_brought(
    keys: &CookieKeys,
    settings: &Settings,
    route: &Route,
    datagram: &[u8],
    now: u64,
) -> Option<FirstRequest>
    requires short { length datagram.now ≤ 2044 }
    requires size { settings.now.size ≡ 80 }
    requires route { route.now ≡ route_by settings.now }
    ensures { result ≡ opening_brought keys.now settings.now now datagram.now }
{
    opening_of(now, keys, route, &DecodedDatagram::new(datagram))
}

// Leaves the Request of an opening.
fn hand_request(route: &Route, opening: &Option<FirstRequest>, request: &mut Frame) -> u32
    ensures request { handed_in request.new ≡ request_handed route.now opening.now }
    ensures code { result ≡ recalled_code opening.now }
{
    match opening {
        Some(opening) => {
            let mut spelled = dccp_packets::Frame::new();
            put_request(route, opening, &mut spelled);
            request.put(spelled.bytes(), opening.iss().get());
            DONE
        }
        None => {
            request.clear();
            NO_CONNECTION
        }
    }
}

/// Leaves the Request for which the Init Cookie of a datagram was given, if the datagram brings a valid one back to the
/// server of these settings, and the first number of its answer. Make an end with this number, and let it hear the
/// Request. Returns DONE, OTHER_SIZE, TOO_LONG, or NO_CONNECTION if the datagram brings no valid cookie.
#[unsafe(no_mangle)]
pub extern "C" fn dccp_recall(
    settings: &Settings,
    keys: &KeyPair,
    datagram: &[u8],
    now: u64,
    request: &mut Frame,
) -> u32
    ensures request { handed_in request.new ≡ request_handed (route_by settings.now) (opening_brought (keys_of keys.now) settings.now now datagram.now) }
    ensures code { result ≡ recall_code (keys_of keys.now) settings.now now datagram.now }
{
    request.clear();
    if settings.size != SETTINGS_BYTES {
        return OTHER_SIZE;
    }
    if MOST_FRAME_BYTES < datagram.len() {
        return TOO_LONG;
    }
    let route = route_by(settings);
    let opening = opening_brought(&keys_of(keys), settings, &route, datagram, now);
    hand_request(&route, &opening, request)
}
