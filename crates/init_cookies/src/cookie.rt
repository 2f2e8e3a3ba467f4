//! A server's Init Cookies.
ghost use Rattle.std.specs.Prelude.{◌≡◌, ◌+◌, ◌≤◌, drop, length};
ghost use Rattle.byteorder.specs.Endian.{big_number};
ghost use Rattle.init_cookies.specs.Cookies.{cookie_tag, is_fresh};
ghost use Rattle.init_cookies.specs.Openings.{opening_read};

use crate::keyed::keyed_hash;
use crate::opening::OpeningBytes;
use crate::route::RouteBytes;
use crate::{FirstRequest, Route};
use arrayvec::ArrayVec;
use byteorder::{BigEndian, ByteOrder};
use dccp_options::MOST_OPTION_BYTES;
use seq_circle::Seq48;

/// The data of an Init Cookie, at most 253 bytes (RFC 4340, section 8.1.4).
pub type CookieBytes = ArrayVec<u8, MOST_OPTION_BYTES>;

// The bytes of a tag.
const TAG: usize = 8;

// The bytes of a tag and an opening without options.
const LEAST_COOKIE: usize = 32;

// The bytes of a tag and an opening with the longest options.
const MOST_COOKIE: usize = 252;

// How long a cookie is good for, in milliseconds (own).
const LIFETIME: u64 = 120_000;

/// The keys of a server's cookies: the one with which it writes them, since when it does, and the one before.
#[derive(Clone, Copy)]
pub struct CookieKeys {
    key: [u8; 32],
    before: [u8; 32],
    since: u64,
}

// Whether a cookie of this time is good now.
fn is_fresh(now: u64, time: u64) -> bool
    ensures { result ≡ is_fresh now time }
{
    time <= now && now - time <= LIFETIME
}

// The tag of a cookie: the first eight bytes of the keyed hash over the route and the opening.
fn cookie_tag(key: &[u8; 32], route: &Route, opening: &[u8]) -> u64
    requires { length opening.now ≤ 245 }
    ensures { result ≡ cookie_tag key.now route.now opening.now }
{
    let mut between = RouteBytes::new();
    route.put(&mut between);
    let mut text: ArrayVec<u8, 320> = ArrayVec::new();
    let _ = text.try_extend_from_slice(between.as_slice());
    let _ = text.try_extend_from_slice(opening);
    BigEndian::read_u64(&keyed_hash(key, text.as_slice()))
}

// The number of 48 bits at a place.
fn number_at(bytes: &[u8], place: usize) -> Seq48
    requires { place + 6 ≤ length bytes.now }
    ensures { result ≡ big_number 6 (drop place bytes.now) }
{
    match Seq48::new(BigEndian::read_u48(&bytes[place..])) {
        Some(number) => number,
        None => unreachable!(),
    }
}

// The number of 64 bits in front.
fn first_number(bytes: &[u8]) -> u64
    requires { 8 ≤ length bytes.now }
    ensures { result ≡ big_number 8 bytes.now }
{
    BigEndian::read_u64(bytes)
}

// The Service Code at its place.
fn service_at(bytes: &[u8]) -> u32
    requires { 24 ≤ length bytes.now }
    ensures { result ≡ big_number 4 (drop 20 bytes.now) }
{
    BigEndian::read_u32(&bytes[20..])
}

// The bytes from a place on.
fn rest_from(bytes: &[u8], place: usize) -> &[u8]
    requires { place ≤ length bytes.now }
    ensures { result.now ≡ drop place bytes.now }
{
    &bytes[place..]
}

// The opening that a cookie's bytes after the tag hold.
fn opening_read(bytes: &[u8]) -> FirstRequest
    requires low { 24 ≤ length bytes.now }
    requires high { length bytes.now ≤ 244 }
    ensures { result ≡ opening_read bytes.now }
{
    let time = first_number(bytes);
    let iss = number_at(bytes, 8);
    let number = number_at(bytes, 14);
    let service = service_at(bytes);
    match FirstRequest::new(time, iss, number, service, rest_from(bytes, 24)) {
        Some(opening) => opening,
        None => unreachable!(),
    }
}

impl CookieKeys {
    ghost use Rattle.std.specs.Prelude.{◌≡◌, ◌≤◌, [], length};
    ghost use Rattle.init_cookies.specs.Cookies.{cookie_bytes, cookie_opening, key_at, opening_if};

    /// Keys with only one key so far. Draw it at random: 32 bytes that nobody else knows. The time is in milliseconds
    /// since any moment, as in each call.
    pub fn new(key: [u8; 32], now: u64) -> CookieKeys
        ensures { result ≡ record { key = key; before = key; since = now } }
    {
        CookieKeys {
            key,
            before: key,
            since: now,
        }
    }

    /// The key by which cookies are written.
    pub fn key(&self) -> [u8; 32]
        ensures { result ≡ self.now.key }
    {
        self.key
    }

    /// Cookies are written with this key from now on. Those that were written with the key before it stay valid for
    /// their two minutes.
    pub fn change(&mut self, key: [u8; 32], now: u64)
        ensures { self.new ≡ record { key = key; before = self.old.key; since = now } }
    {
        *self = CookieKeys {
            key,
            before: self.key,
            since: now,
        };
    }

    // The key of a cookie of this time.
    fn at(&self, time: u64) -> [u8; 32]
        ensures { result ≡ key_at self.now time }
    {
        if time < self.since {
            self.before
        } else {
            self.key
        }
    }

    /// Writes the cookie of an opening into an empty block.
    pub fn write(&self, route: &Route, opening: &FirstRequest, out: &mut CookieBytes)
        requires { out.old.items ≡ [] }
        ensures value { out.new.items ≡ cookie_bytes self.now route.now opening.now }
        ensures short { length out.new.items ≤ 252 }
    {
        let mut bytes = OpeningBytes::new();
        opening.put(&mut bytes);
        let mut tag = [0; TAG];
        let key = self.at(opening.time());
        BigEndian::write_u64(&mut tag, cookie_tag(&key, route, bytes.as_slice()));
        let _ = out.try_extend_from_slice(&tag);
        let _ = out.try_extend_from_slice(bytes.as_slice());
    }

    // The opening that these bytes hold, if it is fresh and this is its tag.
    fn opening_if(&self, now: u64, route: &Route, tag: u64, held: &[u8]) -> Option<FirstRequest>
        requires low { 24 ≤ length held.now }
        requires high { length held.now ≤ 244 }
        ensures { result ≡ opening_if self.now now route.now tag held.now }
    {
        let opening = opening_read(held);
        let key = self.at(opening.time());
        if is_fresh(now, opening.time()) && tag == cookie_tag(&key, route, held) {
            Some(opening)
        } else {
            None
        }
    }

    /// The opening in a cookie that came by this route. None if it is older than two minutes or from the future, or its
    /// tag is not the keyed hash of its content and the route.
    pub fn read(&self, route: &Route, bytes: &[u8], now: u64) -> Option<FirstRequest>
        ensures { result ≡ cookie_opening self.now now route.now bytes.now }
    {
        if bytes.len() < LEAST_COOKIE {
            return None;
        }
        if MOST_COOKIE < bytes.len() {
            return None;
        }
        self.opening_if(now, route, first_number(bytes), rest_from(bytes, TAG))
    }
}
