//! The settings from which C makes an end.
ghost use Rattle.std.specs.Prelude.{◌≡◌, ◌≤◌};
ghost use Rattle.feature_lists.specs.Wishes.{wish_of};
ghost use Rattle.dccp_c.specs.Accepting.{as_server};
ghost use Rattle.dccp_c.specs.Making.{care_by, configured_by, first_four, pace_by, pseudo_of, config_by, offered_so, unless_narrow, wished, wished_all, wished_list, wished_so};

use crate::codes::{
    BAD_LIST, NO_FEATURE, NO_NUMBER, NOT_OURS, OTHER_SIZE, feature_of, place_of, wish_code,
};
use crate::sizes::SETTINGS_BYTES;
use dccp_endpoint::{Config, Feature, Place, Ports, Pseudo, Seq48};
use dccp_uses::{Pace, widened};

/// The settings of an end: its role, its addresses and ports, and which rules it follows.
#[repr(C)]
#[derive(Clone, Copy)]
pub struct Settings {
    /// How many bytes this struct has, as its caller knows it.
    pub size: usize,
    /// The address from which it sends, in the order of the network; of an IPv4 address the first four bytes.
    pub own_address: [u8; 16],
    /// The address to which it sends.
    pub peer_address: [u8; 16],
    /// The number of its first packet, below 2^48.
    pub first_number: u64,
    /// The Service Code.
    pub service: u32,
    /// Its own port.
    pub own_port: u16,
    /// The peer's port.
    pub peer_port: u16,
    /// Whether it is a server's end; otherwise it is a client's.
    pub is_server: bool,
    /// Whether the addresses are of IPv6; otherwise they are of IPv4.
    pub is_v6: bool,
    /// Whether it offers only features among the wishes; otherwise it offers the usual ones too.
    pub is_plain: bool,
    /// Whether it keeps the Sequence Window of 100; otherwise it asks for 10,000, if it makes offers.
    pub without_wide_window: bool,
    /// Whether the timers wait as if nothing were known of the path; otherwise their waits depend on the round trip.
    pub without_round_trip: bool,
    /// Whether Acks wait for 200 milliseconds and up to 64 seconds; otherwise they wait for 50 and up to 20 seconds,
    /// and not at all if data show a hole.
    pub without_soon_acks: bool,
    /// Whether the Ack Ratio of its data stays; otherwise it follows the window.
    pub without_ack_ratio: bool,
    /// Whether what is in flight is counted as lost at once; otherwise the peer is asked first if the window is large.
    pub without_probes: bool,
    /// Whether all datagrams that would be answered by a Sync are heard; otherwise only a few are.
    pub without_limits: bool,
    /// Whether the end waits for a silent peer for ever; otherwise it waits some minutes.
    pub without_giving_up: bool,
    /// Whether data go out whatever the peer reports about the application that reads them; otherwise they wait if it
    /// is slow, if its buffer is full, or if it no longer listens.
    pub without_heed: bool,
    /// How many packets' data may wait until they are read: at most 1,024, and more counts as 1,024. With 0, data are
    /// handed over within their datagram.
    pub most_held: usize,
}

/// What is done for an end besides its own steps.
#[derive(Clone, Copy)]
pub struct Care {
    /// The rules of its path.
    pub pace: Pace,
    /// How many packets' data may wait.
    pub most_held: u16,
}

/// An end's wish for a feature when the connection starts.
#[repr(C)]
#[derive(Drop)]
pub struct Wish {
    /// The values, best first.
    pub values: [u64; 8],
    /// How many of them there are.
    pub count: usize,
    /// The feature's number, 1 to 9.
    pub feature: u32,
    /// Whether the feature is the peer's; otherwise it is the end's own.
    pub at_peer: bool,
    /// Whether the end asks for it by itself.
    pub is_offered: bool,
    /// Whether the peer has to understand it.
    pub is_mandatory: bool,
}

pub(crate) fn first_four(address: &[u8; 16]) -> [u8; 4]
    ensures { result ≡ first_four address.now }
{
    [address[0], address[1], address[2], address[3]]
}

pub(crate) fn pseudo_of(settings: &Settings) -> Pseudo
    ensures { result ≡ pseudo_of settings.now }
{
    if settings.is_v6 {
        Pseudo::V6 {
            from: settings.own_address,
            to: settings.peer_address,
        }
    } else {
        Pseudo::V4 {
            from: first_four(&settings.own_address),
            to: first_four(&settings.peer_address),
        }
    }
}

// The configuration without wishes, or None if the first number is not below 2^48.
fn settled(settings: &Settings) -> Option<Config>
    ensures { result ≡ config_by settings.now }
{
    let iss = Seq48::new(settings.first_number)?;
    let pseudo = pseudo_of(settings);
    let ports = Ports {
        own: settings.own_port,
        peer: settings.peer_port,
    };
    let mut config = if settings.is_server {
        Config::server(pseudo, ports, settings.service, iss)
    } else {
        Config::client(pseudo, ports, settings.service, iss)
    };
    if settings.is_plain {
        config.plain();
    }
    Some(unless_narrow(settings.is_plain || settings.without_wide_window, config))
}

fn unless_narrow(narrow: bool, config: Config) -> Config
    ensures { result ≡ unless_narrow narrow config }
{
    if narrow { config } else { widened(config) }
}

/// The rules of its path that an end of these settings follows.
pub(crate) fn pace_by(settings: &Settings) -> Pace
    ensures { result ≡ pace_by settings.now }
{
    Pace {
        measures: !settings.without_round_trip,
        acks_soon: !settings.without_soon_acks,
        moves_ratio: !settings.without_ack_ratio,
        probes: !settings.without_probes,
        limits_syncs: !settings.without_limits,
        gives_up: !settings.without_giving_up,
        heeds: !settings.without_heed,
    }
}

/// What is done for an end of these settings besides its own steps.
pub(crate) fn care_by(settings: &Settings) -> Care
    ensures value { result ≡ care_by settings.now }
    ensures few { result.most_held ≤ 1024 }
{
    Care {
        pace: pace_by(settings),
        most_held: settings.most_held.min(1024) as u16,
    }
}

// The configuration, with this wish offered if it is to be.
fn offered(config: Config, wish: &Wish, feature: Feature, place: Place) -> Result<Config, u32>
    ensures { result ≡ offered_so wish.now feature place config }
{
    if !wish.is_offered {
        return Ok(config);
    }
    let mut config = config;
    match config.offer(feature, place, wish.is_mandatory) {
        Ok(()) => Ok(config),
        Err(_) => Err(NOT_OURS),
    }
}

// The configuration with a wish for these values, or the code by which they are refused.
fn set(config: Config, feature: Feature, place: Place, values: &[u64]) -> Result<Config, u32>
    ensures { result ≡ wished_so config feature place (wish_of feature place values.now) }
{
    if let Err(fault) = feature_lists::wish(feature, place, values) {
        return Err(wish_code(&Err(fault)));
    }
    let mut config = config;
    let _ = config.set(feature, place, values);
    Ok(config)
}

// The configuration with a wish for this feature, or the code by which it is refused.
fn wished_list(config: Config, wish: &Wish, feature: Feature, place: Place) -> Result<Config, u32>
    ensures { result ≡ wished_list config wish.now feature place }
{
    if 8 < wish.count {
        return Err(BAD_LIST);
    }
    let config = set(config, feature, place, &wish.values[..wish.count])?;
    offered(config, wish, feature, place)
}

fn wished(config: Config, wish: &Wish) -> Result<Config, u32>
    ensures { result ≡ wished config wish.now }
{
    match feature_of(wish.feature) {
        Some(feature) => wished_list(config, wish, feature, place_of(wish.at_peer)),
        None => Err(NO_FEATURE),
    }
}

fn wished_all(config: Config, wishes: &[Wish]) -> Result<Config, u32>
    ensures { result ≡ wished_all config wishes.now }
{
    let mut config = config;
    let mut left = wishes;
    while let [first, others @ ..] = left {
        config = wished(config, first)?;
        left = others;
    }
    Ok(config)
}

/// These settings, as those of a server.
pub(crate) fn as_server(settings: &Settings) -> Settings
    ensures { result ≡ as_server settings.now }
{
    let mut settings = *settings;
    settings.is_server = true;
    settings
}

/// The configuration of these settings and wishes, or the code by which they are refused.
pub(crate) fn configured_by(settings: &Settings, wishes: &[Wish]) -> Result<Config, u32>
    ensures { result ≡ configured_by settings.now wishes.now }
{
    if settings.size != SETTINGS_BYTES {
        return Err(OTHER_SIZE);
    }
    let Some(config) = settled(settings) else {
        return Err(NO_NUMBER);
    };
    wished_all(config, wishes)
}
