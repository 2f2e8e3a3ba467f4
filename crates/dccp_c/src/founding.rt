//! The configuration from which C makes a listener.
ghost use Rattle.std.specs.Prelude.{◌≡◌, ◌≤◌, IfOk, length, true};
ghost use Rattle.feature_lists.specs.Lists.{is_distinct};
ghost use Rattle.dccp_c.specs.Founding.{listening_at, listening_by, services_by};
ghost use Rattle.dccp_listener.specs.Standing.{IsListening};

use crate::codes::NO_SUCH_LISTENER;
use crate::making::{as_server, configured_by, first_four};
use crate::{Settings, Wish};
use arrayvec::ArrayVec;
use dccp_endpoint::Config;
use dccp_listener::ListenConfig;

// The Service Codes that it serves.
fn services_by(settings: &Settings, given: &[u32]) -> ArrayVec<u32, 16>
    requires { length given.now ≤ 16 }
    ensures { result.items ≡ services_by settings.now given.now }
{
    let mut services = ArrayVec::new();
    if given.is_empty() {
        services.push(settings.service);
    } else {
        let _ = services.try_extend_from_slice(given);
    }
    services
}

fn serves_at(settings: &Settings, given: &[u32], most: u16, config: &Config) -> ListenConfig
    requires { length given.now ≤ 16 }
    ensures { result ≡ listening_at settings.now given.now most config.now }
{
    let own_address = first_four(&settings.own_address);
    ListenConfig {
        own_address,
        own_port: settings.own_port,
        services: services_by(settings, given),
        lists: config.lists,
        most,
    }
}

// The configuration of a listener, if its settings were accepted.
fn listening_at(settings: &Settings, given: &[u32], most: u16, config: &Config) -> ListenConfig
    requires short { length given.now ≤ 16 }
    requires distinct { is_distinct given.now ≡ true }
    requires least { 1 ≤ most }
    requires most { most ≤ 1024 }
    ensures value { result ≡ listening_at settings.now given.now most config.now }
    ensures sound { IsListening result }
{
    serves_at(settings, given, most, config)
}

// Whether each Service Code is there only once.
fn is_distinct(given: &[u32]) -> bool
    ensures { result ≡ is_distinct given.now }
{
    let mut tail = given;
    while let [first, others @ ..] = tail {
        if others.contains(first) {
            return false;
        }
        tail = others;
    }
    true
}

/// The configuration of a listener of these settings and wishes, for these Service Codes and at most `most` flows, or
/// the code by which it is refused.
pub(crate) fn listening_by(
    settings: &Settings,
    given: &[u32],
    wishes: &[Wish],
    most: u16,
) -> Result<ListenConfig, u32>
    ensures value { result ≡ listening_by settings.now given.now wishes.now most }
    ensures sound { IfOk result IsListening }
{
    if settings.is_v6 || most == 0 || 1024 < most {
        return Err(NO_SUCH_LISTENER);
    }
    if 16 < given.len() || !is_distinct(given) {
        return Err(NO_SUCH_LISTENER);
    }
    let config = configured_by(&as_server(settings), wishes)?;
    Ok(listening_at(settings, given, most, &config))
}
