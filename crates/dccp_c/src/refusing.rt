//! How a server turns a datagram away without an end.
ghost use Rattle.std.specs.Prelude.{◌≡◌, IfOk};
ghost use Rattle.dccp_c.specs.Framing.{handed_in};
ghost use Rattle.dccp_c.specs.Refusing.{answering_by, refuse_code, refuse_frame};

use crate::Settings;
use crate::codes::{DONE, NO_CONNECTION, NO_NUMBER, OTHER_SIZE, TOO_LONG};
use crate::frame::Frame;
use crate::making::pseudo_of;
use crate::sizes::SETTINGS_BYTES;
use dccp_endpoint::{Config, MOST_FRAME_BYTES, Outbox, Ports, Role, Seq48};
use server_peers::refuse;

// The usual server of these settings, or the code by which they are refused.
fn answering_by(settings: &Settings) -> Result<Config, u32>
    ensures value { result ≡ answering_by settings.now }
    ensures server { IfOk result (λ config. config.role ≡ Role.Server) }
{
    if settings.size != SETTINGS_BYTES {
        return Err(OTHER_SIZE);
    }
    let Some(iss) = Seq48::new(settings.first_number) else {
        return Err(NO_NUMBER);
    };
    let ports = Ports {
        own: settings.own_port,
        peer: settings.peer_port,
    };
    let pseudo = pseudo_of(settings);
    Ok(Config::server(pseudo, ports, settings.service, iss))
}

/// Turns the first datagram of a peer away, without an end. A Request that the usual server of these settings would
/// accept is answered by a Reset with this code (DONE), and all else as that server answers it (NO_CONNECTION). Refused
/// with OTHER_SIZE, NO_NUMBER and TOO_LONG; then no frame is left.
#[unsafe(no_mangle)]
pub extern "C" fn dccp_refuse(
    settings: &Settings,
    datagram: &[u8],
    code: u8,
    frame: &mut Frame,
) -> u32
    ensures frame { handed_in frame.new ≡ refuse_frame code datagram.now (answering_by settings.now) }
    ensures code { result ≡ refuse_code datagram.now (answering_by settings.now) }
{
    frame.clear();
    let config = match answering_by(settings) {
        Ok(config) => config,
        Err(refusal) => return refusal,
    };
    if MOST_FRAME_BYTES < datagram.len() {
        return TOO_LONG;
    }
    let mut out = Outbox::new();
    let opens = refuse(&config, datagram, code, &mut out);
    frame.fill(&out);
    if opens { DONE } else { NO_CONNECTION }
}
