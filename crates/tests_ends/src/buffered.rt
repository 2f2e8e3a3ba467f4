//! The calls of an end with an inbox, except `receive`, each once with ample memory.
use crate::fresh::buffered_end;
use ccid_two::Kinds;
use data_dropped::BufferedEnd;
use dccp_endpoint::{
    CloseFault, Config, Feature, NoMemory, OpenFault, Outbox, Phase, Place, PreferFault, Role,
    SendFault, Timer,
};
use std::alloc::Global;

type Client = BufferedEnd<Kinds>;

// The Request goes out once, with the number ISS.
fn opens_once(client: &mut Client, out: &mut Outbox) -> bool {
    client.open(out).is_ok()
        && sends_under(out, 1000)
        && client.open(out) == Err(OpenFault::NotFresh)
        && out.sent().is_none()
}

// The frame in the box has this number, and acknowledges nothing.
fn sends_under(out: &Outbox, number: u64) -> bool {
    match out.sent() {
        Some(sent) => sent.number.get() == number && sent.ack.is_none(),
        None => false,
    }
}

// In REQUEST no data go out.
fn refuses_data(client: &mut Client, out: &mut Outbox) -> bool {
    client.send(&[1], out) == Err(SendFault::NotOpen)
        && client.send_early(&[1], out) == Err(SendFault::NotOpen)
        && client.send_soon(&[1], out) == Err(SendFault::NotOpen)
}

// Neither is the connection closed, nor a value asked for.
fn refuses_the_rest(client: &mut Client, out: &mut Outbox) -> bool {
    client.close(out) == Err(CloseFault::NotOpen)
        && client.prefer(Feature::AckRatio, Place::There, &[2], out) == Err(PreferFault::NotOpen)
}

// The Request goes out again with the next number, and then the end is given up.
fn repeats_and_aborts(client: &mut Client, out: &mut Outbox) -> bool {
    client.timer(Timer::Request, out)
        && sends_under(out, 1001)
        && client.abort(out).is_ok()
        && client.end().phase() == Phase::Closed
}

fn plays(client: &mut Client) -> bool {
    let mut out = Outbox::new();
    opens_once(client, &mut out)
        && refuses_data(client, &mut out)
        && refuses_the_rest(client, &mut out)
        && repeats_and_aborts(client, &mut out)
}

fn plays_anew(alloc: Global) -> Result<bool, NoMemory> {
    let mut client = buffered_end(alloc, Config::usual(Role::Client), 1)?;
    Ok(plays(&mut client))
}

#[test]
fn calls_beside_an_inbox(rt: HostRuntime) {
    assert!(rt; matches!(plays_anew(rt.alloc()), Ok(true)));
}
