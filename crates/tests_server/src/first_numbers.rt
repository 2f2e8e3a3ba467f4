//! The call that draws the first number of a flow.
use dccp_endpoint::Seq48;
use dccp_listener::Peer;
use server_peers::keyed_number;

// The bytes 0 to 31.
const KEY: [u8; 32] = [
    0, 1, 2, 3, 4, 5, 6, 7, 8, 9, 10, 11, 12, 13, 14, 15, 16, 17, 18, 19, 20, 21, 22, 23, 24, 25,
    26, 27, 28, 29, 30, 31,
];

// Between 10.0.0.2, port 5001, and a peer at 10.0.0.1, port 40000.
fn drawn(now: u64) -> Seq48 {
    let peer = Peer {
        address: [10, 0, 0, 1],
        port: 40000,
    };
    keyed_number(&KEY, [10, 0, 0, 2], 5001, peer, now)
}

// The time in milliseconds, and the number. HMAC-SHA256 of 0a0000021389 0a0000019c40 begins with c8edea8eaaea, as
// Python's hmac has it. A number rises by 250 a millisecond, around the circle.
const DRAWN: [(u64, u64); 4] = [
    (0, 220_924_168_022_762),
    (1000, 220_924_168_272_762),
    (242_203_234_752, 106),
    (u64::MAX, 220_924_168_022_512),
];

#[test]
fn a_first_number_comes_of_a_key(rt: HostRuntime) {
    for (now, number) in &DRAWN {
        assert!(rt; drawn(*now).get() == *number, "at {now}");
    }
}
