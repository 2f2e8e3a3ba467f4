//! Short numbers at an end with an inbox. Their low 24 bits wrap around among the data. So dropped data are reported by
//! full numbers: that of the frame that brought them, and that of the frame that reports them.
use crate::fresh::{buffered_end, plain};
use ccid_two::Kinds;
use data_dropped::{Arrival, BufferedEnd};
use dccp_endpoint::{Config, Feature, Outbox, Place, Role};
use std::test::Fail;

type Server = BufferedEnd<Kinds>;

// What arrives, what becomes of its data, and the frame that then goes out, which has no bytes if none does.
const STORY: [(&[u8], Option<Arrival>, &[u8]); 6] = [
    // A Request that asks for short numbers in both directions, and the Response with both Confirms.
    (
        &[
            0x9c, 0x40, 0x13, 0x89, 7, 0, 0xec, 0xc4, 1, 0, 0, 0, 0, 0xff, 0xff, 0xfd, 0, 0, 0, 42,
            0x20, 4, 2, 1, 0x22, 4, 2, 1,
        ],
        None,
        &[
            0x13, 0x89, 0x9c, 0x40, 0x0a, 0, 0xf9, 0xc8, 3, 0, 0, 0, 0, 0, 7, 0xd0, 0, 0, 0, 0, 0,
            0xff, 0xff, 0xfd, 0, 0, 0, 42, 0x23, 5, 2, 1, 1, 0x21, 5, 2, 1, 1, 0, 0,
        ],
    ),
    // The Ack that opens, and the first packet with short numbers.
    (
        &[
            0x9c, 0x40, 0x13, 0x89, 6, 0, 0x26, 0x2c, 7, 0, 0, 0, 0, 0xff, 0xff, 0xfe, 0, 0, 0, 0,
            0, 0, 7, 0xd0,
        ],
        None,
        &[
            0x13, 0x89, 0x9c, 0x40, 4, 0, 0x29, 0x33, 6, 0, 7, 0xd1, 0, 0xff, 0xff, 0xfe,
        ],
    ),
    // Data 2^24 - 1, which are held.
    (
        &[
            0x9c, 0x40, 0x13, 0x89, 3, 0, 0x8a, 5, 4, 0xff, 0xff, 0xff, 0xaa,
        ],
        Some(Arrival::Kept),
        &[],
    ),
    // Data 2^24 + 1: the Ack of that number reports it with code 2, and that the receiver is slow.
    (
        &[0x9c, 0x40, 0x13, 0x89, 3, 0, 0x7a, 3, 4, 0, 0, 1, 0xbb],
        Some(Arrival::Dropped(2)),
        &[
            0x13, 0x89, 0x9c, 0x40, 5, 0, 0x61, 0x25, 6, 0, 7, 0xd2, 0, 0, 0, 1, 0x28, 3, 0xa0, 2,
        ],
    ),
    // Data 2^24 + 2.
    (
        &[0x9c, 0x40, 0x13, 0x89, 3, 0, 0x69, 2, 4, 0, 0, 2, 0xcc],
        Some(Arrival::Dropped(2)),
        &[],
    ),
    // Data 2^24 + 3: code 2 for these three.
    (
        &[0x9c, 0x40, 0x13, 0x89, 3, 0, 0x58, 1, 4, 0, 0, 3, 0xdd],
        Some(Arrival::Dropped(2)),
        &[
            0x13, 0x89, 0x9c, 0x40, 5, 0, 0x5f, 0x22, 6, 0, 7, 0xd3, 0, 0, 0, 3, 0x28, 3, 0xa2, 2,
        ],
    ),
];

// A server that offers nothing, and takes and sends short numbers if it is asked to.
fn config() -> Option<Config> {
    let mut config = plain(Role::Server);
    config.set(Feature::ShortSeqnos, Place::Here, &[1]).ok()?;
    config.set(Feature::ShortSeqnos, Place::There, &[1]).ok()?;
    Some(config)
}

fn sends(out: &Outbox, bytes: &[u8]) -> bool {
    match out.frame() {
        Some(frame) => frame.bytes() == bytes,
        None => bytes.is_empty(),
    }
}

// Whether a frame arrives with this result, and this is then sent.
fn comes(
    server: &mut Server,
    out: &mut Outbox,
    bytes: &[u8],
    arrival: Option<Arrival>,
    answer: &[u8],
) -> bool {
    bytes.len() <= 2044 && server.receive(bytes, out).arrival == arrival && sends(out, answer)
}

fn plays(server: &mut Server) -> Result<(), Fail> {
    let mut out = Outbox::new();
    for (place, (bytes, arrival, answer)) in STORY.iter().enumerate() {
        if !comes(server, &mut out, *bytes, *arrival, *answer) {
            return Err(Fail::new(format_args!("frame {place}")));
        }
    }
    Ok(())
}

#[test]
fn drops_under_short_numbers(rt: HostRuntime) -> Result<(), Fail> {
    let Some(config) = config() else {
        return Err(Fail::from("a value that is refused"));
    };
    let mut server = buffered_end(rt.alloc(), config, 1)?;
    plays(&mut server)
}
