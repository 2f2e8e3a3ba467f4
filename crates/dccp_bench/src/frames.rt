//! The frames that are read.

use dccp_options::OptWriter;
use dccp_packets::{Frame, Header, Kind, Number, encode};
use dccp_sum::{Pseudo, seal};
use seq_circle::Seq48;

// From the client to the server, as the full frame travels.
pub(crate) const PSEUDO: Pseudo = Pseudo::V4 {
    from: [10, 0, 0, 1],
    to: [10, 0, 0, 2],
};

/// Frames of a connection with Ack Vectors and data, of both ends: the sum is the same in both directions.
pub(crate) const WORKED: [&[u8]; 7] = [
    &[
        0x9c, 0x40, 0x13, 0x89, 8, 0, 0, 0xb6, 1, 0, 0, 0, 0, 0, 3, 0xe8, 0, 0, 0, 0x2a, 1, 0x20,
        4, 4, 1, 1, 0x22, 4, 6, 1, 0, 0,
    ],
    &[
        0x13, 0x89, 0x9c, 0x40, 0x0d, 0, 0xa1, 0xc3, 3, 0, 0, 0, 0, 0, 7, 0xd0, 0, 0, 0, 0, 0, 0,
        3, 0xe8, 0, 0, 0, 0x2a, 0x23, 6, 4, 1, 1, 0, 0x21, 6, 6, 1, 1, 0, 1, 0x20, 4, 4, 1, 1,
        0x22, 4, 6, 1, 0, 0,
    ],
    &[
        0x9c, 0x40, 0x13, 0x89, 0x0a, 0, 0xea, 0xdd, 7, 0, 0, 0, 0, 0, 3, 0xe9, 0, 0, 0, 0, 0, 0,
        7, 0xd0, 0x26, 3, 0, 0x23, 6, 4, 1, 1, 0, 0x21, 6, 6, 1, 1, 0, 0,
    ],
    &[
        0x13, 0x89, 0x9c, 0x40, 7, 0, 0xfb, 0x38, 7, 0, 0, 0, 0, 0, 7, 0xd1, 0, 0, 0, 0, 0, 0, 3,
        0xe9, 0x26, 3, 1, 0,
    ],
    &[
        0x9c, 0x40, 0x13, 0x89, 7, 0, 0x50, 0x36, 9, 0, 0, 0, 0, 0, 3, 0xea, 0, 0, 0, 0, 0, 0, 7,
        0xd1, 0x26, 3, 0, 0, 0xaa,
    ],
    &[
        0x13, 0x89, 0x9c, 0x40, 8, 0, 0xfa, 0x6e, 7, 0, 0, 0, 0, 0, 7, 0xd2, 0, 0, 0, 0, 0, 0, 3,
        0xec, 0x26, 5, 0, 0xc0, 0, 0, 0, 0,
    ],
    &[
        0x13, 0x89, 0x9c, 0x40, 7, 0, 0xfc, 0x32, 7, 0, 0, 0, 0, 0, 7, 0xd3, 0, 0, 0, 0, 0, 0, 3,
        0xed, 0x26, 3, 0, 0,
    ],
];

// Ack Vectors that fill an area after the fixed part of a DataAck.
fn full_options() -> OptWriter {
    let mut writer = OptWriter::new();
    let bytes = [0; 253];
    for _ in 0..3 {
        let _ = writer.put(false, 38, &bytes);
    }
    let _ = writer.put(false, 38, &bytes[..229]);
    writer
}

/// A frame of 2,044 bytes: full options and full data.
pub(crate) fn full_frame() -> Frame {
    let Some(number) = Seq48::new(1000) else {
        unreachable!()
    };
    let header = Header {
        from: 40000,
        to: 5001,
        ccval: 0,
        cscov: 0,
        checksum: 0,
        number: Number::Long(number),
        kind: Kind::DataAck {
            ack: Number::Long(number),
        },
    };
    let mut frame = Frame::new();
    let _ = encode(&header, full_options().bytes(), &[85; 1024], &mut frame);
    if frame.bytes().len() >= 8 {
        let _ = seal(&PSEUDO, frame.bytes_mut());
    }
    frame
}
