//! The link types whose records may carry IP.
ghost use Rattle.std.specs.Prelude.{◌≡◌, length};
ghost use Rattle.capture_reader.specs.Format.{is_link};
ghost use Rattle.bridge_records.specs.Links.{classic_format, known_links};

use capture_reader::{Format, FormatFault, Order};

// The link types whose records may carry IP (the link-layer header types of libpcap).
const KNOWN_LINKS: [u32; 15] = [
    0, 1, 9, 12, 101, 105, 108, 113, 127, 219, 228, 229, 239, 258, 276,
];

/// The link type is one of those whose records may carry IP (own).
pub fn is_known_link(link: u32) -> bool
    ensures { result ≡ is_link known_links link }
{
    KNOWN_LINKS.contains(&link)
}

// Where a file header has its link type.
const LINK: usize = 20;

// How many numbers the 16 low bits have.
const LOW: u32 = 65_536;

/// The format that the 24 bytes of a file header give, whose link type is known by its low 16 bits; or their first
/// fault (the savefile format of libpcap).
pub(crate) fn classic_format(bytes: &[u8]) -> Result<Format, FormatFault>
    requires { length bytes.now ≡ 24 }
    ensures { result ≡ classic_format bytes.now }
{
    let either = [
        Order::Big.read_u32(bytes, LINK),
        Order::Little.read_u32(bytes, LINK),
    ];
    let format = Format::read(&either, bytes)?;
    let link = format.link % LOW;
    if !is_known_link(link) {
        return Err(FormatFault::BadLink);
    }
    Ok(Format {
        order: format.order,
        nanos: format.nanos,
        link,
    })
}
