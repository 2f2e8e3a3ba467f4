//! The file header (the savefile format of libpcap).
ghost use Rattle.std.specs.Prelude.{◌≡◌, ◌+◌, ◌≤◌, length};
ghost use Rattle.capture_reader.specs.Format.{ordered_number_at, format_in, format_of, magic_of};

use crate::FormatFault;
use byteorder::{BigEndian, ByteOrder, LittleEndian};

/// The byte order of a capture's own numbers. The packets in it are in network order.
#[derive(Clone, Copy)]
pub enum Order {
    /// The most significant byte first.
    Big,
    /// The least significant byte first.
    Little,
}

/// What a capture's file header says about its records.
#[derive(Clone, Copy)]
pub struct Format {
    /// The byte order of the header's fields.
    pub order: Order,
    /// Whether fractions of a second are nanoseconds; otherwise they are microseconds.
    pub nanos: bool,
    /// The link type, one of those that were known: 1 for Ethernet, 101 for raw IP.
    pub link: u32,
}

/// The bytes of the file header.
pub(crate) const FILE_HEADER: usize = 24;

/// The magic number of a capture whose fractions are microseconds.
pub const MICROSECONDS: u32 = 0xa1b2_c3d4;

/// The magic number of a capture whose fractions are nanoseconds.
pub const NANOSECONDS: u32 = 0xa1b2_3c4d;

const MAGIC: usize = 0;

const MAJOR: usize = 4;

const MINOR: usize = 6;

const LINK: usize = 20;

/// The link types that `Captures` accepts: Ethernet and raw IP.
pub(crate) const LINKS: [u32; 2] = [1, 101];

impl Order {
    /// The number of 32 bits that is there.
    pub fn read_u32(self, bytes: &[u8], place: usize) -> u32
        requires { place + 4 ≤ length bytes.now }
        ensures { result ≡ ordered_number_at self place 4 bytes.now }
    {
        match self {
            Order::Big => BigEndian::read_u32(&bytes[place..]),
            Order::Little => LittleEndian::read_u32(&bytes[place..]),
        }
    }

    /// The number of 16 bits that is there.
    pub fn read_u16(self, bytes: &[u8], place: usize) -> u16
        requires { place + 2 ≤ length bytes.now }
        ensures { result ≡ ordered_number_at self place 2 bytes.now }
    {
        match self {
            Order::Big => BigEndian::read_u16(&bytes[place..]),
            Order::Little => LittleEndian::read_u16(&bytes[place..]),
        }
    }

    /// The number of 64 bits that is there.
    pub fn read_u64(self, bytes: &[u8], place: usize) -> u64
        requires { place + 8 ≤ length bytes.now }
        ensures { result ≡ ordered_number_at self place 8 bytes.now }
    {
        match self {
            Order::Big => BigEndian::read_u64(&bytes[place..]),
            Order::Little => LittleEndian::read_u64(&bytes[place..]),
        }
    }
}

// The byte order in which the first four bytes are a magic number, and whether it means nanoseconds.
fn magic_of(bytes: &[u8]) -> Option<(Order, bool)>
    requires { 4 ≤ length bytes.now }
    ensures { result ≡ magic_of bytes.now }
{
    let big = Order::Big.read_u32(bytes, MAGIC);
    if big == MICROSECONDS {
        return Some((Order::Big, false));
    }
    if big == NANOSECONDS {
        return Some((Order::Big, true));
    }
    let little = Order::Little.read_u32(bytes, MAGIC);
    if little == MICROSECONDS {
        return Some((Order::Little, false));
    }
    if little == NANOSECONDS {
        return Some((Order::Little, true));
    }
    None
}

impl Format {
    // The format in this byte order, by the version and the link type.
    fn read_in(
        order: Order,
        nanos: bool,
        links: &[u32],
        bytes: &[u8],
    ) -> Result<Format, FormatFault>
        requires { 24 ≤ length bytes.now }
        ensures { result ≡ format_in links.now order nanos bytes.now }
    {
        if order.read_u16(bytes, MAJOR) != 2 || order.read_u16(bytes, MINOR) != 4 {
            return Err(FormatFault::BadVersion);
        }
        let link = order.read_u32(bytes, LINK);
        if !links.contains(&link) {
            return Err(FormatFault::BadLink);
        }
        Ok(Format { order, nanos, link })
    }

    /// The format that the 24 bytes of a file header give, whose link type has to be one of `links`; or the first fault
    /// in them (the savefile format of libpcap).
    pub fn read(links: &[u32], bytes: &[u8]) -> Result<Format, FormatFault>
        requires { 24 ≤ length bytes.now }
        ensures { result ≡ format_of links.now bytes.now }
    {
        match magic_of(bytes) {
            None => Err(FormatFault::BadMagic),
            Some((order, nanos)) => Format::read_in(order, nanos, links, bytes),
        }
    }
}
