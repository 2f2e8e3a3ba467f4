//! Why an IP packet holds no DCCP packet that can be read.
ghost use Rattle.std.specs.Prelude.{◌≡◌, slice_index};
ghost use Rattle.bridge_command.specs.Skips as spec;
ghost use Rattle.bridge_command.specs.Skips.{skip_name};

use bridge_links::{Upper, read_u16, upper_of};

/// Why a record holds no DCCP packet that can be read (own).
#[derive(Clone, Copy)]
pub(crate) enum Skip {
    /// No IP packet was found after the header of its link.
    NotIp,
    /// The IP header or extension headers of IPv6 were not captured whole, or there are more than 16 extension headers.
    ShortHeader,
    /// The lengths in the IP header contradict each other or the headers that follow.
    BadHeader,
    /// IP carries another protocol, or IPv6 carries an extension header that is not skipped.
    NotDccp,
    /// A fragment of DCCP.
    Fragment,
    /// Fewer bytes of DCCP were captured than the IP length says, and those that are there are no packet.
    CutShort,
}

const IPV4_SHORTEST: usize = 20;

const IPV6_HEADER: usize = 40;

const FRAGMENT_PLACE: usize = 6;

// The low 14 bits of the field for fragments: More Fragments and the offset.
const FRAGMENT: u16 = 1 << 14;

const DCCP: u8 = 33;

// The extension header of IPv6 that has a fragment.
const FRAGMENT_HEADER: u8 = 44;

fn v4_skip(bytes: &[u8]) -> Skip
    ensures { result ≡ spec.v4_skip bytes.now }
{
    if bytes.len() < IPV4_SHORTEST {
        return Skip::ShortHeader;
    }
    if bytes[9] != DCCP {
        return Skip::NotDccp;
    }
    if read_u16(bytes, FRAGMENT_PLACE) % FRAGMENT != 0 {
        return Skip::Fragment;
    }
    if bytes.len() < 4 * usize::from(bytes[0] % 16) {
        return Skip::ShortHeader;
    }
    Skip::BadHeader
}

/// The byte at this place, or 0 if there is none.
pub(crate) fn byte_at(bytes: &[u8], place: usize) -> u8
    ensures { result ≡ slice_index bytes.now place }
{
    bytes.get(place).copied().unwrap_or(0)
}

// Why no DCCP was found after the extension headers of IPv6, if this header follows them.
fn upper_skip(upper: &Upper, bytes: &[u8]) -> Skip
    ensures { result ≡ spec.upper_skip upper.now bytes.now }
{
    match upper.kind {
        DCCP => Skip::BadHeader,
        FRAGMENT_HEADER if byte_at(bytes, upper.place) == DCCP => Skip::Fragment,
        _ => Skip::NotDccp,
    }
}

fn v6_skip(bytes: &[u8]) -> Skip
    ensures { result ≡ spec.v6_skip bytes.now }
{
    if bytes.len() < IPV6_HEADER {
        return Skip::ShortHeader;
    }
    match upper_of(bytes) {
        Some(upper) => upper_skip(&upper, bytes),
        None => Skip::ShortHeader,
    }
}

/// Why no DCCP was found in bytes that may be IP.
pub(crate) fn ip_skip(bytes: &[u8]) -> Skip
    ensures { result ≡ spec.ip_skip bytes.now }
{
    if bytes.is_empty() {
        return Skip::NotIp;
    }
    match bytes[0] / 16 {
        4 => v4_skip(bytes),
        6 => v6_skip(bytes),
        _ => Skip::NotIp,
    }
}

/// The word for why.
pub(crate) fn skip_name(skip: Skip) -> &'static str
    ensures { result.now ≡ skip_name skip }
{
    match skip {
        Skip::NotIp => "NotIp",
        Skip::ShortHeader => "ShortHeader",
        Skip::BadHeader => "BadHeader",
        Skip::NotDccp => "NotDccp",
        Skip::Fragment => "Fragment",
        Skip::CutShort => "CutShort",
    }
}
