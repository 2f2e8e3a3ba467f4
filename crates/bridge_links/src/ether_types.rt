//! Where IP begins after a type of Ethernet, or a protocol of PPP.
ghost use Rattle.std.specs.Prelude.{◌≡◌, ◌≤◌, ◌<◌, length, IfSome};
ghost use Rattle.bridge_links.specs.EtherTypes.{ip_after_tag, ip_after_tags, ip_in_session, ip_of_protocol, ip_of_type, is_tag};

use crate::labels::ip_in_labels;
use crate::numbers::read_u16;
use crate::starts::ip_at;

// The types of Ethernet.
const IPV4: u16 = 0x0800;

const IPV6: u16 = 0x86dd;

const VLAN: u16 = 0x8100;

const SERVICE_VLAN: u16 = 0x88a8;

const OUTER_VLAN: u16 = 0x9100;

const LABELS: u16 = 0x8847;

const GROUP_LABELS: u16 = 0x8848;

const SESSION: u16 = 0x8864;

// The protocols of PPP.
const PPP_IPV4: u16 = 0x0021;

const PPP_IPV6: u16 = 0x0057;

const PPP_LABELS: u16 = 0x0281;

const PPP_GROUP_LABELS: u16 = 0x0283;

/// What follows here has this protocol of PPP.
pub(crate) fn ip_of_protocol(protocol: u16, next: usize, bytes: &[u8]) -> Option<usize>
    requires { next ≤ 128 }
    ensures value { result ≡ ip_of_protocol protocol next bytes.now }
    ensures within { IfSome result (λ n. n < length bytes.now) }
{
    match protocol {
        PPP_IPV4 => ip_at(4, next, bytes),
        PPP_IPV6 => ip_at(6, next, bytes),
        PPP_LABELS | PPP_GROUP_LABELS => ip_in_labels(next, bytes),
        _ => None,
    }
}

// A session of PPPoE begins here.
fn ip_in_session(next: usize, bytes: &[u8]) -> Option<usize>
    requires { next ≤ 96 }
    ensures value { result ≡ ip_in_session next bytes.now }
    ensures within { IfSome result (λ n. n < length bytes.now) }
{
    if bytes.len() < next + 8 {
        return None;
    }
    ip_of_protocol(read_u16(bytes, next + 6), next + 8, bytes)
}

// What follows here has this type.
fn ip_of_type(kind: u16, next: usize, bytes: &[u8]) -> Option<usize>
    requires { next ≤ 96 }
    ensures value { result ≡ ip_of_type kind next bytes.now }
    ensures within { IfSome result (λ n. n < length bytes.now) }
{
    match kind {
        IPV4 => ip_at(4, next, bytes),
        IPV6 => ip_at(6, next, bytes),
        SESSION => ip_in_session(next, bytes),
        LABELS | GROUP_LABELS => ip_in_labels(next, bytes),
        _ => None,
    }
}

fn is_tag(kind: u16) -> bool
    ensures { result ≡ is_tag kind }
{
    kind == VLAN || kind == SERVICE_VLAN || kind == OUTER_VLAN
}

// What follows a tag has this type: the last two of the tag's four bytes are the next type.
fn ip_after_tag(kind: u16, next: usize, bytes: &[u8]) -> Option<usize>
    requires { next ≤ 80 }
    ensures value { result ≡ ip_after_tag kind next bytes.now }
    ensures within { IfSome result (λ n. n < length bytes.now) }
{
    if !is_tag(kind) {
        return ip_of_type(kind, next, bytes);
    }
    if bytes.len() < next + 4 {
        return None;
    }
    ip_of_type(read_u16(bytes, next + 2), next + 4, bytes)
}

/// What follows has this type, after up to two tags.
pub(crate) fn ip_after_tags(kind: u16, next: usize, bytes: &[u8]) -> Option<usize>
    requires { next ≤ 64 }
    ensures value { result ≡ ip_after_tags kind next bytes.now }
    ensures within { IfSome result (λ n. n < length bytes.now) }
{
    if !is_tag(kind) {
        return ip_of_type(kind, next, bytes);
    }
    if bytes.len() < next + 4 {
        return None;
    }
    ip_after_tag(read_u16(bytes, next + 2), next + 4, bytes)
}
