//! The IP packet of a record.
ghost use Rattle.std.specs.Prelude.{◌≡◌, ◌≤◌, length, IfOk};
ghost use Rattle.bridge_links.specs.Links.{captured_ip, ip_bytes};
ghost use Rattle.bridge_links.specs.Packets.{packet_bytes};

use crate::extensions::{is_extended, shortened};
use crate::links::captured_ip;
use seq_circle::NoMemory;
use std::alloc::Global;

/// The IP packet of a record (own).
#[derive(Drop)]
pub enum IpPacket<'a> {
    /// It is in the record.
    Captured(&'a [u8]),
    /// It has no extension headers, unlike the one in the record.
    Shortened(Vec<u8>),
}

impl IpPacket<'_> {
    /// Its bytes.
    pub fn bytes(&self) -> &[u8]
        ensures { result.now ≡ packet_bytes self.now }
    {
        match self {
            IpPacket::Captured(bytes) => bytes,
            IpPacket::Shortened(bytes) => bytes,
        }
    }
}

/// The IP packet in a record of this link type, or no bytes if there is none or the link type is not known (the
/// link-layer header types of libpcap; IEEE 802.1Q). It has no extension headers of IPv6 before DCCP. NoMemory means
/// that no memory was left to remove them.
pub fn ip_packet(alloc: Global, link: u32, bytes: &[u8]) -> Result<IpPacket<'_>, NoMemory>
    ensures value { IfOk result (λ packet. packet_bytes packet ≡ ip_bytes link bytes.now) }
    ensures fits { IfOk result (λ packet. length (packet_bytes packet) ≤ length bytes.now) }
{
    let ip = captured_ip(link, bytes);
    if !is_extended(ip) {
        return Ok(IpPacket::Captured(ip));
    }
    match shortened(alloc, ip)? {
        Some(plain) => Ok(IpPacket::Shortened(plain)),
        None => Ok(IpPacket::Captured(ip)),
    }
}
