//! The addresses and ports of a Request.
ghost use Rattle.std.specs.Prelude.{◌≡◌, ◌+◌, ◌≤◌, [], ◌∷◌, ◌++◌, length};
ghost use Rattle.byteorder.specs.Endian.{big_bytes};
ghost use Rattle.init_cookies.specs.Routes.{address_bytes};

use arrayvec::ArrayVec;
use byteorder::{BigEndian, ByteOrder};
use dccp_sum::Pseudo;

/// The addresses and ports between which a Request travels, its client's first (RFC 4340, section 5.1).
#[derive(Clone, Copy, Debug, PartialEq, Eq)]
pub struct Route {
    /// The addresses.
    pub pseudo: Pseudo,
    /// The client's port.
    pub from: u16,
    /// The server's port.
    pub to: u16,
}

// A family, two addresses and two ports.
pub(crate) type RouteBytes = ArrayVec<u8, 40>;

impl Route {
    ghost use Rattle.std.specs.Prelude.{◌≡◌, ◌≤◌, [], length};
    ghost use Rattle.dccp_sum.specs.Checksum.{reversed};
    ghost use Rattle.init_cookies.specs.Routes.{route_bytes};

    /// The addresses of packets that go back.
    pub fn back(&self) -> Pseudo
        ensures { result ≡ reversed self.now.pseudo }
    {
        self.pseudo.reversed()
    }

    // The bytes of the route that the tag of a cookie covers.
    pub(crate) fn put(&self, out: &mut RouteBytes)
        requires { out.old.items ≡ [] }
        ensures value { out.new.items ≡ route_bytes self.now }
        ensures short { length out.new.items ≤ 37 }
    {
        put_addresses(&self.pseudo, out);
        put_port(self.from, out);
        put_port(self.to, out);
    }
}

fn put_addresses(pseudo: &Pseudo, out: &mut RouteBytes)
    requires { out.old.items ≡ [] }
    ensures value { out.new.items ≡ address_bytes pseudo.now }
    ensures short { length out.new.items ≤ 33 }
{
    match *pseudo {
        Pseudo::V4 { from, to } => put_v4(from, to, out),
        Pseudo::V6 { from, to } => put_v6(from, to, out),
    }
}

fn put_v4(from: [u8; 4], to: [u8; 4], out: &mut RouteBytes)
    requires { out.old.items ≡ [] }
    ensures value { out.new.items ≡ 4 ∷ (from ++ to) }
    ensures short { length out.new.items ≤ 33 }
{
    out.push(4);
    let _ = out.try_extend_from_slice(&from);
    let _ = out.try_extend_from_slice(&to);
}

fn put_v6(from: [u8; 16], to: [u8; 16], out: &mut RouteBytes)
    requires { out.old.items ≡ [] }
    ensures value { out.new.items ≡ 6 ∷ (from ++ to) }
    ensures short { length out.new.items ≤ 33 }
{
    out.push(6);
    let _ = out.try_extend_from_slice(&from);
    let _ = out.try_extend_from_slice(&to);
}

fn put_port(port: u16, out: &mut RouteBytes)
    requires { length out.old.items ≤ 35 }
    ensures value { out.new.items ≡ out.old.items ++ big_bytes 2 port }
    ensures longer { length out.new.items ≡ length out.old.items + 2 }
{
    let mut piece = [0; 2];
    BigEndian::write_u16(&mut piece, port);
    let _ = out.try_extend_from_slice(&piece);
}
