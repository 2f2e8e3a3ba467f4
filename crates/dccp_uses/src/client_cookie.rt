//! The Init Cookie that a client returns.
ghost use Rattle.std.specs.Prelude.{◌≡◌, ◌≤◌, None, length};
ghost use Rattle.dccp_endpoint.specs.Calling.{is_requesting};
ghost use Rattle.dccp_endpoint.specs.Early.{is_part_open};
ghost use Rattle.dccp_packets.specs.Grammar.{decoded};
ghost use Rattle.dccp_uses.specs.ClientCookies.{cookie_had, with_cookie};

use dccp_endpoint::{DecodedDatagram, Outbox, Phase, Pseudo};
use dccp_options::options;
use init_cookies::{CookieOption, append_options, one_cookie};
use std::marker::Model;

fn is_requesting(phase: Phase) -> bool
    ensures { result ≡ is_requesting phase }
{
    matches!(phase, Phase::Request)
}

pub(crate) fn is_part_open(phase: Phase) -> bool
    ensures { result ≡ is_part_open phase }
{
    matches!(phase, Phase::PartOpen)
}

// Writes the Init Cookie of a Response as an option, or nothing.
fn put_cookie(datagram: &DecodedDatagram<'_>, cookie: &mut CookieOption)
    requires { length datagram.now ≤ 2044 }
    ensures value { cookie.new.items ≡ cookie_had (decoded datagram.now) }
    ensures short { length cookie.new.items ≤ 255 }
{
    match datagram.packet() {
        Ok(packet) => one_cookie(&options(packet.options, false), cookie),
        Err(_) => cookie.clear(),
    }
}

fn add_cookie(pseudo: &Pseudo, cookie: &CookieOption, out: &mut Outbox)
    requires { length cookie.now.items ≤ 255 }
    ensures adds { out.new ≡ with_cookie pseudo.now cookie.now.items out.old }
    ensures silent { out.old ≡ None → out.new ≡ None }
{
    if cookie.is_empty() {
        return;
    }
    append_options(out, cookie.as_slice(), pseudo);
}

/// The Init Cookie that a client returns (RFC 4340, section 8.1.4), if it has one. Its owner calls `keep` with each
/// datagram that the end has heard, and `put` for each frame that the end leaves.
#[derive(Drop)]
pub struct ClientCookie {
    option: CookieOption,
}

impl Model for ClientCookie {
    ghost use Rattle.std.specs.Prelude.{◌≤◌, List, length, ℕ};

    ghost Value = { List ℕ };

    ghost view = { λ c. c.option.items };

    ghost invariant = { λ c. length c.option.items ≤ 255 };
}

impl ClientCookie {
    ghost use Rattle.std.specs.Prelude.{◌≡◌, ◌≤◌, [], None, length};
    ghost use Rattle.dccp_uses.specs.ClientCookies.{cookie_kept, with_cookie};

    /// No cookie yet.
    pub fn none() -> ClientCookie
        ensures { result ≡ [] }
    {
        ClientCookie {
            option: CookieOption::new(),
        }
    }

    /// A datagram of at most 2,044 bytes has led the end from one phase to another. If it has answered the Request of a
    /// client, its Init Cookie is kept, if it has exactly one (own).
    pub fn keep(&mut self, was: Phase, is: Phase, datagram: &DecodedDatagram<'_>)
        requires { length datagram.now ≤ 2044 }
        ensures { self.new ≡ cookie_kept was is datagram.now self.old }
    {
        if is_requesting(was) && is_part_open(is) {
            put_cookie(datagram, &mut self.option);
        }
    }

    /// Adds the cookie, if there is one, to the frame that the end has left in the box, if the frame has room for it. The
    /// addresses are those of the packets that the end sends.
    pub(crate) fn put(&self, pseudo: &Pseudo, out: &mut Outbox)
        ensures adds { out.new ≡ with_cookie pseudo.now self.now out.old }
        ensures silent { out.old ≡ None → out.new ≡ None }
    {
        add_cookie(pseudo, &self.option, out);
    }

    /// How many bytes it has as an option; 0 if there is none.
    pub fn bytes(&self) -> usize
        ensures value { result ≡ length self.now }
        ensures few { result ≤ 255 }
    {
        self.option.len()
    }
}
