//! When a server uses Init Cookies, and under which keys.
ghost use Rattle.std.specs.Prelude.{◌≡◌, ◌≤◌, false, length};
ghost use Rattle.dccp_options.specs.Written.{spelled};
ghost use Rattle.dccp_sum.specs.Checksum.{reversed};
ghost use Rattle.init_cookies.specs.Appending.{appended};
ghost use Rattle.init_cookies.specs.Cookies.{cookie_bytes};
ghost use Rattle.server_peers.specs.CookieUses.{hurried, is_ever_in_use, is_half_open, is_in_use, rekeyed};

use crate::rules::Rules;
use dccp_endpoint::{Outbox, Phase};
use init_cookies::{
    CookieBytes, CookieKeys, CookieOption, FirstRequest, Route, append_options, init_cookie,
};

/// When a Request of a peer without a flow is answered with an Init Cookie, and no flow is made (RFC 4340, section
/// 8.1.4; own). Without a key it never is.
#[derive(Clone, Copy)]
pub enum CookieUse {
    /// Never.
    Never,
    /// If more flows are in RESPOND than places are free, or if its answer would be one Sync too many.
    InACrowd,
    /// Always.
    Always,
}

/// The keys, with this one for new cookies.
pub fn rekeyed(keys: &Option<CookieKeys>, key: [u8; 32], now: u64) -> CookieKeys
    ensures { result ≡ rekeyed key now keys.now }
{
    match keys {
        Some(keys) => {
            let mut keys = *keys;
            keys.change(key, now);
            keys
        }
        None => CookieKeys::new(key, now),
    }
}

/// The rules by which half-open flows are over their time at once.
pub fn hurried(rules: &Rules) -> Rules
    ensures { result ≡ hurried rules.now }
{
    let mut rules = *rules;
    rules.respond = Some(0);
    rules.crowded = Some(0);
    rules
}

/// Whether a flow in this phase is half open.
pub fn is_half_open(phase: Phase) -> bool
    ensures { result ≡ is_half_open phase }
{
    matches!(phase, Phase::Respond)
}

/// Whether cookies are used for peers without a flow.
pub fn is_in_use(cookies: CookieUse, crowded: bool) -> bool
    ensures { result ≡ is_in_use cookies crowded }
{
    match cookies {
        CookieUse::Never => false,
        CookieUse::InACrowd => crowded,
        CookieUse::Always => true,
    }
}

/// Whether cookies are used at all.
pub fn is_ever_in_use(cookies: CookieUse) -> bool
    ensures { result ≡ is_ever_in_use cookies }
{
    match cookies {
        CookieUse::Never => false,
        CookieUse::InACrowd | CookieUse::Always => true,
    }
}

// The cookie of an opening, as an option.
fn put_option(keys: &CookieKeys, route: &Route, opening: &FirstRequest, out: &mut CookieOption)
    ensures value { out.new.items ≡ spelled false 36 (cookie_bytes keys.now route.now opening.now) }
    ensures short { length out.new.items ≤ 255 }
{
    let mut bytes = CookieBytes::new();
    keys.write(route, opening, &mut bytes);
    init_cookie(bytes.as_slice(), out);
}

// Adds an option to the frame in the box, which goes back by a route.
fn append_option(route: &Route, option: &CookieOption, out: &mut Outbox)
    requires { length option.now.items ≤ 255 }
    ensures { out.new ≡ appended (reversed route.now.pseudo) option.now.items out.old }
{
    let pseudo = route.back();
    append_options(out, option.as_slice(), &pseudo);
}

/// Adds the cookie of an opening to the frame in the box, which goes back by a route, if it has room for it.
pub fn append_cookie(keys: &CookieKeys, route: &Route, opening: &FirstRequest, out: &mut Outbox)
    ensures { out.new ≡ appended (reversed route.now.pseudo) (spelled false 36 (cookie_bytes keys.now route.now opening.now)) out.old }
{
    let mut option = CookieOption::new();
    put_option(keys, route, opening, &mut option);
    append_option(route, &option, out);
}
