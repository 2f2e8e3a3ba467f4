//! The option Init Cookie (RFC 4340, section 8.1.4).
ghost use Rattle.std.specs.Prelude.{◌≡◌, ◌≤◌, [], ◌∷◌, MatchOption, None, Some, false, length};
ghost use Rattle.dccp_options.specs.Written.{spelled};
ghost use Rattle.init_cookies.specs.CookieOptions.{cookie_options, first_cookie, one_cookie};

use arrayvec::ArrayVec;
use dccp_options::kinds::INIT_COOKIE;
use dccp_options::{MOST_OPTION_BYTES, OptList};

/// An Init Cookie as an option: its type, its length and its data.
pub type CookieOption = ArrayVec<u8, 256>;

// The data of the first Init Cookie among these; the options then go on after it.
fn next_cookie<'a>(options: &mut OptList<'a>) -> Option<&'a [u8]>
    ensures { MatchOption result
        ((cookie_options options.old ≡ []) × (cookie_options options.new ≡ []))
        (λ body. cookie_options options.old ≡ body.now ∷ cookie_options options.new) }
{
    while let Some(item) = options.next() {
        match item {
            Ok(option) if option.kind == INIT_COOKIE => return Some(option.body),
            Ok(_) | Err(_) => {}
        }
    }
    None
}

/// The data of the first Init Cookie among the options of a packet.
pub fn first_cookie<'a>(options: &OptList<'a>) -> Option<&'a [u8]>
    ensures { MatchOption result (first_cookie options.now ≡ None) (λ body. first_cookie options.now ≡ Some body.now) }
{
    let mut rest = options.again();
    next_cookie(&mut rest)
}

/// Writes an Init Cookie with these data, at most 253 bytes, in place of what was there.
pub fn init_cookie(body: &[u8], out: &mut CookieOption)
    requires { length body.now ≤ 253 }
    ensures value { out.new.items ≡ spelled false 36 body.now }
    ensures short { length out.new.items ≤ 255 }
{
    out.clear();
    out.push(INIT_COOKIE);
    out.push((body.len() + 2) as u8);
    let _ = out.try_extend_from_slice(body);
}

/// Writes what a client returns of the options of a Response, in place of what was there: its Init Cookie if there is
/// only one, otherwise nothing (own).
pub fn one_cookie(options: &OptList<'_>, out: &mut CookieOption)
    ensures value { out.new.items ≡ one_cookie (cookie_options options.now) }
    ensures short { length out.new.items ≤ 255 }
{
    out.clear();
    let mut rest = options.again();
    let Some(body) = next_cookie(&mut rest) else {
        return;
    };
    if next_cookie(&mut rest).is_none() && body.len() <= MOST_OPTION_BYTES {
        init_cookie(body, out);
    }
}
