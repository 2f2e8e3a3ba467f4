//! What a caller can rely on for the cookies of a server.
ghost use Rattle.std.specs.Prelude.{◌≡◌, ◌+◌, ◌<◌, ◌≤◌, ◌^◌, ℕ, Some, drop, length};
ghost use Rattle.byteorder.specs.Endian.{big_number};
ghost use Rattle.init_cookies.specs.Cookies.{cookie_bytes, cookie_opening, cookie_tag, key_at};
ghost use Rattle.init_cookies.specs.Openings.{FitsCookie, OpeningState};

use init_cookies::{CookieKeys, FirstRequest, Route, cookies_come_back};

/// For two minutes a cookie that comes back by its route opens what it was written for (`returned`), also if the key
/// was changed once since (`changed`). So no cookie is written for two openings (`one`).
pub fn a_cookie_opens_what_it_was_written_for()
    ensures returned { (keys : CookieKeys) (now : ℕ) (route : Route) (o : OpeningState) → o.time < 2 ^ 64 → o.iss < 2 ^ 48 → o.number < 2 ^ 48
        → o.service < 2 ^ 32 → length o.options ≤ 220 → o.time ≤ now → now ≤ o.time + 120000
        → cookie_opening keys now route (cookie_bytes keys route o) ≡ Some o }
    ensures changed { (keys later : CookieKeys) (now : ℕ) (route : Route) (o : OpeningState) → FitsCookie o → o.time ≤ now → now ≤ o.time + 120000
        → keys.since ≤ o.time → o.time < later.since → later.before ≡ keys.key → cookie_opening later now route (cookie_bytes keys route o) ≡ Some o }
    ensures one { (keys : CookieKeys) (now : ℕ) (route : Route) (o other : OpeningState) → FitsCookie o → FitsCookie other
        → o.time ≤ now → now ≤ o.time + 120000 → other.time ≤ now → now ≤ other.time + 120000
        → cookie_bytes keys route o ≡ cookie_bytes keys route other → o ≡ other }
{
    cookies_come_back();
}

/// What a cookie opens was answered at most two minutes ago, and not later than now (`early`, `late`). The cookie has a
/// tag of its bytes and of its route, which only the holder of the key can make (`tagged`). It has 32 to 252 bytes
/// (`short`, `long`).
pub fn opened(keys: &CookieKeys, route: &Route, bytes: &[u8], now: u64) -> Option<FirstRequest>
    ensures early { (o : OpeningState) → result ≡ Some o → o.time ≤ now }
    ensures late { (o : OpeningState) → result ≡ Some o → now ≤ o.time + 120000 }
    ensures tagged { (o : OpeningState) → result ≡ Some o → big_number 8 bytes.now ≡ cookie_tag (key_at keys.now o.time) route.now (drop 8 bytes.now) }
    ensures short { (o : OpeningState) → result ≡ Some o → 32 ≤ length bytes.now }
    ensures long { (o : OpeningState) → result ≡ Some o → length bytes.now ≤ 252 }
{
    keys.read(route, bytes, now)
}
