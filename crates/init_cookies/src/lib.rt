//! Init Cookies: what a crowded server sends with a Response instead of keeping the connection, and what its client
//! returns with its packets (RFC 4340, section 8.1.4; the format of a cookie is own).
//!
//! A [`Cookie`](CookieBytes) holds a [`FirstRequest`]: all of a Request that opens its connection later, and when and
//! under which number it was answered. Its tag is a keyed hash over the opening and the [`Route`] between both ends;
//! [`CookieKeys`] write and judge it. [`put_request`] writes the Request again. A client keeps the Init Cookie of a
//! Response ([`one_cookie`]) and returns it ([`append_options`]). There is no clock here, and no memory is taken.
#![tactic(auto)]

mod appending;
mod cookie;
mod cookie_option;
mod keyed;
mod laws;
mod opening;
mod route;

pub use crate::appending::append_options;
pub use crate::cookie::{CookieBytes, CookieKeys};
pub use crate::cookie_option::{CookieOption, first_cookie, init_cookie, one_cookie};
pub use crate::keyed::keyed_hash;
pub use crate::laws::cookies_come_back;
pub use crate::opening::{FirstRequest, MOST_REQUEST_OPTIONS, put_request};
pub use crate::route::Route;
