//! Sessions and ends with timers as their owners drive them: two whose frames get lost, a client that has a cookie, and
//! senders that heed their readers.
mod bursts;
mod client_cookies;
mod heeding;
mod holding;
mod pair;
mod stories;
mod wire;
