//! When an end that hears nothing is given up.
ghost use Rattle.std.specs.Prelude.{◌≡◌};
ghost use Rattle.path_rules.specs.GivingUp.{asks_after_silence};

/// How long a client asks for its service, in milliseconds: three minutes (RFC 4340, section 8.1.1).
pub const GIVES_UP_ASKING: u64 = 180_000;

/// How long an end waits for the answer to its Close or CloseReq, in milliseconds (own; RFC 4340, section 8.3, leaves it
/// open).
pub const GIVES_UP_ENDING: u64 = 120_000;

/// How long an open end that takes no packet from its peer stays, in milliseconds: the minute after which it asks, and
/// two more (own).
pub const GIVES_UP_SILENT: u64 = 180_000;

/// Whether an open end asks its peer for a sign of life: once it has taken no packet for a minute, and then every ten
/// seconds (own). `asked` is when it last did.
pub fn asks_after_silence(heard: u64, asked: u64, now: u64) -> bool
    ensures { result ≡ asks_after_silence heard asked now }
{
    60_000 <= now.saturating_sub(heard) && 10_000 <= now.saturating_sub(asked)
}
