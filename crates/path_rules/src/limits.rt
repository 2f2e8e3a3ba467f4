//! How many answers go out in a second to datagrams that anybody may send.
ghost use Rattle.std.specs.Prelude.{◌≡◌, ◌*◌};
ghost use Rattle.path_rules.specs.Limits.{tokens_for, far_syncs, full, is_near_greatest, near_syncs, refilled, resets_to_strangers, token_taken};

use seq_circle::Seq48;

/// How many answers may pass (own): in a second, and at once after a pause.
#[derive(Clone, Copy, Debug, PartialEq, Eq)]
pub struct Limit {
    /// How many tokens come in a second.
    pub per_second: u16,
    /// How many tokens there are at most.
    pub burst: u16,
}

/// A bucket of tokens, one for each answer that may pass.
#[derive(Clone, Copy, Debug, PartialEq, Eq)]
pub struct Bucket {
    /// What it held when it was last asked, in thousandths of a token.
    pub thousandths: u32,
    /// When it was last asked, in milliseconds.
    pub since: u64,
}

/// The result of asking for a token.
#[derive(Clone, Copy, Debug, PartialEq, Eq)]
pub struct TokenGrant {
    /// Whether there was one.
    pub granted: bool,
    /// The bucket afterwards.
    pub bucket: Bucket,
}

/// Syncs for numbers near the greatest that was received: 20 a second (own; RFC 4340, section 7.5.4, has eight a second
/// for its first limit, and leaves the numbers to the implementation).
pub fn near_syncs() -> Limit
    ensures { result ≡ near_syncs }
{
    Limit {
        per_second: 20,
        burst: 20,
    }
}

/// Syncs for numbers far from it, such as a sender would guess that knows none of them: one a second (own; RFC 4340,
/// section 7.5.4).
pub fn far_syncs() -> Limit
    ensures { result ≡ far_syncs }
{
    Limit {
        per_second: 1,
        burst: 1,
    }
}

/// Resets to peers that have no connection: eight a second (own; RFC 4340, section 8.1.3, wants them to be limited).
pub fn resets_to_strangers() -> Limit
    ensures { result ≡ resets_to_strangers }
{
    Limit {
        per_second: 8,
        burst: 8,
    }
}

// The price of one answer, in thousandths of a token.
fn price(granted: bool) -> u32
    ensures { result ≡ 1000 * tokens_for granted }
{
    if granted { 1_000 } else { 0 }
}

/// Whether a sequence number lies within 2^24 of the greatest that was received, up or down the circle (own).
pub fn is_near_greatest(number: Seq48, greatest: Seq48) -> bool
    ensures { result ≡ is_near_greatest number greatest }
{
    const NEAR: u64 = 1 << 24;
    number.distance(greatest) < NEAR || greatest.distance(number) < NEAR
}

impl Bucket {
    /// A full bucket at `now`.
    pub fn full(limit: &Limit, now: u64) -> Bucket
        ensures { result ≡ full limit.now now }
    {
        Bucket {
            thousandths: u32::from(limit.burst) * 1_000,
            since: now,
        }
    }

    // What it holds at `now`, in thousandths.
    fn refilled(&self, limit: &Limit, now: u64) -> u32
        ensures { result ≡ refilled limit.now self.now now }
    {
        let most = u64::from(limit.burst) * 1_000;
        let elapsed = now.saturating_sub(self.since).min(most);
        let held = u64::from(self.thousandths) + u64::from(limit.per_second) * elapsed;
        held.min(most) as u32
    }

    /// Takes a token at `now`, if there is one. If there is none, the bucket continues to fill.
    pub fn take(&self, limit: &Limit, now: u64) -> TokenGrant
        ensures { result ≡ token_taken limit.now self.now now }
    {
        let held = self.refilled(limit, now);
        let granted = 1_000 <= held;
        TokenGrant {
            granted,
            bucket: Bucket {
                thousandths: held.saturating_sub(price(granted)),
                since: self.since.max(now),
            },
        }
    }
}
