//! The first byte of some kind in a text.
ghost use Rattle.std.specs.Prelude.{take, true, not, ℕ, Bool, ◌≡◌, ◌≤◌, ◌<◌, length, IfSome};
ghost use Rattle.std.specs.List.{list_all, position_from};
ghost use Rattle.tool_text.specs.Words.{IsPlaceOf};

/// The kind of bytes that is looked for in a text.
pub(crate) trait ByteSearch {
    ghost sought: { Self → ℕ → Bool };

    /// Whether a byte is of this kind.
    fn is_sought(&self, byte: u8) -> bool
        ensures { result ≡ sought self.now byte };
}

// Most words are shorter.
const NEAR: usize = 10;

// Whether a block has no such byte. The search always goes to the block's end.
fn lacks<S: ByteSearch>(what: &S, block: &[u8]) -> bool
    ensures { result ≡ list_all (λ byte. not (S.sought what.now byte)) block.now }
{
    let mut lacks = true;
    for byte in block {
        lacks = lacks & !what.is_sought(*byte);
    }
    lacks
}

// A lower bound on how many bytes of a text come before the first such byte, counted on from `front` by whole blocks.
// The bytes of a block are tested side by side.
#[tactic(auto, using(crate::proofs::BlockLaws::block_further))]
fn blocks_from<const BLOCK: usize, S: ByteSearch>(what: &S, text: &[u8], front: usize) -> usize
    requires some { 0 < BLOCK }
    requires without { list_all (λ byte. not (S.sought what.now byte)) (take front text.now) ≡ true }
    requires within { front ≤ length text.now }
    ensures without { list_all (λ byte. not (S.sought what.now byte)) (take result text.now) ≡ true }
    ensures within { result ≤ length text.now }
{
    let mut done = front;
    while BLOCK <= text.len() - done && lacks(what, &text[done..done + BLOCK]) {
        done += BLOCK;
    }
    done
}

fn first_in<S: ByteSearch>(what: &S, text: &[u8]) -> Option<usize>
    ensures first { result ≡ position_from (S.sought what.now) 0 text.now }
    ensures within { IfSome result (IsPlaceOf text.now) }
{
    text.iter().position(|byte| what.is_sought(*byte))
}

// The place of the first one after `front` bytes that are none.
#[tactic(auto, using(crate::proofs::BlockLaws::none_after, crate::proofs::BlockLaws::some_after))]
fn first_after<S: ByteSearch>(what: &S, text: &[u8], front: usize) -> Option<usize>
    requires without { list_all (λ byte. not (S.sought what.now byte)) (take front text.now) ≡ true }
    requires within { front ≤ length text.now }
    ensures first { result ≡ position_from (S.sought what.now) 0 text.now }
    ensures within { IfSome result (IsPlaceOf text.now) }
{
    match first_in(what, &text[front..]) {
        Some(place) => Some(front + place),
        None => None,
    }
}

// The same, by large blocks and then by small ones.
fn far_from<S: ByteSearch>(what: &S, text: &[u8], front: usize) -> usize
    requires without { list_all (λ byte. not (S.sought what.now byte)) (take front text.now) ≡ true }
    requires within { front ≤ length text.now }
    ensures without { list_all (λ byte. not (S.sought what.now byte)) (take result text.now) ≡ true }
    ensures within { result ≤ length text.now }
{
    let large = blocks_from::<64, S>(what, text, front);
    blocks_from::<16, S>(what, text, large)
}

/// The place of the first byte that is looked for, for a text that mostly has none.
pub(crate) fn first_far<S: ByteSearch>(what: &S, text: &[u8]) -> Option<usize>
    ensures first { result ≡ position_from (S.sought what.now) 0 text.now }
    ensures within { IfSome result (IsPlaceOf text.now) }
{
    let large = far_from(what, text, 0);
    let front = blocks_from::<8, S>(what, text, large);
    first_after(what, text, front)
}

/// The same for a text in which it is mostly near.
#[tactic(auto, using(crate::proofs::BlockLaws::none_there, crate::proofs::BlockLaws::none_at_all, crate::proofs::BlockLaws::some_near))]
pub(crate) fn first_near<S: ByteSearch>(what: &S, text: &[u8]) -> Option<usize>
    ensures first { result ≡ position_from (S.sought what.now) 0 text.now }
    ensures within { IfSome result (IsPlaceOf text.now) }
{
    let near = text.len().min(NEAR);
    match first_in(what, &text[..near]) {
        Some(place) => Some(place),
        None => {
            if near == text.len() {
                return None;
            }
            let front = far_from(what, text, near);
            first_after(what, text, front)
        }
    }
}
