//! Sums of 16-bit words, taken many at a time.
//!
//! Words of 64 bits are added with their low byte first, as most processors have them. The bytes of the sum are put in
//! order and its carries folded at the end. So the contract of the inner sum is a relation: the same residue modulo
//! 65,535, and zero for zero (`IsSameSum`). The public contracts are equations.
ghost use Rattle.std.specs.Prelude.{◌≡◌, ◌+◌, ◌*◌, ◌^◌, ◌<◌, ◌≤◌, length};
ghost use Rattle.dccp_sum.specs.Words.{word_sum, ones_complement, IsSameSum};

// A sum of fewer bits. 2^64 and 2^32 are congruent to 1 modulo 65,535, as 2^16 is.
fn narrow(sum: u128) -> u64
    requires { sum < 2 ^ 96 }
    ensures value { IsSameSum result sum }
    ensures bound { 2 ^ 64 * result ≤ sum + 2 ^ 97 }
{
    let low = (sum & u128::from(u64::MAX)) as u64;
    (sum >> 64) as u64 + (low >> 32) + (low & 0xffff_ffff)
}

// The first eight bytes as a word with its low byte first, and what follows them.
fn take_word(bytes: &[u8]) -> (u64, &[u8])
    requires { 8 ≤ length bytes.now }
    ensures value { IsSameSum (256 * result.0 + word_sum result.1.now) (word_sum bytes.now) }
    ensures rest { length result.1.now + 8 ≡ length bytes.now }
{
    match bytes {
        [a, b, c, d, e, f, g, h, rest @ ..] => {
            (u64::from_le_bytes([*a, *b, *c, *d, *e, *f, *g, *h]), rest)
        }
        _ => unreachable!(),
    }
}

// The sum of two words and a carry: its low 64 bits, and the carry out of them. Most processors have an instruction for
// it, and the compiler finds it in this form.
fn add_with_carry(first: u64, second: u64, carry: u64) -> (u64, u64)
    requires { carry ≤ 1 }
    ensures value { result.0 + 2 ^ 64 * result.1 ≡ first + second + carry }
    ensures carry { result.1 ≤ 1 }
{
    let sum = u128::from(first) + u128::from(second) + u128::from(carry);
    ((sum & u128::from(u64::MAX)) as u64, (sum >> 64) as u64)
}

// The sum and its carry with the first word of the bytes added, and what follows the word. A carry counts for 1, since
// 2^64 is congruent to it.
fn add_word(sum: u64, carry: u64, bytes: &[u8]) -> (u64, u64, &[u8])
    requires word { 8 ≤ length bytes.now }
    requires carry { carry ≤ 1 }
    ensures value { IsSameSum (256 * (result.0 + result.1) + word_sum result.2.now)
        (256 * (sum + carry) + word_sum bytes.now) }
    ensures carry { result.1 ≤ 1 }
    ensures bound { result.0 + result.1 ≤ sum + carry + 2 ^ 64 }
    ensures rest { length result.2.now + 8 ≡ length bytes.now }
{
    let (word, rest) = take_word(bytes);
    let (sum, carry) = add_with_carry(sum, word, carry);
    (sum, carry, rest)
}

// The same with the first four words.
fn add_four(sum: u64, carry: u64, bytes: &[u8]) -> (u64, u64, &[u8])
    requires words { 32 ≤ length bytes.now }
    requires carry { carry ≤ 1 }
    ensures value { IsSameSum (256 * (result.0 + result.1) + word_sum result.2.now)
        (256 * (sum + carry) + word_sum bytes.now) }
    ensures carry { result.1 ≤ 1 }
    ensures bound { result.0 + result.1 ≤ sum + carry + 2 ^ 66 }
    ensures rest { length result.2.now + 32 ≡ length bytes.now }
{
    let (sum, carry, rest) = add_word(sum, carry, bytes);
    let (sum, carry, rest) = add_word(sum, carry, rest);
    let (sum, carry, rest) = add_word(sum, carry, rest);
    add_word(sum, carry, rest)
}

// The bytes of eight words.
const BLOCK: usize = 64;

// The sum of the words of all whole blocks, and the bytes that follow these. Half a block goes into each of two sums, so
// that a turn waits for half of the turn before it.
fn add_blocks(bytes: &[u8]) -> (u128, &[u8])
    ensures value { IsSameSum (256 * result.0 + word_sum result.1.now) (word_sum bytes.now) }
    ensures bound { result.0 + 2 ^ 61 * length result.1.now ≤ 2 ^ 61 * length bytes.now }
{
    if bytes.len() < BLOCK {
        return (0, bytes);
    }
    let mut first = 0;
    let mut second = 0;
    let mut carries = 0;
    let mut rest = bytes;
    while BLOCK <= rest.len() {
        let (sum, carry, half) = add_four(first, 0, rest);
        let (next, carry, tail) = add_four(second, carry, half);
        first = sum;
        second = next;
        carries += carry;
        rest = tail;
    }
    (
        u128::from(first) + u128::from(second) + u128::from(carries),
        rest,
    )
}

// The sum with the words of the bytes added. A longer word counts for its words of 16 bits: 2^16 is congruent to 1
// modulo 65,535, so carries need no care before the end, and a factor of 256 exchanges the bytes of each word (RFC
// 1071, section 2). Each loop here runs at most once. Inlined, since most callers pass a known number of bytes.
#[inline(always)]
pub(crate) fn add_words(start: u64, bytes: &[u8]) -> u64
    requires { start + 2 ^ 41 * length bytes.now < 2 ^ 64 }
    ensures value { IsSameSum result (start + word_sum bytes.now) }
    ensures bound { result ≤ start + 2 ^ 41 * length bytes.now }
{
    let (mut swapped, mut rest) = add_blocks(bytes);
    while 32 <= rest.len() {
        let (sum, carry, tail) = add_four(0, 0, rest);
        swapped += u128::from(sum) + u128::from(carry);
        rest = tail;
    }
    while 16 <= rest.len() {
        let (first, tail) = take_word(rest);
        let (second, tail) = take_word(tail);
        swapped += u128::from(first) + u128::from(second);
        rest = tail;
    }
    while 8 <= rest.len() {
        let (word, tail) = take_word(rest);
        swapped += u128::from(word);
        rest = tail;
    }
    while let [a, b, c, d, tail @ ..] = rest {
        swapped += u128::from(u32::from_le_bytes([*a, *b, *c, *d]));
        rest = tail;
    }
    let mut sum = start + 256 * narrow(swapped);
    if let [high, low, tail @ ..] = rest {
        sum += u64::from(u16::from_be_bytes([*high, *low]));
        rest = tail;
    }
    if let [last] = rest {
        sum += 256 * u64::from(*last);
    }
    sum
}

// The ones' complement sum of a whole sum.
pub(crate) fn fold(sum: u64) -> u16
    ensures { result ≡ ones_complement sum }
{
    if sum == 0 {
        0
    } else {
        (1 + (sum - 1) % 65_535) as u16
    }
}
