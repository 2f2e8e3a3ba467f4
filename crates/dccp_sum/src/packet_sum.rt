//! The checksum of a packet.
ghost use Rattle.std.specs.Prelude.{◌≡◌, ◌+◌, ◌*◌, ◌^◌, ◌<◌, ◌≤◌, length, take, ◌%◌, ◌≢◌, false, is_some, IsSomeAnd, IsTrue, ◌↔◌};
ghost use Rattle.dccp_sum.specs.Words.{word_sum, IsSameSum};
ghost use Rattle.dccp_sum.specs.Coverage.{covered};
ghost use Rattle.dccp_sum.specs.Checksum.{with_checksum, checksum, same_checksum, stated, checked, sealed};

use crate::Pseudo;
use crate::pseudo_header::add_pseudo_header;
use crate::words::{add_words, fold};
use byteorder::{BigEndian, ByteOrder};

// The places of the fields (RFC 4340, section 5.1).
const DATA_OFFSET: usize = 4;

const COVERAGE: usize = 5;

const CHECKSUM: usize = 6;

const AFTER_CHECKSUM: usize = 8;

// CsCov is a number of four bits.
const NIBBLE: u8 = 16;

// Data Offset and CsCov count words of 32 bits.
const WORD: usize = 4;

// Sums in ones' complement are counted modulo this number.
const MODULUS: u64 = 65_535;

/// Why a packet's checksum was refused.
#[derive(Clone, Copy, Debug, PartialEq, Eq)]
pub enum SumFault {
    /// The coverage that the packet states passes its end.
    CoverageTooLarge,
    /// The checksum in the packet is not that of its bytes.
    Wrong,
}

/// How many bytes of the packet its checksum covers, from its start: all of them if the field CsCov is 0, otherwise the
/// header, the options and `4 * (CsCov - 1)` bytes of the data. None exactly if that passes the packet's end (RFC 4340,
/// section 9.2). The packet has at least 8 bytes, so that its first fields are there.
pub fn covered(bytes: &[u8]) -> Option<usize>
    requires { 8 ≤ length bytes.now }
    ensures { result ≡ covered bytes.now }
{
    let coverage = usize::from(bytes[COVERAGE] % NIBBLE);
    if coverage == 0 {
        return Some(bytes.len());
    }
    let covered = WORD * usize::from(bytes[DATA_OFFSET]) + WORD * (coverage - 1);
    if covered <= bytes.len() {
        Some(covered)
    } else {
        None
    }
}

// The sum with the words that the checksum covers added. The checksum's two bytes count as zero.
fn add_covered(start: u64, bytes: &[u8], covered: usize) -> u64
    requires whole { 8 ≤ length bytes.now }
    requires inside { covered ≤ length bytes.now }
    requires room { start + 2 ^ 42 * length bytes.now < 2 ^ 64 }
    ensures { IsSameSum result (start + word_sum (take covered (with_checksum 0 bytes.now))) }
{
    if covered < AFTER_CHECKSUM {
        return add_words(start, &bytes[..covered.min(CHECKSUM)]);
    }
    let before = add_words(start, &bytes[..CHECKSUM]);
    add_words(before, &bytes[AFTER_CHECKSUM..covered])
}

/// The checksum of a packet whose first `covered` bytes it covers: the complement of the ones' complement sum over the
/// pseudo-header and these bytes, with the checksum's own bytes 6 and 7 taken as zero and an odd last byte followed by
/// zero (RFC 4340, section 9; RFC 1071, section 1). The packet has 8 to 65,535 bytes, and `covered` is at most its
/// length. If `covered` is below 8, the sum is over that many bytes of the packet with a checksum of zero.
pub fn checksum(pseudo: &Pseudo, bytes: &[u8], covered: usize) -> u16
    requires low { 8 ≤ length bytes.now }
    requires high { length bytes.now ≤ 65535 }
    requires inside { covered ≤ length bytes.now }
    ensures { result ≡ checksum pseudo.now bytes.now covered }
{
    let header = add_pseudo_header(pseudo, bytes.len() as u64);
    0xffff - fold(add_covered(header, bytes, covered))
}

// Whether two checksums are equal; zero has two spellings.
fn is_same(a: u16, b: u16) -> bool
    ensures { result ≡ same_checksum a b }
{
    a == b || (matches!(a, 0 | 0xffff) && matches!(b, 0 | 0xffff))
}

// Whether the checksum in a packet is that of its first `covered` bytes, which are at least 8. Then these, with the
// checksum among them, and the pseudo-header add up to zero in ones' complement (RFC 1071, section 1).
fn adds_up(pseudo: &Pseudo, bytes: &[u8], covered: usize) -> bool
    requires low { 8 ≤ covered }
    requires high { length bytes.now ≤ 65535 }
    requires inside { covered ≤ length bytes.now }
    ensures { result ≡ same_checksum (stated bytes.now) (checksum pseudo.now bytes.now covered) }
{
    let header = add_pseudo_header(pseudo, bytes.len() as u64);
    add_words(header, &bytes[..covered]) % MODULUS == 0
}

// Whether the checksum in a packet, which is `sum`, is that of its first `covered` bytes.
fn is_right(pseudo: &Pseudo, bytes: &[u8], covered: usize, sum: u16) -> bool
    requires low { 8 ≤ length bytes.now }
    requires high { length bytes.now ≤ 65535 }
    requires inside { covered ≤ length bytes.now }
    requires sum { sum ≡ stated bytes.now }
    ensures { result ≡ same_checksum sum (checksum pseudo.now bytes.now covered) }
{
    if AFTER_CHECKSUM <= covered {
        adds_up(pseudo, bytes, covered)
    } else {
        is_same(sum, checksum(pseudo, bytes, covered))
    }
}

/// Checks a packet's checksum. It refuses, in this order: a coverage that passes the packet's end, exactly if `covered`
/// returns None; and a checksum in bytes 6 and 7 that is not that of the packet. The two spellings of zero, 0000 and
/// ffff, count as equal (RFC 4340, section 9.1). The packet has 8 to 65,535 bytes.
pub fn check(pseudo: &Pseudo, bytes: &[u8]) -> Result<(), SumFault>
    requires low { 8 ≤ length bytes.now }
    requires high { length bytes.now ≤ 65535 }
    ensures value { result ≡ checked pseudo.now bytes.now }
    ensures too_large { (result ≡ Err SumFault.CoverageTooLarge) ↔ (covered bytes.now ≡ None) }
    ensures wrong { (result ≡ Err SumFault.Wrong)
        ↔ IsSomeAnd (covered bytes.now) (λ n. stated bytes.now % 65535 ≢ checksum pseudo.now bytes.now n % 65535) }
{
    let Some(covered) = covered(bytes) else {
        return Err(SumFault::CoverageTooLarge);
    };
    let stated = BigEndian::read_u16(&bytes[CHECKSUM..]);
    if is_right(pseudo, bytes, covered, stated) {
        Ok(())
    } else {
        Err(SumFault::Wrong)
    }
}

// The checksum of a packet whose own checksum is zero, so that all covered words count.
fn sum_of_zeroed(pseudo: &Pseudo, bytes: &[u8], covered: usize) -> u16
    requires zero { with_checksum 0 bytes.now ≡ bytes.now }
    requires high { length bytes.now ≤ 65535 }
    requires inside { covered ≤ length bytes.now }
    ensures { result ≡ checksum pseudo.now bytes.now covered }
{
    let header = add_pseudo_header(pseudo, bytes.len() as u64);
    0xffff - fold(add_words(header, &bytes[..covered]))
}

// Puts a checksum into a packet.
fn write_checksum(bytes: &mut [u8], sum: u16)
    requires { 8 ≤ length bytes.old }
    ensures { bytes.new ≡ with_checksum sum bytes.old }
{
    BigEndian::write_u16(&mut bytes[CHECKSUM..], sum);
}

/// Writes a packet's checksum into its bytes 6 and 7 and returns true; `check` then accepts the packet. If `covered`
/// returns None, it changes nothing and returns false. The packet has 8 to 65,535 bytes.
pub fn seal(pseudo: &Pseudo, bytes: &mut [u8]) -> bool
    requires low { 8 ≤ length bytes.old }
    requires high { length bytes.old ≤ 65535 }
    ensures answer { result ≡ is_some (covered bytes.old) }
    ensures value { bytes.new ≡ sealed pseudo.now bytes.old }
    ensures refused { result ≡ false → bytes.new ≡ bytes.old }
    ensures accepted { IsTrue result → checked pseudo.now bytes.new ≡ Ok tt }
{
    let Some(covered) = covered(bytes) else {
        return false;
    };
    write_checksum(bytes, 0);
    let sum = sum_of_zeroed(pseudo, bytes, covered);
    write_checksum(bytes, sum);
    true
}
