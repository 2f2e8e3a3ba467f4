//! Numbers as words have them.
ghost use Rattle.std.specs.Prelude.{◌≡◌, ◌+◌, ◌-◌, ◌≤◌, IfSome, if◌then◌else◌};
ghost use Rattle.tool_text.specs.Numbers.{is_digit, digits_after, number_below};

fn digit_of(byte: u8) -> Option<u64>
    ensures { result ≡ (if is_digit byte then Some (byte - 48) else None) }
{
    if !byte.is_ascii_digit() {
        return None;
    }
    Some(u64::from(byte - b'0'))
}

fn digits_up_to(most: u64, text: &[u8]) -> Option<u64>
    ensures value { result ≡ digits_after (most + 1) 0 text.now }
    ensures within { IfSome result (λ number. number ≤ most) }
{
    let mut number = 0u64;
    for byte in text {
        let digit = digit_of(*byte)?;
        number = number.checked_mul(10)?.checked_add(digit)?;
        if most < number {
            return None;
        }
    }
    Some(number)
}

/// The number that a text spells, if it is a decimal number up to this one, without sign or leading zero (own).
pub fn number_up_to(most: u64, text: &[u8]) -> Option<u64>
    ensures value { result ≡ number_below (most + 1) text.now }
    ensures within { IfSome result (λ number. number ≤ most) }
{
    match text {
        [] => None,
        [b'0', _, ..] => None,
        _ => digits_up_to(most, text),
    }
}
