//! Numbers in texts (IEC 61131-3:2003, 2.2.1, table 4).
ghost use Rattle.std.specs.Prelude.{◌≡◌, ◌↔◌, ◌≤◌, ◌^◌, ℕ, Some, if◌then◌else◌, option_map, pos, IfSome};
ghost use Rattle.std.specs.Str.Parse.{digits_value};
ghost use Rattle.st_values.specs.Numbers.{AreDigits, capped, digits_read, negative, number_read, without_underscores};

/// What a number above all types' ranges counts as.
pub const TOO_MUCH: u128 = 1 << 64;

/// Reads a whole text as a number with or without a base. What is above all types' ranges counts as 2^64.
pub fn read_number(text: &[u8]) -> Option<u128>
    ensures value { result ≡ option_map capped (number_read text.now) }
    ensures bound { IfSome result (λ number. number ≤ 2 ^ 64) }
{
    if text.starts_with(b"16#") {
        read_digits(16, &text[3..])
    } else if text.starts_with(b"8#") {
        read_digits(8, &text[2..])
    } else if text.starts_with(b"2#") {
        read_digits(2, &text[2..])
    } else {
        read_digits(10, text)
    }
}

/// Reads a whole text as digits of a base with single `_` between them. What is above all types' ranges counts as 2^64.
pub fn read_digits(base: u32, text: &[u8]) -> Option<u128>
    requires low { 2 ≤ base }
    requires high { base ≤ 16 }
    ensures value { result ≡ option_map capped (digits_read base text.now) }
    ensures bound { IfSome result (λ number. number ≤ 2 ^ 64) }
{
    let mut number = 0u128;
    let mut after_digit = false;
    for byte in text {
        if let Some(digit) = char::from(*byte).to_digit(base) {
            number = (number * u128::from(base) + u128::from(digit)).min(TOO_MUCH);
            after_digit = true;
        } else if after_digit && *byte == b'_' {
            after_digit = false;
        } else {
            return None;
        }
    }
    after_digit.then_some(number)
}

/// The number, below zero where there is a `-`.
pub fn with_sign(is_negative: bool, magnitude: Option<u128>) -> Option<i128>
    requires { IfSome magnitude (λ number. number ≤ 2 ^ 64) }
    ensures { result ≡ option_map (if is_negative then negative else pos) magnitude }
{
    let number = magnitude? as i128;
    Some(if is_negative { -number } else { number })
}

/// What is read as digits is digits with single `_` between them, and the number that they write.
pub fn digits_are_their_number(base: u32, text: &[u8])
    requires { base ≤ 16 }
    ensures { (n : ℕ) → (digits_read base text.now ≡ Some n)
        ↔ (AreDigits base text.now × (digits_value base (without_underscores text.now) ≡ n)) }
{}
