//! Numbers in lines.

ghost use Rattle.std.specs.Prelude.{◌≡◌, ◌⊎◌, ◌+◌, ◌*◌, ◌^◌, ◌<◌, ◌≤◌, false, MatchOption};
ghost use Rattle.line_words.specs.Names.{is_digit};
ghost use Rattle.row_reading.specs.Found.{Finds};
ghost use Rattle.row_reading.specs.Numbers.{IsNumberTo};

/// The number that is spelled up to this byte, which is no digit, and what stands after that byte.
pub fn take_number(bytes: &[u8], stop: u8) -> Option<(u32, &[u8])>
    requires { is_digit stop ≡ false }
    ensures { Finds (λ r. (r.0, r.1.now)) (IsNumberTo stop bytes.now) result }
{
    let (first, mut rest) = bytes.split_first()?;
    let mut value = digit_of(*first)?;
    loop {
        let (next, after) = rest.split_first()?;
        if *next == stop {
            return Some((value, after));
        }
        let digit = digit_of(*next)?;
        value = with_digit(value, digit)?;
        rest = after;
    }
}

fn digit_of(byte: u8) -> Option<u32>
    ensures { MatchOption result (is_digit byte ≡ false) (λ d. (d < 10) × (byte ≡ 48 + d)) }
{
    match byte {
        b'0'..=b'9' => Some(u32::from(byte - b'0')),
        _ => None,
    }
}

/// The number with one more digit, unless zero would have another digit after it or 32 bits are too few.
fn with_digit(value: u32, digit: u32) -> Option<u32>
    requires { digit < 10 }
    ensures { MatchOption result ((value ≡ 0) ⊎ (2 ^ 32 ≤ value * 10 + digit)) (λ n. (0 < value) × (n ≡ value * 10 + digit)) }
{
    if value == 0 {
        return None;
    }
    value.checked_mul(10)?.checked_add(digit)
}
