//! Numbers of a trace.

ghost use Rattle.std.specs.Prelude.{◌≡◌, ◌<◌, ◌&&◌, nat_le, Some, None, if◌then◌else◌};
ghost use Rattle.device_audit.specs.TraceLines.{digits_after, is_digit, longer, number_of};

// The number with a digit more, if it is one and the number is still a u32.
fn with_digit(number: u32, digit: u8) -> Option<u32>
    ensures { result ≡ (if is_digit digit && nat_le (longer number digit) 4294967295 then Some (longer number digit) else None) }
{
    if !digit.is_ascii_digit() {
        return None;
    }
    let longer = u64::from(number) * 10 + u64::from(digit - b'0');
    if longer > 4_294_967_295 {
        return None;
    }
    Some(longer as u32)
}

#[tactic(auto, using(crate::proofs::Digits::digit_on, crate::proofs::Digits::digit_ends))]
fn digits(text: &[u8]) -> Option<u32>
    ensures { result ≡ digits_after 0 text.now }
{
    let mut number = 0;
    for digit in text {
        match with_digit(number, *digit) {
            Some(more) => number = more,
            None => return None,
        }
    }
    Some(number)
}

/// The number that decimal digits without a leading zero write.
pub(crate) fn number_of(text: &[u8]) -> Option<u32>
    ensures { result ≡ number_of text.now }
{
    match text {
        [] => None,
        [b'0'] => Some(0),
        [b'0', ..] => None,
        [_, ..] => digits(text),
    }
}
