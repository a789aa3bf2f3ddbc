//! Numbers in decimal digits, without leading zeros.

ghost use Rattle.std.specs.Prelude.{◌≡◌, ◌≤◌, IfSome};
ghost use Rattle.std.specs.Option.{option_map};
ghost use Rattle.sig_terms.specs.Tokens.{digits_on, number_at};

use crate::bytes::is_digit_byte;

/// The number whose digits are those of `first` and those at the front of the bytes, as many as
/// leave it at most `most`.
fn digits(most: u64, first: u64, bytes: &[u8]) -> (u64, &[u8])
    requires { first ≤ most }
    ensures number { (result.0, result.1.now) ≡ digits_on most first bytes.now }
    ensures most { result.0 ≤ most }
{
    let mut number = first;
    for (i, b) in bytes.iter().enumerate() {
        if !is_digit_byte(*b) {
            return (number, &bytes[i..]);
        }
        let next = 10 * u128::from(number) + u128::from(*b - b'0');
        if next > u128::from(most) {
            return (number, &bytes[i..]);
        }
        number = next as u64;
    }
    (number, &[])
}

/// The number at the front of the bytes: as many digits as leave it at most `most`, where a `0` is a
/// number by itself. There is none where no digit stands there. It comes with the bytes behind it.
///
/// Asks that `most` is at least 9.
pub fn number(most: u64, bytes: &[u8]) -> Option<(u64, &[u8])>
    requires { 9 ≤ most }
    ensures number { option_map (λ x. (x.0, x.1.now)) result ≡ number_at most bytes.now }
    ensures most { IfSome result (λ x. x.0 ≤ most) }
{
    match bytes {
        [first, rest @ ..] if is_digit_byte(*first) => {
            if *first == b'0' {
                Some((0, rest))
            } else {
                Some(digits(most, u64::from(*first - b'0'), rest))
            }
        }
        _ => None,
    }
}
