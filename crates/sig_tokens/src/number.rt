ghost use Rattle.std.specs.Prelude.{◌≡◌, ◌≤◌, ◌^◌, true};
ghost use Rattle.sig_tokens.specs.Numbers.{number, up_to, is_in_range, is_value, is_one, is_two, negative, int_of, count_of};

/// The number that the digits write, where it isn't above the bound.
fn number_up_to(most: u64, digits: &[u8]) -> Option<u64>
    ensures { result ≡ up_to most (number digits.now) }
{
    let mut n: u128 = 0;
    for digit in digits {
        n = n * 10 + digit.saturating_sub(b'0') as u128;
        if n > most as u128 {
            return None;
        }
    }
    Some(n as u64)
}

/// Whether the integer has 64 bits signed.
pub fn fits_in_range(text: &[u8]) -> bool
    ensures { result ≡ is_in_range text.now }
{
    match text {
        [] => false,
        [b'-', digits @ ..] => number_up_to(1 << 63, digits).is_some(),
        _ => number_up_to((1 << 63) - 1, text).is_some(),
    }
}

/// Whether digits without a sign write the number.
fn spells(n: u64, text: &[u8]) -> bool
    ensures { result ≡ is_value n text.now }
{
    match text {
        [] => false,
        [b'-', ..] => false,
        _ => number_up_to(n, text) == Some(n),
    }
}

/// Whether the integer is 1.
pub fn spells_one(text: &[u8]) -> bool
    ensures { result ≡ is_one text.now }
{
    spells(1, text)
}

/// Whether the integer is 2.
pub fn spells_two(text: &[u8]) -> bool
    ensures { result ≡ is_two text.now }
{
    spells(2, text)
}

/// The integer so much below 0.
fn negated(n: u64) -> i64
    requires { n ≤ 2 ^ 63 }
    ensures { result ≡ negative n }
{
    (-i128::from(n)) as i64
}

/// The integer.
///
/// Asks that the integer has 64 bits signed, as [`fits_in_range`] tells.
pub fn read_int(text: &[u8]) -> i64
    requires { is_in_range text.now ≡ true }
    ensures { result ≡ int_of text.now }
{
    match text {
        [] => 0,
        [b'-', digits @ ..] => match number_up_to(1 << 63, digits) {
            Some(n) => negated(n),
            None => unreachable!(),
        },
        _ => match number_up_to((1 << 63) - 1, text) {
            Some(n) => n as i64,
            None => unreachable!(),
        },
    }
}

/// The integer, where it isn't below 0.
///
/// Asks that the integer has 64 bits signed, as [`fits_in_range`] tells.
pub fn read_count(text: &[u8]) -> Option<u64>
    requires { is_in_range text.now ≡ true }
    ensures { result ≡ count_of text.now }
{
    match text {
        [] => None,
        [b'-', digits @ ..] => {
            if number_up_to(0, digits).is_some() {
                Some(0)
            } else {
                None
            }
        }
        _ => number_up_to((1 << 63) - 1, text),
    }
}
